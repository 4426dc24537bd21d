//! Tests of the public items of `mcs_team`, beyond what the whole runs of `mcs_corpus` show.
#![tactic(auto)]

#[cfg(test)]
mod by_core;
#[cfg(test)]
mod by_number;
#[cfg(test)]
mod collectors;
#[cfg(test)]
mod contexts;
#[cfg(test)]
mod desks;
#[cfg(test)]
mod finished;
#[cfg(test)]
mod idle;
#[cfg(test)]
mod lending;
#[cfg(test)]
mod orders;
#[cfg(test)]
mod refused;
#[cfg(test)]
mod reports;
#[cfg(test)]
mod sinks;
#[cfg(test)]
mod systems;
#[cfg(test)]
mod team;
#[cfg(test)]
mod telling;
#[cfg(test)]
mod whole;
