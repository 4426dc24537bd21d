//! Tests of the public items of `mcs_core` for one core, beyond what the whole runs of `mcs_corpus`
//! show.
#![tactic(auto)]

#[cfg(test)]
mod arrivals;
#[cfg(test)]
mod contexts;
#[cfg(test)]
mod events;
#[cfg(test)]
mod play;
#[cfg(test)]
mod sinks;
#[cfg(test)]
mod stretches;
#[cfg(test)]
mod systems;
#[cfg(test)]
mod texts;
