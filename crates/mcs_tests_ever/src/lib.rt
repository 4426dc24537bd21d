//! Tests of the check for all time, over its public items.
#![tactic(auto)]

#[cfg(test)]
mod chains;
#[cfg(test)]
mod computes;
#[cfg(test)]
mod gateway;
#[cfg(test)]
mod lines;
#[cfg(test)]
mod repeats;
#[cfg(test)]
mod systems;
#[cfg(test)]
mod told;
