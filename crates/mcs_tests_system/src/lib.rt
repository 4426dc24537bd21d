//! Tests of `mcs_system` and `mcs_load`, over their public items.
#![tactic(auto)]

#[cfg(test)]
mod links;
#[cfg(test)]
mod load;
#[cfg(test)]
mod sample;
#[cfg(test)]
mod well_formed;
