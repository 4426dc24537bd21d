//! Tests of `mcs_explain`.
#![tactic(auto)]

#[cfg(test)]
mod alone;
#[cfg(test)]
mod asked;
#[cfg(test)]
mod chains;
#[cfg(test)]
mod why;
