//! Tests of `mcs_verdict`, `mcs_report`, `mcs_table`, `mcs_chain` and `mcs_why`, over their public
//! items.
#![tactic(auto)]

#[cfg(test)]
mod chain;
#[cfg(test)]
mod core_tallies;
#[cfg(test)]
mod found;
#[cfg(test)]
mod limits;
#[cfg(test)]
mod table;
#[cfg(test)]
mod why;
