//! Tests of `mcs_cli` and `mcs_check_words`, over their public items.
#![tactic(auto)]

#[cfg(test)]
mod tests;
