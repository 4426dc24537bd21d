//! Tests of `mcs_check`, and of calls of `mcs_verdict` and `mcs_hints` that it doesn't make.
#![tactic(auto)]

#[cfg(test)]
mod alone;
#[cfg(test)]
mod chains;
#[cfg(test)]
mod findings;
#[cfg(test)]
mod formats;
#[cfg(test)]
mod hinted;
#[cfg(test)]
mod judged;
#[cfg(test)]
mod progress;
#[cfg(test)]
mod runs;
#[cfg(test)]
mod shared;
#[cfg(test)]
mod streams;
