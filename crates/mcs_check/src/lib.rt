//! The check of a system, from the bytes read to the lines written: findings, jobs or figures.
#![tactic(auto)]

mod all_found;
mod alone;
mod by_core;
mod core_finder;
mod core_watch;
mod ended;
mod find;
mod finder;
mod found_lines;
mod quiet;
mod rest;
mod rounds;
mod run;
mod scope;
mod seen;
mod sought;
mod thread_watch;
mod unjudged;

pub use alone::check_alone;
pub use run::{check, check_with};
