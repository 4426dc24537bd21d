//! The options and the questions of the tests.
ghost use Rattle.std.specs.Prelude.{◌≤◌, ◌^◌};

use mcs_check_words::{Format, Options, Question, Show};
use mcs_ticks::Tick;
use std::alloc::Global;
use std::test::Fail;

/// Options for an explanation as text.
pub(crate) fn options(alloc: Global, horizon: u64, workers: usize) -> Options
    requires horizon { horizon ≤ 2 ^ 40 }
    requires workers { (1 ≤ workers) × (workers ≤ 64) }
{
    Options {
        file: None,
        horizon: Tick::new(horizon).unwrap(),
        workers,
        allowed: Vec::new(alloc),
        strict: false,
        show: Show::Findings,
        show_given: false,
        format: Format::Text,
        why: None,
        forever: false,
    }
}

pub(crate) fn question(alloc: Global, thread: &str, round: &str) -> Result<Question, Fail> {
    Ok(Question {
        thread: String::from_str(alloc, thread)?,
        round: String::from_str(alloc, round)?,
    })
}
