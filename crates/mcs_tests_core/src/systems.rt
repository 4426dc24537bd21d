//! Systems, as files describe them.

use mcs_load::load;
use mcs_system::System;
use std::alloc::Global;
use std::test::Fail;

/// Returns the system that a text describes.
pub(crate) fn system(alloc: Global, text: &str) -> Result<System, Fail> {
    Ok(load(alloc, text.as_bytes())?)
}

/// One thread exhausts its budget twice, and is done at 11.
pub const DEPLETES: &str = r#"
version = 1
cores = 1
delay = 1
context = [{ name = "a", core = 0, budget = 2, period = 5 }]
thread = [{ name = "A", context = "a", priority = 5, rounds = 1, script = ["compute 5"] }]
"#;

/// Two cores signal a third one, on which a thread waits.
pub const TWO_MAKERS: &str = r#"
version = 1
cores = 3
delay = 2
context = [
    { name = "s", core = 0, budget = 5, period = 10 },
    { name = "t", core = 1, budget = 5, period = 10 },
    { name = "w", core = 2, budget = 5, period = 10 },
]
note = [{ name = "n", core = 2 }]
thread = [
    { name = "S", context = "s", priority = 5, rounds = 1, script = ["compute 1", "signal n 1"] },
    { name = "T", context = "t", priority = 5, rounds = 1, script = ["compute 1", "signal n 2"] },
    { name = "W", context = "w", priority = 5, rounds = 1, script = ["wait n", "compute 1"] },
]
"#;

/// A time slice, a thread that waits, one that starts late, and an order, beside a core that
/// signals.
pub const OF_ALL_KINDS: &str = r#"
version = 1
cores = 2
delay = 2
min_budget = 2
context = [
    { name = "w", core = 0, budget = 3, period = 20 },
    { name = "a", core = 0, budget = 3, period = 3 },
    { name = "r", core = 0, budget = 2, period = 10, extra_refills = 1 },
    { name = "s", core = 1, budget = 5, period = 10 },
]
note = [{ name = "n", core = 0 }]
thread = [
    { name = "W", context = "w", priority = 7, script = ["wait n", "compute 1"] },
    { name = "A", context = "a", priority = 5, script = ["compute 9", "yield"] },
    { name = "R", context = "r", priority = 6, start = 4, script = ["compute 1", "yield"] },
    { name = "S", context = "s", priority = 5, script = ["compute 1", "signal n 5"] },
]
order = [{ at = 4, core = 0, context = "a", budget = 2, period = 2 }]
"#;
