//! Views of a whole system at a moment.

use super::systems::{DEPLETES, moment, system};
use mcs_control::ContextView;
use mcs_team::probe;
use std::process::Abort;
use std::test::Fail;

/// Checks the one refill of the one context, of 2 ticks: its start, and the ticks in use.
fn shows(rt: &impl Abort, views: &[ContextView], begins: u64, using: u64) {
    assert_eq!(rt; views.len(), 1);
    let refills = views[0].refills.as_slice();
    assert_eq!(rt; refills.len(), 1);
    assert_eq!(rt; (refills[0].begins, refills[0].amount), (begins, 2));
    assert_eq!(rt; (views[0].left, views[0].using), (None, using));
}

#[test]
fn probe_counts_ticks_in_use(rt: HostRuntime) -> Result<(), Fail> {
    let alloc = rt.alloc();
    for (ticks, begins, using) in [(1, 0, 1), (2, 5, 0)] {
        let views = probe(alloc, system(alloc, DEPLETES)?, moment(ticks)?)?;
        shows(&rt, views.as_slice(), begins, using);
    }
    Ok(())
}
