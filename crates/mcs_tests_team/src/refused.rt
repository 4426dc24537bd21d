//! Stretches of other desks, which a desk refuses.

use super::lending::{Step, desk, differs, differs_afresh, settles};
use super::systems::{ONE_ROUND, RING, SIGNALS, TWO_MAKERS};
use mcs_window::{Desk, Done, SettleFault};
use std::alloc::Global;
use std::process::Abort;
use std::test::Fail;

/// The first steps with another result: of a desk that lends stretches, and of another desk that
/// then gets them.
fn differs_at_another(
    alloc: Global,
    from: (&str, u64, &[Step]),
    at: (&str, u64, &[Step]),
) -> Result<(Option<usize>, Option<usize>), Fail> {
    let mut away = Vec::new(alloc);
    let first = differs_afresh(alloc, from.0, from.1, &mut away, from.2)?;
    let second = differs_afresh(alloc, at.0, at.1, &mut away, at.2)?;
    Ok((first, second))
}

/// A stretch of an equal desk that is no longer lent.
#[test]
fn a_stretch_that_is_not_lent(rt: HostRuntime) -> Result<(), Fail> {
    let lent = [Step::Lends(0, 0, 1)];
    let refused = [
        Step::Lends(0, 0, 1),
        Step::Settles(0),
        Step::Refuses(0, SettleFault::NotLent),
    ];
    let differs = differs_at_another(
        rt.alloc(),
        (RING, 7, lent.as_slice()),
        (RING, 7, refused.as_slice()),
    )?;
    assert_eq!(rt; differs, (None, None));
    Ok(())
}

#[test]
fn a_stretch_of_another_system(rt: HostRuntime) -> Result<(), Fail> {
    let lent = [Step::Lends(0, 0, 2)];
    let refused = [Step::Refuses(0, SettleFault::Foreign)];
    let differs = differs_at_another(
        rt.alloc(),
        (TWO_MAKERS, 7, lent.as_slice()),
        (RING, 7, refused.as_slice()),
    )?;
    assert_eq!(rt; differs, (None, None));
    Ok(())
}

/// The horizon of the first desk is nearer, so it lends a shorter stretch.
#[test]
fn a_stretch_of_another_length(rt: HostRuntime) -> Result<(), Fail> {
    let lent = [Step::Lends(0, 0, 2)];
    let refused = [
        Step::Lends(0, 0, 3),
        Step::Refuses(0, SettleFault::OtherLoan),
        Step::Settles(0),
    ];
    let differs = differs_at_another(
        rt.alloc(),
        (SIGNALS, 1, lent.as_slice()),
        (SIGNALS, 7, refused.as_slice()),
    )?;
    assert_eq!(rt; differs, (None, None));
    Ok(())
}

/// Whether a desk refuses the stretch of a core that a new desk has away after these steps.
fn refuses(
    desk: &mut Desk,
    alloc: Global,
    text: &str,
    steps: &[Step],
    core: usize,
    fault: SettleFault,
) -> Result<bool, Fail> {
    let mut away = Vec::new(alloc);
    match differs_afresh(alloc, text, 4, &mut away, steps)? {
        None => settles(desk, &mut away, core, Some(fault)),
        Some(_) => Ok(false),
    }
}

/// Core 1 is lent once core 0 is back, and at another desk while core 0 is away: its stretch is the
/// same, but not the clocks. A third desk lends it by the same clocks, and gives a copy of the
/// stretch that has come back.
#[test]
fn a_stretch_by_other_clocks(rt: HostRuntime) -> Result<(), Fail> {
    let alloc = rt.alloc();
    let mut desk = desk(alloc, ONE_ROUND, 4)?;
    let mut own = Vec::new(alloc);
    comes_back_alone(&rt, alloc, &mut desk, &mut own)
}

fn comes_back_alone(
    rt: &impl Abort,
    alloc: Global,
    desk: &mut Desk,
    own: &mut Vec<Done>,
) -> Result<(), Fail> {
    let lent = [Step::Lends(0, 0, 2), Step::Settles(0), Step::Lends(1, 0, 2)];
    let ahead = [Step::Lends(0, 0, 2), Step::Lends(1, 0, 2)];
    let of_ring = [Step::Lends(0, 0, 1)];
    let same = differs(desk, own, lent.as_slice())?;
    assert_eq!(rt; same, None);
    let other = SettleFault::OtherLoan;
    let refused = refuses(desk, alloc, ONE_ROUND, ahead.as_slice(), 1, other)?;
    assert!(rt; refused);
    let back = settles(desk, own, 1, None)?;
    assert!(rt; back);
    let gone = SettleFault::NotLent;
    let again = refuses(desk, alloc, ONE_ROUND, lent.as_slice(), 1, gone)?;
    assert!(rt; again);
    // core 0 is not lent, but another system is reported first
    let foreign = SettleFault::Foreign;
    let strange = refuses(desk, alloc, RING, of_ring.as_slice(), 0, foreign)?;
    assert!(rt; strange);
    Ok(())
}
