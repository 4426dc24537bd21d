//! Cores that a desk lends by their numbers.
ghost use Rattle.std.specs.Prelude.{◌≡◌, ◌<◌, OnOk};

use super::systems::{SIGNALS, moment, system};
use mcs_ticks::CoreId;
use mcs_window::{Desk, Done};
use std::process::Abort;
use std::test::Fail;

/// Whether a core is lent, from one moment to before another. Its stretch is run at once, and kept
/// until it comes back.
fn lends(
    desk: &mut Desk,
    away: &mut Vec<Done>,
    core: usize,
    first: u64,
    past: u64,
) -> Result<bool, Fail>
    requires { core < desk.old.system.cores }
    ensures { OnOk result (desk.new.system ≡ desk.old.system) }
{
    let Some(piece) = desk.lend_core(CoreId(core)) else {
        return Ok(false);
    };
    let Ok(done) = piece.run() else {
        return Err(Fail::from("no memory"));
    };
    let same = done.core == CoreId(core) && done.first.get() == first && done.past.get() == past;
    away.push(done)?;
    Ok(same)
}

/// Whether a core is not lent.
fn stays(desk: &mut Desk, core: usize) -> bool
    requires { core < desk.old.system.cores }
    ensures { desk.new.system ≡ desk.old.system }
{
    desk.lend_core(CoreId(core)).is_none()
}

/// Whether the stretch that was lent last comes back.
fn comes_back(desk: &mut Desk, away: &mut Vec<Done>) -> bool
    ensures { desk.new.system ≡ desk.old.system }
{
    match away.pop() {
        Some(done) => desk.settle(done).is_ok(),
        None => false,
    }
}

/// Signals are under way for 3 between the two cores, both ways.
#[test]
fn the_second_core_is_lent_first(rt: HostRuntime) -> Result<(), Fail> {
    let alloc = rt.alloc();
    let mut desk = Desk::new(alloc, system(alloc, SIGNALS)?, moment(7)?)?;
    let mut away = Vec::new(alloc);
    is_lent_first(&rt, &mut desk, &mut away)
}

fn is_lent_first(rt: &impl Abort, desk: &mut Desk, away: &mut Vec<Done>) -> Result<(), Fail> {
    assert_eq!(rt; desk.cores(), 2);
    let second = lends(desk, away, 1, 0, 3)?;
    assert!(rt; second && stays(desk, 1));
    // a signal that core 1 makes at 0 would arrive at 3
    let first = lends(desk, away, 0, 0, 3)?;
    assert!(rt; first && comes_back(desk, away));
    assert!(rt; stays(desk, 0) && comes_back(desk, away));
    let goes_on = lends(desk, away, 0, 3, 6)?;
    assert!(rt; goes_on);
    Ok(())
}
