//! Desks whose cores use other collectors from some moment on, and the contents of these when the
//! desk is given up.
ghost use Rattle.std.specs.Prelude.{◌≡◌, IfOk};

use super::systems::{SIGNALS, moment, system};
use mcs_ticks::{Collector, CoreId, Nothing, Row, Tick};
use mcs_window::Desk;
use std::alloc::Global;
use std::process::Abort;
use std::test::Fail;

/// Returns a desk of two cores with other lists, which begin with the rows on the desk.
fn told_on(alloc: Global, desk: Desk) -> Result<Desk, Fail>
    requires { desk.system.cores ≡ 2 }
    ensures { IfOk result (λ on. on.system ≡ desk.system) }
{
    let mut desk = desk;
    let mut taken = [Tick::ZERO; 64];
    taken[0] = desk.taken(CoreId(0));
    taken[1] = desk.taken(CoreId(1));
    let first = desk.take_rows(CoreId(0));
    let second = desk.take_rows(CoreId(1));
    let mut told = Vec::new(alloc);
    told.push(first)?;
    told.push(second)?;
    Ok(desk.retold(taken, told))
}

/// Returns a desk of two cores that keeps no rows from now on.
pub(crate) fn told_to_none(alloc: Global, desk: Desk) -> Result<Desk<Nothing>, Fail>
    requires { desk.system.cores ≡ 2 }
    ensures { IfOk result (λ on. on.system ≡ desk.system) }
{
    let mut taken = [Tick::ZERO; 64];
    taken[0] = desk.clock(CoreId(0));
    taken[1] = desk.clock(CoreId(1));
    let told = vec![in alloc; Nothing; 2]?;
    Ok(desk.retold(taken, told))
}

/// Takes turns until a desk holds `enough`.
fn go<S: Collector + Drop>(desk: Desk<S>, enough: usize) -> Result<Desk<S>, Fail>
    ensures { IfOk result (λ gone. gone.system ≡ desk.system) }
{
    let mut desk = desk;
    if desk.lost() || !desk.all_are_here() {
        return Err(Fail::from("a core is away"));
    }
    desk.go(enough)?;
    Ok(desk)
}

/// Checks the moments of rows.
pub(crate) fn are_at(rt: &impl Abort, rows: &[Row], moments: &[u64]) {
    assert_eq!(rt; rows.len(), moments.len());
    for (row, moment) in rows.iter().zip(moments) {
        assert_eq!(rt; row.moment.get(), *moment);
    }
}

/// Two signals are under way when the cores change to other lists.
#[test]
fn cores_tell_on(rt: HostRuntime) -> Result<(), Fail> {
    let alloc = rt.alloc();
    let system = system(alloc, SIGNALS)?;
    assert_eq!(rt; system.parts().cores, 2);
    let desk = go(Desk::new(alloc, system, moment(8)?)?, 4)?;
    assert_eq!(rt; desk.clock(CoreId(1)).get(), 4);
    let told = go(told_on(alloc, desk)?, usize::MAX)?.into_told();
    assert_eq!(rt; told.len(), 2);
    are_at(&rt, told[0].as_slice(), &[5, 5, 6, 6, 7, 7]);
    are_at(&rt, told[1].as_slice(), &[0, 0, 2, 3, 4, 4, 4]);
    Ok(())
}

#[test]
fn cores_tell_nothing_more(rt: HostRuntime) -> Result<(), Fail> {
    let alloc = rt.alloc();
    let system = system(alloc, SIGNALS)?;
    assert_eq!(rt; system.parts().cores, 2);
    let desk = go(Desk::new(alloc, system, moment(8)?)?, 4)?;
    let desk = go(told_to_none(alloc, desk)?, usize::MAX)?;
    assert_eq!(rt;
        (desk.taken(CoreId(1)).get(), desk.clock(CoreId(1)).get()),
        (4, 9)
    );
    assert_eq!(rt; desk.into_told().len(), 2);
    Ok(())
}
