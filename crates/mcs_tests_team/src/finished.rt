//! Desks with all cores back, or never lent, that are finished by one thread.
ghost use Rattle.std.specs.Prelude.{◌≡◌, ◌<◌};

use super::lending::{Step, desk, differs, lends_none};
use super::systems::{IDLE, ONE_ROUND, RING, moment, system};
use mcs_team::simulate_alone;
use mcs_ticks::{CoreId, Row};
use mcs_window::Desk;
use std::alloc::Global;
use std::process::Abort;
use std::test::Fail;

/// Whether all cores are on the desk, it is finished, and a piece was lost.
fn says(desk: &Desk) -> (bool, bool, bool) {
    (desk.all_are_here(), desk.finished(), desk.lost())
}

/// The number of rows that a core has made.
fn rows_of(desk: &mut Desk, core: usize) -> usize
    requires { core < desk.old.system.cores }
    ensures { desk.new.system ≡ desk.old.system }
{
    desk.take_rows(CoreId(core)).len()
}

#[test]
fn a_desk_is_finished_by_one_thread(rt: HostRuntime) -> Result<(), Fail> {
    let mut desk = desk(rt.alloc(), RING, 7)?;
    finishes(&rt, &mut desk)
}

fn finishes(rt: &impl Abort, desk: &mut Desk) -> Result<(), Fail> {
    assert_eq!(rt; (desk.cores(), desk.horizon().get()), (3, 7));
    if desk.lost() || !desk.all_are_here() {
        return Err(Fail::from("a core is away"));
    }
    desk.go(usize::MAX)?;
    assert!(rt; says(desk) == (true, true, false));
    assert_eq!(rt; desk.cores(), 3);
    // the rows of the whole schedule
    let many = rows_of(desk, 0)
        .saturating_add(rows_of(desk, 1))
        .saturating_add(rows_of(desk, 2));
    assert_eq!(rt; many, 27);
    Ok(())
}

/// Whether rows are those that a schedule has of a core, in order.
fn are_of(rows: &[Row], core: CoreId, schedule: &[Row]) -> bool {
    let mut many = 0usize;
    for row in schedule {
        if row.core == core {
            if rows.get(many) != Some(row) {
                return false;
            }
            many = many.saturating_add(1);
        }
    }
    many == rows.len()
}

/// Whether a core has made the rows that a schedule has of it.
fn has_made(desk: &mut Desk, core: usize, schedule: &[Row]) -> bool
    requires { core < desk.old.system.cores }
    ensures { desk.new.system ≡ desk.old.system }
{
    let rows = desk.take_rows(CoreId(core));
    are_of(rows.as_slice(), CoreId(core), schedule)
}

/// All three cores are lent before any comes back, and they come back in this order. Then the desk
/// takes the turns that are left.
fn makes(rt: &impl Abort, alloc: Global, order: [usize; 3], schedule: &[Row]) -> Result<(), Fail> {
    let mut desk = desk(alloc, ONE_ROUND, 4)?;
    all_come_back(rt, alloc, &mut desk, order)?;
    has_made_all(rt, &mut desk, schedule)
}

fn all_come_back(
    rt: &impl Abort,
    alloc: Global,
    desk: &mut Desk,
    order: [usize; 3],
) -> Result<(), Fail> {
    let steps = [
        Step::Lends(0, 0, 2),
        Step::Lends(1, 0, 2),
        Step::Lends(2, 0, 2),
        Step::LendsNone,
        Step::Settles(order[0]),
        Step::Settles(order[1]),
        Step::Settles(order[2]),
    ];
    let mut away = Vec::new(alloc);
    let otherwise = differs(desk, &mut away, steps.as_slice())?;
    assert_eq!(rt; otherwise, None);
    Ok(())
}

fn has_made_all(rt: &impl Abort, desk: &mut Desk, schedule: &[Row]) -> Result<(), Fail> {
    assert_eq!(rt; desk.cores(), 3);
    if desk.lost() || !desk.all_are_here() {
        return Err(Fail::from("a core is away"));
    }
    desk.go(usize::MAX)?;
    assert!(rt; has_made(desk, 0, schedule));
    assert!(rt; has_made(desk, 1, schedule));
    assert!(rt; has_made(desk, 2, schedule));
    Ok(())
}

static ORDERS: [[usize; 3]; 6] = [
    [0, 1, 2],
    [0, 2, 1],
    [1, 0, 2],
    [1, 2, 0],
    [2, 0, 1],
    [2, 1, 0],
];

#[test]
fn stretches_come_back_in_any_order(rt: HostRuntime) -> Result<(), Fail> {
    let alloc = rt.alloc();
    let alone = simulate_alone(alloc, system(alloc, ONE_ROUND)?, moment(4)?)?;
    assert_eq!(rt; alone.rows.len(), 18);
    for order in ORDERS {
        makes(&rt, alloc, order, alone.rows.as_slice())?;
    }
    Ok(())
}

#[test]
fn idle_time_is_not_lent(rt: HostRuntime) -> Result<(), Fail> {
    let mut desk = desk(rt.alloc(), IDLE, 1_099_511_627_776)?;
    assert_eq!(rt; desk.cores(), 2);
    assert!(rt; says(&desk) == (true, false, false));
    assert!(rt; lends_none(&mut desk));
    assert!(rt; says(&desk) == (true, true, false));
    assert_eq!(rt; desk.clock(CoreId(1)).get(), 1_099_511_627_777);
    Ok(())
}
