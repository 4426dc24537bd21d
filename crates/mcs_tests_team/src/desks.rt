//! Cores that a desk lends, and with what. Each test is a list of steps with their results.

use super::lending::{Step, desk, differs, differs_alone};
use super::systems::{ONE_TICK, RING, RING_OF_LINKS, TWO_MAKERS};
use mcs_ticks::CoreId;
use std::process::Abort;
use std::test::Fail;

static MEANWHILE: [Step; 10] = [
    Step::Lends(0, 0, 2),
    Step::Lends(1, 0, 2),
    Step::Settles(0),
    Step::Lends(2, 0, 2),
    Step::Front(2, [2, 0, 0]),
    Step::LendsNone,
    Step::Settles(2),
    Step::Settles(1),
    Step::Lends(0, 2, 4),
    Step::Mail(0, 1, 0),
];

#[test]
fn a_core_is_lent_while_another_one_is_away(rt: HostRuntime) -> Result<(), Fail> {
    let differs = differs_alone(rt.alloc(), TWO_MAKERS, 4, MEANWHILE.as_slice())?;
    assert_eq!(rt; differs, None);
    Ok(())
}

/// No core makes a signal from 0 to before 2. All three are away when the first two signals are
/// made, which arrive at 4.
static BY_THE_DESK: [Step; 18] = [
    Step::Lends(0, 0, 2),
    Step::Lends(1, 0, 2),
    Step::Lends(2, 0, 2),
    Step::Mail(0, 0, 0),
    Step::Settles(0),
    Step::Settles(1),
    Step::Settles(2),
    Step::Lends(0, 2, 4),
    Step::Lends(1, 2, 4),
    Step::Lends(2, 2, 4),
    Step::Mail(1, 1, 0),
    Step::Settles(1),
    Step::Settles(2),
    Step::Settles(0),
    Step::Lends(0, 4, 5),
    Step::Lends(1, 4, 5),
    Step::Lends(2, 4, 5),
    Step::Mail(2, 0, 2),
];

/// Cores 0 and 1 have links of delay 1 both ways, and all other signals are under way for 3.
static BY_LINKS: [Step; 7] = [
    Step::Lends(0, 0, 1),
    Step::Lends(1, 0, 1),
    Step::Lends(2, 0, 3),
    Step::Settles(0),
    Step::Settles(1),
    Step::Lends(0, 1, 2),
    Step::Lends(1, 1, 2),
];

#[test]
fn cores_are_lent_by_their_links(rt: HostRuntime) -> Result<(), Fail> {
    let differs = differs_alone(rt.alloc(), RING_OF_LINKS, 6, BY_LINKS.as_slice())?;
    assert_eq!(rt; differs, None);
    Ok(())
}

#[test]
fn mail_comes_by_way_of_the_desk(rt: HostRuntime) -> Result<(), Fail> {
    let differs = differs_alone(rt.alloc(), TWO_MAKERS, 4, BY_THE_DESK.as_slice())?;
    assert_eq!(rt; differs, None);
    Ok(())
}

/// Both cores are lent up to the horizon: the minimum delay is longer.
static ONE_THREAD: [Step; 5] = [
    Step::Lends(0, 0, 2),
    Step::Lends(1, 0, 2),
    Step::Front(1, [0, 0, 0]),
    Step::Round(1, 1, 1),
    Step::Mail(1, 0, 0),
];

#[test]
fn a_piece_is_the_core_s_turns(rt: HostRuntime) -> Result<(), Fail> {
    let differs = differs_alone(rt.alloc(), ONE_TICK, 1, ONE_THREAD.as_slice())?;
    assert_eq!(rt; differs, None);
    Ok(())
}

static AFTER_A_LOSS: [Step; 5] = [
    Step::Lends(0, 0, 1),
    Step::Lends(1, 0, 1),
    Step::Forfeits(0),
    Step::LendsNone,
    Step::Settles(1),
];

#[test]
fn after_a_loss_nothing_is_lent(rt: HostRuntime) -> Result<(), Fail> {
    let alloc = rt.alloc();
    let mut desk = desk(alloc, RING, 7)?;
    let mut away = Vec::new(alloc);
    let differs = differs(&mut desk, &mut away, AFTER_A_LOSS.as_slice())?;
    assert_eq!(rt; differs, None);
    assert!(rt; desk.lost() && !desk.all_are_here());
    assert_eq!(rt; desk.cores(), 3);
    let clocks = (desk.clock(CoreId(0)).get(), desk.clock(CoreId(1)).get());
    assert_eq!(rt; clocks, (0, 1));
    assert_eq!(rt; desk.take_rows(CoreId(1)).len(), 2);
    let taken = (desk.taken(CoreId(0)).get(), desk.taken(CoreId(1)).get());
    assert_eq!(rt; taken, (0, 1));
    Ok(())
}
