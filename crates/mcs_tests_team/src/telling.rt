//! Pieces that emit their rows straight to the caller's lists, from a desk that keeps no rows, and
//! how far they run.
ghost use Rattle.std.specs.Prelude.{◌≤◌};

use super::collectors::{are_at, told_to_none};
use super::systems::{SIGNALS, moment, system};
use mcs_ticks::{Collector, CoreId, Nothing, Row};
use mcs_window::{Desk, Piece};
use std::process::Abort;
use std::test::Fail;

/// The moments for which a core is lent, from `first` to before `past`.
#[derive(Clone, Copy, Debug, PartialEq, Eq)]
struct Stretch {
    core: CoreId,
    first: u64,
    past: u64,
}

fn stretch_of(piece: &Piece) -> Stretch {
    Stretch {
        core: piece.core,
        first: piece.first.get(),
        past: piece.past.get(),
    }
}

/// The stretch of the next core that is lent, for at most `span` moments.
fn lent<S: Collector>(desk: &mut Desk<S>, span: u64) -> Option<Stretch>
    requires { 1 ≤ span }
{
    let piece = desk.lend_within(span)?;
    Some(stretch_of(&piece))
}

/// Lends a core for at most two moments, emits its rows to its list, and takes it back. Returns its
/// stretch.
fn takes_turns(
    desk: &mut Desk<Nothing>,
    told: &mut [Vec<Row>; 2],
) -> Result<Option<Stretch>, Fail> {
    let Some(piece) = desk.lend_within(2) else {
        return Ok(None);
    };
    let stretch = stretch_of(&piece);
    let Some(rows) = told.get_mut(stretch.core.0) else {
        return Err(Fail::from("a third core"));
    };
    let Ok(done) = piece.run_to(rows) else {
        return Err(Fail::from("no memory"));
    };
    if desk.settle(done).is_err() {
        return Err(Fail::from("no memory"));
    }
    Ok(Some(stretch))
}

#[test]
fn rows_come_behind_those_of_before(rt: HostRuntime) -> Result<(), Fail> {
    let alloc = rt.alloc();
    let system = system(alloc, SIGNALS)?;
    assert_eq!(rt; system.parts().cores, 2);
    let mut desk = told_to_none(alloc, Desk::new(alloc, system, moment(8)?)?)?;
    let mut told = [Vec::new(alloc), Vec::new(alloc)];
    for (core, first) in [(0, 0), (1, 0), (0, 2), (1, 2), (0, 4), (1, 4), (0, 6)] {
        let lent = Stretch {
            core: CoreId(core),
            first,
            past: 2u64.saturating_add(first),
        };
        let taken = takes_turns(&mut desk, &mut told)?;
        assert_eq!(rt; taken, Some(lent));
    }
    // all cores are idle from then on
    let none = takes_turns(&mut desk, &mut told)?;
    assert_eq!(rt; none, None);
    assert!(rt; desk.finished());
    are_at(&rt, told[0].as_slice(), &[5, 5, 6, 6, 7, 7]);
    are_at(&rt, told[1].as_slice(), &[0, 0, 2, 3, 4, 4, 4]);
    Ok(())
}

/// Signals are under way for 3.
#[test]
fn pieces_end_by_the_clocks_or_by_what_was_asked(rt: HostRuntime) -> Result<(), Fail> {
    let alloc = rt.alloc();
    let mut desk = Desk::new(alloc, system(alloc, SIGNALS)?, moment(8)?)?;
    let by_the_clocks = Stretch {
        core: CoreId(0),
        first: 0,
        past: 3,
    };
    let first = lent(&mut desk, 100);
    assert_eq!(rt; first, Some(by_the_clocks));
    let as_asked = Stretch {
        core: CoreId(1),
        first: 0,
        past: 1,
    };
    let second = lent(&mut desk, 1);
    assert_eq!(rt; second, Some(as_asked));
    let third = lent(&mut desk, 1);
    assert_eq!(rt; third, None);
    Ok(())
}
