use super::play::{Letter, Made, go_on_some, made_by, moment, nothing, opened};
use super::systems::{DEPLETES, OF_ALL_KINDS, TWO_MAKERS, system};
use mcs_mail::Mailbox;
use mcs_system::System;
use mcs_ticks::CoreId;
use std::alloc::Global;
use std::process::Abort;
use std::test::Fail;

/// A core makes the same in one stretch and in shorter ones.
fn makes_the_same(
    rt: &impl Abort,
    alloc: Global,
    text: &str,
    core: usize,
    letters: &[Letter],
) -> Result<(), Fail> {
    let system = system(alloc, text)?;
    makes_again(rt, alloc, &system, core, letters)
}

fn makes_again(
    rt: &impl Abort,
    alloc: Global,
    system: &System,
    core: usize,
    letters: &[Letter],
) -> Result<(), Fail> {
    let whole = made_by(alloc, system, core, letters, 40, 1_000)?;
    assert!(rt; !whole.rows.is_empty());
    is_made_again(rt, alloc, system, core, letters, &whole)
}

fn is_made_again(
    rt: &impl Abort,
    alloc: Global,
    system: &System,
    core: usize,
    letters: &[Letter],
    whole: &Made,
) -> Result<(), Fail> {
    for turns in [1, 3] {
        let parts = made_by(alloc, system, core, letters, 40, turns)?;
        is_like(rt, &parts, whole);
    }
    Ok(())
}

fn is_like(rt: &impl Abort, made: &Made, wanted: &Made) {
    assert!(rt; made.rows.as_slice() == wanted.rows.as_slice());
    assert!(rt; made.signals.as_slice() == wanted.signals.as_slice());
    assert_eq!(rt; made.left, wanted.left);
}

#[test]
fn single_turns_make_what_a_stretch_makes(rt: HostRuntime) -> Result<(), Fail> {
    let alloc = rt.alloc();
    let letters = [
        Letter(4, 2, 1, 5),
        Letter(18, 16, 1, 5),
        Letter(41, 39, 1, 5),
    ];
    makes_the_same(&rt, alloc, OF_ALL_KINDS, 0, &letters)?;
    makes_the_same(&rt, alloc, OF_ALL_KINDS, 1, &[])
}

#[test]
fn single_turns_take_mail_of_two_makers(rt: HostRuntime) -> Result<(), Fail> {
    let letters = [Letter(4, 2, 0, 1), Letter(4, 1, 1, 2)];
    makes_the_same(&rt, rt.alloc(), TWO_MAKERS, 2, &letters)
}

/// A stretch that ends with this many rows, the clock after it, and the rows that there are then.
#[derive(Clone, Copy)]
struct Enough(usize, u64, usize);

/// Compares core 0 after stretches up to 40, one after another, that end by their rows.
fn ends_at(
    rt: &impl Abort,
    alloc: Global,
    system: &System,
    stretches: &[Enough],
) -> Result<(), Fail> {
    let end = moment(40)?;
    let mut state = opened(alloc, system, CoreId(0))?;
    let mut mailbox = Mailbox::new(alloc);
    let mut made = nothing(alloc);
    for stretch in stretches {
        let Enough(most, clock, rows) = *stretch;
        go_on_some(system, &mut state, &mut mailbox, end, most, &mut made)?;
        assert_eq!(rt; state.clock().get(), clock);
        assert_eq!(rt; made.rows.len(), rows);
    }
    Ok(())
}

/// The thread is released and runs at 0, 5 and 10, is exhausted at 2 and 7, and ends its round and
/// stops at 11. A stretch takes a turn even if there are rows enough before it.
#[test]
fn stretches_end_by_their_rows(rt: HostRuntime) -> Result<(), Fail> {
    let alloc = rt.alloc();
    let depletes = system(alloc, DEPLETES)?;
    let stretches = [
        Enough(1, 1, 2),
        Enough(2, 3, 3),
        Enough(5, 6, 5),
        Enough(7, 11, 8),
        Enough(100, 40, 10),
        Enough(100, 40, 10),
    ];
    ends_at(&rt, alloc, &depletes, &stretches)
}
