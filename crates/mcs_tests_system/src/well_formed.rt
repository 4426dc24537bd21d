//! Which parts make a system: each limit, each number past one, and parts that do not fit.

use crate::sample::{Change, changed};
use std::alloc::Global;
use std::process::Abort;
use std::test::Fail;

const LONGEST: u64 = 1 << 40;

fn all_are(
    rt: &impl Abort,
    alloc: Global,
    well_formed: bool,
    changes: &[Change],
) -> Result<(), Fail> {
    for (number, change) in changes.iter().enumerate() {
        let is_well_formed = changed(alloc, *change)?.is_well_formed();
        assert_eq!(rt; is_well_formed, well_formed, "change {number}");
    }
    Ok(())
}

/// Each number at its limits, one at a time.
#[test]
fn limits_are_accepted(rt: HostRuntime) -> Result<(), Fail> {
    let changes = [
        Change::Cores(64),
        Change::Delay(1_048_576),
        Change::Call(65_536),
        Change::MinBudget(4),
        Change::Configured(LONGEST - 1, LONGEST, 64),
        Change::Configured(1, 2, 0),
        Change::InBandwidthMode(4, 10),
        Change::NoteCore(0),
        Change::Priority(0),
        Change::Priority(255),
        Change::Start(LONGEST),
        Change::Rounds(LONGEST),
        Change::Deadline(LONGEST),
        Change::Compute(LONGEST),
        Change::SignalTo(0),
        Change::Badge(u32::MAX),
        Change::OrderAt(LONGEST),
        Change::Ordered(LONGEST - 1, LONGEST, 64),
        Change::Linked(0, 1, 1),
        Change::Linked(0, 1, 1_048_576),
        Change::Interrupting(0, u32::MAX),
        Change::Beating(0, 3, 10),
        Change::Beating(0, 11, 10),
        Change::Beating(1, 6, 10),
        Change::LastBeat(LONGEST * 2, LONGEST),
        Change::LastBeat(0, 1),
        Change::Chained(1, 1),
        Change::ChainDeadline(LONGEST),
    ];
    all_are(&rt, rt.alloc(), true, &changes)
}

/// One number past its limit, all others unchanged.
#[test]
fn one_past_a_limit_is_refused(rt: HostRuntime) -> Result<(), Fail> {
    let changes = [
        Change::Cores(0),
        Change::Cores(65),
        Change::Delay(0),
        Change::Delay(1_048_577),
        Change::Call(0),
        Change::Call(65_537),
        Change::MinBudget(0),
        Change::MinBudget(1_048_577),
        Change::Start(LONGEST + 1),
        Change::Rounds(LONGEST + 1),
        Change::Deadline(LONGEST + 1),
        Change::Compute(0),
        Change::Compute(LONGEST + 1),
        Change::Badge(0),
        Change::OrderAt(LONGEST + 1),
        Change::Linked(0, 1, 0),
        Change::Linked(0, 1, 1_048_577),
        Change::Servers(4),
        Change::Interrupting(0, 0),
        Change::Beating(0, 12, 10),
        Change::LastBeat(0, 0),
        Change::LastBeat(0, LONGEST + 1),
        Change::LastBeat(LONGEST * 2 + 1, LONGEST),
        Change::ChainDeadline(LONGEST + 1),
    ];
    all_are(&rt, rt.alloc(), false, &changes)
}

/// One part that does not fit the others:
///
/// - a core, a context, a notification, a source or a thread that does not exist;
/// - a configuration that is refused, or an order that changes the kind;
/// - a context of two threads, or a name of two things;
/// - a wait on another core;
/// - a link from a core to itself, or a second link between two cores;
/// - a server that is not free at first, a signal to a server, or a call of a notification;
/// - dates of a source that do not rise within a period.
#[test]
fn parts_that_do_not_fit_are_refused(rt: HostRuntime) -> Result<(), Fail> {
    let changes = [
        Change::Cores(1),
        Change::ContextCore(2),
        Change::ContextCore(1),
        Change::NoteCore(2),
        Change::NoteCore(1),
        Change::MinBudget(5),
        Change::Configured(0, 10, 0),
        Change::Configured(11, 10, 0),
        Change::Configured(4, LONGEST + 1, 0),
        Change::Configured(4, 10, 65),
        Change::Configured(10, 10, 0),
        Change::BoundTo(1),
        Change::BoundTo(2),
        Change::SignalTo(2),
        Change::WaitOn(1),
        Change::WaitOn(2),
        Change::OrderFor(1),
        Change::OrderFor(2),
        Change::Ordered(10, 10, 0),
        Change::Ordered(0, 10, 0),
        Change::Context("b"),
        Change::Note("m"),
        Change::Thread("B"),
        Change::Linked(0, 2, 3),
        Change::Linked(2, 0, 3),
        Change::Linked(0, 0, 3),
        Change::Linked(1, 0, 3),
        Change::Servers(0),
        Change::Servers(2),
        Change::ServerWord(0),
        Change::ServerWord(2),
        Change::Entered(0),
        Change::Entered(1),
        Change::Entered(3),
        Change::SignalTo(3),
        Change::WaitOn(3),
        Change::Source("k"),
        Change::Interrupting(2, 1),
        Change::Interrupting(3, 1),
        Change::Beating(0, 2, 10),
        Change::Beating(0, 1, 10),
        Change::Beating(0, 5, 9),
        Change::Beating(1, 7, 10),
        Change::Beating(1, 8, 10),
        Change::Beating(2, 5, 10),
        Change::Chain("d"),
        Change::Chained(2, 0),
        Change::Chained(0, 2),
    ];
    all_are(&rt, rt.alloc(), false, &changes)
}

#[test]
fn names_are_of_32_characters(rt: HostRuntime) -> Result<(), Fail> {
    let good = [
        "A",
        "Z",
        "a",
        "z",
        "0",
        "9",
        "_",
        "-",
        "abcdefghijklmnopqrstuvwxyz012345",
    ];
    for name in good {
        let changes = [
            Change::Context(name),
            Change::Note(name),
            Change::Thread(name),
            Change::Source(name),
            Change::Chain(name),
        ];
        all_are(&rt, rt.alloc(), true, &changes)?;
    }
    let bad = [
        "",
        "@",
        "[",
        "`",
        "{",
        "/",
        ":",
        ".",
        " ",
        "é",
        "abcdefghijklmnopqrstuvwxyz0123456",
    ];
    for name in bad {
        let changes = [
            Change::Context(name),
            Change::Note(name),
            Change::Thread(name),
            Change::Source(name),
            Change::Chain(name),
        ];
        all_are(&rt, rt.alloc(), false, &changes)?;
    }
    Ok(())
}
