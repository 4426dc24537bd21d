use mcs_notify::{Notes, Posted, Waited};
use mcs_ticks::{NoteId, Queued, ThreadId};
use std::test::Fail;

/// The waiter of maximum priority is woken; of two equal ones the longest waiting, not the latest.
/// Once no waiter is left, the word is held, and the next to wait takes it.
#[test]
fn the_best_waiter_is_woken(rt: HostRuntime) -> Result<(), Fail> {
    let note = NoteId(0);
    let mut notes = Notes::new(rt.alloc(), 1, 3)?;
    assert_eq!(rt; notes.wait(note, ThreadId(1), 1), Waited::Blocks);
    assert_eq!(rt; notes.wait(note, ThreadId(2), 9), Waited::Blocks);
    assert_eq!(rt; notes.wait(note, ThreadId(0), 9), Waited::Blocks);
    assert_eq!(rt; notes.post(note, 6), Posted::Woke(ThreadId(2), 6));
    assert_eq!(rt; notes.post(note, 1), Posted::Woke(ThreadId(0), 1));
    assert_eq!(rt; notes.post(note, 2), Posted::Woke(ThreadId(1), 2));
    assert_eq!(rt; notes.post(note, 5), Posted::Held(5));
    assert_eq!(rt; notes.post(note, 6), Posted::Held(7));
    assert_eq!(rt; notes.wait(note, ThreadId(2), 9), Waited::Got(7));
    assert_eq!(rt; notes.word(note), 0);
    Ok(())
}

/// The waiters of each notification are in order of beginning to wait, for any priorities; a woken
/// one has left.
#[test]
fn waiters_are_in_order_of_beginning_to_wait(rt: HostRuntime) -> Result<(), Fail> {
    let mut notes = Notes::new(rt.alloc(), 2, 4)?;
    assert_eq!(rt; notes.wait(NoteId(1), ThreadId(3), 4), Waited::Blocks);
    assert_eq!(rt; notes.wait(NoteId(0), ThreadId(2), 9), Waited::Blocks);
    assert_eq!(rt; notes.wait(NoteId(1), ThreadId(1), 7), Waited::Blocks);
    assert_eq!(rt; notes.wait(NoteId(1), ThreadId(0), 5), Waited::Blocks);
    assert_eq!(rt; notes.post(NoteId(1), 1), Posted::Woke(ThreadId(1), 1));
    let list = notes.waiters(rt.alloc(), NoteId(1))?;
    let wanted = [(3, 4), (0, 5)];
    assert_eq!(rt; list.len(), wanted.len());
    for (queued, (thread, priority)) in list.iter().zip(wanted) {
        let thread = ThreadId(thread);
        assert_eq!(rt; *queued, Queued { thread, priority });
    }
    Ok(())
}
