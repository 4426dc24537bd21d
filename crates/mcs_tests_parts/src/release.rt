use mcs_release::{Dated, Releases};
use mcs_ticks::{ThreadId, Tick};
use std::test::Fail;

/// The earliest date leaves first, of two equal ones the thread that entered first, and no thread
/// leaves before its date.
#[test]
fn threads_leave_by_date_then_in_order_of_entering(rt: HostRuntime) -> Result<(), Fail> {
    let four = Tick::new(4).ok_or("a tick")?;
    let five = Tick::new(5).ok_or("a tick")?;
    let mut releases = Releases::new(rt.alloc(), 3)?;
    assert_eq!(rt; releases.next(), None);
    releases.enter(ThreadId(2), five);
    releases.enter(ThreadId(0), five);
    releases.enter(ThreadId(1), four);
    assert_eq!(rt; releases.pop_due(Tick::ZERO), None);
    assert_eq!(rt; releases.next(), Some(four));
    assert_eq!(rt; releases.pop_due(four), Some(ThreadId(1)));
    assert_eq!(rt; releases.pop_due(four), None);
    assert_eq!(rt; releases.pop_due(five), Some(ThreadId(2)));
    assert_eq!(rt; releases.pop_due(five), Some(ThreadId(0)));
    assert_eq!(rt; releases.pop_due(five), None);
    Ok(())
}

/// The list has the threads that are still held, in the order in which they entered, for any dates.
#[test]
fn a_list_of_threads_is_in_order_of_entering(rt: HostRuntime) -> Result<(), Fail> {
    let four = Tick::new(4).ok_or("a tick")?;
    let five = Tick::new(5).ok_or("a tick")?;
    let mut releases = Releases::new(rt.alloc(), 3)?;
    releases.enter(ThreadId(2), five);
    releases.enter(ThreadId(0), four);
    releases.enter(ThreadId(1), five);
    assert_eq!(rt; releases.pop_due(four), Some(ThreadId(0)));
    let list = releases.list(rt.alloc())?;
    assert_eq!(rt; list.len(), 2);
    let first = Dated {
        thread: ThreadId(2),
        date: five,
    };
    let second = Dated {
        thread: ThreadId(1),
        date: five,
    };
    assert_eq!(rt; list[0], first);
    assert_eq!(rt; list[1], second);
    Ok(())
}
