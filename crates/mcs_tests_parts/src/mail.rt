use mcs_mail::{Mail, Mailbox};
use mcs_ticks::{CoreId, NoMemory, NoteId, Tick};
use std::process::Abort;
use std::test::Fail;

fn tick(rt: &impl Abort, ticks: u64) -> Tick {
    Tick::new(ticks).expect(rt, "a tick")
}

/// Puts mail, given by its arrival, time of making, maker and badge. The badge identifies it.
fn put_all(
    rt: &impl Abort,
    mailbox: &mut Mailbox,
    rows: &[(u64, u64, usize, u32)],
) -> Result<(), NoMemory> {
    for (arrives, made, maker, badge) in rows {
        let mail = Mail {
            arrives: tick(rt, *arrives),
            made: tick(rt, *made),
            maker: CoreId(*maker),
            note: NoteId(0),
            badge: *badge,
        };
        if let Err((_, refusal)) = mailbox.put(mail) {
            return Err(refusal);
        }
    }
    Ok(())
}

/// Asserts which mail leaves by the given moment, in order: each mail once, with `next` as its
/// arrival.
fn leaves(rt: &impl Abort, mailbox: &mut Mailbox, latest: Tick, badges: &[u32]) {
    for badge in badges {
        let first = mailbox.next().expect(rt, "mail is left");
        let taken = mailbox.take_due(latest).expect(rt, "the first is due");
        assert_eq!(rt; taken.arrives, first);
        assert_eq!(rt; taken.badge, *badge);
    }
    assert_eq!(rt; mailbox.take_due(latest), None);
}

/// Arrival before time of making before maker, and equal mail in the order in which it was put.
#[test]
fn mail_is_taken_in_order_of_delivery(rt: HostRuntime) -> Result<(), Fail> {
    let mut mailbox = Mailbox::new(rt.alloc());
    put_all(
        &rt,
        &mut mailbox,
        &[
            (9, 3, 0, 10),
            (7, 5, 1, 4),
            (7, 4, 2, 2),
            (7, 5, 0, 3),
            (7, 5, 1, 5),
            (8, 1, 1, 8),
        ],
    )?;
    mailbox.reserve(4)?;
    put_all(
        &rt,
        &mut mailbox,
        &[(7, 6, 0, 7), (6, 5, 9, 1), (7, 5, 1, 6), (8, 2, 0, 9)],
    )?;
    leaves(&rt, &mut mailbox, tick(&rt, 6), &[1]);
    leaves(
        &rt,
        &mut mailbox,
        tick(&rt, 9),
        &[2, 3, 4, 5, 6, 7, 8, 9, 10],
    );
    assert_eq!(rt; mailbox.len(), 0);
    Ok(())
}
