//! Signals to other cores that carry the origin.
ghost use Rattle.std.specs.Prelude.{◌≡◌, ◌++◌, filter, not, IfOk, OnOk};
ghost use Rattle.mcs_way.specs.Course.{arrived, is_sent, landed, sent_with};

use crate::Carrier;
use crate::trace::{Trace, join};
use mcs_ticks::{CoreId, NoMemory, NoteId, Row, Tick};
use std::alloc::Global;
use std::marker::Model;

/// A signal to another core that carries the origin.
#[derive(Drop)]
pub(crate) struct Sent {
    /// The notification that it is for.
    note: NoteId,
    /// The core that made it.
    maker: CoreId,
    /// The moment at which the signal was made.
    made: u64,
    trace: Trace,
}

impl Model for Sent {
    ghost use Rattle.mcs_way.specs.Course.{Sent};

    ghost Value = { Sent };

    ghost view = { λ a. record { note = a.note; maker = a.maker; made = a.made; trace = a.trace } };
}

fn is_sent(sent: &Sent, note: NoteId, maker: CoreId, made: u64) -> bool
    ensures { result ≡ is_sent note maker made sent.now }
{
    sent.note == note && (sent.maker == maker && sent.made == made)
}

/// Adds a signal to another core, if it carries the origin.
pub(crate) fn send(
    under_way: &mut Vec<Sent>,
    note: NoteId,
    maker: CoreId,
    made: u64,
    given: Option<Trace>,
) -> Result<(), NoMemory>
    ensures { OnOk result (under_way.new.items ≡ under_way.old.items ++ sent_with note maker made given) }
{
    let Some(trace) = given else {
        return Ok(());
    };
    under_way.push(Sent {
        note,
        maker,
        made,
        trace,
    })?;
    Ok(())
}

/// The origin as a signal brings it to another core.
fn arrived(alloc: Global, sent: &Sent, home: CoreId, moment: Tick) -> Result<Trace, NoMemory>
    ensures { IfOk result (λ trace. trace ≡ arrived home moment sent.now) }
{
    let carrier = Carrier::Signal(sent.maker, home);
    sent.trace
        .leave(alloc, carrier, moment, sent.trace.places())
}

/// The origin as the signal to the notification brings it, at this row, that this core made at this
/// moment.
pub(crate) fn landed(
    alloc: Global,
    under_way: &[Sent],
    note: NoteId,
    maker: CoreId,
    made: u64,
    row: &Row,
) -> Result<Option<Trace>, NoMemory>
    ensures { IfOk result (λ trace. trace ≡ landed note maker made row.now.core row.now.moment under_way.now) }
{
    let mut all = None;
    for sent in under_way {
        if is_sent(sent, note, maker, made) {
            let trace = arrived(alloc, sent, row.core, row.moment)?;
            join(&mut all, Some(trace));
        }
    }
    Ok(all)
}

/// Lets go of the signal to the notification that this core made at this moment.
pub(crate) fn drop_sent(under_way: &mut Vec<Sent>, note: NoteId, maker: CoreId, made: u64)
    ensures { under_way.new.items ≡ filter (λ sent. not (is_sent note maker made sent)) under_way.old.items }
{
    under_way.retain(|sent| !is_sent(sent, note, maker, made));
}
