//! The signals to other cores that are under way, with the origins that they carry.
ghost use Rattle.std.specs.Prelude.{◌≡◌, [], ◌∷◌, ◌++◌, map, filter, not, length, take, OnOk, OnErr, IfOk};
ghost use Rattle.mcs_origins.specs.Sets.{is_one_of};
ghost use Rattle.mcs_origins.specs.stored.Stretches.{all_of, flat};
ghost use Rattle.mcs_chain.specs.Origins.{sent, is_sent};

use crate::sent::Sent;
use mcs_origins::{Mark, Set, Stretch, is_one_of};
use mcs_ticks::{CoreId, NoMemory, NoteId, Tick};
use std::alloc::Global;

/// Adds a set to the signals to other cores: this core made one for the notification at this
/// moment. If memory runs out, they are unchanged.
pub(crate) fn send(
    under_way: &mut Vec<Sent>,
    note: NoteId,
    maker: CoreId,
    made: u64,
    set: &Set,
) -> Result<(), NoMemory>
    ensures ok { OnOk result (under_way.new.items ≡ under_way.old.items ++ map (sent note maker made) set.now) }
    ensures err { OnErr result (under_way.new.items ≡ under_way.old.items) }
{
    let start = under_way.len();
    let result = append_sent(under_way, note, maker, made, set.as_slice());
    if result.is_err() {
        under_way.truncate(start);
    }
    result
}

/// Appends the origins that a signal carries, the latest first.
fn append_sent(
    under_way: &mut Vec<Sent>,
    note: NoteId,
    maker: CoreId,
    made: u64,
    stretches: &[Stretch],
) -> Result<(), NoMemory>
    ensures ok { OnOk result (under_way.new.items ≡ under_way.old.items ++ map (sent note maker made) (flat stretches.now)) }
    ensures kept { take (length under_way.old.items) under_way.new.items ≡ under_way.old.items }
{
    for i in (0..stretches.len()).rev() {
        append_stretch(under_way, note, maker, made, &stretches[i])?;
    }
    Ok(())
}

/// Appends the origins of one stretch that a signal carries.
fn append_stretch(
    under_way: &mut Vec<Sent>,
    note: NoteId,
    maker: CoreId,
    made: u64,
    stretch: &Stretch,
) -> Result<(), NoMemory>
    ensures ok { OnOk result (under_way.new.items ≡ under_way.old.items ++ map (sent note maker made) (all_of stretch.now)) }
    ensures kept { take (length under_way.old.items) under_way.new.items ≡ under_way.old.items }
{
    for number in 0..stretch.more {
        append_one(under_way, note, maker, made, stretch.mark_at(number))?;
    }
    append_one(under_way, note, maker, made, stretch.mark_at(stretch.more))
}

/// Appends one origin that a signal carries.
fn append_one(
    under_way: &mut Vec<Sent>,
    note: NoteId,
    maker: CoreId,
    made: u64,
    mark: Mark,
) -> Result<(), NoMemory>
    ensures ok { OnOk result (under_way.new.items ≡ under_way.old.items ++ sent note maker made mark ∷ []) }
    ensures kept { take (length under_way.old.items) under_way.new.items ≡ under_way.old.items }
{
    under_way.push(Sent {
        note,
        maker,
        made,
        mark,
    })?;
    Ok(())
}

/// Returns what the signal to the notification carries that this core made at this moment.
pub(crate) fn landed(
    alloc: Global,
    under_way: &[Sent],
    note: NoteId,
    maker: CoreId,
    made: u64,
) -> Result<Set, NoMemory>
    ensures { IfOk result (λ set. set ≡ map (λ sent. sent.mark) (filter (is_sent note maker made) under_way.now)) }
{
    let mut landed = Set::empty();
    for i in (0..under_way.len()).rev() {
        if is_sent(&under_way[i], note, maker, made) {
            landed.push(alloc, under_way[i].mark)?;
        }
    }
    Ok(landed)
}

/// Whether a signal is the one to the notification that this core made at this moment.
fn is_sent(sent: &Sent, note: NoteId, maker: CoreId, made: u64) -> bool
    ensures { result ≡ is_sent note maker made sent.now }
{
    sent.note == note && (sent.maker == maker && sent.made == made)
}

/// Lets go of the signal to the notification that this core made at this moment.
pub(crate) fn drop_sent(under_way: &mut Vec<Sent>, note: NoteId, maker: CoreId, made: u64)
    ensures { under_way.new.items ≡ filter (λ sent. not (is_sent note maker made sent)) under_way.old.items }
{
    under_way.retain(|sent| !is_sent(sent, note, maker, made));
}

/// Drops what was answered from the signals to other cores.
pub(crate) fn drop_from_sent(under_way: &mut Vec<Sent>, answered: &[Tick])
    ensures { under_way.new.items ≡ filter (λ sent. not (is_one_of answered.now sent.mark.origin)) under_way.old.items }
{
    under_way.retain(|sent| !is_one_of(answered, sent.mark.origin));
}
