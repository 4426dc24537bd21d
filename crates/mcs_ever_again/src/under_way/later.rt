ghost use Rattle.std.specs.Prelude.{◌≡◌, ◌↔◌, ◌+◌, ◌≤◌, ◌<◌, [], ◌∷◌, length, slice_get, Some, IsTrue, IfSome, MatchOption};
ghost use Rattle.mcs_ever.specs.Later.{later_mail};
ghost use Rattle.mcs_ever_again.specs.Group.{is_for_group, for_group, AreLater};
ghost use Rattle.mcs_ever_again.specs.stored.Store.{left, left_from};

use crate::under_way::store::Store;
use crate::under_way::told::home_of;
use mcs_mail::Mail;
use mcs_system::System;
use mcs_ticks::{Limits, Tick};

/// Stored signals among which the first one for a group is looked for. They are few, since most
/// moments are compared.
const AHEAD: usize = 16;

/// Whether the signals for a group of cores that are left may be the same in both stores, `by`
/// ticks later in the second. If not, they are not. Compares the first ones alone.
pub(crate) fn may_be_later(
    system: &System,
    group: &[bool; Limits::CORES],
    by: u64,
    before: &Store,
    after: &Store,
) -> bool
    ensures { AreLater system.now group.now by (left before.now) (left after.now) → IsTrue result }
{
    match (
        first_for(system, group, before),
        first_for(system, group, after),
    ) {
        (Some(earlier), Some(mail)) => is_later(&earlier, by, &mail),
        _ => true,
    }
}

/// The first signal for the group that is left, if it is one of the first that are stored.
fn first_for(system: &System, group: &[bool; Limits::CORES], store: &Store) -> Option<Mail>
    ensures { IfSome result (λ mail. slice_get (for_group system.now group.now (left store.now)) 0 ≡ Some mail) }
{
    for i in 0..store.mails.len() {
        if i == AHEAD {
            return None;
        }
        let mail = store.mails[i];
        if is_for(system, group, &mail) && mail.arrives >= store.from {
            return Some(mail);
        }
    }
    None
}

/// Whether the signals for a group of cores that are left are the same in both stores, `by` ticks
/// later in the second. Ends at the first one that differs.
pub(crate) fn are_later(
    system: &System,
    group: &[bool; Limits::CORES],
    by: u64,
    before: &Store,
    after: &Store,
) -> bool
    ensures { IsTrue result ↔ AreLater system.now group.now by (left before.now) (left after.now) }
{
    let mut seen = 0;
    let mut compared = 0;
    while let Some((mail, next)) = next_for(system, group, after, seen) {
        match next_for(system, group, before, compared) {
            Some((earlier, behind)) if is_later(&earlier, by, &mail) => {
                seen = next;
                compared = behind;
            }
            _ => return false,
        }
    }
    next_for(system, group, before, compared).is_none()
}

/// The first signal for the group that is left from this place on, and the place after it.
fn next_for(
    system: &System,
    group: &[bool; Limits::CORES],
    store: &Store,
    place: usize,
) -> Option<(Mail, usize)>
    ensures found { MatchOption result
        (for_group system.now group.now (left_from store.now place) ≡ [])
        (λ found. for_group system.now group.now (left_from store.now place) ≡ found.0 ∷ for_group system.now group.now (left_from store.now found.1)) }
    ensures within { IfSome result (λ found. (place < found.1) × (found.1 ≤ length store.now.mails.items)) }
{
    for i in place..store.mails.len() {
        let mail = store.mails[i];
        if mail.arrives >= store.from && is_for(system, group, &mail) {
            return Some((mail, i + 1));
        }
    }
    None
}

fn is_for(system: &System, group: &[bool; Limits::CORES], mail: &Mail) -> bool
    ensures { result ≡ is_for_group system.now group.now mail.now }
{
    group[home_of(system, mail.note).0]
}

/// Whether a signal is the earlier one, `by` ticks later.
fn is_later(before: &Mail, by: u64, after: &Mail) -> bool
    ensures { IsTrue result ↔ after.now ≡ later_mail by before.now }
{
    is_tick_later(before.arrives, by, after.arrives)
        && is_tick_later(before.made, by, after.made)
        && before.maker == after.maker
        && before.note == after.note
        && before.badge == after.badge
}

fn is_tick_later(before: Tick, by: u64, after: Tick) -> bool
    ensures { IsTrue result ↔ after ≡ before + by }
{
    by <= after.get() && after.get() - by == before.get()
}
