//! Joins two sets, which are lists of stretches, the earliest first. Each step takes the latest
//! origins off both.
ghost use Rattle.std.specs.Prelude.{◌≡◌, ◌-◌, ◌*◌, ◌<◌, ◌≤◌, ◌⊎◌, ◌++◌, length, reverse, IfOk, OnOk};
ghost use Rattle.mcs_origins.specs.Sets.{join};
ghost use Rattle.mcs_origins.specs.stored.Stretches.{IsNext, flat, left};

use crate::rests::{Rest, below, kept, rest_of};
use crate::stretch::Stretch;
use crate::stretches::push;
use mcs_ticks::NoMemory;
use std::alloc::Global;

/// The rests of two sets that are joined.
#[derive(Clone, Copy, Debug)]
struct Both {
    set: Rest,
    others: Rest,
}

/// Takes the latest origin and this many more off the set. They are later than the others.
fn from_set(set: &[Stretch], others: &[Stretch], both: &Both, more: u32) -> (Stretch, Both)
    requires some { 0 < both.now.set.many }
    requires set_within { both.now.set.many ≤ length set.now }
    requires others_within { both.now.others.many ≤ length others.now }
    requires more { more ≤ both.now.set.top.more }
    requires later { (both.now.others.many ≡ 0) ⊎ (both.now.others.top.last < both.now.set.top.last - both.now.set.top.step * more) }
    ensures { IsNext set.now others.now both.now result.0 result.1 }
{
    let left = Both {
        set: below(set, &both.set, more),
        others: both.others,
    };
    (both.set.top.top(more), left)
}

/// Takes the latest origin and this many more off the others. They are later than the set.
fn from_others(set: &[Stretch], others: &[Stretch], both: &Both, more: u32) -> (Stretch, Both)
    requires set_some { 0 < both.now.set.many }
    requires others_some { 0 < both.now.others.many }
    requires set_within { both.now.set.many ≤ length set.now }
    requires others_within { both.now.others.many ≤ length others.now }
    requires more { more ≤ both.now.others.top.more }
    requires later { both.now.set.top.last < both.now.others.top.last - both.now.others.top.step * more }
    ensures { IsNext set.now others.now both.now result.0 result.1 }
{
    let left = Both {
        set: both.set,
        others: below(others, &both.others, more),
    };
    (both.others.top.top(more), left)
}

/// Takes the latest origin and this many more off both, which have them in common.
fn from_both(set: &[Stretch], others: &[Stretch], both: &Both, more: u32) -> (Stretch, Both)
    requires set_some { 0 < both.now.set.many }
    requires others_some { 0 < both.now.others.many }
    requires set_within { both.now.set.many ≤ length set.now }
    requires others_within { both.now.others.many ≤ length others.now }
    requires set_more { more ≤ both.now.set.top.more }
    requires others_more { more ≤ both.now.others.top.more }
    requires last { both.now.set.top.last ≡ both.now.others.top.last }
    requires step { (more ≡ 0) ⊎ (both.now.others.top.step ≡ both.now.set.top.step) }
    ensures { IsNext set.now others.now both.now result.0 result.1 }
{
    let places = both.set.top.places | both.others.top.places;
    let left = Both {
        set: below(set, &both.set, more),
        others: below(others, &both.others, more),
    };
    (both.set.top.top(more).put_at(places), left)
}

/// Takes the latest origins off two sets that are joined: those that come from the same one of
/// them, or from both.
fn next(set: &[Stretch], others: &[Stretch], both: &Both) -> (Stretch, Both)
    requires some { 0 < both.now.set.many }
    requires set_within { both.now.set.many ≤ length set.now }
    requires others_within { both.now.others.many ≤ length others.now }
    ensures { IsNext set.now others.now both.now result.0 result.1 }
{
    let a = &both.set.top;
    if both.others.many == 0 {
        return from_set(set, others, both, a.more);
    }
    let b = &both.others.top;
    if b.last < a.last {
        return from_set(set, others, both, a.more_after(b.last));
    }
    if a.last < b.last {
        return from_others(set, others, both, b.more_after(a.last));
    }
    from_both(set, others, both, a.more_of_both(b))
}

/// Returns the origins of a set and those of others that are not earlier than all of the set, the
/// latest first; and what is left of the others.
fn pieces(
    alloc: Global,
    set: &[Stretch],
    others: &[Stretch],
) -> Result<(Vec<Stretch>, Rest), NoMemory>
    ensures pieces { IfOk result (λ r. flat (reverse r.0.items) ++ left others.now r.1 ≡ join (flat set.now) (flat others.now)) }
    ensures within { IfOk result (λ r. r.1.many ≤ length others.now) }
{
    let mut all = Vec::new(alloc);
    let mut both = Both {
        set: rest_of(set),
        others: rest_of(others),
    };
    while both.set.many > 0 {
        let (piece, left) = next(set, others, &both);
        all.push(piece)?;
        both = left;
    }
    Ok((all, both.others))
}

/// Adds pieces. The latest one comes first.
fn push_all(all: &mut Vec<Stretch>, pieces: &[Stretch]) -> Result<(), NoMemory>
    ensures { OnOk result (flat all.new.items ≡ flat (reverse pieces.now) ++ flat all.old.items) }
{
    for i in (0..pieces.len()).rev() {
        push(all, &pieces[i])?;
    }
    Ok(())
}

/// The origins of a set and of others in one.
pub(crate) fn joined(
    alloc: Global,
    set: &[Stretch],
    others: &[Stretch],
) -> Result<Vec<Stretch>, NoMemory>
    ensures { IfOk result (λ all. flat all.items ≡ join (flat set.now) (flat others.now)) }
{
    let (pieces, rest) = pieces(alloc, set, others)?;
    let mut all = kept(alloc, others, &rest)?;
    push_all(&mut all, &pieces)?;
    Ok(all)
}
