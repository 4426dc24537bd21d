//! Lists of stretches, the earliest first.
ghost use Rattle.std.specs.Prelude.{◌≡◌, false, [], ◌∷◌, ◌++◌, map, IfOk, OnOk, OnErr};
ghost use Rattle.mcs_origins.specs.Sets.{at_places, given, taken, without};
ghost use Rattle.mcs_origins.specs.stored.Stretches.{all_of, flat, maybe};

use crate::mark::Mark;
use crate::set::is_one_of;
use crate::stretch::Stretch;
use crate::taking::Taking;
use mcs_ticks::{NoMemory, Tick};
use std::alloc::Global;

/// Adds a later stretch. If memory runs out, the stretches are unchanged.
pub(crate) fn push(all: &mut Vec<Stretch>, later: &Stretch) -> Result<(), NoMemory>
    ensures ok { OnOk result (flat all.new.items ≡ all_of later.now ++ flat all.old.items) }
    ensures err { OnErr result (all.new.items ≡ all.old.items) }
{
    if !all.is_empty() {
        let last = all.len() - 1;
        if let Some(whole) = all[last].followed_by(later) {
            all[last] = whole;
            return Ok(());
        }
    }
    all.push(*later)?;
    Ok(())
}

/// Two stretches. The second one is later.
pub(crate) fn two(
    alloc: Global,
    first: &Stretch,
    second: &Stretch,
) -> Result<Vec<Stretch>, NoMemory>
    ensures { IfOk result (λ all. flat all.items ≡ all_of second.now ++ all_of first.now) }
{
    let mut all = Vec::new(alloc);
    all.push(*first)?;
    all.push(*second)?;
    Ok(all)
}

/// Returns what a signal of this badge carries of a stretch, if anything.
pub(crate) fn given(stretch: &Stretch, places: u64, badge: u32) -> Option<Stretch>
    ensures { maybe result ≡ given places badge (all_of stretch.now) }
{
    if stretch.is_at(places) {
        Some(stretch.put_at(u64::from(badge)))
    } else {
        None
    }
}

/// Returns what a thread takes of a stretch, if anything.
pub(crate) fn taken(stretch: &Stretch, taking: Taking) -> Option<Stretch>
    ensures { maybe result ≡ taken taking (all_of stretch.now) }
{
    match taking {
        Taking::First(bits) if !stretch.is_at(bits) => None,
        Taking::First(bits) => Some(stretch.put_at(stretch.places & bits)),
        Taking::Later(places) => Some(stretch.put_at(places)),
    }
}

/// Adds a later stretch, if there is one.
fn push_maybe(all: &mut Vec<Stretch>, later: Option<Stretch>) -> Result<(), NoMemory>
    ensures { OnOk result (flat all.new.items ≡ maybe later ++ flat all.old.items) }
{
    match later {
        Some(later) => push(all, &later),
        None => Ok(()),
    }
}

/// Returns what a signal of this badge carries of stretches.
pub(crate) fn all_given(
    alloc: Global,
    stretches: &[Stretch],
    places: u64,
    badge: u32,
) -> Result<Vec<Stretch>, NoMemory>
    ensures { IfOk result (λ all. flat all.items ≡ given places badge (flat stretches.now)) }
{
    let mut all = Vec::new(alloc);
    for stretch in stretches {
        push_maybe(&mut all, given(stretch, places, badge))?;
    }
    Ok(all)
}

/// Returns what a thread takes of stretches.
pub(crate) fn all_taken(
    alloc: Global,
    stretches: &[Stretch],
    taking: Taking,
) -> Result<Vec<Stretch>, NoMemory>
    ensures { IfOk result (λ all. flat all.items ≡ taken taking (flat stretches.now)) }
{
    let mut all = Vec::new(alloc);
    for stretch in stretches {
        push_maybe(&mut all, taken(stretch, taking))?;
    }
    Ok(all)
}

/// Adds an origin, unless it was answered.
fn push_left(all: &mut Vec<Stretch>, mark: &Mark, answered: &[Tick]) -> Result<(), NoMemory>
    ensures { OnOk result (flat all.new.items ≡ without answered.now (mark.now ∷ []) ++ flat all.old.items) }
{
    if is_one_of(answered, mark.origin) {
        return Ok(());
    }
    push(all, &Stretch::one(mark))
}

/// Adds the origins of a later stretch that were not answered.
fn push_parts(all: &mut Vec<Stretch>, stretch: &Stretch, answered: &[Tick]) -> Result<(), NoMemory>
    ensures { OnOk result (flat all.new.items ≡ without answered.now (all_of stretch.now) ++ flat all.old.items) }
{
    push_left(all, &stretch.mark_at(stretch.more), answered)?;
    for number in (0..stretch.more).rev() {
        push_left(all, &stretch.mark_at(number), answered)?;
    }
    Ok(())
}

/// Adds what is left of a later stretch.
fn push_without(
    all: &mut Vec<Stretch>,
    stretch: &Stretch,
    answered: &[Tick],
) -> Result<(), NoMemory>
    ensures { OnOk result (flat all.new.items ≡ without answered.now (all_of stretch.now) ++ flat all.old.items) }
{
    if stretch.may_have(answered) {
        push_parts(all, stretch, answered)
    } else {
        push(all, stretch)
    }
}

/// Returns the origins that were not answered.
pub(crate) fn all_without(
    alloc: Global,
    stretches: &[Stretch],
    answered: &[Tick],
) -> Result<Vec<Stretch>, NoMemory>
    ensures { IfOk result (λ all. flat all.items ≡ without answered.now (flat stretches.now)) }
{
    let mut all = Vec::new(alloc);
    for stretch in stretches {
        push_without(&mut all, stretch, answered)?;
    }
    Ok(all)
}

/// Whether some of the origins may have been answered.
pub(crate) fn may_have(stretches: &[Stretch], answered: &[Tick]) -> bool
    ensures { result ≡ false → without answered.now (flat stretches.now) ≡ flat stretches.now }
{
    for stretch in stretches {
        if stretch.may_have(answered) {
            return true;
        }
    }
    false
}

/// Appends the origins of a stretch.
fn append_origins(origins: &mut Vec<Tick>, stretch: &Stretch) -> Result<(), NoMemory>
    ensures { OnOk result (origins.new.items ≡ origins.old.items ++ map (λ mark. mark.origin) (all_of stretch.now)) }
{
    for number in 0..stretch.more {
        origins.push(stretch.at(number))?;
    }
    origins.push(stretch.at(stretch.more))?;
    Ok(())
}

/// Appends the origins of a stretch, if it is at these places.
fn append_at(origins: &mut Vec<Tick>, stretch: &Stretch, places: u64) -> Result<(), NoMemory>
    ensures { OnOk result (origins.new.items ≡ origins.old.items ++ map (λ mark. mark.origin) (at_places places (all_of stretch.now))) }
{
    if stretch.is_at(places) {
        append_origins(origins, stretch)
    } else {
        Ok(())
    }
}

/// The origins at these places, the latest first.
pub(crate) fn origins_at(
    alloc: Global,
    stretches: &[Stretch],
    places: u64,
) -> Result<Vec<Tick>, NoMemory>
    ensures { IfOk result (λ origins. origins.items ≡ map (λ mark. mark.origin) (at_places places (flat stretches.now))) }
{
    let mut origins = Vec::new(alloc);
    for i in (0..stretches.len()).rev() {
        append_at(&mut origins, &stretches[i], places)?;
    }
    Ok(origins)
}
