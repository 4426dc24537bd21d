//! Sets of origins.
ghost use Rattle.std.specs.Prelude.{◌≡◌, ◌↔◌, false, [], ◌∷◌, ◌++◌, map, IfOk, IfSome, OnOk, OnErr, IsTrue};
ghost use Rattle.mcs_origins.specs.Sets.{join, at_places, given, taken, is_one_of, without};
ghost use Rattle.mcs_origins.specs.stored.Stretches.{all_of, flat, marks_of, maybe};

use crate::joining::joined;
use crate::mark::Mark;
use crate::stretch::Stretch;
use crate::stretches;
use crate::taking::Taking;
use mcs_ticks::{NoMemory, Tick};
use std::alloc::Global;
use std::marker::Model;
use std::slice;

/// Origins, the latest first, each once, with the places at which it is. It is kept as stretches.
/// A set of one stretch takes no memory.
#[derive(Debug, Drop)]
pub struct Set {
    marks: Marks,
}

/// Many stretches have the latest one at the end, so adding a later one is a push.
#[derive(Debug, Drop)]
enum Marks {
    Empty,
    One(Stretch),
    Many(Vec<Stretch>),
}

impl Model for Set {
    ghost use Rattle.std.specs.Prelude.{List};
    ghost use Rattle.mcs_origins.specs.declared.mark.Mark.{Mark};
    ghost use Rattle.mcs_origins.specs.stored.Stretches.{marks_of};

    ghost Value = { List Mark };

    ghost view = { λ a. marks_of a.marks };
}

/// Whether an origin is one of these.
pub fn is_one_of(origins: &[Tick], origin: Tick) -> bool
    ensures { result ≡ is_one_of origins.now origin }
{
    origins.iter().any(|other| *other == origin)
}

impl Set {
    /// No origins.
    #[inline(always)]
    pub fn empty() -> Self
        ensures { result ≡ [] }
    {
        Set {
            marks: Marks::Empty,
        }
    }

    /// One origin.
    #[inline(always)]
    pub fn one(mark: Mark) -> Self
        ensures { result ≡ mark ∷ [] }
    {
        Set {
            marks: Marks::One(Stretch::one(&mark)),
        }
    }

    /// The origins of a stretch, if there is one.
    fn of_one(stretch: Option<Stretch>) -> Self
        ensures { result ≡ maybe stretch }
    {
        match stretch {
            Some(stretch) => Set {
                marks: Marks::One(stretch),
            },
            None => Set::empty(),
        }
    }

    /// The origins of these stretches.
    fn of(stretches: Vec<Stretch>) -> Self
        ensures { result ≡ flat stretches.items }
    {
        Set {
            marks: marks_from(stretches),
        }
    }

    /// The stretches, the earliest first.
    pub fn as_slice(&self) -> &[Stretch]
        ensures { flat result.now ≡ self.now }
    {
        match &self.marks {
            Marks::Empty => &[],
            Marks::One(stretch) => slice::from_ref(stretch),
            Marks::Many(stretches) => stretches.as_slice(),
        }
    }

    /// Whether there is none.
    #[inline(always)]
    pub fn is_empty(&self) -> bool
        ensures { IsTrue result ↔ (self.now ≡ []) }
    {
        match &self.marks {
            Marks::Empty => true,
            Marks::One(_) => false,
            Marks::Many(stretches) => stretches.is_empty(),
        }
    }

    /// Adds an origin as the latest one. If memory runs out, the set is unchanged.
    pub fn push(&mut self, alloc: Global, mark: Mark) -> Result<(), NoMemory>
        ensures ok { OnOk result (self.new ≡ mark ∷ self.old) }
        ensures err { OnErr result (self.new ≡ self.old) }
    {
        let later = Stretch::one(&mark);
        match &mut self.marks {
            Marks::Empty => self.marks = Marks::One(later),
            Marks::One(first) => self.marks = with_later(alloc, first, &later)?,
            Marks::Many(stretches) => stretches::push(stretches, &later)?,
        }
        Ok(())
    }

    /// Adds the origins of another set. If memory runs out, the set is unchanged.
    pub fn join(&mut self, alloc: Global, set: &Set) -> Result<(), NoMemory>
        ensures ok { OnOk result (self.new ≡ join set.now self.old) }
        ensures err { OnErr result (self.new ≡ self.old) }
    {
        match &mut self.marks {
            Marks::Empty => *self = set.copied(alloc)?,
            Marks::One(stretch) => self.marks = join_to_one(alloc, stretch, set)?,
            Marks::Many(stretches) => join_to_many(alloc, stretches, set.as_slice())?,
        }
        Ok(())
    }

    /// Returns a copy. `NoMemory` if an allocation failed.
    pub fn copied(&self, alloc: Global) -> Result<Self, NoMemory>
        ensures { IfOk result (λ set. set ≡ self.now) }
    {
        match &self.marks {
            Marks::Empty => Ok(Set::empty()),
            Marks::One(stretch) => Ok(Set::of_one(Some(*stretch))),
            Marks::Many(stretches) => Ok(Set::of(Vec::from_slice(alloc, stretches.as_slice())?)),
        }
    }

    /// Returns what a signal of this badge carries of the origins at these places. `NoMemory` if an
    /// allocation failed.
    #[inline(always)]
    pub fn given(&self, alloc: Global, places: u64, badge: u32) -> Result<Self, NoMemory>
        ensures { IfOk result (λ set. set ≡ given places badge self.now) }
    {
        match &self.marks {
            Marks::Empty => Ok(Set::empty()),
            Marks::One(stretch) => Ok(Set::of_one(stretches::given(stretch, places, badge))),
            Marks::Many(stretches) => Ok(Set::of(stretches::all_given(
                alloc,
                stretches.as_slice(),
                places,
                badge,
            )?)),
        }
    }

    /// Returns what a thread takes. `NoMemory` if an allocation failed.
    pub fn taken(&self, alloc: Global, taking: Taking) -> Result<Self, NoMemory>
        ensures { IfOk result (λ set. set ≡ taken taking self.now) }
    {
        match &self.marks {
            Marks::Empty => Ok(Set::empty()),
            Marks::One(stretch) => Ok(Set::of_one(stretches::taken(stretch, taking))),
            Marks::Many(stretches) => Ok(Set::of(stretches::all_taken(
                alloc,
                stretches.as_slice(),
                taking,
            )?)),
        }
    }

    /// Whether some of the origins may have been answered. If not, none was.
    #[inline(always)]
    pub fn may_have(&self, answered: &[Tick]) -> bool
        ensures { result ≡ false → without answered.now self.now ≡ self.now }
    {
        match &self.marks {
            Marks::Empty => false,
            Marks::One(stretch) => stretch.may_have(answered),
            Marks::Many(stretches) => stretches::may_have(stretches.as_slice(), answered),
        }
    }

    /// Returns the origins that were not answered. `NoMemory` if an allocation failed.
    pub fn without(&self, alloc: Global, answered: &[Tick]) -> Result<Self, NoMemory>
        ensures { IfOk result (λ set. set ≡ without answered.now self.now) }
    {
        Ok(Set::of(stretches::all_without(alloc, self.as_slice(), answered)?))
    }

    /// The origins at these places, the latest first. `NoMemory` if an allocation failed.
    pub fn origins_at(&self, alloc: Global, places: u64) -> Result<Vec<Tick>, NoMemory>
        ensures { IfOk result (λ origins. origins.items ≡ map (λ mark. mark.origin) (at_places places self.now)) }
    {
        stretches::origins_at(alloc, self.as_slice(), places)
    }
}

/// How stretches are kept.
fn marks_from(stretches: Vec<Stretch>) -> Marks
    ensures { marks_of result ≡ flat stretches.items }
{
    if stretches.len() == 1 {
        Marks::One(stretches[0])
    } else {
        Marks::Many(stretches)
    }
}

/// The origins of a stretch and of a later one.
fn with_later(alloc: Global, first: &Stretch, later: &Stretch) -> Result<Marks, NoMemory>
    ensures { IfOk result (λ marks. marks_of marks ≡ all_of later.now ++ all_of first.now) }
{
    match first.followed_by(later) {
        Some(whole) => Ok(Marks::One(whole)),
        None => Ok(Marks::Many(stretches::two(alloc, first, later)?)),
    }
}

/// The origins of two stretches as one stretch, in some cases.
fn one_of_two(a: &Stretch, b: &Stretch) -> Option<Stretch>
    ensures { IfSome result (λ whole. all_of whole ≡ join (all_of a.now) (all_of b.now)) }
{
    if b.last < a.at(a.more) {
        b.followed_by(a)
    } else if a.last == b.last && a.more == b.more && a.has_step(b.step) {
        Some(a.put_at(a.places | b.places))
    } else {
        None
    }
}

/// The origins of a set and of this stretch.
fn join_to_one(alloc: Global, stretch: &Stretch, set: &Set) -> Result<Marks, NoMemory>
    ensures { IfOk result (λ marks. marks_of marks ≡ join set.now (all_of stretch.now)) }
{
    if let Marks::One(other) = &set.marks
        && let Some(whole) = one_of_two(other, stretch)
    {
        return Ok(Marks::One(whole));
    }
    Ok(marks_from(joined(alloc, set.as_slice(), slice::from_ref(stretch))?))
}

/// Adds the origins of stretches to many. If memory runs out, these are unchanged.
fn join_to_many(alloc: Global, others: &mut Vec<Stretch>, set: &[Stretch]) -> Result<(), NoMemory>
    ensures ok { OnOk result (flat others.new.items ≡ join (flat set.now) (flat others.old.items)) }
    ensures err { OnErr result (flat others.new.items ≡ flat others.old.items) }
{
    if set.len() == 1 && is_after(&set[0], others) {
        return stretches::push(others, &set[0]);
    }
    *others = joined(alloc, set, others)?;
    Ok(())
}

/// Whether all of a stretch is later than all of others.
fn is_after(stretch: &Stretch, others: &[Stretch]) -> bool
    ensures { IsTrue result → join (all_of stretch.now) (flat others.now) ≡ all_of stretch.now ++ flat others.now }
{
    if others.is_empty() {
        return true;
    }
    others[others.len() - 1].last < stretch.at(stretch.more)
}
