ghost use Rattle.std.specs.Prelude.{◌≡◌, ◌<◌, ◌++◌, ◌∷◌, [], All, List, None, IfErr, IfOk, IfSome, IsOk, IsSome, OnErr, OnOk};
ghost use Rattle.mcs_ticks.specs.declared.row.Row.{Row};
ghost use Rattle.mcs_merge.specs.Merge.{DoNotFall};
ghost use Rattle.mcs_merge.specs.Parts.{first_of, Hold};
ghost use Rattle.mcs_merge.specs.stored.Parts.{left_of, AreInLine, GoesOn, IsInLine, IsRefused, Pours};

use crate::Part;
use mcs_ticks::{NoMemory, Refused, Soonest};
use std::alloc::Global;
use std::collections::VecDeque;
use std::marker::Model;
use std::mem;

/// The parts of a core that wait to be given, in order. Contracts see the list of them; the first
/// may be empty.
#[derive(Drop)]
pub(crate) struct Waiting<P: Part> {
    front: P,
    later: VecDeque<P>,
    /// a used-up part
    spare: Option<P>,
}

impl<P: Part> Model for Waiting<P> {
    ghost use Rattle.std.specs.Prelude.{List, ◌∷◌};
    ghost use Rattle.mcs_merge.specs.stored.Parts.{AreInLine};

    ghost Value = { List P };

    ghost view = { λ a. a.front ∷ a.later.items };

    ghost invariant = { λ a. AreInLine P.first a.front a.later.items a.spare };
}

impl<P: Part> Waiting<P> {
    /// Returns a line of this part alone.
    pub(crate) fn new(alloc: Global, part: P) -> Self
        ensures part { result ≡ part ∷ [] }
        ensures in_line { IsInLine P.first result }
    {
        Waiting {
            front: part,
            later: VecDeque::new(alloc),
            spare: None,
        }
    }

    /// Returns the first moment, or never.
    pub(crate) fn next(&self) -> Soonest
        ensures { result ≡ first_of P.first self.now }
    {
        self.front.next()
    }

    /// Appends a part, with the results of `Merger::add`.
    pub(crate) fn add(&mut self, part: P) -> Result<Option<P>, (P, NoMemory)>
        ensures added { (out : P.Out) (rows more : List Row) → Hold P.holds out self.old rows → P.holds out part more
            → OnOk result (Hold P.holds out self.new (rows ++ more)) }
        ensures empty { IfOk result (λ room. IfSome room (λ part. P.first part ≡ None)) }
        ensures handed_back { IfErr result (λ back. back.0 ≡ part) }
        ensures unchanged { OnErr result (self.new ≡ self.old) }
        ensures moved { first_of P.first self.old ≡ None → IsOk result }
        ensures none { P.first part ≡ None → IsOk result }
        ensures in_line { IsInLine P.first self.new }
    {
        if self.front.next().moment().is_none() {
            return Ok(Some(mem::replace(&mut self.front, part)));
        }
        if part.next().moment().is_none() {
            return Ok(Some(part));
        }
        match self.later.push_back(part) {
            Ok(()) => Ok(self.spare.take()),
            Err(failed) => Err((failed.value, NoMemory)),
        }
    }

    /// Gives all rows that the front part has at its first moment.
    #[inline(always)]
    pub(crate) fn pour(&mut self, out: &mut P::Out) -> Result<(), Refused>
        requires { IsSome (first_of P.first self.old) }
        ensures in_line { IsInLine P.first self.new }
        ensures fewer { OnOk result (left_of P.left self.new < left_of P.left self.old) }
        ensures given { (rows : List Row) → DoNotFall rows → Hold P.holds out.old self.old rows → OnOk result (IfSome (first_of P.first self.old)
            (λ t. Pours P.Out.takes P.holds t rows out.old out.new self.new)) }
        ensures refused { (rows : List Row) → DoNotFall rows → Hold P.holds out.old self.old rows → OnErr result (IfSome (first_of P.first self.old)
            (λ t. IsRefused P.Out.takes P.holds t rows out.old out.new)) }
    {
        let poured = self.front.pour(out);
        go_on(&mut self.front, &mut self.later, &mut self.spare);
        poured
    }
}

/// If the front part is empty, the next one becomes the front and the empty one becomes the spare.
fn go_on<P: Part>(front: &mut P, later: &mut VecDeque<P>, spare: &mut Option<P>)
    requires behind { All (λ part. IsSome (P.first part)) later.old.items }
    requires unused { IfSome spare.old (λ part. P.first part ≡ None) }
    ensures in_line { AreInLine P.first front.new later.new.items spare.new }
    ensures same { GoesOn P.first (front.old ∷ later.old.items) (front.new ∷ later.new.items) }
{
    if front.next().moment().is_some() {
        return;
    }
    if let Some(next) = later.pop_front() {
        *spare = Some(mem::replace(front, next));
    }
}
