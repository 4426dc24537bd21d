ghost use Rattle.std.specs.Prelude.{◌≡◌, ◌<◌, ◌≤◌, ◌∷◌, ◌++◌, ℕ, [], All, List, None, length, map, slice_set, IfErr, IfNone, IfOk, IfSome, IsOk, IsSome, OnErr, OnOk};
ghost use Rattle.mcs_ticks.specs.declared.row.Row.{Row};
ghost use Rattle.mcs_ticks.specs.Given.{Given, GivenUntil};
ghost use Rattle.mcs_merge.specs.Merge.{merged_before, DoNotFall};
ghost use Rattle.mcs_merge.specs.Merging.{list_of, with_rows};
ghost use Rattle.mcs_merge.specs.Parts.{all_from, first_of, parts_of, AreHeld, Hold, HoldEach};
ghost use Rattle.mcs_merge.specs.stored.Heads.{far, head_at, head_of_next};
ghost use Rattle.mcs_merge.specs.stored.Parts.{left_of_all, AreNext, ArePouring, IsInLine, IsNextCore, IsRefused, IsStopped, NoneBefore, Pours};
ghost use Rattle.mcs_merge.specs.stored.Sweep.{IsSwept};

use crate::Part;
use crate::heads::{Head, Heads};
use crate::sweep::Sweep;
use crate::waiting::Waiting;
use mcs_ticks::{CoreId, NoMemory, Refused, Soonest, Tick};
use std::alloc::Global;
use std::marker::Model;

/// Steps in the tree of heads before a sweep is tried.
const FEW: u32 = 64;

/// Steps in the tree before the next try, after a sweep that gave fewer than `ENOUGH`.
const MANY: u32 = 1024;

/// Moments of cores from which on a sweep costs less than the tree.
const ENOUGH: u32 = 32;

/// A merge of parts by moment, then core, then place; parts can be added while rows are given.
/// Contracts see the parts of each core, in order.
#[derive(Drop)]
pub struct Merger<P: Part> {
    cores: Vec<Waiting<P>>,
    /// the first moment of each core
    heads: Heads,
}

impl<P: Part> Model for Merger<P> {
    ghost use Rattle.std.specs.Prelude.{List};
    ghost use Rattle.mcs_merge.specs.stored.Parts.{AreNext};

    ghost Value = { List (List P) };

    ghost view = { λ a. a.cores.items };

    ghost invariant = { λ a. AreNext P.first a.cores.items a.heads };
}

impl<P: Part> Merger<P> {
    /// Returns a merger with one part for each core, for 1 to 64 cores. Fails with `NoMemory` if
    /// memory runs out.
    pub fn new(alloc: Global, parts: Vec<P>) -> Result<Self, NoMemory>
        requires some { 1 ≤ length parts.items }
        requires few { length parts.items ≤ 64 }
        ensures parts { IfOk result (λ merger. merger ≡ map (λ part. part ∷ []) parts.items) }
        ensures held { (out : P.Out) (lists : List (List Row)) → HoldEach P.holds out parts.items lists
            → IfOk result (λ merger. AreHeld P.holds out merger lists) }
    {
        let cores = waiting_of(alloc, parts)?;
        let heads = heads_of(alloc, cores.as_slice())?;
        Ok(Merger { cores, heads })
    }

    /// Appends a part to those of a core, and returns a used-up part of the core, if there is one.
    /// It allocates memory only if the core has rows that wait. If memory runs out, the part is
    /// handed back and the merger is unchanged. No row is copied.
    pub fn add(&mut self, core: CoreId, part: P) -> Result<Option<P>, (P, NoMemory)>
        requires { core < length self.old }
        ensures added { (out : P.Out) (lists : List (List Row)) (rows : List Row) → AreHeld P.holds out self.old lists → P.holds out part rows
            → OnOk result (AreHeld P.holds out self.new (with_rows core rows lists)) }
        ensures empty { IfOk result (λ room. IfSome room (λ part. P.first part ≡ None)) }
        ensures handed_back { IfErr result (λ back. back.0 ≡ part) }
        ensures unchanged { OnErr result (self.new ≡ self.old) }
        ensures moved { first_of P.first (parts_of core self.old) ≡ None → IsOk result }
        ensures none { P.first part ≡ None → IsOk result }
        ensures cores { length self.new ≡ length self.old }
    {
        let cores = self.cores.as_mut_slice();
        let room = add_to(cores, core.0, part)?;
        let head = head_at(cores, core.0);
        self.heads.set(core.0, head);
        Ok(room)
    }

    /// Gives all rows before a moment, by moment, then core, then place. If the output refuses a
    /// row, it was given the rows before that one.
    pub fn pour_before(&mut self, until: Tick, out: &mut P::Out) -> Result<(), Refused>
        ensures given { (lists : List (List Row)) → All DoNotFall lists → AreHeld P.holds out.old self.old lists
            → OnOk result (Given P.Out.takes out.old (merged_before until lists) out.new × AreHeld P.holds out.new self.new (all_from until lists)) }
        ensures refused { (lists : List (List Row)) → All DoNotFall lists → AreHeld P.holds out.old self.old lists
            → OnErr result (GivenUntil P.Out.takes out.old (merged_before until lists) out.new) }
        ensures cores { length self.new ≡ length self.old }
    {
        let mut steps = FEW;
        'moments: while let Some(core) = self.next_before(until) {
            self.pour(core, out)?;
            if steps > 0 {
                steps -= 1;
            } else {
                steps = self.sweep(until, out)?;
            }
        }
        Ok(())
    }

    /// Gives the next rows within a few moments before `until`. Returns the number of steps after
    /// which to try again.
    fn sweep(&mut self, until: Tick, out: &mut P::Out) -> Result<u32, Refused>
        ensures goes_on { OnOk result (ArePouring P.Out.takes P.holds until out.old out.new self.old self.new) }
        ensures stops { OnErr result (IsStopped P.Out.takes P.holds until out.old out.new self.old) }
        ensures no_more { OnOk result (left_of_all P.left self.new ≤ left_of_all P.left self.old) }
        ensures cores { length self.new ≡ length self.old }
    {
        let Some(core) = self.next_before(until) else {
            return Ok(0);
        };
        let cores = self.cores.as_mut_slice();
        let mut sweep = sweep_of(cores, core, until);
        let poured = pour_sweep(cores, &mut sweep, out);
        set_heads(&mut self.heads, cores);
        Ok(if poured? < ENOUGH { MANY } else { 0 })
    }

    /// Returns the core whose first moment comes first, if that is before `until`.
    fn next_before(&self, until: Tick) -> Option<usize>
        ensures next { IfSome result (λ core. IsNextCore P.first self.now until core) }
        ensures none { IfNone result (NoneBefore P.first self.now until) }
        ensures in_line { (core : ℕ) → core < length self.now → IsInLine P.first (parts_of core self.now) }
    {
        let first = self.heads.first();
        if first.is_before(until) {
            Some(first.core())
        } else {
            None
        }
    }

    /// Gives the first moment of this core, and updates its head.
    fn pour(&mut self, core: usize, out: &mut P::Out) -> Result<(), Refused>
        requires within { core < length self.old }
        requires some { IsSome (first_of P.first (parts_of core self.old)) }
        ensures fewer { OnOk result (left_of_all P.left self.new < left_of_all P.left self.old) }
        ensures given { (rows : List Row) → DoNotFall rows → Hold P.holds out.old (parts_of core self.old) rows → OnOk result
            (IfSome (first_of P.first (parts_of core self.old)) (λ t. Pours P.Out.takes P.holds t rows out.old out.new (parts_of core self.new))) }
        ensures refused { (rows : List Row) → DoNotFall rows → Hold P.holds out.old (parts_of core self.old) rows → OnErr result
            (IfSome (first_of P.first (parts_of core self.old)) (λ t. IsRefused P.Out.takes P.holds t rows out.old out.new)) }
        ensures others { self.new ≡ slice_set self.old core (parts_of core self.new) }
    {
        let cores = self.cores.as_mut_slice();
        let poured = pour_of(cores, core, out);
        let head = head_at(cores, core);
        self.heads.set(core, head);
        poured
    }
}

fn waiting_of<P: Part>(alloc: Global, parts: Vec<P>) -> Result<Vec<Waiting<P>>, NoMemory>
    ensures { IfOk result (λ cores. cores.items ≡ map (λ part. part ∷ []) parts.items) }
{
    let mut cores = Vec::with_capacity(alloc, parts.len())?;
    for part in parts {
        cores.push(Waiting::new(alloc, part))?;
    }
    Ok(cores)
}

fn heads_of<P: Part>(alloc: Global, cores: &[Waiting<P>]) -> Result<Heads, NoMemory>
    requires few { length cores.now ≤ 64 }
    requires in_line { (core : ℕ) → core < length cores.now → IsInLine P.first (parts_of core cores.now) }
    ensures { IfOk result (λ heads. AreNext P.first cores.now heads) }
{
    let mut heads = Heads::new(alloc, cores.len())?;
    set_heads(&mut heads, cores);
    Ok(heads)
}

fn set_heads<P: Part>(heads: &mut Heads, cores: &[Waiting<P>])
    requires few { length cores.now ≤ 64 }
    requires enough { length cores.now ≤ length heads.old }
    requires others { (i : ℕ) → length cores.now ≤ i → i < length heads.old → head_at i heads.old ≡ far }
    requires in_line { (core : ℕ) → core < length cores.now → IsInLine P.first (parts_of core cores.now) }
    ensures { AreNext P.first cores.now heads.new }
{
    for core in 0..cores.len() {
        let head = head_at(cores, core);
        heads.set(core, head);
    }
}

fn head_at<P: Part>(cores: &[Waiting<P>], core: usize) -> Head
    requires within { core < length cores.now }
    requires few { core < 64 }
    ensures { result ≡ head_of_next core (first_of P.first (parts_of core cores.now)) }
{
    Head::of_next(core, next_at(cores, core))
}

/// Returns the first moment of a core, or never.
#[inline(always)]
fn next_at<P: Part>(cores: &[Waiting<P>], core: usize) -> Soonest
    requires { core < length cores.now }
    ensures { result ≡ first_of P.first (parts_of core cores.now) }
{
    cores[core].next()
}

/// Returns a sweep from the first moment of `core`, which comes first, with all cores in it.
fn sweep_of<P: Part>(cores: &[Waiting<P>], core: usize, until: Tick) -> Sweep
    requires next { IsNextCore P.first cores.now until core }
    requires few { length cores.now ≤ 64 }
    ensures swept { IsSwept P.first cores.now (λ d. d < length cores.now) result }
    ensures end { result.end ≤ until }
{
    let start = next_at(cores, core).moment().unwrap();
    let mut sweep = Sweep::new(start, until);
    for d in 0..cores.len() {
        sweep.put(d, next_at(cores, d));
    }
    sweep
}

/// Gives the next rows, core by core, as long as the sweep knows which core is next. Returns the
/// number of moments of cores that were given.
fn pour_sweep<P: Part>(
    cores: &mut [Waiting<P>],
    sweep: &mut Sweep,
    out: &mut P::Out,
) -> Result<u32, Refused>
    requires few { length cores.old ≤ 64 }
    requires in_line { (core : ℕ) → core < length cores.old → IsInLine P.first (parts_of core cores.old) }
    requires swept { IsSwept P.first cores.old (λ d. d < length cores.old) sweep.old }
    ensures long { length cores.new ≡ length cores.old }
    ensures in_line { (core : ℕ) → core < length cores.new → IsInLine P.first (parts_of core cores.new) }
    ensures no_more { OnOk result (left_of_all P.left cores.new ≤ left_of_all P.left cores.old) }
    ensures goes_on { (until : ℕ) → sweep.old.end ≤ until → OnOk result (ArePouring P.Out.takes P.holds until out.old out.new cores.old cores.new) }
    ensures stops { (until : ℕ) → sweep.old.end ≤ until → OnErr result (IsStopped P.Out.takes P.holds until out.old out.new cores.old) }
{
    let mut poured = 0u32;
    'cores: while let Some(core) = sweep.take() {
        pour_of(cores, core, out)?;
        poured = poured.saturating_add(1);
        if !sweep.put(core, next_at(cores, core)) {
            return Ok(poured);
        }
    }
    Ok(poured)
}

fn add_to<P: Part>(
    cores: &mut [Waiting<P>],
    core: usize,
    part: P,
) -> Result<Option<P>, (P, NoMemory)>
    requires { core < length cores.old }
    ensures added { (out : P.Out) (rows more : List Row) → Hold P.holds out (parts_of core cores.old) rows → P.holds out part more
        → OnOk result (Hold P.holds out (parts_of core cores.new) (rows ++ more)) }
    ensures empty { IfOk result (λ room. IfSome room (λ part. P.first part ≡ None)) }
    ensures handed_back { IfErr result (λ back. back.0 ≡ part) }
    ensures unchanged { OnErr result (cores.new ≡ cores.old) }
    ensures no_room { (first_of P.first (parts_of core cores.old) ≡ None → IsOk result) × (P.first part ≡ None → IsOk result) }
    ensures others { cores.new ≡ slice_set cores.old core (parts_of core cores.new) }
    ensures in_line { IsInLine P.first (parts_of core cores.new) }
{
    let waiting = &mut cores[core];
    waiting.add(part)
}

/// Gives all rows that the first part of a core has at its first moment.
#[inline(always)]
fn pour_of<P: Part>(cores: &mut [Waiting<P>], core: usize, out: &mut P::Out) -> Result<(), Refused>
    requires within { core < length cores.old }
    requires some { IsSome (first_of P.first (parts_of core cores.old)) }
    ensures fewer { OnOk result (left_of_all P.left cores.new < left_of_all P.left cores.old) }
    ensures given { (rows : List Row) → DoNotFall rows → Hold P.holds out.old (parts_of core cores.old) rows → OnOk result
        (IfSome (first_of P.first (parts_of core cores.old)) (λ t. Pours P.Out.takes P.holds t rows out.old out.new (parts_of core cores.new))) }
    ensures refused { (rows : List Row) → DoNotFall rows → Hold P.holds out.old (parts_of core cores.old) rows → OnErr result
        (IfSome (first_of P.first (parts_of core cores.old)) (λ t. IsRefused P.Out.takes P.holds t rows out.old out.new)) }
    ensures others { cores.new ≡ slice_set cores.old core (parts_of core cores.new) }
    ensures in_line { IsInLine P.first (parts_of core cores.new) }
{
    let waiting = &mut cores[core];
    waiting.pour(out)
}
