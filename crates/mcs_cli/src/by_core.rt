//! The text of each core. It is made as the core runs, and written in order of time with that of
//! the other cores.
ghost use Rattle.std.specs.Prelude.{◌≡◌};

use crate::Target;
use crate::named::Named;
use crate::sink::Lines;
use mcs_merge::Part;
use mcs_team::{Refused, Relay, Sink};
use mcs_text::{LinesPart, Names, ToldLines};
use mcs_ticks::{Collector, Measured, Row, Soonest};
use std::alloc::Global;
use std::marker::PhantomData;
use std::mem;

/// The lines of a core, of the system that `B` names.
#[derive(Drop)]
pub(crate) struct CoreText<'a, B: Named> {
    told: ToldLines<'a>,
    of: PhantomData<B>,
    ghost of_system: { told.lines.system ≡ B.system },
}

/// Appends the line of a row. It is refused if memory runs out.
impl<B: Named> Sink for CoreText<'_, B> {
    ghost use Rattle.mcs_text.specs.Told.{TakesTold};

    ghost takes = { λ before row taken after. TakesTold before.told row taken after.told };

    #[inline(always)]
    fn row(&mut self, row: &Row) -> Result<(), Refused> {
        self.told.row(row)
    }
}

/// The size is the number of rows.
impl<B: Named> Measured for CoreText<'_, B> {
    ghost size = { λ text. text.told.rows };

    #[inline(always)]
    fn size(&self) -> usize {
        self.told.size()
    }
}

/// It holds the rows whose lines these are.
impl<B: Named> Collector for CoreText<'_, B> {
    ghost use Rattle.std.specs.Prelude.{length};
    ghost use Rattle.mcs_text.specs.Told.{HoldsTold};
    ghost use Rattle.mcs_text.specs.stored.Told.{told_more};

    ghost holds = { λ text rows. HoldsTold text.told rows };

    ghost amount = { length };

    fn clear(&mut self) {
        self.told.clear();
    }

    ghost holds_more = { λ before after held row holds taken. told_more before.told after.told held row holds taken };

    ghost is_measured = { λ text held holds. holds.many };
}

/// Waiting lines of a core, of the system that `B` names. They are put on the page of `Lines`.
#[derive(Drop)]
pub(crate) struct CorePart<'a, B: Named, T> {
    lines: LinesPart<'a>,
    to: PhantomData<(B, T)>,
    ghost of_system: { lines.lines.system ≡ B.system },
}

/// It holds the rows whose lines these are, and puts those of one time on the page at once.
impl<'a, B: Named, T: Target + 'a> Part for CorePart<'a, B, T> {
    ghost use Rattle.mcs_text.specs.Parts.{left_of, next_of, HoldsRows};

    type Out = Lines<'a, T>;

    ghost holds = { λ out part rows. HoldsRows out.names.now part.lines rows };

    ghost first = { λ part. next_of part.lines };

    ghost left = { λ part. left_of part.lines };

    #[inline(always)]
    fn next(&self) -> Soonest {
        self.lines.next()
    }

    fn pour(&mut self, out: &mut Lines<'a, T>) -> Result<(), Refused> {
        out.append(self.lines.first_lines())?;
        self.lines.pass();
        Ok(())
    }

    ghost use Rattle.std.proofs.Common.{subst, sym};

    ghost is_first = { λ out part rows held. held.first };

    ghost holds_on = { λ before after part rows row held taken. subst (λ names. HoldsRows names.now part.lines rows) (sym taken.2) held };
}

/// Turns rows of the system that `B` names into text as their core runs, and gives it to `Lines`.
#[derive(Drop)]
pub(crate) struct ByCore<'a, B: Named, T> {
    alloc: Global,
    names: &'a Names<'a>,
    to: PhantomData<(B, T)>,
    ghost of_system: { names.now ≡ B.system },
}

impl<'a, B: Named, T> ByCore<'a, B, T> {
    /// Returns the relay for the system with these names.
    pub(crate) fn new(alloc: Global, names: &'a Names<'a>) -> ByCore<'a, B, T>
        requires { names.now ≡ B.system }
    {
        ByCore {
            alloc,
            names,
            to: PhantomData,
        }
    }
}

impl<'a, B: Named, T: Target + 'a> Relay for ByCore<'a, B, T> {
    type Told = CoreText<'a, B>;

    type Part = CorePart<'a, B, T>;

    ghost use Rattle.std.specs.Prelude.{◌≡◌};

    ghost fits = { λ relay out. out.names.now ≡ B.system };

    fn empty(&self) -> CoreText<'a, B> {
        CoreText {
            told: ToldLines::new(self.alloc, self.names),
            of: PhantomData,
        }
    }

    fn part(&self, told: CoreText<'a, B>) -> CorePart<'a, B, T> {
        let CoreText { told, of: _ } = told;
        CorePart {
            lines: LinesPart::new(told.into_lines()),
            to: PhantomData,
        }
    }

    fn room(&self, part: CorePart<'a, B, T>) -> CoreText<'a, B> {
        let CorePart { lines, to: _ } = part;
        CoreText {
            told: ToldLines::in_room_of(lines.into_room()),
            of: PhantomData,
        }
    }

    fn give(&self, told: &mut CoreText<'a, B>, out: &mut Lines<'a, T>) -> Result<(), Refused> {
        // an append without lines could write those that wait
        if told.size() == 0 {
            return Ok(());
        }
        let empty = ToldLines::new(self.alloc, self.names);
        let lines = mem::replace(&mut told.told, empty).into_lines();
        out.append(lines.as_slice())?;
        told.told = ToldLines::in_room_of(lines);
        Ok(())
    }

    ghost use Rattle.std.proofs.Common.{◌∙◌, ap};

    ghost fits_on = { λ relay before after row fits taken. ap (λ names. names.now) taken.2 ∙ fits };
}
