//! Lines that wait to be merged into a text.
ghost use Rattle.std.specs.Prelude.{◌≡◌, IsSome};
ghost use Rattle.mcs_text.specs.Lines.{no_lines, text_at};
ghost use Rattle.mcs_text.specs.Parts.{next_of, passed};

use crate::lines::Lines;
use crate::text::Text;
use mcs_merge::Part;
use mcs_ticks::{Refused, Soonest};
use std::marker::Model;

/// Lines of one core's rows, in order of time, that wait for a text. The lines of one time are
/// given at once. Contracts see the lines and the index of the first waiting mark.
#[derive(Drop)]
pub struct LinesPart<'a> {
    lines: Lines<'a>,
    place: usize,
}

impl<'a> Model for LinesPart<'a> {
    ghost use Rattle.mcs_text.specs.Parts.{LinesPart};

    ghost Value = { LinesPart };

    ghost view = { λ a. record { lines = a.lines; place = a.place } };
}

impl<'a> LinesPart<'a> {
    /// Returns a part in which all these lines wait.
    pub fn new(lines: Lines<'a>) -> LinesPart<'a>
        ensures { result ≡ record { lines = lines.entry; place = 0 } }
    {
        LinesPart { lines, place: 0 }
    }

    /// The lines of the first time. There must be one.
    #[inline(always)]
    pub fn first_lines(&self) -> &[u8]
        requires { IsSome (next_of self.now) }
        ensures { result.now ≡ text_at self.now.lines self.now.place }
    {
        self.lines.text_at(self.place)
    }

    /// Removes the lines of the first time from those that wait. There must be one.
    #[inline(always)]
    pub fn pass(&mut self)
        requires { IsSome (next_of self.old) }
        ensures { self.new ≡ passed self.old }
    {
        // the index is below the number of marks, so there is a next one
        let _marks = self.lines.marks().len();
        self.place += 1;
    }

    /// Returns the room of the lines, empty.
    pub fn into_room(self) -> Lines<'a>
        ensures { result ≡ no_lines self.entry.lines.system }
    {
        let LinesPart {
            mut lines,
            place: _,
        } = self;
        lines.clear();
        lines
    }
}

/// It holds rows if the waiting lines are theirs, with a mark at each of their times.
impl<'a> Part for LinesPart<'a> {
    ghost use Rattle.mcs_text.specs.Parts.{left_of, next_of, HoldsRows};

    type Out = Text<'a>;

    ghost holds = { λ text part rows. HoldsRows text.system part rows };

    ghost first = { next_of };

    ghost left = { left_of };

    #[inline(always)]
    fn next(&self) -> Soonest {
        match self.lines.marks().get(self.place) {
            Some(mark) => Soonest::at(mark.moment),
            None => Soonest::never(),
        }
    }

    fn pour(&mut self, out: &mut Text<'a>) -> Result<(), Refused> {
        out.append(self.first_lines())?;
        self.pass();
        Ok(())
    }

    ghost use Rattle.std.proofs.Common.{subst, sym};

    ghost is_first = { λ text part rows held. held.first };

    ghost holds_on = { λ before after part rows row held taken. subst (λ text. HoldsRows text.system part rows) (sym taken) held };
}
