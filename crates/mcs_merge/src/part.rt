ghost use Rattle.std.specs.Prelude.{◌≡◌};

use mcs_ticks::{Refused, Sink, Soonest};

/// Rows of one core, in order of their moments, that wait to be given one moment at a time. Each
/// part defines `holds` (the rows that it holds for an output) and `first` (the moment of the first
/// row). It also defines `left`, a number that falls with each moment that is given. The effect on
/// an output is that of giving it the rows one by one.
pub trait Part: Drop {
    ghost use Rattle.std.specs.Prelude.{◌≡◌, ◌<◌, ℕ, suc, List, Option, true, IfSome, IsSome, OnErr, OnOk};
    ghost use Rattle.mcs_ticks.specs.declared.row.Row.{Row};
    ghost use Rattle.mcs_ticks.specs.Given.{Given, GivenUntil};
    ghost use Rattle.mcs_merge.specs.Merge.{rows_at, DoNotFall};
    ghost use Rattle.mcs_merge.specs.Parts.{first_moment, rows_from};

    type Out: Sink;

    ghost holds: { Self.Out → Self → List Row → Type 0 };

    ghost first: { Self → Option ℕ };

    ghost left: { Self → ℕ };

    /// Returns the moment of its first row, or never.
    fn next(&self) -> Soonest
        ensures { result ≡ first self.now };

    /// Gives all rows of its first moment. If the output refuses a row, it was given the rows
    /// before that one.
    fn pour(&mut self, out: &mut Self::Out) -> Result<(), Refused>
        requires { IsSome (first self.old) }
        ensures fewer { OnOk result (left self.new < left self.old) }
        ensures given { (rows : List Row) → DoNotFall rows → holds out.old self.old rows → OnOk result (IfSome (first self.old)
            (λ t. Given Self.Out.takes out.old (rows_at t rows) out.new × holds out.new self.new (rows_from (suc t) rows))) }
        ensures refused { (rows : List Row) → DoNotFall rows → holds out.old self.old rows → OnErr result (IfSome (first self.old)
            (λ t. GivenUntil Self.Out.takes out.old (rows_at t rows) out.new)) };

    ghost is_first: { (out : Self.Out) (part : Self) (rows : List Row) → holds out part rows → first part ≡ first_moment rows };

    ghost holds_on: { (before after : Self.Out) (part : Self) (rows : List Row) (row : Row) → holds before part rows
        → Self.Out.takes before row true after → holds after part rows };
}
