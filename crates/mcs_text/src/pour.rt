//! Merges waiting lines of many cores into a text.
ghost use Rattle.std.specs.Prelude.{◌≡◌, All, List, OnErr, OnOk};
ghost use Rattle.mcs_ticks.specs.declared.row.Row.{Row};
ghost use Rattle.mcs_ticks.specs.Given.{GivenUntil};
ghost use Rattle.mcs_merge.specs.Merge.{merged_before, DoNotFall};
ghost use Rattle.mcs_merge.specs.Parts.{all_from};
ghost use Rattle.mcs_text.specs.Text.{schedule_text};
ghost use Rattle.mcs_text.specs.Parts.{with_bytes, HoldLines, TakesText};

use crate::laws::given_rows_are_text;
use crate::lines_part::LinesPart;
use crate::text::Text;
use mcs_merge::Merger;
use mcs_ticks::{Refused, Tick};

/// Appends to a text the lines of all waiting rows before a time: by time, then core, then index.
/// If memory runs out, the text has the lines of some first ones of these rows.
pub fn pour_lines<'a>(
    merger: &mut Merger<LinesPart<'a>>,
    until: Tick,
    text: &mut Text<'a>,
) -> Result<(), Refused>
    ensures poured { (lists : List (List Row)) → All DoNotFall lists → HoldLines text.old.system merger.old lists
        → OnOk result (text.new ≡ with_bytes text.old (schedule_text text.old.system (merged_before until lists))) }
    ensures left { (lists : List (List Row)) → All DoNotFall lists → HoldLines text.old.system merger.old lists
        → OnOk result (HoldLines text.new.system merger.new (all_from until lists)) }
    ensures refused { (lists : List (List Row)) → All DoNotFall lists → HoldLines text.old.system merger.old lists
        → OnErr result (GivenUntil TakesText text.old (merged_before until lists) text.new) }
{
    given_rows_are_text();
    merger.pour_before(until, text)
}
