ghost use Rattle.mcs_system.specs.System.{System};
ghost use Rattle.mcs_system.specs.WellFormed.{IsWellFormed};
ghost use Rattle.mcs_ever_again.specs.Schedule.{RowsTellTurns};

use mcs_laws::rows_are_of_turns;

/// A law of the clock: the rows that a schedule adds between two moments are those of the turns of
/// the moments between, core by core. Marks of these rows are therefore those that
/// `Shifts::between` asks for.
pub fn rows_tell_turns()
    ensures { (system : System) → IsWellFormed system → RowsTellTurns system }
{
    rows_are_of_turns();
}
