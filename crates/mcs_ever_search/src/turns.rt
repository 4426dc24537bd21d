ghost use Rattle.std.specs.Prelude.{◌≡◌, ◌≤◌, ◌++◌, [], false, OnOk, OnErr};
ghost use Rattle.mcs_system.specs.WellFormed.{IsWellFormed};
ghost use Rattle.mcs_ever_search.specs.Together.{rows_at};
ghost use Rattle.mcs_ever_search.specs.stored.Lockstep.{IsBefore, HaveTurned};

use mcs_step::InStep;
use mcs_ticks::{NoMemory, Row};

/// Takes the turns of all cores at the moment and appends their rows. If memory runs out, what is
/// appended is unspecified.
fn take_turns(steps: &mut InStep, rows: &mut Vec<Row>) -> Result<(), NoMemory>
    requires well_formed { IsWellFormed steps.old.system }
    requires before { IsBefore steps.old }
    requires in_time { steps.old.moment ≤ steps.old.horizon }
    ensures turned { OnOk result (HaveTurned steps.old steps.new) }
    ensures rows { OnOk result (rows.new.items ≡ rows.old.items ++ rows_at steps.old.system steps.old.moment) }
{
    let moment = steps.moment();
    steps.go_past(moment, rows)
}

/// Takes the turns as `take_turns` does. `rows` is empty, and stays so if memory runs out.
fn put_turns(steps: &mut InStep, rows: &mut Vec<Row>) -> Result<(), NoMemory>
    requires well_formed { IsWellFormed steps.old.system }
    requires before { IsBefore steps.old }
    requires in_time { steps.old.moment ≤ steps.old.horizon }
    requires none { rows.old.items ≡ [] }
    ensures turned { OnOk result (HaveTurned steps.old steps.new) }
    ensures rows { OnOk result (rows.new.items ≡ rows_at steps.old.system steps.old.moment) }
    ensures refused { OnErr result (rows.new.items ≡ []) }
{
    match take_turns(steps, rows) {
        Ok(()) => Ok(()),
        Err(refused) => {
            rows.clear();
            Err(refused)
        }
    }
}

/// Takes the turns of all cores at the moment and appends their rows; if memory runs out, no row is
/// appended. If `rows` has some already, those of the turns are first put into `spare`.
pub(crate) fn append_turns(
    steps: &mut InStep,
    spare: &mut Vec<Row>,
    rows: &mut Vec<Row>,
) -> Result<(), NoMemory>
    requires well_formed { IsWellFormed steps.old.system }
    requires before { IsBefore steps.old }
    requires in_time { steps.old.moment ≤ steps.old.horizon }
    ensures turned { OnOk result (HaveTurned steps.old steps.new) }
    ensures rows { OnOk result (rows.new.items ≡ rows.old.items ++ rows_at steps.old.system steps.old.moment) }
    ensures refused { OnErr result (rows.new.items ≡ rows.old.items) }
{
    if rows.is_empty() {
        return put_turns(steps, rows);
    }
    spare.clear();
    take_turns(steps, spare)?;
    rows.append(spare)?;
    Ok(())
}
