//! Reads arrays of tables row by row.
#![tactic(auto, using(crate::proofs::Steps::steps), unfolding(crate::specs::Words::array_of))]

ghost use Rattle.std.specs.Prelude.{◌≡◌, ◌<◌, ◌≤◌, IfOk, List, suc, length, [], ◌∷◌, ◌++◌};
ghost use Rattle.toml.specs.Data.{Members};
ghost use Rattle.toml.specs.View.{table_view, view, items_view};
ghost use Rattle.mcs_load.specs.declared.at.At.{At};
ghost use Rattle.mcs_load.specs.Checks.{Checked, Gives};
ghost use Rattle.mcs_load.specs.Words.{row, each, array_of};

use crate::at::At;
use crate::fault::LoadFault;
use crate::spot::{Key, Section};
use crate::values::{row_table, rows};
use std::alloc::Global;
use toml::{Table, Value};

/// Reads the rows of one array of tables in order, and keeps what it needs of the earlier ones.
pub(crate) trait RowReader<'a> {
    type Part: Drop;

    ghost reads: { Self → At → List Self.Part → Members → Checked Self.Part };

    ghost keeps: { Self → List Self.Part → Type 0 };

    /// Reads a row, given the parts of the earlier ones.
    fn read(
        &mut self,
        row: &'a Table,
        at: At,
        earlier: &[Self::Part],
    ) -> Result<Self::Part, LoadFault>
        requires few { length earlier.now < 4096 }
        requires keeps { keeps self.old earlier.now }
        ensures gives { Gives (λ x. x) result (reads self.old at earlier.now (table_view row.now)) }
        ensures kept { IfOk result (λ x. keeps self.new (earlier.now ++ x ∷ [])) }
        ensures same { IfOk result (λ _. reads self.new ≡ reads self.old) };
}

/// Reads one value of the array as row `number`, from 1.
fn read_row<'a, R: RowReader<'a>>(
    value: &'a Value,
    section: Section,
    number: usize,
    earlier: &[R::Part],
    reader: &mut R,
) -> Result<R::Part, LoadFault>
    requires few { length earlier.now < 4096 }
    requires keeps { R.keeps reader.old earlier.now }
    requires number { number ≡ suc (length earlier.now) }
    ensures gives { Gives (λ x. x) result (row section (R.reads reader.old) earlier.now (view value.now)) }
    ensures kept { IfOk result (λ x. R.keeps reader.new (earlier.now ++ x ∷ [])) }
    ensures same { IfOk result (λ _. R.reads reader.new ≡ R.reads reader.old) }
{
    let at = At {
        section,
        row: number,
    };
    let row = row_table(value, at)?;
    reader.read(row, at, earlier)
}

/// Reads the rows of an array in order.
pub(crate) fn read_rows<'a, R: RowReader<'a>>(
    alloc: Global,
    rows: &'a [Value],
    section: Section,
    reader: &mut R,
) -> Result<Vec<R::Part>, LoadFault>
    requires few { length rows.now ≤ 4096 }
    requires keeps { R.keeps reader.old [] }
    ensures gives { Gives (λ v. v.items) result (each (row section (R.reads reader.old)) [] (items_view rows.now)) }
    ensures kept { IfOk result (λ v. R.keeps reader.new v.items) }
    ensures count { IfOk result (λ v. length v.items ≡ length rows.now) }
{
    let mut parts = Vec::with_capacity(alloc, rows.len())?;
    for (i, value) in rows.iter().enumerate() {
        let part = read_row(value, section, i + 1, parts.as_slice(), reader)?;
        parts.push_reserved(part);
    }
    Ok(parts)
}

/// Reads the rows of the array at a key of the file, in order.
pub(crate) fn read_array<'a, R: RowReader<'a>>(
    alloc: Global,
    file: &'a Table,
    section: Section,
    key: Key,
    reader: &mut R,
) -> Result<Vec<R::Part>, LoadFault>
    requires { R.keeps reader.old [] }
    ensures gives { Gives (λ v. v.items) result (array_of section key (R.reads reader.old) (table_view file.now)) }
    ensures kept { IfOk result (λ v. R.keeps reader.new v.items) }
    ensures few { IfOk result (λ v. length v.items ≤ 4096) }
{
    let rows = rows(file, section, key)?;
    read_rows(alloc, rows, section, reader)
}
