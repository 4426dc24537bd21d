//! Reads the array `context`.
#![tactic(auto, using(crate::proofs::Steps::steps), unfolding(crate::specs::Walk::listed_context_keys, crate::specs::Walk::context, crate::specs::Walk::contexts))]

ghost use Rattle.std.specs.Prelude.{◌≡◌, ◌<◌, ◌≤◌, IfOk, length, map, []};
ghost use Rattle.toml.specs.View.{table_view};
ghost use Rattle.mcs_load.specs.Checks.{Gives};
ghost use Rattle.mcs_load.specs.Walk.{context, contexts, listed_context_keys, part_at};

use crate::at::At;
use crate::config::{Settings, read_settings};
use crate::fault::LoadFault;
use crate::names::Names;
use crate::reader::{RowReader, read_array};
use crate::spot::{Key, Section};
use crate::values::{new_name, only_keys, whole_number};
use mcs_system::{ContextPart, Name};
use mcs_ticks::CoreId;
use std::alloc::Global;
use toml::Table;

/// The keys of a context. The first needs version 2 or 3.
const CONTEXT_KEYS: [Key; 6] = [
    Key::Mode,
    Key::Name,
    Key::Core,
    Key::Budget,
    Key::Period,
    Key::ExtraRefills,
];

/// The keys that a context may have. Modes need version 2 or 3.
fn listed_keys(has_modes: bool) -> &'static [Key]
    ensures { result.now ≡ listed_context_keys has_modes }
{
    if has_modes {
        &CONTEXT_KEYS
    } else {
        &CONTEXT_KEYS[1..]
    }
}

/// Reads contexts and keeps their names.
#[derive(Drop)]
pub(crate) struct ContextReader<'a> {
    pub alloc: Global,
    /// Whether contexts may have modes: the file has version 2 or 3.
    pub has_modes: bool,
    /// Whether the file has version 3.
    pub is_new: bool,
    pub cores: u64,
    pub min_budget: u64,
    pub names: Names<'a>,
}

impl<'a> RowReader<'a> for ContextReader<'a> {
    type Part = ContextPart;

    ghost reads = { λ reader. context reader.has_modes reader.is_new reader.cores reader.min_budget };

    ghost keeps = { λ reader earlier.
        (1 ≤ reader.cores) × (reader.cores ≤ 64) × (reader.names ≡ map (λ c. c.name) earlier) };

    fn read(
        &mut self,
        row: &'a Table,
        at: At,
        _earlier: &[ContextPart],
    ) -> Result<ContextPart, LoadFault> {
        only_keys(row, at, listed_keys(self.has_modes))?;
        let name = new_name(row, at, &mut self.names)?;
        let core = whole_number(row, at, Key::Core, 0, self.cores - 1)?;
        let Settings { config, mode } = read_settings(row, at, self.min_budget, self.is_new)?;
        Ok(ContextPart {
            name: Name::new(String::from_str(self.alloc, name)?),
            core: CoreId(core as usize),
            config,
            mode,
        })
    }
}

/// Reads the contexts of a file in order. The reader keeps their names.
pub(crate) fn contexts<'a>(
    file: &'a Table,
    reader: &mut ContextReader<'a>,
) -> Result<Vec<ContextPart>, LoadFault>
    requires range { (1 ≤ reader.old.cores) × (reader.old.cores ≤ 64) }
    requires empty { reader.old.names ≡ [] }
    ensures gives { Gives (λ v. v.items) result
        (contexts reader.old.has_modes reader.old.is_new reader.old.cores reader.old.min_budget (table_view file.now)) }
    ensures kept { IfOk result (λ v. reader.new.names ≡ map (λ c. c.name) v.items) }
{
    read_array(reader.alloc, file, Section::Context, Key::Context, reader)
}

pub(crate) fn core_of_part(contexts: &[ContextPart], context: usize) -> CoreId
    requires { context < length contexts.now }
    ensures { result ≡ (part_at contexts.now context).core }
{
    contexts[context].core
}
