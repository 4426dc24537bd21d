//! Reads the array `chain`.
#![tactic(auto, using(crate::proofs::Steps::steps), unfolding(crate::specs::Walk::waits, crate::specs::Walk::waits_first, crate::specs::Walk::chain, crate::specs::Walk::chains))]

ghost use Rattle.std.specs.Prelude.{◌≡◌, ◌<◌, IfOk, length, map};
ghost use Rattle.toml.specs.View.{table_view};
ghost use Rattle.mcs_load.specs.Checks.{Gives, Tells};
ghost use Rattle.mcs_load.specs.Walk.{script_of, has_wait, waits, waits_first, chain, chains};

use crate::at::At;
use crate::fault::{FaultKind, LoadFault};
use crate::names::Names;
use crate::reader::{RowReader, read_array};
use crate::spot::{Key, Section};
use crate::values::{known_name, new_name, number_with_default, only_keys};
use mcs_script::Item;
use mcs_system::{ChainPart, Name, ThreadPart};
use mcs_ticks::{Limits, SourceId, ThreadId};
use std::alloc::Global;
use toml::Table;

/// The keys of a chain.
const CHAIN_KEYS: [Key; 5] = [
    Key::Name,
    Key::Source,
    Key::Thread,
    Key::Badges,
    Key::Deadline,
];

/// Whether one of the steps is a wait.
fn has_wait(steps: &[Item]) -> bool
    ensures { result ≡ has_wait steps.now }
{
    steps.iter().any(|step| matches!(*step, Item::Wait(_)))
}

/// Tests that a chain's thread waits. `NoWait` if it doesn't.
fn waits(at: At, steps: &[Item]) -> Result<(), LoadFault>
    ensures { Tells (λ x. x) result (waits at steps.now) }
{
    if has_wait(steps) {
        Ok(())
    } else {
        Err(at.fault(Key::Thread, FaultKind::NoWait))
    }
}

/// Tests that the thread of a chain with badges begins with a wait. `NoWait` if it doesn't.
fn waits_first(at: At, badges: u64, steps: &[Item]) -> Result<(), LoadFault>
    ensures { Tells (λ x. x) result (waits_first at badges steps.now) }
{
    let waits = matches!(steps.first(), Some(Item::Wait(_)));
    if badges == 0 || waits {
        Ok(())
    } else {
        Err(at.fault(Key::Badges, FaultKind::NoWait))
    }
}

fn script_of(threads: &[ThreadPart], thread: usize) -> &[Item]
    requires { thread < length threads.now }
    ensures { result.now ≡ script_of threads.now thread }
{
    threads[thread].script.as_slice()
}

/// Reads chains and keeps their names.
#[derive(Drop)]
struct ChainReader<'c, 'n, 'a> {
    alloc: Global,
    source_names: &'n Names<'a>,
    threads: &'c [ThreadPart],
    thread_names: &'n Names<'a>,
    names: Names<'a>,
}

impl<'c, 'n, 'a> RowReader<'a> for ChainReader<'c, 'n, 'a> {
    type Part = ChainPart;

    ghost reads = { λ reader. chain reader.source_names.now reader.threads.now };

    ghost keeps = { λ reader earlier.
        (reader.thread_names.now ≡ map (λ t. t.name) reader.threads.now) × (reader.names ≡ map (λ c. c.name) earlier) };

    fn read(
        &mut self,
        row: &'a Table,
        at: At,
        _earlier: &[ChainPart],
    ) -> Result<ChainPart, LoadFault> {
        only_keys(row, at, &CHAIN_KEYS)?;
        let name = new_name(row, at, &mut self.names)?;
        let source = known_name(row, at, Key::Source, self.source_names)?;
        let thread = known_name(row, at, Key::Thread, self.thread_names)?;
        let badges = number_with_default(row, at, Key::Badges, 0, Limits::BADGE, 0)?;
        let deadline = number_with_default(row, at, Key::Deadline, 0, Limits::DEADLINE, 0)?;
        let steps = script_of(self.threads, thread);
        waits(at, steps)?;
        waits_first(at, badges, steps)?;
        Ok(ChainPart {
            name: Name::new(String::from_str(self.alloc, name)?),
            source: SourceId(source),
            thread: ThreadId(thread),
            badges: badges as u32,
            deadline,
        })
    }
}

/// Reads the chains of a file in order.
pub(crate) fn chains<'a>(
    alloc: Global,
    file: &'a Table,
    source_names: &Names<'a>,
    threads: &[ThreadPart],
    thread_names: &Names<'a>,
) -> Result<Vec<ChainPart>, LoadFault>
    requires { thread_names.now ≡ map (λ t. t.name) threads.now }
    ensures { Gives (λ v. v.items) result (chains source_names.now threads.now (table_view file.now)) }
{
    let mut reader = ChainReader {
        alloc,
        source_names,
        threads,
        thread_names,
        names: Names::new(alloc),
    };
    read_array(alloc, file, Section::Chain, Key::Chain, &mut reader)
}
