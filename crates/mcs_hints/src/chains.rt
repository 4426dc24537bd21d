//! Chains that no signal can complete.
ghost use Rattle.std.specs.Prelude.{◌≡◌, ◌<◌, ◌≤◌, ◌++◌, fold, length, IfOk};
ghost use Rattle.std.specs.List.{filter_map};
ghost use Rattle.mcs_system.specs.System.{source_part};
ghost use Rattle.mcs_hints.specs.Numbers.{numbers};
ghost use Rattle.mcs_hints.specs.Carried.{with_script};
ghost use Rattle.mcs_hints.specs.Chains.{can_answer, carried_on, first_words, unreached, unreached_by, words_of};

use crate::Hint;
use crate::carried::{Carried, carry_on, post};
use crate::keep::keep;
use mcs_chain::ChainId;
use mcs_system::{ChainPart, SourcePart, System, SystemParts, ThreadPart};
use mcs_ticks::NoMemory;
use std::alloc::Global;

/// The words of an interrupt of the source alone: the bits of its badge.
fn first_words(
    alloc: Global,
    parts: &SystemParts,
    source: &SourcePart,
) -> Result<Vec<u32>, NoMemory>
    ensures { IfOk result (λ words. words.items ≡ first_words parts.now source.now) }
{
    let mut words = vec![in alloc; 0; parts.notes.len()]?;
    post(words.as_mut_slice(), source.note, source.badge);
    Ok(words)
}

/// Goes through all scripts.
fn carry_all_on(words: &mut [u32], threads: &[ThreadPart])
    ensures { words.new ≡ fold with_script words.old threads.now }
{
    for thread in threads {
        carry_on(words, thread);
    }
}

/// Returns the words after one pass through all scripts.
fn after_pass(parts: &SystemParts, words: &Vec<u32>) -> Result<Vec<u32>, NoMemory>
    ensures { IfOk result (λ after. after.items ≡ carried_on parts.now words.now.items) }
{
    let mut after = words.clone()?;
    carry_all_on(after.as_mut_slice(), parts.threads.as_slice());
    Ok(after)
}

/// Returns for each notification the bits at which its word may ever have an origin. It passes
/// through all scripts until that changes nothing.
fn words_of(alloc: Global, parts: &SystemParts, source: &SourcePart) -> Result<Vec<u32>, NoMemory>
    requires { length parts.now.notes ≤ 4096 }
    ensures { IfOk result (λ words. words.items ≡ words_of parts.now source.now) }
{
    let mut words = first_words(alloc, parts, source)?;
    for _pass in 0..32 * parts.notes.len() {
        let after = after_pass(parts, &words)?;
        if after.as_slice() == words.as_slice() {
            return Ok(words);
        }
        words = after;
    }
    Ok(words)
}

/// Whether a job of the chain's thread may end with an origin that it answers.
fn can_answer(alloc: Global, parts: &SystemParts, chain: &ChainPart) -> Result<bool, NoMemory>
    requires few { length parts.now.notes ≤ 4096 }
    requires source { chain.now.source < length parts.now.sources }
    requires thread { chain.now.thread < length parts.now.threads }
    ensures { IfOk result (λ can. can ≡ can_answer parts.now chain.now) }
{
    let words = words_of(alloc, parts, parts.source(chain.source))?;
    let carried = Carried::last(words.as_slice(), parts.thread(chain.thread));
    Ok(carried.is_in_reach(chain.badges))
}

fn unreached(
    alloc: Global,
    parts: &SystemParts,
    chain: ChainId,
    part: &ChainPart,
) -> Result<Option<Hint>, NoMemory>
    requires few { length parts.now.notes ≤ 4096 }
    requires source { part.now.source < length parts.now.sources }
    requires thread { part.now.thread < length parts.now.threads }
    ensures { IfOk result (λ hint. hint ≡ unreached_by parts.now chain part.now) }
{
    if can_answer(alloc, parts, part)? {
        return Ok(None);
    }
    Ok(Some(Hint::Unreached {
        chain,
        source: part.source,
        thread: part.thread,
    }))
}

pub(crate) fn keep_unreached(
    alloc: Global,
    hints: &mut Vec<Hint>,
    system: &System,
) -> Result<(), NoMemory>
    ensures { IfOk result (λ _. hints.new.items ≡ hints.old.items ++ filter_map (unreached system.now) (numbers (length system.now.chains))) }
{
    let parts = system.parts();
    for (chain, part) in parts.chains.as_slice().iter().enumerate() {
        let hint = unreached(alloc, parts, ChainId(chain), part)?;
        keep(hints, hint)?;
    }
    Ok(())
}
