//! Copies of the parts of a system.
ghost use Rattle.std.specs.Prelude.{◌≡◌, IfOk};

use mcs_script::Script;
use mcs_system::{ChainPart, ContextPart, Name, NotePart, SourcePart};
use mcs_ticks::{NoMemory, Sequence};
use std::alloc::Global;

/// A part of which there may be an equal one.
pub(crate) trait Again: Sized {
    /// Returns a copy. Fails only if memory runs out.
    fn again(&self, alloc: Global) -> Result<Self, NoMemory>
        ensures { IfOk result (λ copy. copy ≡ self.now) };
}

impl Again for Name {
    fn again(&self, alloc: Global) -> Result<Self, NoMemory> {
        Ok(Name::new(String::from_str(alloc, self.as_str())?))
    }
}

impl Again for Script {
    fn again(&self, alloc: Global) -> Result<Self, NoMemory> {
        let items = Vec::from_slice(alloc, self.as_slice())?;
        Ok(Script::new(items).unwrap())
    }
}

impl Again for ContextPart {
    fn again(&self, alloc: Global) -> Result<Self, NoMemory> {
        Ok(ContextPart {
            name: self.name.again(alloc)?,
            core: self.core,
            config: self.config,
            mode: self.mode,
        })
    }
}

impl Again for NotePart {
    fn again(&self, alloc: Global) -> Result<Self, NoMemory> {
        Ok(NotePart {
            name: self.name.again(alloc)?,
            core: self.core,
            word: self.word,
        })
    }
}

impl Again for SourcePart {
    fn again(&self, alloc: Global) -> Result<Self, NoMemory> {
        Ok(SourcePart {
            name: self.name.again(alloc)?,
            note: self.note,
            badge: self.badge,
        })
    }
}

impl Again for ChainPart {
    fn again(&self, alloc: Global) -> Result<Self, NoMemory> {
        Ok(ChainPart {
            name: self.name.again(alloc)?,
            source: self.source,
            thread: self.thread,
            badges: self.badges,
            deadline: self.deadline,
        })
    }
}

/// Returns copies of all things, in order. Fails only if memory runs out.
pub(crate) fn all_again<T: Again + Drop>(
    alloc: Global,
    things: &Sequence<T>,
) -> Result<Sequence<T>, NoMemory>
    ensures { IfOk result (λ copies. copies ≡ things.now) }
{
    let mut copies = Vec::with_capacity(alloc, things.len())?;
    for thing in things.as_slice() {
        copies.push(thing.again(alloc)?)?;
    }
    Ok(Sequence::new(copies))
}

/// Returns a copy of a list of plain values. Fails only if memory runs out.
pub(crate) fn copied<T: Copy>(alloc: Global, values: &Sequence<T>) -> Result<Sequence<T>, NoMemory>
    ensures { IfOk result (λ copies. copies ≡ values.now) }
{
    Ok(Sequence::new(Vec::from_slice(alloc, values.as_slice())?))
}
