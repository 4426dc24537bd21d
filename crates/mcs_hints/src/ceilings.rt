//! Servers that a thread calls at a priority that is not below theirs.
ghost use Rattle.std.specs.Prelude.{◌≡◌, ◌++◌, length, Some, IfOk};
ghost use Rattle.std.specs.List.{filter_map};
ghost use Rattle.mcs_script.specs.Script.{priority_after};
ghost use Rattle.mcs_hints.specs.Numbers.{numbers};
ghost use Rattle.mcs_hints.specs.Ceilings.{first_inverted, inverted, inverted_at};

use crate::Hint;
use crate::keep::keep;
use mcs_script::Item;
use mcs_system::System;
use mcs_ticks::{NoMemory, ThreadId};

/// Returns the priority after an item that the thread runs at priority `before`.
fn priority_after(item: Item, before: u8) -> u8
    ensures { result ≡ priority_after (Some item) before }
{
    match item {
        Item::Enter(_, priority) | Item::Leave(_, priority) => priority,
        _ => before,
    }
}

/// The hint of an item that the thread runs at priority `caller`.
fn inverted_at(thread: ThreadId, caller: u8, item: Item) -> Option<Hint>
    ensures { result ≡ inverted_at thread caller item }
{
    match item {
        Item::Enter(server, priority) if priority <= caller => Some(Hint::Inverted {
            thread,
            server,
            priority,
            caller,
        }),
        _ => None,
    }
}

/// The first such hint of these items, if the thread runs the first of them at this priority.
fn first_inverted(thread: ThreadId, priority: u8, items: &[Item]) -> Option<Hint>
    ensures { result ≡ first_inverted thread priority items.now }
{
    let mut caller = priority;
    for item in items {
        let hint = inverted_at(thread, caller, *item);
        if hint.is_some() {
            return hint;
        }
        caller = priority_after(*item, caller);
    }
    None
}

pub(crate) fn keep_inverted(hints: &mut Vec<Hint>, system: &System) -> Result<(), NoMemory>
    ensures { IfOk result (λ _. hints.new.items ≡ hints.old.items ++ filter_map (inverted system.now) (numbers (length system.now.threads))) }
{
    for (thread, part) in system.parts().threads.as_slice().iter().enumerate() {
        let hint = first_inverted(ThreadId(thread), part.priority, part.script.as_slice());
        keep(hints, hint)?;
    }
    Ok(())
}
