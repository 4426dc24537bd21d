ghost use Rattle.std.specs.Prelude.{◌≡◌, ℕ, ◌++◌, List, [], ◌∷◌, length, IfOk};
ghost use Rattle.std.specs.List.{filter_map};
ghost use Rattle.mcs_system.specs.declared.part.ThreadPart.{ThreadPart as TheThread};
ghost use Rattle.mcs_hints.specs.Numbers.{numbers};
ghost use Rattle.mcs_hints.specs.Contexts.{unbound};
ghost use Rattle.mcs_hints.specs.stored.Marks.{unbound_by, bounds_of};

use crate::Hint;
use crate::keep::keep;
use mcs_system::{SystemParts, ThreadPart};
use mcs_ticks::{ContextId, NoMemory};
use std::alloc::Global;

fn bind_thread(bounds: &mut [bool], context: ContextId)
    ensures { (contexts : ℕ) (threads : List TheThread) (thread : TheThread) → bounds.old ≡ bounds_of contexts threads → thread.context ≡ context →
        bounds.new ≡ bounds_of contexts (threads ++ thread ∷ []) }
{
    if context.0 < bounds.len() {
        bounds[context.0] = true;
    }
}

fn bind_threads(bounds: &mut [bool], threads: &[ThreadPart])
    ensures { (contexts : ℕ) → bounds.old ≡ bounds_of contexts [] → bounds.new ≡ bounds_of contexts threads.now }
{
    for thread in threads {
        bind_thread(bounds, thread.context);
    }
}

/// Returns for each context whether a thread is bound to it, in one pass over the threads.
pub(crate) fn bind_contexts(alloc: Global, parts: &SystemParts) -> Result<Vec<bool>, NoMemory>
    ensures { IfOk result (λ bounds. bounds.items ≡ bounds_of (length parts.now.contexts) parts.now.threads) }
{
    let mut bounds = vec![in alloc; false; parts.contexts.len()]?;
    bind_threads(bounds.as_mut_slice(), parts.threads.as_slice());
    Ok(bounds)
}

fn unbound(context: ContextId, bound: bool) -> Option<Hint>
    ensures { result ≡ unbound_by context bound }
{
    if bound {
        None
    } else {
        Some(Hint::Unbound { context })
    }
}

pub(crate) fn keep_unbound(hints: &mut Vec<Hint>, bounds: &[bool]) -> Result<(), NoMemory>
    ensures { (contexts : ℕ) (threads : List TheThread) → bounds.now ≡ bounds_of contexts threads →
        IfOk result (λ _. hints.new.items ≡ hints.old.items ++ filter_map (unbound threads) (numbers contexts)) }
{
    for (context, bound) in bounds.iter().enumerate() {
        keep(hints, unbound(ContextId(context), *bound))?;
    }
    Ok(())
}
