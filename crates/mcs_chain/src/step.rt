//! How far each thread is in its script, by the rows that its steps make.
ghost use Rattle.std.specs.Prelude.{◌≡◌, ◌+◌, ◌<◌, true, drop, length, slice_set, IfSome, IfOk};
ghost use Rattle.mcs_script.specs.Script.{is_wait};
ghost use Rattle.mcs_system.specs.System.{thread_part};
ghost use Rattle.mcs_chain.specs.Steps.{is_silent, handler_behind, passes, next_step, first_step, fresh, step_of, is_first_wait, goes_behind, is_given, goes_by, gone_of, all_go, all_fresh};
ghost use Rattle.mcs_chain.specs.stored.Still.{is_quiet};

use mcs_script::{Item, Script};
use mcs_system::{SystemParts, ThreadPart};
use mcs_ticks::{NoMemory, ThreadId, What};
use std::alloc::Global;

/// A step of a script, and the handler in which it lies.
#[derive(Clone, Copy, Debug, PartialEq, Eq)]
pub struct Step {
    /// The number of the item, from 0.
    pub item: usize,
    /// The badges of the handler; 0 if the step lies in none.
    pub handler: u32,
}

/// How far a thread is in its script, by the rows so far.
#[derive(Clone, Copy, Debug, PartialEq, Eq)]
pub struct Gone {
    /// The first item that the thread may still have to go through.
    pub next: Step,
    /// The word of the row that began the round; 0 before it, and if the script does not begin with
    /// a wait.
    pub word: u32,
}

/// Whether the item's row neither posts nor takes anything, if it has a row at all.
fn is_silent(item: &Item) -> bool
    ensures { result ≡ is_silent item.now }
{
    !matches!(
        *item,
        Item::Signal(..) | Item::Wait(_) | Item::Enter(..) | Item::Leave(..)
    )
}

/// The handler in which the items behind this one lie.
fn handler_behind(item: &Item, handler: u32) -> u32
    ensures { result ≡ handler_behind item.now handler }
{
    match *item {
        Item::On(badges) => badges,
        _ => handler,
    }
}

/// Whether a round that began with this word passes over a handler of these badges.
fn passes(word: u32, handler: u32) -> bool
    ensures { result ≡ passes word handler }
{
    handler != 0 && word & handler == 0
}

impl Gone {
    /// A thread at the beginning of a round.
    pub(crate) const FRESH: Gone = Gone {
        next: Step {
            item: 0,
            handler: 0,
        },
        word: 0,
    };
}

/// Returns the first item, from this step on, that the round goes through and that posts or takes.
fn next_step(items: &[Item], word: u32, from: Step) -> Option<Step>
    ensures step { result ≡ next_step word from (drop from.item items.now) }
    ensures within { IfSome result (λ step. step.item < length items.now) }
{
    let mut handler = from.handler;
    for i in from.item..items.len() {
        let item = &items[i];
        let silent = is_silent(item);
        if !passes(word, handler) && !silent {
            return Some(Step { item: i, handler });
        }
        handler = handler_behind(item, handler);
    }
    None
}

/// Returns the step of the thread's next row that posts or takes.
pub(crate) fn step_of(part: &ThreadPart, gone: Gone) -> Step
    ensures step { result ≡ step_of part.now gone }
    ensures few { result.item < 1024 }
{
    match next_step(part.script.as_slice(), gone.word, gone.next) {
        Some(step) => step,
        None => Step {
            item: 0,
            handler: 0,
        },
    }
}

/// Whether the step is the wait with which the script begins.
pub(crate) fn is_first_wait(part: &ThreadPart, step: Step) -> bool
    ensures { result ≡ is_first_wait part.now step }
{
    step.item == 0 && matches!(part.script.get(0), Some(Item::Wait(_)))
}

/// How far the thread has gone.
pub(crate) fn gone_of(all: &[Gone], thread: ThreadId) -> Gone
    ensures { result ≡ gone_of all.now thread }
{
    match all.get(thread.0) {
        Some(gone) => *gone,
        None => Gone::FRESH,
    }
}

/// Returns the step of the next row of the thread with this number; the first step if there is no
/// such thread.
pub(crate) fn step_at(parts: &SystemParts, all: &[Gone], thread: ThreadId) -> Step
    ensures step { result ≡ step_of (thread_part parts.now thread) (gone_of all.now thread) }
    ensures few { result.item < 1024 }
{
    if thread.0 < parts.threads.len() {
        step_of(parts.thread(thread), gone_of(all, thread))
    } else {
        Step {
            item: 0,
            handler: 0,
        }
    }
}

/// Whether the thread with this number is at the wait with which its script begins.
pub(crate) fn is_at_first_wait(parts: &SystemParts, thread: ThreadId, step: Step) -> bool
    ensures first { result ≡ is_first_wait (thread_part parts.now thread) step }
    ensures known { result ≡ true → thread < length parts.now.threads }
{
    thread.0 < parts.threads.len() && is_first_wait(parts.thread(thread), step)
}

/// Returns how far a thread is after this step, in a round that this word began.
fn behind(step: Step, word: u32) -> Gone
    requires { step.item < 1024 }
    ensures { result ≡ record { next = record { item = step.item + 1; handler = step.handler }; word = word } }
{
    Gone {
        next: Step {
            item: step.item + 1,
            handler: step.handler,
        },
        word,
    }
}

fn signals(parts: &SystemParts, all: &mut [Gone], thread: ThreadId)
    ensures { all.new ≡ slice_set all.old thread (goes_behind (step_of (thread_part parts.now thread) (gone_of all.old thread)) (gone_of all.old thread)) }
{
    if thread.0 < all.len() {
        let step = step_at(parts, all, thread);
        let gone = gone_of(all, thread);
        all[thread.0] = behind(step, gone.word);
    }
}

fn is_given(parts: &SystemParts, all: &mut [Gone], thread: ThreadId, word: u32)
    ensures { let part = thread_part parts.now thread in
        all.new ≡ slice_set all.old thread (is_given part (step_of part (gone_of all.old thread)) word (gone_of all.old thread)) }
{
    if thread.0 < all.len() {
        let step = step_at(parts, all, thread);
        let gone = gone_of(all, thread);
        let first = is_at_first_wait(parts, thread, step);
        all[thread.0] = behind(step, if first { word } else { gone.word });
    }
}

fn begins(all: &mut [Gone], thread: ThreadId)
    ensures { all.new ≡ slice_set all.old thread fresh }
{
    if thread.0 < all.len() {
        all[thread.0] = Gone::FRESH;
    }
}

/// Whether a row of this kind moves no origin and takes no thread to another step.
#[inline(always)]
pub(crate) fn is_quiet(what: &What) -> bool
    ensures { result ≡ is_quiet what.now }
{
    matches!(
        *what,
        What::Release { .. } | What::Run { .. } | What::Stop { .. } | What::Order { .. }
    )
}

/// A row more.
pub(crate) fn all_go(parts: &SystemParts, all: &mut [Gone], what: &What)
    ensures { all.new ≡ all_go parts.now what.now all.old }
{
    match *what {
        What::Signal { thread, .. } => signals(parts, all, thread),
        What::Wake { thread, word, .. } | What::Got { thread, word, .. } => {
            is_given(parts, all, thread, word)
        }
        What::Round { thread, .. } => begins(all, thread),
        _ => {}
    }
}

/// Before the first row.
pub(crate) fn all_fresh(alloc: Global, parts: &SystemParts) -> Result<Vec<Gone>, NoMemory>
    ensures { IfOk result (λ all. all.items ≡ all_fresh parts.now) }
{
    let all = parts
        .threads
        .as_slice()
        .iter()
        .map(|_| Gone::FRESH)
        .collect(alloc)?;
    Ok(all)
}
