ghost use Rattle.std.specs.Prelude.{◌≡◌, [], ◌∷◌, ◌++◌, List, length, get_or, replicate, IfOk};
ghost use Rattle.mcs_ticks.specs.declared.row.What.{What as TheWhat};
ghost use Rattle.mcs_system.specs.System.{System as TheSystem};
ghost use Rattle.mcs_ever.specs.Marks.{no_mark, joined, mode_of, compared, marks_of};

use mcs_control::Mode;
use mcs_system::{System, SystemParts};
use mcs_ticks::{ContextId, NoMemory, ThreadId, What};
use std::alloc::Global;
use std::marker::Model;

/// Which of a thread's dates were compared with now.
#[derive(Clone, Copy, Debug, PartialEq, Eq)]
pub struct Mark {
    /// The dates of its context were.
    pub context: bool,
    /// The beginning of its round was.
    pub round: bool,
}

impl Mark {
    /// The mark before any comparison.
    fn none() -> Self
        ensures { result ≡ no_mark }
    {
        Mark {
            context: false,
            round: false,
        }
    }

    /// Both marks together.
    fn joined(self, other: Mark) -> Self
        ensures { result ≡ joined self other }
    {
        Mark {
            context: self.context || other.context,
            round: self.round || other.round,
        }
    }
}

/// The mode of the thread's context in the file.
fn mode_of(parts: &SystemParts, thread: ThreadId) -> Mode
    ensures { result ≡ mode_of parts.now thread }
{
    let context = match parts.threads.as_slice().get(thread.0) {
        Some(part) => part.context,
        None => ContextId(0),
    };
    match parts.contexts.as_slice().get(context.0) {
        Some(part) => part.mode,
        None => Mode::Sporadic,
    }
}

/// The thread whose dates a row shows to have been compared with now, and which of them.
fn compared(parts: &SystemParts, what: &What) -> Option<(ThreadId, Mark)>
    ensures { result ≡ compared parts.now what.now }
{
    let (thread, context, round) = match *what {
        What::Wake { thread, .. } => (thread, true, true),
        What::Run { thread } => (
            thread,
            matches!(mode_of(parts, thread), Mode::Bandwidth),
            false,
        ),
        What::Stop {
            thread,
            until: Some(_),
            ..
        } => (thread, true, false),
        What::Round { thread, .. } | What::Got { thread, .. } => (thread, false, true),
        _ => return None,
    };
    Some((thread, Mark { context, round }))
}

/// Which dates of each thread of a system were compared with now, by the rows seen. Contracts see
/// the list of marks, by the numbers of the threads. A new row takes constant time and no memory.
#[derive(Drop)]
pub struct Marks {
    marks: Vec<Mark>,
}

impl Model for Marks {
    ghost use Rattle.std.specs.Prelude.{List};
    ghost use Rattle.mcs_ever.specs.declared.marks.Mark.{Mark};

    ghost Value = { List Mark };

    ghost view = { λ a. a.marks.items };
}

impl Marks {
    /// Returns the marks before the first row. Fails only if memory runs out.
    pub fn new(alloc: Global, system: &System) -> Result<Self, NoMemory>
        ensures { IfOk result (λ marks. marks ≡ marks_of system.now []) }
    {
        let marks = vec![in alloc; Mark::none(); system.parts().threads.len()]?;
        Ok(Marks { marks })
    }

    /// Adds one more row of a run of the system.
    pub fn see(&mut self, system: &System, what: &What)
        ensures { (rows : List TheWhat) → self.old ≡ marks_of system.now rows →
            self.new ≡ marks_of system.now (rows ++ what.now ∷ []) }
    {
        if let Some((thread, mark)) = compared(system.parts(), what) {
            if thread.0 < self.marks.len() {
                let before = self.marks[thread.0];
                self.marks[thread.0] = before.joined(mark);
            }
        }
    }

    /// The mark of the thread; the empty mark if there is no such thread.
    pub fn of(&self, thread: ThreadId) -> Mark
        ensures { result ≡ get_or self.now thread no_mark }
    {
        if thread.0 < self.marks.len() {
            self.marks[thread.0]
        } else {
            Mark::none()
        }
    }

    /// Forgets all marks, as before the first row.
    pub fn clear(&mut self)
        ensures forgotten { self.new ≡ replicate (length self.old) no_mark }
        ensures anew { (system : TheSystem) (rows : List TheWhat) → self.old ≡ marks_of system rows → self.new ≡ marks_of system [] }
    {
        self.marks.as_mut_slice().fill(Mark::none());
    }
}
