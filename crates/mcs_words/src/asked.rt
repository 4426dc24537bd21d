//! The options of a command line, and why it is refused.
ghost use Rattle.std.specs.Prelude.{◌≡◌, ◌≤◌, ◌^◌};
ghost use Rattle.mcs_words.specs.Status.{status_of_words};
ghost use Rattle.mcs_words.specs.declared.asked.WordsFault.TheVariants.{NoMemory};

use mcs_ticks::Tick;
use std::alloc::AllocError;

/// The part of the results that is written.
#[derive(Clone, Copy, Debug, PartialEq, Eq)]
pub enum Show {
    /// The rows of the schedule.
    Schedule,
    /// The reports of threads and cores.
    Reports,
    /// The schedule, then the reports.
    Both,
}

/// The options of the command line.
#[derive(Debug, Drop)]
pub struct Options {
    /// The name of the system's file, or `None` for standard input.
    pub file: Option<String>,
    /// The last tick of the run, at most 2^40.
    pub horizon: Tick,
    /// Number of workers that may run cores at the same time, 1 to 64.
    pub workers: usize,
    pub show: Show,
    ghost horizon_in_range: { horizon ≤ 2 ^ 40 },
    ghost workers_in_range: { (1 ≤ workers) × (workers ≤ 64) },
}

/// Why the command line was not carried out.
#[derive(Debug, Drop)]
pub enum WordsFault {
    /// The command line was refused. The text explains why.
    Words(String),
    /// The help was requested. The text is the help.
    Help(String),
    /// Out of memory.
    NoMemory,
}

impl WordsFault {
    /// The exit code: 0 after help, 2 for a refused command line, 4 if memory ran out.
    pub fn status(&self) -> u8
        ensures { result ≡ status_of_words self.now }
    {
        match self {
            WordsFault::Words(_) => 2,
            WordsFault::Help(_) => 0,
            WordsFault::NoMemory => 4,
        }
    }
}

impl From<AllocError> for WordsFault {
    ghost from_gives = { λ _ fault. fault ≡ NoMemory };

    fn from(_refusal: AllocError) -> Self {
        WordsFault::NoMemory
    }
}
