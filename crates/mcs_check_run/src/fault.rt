ghost use Rattle.std.specs.Prelude.{◌≡◌};
ghost use Rattle.mcs_check_run.specs.Fault.{check_fault_text, status_of};
ghost use Rattle.mcs_check_run.specs.declared.fault.CheckFault.TheVariants.{Run};
ghost use Rattle.mcs_cli.specs.declared.fault.RunFault.TheVariants.{Sim};
ghost use Rattle.mcs_team.specs.declared.run.SimFault.TheVariants as memory;

use mcs_cli::RunFault;
use mcs_team::SimFault;
use mcs_ticks::NoMemory;
use std::alloc::AllocError;
use std::fmt;

/// Why a check failed. Its text is the line that the program writes to standard error.
#[derive(Debug, PartialEq, Eq, Drop)]
pub enum CheckFault {
    /// The source failed, its text is no system, memory ran out, or the target failed.
    Run(RunFault),
    /// A name at which lost signals are allowed is that of no notification.
    Unknown {
        /// The name that was given.
        name: String,
        /// The nearest name of a notification, the first of equally near ones. `None` if there is
        /// no notification, or if `name` has more than 64 bytes.
        nearest: Option<String>,
    },
    /// Findings and figures are asked for together as CSV, which has rows of one kind.
    Mixed,
}

impl fmt::Display for CheckFault {
    ghost output = { check_fault_text };

    fn fmt<W: fmt::Write>(&self, f: &mut fmt::Formatter<W>) -> fmt::Result {
        match self {
            CheckFault::Run(RunFault::Read) => f.write_str("mcscheck: read failed"),
            CheckFault::Run(RunFault::Load(fault)) => write!(f, "mcscheck: {fault}"),
            CheckFault::Run(RunFault::Sim(SimFault::NoMemory)) => f.write_str(
                "mcscheck: no memory",
            ),
            CheckFault::Run(RunFault::Write) => f.write_str("mcscheck: write failed"),
            CheckFault::Unknown {
                name,
                nearest: Some(near),
            } => write!(
                f,
                "mcscheck: --allow-lost: no notification is called {name:?}: the nearest is {near}"
            ),
            CheckFault::Unknown {
                name,
                nearest: None,
            } => write!(
                f,
                "mcscheck: --allow-lost: no notification is called {name:?}: there is none"
            ),
            CheckFault::Mixed => f.write_str(
                "mcscheck: --format csv: rows are of one kind: --show findings, jobs or table",
            ),
        }
    }
}

impl CheckFault {
    /// Returns the program's exit code: 2 for `Unknown` and `Mixed`, else that of the run's fault.
    pub fn status(&self) -> u8
        ensures { result ≡ status_of self.now }
    {
        match self {
            CheckFault::Run(fault) => fault.status(),
            CheckFault::Unknown { .. } | CheckFault::Mixed => 2,
        }
    }
}

impl From<RunFault> for CheckFault {
    ghost from_gives = { λ fault result. result ≡ Run fault };

    fn from(fault: RunFault) -> Self {
        CheckFault::Run(fault)
    }
}

impl From<NoMemory> for CheckFault {
    ghost from_gives = { λ _ fault. fault ≡ Run (Sim memory.NoMemory) };

    fn from(refusal: NoMemory) -> Self {
        CheckFault::Run(RunFault::from(refusal))
    }
}

impl From<AllocError> for CheckFault {
    ghost from_gives = { λ _ fault. fault ≡ Run (Sim memory.NoMemory) };

    fn from(refusal: AllocError) -> Self {
        CheckFault::Run(RunFault::from(refusal))
    }
}
