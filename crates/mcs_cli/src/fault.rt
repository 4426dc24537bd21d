//! Why a run failed, with its exit code.
ghost use Rattle.std.specs.Prelude.{◌≡◌, Some};
ghost use Rattle.mcs_cli.specs.Fault.{run_fault_text};
ghost use Rattle.mcs_cli.specs.Status.{status_of_run};
ghost use Rattle.mcs_cli.specs.declared.fault.RunFault.TheVariants.{Sim};
ghost use Rattle.mcs_team.specs.declared.run.SimFault.TheVariants as memory;

use mcs_load::{FaultKind, LoadFault};
use mcs_team::SimFault;
use mcs_ticks::NoMemory;
use std::alloc::{AllocError, AllocFailed};
use std::fmt;
use thiserror::Error;

/// Why a run failed. Its text is the line that the program writes to standard error.
#[derive(Clone, Copy, Debug, PartialEq, Eq, Error)]
pub enum RunFault {
    /// The source failed, or gave more than 2^26 bytes.
    Read,
    /// The text is not a system, or memory ran out while it was read or loaded.
    Load(LoadFault),
    /// Memory ran out during the run.
    Sim(SimFault),
    /// The target failed, or took no bytes.
    Write,
}

impl fmt::Display for RunFault {
    ghost output = { λ fault. Some (run_fault_text fault) };

    fn fmt<W: fmt::Write>(&self, f: &mut fmt::Formatter<W>) -> fmt::Result {
        match self {
            RunFault::Read => f.write_str("mcsim: read failed"),
            RunFault::Load(fault) => write!(f, "mcsim: {fault}"),
            RunFault::Sim(SimFault::NoMemory) => f.write_str("mcsim: no memory"),
            RunFault::Write => f.write_str("mcsim: write failed"),
        }
    }
}

impl RunFault {
    /// The exit code: 1 for a wrong file, 3 if a source or a target failed, 4 if memory ran out.
    pub fn status(&self) -> u8
        ensures { result ≡ status_of_run self.now }
    {
        match self {
            RunFault::Load(fault) if fault.kind != FaultKind::NoMemory => 1,
            RunFault::Read | RunFault::Write => 3,
            RunFault::Load(_) | RunFault::Sim(SimFault::NoMemory) => 4,
        }
    }
}

impl From<NoMemory> for RunFault {
    ghost from_gives = { λ _ fault. fault ≡ Sim memory.NoMemory };

    fn from(_refusal: NoMemory) -> Self {
        RunFault::Sim(SimFault::NoMemory)
    }
}

impl From<AllocError> for RunFault {
    ghost from_gives = { λ _ fault. fault ≡ Sim memory.NoMemory };

    fn from(_refusal: AllocError) -> Self {
        RunFault::Sim(SimFault::NoMemory)
    }
}

impl<T: Drop> From<AllocFailed<T>> for RunFault {
    ghost from_gives = { λ _ fault. fault ≡ Sim memory.NoMemory };

    fn from(_refusal: AllocFailed<T>) -> Self {
        RunFault::Sim(SimFault::NoMemory)
    }
}
