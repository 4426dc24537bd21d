ghost use Rattle.std.specs.Prelude.{◌≡◌};
ghost use Rattle.mcs_check_forever.specs.ForeverFault.{forever_fault_text, status_of};
ghost use Rattle.mcs_check_run.specs.declared.fault.CheckFault.TheVariants.{Run};
ghost use Rattle.mcs_check_forever.specs.declared.forever_fault.ForeverFault.TheVariants.{Check};

use mcs_check_run::CheckFault;
use mcs_cli::RunFault;
use std::fmt;

/// Why a check for all time failed. Its text is the line that the program writes to standard error.
#[derive(Debug, PartialEq, Eq, Drop)]
pub enum ForeverFault {
    /// The source failed, its text is no system, an allowed name is unknown, memory ran out, or the
    /// target failed.
    Check(CheckFault),
    /// An option does not go with it: `--show`, `--strict`, `--why` or CSV.
    Mixed,
}

impl fmt::Display for ForeverFault {
    ghost output = { forever_fault_text };

    fn fmt<W: fmt::Write>(&self, f: &mut fmt::Formatter<W>) -> fmt::Result {
        match self {
            ForeverFault::Check(fault) => write!(f, "{fault}"),
            ForeverFault::Mixed => f.write_str(
                "mcscheck: --forever: not with --show, --strict, --why or --format csv",
            ),
        }
    }
}

impl ForeverFault {
    /// Returns the program's exit code: 2 if the arguments are to blame, else that of the check's
    /// fault.
    pub fn status(&self) -> u8
        ensures { result ≡ status_of self.now }
    {
        match self {
            ForeverFault::Check(fault) => fault.status(),
            ForeverFault::Mixed => 2,
        }
    }
}

impl From<CheckFault> for ForeverFault {
    ghost from_gives = { λ fault result. result ≡ Check fault };

    fn from(fault: CheckFault) -> Self {
        ForeverFault::Check(fault)
    }
}

impl From<RunFault> for ForeverFault {
    ghost from_gives = { λ fault result. result ≡ Check (Run fault) };

    fn from(fault: RunFault) -> Self {
        ForeverFault::Check(CheckFault::Run(fault))
    }
}
