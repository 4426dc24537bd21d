use mcs_ticks::{CoreId, NoMemory};
use thiserror::Error;

/// Why a core does not take its turn, in the order of the checks.
#[derive(Clone, Copy, Debug, PartialEq, Eq, Error)]
pub enum StepFault {
    /// The core has taken its turn at the horizon.
    #[error("the core is past the horizon")]
    Ended,
    /// A signal that this other core still makes could reach the core at its clock. It is the first
    /// such core.
    #[error("core {} is behind", .0.0)]
    NotSafe(CoreId),
    /// Memory ran out, now or at an earlier step.
    #[error("no memory")]
    NoMemory,
}

impl From<NoMemory> for StepFault {
    ghost use Rattle.std.specs.Prelude.{◌≡◌};
    ghost use Rattle.mcs_window.specs.declared.fault.StepFault.TheVariants as fault;

    ghost from_gives = { λ _ given. given ≡ fault.NoMemory };

    fn from(_refusal: NoMemory) -> Self {
        StepFault::NoMemory
    }
}

/// Why a stretch is not taken back, in the order of the checks.
#[derive(Clone, Copy, Debug, PartialEq, Eq, Error)]
pub enum SettleFault {
    /// It belongs to another system.
    #[error("another system")]
    Foreign,
    /// Its core is not lent.
    #[error("the core is not lent")]
    NotLent,
    /// Its core is lent for another stretch, or by other clocks.
    #[error("the core is lent for another stretch")]
    OtherLoan,
    /// Memory ran out.
    #[error("no memory")]
    NoMemory,
}
