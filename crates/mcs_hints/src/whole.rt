//! The hint of a file without a thread, or without a deadline.
ghost use Rattle.std.specs.Prelude.{◌≡◌};
ghost use Rattle.mcs_hints.specs.Whole.{has_chain_deadline, has_deadline, nothing_to_judge};

use crate::Hint;
use mcs_system::{ChainPart, SystemParts, ThreadPart};

fn has_deadline(threads: &[ThreadPart]) -> bool
    ensures { result ≡ has_deadline threads.now }
{
    threads.iter().any(|part| part.deadline != 0)
}

fn has_chain_deadline(chains: &[ChainPart]) -> bool
    ensures { result ≡ has_chain_deadline chains.now }
{
    chains.iter().any(|chain| chain.deadline != 0)
}

/// The hint of a file without a thread, or without a deadline.
pub(crate) fn nothing_to_judge(parts: &SystemParts) -> Option<Hint>
    ensures { result ≡ nothing_to_judge parts.now.threads parts.now.chains }
{
    if parts.threads.is_empty() {
        Some(Hint::NoThread)
    } else if has_deadline(parts.threads.as_slice())
        || has_chain_deadline(parts.chains.as_slice())
    {
        None
    } else {
        Some(Hint::NoDeadline)
    }
}
