//! The findings of a chain.
ghost use Rattle.std.specs.Prelude.{◌≡◌};
ghost use Rattle.mcs_verdict.specs.Misses.{is_above};
ghost use Rattle.mcs_chain.specs.Answers.{earliest, slow_of, unanswered_of};

use crate::Finding;
use mcs_ticks::Tick;

fn is_above(deadline: u64, ticks: u64) -> bool
    ensures { result ≡ is_above deadline ticks }
{
    deadline != 0 && deadline < ticks
}

/// The earliest of these origins.
fn earliest(origins: &[Tick]) -> Option<Tick>
    ensures { result ≡ earliest origins.now }
{
    let (first, others) = origins.split_first()?;
    let mut least = *first;
    for origin in others {
        if origin.get() < least.get() {
            least = *origin;
        }
    }
    Some(least)
}

/// The finding at a row that answers these origins, if the chain has this deadline.
pub(crate) fn slow_of(deadline: u64, moment: Tick, answered: &[Tick]) -> Option<Finding>
    ensures { result ≡ slow_of deadline moment answered.now }
{
    let origin = earliest(answered)?;
    let latency = moment.get().saturating_sub(origin.get());
    if is_above(deadline, latency) {
        Some(Finding::Slow {
            latency,
            deadline,
            origin,
        })
    } else {
        None
    }
}

/// The finding at the horizon if these origins have no answer and the chain has this deadline.
pub(crate) fn unanswered_of(deadline: u64, horizon: Tick, left: &[Tick]) -> Option<Finding>
    ensures { result ≡ unanswered_of deadline horizon left.now }
{
    let origin = earliest(left)?;
    if deadline != 0 && deadline <= horizon.get().saturating_sub(origin.get()) {
        Some(Finding::Unanswered { deadline, origin })
    } else {
        None
    }
}
