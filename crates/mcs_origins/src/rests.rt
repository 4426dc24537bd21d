//! The rest of a list of stretches, whose latest origins were taken off.
ghost use Rattle.std.specs.Prelude.{◌≡◌, ◌<◌, ◌≤◌, ◌++◌, length, IfOk};
ghost use Rattle.mcs_origins.specs.stored.Stretches.{all_of, flat, left};

use crate::stretch::Stretch;
use mcs_ticks::{NoMemory, Tick};
use std::alloc::Global;

/// The rest of some stretches, without the latest origins: a number of stretches, and the top one,
/// which may be shorter than it was.
#[derive(Clone, Copy, Debug)]
pub(crate) struct Rest {
    pub(crate) many: usize,
    pub(crate) top: Stretch,
}

/// All of these stretches.
pub(crate) fn rest_of(stretches: &[Stretch]) -> Rest
    ensures left { left stretches.now result ≡ flat stretches.now }
    ensures within { result.many ≤ length stretches.now }
{
    if stretches.is_empty() {
        return Rest {
            many: 0,
            top: Stretch {
                last: Tick::ZERO,
                places: 0,
                step: 0,
                more: 0,
            },
        };
    }
    Rest {
        many: stretches.len(),
        top: stretches[stretches.len() - 1],
    }
}

/// The rest without the latest origin and this many more of its stretch.
pub(crate) fn below(stretches: &[Stretch], rest: &Rest, more: u32) -> Rest
    requires some { 0 < rest.now.many }
    requires within { rest.now.many ≤ length stretches.now }
    requires more { more ≤ rest.now.top.more }
    ensures left { left stretches.now rest.now ≡ all_of (record rest.now.top { more = more }) ++ left stretches.now result }
    ensures within { result.many ≤ length stretches.now }
{
    if more < rest.top.more {
        Rest {
            many: rest.many,
            top: rest.top.below(more),
        }
    } else if rest.many > 1 {
        Rest {
            many: rest.many - 1,
            top: stretches[rest.many - 2],
        }
    } else {
        Rest {
            many: 0,
            top: rest.top,
        }
    }
}

/// A copy of what is left of stretches.
pub(crate) fn kept(
    alloc: Global,
    stretches: &[Stretch],
    rest: &Rest,
) -> Result<Vec<Stretch>, NoMemory>
    requires { rest.now.many ≤ length stretches.now }
    ensures { IfOk result (λ all. flat all.items ≡ left stretches.now rest.now) }
{
    if rest.many == 0 {
        return Ok(Vec::new(alloc));
    }
    let mut all = Vec::from_slice(alloc, &stretches[..rest.many - 1])?;
    all.push(rest.top)?;
    Ok(all)
}
