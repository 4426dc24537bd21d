//! The set of cores of a chain: one that recurs, with the thread and the source of the chain.
ghost use Rattle.std.specs.Prelude.{◌≡◌, ◌≤◌, ◌<◌, ℕ, true, max, length, IsTrue, IfSome};
ghost use Rattle.mcs_system.specs.System.{core_of, delay_between, note_part, source_part, thread_part};
ghost use Rattle.mcs_ever.specs.Closed.{has};
ghost use Rattle.mcs_ever_chain.specs.Sets.{PeriodIsSo, SetsRecur};
ghost use Rattle.mcs_ever_chain.specs.stored.Looks.{IsHome};

use mcs_ever::CoreSet;
use mcs_ever_again::is_own;
use mcs_ever_told::{Period, Told};
use mcs_system::{ChainPart, SystemParts};

/// A set of cores that recurs, with its period.
#[derive(Clone, Copy)]
pub(crate) struct Home {
    pub(crate) set: CoreSet,
    pub(crate) period: Period,
    /// The set recurs from then on, and no signal is under way for longer.
    pub(crate) floor: u64,
}

impl Home {
    /// The first moment at which a period begins.
    pub(crate) fn first_mark(&self) -> u64 {
        self.period.from.get()
    }
}

fn greater(a: u64, b: u64) -> u64
    ensures { result ≡ max a b }
{
    if a < b { b } else { a }
}

/// The maximum delay of a signal from one core to another.
fn greatest_delay(parts: &SystemParts) -> u64
    ensures { (maker home : ℕ) → delay_between parts.now maker home ≤ result }
{
    let mut delay = parts.delay;
    for link in parts.links.as_slice() {
        delay = greater(delay, link.delay);
    }
    delay
}

/// Whether the chain begins and ends on the set.
fn has_both(parts: &SystemParts, chain: &ChainPart, set: &CoreSet) -> bool
    requires thread { chain.now.thread < length parts.now.threads }
    requires source { chain.now.source < length parts.now.sources }
    ensures { IsTrue result → (has set.now (core_of parts.now (thread_part parts.now chain.now.thread)) ≡ true)
        × (has set.now (note_part parts.now (source_part parts.now chain.now.source).note).core ≡ true) }
{
    let answerer = parts.core_of_thread(parts.thread(chain.thread));
    let source = parts.core_of_note(parts.source(chain.source).note);
    is_own(set, answerer) && is_own(set, source)
}

/// Whether a period is less than the one found so far: by its beginning, and then by its length.
fn is_less(period: &Period, best: &Option<Home>) -> bool {
    match best {
        Some(home) => {
            period.from < home.period.from
                || period.from == home.period.from && period.ticks < home.period.ticks
        }
        None => true,
    }
}

/// The best set so far, and this one if it has the chain and is better.
fn better(
    parts: &SystemParts,
    chain: &ChainPart,
    delay: u64,
    one: &Told,
    best: Option<Home>,
) -> Option<Home>
    requires thread { chain.now.thread < length parts.now.threads }
    requires source { chain.now.source < length parts.now.sources }
    requires delays { (maker home : ℕ) → delay_between parts.now maker home ≤ delay }
    requires told { PeriodIsSo parts.now one.now.set one.now.period }
    requires best { IfSome best (IsHome parts.now chain.now) }
    ensures { IfSome result (IsHome parts.now chain.now) }
{
    let Some(period) = one.period else {
        return best;
    };
    if !has_both(parts, chain, &one.set) || !is_less(&period, &best) {
        return best;
    }
    Some(Home {
        set: one.set,
        period,
        floor: greater(period.from.get(), delay),
    })
}

/// Returns the set on which the chain begins and ends, with the least period, if one recurs.
pub(crate) fn home_of(parts: &SystemParts, told: &[Told], chain: &ChainPart) -> Option<Home>
    requires thread { chain.now.thread < length parts.now.threads }
    requires source { chain.now.source < length parts.now.sources }
    requires told { SetsRecur parts.now told.now }
    ensures { IfSome result (IsHome parts.now chain.now) }
{
    let delay = greatest_delay(parts);
    let mut best = None;
    for one in told {
        best = better(parts, chain, delay, one, best);
    }
    best
}
