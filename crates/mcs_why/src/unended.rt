//! A round that has not ended at the horizon.
ghost use Rattle.std.specs.Prelude.{◌≡◌, ℕ, List, Some, None};
ghost use Rattle.mcs_ticks.specs.declared.row.Row.{Row as TheRow};
ghost use Rattle.mcs_system.specs.System.{System as TheSystem};
ghost use Rattle.mcs_verdict.specs.Rounds.{activated_of};
ghost use Rattle.mcs_verdict.specs.Misses.{word_set};
ghost use Rattle.mcs_why.specs.Spans.{to_begin, waits_since, comes_since, open_span, open_by, open_if, sought};
ghost use Rattle.mcs_why.specs.Search.{trail_of};

use crate::trail::{Trail, from_of};
use crate::{Sought, Span};
use mcs_ticks::Tick;
use mcs_verdict::Standing;

fn to_begin(standing: Standing, set: Option<Tick>) -> Option<Tick>
    ensures { result ≡ to_begin standing set }
{
    match standing {
        Standing::Done => None,
        _ => set,
    }
}

fn waits_since(standing: Standing, stopped: Option<Tick>) -> Option<Tick>
    ensures { result ≡ waits_since standing stopped }
{
    match standing {
        Standing::Blocked => stopped,
        _ => None,
    }
}

fn comes_since(standing: Standing, free: Tick) -> Option<Tick>
    ensures { result ≡ comes_since standing free }
{
    if standing == Standing::Done {
        None
    } else {
        Some(free)
    }
}

fn open_if(number: u64, before: u64, unended: Option<Span>) -> Sought
    ensures { result ≡ open_if number before unended }
{
    match unended {
        Some(span) if span.number == number => Sought::There(span),
        Some(span) => Sought::Missing(span.number),
        None => Sought::Missing(before),
    }
}

impl Trail {
    /// The span of a round that has not ended at the horizon.
    fn open_span(
        &self,
        horizon: Tick,
        from: Tick,
        activated: Option<Tick>,
        begun: Option<Tick>,
    ) -> Span
        ensures { result ≡ open_span self.now.thread self.now.core self.now.ended horizon from activated begun }
    {
        Span {
            thread: self.thread,
            number: self.ended.saturating_add(1),
            core: self.core,
            from,
            to: horizon,
            ended: false,
            activated,
            begun,
        }
    }

    /// The round that is under way since `begun`.
    fn under_way(
        &self,
        horizon: Tick,
        begun: Tick,
        activated: Option<Tick>,
        set: Option<Tick>,
    ) -> Option<Span>
        ensures { result ≡ open_by self.now.thread self.now.core self.now.ended horizon (Some begun) activated self.now.waited
            (to_begin self.now.standing set) (waits_since self.now.standing self.now.stopped) (comes_since self.now.standing self.now.free) }
    {
        if horizon.get() < begun.get() {
            return None;
        }
        let span = match activated {
            Some(activated) => {
                let from = from_of(activated, self.waited);
                self.open_span(horizon, from, Some(activated), Some(begun))
            }
            None => self.open_span(horizon, begun, None, Some(begun)),
        };
        Some(span)
    }

    /// The round that is yet to begin.
    fn to_come(&self, horizon: Tick, activated: Option<Tick>, set: Option<Tick>) -> Option<Span>
        ensures { result ≡ open_by self.now.thread self.now.core self.now.ended horizon None activated self.now.waited
            (to_begin self.now.standing set) (waits_since self.now.standing self.now.stopped) (comes_since self.now.standing self.now.free) }
    {
        if let Some(set) = to_begin(self.standing, set) {
            return Some(self.open_span(horizon, set, Some(set), None));
        }
        if let Some(since) = waits_since(self.standing, self.stopped) {
            return Some(self.open_span(horizon, since, None, None));
        }
        match comes_since(self.standing, self.free) {
            Some(comes) if comes.get() <= horizon.get() => {
                Some(self.open_span(horizon, comes, None, None))
            }
            _ => None,
        }
    }

    /// The round that has not ended at the horizon, if there is one.
    fn open(&self, horizon: Tick, activated: Option<Tick>, set: Option<Tick>) -> Option<Span>
        ensures { result ≡ open_by self.now.thread self.now.core self.now.ended horizon self.now.begun activated self.now.waited
            (to_begin self.now.standing set) (waits_since self.now.standing self.now.stopped) (comes_since self.now.standing self.now.free) }
    {
        match self.begun {
            Some(begun) => self.under_way(horizon, begun, activated, set),
            None => self.to_come(horizon, activated, set),
        }
    }

    /// Returns the span of the round that is sought. `activated` is when the round under way was
    /// activated; `set` is when the word that is held for its thread was set.
    pub(crate) fn sought(&self, horizon: Tick, activated: Option<Tick>, set: Option<Tick>) -> Sought
        ensures { (system : TheSystem) (thread number : ℕ) (past : List TheRow) → self.now ≡ trail_of system thread number past →
            activated ≡ activated_of system thread past horizon → set ≡ word_set system past thread →
            result ≡ sought system horizon past thread number }
    {
        match self.found {
            Some(span) => Sought::There(span),
            None => open_if(self.number, self.ended, self.open(horizon, activated, set)),
        }
    }
}
