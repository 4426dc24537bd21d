//! How each thread stands, and how it stood since it has the origin.
ghost use Rattle.std.specs.Prelude.{◌≡◌, ◌+◌, ◌<◌, ◌≤◌, ◌^◌, ◌∷◌, [], ℕ, List, Option, None, Some, get_or, map, max, IfOk};
ghost use Rattle.mcs_ticks.specs.declared.row.Row.{Row as TheRow};
ghost use Rattle.mcs_verdict.specs.Account.{since_of, subject};
ghost use Rattle.mcs_verdict.specs.Findings.{UpTo};
ghost use Rattle.mcs_verdict.specs.Standing.{standing_after, telling, tells};
ghost use Rattle.mcs_verdict.specs.Stood.{all_ticks, no_ticks};
ghost use Rattle.mcs_way.specs.Stances.{AreNext, IsNext, passed, stance_of, stances_of, stood_since};
ghost use Rattle.mcs_way.specs.Trace.{Trace as TheTrace, since_of as since_at};

use mcs_system::SystemParts;
use mcs_ticks::{Limits, NoMemory, Row, ThreadId, Tick, What};
use mcs_verdict::{Standing, Stood, standing_after};
use std::alloc::Global;

/// How a thread stands, and how it stood since it has the origin.
#[derive(Clone, Copy, Debug, PartialEq, Eq)]
pub(crate) struct Stance {
    standing: Standing,
    /// When the thread began to stand so.
    since: Tick,
    /// How it stood up to then, since it has the origin.
    stood: Stood,
}

fn later(a: Tick, b: Tick) -> Tick
    ensures { result ≡ max a b }
{
    if a.get() < b.get() { b } else { a }
}

/// Whether the row decides how its thread stands from then on.
fn is_telling(what: &What) -> bool
    ensures { (thread : ℕ) → subject what.now ≡ Some thread → result ≡ tells thread what.now }
{
    matches!(
        *what,
        What::Release { .. } | What::Run { .. } | What::Stop { .. } | What::Wake { .. }
    )
}

impl Stance {
    /// The stance before the first row.
    fn new() -> Self
        ensures { result ≡ stance_of None [] }
    {
        Stance {
            standing: Standing::Pending,
            since: Tick::ZERO,
            stood: Stood::new(),
        }
    }

    /// How the thread stood up to `moment`, since it has the origin.
    fn passed(&self, moment: Tick, from: Option<Tick>) -> Stood
        ensures { all_ticks self.now.stood + moment < 2 ^ 64 → result ≡ passed moment from self.now }
    {
        let mut stood = self.stood;
        if let Some(from) = from {
            let ticks = moment.get().saturating_sub(later(self.since, from).get());
            stood.count(self.standing, ticks);
        }
        stood
    }

    /// How the thread stood up to `moment`, since it has the origin.
    fn stood_at(&self, moment: Tick, from: Option<Tick>) -> Stood
        ensures { (thread : ℕ) (past : List TheRow) → self.now ≡ stance_of from (telling thread past) → UpTo moment past →
            result ≡ stood_since thread past moment from }
    {
        // Keeps every count below 2^64.
        prove!(moment.get() <= Limits::TICK);
        self.passed(moment, from)
    }

    /// Takes a row that decides how the thread stands from then on.
    fn tell(&mut self, row: &Row, from: Option<Tick>)
        ensures { (rows : List TheRow) → self.old ≡ stance_of from rows → since_of rows ≤ row.now.moment →
            self.new ≡ stance_of from (row.now ∷ rows) }
    {
        // Keeps every count below 2^64.
        prove!(row.moment.get() <= Limits::TICK);
        self.stood = self.passed(row.moment, from);
        self.standing = standing_after(&row.what);
        self.since = row.moment;
    }

    /// The thread has the origin from now on, or does not have it any more.
    fn begin(&mut self)
        ensures { self.new ≡ record self.old { stood = no_ticks } }
    {
        self.stood = Stood::new();
    }

    /// Takes a row of this thread, which has the origin since then.
    fn tell_own(&mut self, row: &Row, from: &Option<Tick>)
        ensures { (thread : ℕ) (past : List TheRow) → self.old ≡ stance_of from.now (telling thread past) → UpTo row.now.moment past →
            subject row.now.what ≡ Some thread → self.new ≡ stance_of from.now (telling thread (row.now ∷ past)) }
    {
        if is_telling(&row.what) {
            self.tell(row, *from);
        }
    }

    /// The thread may take the origin at this moment, or lose it.
    fn turn(&mut self, moment: Tick, before: Option<Tick>, after: Option<Tick>)
        ensures { (rows : List TheRow) → self.old ≡ stance_of before rows → since_of rows ≤ moment → IsNext moment before after →
            self.new ≡ stance_of after rows }
    {
        match after {
            None => self.begin(),
            Some(_) => match before {
                None => self.begin(),
                Some(_) => {}
            },
        }
    }

    /// Takes a row of this thread, which has the origin since `before` before the row and since
    /// `after` after it.
    fn see(&mut self, row: &Row, before: Option<Tick>, after: Option<Tick>)
        ensures { (thread : ℕ) (past : List TheRow) → self.old ≡ stance_of before (telling thread past) → UpTo row.now.moment past →
            subject row.now.what ≡ Some thread → IsNext row.now.moment before after →
            self.new ≡ stance_of after (telling thread (row.now ∷ past)) }
    {
        self.tell_own(row, &before);
        self.turn(row.moment, before, after);
    }
}

fn each_new(alloc: Global, parts: &SystemParts) -> Result<Vec<Stance>, NoMemory>
    ensures { IfOk result (λ stances. stances.items ≡ map (λ _. stance_of None []) parts.now.threads) }
{
    let threads = parts.threads.as_slice();
    Ok(threads.iter().map(|_| Stance::new()).collect(alloc)?)
}

/// The stances before the first row.
pub(crate) fn all_new(alloc: Global, parts: &SystemParts) -> Result<Vec<Stance>, NoMemory>
    ensures { IfOk result (λ stances. stances.items ≡ stances_of 0 (map (λ _. None) parts.now.threads) []) }
{
    each_new(alloc, parts)
}

/// How a thread stood up to `moment`, since it has the origin.
pub(crate) fn stood_of(
    stances: &[Stance],
    thread: ThreadId,
    moment: Tick,
    from: Option<Tick>,
) -> Stood
    ensures { (spots : List (Option TheTrace)) (past : List TheRow) → stances.now ≡ stances_of 0 spots past → UpTo moment past →
        from ≡ since_at (get_or spots thread None) → result ≡ stood_since thread past moment from }
{
    if thread.0 < stances.len() {
        stances[thread.0].stood_at(moment, from)
    } else {
        Stood::new()
    }
}

/// The thread of a row that decides how it stands, or takes or loses the origin.
pub(crate) fn subject(what: &What) -> Option<ThreadId>
    ensures { result ≡ subject what.now }
{
    match *what {
        What::Release { thread }
        | What::Run { thread }
        | What::Stop { thread, .. }
        | What::Wake { thread, .. }
        | What::Got { thread, .. }
        | What::Round { thread, .. } => Some(thread),
        _ => None,
    }
}

/// Takes a row of this thread.
pub(crate) fn stand(
    stances: &mut [Stance],
    thread: ThreadId,
    row: &Row,
    before: Option<Tick>,
    after: Option<Tick>,
)
    ensures { (old new : List (Option TheTrace)) (past : List TheRow) → stances.old ≡ stances_of 0 old past → UpTo row.now.moment past →
        subject row.now.what ≡ Some thread → before ≡ since_at (get_or old thread None) → after ≡ since_at (get_or new thread None) →
        AreNext thread row.now.moment old new →
        stances.new ≡ stances_of 0 new (row.now ∷ past) }
{
    if thread.0 < stances.len() {
        stances[thread.0].see(row, before, after);
    }
}
