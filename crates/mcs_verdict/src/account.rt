//! The account of a thread: a few numbers, updated row by row.
ghost use Rattle.std.specs.Prelude.{◌≡◌, ℕ, ◌+◌, ◌≤◌, ◌<◌, ◌^◌, ◌&&◌, [], Some, None, true, max};
ghost use Rattle.std.specs.Option.{is_none};
ghost use Rattle.mcs_verdict.specs.Account.{all_kept, account_of, counting, counting_at, stood_from, stood_since, total_at, active_since, or_first, ends, preempted, activated_since};
ghost use Rattle.mcs_verdict.specs.declared.tracked.Counts.TheVariants.{Nothing};
ghost use Rattle.mcs_verdict.specs.Counts.{begins_at, counts_after, counted_on, stands_from, woken_at, Fits};
ghost use Rattle.mcs_verdict.specs.Stood.{no_ticks};
ghost use Rattle.mcs_verdict.specs.Activation.{is_active};
ghost use Rattle.mcs_verdict.specs.Rounds.{begins_round};
ghost use Rattle.mcs_verdict.specs.Takers.{waits_for};

use crate::heard::{bits_of, calls, first_wait};
use crate::tracked::Counts;
use crate::{Standing, Stood};
use mcs_system::ThreadPart;
use mcs_ticks::{NoteId, Tick};

/// The account of a thread. Times and counts are in ticks.
#[derive(Clone, Copy, Debug, PartialEq, Eq)]
pub(crate) struct Account {
    /// The thread's deadline; 0 if it has none.
    pub deadline: u64,
    /// The notification of the wait with which its script begins, if it begins with one.
    pub waits: Option<NoteId>,
    /// A word of that wait begins a round if it has one of these bits; `None` if every word does.
    pub bits: Option<u32>,
    pub standing: Standing,
    /// When the thread began to stand as `standing` says.
    pub since: Tick,
    /// When the round before ended, or the thread started.
    pub free: Tick,
    /// The number of the round that ended last; 0 if none did.
    pub rounds: u64,
    /// When the round under way began; `None` between rounds.
    pub begun: Option<Tick>,
    /// When the latest round that a word began was activated.
    pub called: Option<Tick>,
    /// When the thread was first ready or running in this round, up to `since`.
    pub active: Option<Tick>,
    /// Preemptions in this round; 0 between rounds.
    pub preemptions: u64,
    /// How the thread stood up to `since` in the round under way, counted from `free` or from the
    /// round's activation, whichever is later. Between rounds, from when the held word was set.
    pub stood: Stood,
    /// How the thread stood from time 0 up to `since`.
    pub total: Stood,
}

#[inline(always)]
pub(crate) fn is_active(standing: Standing) -> bool
    ensures { result ≡ is_active standing }
{
    matches!(standing, Standing::Ready | Standing::Running)
}

#[inline(always)]
pub(crate) fn later(a: Tick, b: Tick) -> Tick
    ensures { result ≡ max a b }
{
    if a.get() < b.get() { b } else { a }
}

fn or_first(earlier: Option<Tick>, active: bool, from: Tick, to: Tick) -> Option<Tick>
    ensures { result ≡ or_first earlier active from to }
{
    match earlier {
        Some(earlier) => Some(earlier),
        None if active && from.get() < to.get() => Some(from),
        None => None,
    }
}

/// `or_first` in place: stores the result in `earlier`.
#[inline(always)]
fn note_first(earlier: &mut Option<Tick>, active: bool, from: Tick, to: Tick)
    ensures { earlier.new ≡ or_first earlier.old active from to }
{
    if earlier.is_none() && active && from.get() < to.get() {
        *earlier = Some(from);
    }
}

/// Whether this is the notification for which a thread waits first.
#[inline(always)]
fn waits_for(note: NoteId, waits: Option<NoteId>) -> bool
    ensures { result ≡ waits_for note waits }
{
    match waits {
        Some(first) => first == note,
        None => false,
    }
}

impl Account {
    /// The account before the first row. It depends on no number of a thread or a notification.
    pub(crate) fn new(part: &ThreadPart) -> Self
        ensures { result ≡ account_of [] part.now 0 [] }
    {
        let waits = first_wait(part);
        Account {
            deadline: part.deadline,
            waits,
            bits: bits_of(part),
            standing: Standing::Pending,
            since: Tick::ZERO,
            free: part.start,
            rounds: 0,
            begun: match waits {
                Some(_) => None,
                None => Some(part.start),
            },
            called: None,
            active: None,
            preemptions: 0,
            stood: Stood::new(),
            total: Stood::new(),
        }
    }

    /// When the ticks of the round under way begin to count. Between rounds, those of the round
    /// that the word which was set at `set` would begin.
    #[inline(always)]
    fn counting(&self, set: Tick) -> Option<Tick>
        ensures { result ≡ counting self.now.waits self.now.begun self.now.free self.now.called self.now.active set }
    {
        let activated = match (self.waits, self.begun) {
            (Some(_), Some(_)) => self.called,
            (Some(_), None) => Some(set),
            (None, _) => self.active,
        };
        match activated {
            Some(activated) => Some(later(activated, self.free)),
            None => None,
        }
    }

    /// Keeps only the ticks from `from` on: all that are counted, or none.
    #[inline(always)]
    fn count_from(&mut self, from: Tick)
        ensures { self.new ≡ record self.old { stood = stood_from from self.old } }
    {
        if self.since.get() <= from.get() {
            self.stood = Stood::new();
        }
    }

    /// Counts the ticks up to `moment` into the round, whose ticks count from `from` on. `None`
    /// leaves none.
    #[inline(always)]
    fn count(&mut self, from: Option<Tick>, moment: Tick)
        ensures counted { all_kept self.old + moment < 2 ^ 64 → self.new ≡ record self.old { stood = stood_since from moment self.old.standing self.old } }
        ensures rest { self.new ≡ record self.old { stood = self.new.stood } }
        ensures nothing { counts_after from moment self.old ≡ Nothing → self.new.stood ≡ no_ticks }
    {
        match from {
            Some(from) => {
                self.count_from(from);
                let since = later(self.since, from);
                self.stood
                    .count(self.standing, moment.get().saturating_sub(since.get()));
            }
            None => self.stood = Stood::new(),
        }
    }

    /// How the thread stood in the round under way, whose ticks count from `from` on, up to
    /// `moment`, if no row changed how it stands after `since`.
    pub(crate) fn stood_since(&self, from: Tick, moment: Tick) -> Stood
        ensures { all_kept self.now + moment < 2 ^ 64 → result ≡ stood_since (Some from) moment self.now.standing self.now }
    {
        let mut account = *self;
        account.count(Some(from), moment);
        account.stood
    }

    /// How the thread stood from time 0 up to `moment`, if no row changed that after `since`.
    pub(crate) fn total_at(&self, moment: Tick) -> Stood
        ensures { all_kept self.now + moment < 2 ^ 64 → result ≡ total_at moment self.now.standing self.now }
    {
        let ticks = moment.get().saturating_sub(self.since.get());
        let mut stood = self.total;
        stood.count(self.standing, ticks);
        stood
    }

    /// When the thread was first ready or running in the round under way, up to `moment`, if no row
    /// changed how it stands after `since`.
    fn active_since(&self, moment: Tick) -> Option<Tick>
        ensures { result ≡ active_since self.now.begun moment self.now.standing self.now }
    {
        match self.begun {
            None => self.active,
            Some(begun) => or_first(
                self.active,
                is_active(self.standing),
                later(self.since, begun),
                moment,
            ),
        }
    }

    /// When the round under way was activated, if one is under way and it was before `moment`.
    pub(crate) fn activated_since(&self, moment: Tick) -> Option<Tick>
        ensures { result ≡ activated_since moment self.now }
    {
        match (self.begun, self.waits) {
            (None, _) => None,
            (Some(_), Some(_)) => self.called,
            (Some(_), None) => self.active_since(moment),
        }
    }

    /// What the next rows count of the round whose ticks count from `from` on, if a row at `moment`
    /// is the next one.
    #[inline(always)]
    fn counts_after(&self, from: Option<Tick>, moment: Tick) -> Counts
        ensures { result ≡ counts_after from moment self.now }
    {
        let Some(from) = from else {
            return Counts::Nothing;
        };
        if moment.get() <= from.get() {
            if from.get() < self.since.get() {
                Counts::Unknown
            } else {
                Counts::Nothing
            }
        } else if self.begun.is_some() && self.active.is_some() {
            Counts::Each
        } else {
            Counts::Unknown
        }
    }

    /// Takes a row after which the thread stands as `standing` says. The word for which its script
    /// waits first was set at `set`. Returns what the next rows count of the round.
    #[inline(always)]
    pub(crate) fn tell(&mut self, set: Tick, moment: Tick, standing: Standing) -> Counts
        ensures told { all_kept self.old + moment < 2 ^ 64 → self.new ≡ stands_from set moment standing self.old }
        ensures fits { Fits result self.new }
    {
        let ticks = moment.get().saturating_sub(self.since.get());
        if let Some(begun) = self.begun {
            let from = later(self.since, begun);
            note_first(&mut self.active, is_active(self.standing), from, moment);
        }
        let from = self.counting(set);
        let start = from;
        let counts = self.counts_after(start, moment);
        self.count(from, moment);
        self.total.count(self.standing, ticks);
        self.standing = standing;
        self.since = moment;
        counts
    }

    /// Whether the thread, whose rounds need no word, was neither ready nor running up to `moment`
    /// in the round under way, if no row changed how it stands after `since`.
    #[inline(always)]
    pub(crate) fn is_idle(&self, moment: Tick) -> bool
        ensures active { result ≡ true → active_since self.now.begun moment self.now.standing self.now ≡ self.now.active }
        ensures counting { (set : ℕ) → result ≡ true → counting_at set moment self.now ≡ None }
    {
        if self.waits.is_some() || self.active.is_some() {
            return false;
        }
        if !is_active(self.standing) {
            return true;
        }
        match self.begun {
            Some(begun) => moment.get() <= begun.get(),
            None => true,
        }
    }

    /// `tell` of a thread that is idle up to `moment`: no tick counts in its round.
    #[inline(always)]
    pub(crate) fn tell_idle(&mut self, moment: Tick, standing: Standing)
        requires { self.old.since ≤ moment }
        ensures told { all_kept self.old + moment < 2 ^ 64 → self.new ≡ record self.old { standing = standing; since = moment; total = total_at moment self.old.standing self.old } }
        ensures rest { self.new ≡ record self.old { standing = standing; since = moment; total = self.new.total } }
    {
        let ticks = moment.get() - self.since.get();
        self.total.count(self.standing, ticks);
        self.standing = standing;
        self.since = moment;
    }

    /// `tell` in a round that counts each tick.
    #[inline(always)]
    pub(crate) fn tell_each(&mut self, moment: Tick, standing: Standing)
        requires { self.old.since ≤ moment }
        ensures told { all_kept self.old + moment < 2 ^ 64 → self.new ≡ counted_on moment standing self.old }
        ensures rest { self.new ≡ record self.old { standing = standing; since = moment; stood = self.new.stood; total = self.new.total } }
    {
        let ticks = moment.get() - self.since.get();
        self.stood.count(self.standing, ticks);
        self.total.count(self.standing, ticks);
        self.standing = standing;
        self.since = moment;
    }

    /// Takes a row that wakes the thread with a word that begins a round.
    #[inline(always)]
    pub(crate) fn wake(&mut self, moment: Tick, standing: Standing)
        ensures woken { all_kept self.old + moment < 2 ^ 64 → self.new ≡ woken_at moment standing self.old }
        ensures nothing { self.new.stood ≡ no_ticks }
    {
        let ticks = moment.get().saturating_sub(self.since.get());
        self.total.count(self.standing, ticks);
        self.standing = standing;
        self.since = moment;
        self.begun = Some(moment);
        self.called = Some(moment);
        self.active = None;
        self.stood = Stood::new();
    }

    /// Whether this word begins a round: no round is under way, the script begins with a wait for
    /// it, and it leaves something to do.
    #[inline(always)]
    pub(crate) fn begins(&self, note: NoteId, word: u32) -> bool
        ensures { result ≡ (is_none self.now.begun && begins_round self.now.waits self.now.bits note word) }
    {
        self.begun.is_none() && waits_for(note, self.waits) && calls(self.bits, word)
    }

    /// Begins a round with a word that was set at `set` and that the thread has from `moment` on.
    #[inline(always)]
    pub(crate) fn begin(&mut self, moment: Tick, set: Tick)
        ensures { self.new ≡ begins_at moment set self.old }
    {
        self.begun = Some(moment);
        self.called = Some(set);
        self.active = None;
        self.count_from(later(set, self.free));
    }

    /// Ends the round under way, the last one with the number `rounds`. `begun` is when the next
    /// one began, if it has begun.
    #[inline(always)]
    pub(crate) fn end(&mut self, moment: Tick, rounds: u64, begun: Option<Tick>)
        ensures { self.new ≡ ends moment rounds begun self.old }
    {
        self.free = moment;
        self.rounds = rounds;
        self.begun = begun;
        self.active = None;
        self.preemptions = 0;
        self.stood = Stood::new();
    }

    /// Counts a preemption, if a round is under way.
    #[inline(always)]
    pub(crate) fn preempt(&mut self)
        ensures { self.new ≡ preempted self.old }
    {
        if self.begun.is_some() {
            self.preemptions = self.preemptions.saturating_add(1);
        }
    }
}
