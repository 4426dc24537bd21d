ghost use Rattle.std.specs.Prelude.{◌≡◌, ◌↔◌, map, IsTrue};
ghost use Rattle.mcs_refills.specs.Server.{dates_of, refills_of};
ghost use Rattle.mcs_control.specs.Context.{Budget, refills_shown, left_shown};
ghost use Rattle.mcs_ever.specs.Later.{later_dates, later_budget};
ghost use Rattle.mcs_ever_again.specs.Lag.{later_refill, TellsLag};
ghost use Rattle.mcs_ever_again.specs.stored.Budget.{budget_of};

use mcs_refills::Refill;
use std::marker::Model;

/// The refills of a sporadic context, in order. Contracts see their dates.
#[derive(Debug, Drop)]
pub(crate) struct RefillsImage {
    refills: Vec<Refill>,
}

/// The budget of a context, by kind.
#[derive(Debug, Drop)]
pub(crate) enum BudgetImage {
    /// The refills of a sporadic context.
    Sporadic(RefillsImage),
    /// The ticks left of the slice of a round robin context.
    RoundRobin(u64),
}

impl Model for RefillsImage {
    ghost use Rattle.std.specs.Prelude.{◌≡◌, ℕ, List};
    ghost use Rattle.mcs_refills.specs.Server.{dates_of, refills_of};

    ghost Value = { List ℕ };

    ghost view = { λ a. dates_of a.refills.items };

    ghost invariant = { λ a. refills_of (dates_of a.refills.items) ≡ a.refills.items };
}

impl RefillsImage {
    /// Returns these refills, which must be those of their dates.
    fn new(refills: Vec<Refill>) -> Self
        requires { refills_of (dates_of refills.items) ≡ refills.items }
        ensures { result ≡ dates_of refills.items }
    {
        RefillsImage { refills }
    }

    /// Returns by how many ticks, at most `by`, the dates are later than before; `by` if there are
    /// none. `None` if they are not all later by one such number.
    pub(crate) fn lag(&self, before: &RefillsImage, by: u64) -> Option<u64>
        ensures { TellsLag result by (λ lag. self.now ≡ later_dates lag before.now) }
    {
        refills_lag(&before.refills, &self.refills, by)
    }
}

impl BudgetImage {
    /// Returns the budget with these refills, or with this rest of a slice.
    pub(crate) fn new(refills: Vec<Refill>, left: Option<u64>) -> Self
        requires { refills_of (dates_of refills.items) ≡ refills.items }
        ensures { (budget : Budget) → refills.items ≡ refills_shown budget → left ≡ left_shown budget → budget_of result ≡ budget }
    {
        match left {
            Some(left) => BudgetImage::RoundRobin(left),
            None => BudgetImage::Sporadic(RefillsImage::new(refills)),
        }
    }

    /// Returns by how many ticks, at most `by`, the budget is later than before; `by` for an equal
    /// slice, which has no date. `None` if it is not the same budget, later by one such number.
    pub(crate) fn lag(&self, before: &BudgetImage, by: u64) -> Option<u64>
        ensures { TellsLag result by (λ lag. budget_of self.now ≡ later_budget lag (budget_of before.now)) }
    {
        match (self, before) {
            (BudgetImage::Sporadic(after), BudgetImage::Sporadic(before)) => after.lag(before, by),
            (BudgetImage::RoundRobin(after), BudgetImage::RoundRobin(before))
                if *after == *before => { Some(by) }
            _ => None,
        }
    }
}

/// Whether the refill is the earlier one, `lag` ticks later.
fn refill_is_later(before: Refill, after: Refill, lag: u64) -> bool
    ensures { IsTrue result ↔ (after ≡ later_refill lag before) }
{
    after.begins >= before.begins
        && after.begins - before.begins == lag
        && after.amount == before.amount
}

/// Whether the refills are the earlier ones, `lag` ticks later.
fn refills_are_later(before: &[Refill], after: &[Refill], lag: u64) -> bool
    ensures { IsTrue result ↔ (after.now ≡ map (later_refill lag) before.now) }
{
    if before.len() != after.len() {
        return false;
    }
    for i in 0..before.len() {
        if !refill_is_later(before[i], after[i], lag) {
            return false;
        }
    }
    true
}

/// Returns by how many ticks, at most `by`, the refills are later than before; `by` if there are
/// none. `None` if they are not all later by one such number.
fn refills_lag(before: &[Refill], after: &[Refill], by: u64) -> Option<u64>
    ensures { TellsLag result by (λ lag. after.now ≡ map (later_refill lag) before.now) }
{
    if before.is_empty() || after.is_empty() {
        return if before.len() == after.len() {
            Some(by)
        } else {
            None
        };
    }
    if after[0].begins < before[0].begins {
        return None;
    }
    let lag = after[0].begins - before[0].begins;
    if lag <= by && refills_are_later(before, after, lag) {
        Some(lag)
    } else {
        None
    }
}
