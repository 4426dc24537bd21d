//! Counts a row in the account of its thread.
ghost use Rattle.std.specs.Prelude.{◌≡◌, ◌<◌, ℕ, length, Some};
ghost use Rattle.mcs_report.specs.Tally.{told_at};

use crate::account::Account;
use mcs_ticks::{ThreadId, Tick, What};

/// Finds the account of a thread in a list.
pub(crate) trait Stand {
    ghost use Rattle.std.specs.Prelude.{◌≡◌, ℕ, Option};

    ghost place: { Self → ℕ → Option ℕ };

    /// The index of a thread's account, if it is there.
    fn place(&self, thread: ThreadId) -> Option<usize>
        ensures { result ≡ place self.now thread };
}

/// Counts a row in the account of its thread. If the kind of the row is known to the caller, only
/// the steps for that kind remain.
#[inline(always)]
pub(crate) fn tell<S: Stand>(
    accounts: &mut [Account],
    stand: &S,
    horizon: Tick,
    moment: Tick,
    what: What,
)
    requires { (x place : ℕ) → S.place stand.now x ≡ Some place → place < length accounts.old }
    ensures { accounts.new ≡ told_at (S.place stand.now) horizon moment what accounts.old }
{
    match what {
        What::Run { thread } => {
            if let Some(place) = stand.place(thread) {
                accounts[place].begin(moment);
            }
        }
        What::Stop {
            thread,
            why,
            until,
            ..
        } => {
            if let Some(place) = stand.place(thread) {
                accounts[place].stop(horizon, moment, why, until);
            }
        }
        What::Round {
            thread,
            response,
            ..
        } => {
            if let Some(place) = stand.place(thread) {
                accounts[place].respond(response);
            }
        }
        _ => {}
    }
}
