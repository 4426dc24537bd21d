//! Joins the tallies of all cores.
ghost use Rattle.std.specs.Prelude.{◌≡◌, ◌<◌, length, map};
ghost use Rattle.std.specs.List.{range_with_len};
ghost use Rattle.mcs_report.specs.CoreTally.{account_of};

use crate::account::Account;
use crate::{CoreTally, Places};
use mcs_ticks::{CoreId, ThreadId};

/// The account of a thread, from its core's tally.
fn account_of(places: &Places, tallies: &[CoreTally], thread: ThreadId) -> Account
    requires { thread < length places.now.threads }
    ensures { result ≡ account_of places.now tallies.now thread }
{
    let home = places.home(thread);
    match tallies.get(home.core.0) {
        Some(tally) => tally.account(home.place),
        None => Account::new(CoreId(0), 0),
    }
}

/// Writes the accounts of all threads, each from its core's tally.
pub(crate) fn put_together(accounts: &mut [Account], places: &Places, tallies: &[CoreTally])
    requires { length accounts.old ≡ length places.now.threads }
    ensures { accounts.new ≡ map (account_of places.now tallies.now) (range_with_len 0 (length places.now.threads)) }
{
    for number in 0..accounts.len() {
        accounts[number] = account_of(places, tallies, ThreadId(number));
    }
}
