//! The counts of all that was found, and how much was judged.
ghost use Rattle.std.specs.Prelude.{◌≡◌};
ghost use Rattle.mcs_check_lines.specs.Checked.{if_chains};
ghost use Rattle.mcs_check.specs.Judged.{waiting_many};
ghost use Rattle.mcs_check.specs.stored.AllFound.{checked_of, scope_with};

use crate::all_found::AllFound;
use mcs_check_lines::{ChainCounts, Checked, Scope, chain_deadlines, thread_deadlines};
use mcs_system::System;
use mcs_verdict::{Finding, Found};

/// The counts of all that was found, and how much was judged.
pub(crate) fn checked_of(system: &System, all: &AllFound) -> Checked
    ensures { result ≡ checked_of system.now all.now }
{
    Checked {
        counts: all.counts,
        scope: scope_with(system, all),
        chains: if_chains(
            system,
            ChainCounts {
                slow: all.slow,
                unanswered: all.unanswered.len() as u64,
            },
        ),
    }
}

/// The counts of chains, if the file has a chain.
fn if_chains(system: &System, counts: ChainCounts) -> Option<ChainCounts>
    ensures { result ≡ if_chains system.now.chains counts }
{
    if system.parts().chains.is_empty() {
        None
    } else {
        Some(counts)
    }
}

/// How much was judged.
fn scope_with(system: &System, all: &AllFound) -> Scope
    ensures { result ≡ scope_with system.now all.now }
{
    let (threads, chains) = (&system.parts().threads, &system.parts().chains);
    let deadlines = thread_deadlines(threads.as_slice()) + chain_deadlines(chains.as_slice());
    let ended = all.rounds.saturating_add(all.answers);
    let waiting = waiting_many(all.unended.as_slice()) as u64;
    let unanswered = all.unanswered.len() as u64;
    Scope {
        unjudged: all.unjudged.len() as u64,
        threads: threads.len() as u64,
        deadlines: deadlines as u64,
        judged: ended.saturating_add(waiting).saturating_add(unanswered),
    }
}

/// How many of these findings are overdue rounds or untaken words.
fn waiting_many(found: &[Found]) -> usize
    ensures { result ≡ waiting_many found.now }
{
    found
        .iter()
        .filter(|one| {
            matches!(
                one.finding,
                Finding::Overdue { .. } | Finding::Untaken { .. }
            )
        })
        .count()
}
