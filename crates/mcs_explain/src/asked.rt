//! The thread or the chain, and the number, that `--why` asks about.
ghost use Rattle.std.specs.Prelude.{◌≡◌, ◌<◌, length, IfSome};
ghost use Rattle.mcs_explain.specs.Asked.{HasThread, asked_of, chain_named, round_number, thread_named};

use mcs_chain::ChainId;
use mcs_system::SystemParts;
use mcs_ticks::ThreadId;

/// The meaning of a name.
#[derive(Clone, Copy, Debug, PartialEq, Eq)]
pub(crate) enum Asked {
    /// A round of this thread.
    Round(ThreadId),
    /// An answer of this chain.
    Answer(ChainId),
    /// No thread and no chain has the name.
    Nobody,
}

/// Returns the meaning of a name. It is looked for among the threads first, then among the chains.
pub(crate) fn asked_of(parts: &SystemParts, name: &str) -> Asked
    ensures named { result ≡ asked_of parts.now name.now }
    ensures known { HasThread parts.now result }
{
    match thread_named(parts, name) {
        Some(thread) => Asked::Round(thread),
        None => match chain_named(parts, name) {
            Some(chain) => Asked::Answer(chain),
            None => Asked::Nobody,
        },
    }
}

/// The thread with this name.
fn thread_named(parts: &SystemParts, name: &str) -> Option<ThreadId>
    ensures named { result ≡ thread_named parts.now.threads name.now }
    ensures known { IfSome result (λ thread. thread < length parts.now.threads) }
{
    match place_of_thread(parts, name) {
        Some(place) => Some(ThreadId(place)),
        None => None,
    }
}

fn place_of_thread(parts: &SystemParts, name: &str) -> Option<usize>
    ensures { result ≡ thread_named parts.now.threads name.now }
{
    let threads = parts.threads.as_slice();
    threads.iter().position(|part| part.name.as_str() == name)
}

/// The chain with this name.
fn chain_named(parts: &SystemParts, name: &str) -> Option<ChainId>
    ensures { result ≡ chain_named parts.now.chains name.now }
{
    match place_of_chain(parts, name) {
        Some(place) => Some(ChainId(place)),
        None => None,
    }
}

fn place_of_chain(parts: &SystemParts, name: &str) -> Option<usize>
    ensures { result ≡ chain_named parts.now.chains name.now }
{
    let chains = parts.chains.as_slice();
    chains.iter().position(|part| part.name.as_str() == name)
}

/// The number that the text writes; 0, which no round and no answer has, if it writes none.
pub(crate) fn round_number(text: &str) -> u64
    ensures { result ≡ round_number text.now }
{
    text.parse::<u64>().unwrap_or(0)
}
