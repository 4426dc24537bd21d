//! Threads and chains with a deadline.
ghost use Rattle.std.specs.Prelude.{◌≡◌};
ghost use Rattle.mcs_check_lines.specs.Deadlines.{chain_deadlines, thread_deadlines};

use mcs_system::{ChainPart, ThreadPart};

/// Returns how many of these threads have a deadline.
pub fn thread_deadlines(threads: &[ThreadPart]) -> usize
    ensures { result ≡ thread_deadlines threads.now }
{
    threads.iter().filter(|part| part.deadline != 0).count()
}

/// Returns how many of these chains have a deadline.
pub fn chain_deadlines(chains: &[ChainPart]) -> usize
    ensures { result ≡ chain_deadlines chains.now }
{
    chains.iter().filter(|chain| chain.deadline != 0).count()
}
