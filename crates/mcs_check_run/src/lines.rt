//! Lines on their way to a target, and why one was refused.
ghost use Rattle.std.specs.Prelude.{◌≡◌, ◌++◌, ℕ, List, false, true, is_ok, OnOk, OnErr};
ghost use Rattle.mcs_cli.specs.Devices.{AppendsPrefix};
ghost use Rattle.mcs_cli.specs.Flow.{AppendsBefore, TakesLine};
ghost use Rattle.mcs_check_run.specs.Lines.{failed_after, refusal};

use crate::Progress;
use mcs_cli::{RunFault, Target, write_bytes};
use mcs_team::SimFault;
use mcs_ticks::{NoMemory, Refused};
use std::alloc::Global;

/// Maximum bytes of a piece of lines that is written at once; its last line may exceed it.
const FULL: usize = 65_536;

/// A target for lines. The first line is written at once, later ones in pieces that grow.
#[derive(Drop)]
pub struct Lines<'t, T: Target> {
    /// The allocator for the lines that wait.
    pub alloc: Global,
    /// The target that pieces are written to.
    pub target: &'t mut T,
    /// Bytes of lines that wait before they are written: from 1, doubled up to `FULL`.
    limit: usize,
    /// Whether the last line was refused because memory ran out, not by the target.
    pub is_out_of_memory: bool,
}

impl<'t, T: Target> Lines<'t, T> {
    /// Returns a target to which no line was written yet.
    pub fn new(alloc: Global, target: &'t mut T) -> Lines<'t, T>
        ensures target { result.target.ghost_name ≡ target.entry.ghost_name }
        ensures target_now { result.target.now ≡ target.old }
        ensures none_refused { result.is_out_of_memory ≡ false }
    {
        Lines {
            alloc,
            target,
            limit: 1,
            is_out_of_memory: false,
        }
    }

    /// Takes the result of appending one more line to the waiting text, and writes the text when it
    /// is long enough. The line is refused if memory ran out for it, or if the target fails.
    #[inline(always)]
    pub fn take_line<P: Progress>(
        &mut self,
        appended: Result<(), NoMemory>,
        text: &mut Vec<u8>,
        progress: &mut P,
    ) -> Result<(), Refused>
        ensures target { self.new.target.ghost_name ≡ self.old.target.ghost_name }
        ensures line { (before line : List ℕ) → OnOk appended (text.old.items ≡ before ++ line) →
            TakesLine (T.contents self.old.target.now) (T.contents self.new.target.now) before text.new.items line (is_ok result) }
        ensures no_memory { is_ok appended ≡ false → (is_ok result ≡ false) × (self.new.is_out_of_memory ≡ true) }
        ensures working { OnOk result (T.has_failed self.new.target.now ≡ T.has_failed self.old.target.now) }
        ensures refused { OnErr result
            (T.has_failed self.new.target.now ≡ failed_after self.new.is_out_of_memory (T.has_failed self.old.target.now)) }
    {
        if appended.is_err() {
            self.is_out_of_memory = true;
            return Err(Refused);
        }
        self.flow(text, progress)
    }

    /// Writes the waiting text when it is long enough.
    #[inline(always)]
    fn flow<P: Progress>(&mut self, text: &mut Vec<u8>, progress: &mut P) -> Result<(), Refused>
        ensures target { self.new.target.ghost_name ≡ self.old.target.ghost_name }
        ensures ok { OnOk result (AppendsBefore (T.contents self.old.target.now) (T.contents self.new.target.now) text.old.items text.new.items) }
        ensures err { OnErr result (AppendsPrefix (T.contents self.old.target.now) (T.contents self.new.target.now) text.old.items) }
        ensures working { OnOk result (T.has_failed self.new.target.now ≡ T.has_failed self.old.target.now) }
        ensures refused { OnErr result
            (T.has_failed self.new.target.now ≡ failed_after self.new.is_out_of_memory (T.has_failed self.old.target.now)) }
    {
        if text.len() < self.limit {
            return Ok(());
        }
        progress.wipe();
        if write_bytes(self.target, text.as_slice()).is_err() {
            self.is_out_of_memory = false;
            return Err(Refused);
        }
        text.clear();
        self.limit = self.limit.saturating_mul(2).min(FULL);
        Ok(())
    }
}

/// Returns why a line was refused: memory ran out, or the target failed.
pub fn refusal(is_out_of_memory: bool) -> RunFault
    ensures { result ≡ refusal is_out_of_memory }
{
    if is_out_of_memory {
        RunFault::Sim(SimFault::NoMemory)
    } else {
        RunFault::Write
    }
}
