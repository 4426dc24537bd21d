//! The findings of a chain for all time.
ghost use Rattle.std.specs.Prelude.{◌≡◌};
ghost use Rattle.mcs_ever_told.specs.Lines.{is_some};
ghost use Rattle.mcs_ever_chain_lines.specs.Lines.{findings_of, has_left, has_slow, one_if, tells, times_of};

use mcs_ever_chain::ChainTold;
use mcs_ever_told::Often;

/// Whether the count is not 0.
fn is_some(often: &Often) -> bool
    ensures { result ≡ is_some often.now }
{
    match *often {
        Often::Forever {
            before,
            each_period,
        } => before != 0 || each_period != 0,
        Often::SoFar { times } => times != 0,
    }
}

/// How many there are in each period, or so far.
pub(crate) fn times_of(often: &Often) -> u64
    ensures { result ≡ times_of often.now }
{
    match *often {
        Often::Forever { each_period, .. } => each_period,
        Often::SoFar { times } => times,
    }
}

/// Whether slow answers have a line.
pub(crate) fn has_slow(told: &ChainTold) -> bool
    ensures { result ≡ has_slow told.now }
{
    is_some(&told.slow)
}

/// Whether this count of interrupts without an answer has a line: it is not 0, or there is no slow
/// answer. If an interrupt has a late answer, the slow answers count it.
pub(crate) fn tells(slow: bool, often: &Often) -> bool
    ensures { result ≡ tells slow often.now }
{
    is_some(often) || !slow
}

/// Whether interrupts without an answer have a line.
fn has_left(told: &ChainTold) -> bool
    ensures { result ≡ has_left told.now }
{
    match &told.unanswered {
        Some(often) => tells(has_slow(told), often),
        None => false,
    }
}

fn one_if(has: bool) -> usize
    ensures { result ≡ one_if has }
{
    if has { 1 } else { 0 }
}

/// The number of lines of a chain that report a finding: one of slow answers, and one of
/// interrupts without an answer, if there are such.
pub fn findings_of(told: &ChainTold) -> usize
    ensures { result ≡ findings_of told.now }
{
    let slow = one_if(has_slow(told));
    let left = one_if(has_left(told));
    slow + left
}
