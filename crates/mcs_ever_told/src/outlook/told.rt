use crate::line::Line;
use mcs_ever::CoreSet;
use mcs_ticks::Tick;

/// How a set of cores recurs.
#[derive(Clone, Copy, Debug, PartialEq, Eq)]
pub struct Period {
    /// The time from which on all that the set does recurs.
    pub from: Tick,
    /// The period in ticks, at least 1.
    pub ticks: u64,
}

/// The result of a closed set of cores: one that no core outside it signals.
#[derive(Debug, Drop)]
pub struct Told {
    /// The set.
    pub set: CoreSet,
    /// How it recurs; `None` if no recurrence was found up to the horizon.
    pub period: Option<Period>,
    /// The lines of the set, of the findings on those cores that are reported with it, and of their
    /// threads.
    pub lines: Vec<Line>,
    /// The number of lines that report a finding.
    pub findings: usize,
}
