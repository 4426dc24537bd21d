ghost use Rattle.std.specs.Prelude.{◌≡◌};
ghost use Rattle.mcs_check_lines.specs.Counts.{added, is_allowed, no_counts, one_more, taken, together, told_of, with_hints};

use mcs_verdict::Finding;

/// The numbers of findings, by kind. They saturate at 2^64 - 1.
#[derive(Clone, Copy, Debug, PartialEq, Eq)]
pub struct Counts {
    /// Deadline misses: rounds whose response was above the deadline.
    pub missed: u64,
    /// Overdue rounds, which can only end with a miss.
    pub overdue: u64,
    /// Words that were left so long that each thread that may take one misses its deadline.
    pub untaken: u64,
    /// Lost activations: signals that did not change the word.
    pub lost: u64,
    /// Threads with a deadline that were never activated.
    pub never: u64,
    /// Coalesced signals, which added bits to a word that was not 0. They are no findings.
    pub merged: u64,
    /// Lost signals of notifications at which this is allowed. They are no findings.
    pub allowed: u64,
    /// Hints: likely mistakes in the file. They are no findings.
    pub hints: u64,
}

impl Counts {
    /// All counts are 0.
    pub fn new() -> Self
        ensures { result ≡ no_counts }
    {
        Counts {
            missed: 0,
            overdue: 0,
            untaken: 0,
            lost: 0,
            never: 0,
            merged: 0,
            allowed: 0,
            hints: 0,
        }
    }

    /// Counts a merged signal.
    pub fn merge(&mut self)
        ensures { self.new ≡ record self.old { merged = one_more self.old.merged } }
    {
        self.merged = self.merged.saturating_add(1);
    }

    /// Counts `many` hints.
    pub fn hint(&mut self, many: usize)
        ensures { self.new ≡ with_hints many self.old }
    {
        self.hints = self.hints.saturating_add(many as u64);
    }

    /// Adds the counts of another core.
    pub fn add_all(&mut self, more: &Counts)
        ensures { self.new ≡ together self.old more.now }
    {
        self.missed = self.missed.saturating_add(more.missed);
        self.overdue = self.overdue.saturating_add(more.overdue);
        self.untaken = self.untaken.saturating_add(more.untaken);
        self.lost = self.lost.saturating_add(more.lost);
        self.never = self.never.saturating_add(more.never);
        self.merged = self.merged.saturating_add(more.merged);
        self.allowed = self.allowed.saturating_add(more.allowed);
        self.hints = self.hints.saturating_add(more.hints);
    }

    /// Counts a finding.
    fn add(&mut self, finding: &Finding)
        ensures { self.new ≡ added finding.now self.old }
    {
        match finding {
            Finding::Miss { .. } => self.missed = self.missed.saturating_add(1),
            Finding::Overdue { .. } => self.overdue = self.overdue.saturating_add(1),
            Finding::Untaken { .. } => self.untaken = self.untaken.saturating_add(1),
            Finding::Lost { .. } => self.lost = self.lost.saturating_add(1),
            Finding::Never { .. } => self.never = self.never.saturating_add(1),
        }
    }

    /// Counts a finding, if there is one, and returns it unless it is an allowed lost signal.
    pub fn take(&mut self, allowed: &[bool], found: Option<Finding>) -> Option<Finding>
        ensures told { result ≡ told_of allowed.now found }
        ensures counted { self.new ≡ taken allowed.now found self.old }
    {
        let Some(finding) = found else {
            return None;
        };
        if is_allowed(allowed, &finding) {
            self.allowed = self.allowed.saturating_add(1);
            return None;
        }
        self.add(&finding);
        Some(finding)
    }
}

/// Whether the finding is a lost signal of a notification at which this is allowed.
pub fn is_allowed(allowed: &[bool], finding: &Finding) -> bool
    ensures { result ≡ is_allowed allowed.now finding.now }
{
    match *finding {
        Finding::Lost { note, .. } => allowed.get(note.0).copied().unwrap_or(false),
        _ => false,
    }
}
