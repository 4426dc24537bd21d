use mcs_verdict::{Found, Job};

/// The subject of a line.
#[derive(Clone, Copy, Debug, PartialEq, Eq)]
pub enum Shown {
    /// A finding.
    Found(Found),
    /// A job.
    Job(Job),
}
