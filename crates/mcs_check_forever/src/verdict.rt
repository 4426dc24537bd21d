ghost use Rattle.std.specs.Prelude.{◌≡◌};
ghost use Rattle.mcs_check_forever.specs.Verdict.{status_of};

use mcs_check_lines::code;

/// The verdict for all time.
#[derive(Clone, Copy, Debug, PartialEq, Eq)]
pub enum Verdict {
    /// There is a deadline, of a thread or of a chain; every set of cores and every chain with a
    /// deadline repeats; and there is no finding, for ever.
    Clean,
    /// There is a finding.
    Found,
    /// There is no finding so far, but some set of cores or some chain with a deadline was not
    /// found to repeat, or there is no deadline.
    Open,
}

impl Verdict {
    /// Returns the exit code: 5 for `Found`, 6 for `Open`, 0 for `Clean`.
    pub fn status(self) -> u8
        ensures { result ≡ status_of self }
    {
        code(self == Verdict::Found, self == Verdict::Open)
    }
}
