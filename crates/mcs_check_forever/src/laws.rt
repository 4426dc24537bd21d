ghost use Rattle.mcs_check_forever.specs.laws.Clean.{CleanIsNeverLate};

/// A law of the verdict: if it is `Clean`, no answer of a chain with a deadline is ever slow, and
/// at no horizon has a deadline passed without an answer.
pub fn clean_is_never_late()
    ensures { CleanIsNeverLate }
{}
