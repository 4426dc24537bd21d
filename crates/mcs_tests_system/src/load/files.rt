//! Results of files, and beginnings of files that several tests share.

use mcs_load::load;
use std::alloc::{AllocError, Global};
use std::process::Abort;
use std::test::Fail;

/// The numbers at the top, within their limits.
pub(crate) const TOP: &str = "version = 1\ncores = 2\ndelay = 1\n";

/// `TOP`, with contexts a (sporadic, on core 0) and b (round robin, on core 1), and notifications n
/// (on core 0) and m (on core 1).
pub(crate) const PARTS: &str = "version = 1\ncores = 2\ndelay = 1
context = [{name='a',core=0,budget=2,period=5},{name='b',core=1,budget=4,period=4}]
note = [{name='n',core=0},{name='m',core=1}]\n";

/// `PARTS`, with a thread. The keys after its name and context follow.
pub(crate) const THREAD: &str = "version = 1\ncores = 2\ndelay = 1
context = [{name='a',core=0,budget=2,period=5},{name='b',core=1,budget=4,period=4}]
note = [{name='n',core=0},{name='m',core=1}]
thread = [{name='A',context='a',";

/// Returns the text of the fault of a file, or `accepted`.
pub(crate) fn answer(alloc: Global, file: &str) -> Result<String, AllocError> {
    match load(alloc, file.as_bytes()) {
        Ok(_) => String::from_str(alloc, "accepted"),
        Err(fault) => fault.to_string(alloc),
    }
}

/// Tests that each file, made of `begin`, the first text of a case and `end`, gives the second
/// text.
pub(crate) fn are_answered(
    rt: &impl Abort,
    alloc: Global,
    (begin, end): (&str, &str),
    cases: &[(&str, &str)],
) -> Result<(), Fail> {
    for (text, want) in cases {
        let file = format!(in alloc; "{begin}{text}{end}")?;
        let found = answer(alloc, file.as_str())?;
        assert_eq!(rt; found.as_str(), *want, "of {text}");
    }
    Ok(())
}
