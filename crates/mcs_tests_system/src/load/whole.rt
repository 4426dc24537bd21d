//! A file with all of its keys, and out of memory, which has no place in a file.

use crate::load::files::answer;
use mcs_load::{FaultKind, Key, LoadFault, Section, Spot, accepted_systems_are_well_formed};
use std::test::Fail;

/// a file with all of its keys, except the defaults of the second context, thread and order
const WHOLE: &str = "version = 1\ncores = 2\ndelay = 7\ncall = 3\nmin_budget = 2
note = [{name='n',core=1}]

[[context]]
name = \"a-1\"
core = 1
budget = 4
period = 20
extra_refills = 3

[[context]]
name = \"A_1\"
core = 0
budget = 5
period = 5

[[thread]]
name = \"T\"
context = \"A_1\"
priority = 255
start = 6
rounds = 2
deadline = 9
script = [\"signal n 8\", \" compute  10 \", \"yield\"]

[[thread]]
name = \"U\"
context = \"a-1\"
priority = 0
script = [\"wait n\", \"compute 1\"]

[[order]]
at = 12
core = 1
context = \"a-1\"
budget = 2
period = 3
extra_refills = 1

[[order]]
at = 11
core = 0
context = \"A_1\"
budget = 6
period = 6
";

/// with ample memory
#[test]
fn a_whole_file_is_accepted(rt: HostRuntime) -> Result<(), Fail> {
    let found = answer(rt.alloc(), WHOLE)?;
    assert_eq!(rt; found.as_str(), "accepted");
    accepted_systems_are_well_formed();
    Ok(())
}

#[test]
fn no_memory_has_no_place(rt: HostRuntime) -> Result<(), Fail> {
    let spot = Spot {
        section: Section::File,
        row: 0,
        key: Key::Whole,
        item: 0,
    };
    let fault = LoadFault {
        kind: FaultKind::NoMemory,
        spot,
    };
    let text = fault.to_string(rt.alloc())?;
    assert_eq!(rt; text.as_str(), "no memory");
    Ok(())
}
