//! The lines of two cores, emitted by each of them and merged by moments.
ghost use Rattle.std.specs.Prelude.{◌≡◌, length, IfOk, OnOk};

use super::play::{moment, opened};
use super::systems::system;
use mcs_mail::Mailbox;
use mcs_merge::Merger;
use mcs_system::System;
use mcs_text::{LinesPart, Names, Text, ToldLines, pour_lines};
use mcs_ticks::{Collector, CoreId, Measured};
use std::alloc::Global;
use std::test::Fail;

/// A thread of core 0 exhausts its budget twice, and one of core 1 starts at the first moment at
/// which it runs again.
const TWO_CORES: &str = r#"
version = 1
cores = 2
delay = 1
context = [
    { name = "a", core = 0, budget = 2, period = 5 },
    { name = "b", core = 1, budget = 4, period = 10 },
]
thread = [
    { name = "A", context = "a", priority = 5, rounds = 1, script = ["compute 5"] },
    { name = "B", context = "b", priority = 5, start = 5, rounds = 1, script = ["compute 3"] },
]
"#;

const BEFORE_FIVE: &str = "0 0 release A
0 0 run A
2 0 stop A spent 2 until 5
";

const FROM_FIVE: &str = "5 0 release A
5 0 run A
5 1 release B
5 1 run B
7 0 stop A spent 2 until 10
8 1 round B 1 3
8 1 stop B done 3
10 0 release A
10 0 run A
11 0 round A 1 11
11 0 stop A done 1
";

const OF_CORE_1: &str = "5 1 release B
5 1 run B
8 1 round B 1 3
8 1 stop B done 3
";

/// Emits the rows of a core's turns before 12 to lines that refuse a row only if memory runs out.
fn tell(alloc: Global, system: &System, core: usize, told: &mut ToldLines<'_>) -> Result<(), Fail> {
    let mut core = opened(alloc, system, CoreId(core))?;
    let mut mail = Mailbox::new(alloc);
    let mut signals = Vec::new(alloc);
    core.run_to(system, &mut mail, moment(12)?, told, &mut signals)
        .ok()
        .ok_or("no memory")?;
    Ok(())
}

/// Returns the lines of a core's turns before 12, which are still to be written.
fn part_of<'a>(
    alloc: Global,
    system: &System,
    names: &'a Names<'a>,
    core: usize,
) -> Result<LinesPart<'a>, Fail> {
    let mut told = ToldLines::new(alloc, names);
    tell(alloc, system, core, &mut told)?;
    Ok(LinesPart::new(told.into_lines()))
}

/// Returns the lines of both cores, which are still to be written.
fn merger_of<'a>(
    alloc: Global,
    system: &System,
    names: &'a Names<'a>,
) -> Result<Merger<LinesPart<'a>>, Fail>
    ensures { IfOk result (λ merger. length merger ≡ 2) }
{
    let first = part_of(alloc, system, names, 0)?;
    let second = part_of(alloc, system, names, 1)?;
    let parts = Vec::from_array(alloc, [first, second])?;
    Ok(Merger::new(alloc, parts)?)
}

#[test]
fn lines_of_two_cores_are_merged_by_moments(rt: HostRuntime) -> Result<(), Fail> {
    let alloc = rt.alloc();
    let system = system(alloc, TWO_CORES)?;
    let names = Names::new(alloc, &system)?;
    let mut merger = merger_of(alloc, &system, &names)?;
    let mut text = Text::new(alloc, &names);
    pour_lines(&mut merger, moment(5)?, &mut text)
        .ok()
        .ok_or("no memory")?;
    assert!(rt; text.as_slice() == BEFORE_FIVE.as_bytes());
    text.clear();
    pour_lines(&mut merger, moment(12)?, &mut text)
        .ok()
        .ok_or("no memory")?;
    assert!(rt; text.as_slice() == FROM_FIVE.as_bytes());
    Ok(())
}

#[test]
fn the_room_of_a_part_is_told_to_again(rt: HostRuntime) -> Result<(), Fail> {
    let alloc = rt.alloc();
    let system = system(alloc, TWO_CORES)?;
    let names = Names::new(alloc, &system)?;
    let mut merger = merger_of(alloc, &system, &names)?;
    let mut text = Text::new(alloc, &names);
    merger
        .pour_before(moment(12)?, &mut text)
        .ok()
        .ok_or("no memory")?;
    let none = LinesPart::new(ToldLines::new(alloc, &names).into_lines());
    let Ok(Some(part)) = merger.add(CoreId(0), none) else {
        return Err(Fail::from("no memory, or no part was given back"));
    };
    let mut told = ToldLines::in_room_of(part.into_room());
    tell(alloc, &system, 1, &mut told)?;
    assert_eq!(rt; told.size(), 4);
    told.clear();
    assert_eq!(rt; told.size(), 0);
    tell(alloc, &system, 1, &mut told)?;
    assert!(rt; told.into_lines().as_slice() == OF_CORE_1.as_bytes());
    Ok(())
}
