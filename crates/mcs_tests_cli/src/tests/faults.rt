//! The texts and exit codes of faults.
use mcs_cli::RunFault;
use mcs_control::ControlFault;
use mcs_load::{FaultKind, Key, LoadFault, Section, Spot};
use mcs_script::ItemFault;
use mcs_team::SimFault;
use std::alloc::Global;
use std::process::Abort;
use std::test::Fail;

fn is_told(
    rt: &impl Abort,
    alloc: Global,
    fault: RunFault,
    text: &str,
    status: u8,
) -> Result<(), Fail> {
    let shown = fault.to_string(alloc)?;
    assert_eq!(rt; shown.as_str(), text);
    assert_eq!(rt; fault.status(), status);
    Ok(())
}

#[test]
fn faults_have_a_line_and_a_status(rt: HostRuntime) -> Result<(), Fail> {
    let alloc = rt.alloc();
    is_told(&rt, alloc, RunFault::Read, "mcsim: read failed", 3)?;
    is_told(&rt, alloc, RunFault::Write, "mcsim: write failed", 3)?;
    let memory = RunFault::Sim(SimFault::NoMemory);
    is_told(&rt, alloc, memory, "mcsim: no memory", 4)?;
    let memory = at(FaultKind::NoMemory, (Section::File, 0, Key::Whole, 0));
    is_told(&rt, alloc, memory, "mcsim: no memory", 4)
}

/// places, each with a fault that may be there
static PLACES: [(FaultKind, (Section, usize, Key, usize), &str); 6] = [
    (
        FaultKind::NotToml,
        (Section::File, 0, Key::Whole, 0),
        "mcsim: not TOML at file",
    ),
    (
        FaultKind::MissingKey,
        (Section::Top, 0, Key::Version, 0),
        "mcsim: missing key at top version",
    ),
    (
        FaultKind::UnknownKey,
        (Section::Thread, 1, Key::Other, 0),
        "mcsim: unknown key at thread 1 ?",
    ),
    (
        FaultKind::BadItem(ItemFault::BadNumber),
        (Section::Thread, 2, Key::Script, 3),
        "mcsim: bad item: bad number at thread 2 script item 3",
    ),
    (
        FaultKind::Control(ControlFault::BudgetTooSmall),
        (Section::Order, 7, Key::Budget, 0),
        "mcsim: control: budget too small at order 7 budget",
    ),
    (
        FaultKind::TooMany,
        (Section::Note, 0, Key::Whole, 0),
        "mcsim: too many at note",
    ),
];

#[test]
fn faults_of_a_file_have_a_line_and_a_status(rt: HostRuntime) -> Result<(), Fail> {
    for (kind, place, text) in PLACES.as_slice() {
        is_told(&rt, rt.alloc(), at(*kind, *place), text, 1)?;
    }
    Ok(())
}

/// each fault of a file, with its text
static KINDS: [(FaultKind, &str); 22] = [
    (FaultKind::NotToml, "not TOML"),
    (FaultKind::UnknownKey, "unknown key"),
    (FaultKind::MissingKey, "missing key"),
    (FaultKind::WrongKind, "wrong kind"),
    (FaultKind::OutOfRange, "out of range"),
    (FaultKind::TooMany, "too many"),
    (FaultKind::BadName, "bad name"),
    (FaultKind::DoubleName, "double name"),
    (FaultKind::UnknownName, "unknown name"),
    (
        FaultKind::BadItem(ItemFault::UnknownWord),
        "bad item: unknown word",
    ),
    (
        FaultKind::BadItem(ItemFault::MissingPart),
        "bad item: missing part",
    ),
    (
        FaultKind::BadItem(ItemFault::ExtraPart),
        "bad item: extra part",
    ),
    (
        FaultKind::BadItem(ItemFault::BadNumber),
        "bad item: bad number",
    ),
    (FaultKind::WaitLast, "wait is last"),
    (
        FaultKind::Control(ControlFault::ZeroBudget),
        "control: zero budget",
    ),
    (
        FaultKind::Control(ControlFault::BudgetTooSmall),
        "control: budget too small",
    ),
    (
        FaultKind::Control(ControlFault::BudgetOverPeriod),
        "control: budget over period",
    ),
    (
        FaultKind::Control(ControlFault::PeriodTooLong),
        "control: period too long",
    ),
    (
        FaultKind::Control(ControlFault::TooManyRefills),
        "control: too many refills",
    ),
    (FaultKind::ContextTaken, "context taken"),
    (FaultKind::OtherCore, "other core"),
    (FaultKind::KindChange, "kind change"),
];

#[test]
fn each_fault_of_a_file_is_told(rt: HostRuntime) -> Result<(), Fail> {
    for (kind, text) in KINDS.as_slice() {
        let fault = at(*kind, (Section::Order, 4096, Key::Context, 0));
        let line = format!(in rt.alloc(); "mcsim: {text} at order 4096 context")?;
        is_told(&rt, rt.alloc(), fault, line.as_str(), 1)?;
    }
    Ok(())
}

fn at(kind: FaultKind, (section, row, key, item): (Section, usize, Key, usize)) -> RunFault {
    let spot = Spot {
        section,
        row,
        key,
        item,
    };
    RunFault::Load(LoadFault { kind, spot })
}
