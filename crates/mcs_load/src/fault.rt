//! Faults of a file, and their texts.
ghost use Rattle.std.specs.Prelude.{◌≡◌, Some};
ghost use Rattle.mcs_load.specs.Text.{kind_text, load_fault_text};

use crate::spot::{Key, Section, Spot};
use mcs_control::ControlFault;
use mcs_script::ItemFault;
use std::alloc::{AllocError, AllocFailed};
use std::fmt;
use thiserror::Error;

/// The kind of a fault in a file. Each kind has its own text (profile M).
#[derive(Clone, Copy, Debug, PartialEq, Eq, Error)]
pub enum FaultKind {
    /// The bytes are not TOML text in UTF-8.
    NotToml,
    /// A key that the format does not list.
    UnknownKey,
    /// A required key is absent.
    MissingKey,
    /// A value of another type than the key's.
    WrongKind,
    /// A number outside its range, a text that names no mode, an empty script, or an `at` that does
    /// not rise.
    OutOfRange,
    /// More than 4,096 rows, more than 1,024 items, steps or numbers of `at`, or more than 4,096
    /// numbers of all sources.
    TooMany,
    /// A text that is not 1 to 32 characters of `A-Z a-z 0-9 _ -`.
    BadName,
    /// A name that an earlier row of the array has, or a server's name that a notification has.
    DoubleName,
    /// A name of nothing that may be named there.
    UnknownName,
    /// A text that is no item of a script.
    BadItem(ItemFault),
    /// A wait at the end of a script or directly before a handler. The first of several items may
    /// be one.
    WaitLast,
    /// A configuration that SchedControl refuses.
    Control(ControlFault),
    /// A context that an earlier thread has.
    ContextTaken,
    /// A wait on another core's notification, a call of another core's server, or an order through
    /// another core's SchedControl capability.
    OtherCore,
    /// An order that makes a context round robin, or makes a round robin context sporadic.
    KindChange,
    /// A link from a core to itself.
    SelfLink,
    /// A link of a pair of cores that an earlier link has.
    DoubleLink,
    /// Bandwidth mode for a round robin context.
    ModeOfSlice,
    /// A handler in a script whose first item is not a wait.
    OnWithoutWait,
    /// A chain to a thread that never waits, or a chain with badges to a thread whose first item is
    /// not a wait.
    NoWait,
    /// Out of memory.
    NoMemory,
}

impl fmt::Display for FaultKind {
    ghost output = { λ kind. Some (kind_text kind) };

    fn fmt<W: fmt::Write>(&self, f: &mut fmt::Formatter<W>) -> fmt::Result {
        match self {
            FaultKind::NotToml => f.write_str("not TOML"),
            FaultKind::UnknownKey => f.write_str("unknown key"),
            FaultKind::MissingKey => f.write_str("missing key"),
            FaultKind::WrongKind => f.write_str("wrong kind"),
            FaultKind::OutOfRange => f.write_str("out of range"),
            FaultKind::TooMany => f.write_str("too many"),
            FaultKind::BadName => f.write_str("bad name"),
            FaultKind::DoubleName => f.write_str("double name"),
            FaultKind::UnknownName => f.write_str("unknown name"),
            FaultKind::BadItem(fault) => write!(f, "bad item: {fault}"),
            FaultKind::WaitLast => f.write_str("wait is last"),
            FaultKind::Control(fault) => write!(f, "control: {fault}"),
            FaultKind::ContextTaken => f.write_str("context taken"),
            FaultKind::OtherCore => f.write_str("other core"),
            FaultKind::KindChange => f.write_str("kind change"),
            FaultKind::SelfLink => f.write_str("self link"),
            FaultKind::DoubleLink => f.write_str("double link"),
            FaultKind::ModeOfSlice => f.write_str("mode of slice"),
            FaultKind::OnWithoutWait => f.write_str("on without wait"),
            FaultKind::NoWait => f.write_str("no wait"),
            FaultKind::NoMemory => f.write_str("no memory"),
        }
    }
}

/// The first fault of a file, and its place. Its text is `<fault> at <place>`, or only `no memory`.
#[derive(Clone, Copy, Debug, PartialEq, Eq, Error)]
pub struct LoadFault {
    pub kind: FaultKind,
    pub spot: Spot,
}

impl LoadFault {
    pub(crate) const NO_MEMORY: LoadFault = LoadFault {
        kind: FaultKind::NoMemory,
        spot: LoadFault::FILE,
    };

    pub(crate) const NOT_TOML: LoadFault = LoadFault {
        kind: FaultKind::NotToml,
        spot: LoadFault::FILE,
    };

    const FILE: Spot = Spot {
        section: Section::File,
        row: 0,
        key: Key::Whole,
        item: 0,
    };
}

impl fmt::Display for LoadFault {
    ghost output = { λ fault. Some (load_fault_text fault) };

    fn fmt<W: fmt::Write>(&self, f: &mut fmt::Formatter<W>) -> fmt::Result {
        let LoadFault { kind, spot } = *self;
        match kind {
            FaultKind::NoMemory => write!(f, "{kind}"),
            _ => write!(f, "{kind} at {spot}"),
        }
    }
}

impl From<AllocError> for LoadFault {
    ghost use Rattle.mcs_load.specs.Memory.{no_memory};

    ghost from_gives = { λ _ fault. fault ≡ no_memory };

    fn from(_refusal: AllocError) -> Self {
        LoadFault::NO_MEMORY
    }
}

impl<T: Drop> From<AllocFailed<T>> for LoadFault {
    ghost use Rattle.mcs_load.specs.Memory.{no_memory};

    ghost from_gives = { λ _ fault. fault ≡ no_memory };

    fn from(_refusal: AllocFailed<T>) -> Self {
        LoadFault::NO_MEMORY
    }
}
