//! Places of faults: a section and a row of it.
ghost use Rattle.std.specs.Prelude.{◌≡◌};

use crate::fault::{FaultKind, LoadFault};
use crate::spot::{Key, Section, Spot};

/// A row of a section, from 1. Row 0 is the section as a whole.
#[derive(Clone, Copy, Debug, PartialEq, Eq)]
pub(crate) struct At {
    pub section: Section,
    pub row: usize,
}

impl At {
    /// Returns the section as a whole.
    pub(crate) fn array(section: Section) -> Self
        ensures { result ≡ record { section = section; row = 0 } }
    {
        At { section, row: 0 }
    }

    /// Returns a fault at a key of the row.
    pub(crate) fn fault(self, key: Key, kind: FaultKind) -> LoadFault
        ensures { result
            ≡ record { kind = kind; spot = record { section = self.section; row = self.row; key = key; item = 0 } } }
    {
        self.item_fault(key, 0, kind)
    }

    /// Returns a fault at an item, from 1, of the array at a key of the row.
    pub(crate) fn item_fault(self, key: Key, item: usize, kind: FaultKind) -> LoadFault
        ensures { result
            ≡ record { kind = kind; spot = record { section = self.section; row = self.row; key = key; item = item } } }
    {
        let spot = Spot {
            section: self.section,
            row: self.row,
            key,
            item,
        };
        LoadFault { kind, spot }
    }
}
