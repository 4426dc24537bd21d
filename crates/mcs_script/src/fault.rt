ghost use Rattle.std.specs.Prelude.{Some};
ghost use Rattle.mcs_script.specs.Fault.{item_fault_text};

use std::fmt;
use thiserror::Error;

/// Why a text is not an item. If there are several faults, the first of this list is returned. Each
/// has a text (profile M).
#[derive(Clone, Copy, Debug, PartialEq, Eq, Error)]
pub enum ItemFault {
    /// The first part is not a known word, or there is no part. The words are `compute`, `signal`,
    /// `wait` and `yield`, and in version 3 also `on`, `call` and `spin`.
    UnknownWord,
    /// There are too few parts after the word.
    MissingPart,
    /// There are too many parts after the word.
    ExtraPart,
    /// A number is not written as decimal digits without a sign or a leading zero, or it is out of
    /// range.
    BadNumber,
}

impl fmt::Display for ItemFault {
    ghost output = { λ fault. Some (item_fault_text fault) };

    fn fmt<W: fmt::Write>(&self, f: &mut fmt::Formatter<W>) -> fmt::Result {
        match self {
            ItemFault::UnknownWord => f.write_str("unknown word"),
            ItemFault::MissingPart => f.write_str("missing part"),
            ItemFault::ExtraPart => f.write_str("extra part"),
            ItemFault::BadNumber => f.write_str("bad number"),
        }
    }
}
