//! A name in a block of fixed size.
ghost use Rattle.std.specs.Prelude.{◌≡◌, ◌≤◌, [], length, take};

use std::marker::Model;

/// A name of at most 32 bytes, in a block that is copied as a whole. Contracts see the name.
#[derive(Debug, Drop)]
pub(crate) struct Name {
    block: [u8; 32],
    len: usize,
}

impl Model for Name {
    ghost use Rattle.std.specs.Prelude.{◌≤◌, List, ℕ, take};

    ghost Value = { List ℕ };

    ghost view = { λ a. take a.len a.block };

    ghost invariant = { λ a. a.len ≤ 32 };
}

impl Name {
    /// Bytes of a block.
    pub(crate) const BLOCK: usize = 32;

    pub(crate) fn new(name: &str) -> Name
        requires { length name.now ≤ 32 }
        ensures { result ≡ name.now }
    {
        let mut block = [0; 32];
        let len = name.len();
        block[..len].copy_from_slice(name.as_bytes());
        Name { block, len }
    }

    /// Length in bytes, at most 32.
    pub(crate) fn len(&self) -> usize
        ensures length { result ≡ length self.now }
        ensures short { result ≤ 32 }
    {
        self.len
    }

    /// The block. Its first bytes are the name.
    #[inline(always)]
    pub(crate) fn block(&self) -> &[u8; 32]
        ensures { take (length self.now) result.now ≡ self.now }
    {
        &self.block
    }
}
