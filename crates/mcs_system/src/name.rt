ghost use Rattle.std.specs.Prelude.{◌≡◌, ℕ, List, string_bytes};
ghost use Rattle.std.specs.List.{list_all};
ghost use Rattle.mcs_system.specs.Names.{is_name, is_name_byte};

use mcs_ticks::Limits;
use std::marker::Model;

/// The name of a context, a notification, a server, a thread, a source or a chain. Contracts see
/// its bytes.
#[derive(Debug, Drop)]
pub struct Name {
    text: String,
}

impl Model for Name {
    ghost Value = { List ℕ };

    ghost view = { λ a. string_bytes a.text };
}

impl Name {
    /// Returns the name with this text.
    pub fn new(text: String) -> Self
        ensures { result ≡ string_bytes text }
    {
        Name { text }
    }

    /// Returns its text.
    pub fn as_str(&self) -> &str
        ensures { result.now ≡ self.now }
    {
        self.text.as_str()
    }

    /// Whether a text is a valid name: 1 to 32 characters of `A-Z a-z 0-9 _ -` (profile M).
    pub fn accepts(text: &str) -> bool
        ensures { result ≡ is_name text.now }
    {
        1 <= text.len() && text.len() <= Limits::NAME && are_name_bytes(text.as_bytes())
    }
}

fn is_name_byte(byte: u8) -> bool
    ensures { result ≡ is_name_byte byte }
{
    matches!(byte, b'A'..=b'Z' | b'a'..=b'z' | b'0'..=b'9' | b'_' | b'-')
}

fn are_name_bytes(bytes: &[u8]) -> bool
    ensures { result ≡ list_all is_name_byte bytes.now }
{
    bytes.iter().all(|byte| is_name_byte(*byte))
}
