//! How near a name is to another, for a name that is not known.
ghost use Rattle.std.specs.Prelude.{◌≡◌, IfOk, option_map};
ghost use Rattle.mcs_check_run.specs.Names.{is_short, nearer};

use mcs_ticks::Limits;
use std::alloc::{AllocError, Global};
use strsim::levenshtein;

/// Returns whether a text may be a misspelt name: it has at most 64 bytes, since names have at most
/// 32.
pub fn is_short(text: &str) -> bool
    ensures { result ≡ is_short text.now }
{
    text.len() <= 2 * Limits::NAME
}

/// Returns which of two names is nearer to `name`: `near` if both are as near, `other` if there is
/// no `near`. The distance is that of `levenshtein`.
pub fn nearer<'a>(
    alloc: Global,
    name: &str,
    near: Option<&'a str>,
    other: &'a str,
) -> Result<&'a str, AllocError>
    ensures { IfOk result (λ r. r.now ≡ nearer name.now (option_map (λ n. n.now) near.entry) other.now) }
{
    let Some(near) = near else {
        return Ok(other);
    };
    let is_nearer = levenshtein(alloc, name, other)? < levenshtein(alloc, name, near)?;
    Ok(if is_nearer { other } else { near })
}
