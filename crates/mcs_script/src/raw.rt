ghost use Rattle.std.specs.Prelude.{◌≡◌, ◌≤◌, ◌∷◌, [], length, MatchOption, IfOk, IfErr, option_and_then};
ghost use Rattle.mcs_script.specs.Raw.{Says, parts, raw_view, number_up_to, compute_of, signal_of, wait_of, yield_of, on_of, call_of, spin_of, read_as, read_new_as};

use crate::fault::ItemFault;

/// An item of a script as written, with names instead of numbers.
#[derive(Clone, Copy, Debug, PartialEq, Eq)]
pub enum RawItem<'a> {
    /// `compute N`: run for `N` ticks, 1 to 2^40.
    Compute(u64),
    /// `signal NOTE BADGE`: post the badge, 1 to 2^32 - 1, to the notification.
    Signal(&'a str, u32),
    /// `wait NOTE`: wait on the notification.
    Wait(&'a str),
    /// `yield`: give up the rest of the head refill, or of the time slice.
    Yield,
    /// `on BADGES`: begin a handler of these badges, 1 to 2^32 - 1.
    On(u32),
    /// `call SERVER BADGE`: call the server, which identifies the caller by this badge, 1 to 2^32 -
    /// 1.
    Call(&'a str, u32),
    /// `spin`: run without end.
    Spin,
}

/// Returns the item of a text, or the first fault in the order of [`ItemFault`]. The text is split
/// at spaces (only U+0020; a tab belongs to a part). Spaces before the first part and after the
/// last are ignored. Allocates no memory.
pub fn read_item(text: &str) -> Result<RawItem<'_>, ItemFault>
    ensures { Says raw_view result (read_as text.now) }
{
    let Some((word, rest)) = next_part(text) else {
        return Err(ItemFault::UnknownWord);
    };
    match word {
        "compute" => read_compute(rest),
        "signal" => read_signal(rest),
        "wait" => read_wait(rest),
        "yield" => read_yield(rest),
        _ => Err(ItemFault::UnknownWord),
    }
}

/// Returns the item of a text as [`read_item`] does, also with the words of version 3: `on`, `call`
/// and `spin`.
pub fn read_new_item(text: &str) -> Result<RawItem<'_>, ItemFault>
    ensures { Says raw_view result (read_new_as text.now) }
{
    let Some((word, rest)) = next_part(text) else {
        return Err(ItemFault::UnknownWord);
    };
    match word {
        "on" => read_on(rest),
        "call" => read_call(rest),
        "spin" => read_spin(rest),
        _ => read_item(text),
    }
}

fn read_on(rest: &str) -> Result<RawItem<'_>, ItemFault>
    ensures { Says raw_view result (on_of (parts rest.now)) }
{
    let Some((badges, rest)) = next_part(rest) else {
        return Err(ItemFault::MissingPart);
    };
    if next_part(rest).is_some() {
        return Err(ItemFault::ExtraPart);
    }
    match number_up_to(u32::MAX as u64, badges) {
        Some(badges) => Ok(RawItem::On(badges as u32)),
        None => Err(ItemFault::BadNumber),
    }
}

fn read_call(rest: &str) -> Result<RawItem<'_>, ItemFault>
    ensures { Says raw_view result (call_of (parts rest.now)) }
{
    let Some((server, rest)) = next_part(rest) else {
        return Err(ItemFault::MissingPart);
    };
    let Some((badge, rest)) = next_part(rest) else {
        return Err(ItemFault::MissingPart);
    };
    if next_part(rest).is_some() {
        return Err(ItemFault::ExtraPart);
    }
    match number_up_to(u32::MAX as u64, badge) {
        Some(badge) => Ok(RawItem::Call(server, badge as u32)),
        None => Err(ItemFault::BadNumber),
    }
}

fn read_spin(rest: &str) -> Result<RawItem<'_>, ItemFault>
    ensures { Says raw_view result (spin_of (parts rest.now)) }
{
    if next_part(rest).is_some() {
        return Err(ItemFault::ExtraPart);
    }
    Ok(RawItem::Spin)
}

fn read_compute(rest: &str) -> Result<RawItem<'_>, ItemFault>
    ensures { Says raw_view result (compute_of (parts rest.now)) }
{
    let Some((ticks, rest)) = next_part(rest) else {
        return Err(ItemFault::MissingPart);
    };
    if next_part(rest).is_some() {
        return Err(ItemFault::ExtraPart);
    }
    match number_up_to(1 << 40, ticks) {
        Some(ticks) => Ok(RawItem::Compute(ticks)),
        None => Err(ItemFault::BadNumber),
    }
}

fn read_signal(rest: &str) -> Result<RawItem<'_>, ItemFault>
    ensures { Says raw_view result (signal_of (parts rest.now)) }
{
    let Some((note, rest)) = next_part(rest) else {
        return Err(ItemFault::MissingPart);
    };
    let Some((badge, rest)) = next_part(rest) else {
        return Err(ItemFault::MissingPart);
    };
    if next_part(rest).is_some() {
        return Err(ItemFault::ExtraPart);
    }
    match number_up_to(u32::MAX as u64, badge) {
        Some(badge) => Ok(RawItem::Signal(note, badge as u32)),
        None => Err(ItemFault::BadNumber),
    }
}

fn read_wait(rest: &str) -> Result<RawItem<'_>, ItemFault>
    ensures { Says raw_view result (wait_of (parts rest.now)) }
{
    let Some((note, rest)) = next_part(rest) else {
        return Err(ItemFault::MissingPart);
    };
    if next_part(rest).is_some() {
        return Err(ItemFault::ExtraPart);
    }
    Ok(RawItem::Wait(note))
}

fn read_yield(rest: &str) -> Result<RawItem<'_>, ItemFault>
    ensures { Says raw_view result (yield_of (parts rest.now)) }
{
    if next_part(rest).is_some() {
        return Err(ItemFault::ExtraPart);
    }
    Ok(RawItem::Yield)
}

/// Returns the first part of a text and the rest after it, or `None` if there is no part.
fn next_part(text: &str) -> Option<(&str, &str)>
    ensures { MatchOption result (parts text.now ≡ []) (λ found. parts text.now ≡ found.0.now ∷ parts found.1.now) }
{
    let mut rest = text;
    while let Some((part, behind)) = rest.split_once(' ') {
        if !part.is_empty() {
            return Some((part, behind));
        }
        rest = behind;
    }
    if rest.is_empty() {
        None
    } else {
        Some((rest, ""))
    }
}

/// Returns the number of decimal digits without a leading zero, if it is from 1 to `most`.
fn number_up_to(most: u64, digits: &str) -> Option<u64>
    ensures { result ≡ number_up_to most digits.now }
{
    if digits.starts_with('0') || digits.starts_with('+') {
        return None;
    }
    let Ok(number) = digits.parse::<u64>() else {
        return None;
    };
    if 1 <= number && number <= most {
        Some(number)
    } else {
        None
    }
}
