//! The rows of a schedule as numbers, in an array of the caller.
ghost use Rattle.std.specs.Prelude.{◌≡◌, ◌≤◌, ◌<◌, ◌+◌, ◌^◌, ◌⊎◌, ◌↔◌, Ok, Err, length, map, take, drop};
ghost use Rattle.mcs_core.specs.Clock.{schedule};
ghost use Rattle.mcs_load.specs.declared.fault.LoadFault.{LoadFault};
ghost use Rattle.mcs_cli.specs.Run.{loaded};
ghost use Rattle.mcs_system.specs.System.{System as TheSystem};
ghost use Rattle.mcs_c.specs.Numbers.{numbers_of, number_or_none, reason, IsCutBefore};

use crate::first::first_rows;
use mcs_load::{FaultKind, load};
use mcs_ticks::{NoteId, Row, ThreadId, Tick, What, Why};
use std::alloc::Global;

/// Stands for a number that a row does not have.
pub(crate) const NONE: u64 = u64::MAX;

/// A row of a schedule in numbers, as C has it. Threads, contexts, notes and sources are numbered
/// from 0, each in the order of the file. The servers follow the notifications.
#[repr(C)]
#[derive(Clone, Copy, Debug, PartialEq, Eq)]
pub struct NumberedRow {
    /// The time, in ticks.
    pub moment: u64,
    pub core: u64,
    /// 0 release, 1 run, 2 stop, 3 signal, 4 arrive, 5 wake, 6 hold, 7 got, 8 round, 9 order, 10
    /// interrupt.
    pub kind: u64,
    /// The thread; of `order` the context, of `interrupt` the source, of `arrive` the core that
    /// made the signal; `NONE` of `hold`.
    pub part: u64,
    /// The notification or server of kinds 3 to 7 and 10; `NONE` of the others.
    pub note: u64,
    /// Why a thread stops: 0 spent, 1 yield, 2 wait, 3 call, 4 done, 5 preempt, 6 order; `NONE` of
    /// other kinds than `stop`.
    pub why: u64,
    /// The badge of `signal`, `arrive` and `interrupt`, the word of `wake`, `hold` and `got`, what
    /// `stop` charges, the number of `round`; 0 of the others.
    pub value: u64,
    /// The date of the replenishment for which the thread of `stop` or `wake` waits, or `NONE`; the
    /// response of `round`; 0 of the others.
    pub more: u64,
}

/// A row that has a part alone.
fn plain(row: &Row, kind: u64, part: u64) -> NumberedRow
    ensures { result ≡ record { moment = row.now.moment; core = row.now.core; kind = kind; part = part; note = NONE; why = NONE; value = 0; more = 0 } }
{
    NumberedRow {
        moment: row.moment.get(),
        core: row.core.0 as u64,
        kind,
        part,
        note: NONE,
        why: NONE,
        value: 0,
        more: 0,
    }
}

/// A row at a notification or a server, with a badge or a word.
fn noted(row: &Row, kind: u64, part: u64, note: NoteId, value: u32) -> NumberedRow
    ensures { result ≡ record { moment = row.now.moment; core = row.now.core; kind = kind; part = part; note = note; why = NONE; value = value; more = 0 } }
{
    NumberedRow {
        note: note.0 as u64,
        value: u64::from(value),
        ..plain(row, kind, part)
    }
}

fn reason(why: Why) -> u64
    ensures { result ≡ reason why }
{
    match why {
        Why::Spent => 0,
        Why::Yield => 1,
        Why::Wait => 2,
        Why::Call => 3,
        Why::Done => 4,
        Why::Preempt => 5,
        Why::Order => 6,
    }
}

fn number_or_none(moment: Option<Tick>) -> u64
    ensures { result ≡ number_or_none moment }
{
    match moment {
        Some(moment) => moment.get(),
        None => NONE,
    }
}

/// The row of a thread that stops.
fn stopped(row: &Row, thread: ThreadId, why: Why, charged: u64, until: Option<Tick>) -> NumberedRow
    ensures { result ≡ record { moment = row.now.moment; core = row.now.core; kind = 2; part = thread; note = NONE; why = reason why; value = charged; more = number_or_none until } }
{
    NumberedRow {
        why: reason(why),
        value: charged,
        more: number_or_none(until),
        ..plain(row, 2, thread.0 as u64)
    }
}

/// A row in numbers.
fn in_numbers(row: &Row) -> NumberedRow
    ensures { result ≡ numbers_of row.now }
{
    match row.what {
        What::Release { thread } => plain(row, 0, thread.0 as u64),
        What::Run { thread } => plain(row, 1, thread.0 as u64),
        What::Stop {
            thread,
            why,
            charged,
            until,
        } => stopped(row, thread, why, charged, until),
        What::Signal {
            thread,
            note,
            badge,
        } => noted(row, 3, thread.0 as u64, note, badge),
        What::Arrive { note, badge, maker } => noted(row, 4, maker.0 as u64, note, badge),
        What::Wake {
            thread,
            note,
            word,
            until,
        } => NumberedRow {
            more: number_or_none(until),
            ..noted(row, 5, thread.0 as u64, note, word)
        },
        What::Hold { note, word } => noted(row, 6, NONE, note, word),
        What::Got { thread, note, word } => noted(row, 7, thread.0 as u64, note, word),
        What::Round {
            thread,
            number,
            response,
        } => NumberedRow {
            value: number,
            more: response,
            ..plain(row, 8, thread.0 as u64)
        },
        What::Order { context } => plain(row, 9, context.0 as u64),
        What::Interrupt {
            source,
            note,
            badge,
        } => noted(row, 10, source.0 as u64, note, badge),
    }
}

/// Writes rows to the start of an array.
fn fill(all: &[Row], rows: &mut [NumberedRow])
    requires { length all.now ≤ length rows.old }
    ensures filled { take (length all.now) rows.new ≡ map numbers_of all.now }
    ensures behind { drop (length all.now) rows.new ≡ drop (length all.now) rows.old }
{
    for (i, row) in all.iter().enumerate() {
        rows[i] = in_numbers(row);
    }
}

/// Simulates the system that a text describes, up to a horizon of at most 2^40 ticks, on the
/// calling thread only, and writes the first rows of its schedule to the start of an array, as many
/// as fit. If they do not all fit, the simulation ends soon after the first one that does not.
///
/// `many_of` is the number of rows written. All rows before the time `whole_before` are among them.
/// Later rows of the array stay as they were. The result is one of these codes:
/// - 0: all rows. `whole_before` is one tick above the horizon.
/// - 1: the text is not a system. No row.
/// - 3: the horizon is invalid. No row.
/// - 4: out of memory. No row.
/// - 7: the array is full. `whole_before` is the time of the first row that is missing.
#[unsafe(no_mangle)]
pub extern "C" fn mcs_rows(
    alloc: Global,
    text: &[u8],
    horizon: u64,
    rows: &mut [NumberedRow],
    many_of: &mut usize,
    whole_before: &mut u64,
) -> u32
    ensures all { result ≡ 0 → (system : TheSystem) × (loaded text.now ≡ Ok system) × (whole_before.new ≡ horizon + 1)
        × (take many_of.new rows.new ≡ map numbers_of (schedule system horizon)) }
    ensures part { result ≡ 7 → (many_of.new ≡ length rows.new)
        × (system : TheSystem) × (loaded text.now ≡ Ok system) × IsCutBefore (schedule system horizon) rows.new whole_before.new }
    ensures fault { result ≡ 1 → (f : LoadFault) × (loaded text.now ≡ Err f) }
    ensures wrong { (result ≡ 3) ↔ (2 ^ 40 < horizon) }
    ensures codes { (result ≤ 1) ⊎ ((result ≡ 3) ⊎ ((result ≡ 4) ⊎ (result ≡ 7))) }
    ensures fits { many_of.new ≤ length rows.new }
    ensures behind { drop many_of.new rows.new ≡ drop many_of.new rows.old }
    ensures nothing { ((result ≡ 1) ⊎ ((result ≡ 3) ⊎ (result ≡ 4))) → (many_of.new ≡ 0) × (whole_before.new ≡ 0) }
    ensures length { length rows.new ≡ length rows.old }
{
    *many_of = 0;
    *whole_before = 0;
    let Some(until) = Tick::new(horizon) else {
        return 3;
    };
    if horizon > 1 << 40 {
        return 3;
    }
    let system = match load(alloc, text) {
        Ok(system) => system,
        Err(fault) if fault.kind == FaultKind::NoMemory => return 4,
        Err(_) => return 1,
    };
    let Ok(first) = first_rows(alloc, system, until, rows.len()) else {
        return 4;
    };
    *many_of = first.rows.len();
    fill(first.rows.as_slice(), rows);
    match first.next {
        Some(next) => {
            *whole_before = next.get();
            7
        }
        None => {
            *whole_before = horizon + 1;
            0
        }
    }
}
