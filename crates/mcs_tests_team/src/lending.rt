//! Steps of a desk that lends cores and takes them back, with their results.
ghost use Rattle.std.specs.Prelude.{◌≡◌, OnOk};

use super::systems::{moment, system};
use mcs_ticks::{CoreId, Row, What};
use mcs_window::{Desk, Done, Lost, SettleFault};
use std::alloc::Global;
use std::test::Fail;

/// A step of a desk, and its result. A stretch that is lent is run at once, and kept until it comes
/// back.
#[derive(Clone, Copy)]
pub(crate) enum Step {
    /// A core is lent, from one moment to before another.
    Lends(usize, u64, u64),
    /// No core is lent.
    LendsNone,
    /// The stretch of a core was lent by these clocks of the first three cores.
    Front(usize, [u64; 3]),
    /// The numbers of signals for other cores that the stretch of a core made, and that arrived at
    /// it.
    Mail(usize, usize, usize),
    /// A core's stretch is that of a thread's first round, with this response time and end. The
    /// core's clock is the next moment.
    Round(usize, u64, u64),
    /// A core's stretch comes back.
    Settles(usize),
    /// A core's stretch is refused, and is gone.
    Refuses(usize, SettleFault),
    /// A core's stretch is given up, and is gone.
    Forfeits(usize),
}

/// Returns a desk of a system, up to a horizon.
pub(crate) fn desk(alloc: Global, text: &str, horizon: u64) -> Result<Desk, Fail> {
    let system = system(alloc, text)?;
    Ok(Desk::new(alloc, system, moment(horizon)?)?)
}

/// Whether the next core that is lent is this one, from one moment to before another.
fn lends(
    desk: &mut Desk,
    away: &mut Vec<Done>,
    core: usize,
    first: u64,
    past: u64,
) -> Result<bool, Fail>
    ensures { OnOk result (desk.new.system ≡ desk.old.system) }
{
    let Some(piece) = desk.lend() else {
        return Ok(false);
    };
    let Ok(done) = piece.run() else {
        return Err(Fail::from("no memory"));
    };
    let same = done.core == CoreId(core) && done.first.get() == first && done.past.get() == past;
    away.push(done)?;
    Ok(same)
}

/// Whether no core is lent.
pub(crate) fn lends_none(desk: &mut Desk) -> bool
    ensures { desk.new.system ≡ desk.old.system }
{
    desk.lend().is_none()
}

/// The number of arrivals in the rows.
fn arrivals(rows: &[Row]) -> usize {
    let mut many = 0usize;
    for row in rows {
        if let What::Arrive { .. } = row.what {
            many = many.saturating_add(1);
        }
    }
    many
}

/// The stretch of a core that is kept.
fn kept(away: &[Done], core: usize) -> Option<&Done> {
    for done in away {
        if done.core.0 == core {
            return Some(done);
        }
    }
    None
}

/// Takes the stretch of a core out of those that are kept.
fn taken_out(away: &mut Vec<Done>, core: usize) -> Option<Done> {
    let at = away.iter().position(|done| done.core.0 == core)?;
    Some(away.remove(at))
}

/// Why a core's stretch is refused; `None` if it comes back.
fn refusal(desk: &mut Desk, done: Done) -> Option<SettleFault>
    ensures { desk.new.system ≡ desk.old.system }
{
    match desk.settle(done) {
        Ok(()) => None,
        Err((fault, _)) => Some(fault),
    }
}

/// Whether a core's stretch comes back with this result.
pub(crate) fn settles(
    desk: &mut Desk,
    away: &mut Vec<Done>,
    core: usize,
    fault: Option<SettleFault>,
) -> Result<bool, Fail>
    ensures { OnOk result (desk.new.system ≡ desk.old.system) }
{
    let Some(done) = taken_out(away, core) else {
        return Ok(false);
    };
    match refusal(desk, done) {
        Some(SettleFault::NoMemory) => Err(Fail::from("no memory")),
        refused => Ok(refused == fault),
    }
}

/// Gives the stretch of a core up.
fn forfeits(desk: &mut Desk, away: &mut Vec<Done>, core: usize) -> bool
    ensures { desk.new.system ≡ desk.old.system }
{
    match taken_out(away, core) {
        Some(done) => {
            desk.forfeit(Lost {
                core: done.core,
                first: done.first,
                past: done.past,
            });
            true
        }
        None => false,
    }
}

/// Whether a stretch was lent by these clocks.
fn is_by(done: Option<&Done>, front: [u64; 3]) -> bool {
    match done {
        Some(done) => {
            let clocks = [
                done.front[0].get(),
                done.front[1].get(),
                done.front[2].get(),
            ];
            clocks == front && done.front[63].get() == 0
        }
        None => false,
    }
}

/// Whether a stretch made `out` signals, and `arrived` signals arrived at it.
fn has_mail(done: Option<&Done>, out: usize, arrived: usize) -> bool {
    match done {
        Some(done) => done.out.len() == out && arrivals(done.rows.as_slice()) == arrived,
        None => false,
    }
}

/// Whether a row is the end of a thread's first round, with this response time, at this moment.
fn ends_round(row: &Row, took: u64, moment: u64) -> bool {
    match row.what {
        What::Round {
            number: 1,
            response,
            ..
        } => response == took && row.moment.get() == moment,
        _ => false,
    }
}

/// Whether a stretch has four rows, with the end of a thread's first round as the third, the clock
/// one moment later, and no mail.
fn is_round(done: Option<&Done>, took: u64, moment: u64) -> bool {
    match done {
        Some(done) => {
            done.rows.len() == 4
                && ends_round(&done.rows[2], took, moment)
                && done.mail.len() == 0
                && done.state.clock().get() == moment.saturating_add(1)
        }
        None => false,
    }
}

/// Whether a step has its expected result.
fn goes(desk: &mut Desk, away: &mut Vec<Done>, step: Step) -> Result<bool, Fail>
    ensures { OnOk result (desk.new.system ≡ desk.old.system) }
{
    match step {
        Step::Lends(core, first, past) => lends(desk, away, core, first, past),
        Step::LendsNone => Ok(lends_none(desk)),
        Step::Front(core, front) => Ok(is_by(kept(away.as_slice(), core), front)),
        Step::Mail(core, out, arrived) => Ok(has_mail(kept(away.as_slice(), core), out, arrived)),
        Step::Round(core, took, moment) => {
            Ok(is_round(kept(away.as_slice(), core), took, moment))
        }
        Step::Settles(core) => settles(desk, away, core, None),
        Step::Refuses(core, fault) => settles(desk, away, core, Some(fault)),
        Step::Forfeits(core) => Ok(forfeits(desk, away, core)),
    }
}

/// The first step, counted from 0, with another result.
pub(crate) fn differs(
    desk: &mut Desk,
    away: &mut Vec<Done>,
    steps: &[Step],
) -> Result<Option<usize>, Fail> {
    for (index, step) in steps.iter().enumerate() {
        if !goes(desk, away, *step)? {
            return Ok(Some(index));
        }
    }
    Ok(None)
}

/// The first step of a new desk, counted from 0, with another result.
pub(crate) fn differs_afresh(
    alloc: Global,
    text: &str,
    horizon: u64,
    away: &mut Vec<Done>,
    steps: &[Step],
) -> Result<Option<usize>, Fail> {
    let mut desk = desk(alloc, text, horizon)?;
    differs(&mut desk, away, steps)
}

/// The first step of a new desk with another result, if no stretch is away at first.
pub(crate) fn differs_alone(
    alloc: Global,
    text: &str,
    horizon: u64,
    steps: &[Step],
) -> Result<Option<usize>, Fail> {
    let mut away = Vec::new(alloc);
    differs_afresh(alloc, text, horizon, &mut away, steps)
}
