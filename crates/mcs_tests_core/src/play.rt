//! A core that runs with mail put into its box by hand, and what it makes.
ghost use Rattle.std.specs.Prelude.{◌≡◌, ◌+◌, ◌^◌, ◌≤◌, IsTrue, All, IfOk, OnOk};
ghost use Rattle.mcs_core.specs.State.{Fits, IsExpected};

use mcs_core::CoreState;
use mcs_mail::{Mail, Mailbox};
use mcs_system::System;
use mcs_ticks::{CoreId, NoMemory, NoteId, Row, Tick};
use std::alloc::Global;
use std::test::Fail;

/// A signal under way: the times at which it arrives and was made, its maker, and its badge. Its
/// notification is the first of the system.
#[derive(Clone, Copy)]
pub struct Letter(pub u64, pub u64, pub usize, pub u32);

impl Letter {
    pub(crate) fn mail(&self) -> Result<Mail, Fail> {
        let Letter(arrives, made, maker, badge) = *self;
        Ok(Mail {
            arrives: moment(arrives)?,
            made: moment(made)?,
            maker: CoreId(maker),
            note: NoteId(0),
            badge,
        })
    }
}

/// The results of the turns of a core: rows, signals for other cores, and the amount of mail left
/// in its box.
#[derive(Drop)]
pub struct Made {
    pub rows: Vec<Row>,
    pub signals: Vec<Mail>,
    pub left: usize,
}

/// Returns a moment of a run, or the one after the last.
pub(crate) fn moment(ticks: u64) -> Result<Tick, Fail>
    ensures { IfOk result (λ moment. moment ≤ 2 ^ 40 + 1) }
{
    let moment = Tick::new(ticks).ok_or("a moment")?;
    if moment.get() > 1_099_511_627_777 {
        return Err(Fail::from("a moment of a run"));
    }
    Ok(moment)
}

/// Returns the core before its first turn.
pub(crate) fn opened(alloc: Global, system: &System, core: CoreId) -> Result<CoreState, Fail>
    ensures fits { IfOk result (λ state. Fits system.now state) }
    ensures number { IfOk result (λ state. state.number ≡ core) }
{
    if core.0 >= system.parts().cores {
        return Err(Fail::from("a core"));
    }
    Ok(CoreState::new(alloc, system, core)?)
}

/// Whether the mail is for the core, and does not arrive before its clock.
fn is_expected(system: &System, state: &CoreState, core: CoreId, mail: &Mail) -> bool
    requires { state.now.number ≡ core }
    ensures { IsTrue result → IsExpected system.now state.now mail.now }
{
    match system.parts().notes.as_slice().get(mail.note.0) {
        Some(note) => note.core == core && state.clock() <= mail.arrives,
        None => false,
    }
}

fn post(system: &System, state: &CoreState, mailbox: &mut Mailbox, mail: Mail) -> Result<(), Fail>
    requires it { IsExpected system.now state.now mail }
    requires others { All (IsExpected system.now state.now) mailbox.old.mails }
    ensures { OnOk result (All (IsExpected system.now state.now) mailbox.new.mails) }
{
    mailbox.put(mail)?;
    Ok(())
}

/// Returns the box of a core with these letters.
pub(crate) fn posted(
    alloc: Global,
    system: &System,
    state: &CoreState,
    core: CoreId,
    letters: &[Letter],
) -> Result<Mailbox, Fail>
    requires { state.now.number ≡ core }
    ensures { IfOk result (λ mailbox. All (IsExpected system.now state.now) mailbox.mails) }
{
    let mut mailbox = Mailbox::new(alloc);
    for letter in letters {
        let mail = letter.mail()?;
        if !is_expected(system, state, core, &mail) {
            return Err(Fail::from("mail for the core"));
        }
        post(system, state, &mut mailbox, mail)?;
    }
    Ok(mailbox)
}

/// Takes the turns up to a moment. The core and its box can be used afterwards.
pub(crate) fn go_on(
    system: &System,
    state: &mut CoreState,
    mailbox: &mut Mailbox,
    to: Tick,
    made: &mut Made,
) -> Result<(), NoMemory>
    requires fits { Fits system.now state.old }
    requires in_time { to ≤ 2 ^ 40 + 1 }
    requires expected { All (IsExpected system.now state.old) mailbox.old.mails }
    ensures fits { Fits system.now state.new }
    ensures expected { OnOk result (All (IsExpected system.now state.new) mailbox.new.mails) }
{
    state.run(system, mailbox, to, &mut made.rows, &mut made.signals)?;
    made.left = mailbox.len();
    Ok(())
}

/// Takes the turns up to a moment, or to the end of the one with which there are `most` rows. The
/// core and its box can be used afterwards.
pub(crate) fn go_on_some(
    system: &System,
    state: &mut CoreState,
    mailbox: &mut Mailbox,
    to: Tick,
    most: usize,
    made: &mut Made,
) -> Result<(), NoMemory>
    requires fits { Fits system.now state.old }
    requires in_time { to ≤ 2 ^ 40 + 1 }
    requires expected { All (IsExpected system.now state.old) mailbox.old.mails }
    ensures fits { Fits system.now state.new }
    ensures expected { OnOk result (All (IsExpected system.now state.new) mailbox.new.mails) }
{
    state.run_some(system, mailbox, to, most, &mut made.rows, &mut made.signals)?;
    made.left = mailbox.len();
    Ok(())
}

/// Returns the results of a core up to the horizon, in stretches of this many turns; the last one
/// may be shorter.
pub(crate) fn made_by(
    alloc: Global,
    system: &System,
    core: usize,
    letters: &[Letter],
    horizon: u64,
    turns: u64,
) -> Result<Made, Fail>
    requires { 1 ≤ turns }
{
    let mut state = opened(alloc, system, CoreId(core))?;
    in_stretches(
        alloc,
        system,
        &mut state,
        CoreId(core),
        letters,
        moment(horizon)?,
        turns,
    )
}

fn in_stretches(
    alloc: Global,
    system: &System,
    state: &mut CoreState,
    core: CoreId,
    letters: &[Letter],
    horizon: Tick,
    turns: u64,
) -> Result<Made, Fail>
    requires fits { Fits system.now state.old }
    requires number { state.old.number ≡ core }
    requires in_time { horizon ≤ 2 ^ 40 + 1 }
    requires some { 1 ≤ turns }
{
    let mut mailbox = posted(alloc, system, state, core, letters)?;
    let mut made = nothing(alloc);
    for number in 1..horizon.get() / turns + 2 {
        let end = number.saturating_mul(turns).min(horizon.get() + 1);
        go_on(system, state, &mut mailbox, moment(end)?, &mut made)?;
    }
    Ok(made)
}

pub(crate) fn nothing(alloc: Global) -> Made {
    Made {
        rows: Vec::new(alloc),
        signals: Vec::new(alloc),
        left: 0,
    }
}
