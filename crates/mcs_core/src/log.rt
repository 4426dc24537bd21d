ghost use Rattle.std.specs.Prelude.{◌≡◌, ◌∷◌, [], OnOk};
ghost use Rattle.mcs_core.specs.stored.Parts.{Adds};

use mcs_mail::Mail;
use mcs_system::SystemParts;
use mcs_ticks::{CoreId, FlowFault, Limits, Row, Sink, Tick, What};

/// The place and time of a part of a turn: a core of a system, the delays of its signals to each
/// core, and a moment.
#[derive(Drop)]
pub(crate) struct Here<'a> {
    pub(crate) system: &'a SystemParts,
    pub(crate) core: CoreId,
    pub(crate) delays: &'a [u64; Limits::CORES],
    pub(crate) moment: Tick,
}

impl Here<'_> {
    /// A copy, for a call that is not inlined: the caller can keep a value in registers if no call
    /// has its address.
    #[inline(always)]
    pub(crate) fn copied(&self) -> Here<'_>
        ensures { result ≡ self.now }
    {
        Here {
            system: self.system,
            core: self.core,
            delays: self.delays,
            moment: self.moment,
        }
    }
}

/// The sink for the rows of turns, and the list for their signals to other cores.
#[derive(Drop)]
pub(crate) struct Log<'a, S: Sink> {
    pub(crate) sink: &'a mut S,
    pub(crate) signals: &'a mut Vec<Mail>,
}

impl<S: Sink> Log<'_, S> {
    /// Emits the row of an event here.
    #[inline(always)]
    pub(crate) fn tell(&mut self, here: &Here<'_>, what: What) -> Result<(), FlowFault>
        ensures { OnOk result (Adds S.takes here.now (what ∷ []) [] self.old self.new) }
    {
        self.sink.row(&Row {
            moment: here.moment,
            core: here.core,
            what,
        })?;
        Ok(())
    }

    /// Sends a signal to another core.
    #[inline(always)]
    pub(crate) fn send(&mut self, here: &Here<'_>, mail: Mail) -> Result<(), FlowFault>
        ensures { OnOk result (Adds S.takes here.now [] (mail ∷ []) self.old self.new) }
    {
        if self.signals.push(mail).is_err() {
            return Err(FlowFault::NoMemory);
        }
        Ok(())
    }
}
