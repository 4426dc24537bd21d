ghost use Rattle.std.specs.Prelude.{◌≡◌, ◌^◌, ◌≤◌, OnOk, None};
ghost use Rattle.mcs_ticks.specs.Queue.{by_priority};
ghost use Rattle.mcs_ticks.specs.declared.row.What.TheVariants.{Release};
ghost use Rattle.mcs_core.specs.Turn.{says, enters_back, releases};
ghost use Rattle.mcs_core.specs.stored.Parts.{Makes};
ghost use Rattle.mcs_core.specs.stored.Sound.{IsFree, IsSound};
ghost use Rattle.mcs_core.specs.stored.Sound.Phase.{PastTick};
ghost use Rattle.mcs_system.specs.WellFormed.{IsWellFormed};

use crate::local::Local;
use crate::log::{Here, Log};
use mcs_ticks::{FlowFault, Sink, ThreadId, What};

impl Local {
    /// Puts a thread that has left the release queue at the back of its ready queue.
    #[inline(always)]
    fn release<S: Sink>(
        &mut self,
        here: &Here<'_>,
        thread: ThreadId,
        log: &mut Log<'_, S>,
    ) -> Result<(), FlowFault>
        requires { IsFree here.now.system.now thread self.old }
        ensures { OnOk result
            (Makes S.takes here.now (says (Release thread) (enters_back by_priority thread None self.old))
            self.new log.old log.new) }
    {
        log.tell(here, What::Release { thread })?;
        self.enter_back(thread, None);
        Ok(())
    }

    /// Releases the threads whose date has come, in the order in which they entered the release
    /// queue.
    #[inline(always)]
    pub(crate) fn releases<S: Sink>(
        &mut self,
        here: &Here<'_>,
        log: &mut Log<'_, S>,
    ) -> Result<(), FlowFault>
        requires well_formed { IsWellFormed here.now.system.now }
        requires sound { IsSound here.now.system.now here.now.core here.now.moment PastTick None self.old }
        requires soon { here.now.moment ≤ 2 ^ 40 }
        ensures { OnOk result
            (Makes S.takes here.now (releases by_priority here.now.system.now here.now.moment self.old)
            self.new log.old log.new) }
    {
        'due: while let Some(thread) = self.take_due(here.moment) {
            self.release(here, thread, log)?;
        }
        Ok(())
    }
}
