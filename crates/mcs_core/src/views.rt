ghost use Rattle.std.specs.Prelude.{◌≡◌, ◌<◌, length, IfOk, IfSome};
ghost use Rattle.mcs_core.specs.Views.{using_of, views_of};

use crate::local::Local;
use mcs_control::ContextView;
use mcs_system::SystemParts;
use mcs_ticks::{ContextId, NoMemory};
use std::alloc::Global;

impl Local {
    /// The ticks in use of a context: those of the running thread, if it is bound to this context.
    fn in_use(&self, system: &SystemParts, context: ContextId) -> u64
        requires { IfSome self.now.running (λ chosen. chosen.thread < length system.now.threads) }
        ensures { result ≡ using_of system.now context self.now.running }
    {
        match self.running() {
            Some(chosen) if system.thread(chosen.thread).context == context => chosen.using,
            _ => 0,
        }
    }

    /// The views of the core's contexts, in file order.
    pub(crate) fn views(
        &self,
        alloc: Global,
        system: &SystemParts,
    ) -> Result<Vec<ContextView>, NoMemory>
        requires contexts { length self.now.contexts ≡ length system.now.contexts }
        requires running { IfSome self.now.running (λ chosen. chosen.thread < length system.now.threads) }
        ensures { IfOk result (λ views. views.items ≡ views_of system.now self.now) }
    {
        let mut views = Vec::new(alloc);
        for k in 0..system.contexts.len() {
            let context = ContextId(k);
            let in_use = self.in_use(system, context);
            if let Some(view) = self.view_context(alloc, context, in_use)? {
                views.push(view)?;
            }
        }
        Ok(views)
    }
}
