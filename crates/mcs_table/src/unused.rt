ghost use Rattle.std.specs.Prelude.{◌≡◌, ℕ, ◌<◌, List, length};
ghost use Rattle.mcs_ticks.specs.declared.row.Row.{Row as TheRow};
ghost use Rattle.mcs_control.specs.Control.{IsConfig};
ghost use Rattle.mcs_verdict.specs.Findings.{UpTo};
ghost use Rattle.mcs_verdict.specs.Watch.{watch_of};
ghost use Rattle.mcs_ticks.specs.Capped.{capped};
ghost use Rattle.mcs_table.specs.Unused.{is_ordered, most_before, ran_from, unused_of};

use mcs_control::{Config, Order};
use mcs_system::{System, SystemParts};
use mcs_ticks::{ContextId, ThreadId, Tick};
use mcs_verdict::Watch;

/// Whether an order names the context.
fn is_ordered(context: ContextId, orders: &[Order]) -> bool
    ensures { result ≡ is_ordered context orders.now }
{
    orders.iter().any(|order| order.context == context)
}

/// The maximum number of ticks that a context with this configuration can let run before the
/// horizon.
fn most_before(horizon: Tick, config: Config) -> u64
    requires { IsConfig config }
    ensures { result ≡ most_before horizon config }
{
    let horizon = horizon.get();
    config.budget * (horizon / config.period) + config.budget.min(horizon % config.period)
}

/// The ticks before the horizon that the threads of this context ran.
fn ran(parts: &SystemParts, watch: &Watch, horizon: Tick, context: ContextId) -> u64
    requires { length watch.now.accounts ≡ length parts.now.threads }
    ensures { (past : List TheRow) → watch.now ≡ watch_of parts.now past → UpTo horizon past →
        result ≡ capped (ran_from horizon past context 0 parts.now.threads) }
{
    let mut ran = 0u64;
    for (number, part) in parts.threads.as_slice().iter().enumerate() {
        if part.context == context {
            ran = ran.saturating_add(watch.stood(horizon, ThreadId(number)).running);
        }
    }
    ran
}

/// The maximum that the context can let run before the horizon, less what its threads ran. `None`
/// if an order names it.
pub(crate) fn unused(
    system: &System,
    watch: &Watch,
    horizon: Tick,
    context: ContextId,
) -> Option<u64>
    requires known { context < length system.now.contexts }
    requires watched { length watch.now.accounts ≡ length system.now.threads }
    ensures { (past : List TheRow) → watch.now ≡ watch_of system.now past → UpTo horizon past →
        result ≡ unused_of system.now horizon past context }
{
    let parts = system.parts();
    if is_ordered(context, parts.orders.as_slice()) {
        return None;
    }
    let most = most_before(horizon, parts.context(context).config);
    Some(most.saturating_sub(ran(parts, watch, horizon, context)))
}
