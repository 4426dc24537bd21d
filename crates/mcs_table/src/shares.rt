ghost use Rattle.std.specs.Prelude.{◌≡◌, ℕ, ◌≤◌, ◌^◌};
ghost use Rattle.mcs_control.specs.Control.{IsConfig};
ghost use Rattle.mcs_table.specs.Shares.{millionths, share_of};

use crate::Share;
use mcs_control::Config;
use mcs_ticks::Tick;

/// A part of a whole in ppm. It does not wrap if the part is at most 2^42.
fn millionths(part: u64, whole: u64) -> u64
    ensures { part ≤ 2 ^ 42 → result ≡ millionths part whole }
{
    part.wrapping_mul(1_000_000).checked_div(whole).unwrap_or(0)
}

/// The share of a context with this configuration, whose thread ran for `running` ticks.
pub(crate) fn share(config: Config, horizon: Tick, running: u64) -> Share
    requires { IsConfig config }
    ensures { running ≤ 2 ^ 42 → result ≡ share_of config horizon running }
{
    Share {
        budget: config.budget,
        period: config.period,
        granted: millionths(config.budget, config.period),
        used: millionths(running, horizon.get()),
    }
}
