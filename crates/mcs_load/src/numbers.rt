//! The numbers at the top of a file.
ghost use Rattle.std.specs.Prelude.{◌≡◌, ◌≤◌, ◌^◌};

use mcs_ticks::Tick;

/// The numbers at the top of a file.
#[derive(Clone, Copy)]
pub(crate) struct Numbers {
    pub cores: u64,
    pub delay: u64,
    pub call: u64,
    pub min_budget: u64,
}

/// Returns the tick with this number.
pub(crate) fn moment(ticks: u64) -> Tick
    requires { ticks ≤ 2 ^ 41 }
    ensures { result ≡ ticks }
{
    Tick::new(ticks).unwrap()
}
