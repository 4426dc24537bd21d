ghost use Rattle.std.specs.Prelude.{◌≡◌, ℕ, ◌<◌, ◌≤◌, ◌^◌, All, slice_index};
ghost use Rattle.mcs_system.specs.System.{delay_by_link, delay_between, IsLeastDelay};
ghost use Rattle.mcs_system.specs.stored.Delays.{AreDelays, IsLeastAmong, To};

use crate::{Link, System};
use mcs_ticks::{CoreId, Limits};

/// Number of pairs of cores, including a core with itself.
const PAIRS: usize = Limits::CORES * Limits::CORES;

/// Returns the delays from `maker` to each core. If a pair has several links, the first counts; it
/// is therefore written last.
fn row_from(links: &[Link], delay: u64, maker: CoreId) -> [u64; Limits::CORES]
    requires { All (λ link. link.home < 64) links.now }
    ensures { (home : ℕ) → home < 64 → slice_index result home ≡ delay_by_link links.now maker home delay }
{
    let mut delays = [delay; Limits::CORES];
    for i in (0..links.len()).rev() {
        let link = links[i];
        if link.maker == maker {
            delays[link.home.0] = link.delay;
        }
    }
    delays
}

fn row_to(links: &[Link], delay: u64, home: CoreId) -> [u64; Limits::CORES]
    requires { All (λ link. link.maker < 64) links.now }
    ensures { (maker : ℕ) → maker < 64 → slice_index result maker ≡ delay_by_link links.now maker home delay }
{
    let mut delays = [delay; Limits::CORES];
    for i in (0..links.len()).rev() {
        let link = links[i];
        if link.home == home {
            delays[link.maker.0] = link.delay;
        }
    }
    delays
}

/// Returns the delays between all cores: the pair (maker, home) is at index maker * 64 + home.
fn table_of(links: &[Link], delay: u64) -> [u64; PAIRS]
    requires { All (λ link. (link.maker < 64) × (link.home < 64)) links.now }
    ensures { AreDelays links.now delay result }
{
    let mut delays = [delay; PAIRS];
    for i in (0..links.len()).rev() {
        let link = links[i];
        delays[link.maker.0 * Limits::CORES + link.home.0] = link.delay;
    }
    delays
}

impl System {
    /// Returns the delays, in ticks, of signals from this core to each core, by core. Each call
    /// passes once over the links.
    pub fn delays_from(&self, maker: CoreId) -> [u64; Limits::CORES]
        ensures { (home : ℕ) → home < 64 → slice_index result home ≡ delay_between self.now maker home }
    {
        let parts = self.parts();
        row_from(parts.links.as_slice(), parts.delay, maker)
    }

    /// Returns the delays, in ticks, of signals from each core to this one, by core. Each call
    /// passes once over the links.
    pub fn delays_to(&self, home: CoreId) -> [u64; Limits::CORES]
        ensures { (maker : ℕ) → maker < 64 → slice_index result maker ≡ delay_between self.now maker home }
    {
        let parts = self.parts();
        row_to(parts.links.as_slice(), parts.delay, home)
    }

    /// Returns the minimum delay from this core to the others, capped at 2^20.
    fn least_from(&self, delays: &[u64; PAIRS], maker: usize) -> u64
        requires known { maker < self.now.cores }
        requires delays { AreDelays self.now.links self.now.delay delays.now }
        ensures { IsLeastAmong self.now (To maker self.now.cores) result }
    {
        let mut least = Limits::DELAY;
        for home in 0..self.parts().cores {
            let delay = delays[maker * Limits::CORES + home];
            if home != maker && delay < least {
                least = delay;
            }
        }
        least
    }

    /// Returns the minimum delay between two different cores, in ticks; 2^20, the maximum delay, if
    /// there is one core. Each call passes once over the links and once over the pairs of cores.
    pub fn least_delay(&self) -> u64
        ensures least { IsLeastDelay self.now result }
        ensures range { (1 ≤ result) × (result ≤ 2 ^ 20) }
    {
        let parts = self.parts();
        let delays = table_of(parts.links.as_slice(), parts.delay);
        let mut least = Limits::DELAY;
        for maker in 0..parts.cores {
            let row = self.least_from(&delays, maker);
            if row < least {
                least = row;
            }
        }
        least
    }
}
