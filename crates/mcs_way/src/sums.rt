//! The ticks of a way, by the carriers of the interrupt.
ghost use Rattle.std.specs.Prelude.{◌≡◌, ◌∷◌, [], ◌++◌, List};
ghost use Rattle.mcs_way.specs.declared.leg.Leg.{Leg as TheLeg};
ghost use Rattle.mcs_way.specs.Sums.{delay_in, held_in, stood_in, sums_of, ticks_of};

use crate::{Carrier, Leg};
use mcs_verdict::Stood;

/// The ticks of a way, each at most 2^64 - 1.
#[derive(Clone, Copy, Debug, PartialEq, Eq)]
pub struct Sums {
    pub ticks: u64,
    /// Those in which a notification held the interrupt.
    pub held: u64,
    /// Those in which a signal with it was under way between cores.
    pub delay: u64,
    /// Those in which a thread had it, by how the thread stood.
    pub ready: u64,
    pub running: u64,
    pub throttled: u64,
    pub blocked: u64,
    pub server: u64,
}

impl Leg {
    /// How long the leg takes.
    pub fn ticks(&self) -> u64
        ensures { result ≡ ticks_of self.now }
    {
        self.to.get().saturating_sub(self.from.get())
    }

    /// How long a notification holds the interrupt.
    fn held(&self) -> u64
        ensures { result ≡ held_in self.now }
    {
        match self.carrier {
            Carrier::Note(_) => self.ticks(),
            _ => 0,
        }
    }

    /// How long a signal is under way with the interrupt.
    fn delay(&self) -> u64
        ensures { result ≡ delay_in self.now }
    {
        match self.carrier {
            Carrier::Signal(..) => self.ticks(),
            _ => 0,
        }
    }

    /// How the leg's thread stood.
    fn stood(&self) -> Stood
        ensures { result ≡ stood_in self.now }
    {
        match self.carrier {
            Carrier::Thread(_, stood) => stood,
            _ => Stood::new(),
        }
    }
}

impl Sums {
    /// No legs.
    fn new() -> Self
        ensures { result ≡ sums_of [] }
    {
        Sums {
            ticks: 0,
            held: 0,
            delay: 0,
            ready: 0,
            running: 0,
            throttled: 0,
            blocked: 0,
            server: 0,
        }
    }

    /// One leg more.
    fn add(&mut self, leg: &Leg)
        ensures { (legs : List TheLeg) → self.old ≡ sums_of legs → self.new ≡ sums_of (legs ++ leg.now ∷ []) }
    {
        let stood = leg.stood();
        self.ticks = self.ticks.saturating_add(leg.ticks());
        self.held = self.held.saturating_add(leg.held());
        self.delay = self.delay.saturating_add(leg.delay());
        self.ready = self.ready.saturating_add(stood.ready);
        self.running = self.running.saturating_add(stood.running);
        self.throttled = self.throttled.saturating_add(stood.throttled);
        self.blocked = self.blocked.saturating_add(stood.blocked);
        self.server = self.server.saturating_add(stood.server);
    }
}

/// The sums of these legs.
pub fn sums_of(legs: &[Leg]) -> Sums
    ensures { result ≡ sums_of legs.now }
{
    let mut sums = Sums::new();
    for leg in legs {
        sums.add(leg);
    }
    sums
}
