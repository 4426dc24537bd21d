ghost use Rattle.std.specs.Prelude.{◌≡◌, ◌≤◌, ◌<◌, ◌^◌, IfOk, ℕ, true};
ghost use Rattle.mcs_refills.specs.Server.{new_server, is_ready, first_date};
ghost use Rattle.example_refills.specs.Passing.{after_packet};
ghost use Rattle.example_refills.specs.declared.limiter.Answer.TheVariants.{Passes, Waits};

use mcs_refills::Refills;
use mcs_ticks::{NoMemory, Tick};
use std::alloc::Global;
use std::marker::Model;

/// The answer to a packet.
#[derive(Clone, Copy, Debug, Drop, Eq, PartialEq)]
pub enum Answer {
    /// It passes, and one tick of the budget is charged.
    Passes,
    /// It does not pass, and nothing changes. The value is the moment from which the next one
    /// passes.
    Waits(u64),
}

/// Lets at most one packet pass in a tick, and at most a budget of them in any period. Contracts
/// see a server (the sporadic server of Sprunt, Sha and Lehoczky, 1989). Its dates are the moments
/// from which packets may pass, one for each packet.
#[derive(Debug, Drop)]
pub struct Limiter {
    refills: Refills,
}

impl Model for Limiter {
    ghost use Rattle.mcs_refills.specs.Server.{Server};

    ghost Value = { Server };

    ghost view = { λ limiter. limiter.refills };
}

impl Limiter {
    /// Returns a limiter of `budget` packets in `period` ticks, at most 2^40, from time 0 on. Fails
    /// with `NoMemory` if the refills cannot be allocated.
    pub fn new(alloc: Global, budget: u64, period: u64) -> Result<Self, NoMemory>
        requires some { 1 ≤ budget }
        requires within { budget < period }
        requires short { period ≤ 2 ^ 40 }
        ensures { IfOk result (λ limiter. limiter ≡ new_server 0 budget period 66 66) }
    {
        let refills = Refills::new(alloc, Tick::ZERO, budget, period, 66, 66)?;
        Ok(Limiter { refills })
    }

    /// Whether a packet passes at `now`, at most 2^40. It passes if the first date has come. The
    /// refills are then unblocked, which prevents a burst of unused budget, and charged one tick,
    /// which returns a period later.
    pub fn offer(&mut self, now: Tick) -> Answer
        requires { now ≤ 2 ^ 40 }
        ensures passes { result ≡ Passes → is_ready now self.old.dates ≡ true }
        ensures charged { result ≡ Passes → self.new ≡ after_packet now self.old }
        ensures waits { (moment : ℕ) → result ≡ Waits moment → moment ≡ first_date self.old.dates }
        ensures later { (moment : ℕ) → result ≡ Waits moment → now < moment }
        ensures unchanged { (moment : ℕ) → result ≡ Waits moment → self.new ≡ self.old }
    {
        if !self.refills.ready(now) {
            return Answer::Waits(self.refills.head().begins);
        }
        self.refills.unblock(now);
        let head = self.refills.head();
        prove!(1 <= head.amount);
        self.refills.charge(1, 1);
        Answer::Passes
    }
}

#[cfg(test)]
mod tests {
    use super::{Answer, Limiter};
    use mcs_ticks::{NoMemory, Tick};

    static OFFERS: [(u64, Answer); 10] = [
        (0, Answer::Passes),
        (0, Answer::Waits(1)),
        (1, Answer::Passes),
        (2, Answer::Waits(5)),
        (5, Answer::Passes),
        (6, Answer::Passes),
        (7, Answer::Waits(10)),
        (20, Answer::Passes),
        (21, Answer::Passes),
        (22, Answer::Waits(25)),
    ];

    #[test]
    fn two_packets_in_five_ticks(rt: HostRuntime) -> Result<(), NoMemory> {
        let mut limiter = Limiter::new(rt.alloc(), 2, 5)?;
        for (moment, answer) in OFFERS {
            let now = Tick::new(moment).expect(&rt, "a moment within the limits");
            assert!(rt; now.get() <= 1 << 40);
            assert_eq!(rt; limiter.offer(now), answer, "at {moment}");
        }
        Ok(())
    }
}
