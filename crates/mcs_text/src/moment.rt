//! Digits of times. Rows of one time share them.
ghost use Rattle.std.specs.Prelude.{◌≡◌, ◌≤◌, ◌+◌, ◌/◌, ◌++◌, ◌↔◌, true, take, length, decimal, IsTrue};

use itoa::write_digits;
use mcs_ticks::Tick;
use std::marker::Model;

/// End of the digits in their block. A time has at most 13 digits.
const END: usize = 16;

/// A number larger than any time.
const NONE: u64 = 1 << 43;

/// The digits of a time, shared by all rows of that time. Contracts see the time.
#[derive(Debug, Drop)]
pub(crate) struct MomentDigits {
    moment: Tick,
    /// the time with its last two digits 0, if it has more than two
    hundred: u64,
    block: [u8; 32],
    /// index of the first digit in the block
    start: usize,
}

impl Model for MomentDigits {
    ghost use Rattle.std.specs.Prelude.{ℕ};
    ghost use Rattle.mcs_text.specs.stored.Digits.{AreDigits};

    ghost Value = { ℕ };

    ghost view = { λ a. a.moment };

    ghost invariant = { λ a. AreDigits a.moment a.hundred a.block a.start };
}

impl MomentDigits {
    /// Returns the digits of time 0.
    pub(crate) fn new() -> MomentDigits
        ensures { result ≡ 0 }
    {
        MomentDigits {
            moment: Tick::ZERO,
            hundred: NONE,
            block: [b'0'; 32],
            start: END - 1,
        }
    }

    /// Whether these are the digits of this time.
    #[inline(always)]
    pub(crate) fn are_of(&self, moment: Tick) -> bool
        ensures { IsTrue result ↔ (self.now ≡ moment) }
    {
        self.moment == moment
    }

    /// Changes the digits to those of this time, if they differ.
    #[inline(always)]
    pub(crate) fn set(&mut self, moment: Tick)
        ensures { self.new ≡ moment }
    {
        if self.moment != moment {
            self.make(moment);
        }
    }

    #[inline(always)]
    fn make(&mut self, moment: Tick)
        ensures { self.new ≡ moment }
    {
        if self.is_near(moment) {
            self.make_last_two(moment);
        } else {
            self.make_all(moment);
        }
    }

    /// Whether a time has more than two digits, and all but the last two are the same.
    #[inline(always)]
    fn is_near(&self, moment: Tick) -> bool
        ensures { result ≡ true → (100 ≤ moment) × (moment / 100 ≡ self.now / 100) }
    {
        let ticks = moment.get();
        ticks >= self.hundred && ticks - self.hundred < 100
    }

    #[inline(always)]
    fn make_last_two(&mut self, moment: Tick)
        requires long { 100 ≤ moment }
        requires near { moment / 100 ≡ self.old / 100 }
        ensures { self.new ≡ moment }
    {
        let rest = (moment.get() - self.hundred) as u8;
        self.block[END - 2] = b'0' + rest / 10;
        self.block[END - 1] = b'0' + rest % 10;
        self.moment = moment;
    }

    #[inline(never)]
    fn make_all(&mut self, moment: Tick)
        ensures { self.new ≡ moment }
    {
        let ticks = moment.get();
        self.start = write_digits(ticks, &mut self.block, END);
        self.hundred = if ticks < 100 { NONE } else { ticks / 100 * 100 };
        self.moment = moment;
    }

    /// Writes the digits. Their block is copied as a whole.
    #[inline(always)]
    pub(crate) fn write(&self, bytes: &mut [u8], at: usize) -> usize
        requires { at + 16 ≤ length bytes.old }
        ensures short { result ≤ at + 16 }
        ensures written { take result bytes.new ≡ take at bytes.old ++ decimal self.now }
    {
        let mut digits = [0; END];
        digits.copy_from_slice(&self.block[self.start..self.start + END]);
        let end = at + (END - self.start);
        bytes[at..at + END].copy_from_slice(&digits);
        end
    }

    /// Writes a time.
    #[inline(always)]
    pub(crate) fn write_moment(&mut self, bytes: &mut [u8], at: usize, moment: Tick) -> usize
        requires { at + 16 ≤ length bytes.old }
        ensures short { result ≤ at + 16 }
        ensures written { take result bytes.new ≡ take at bytes.old ++ decimal moment }
    {
        self.set(moment);
        self.write(bytes, at)
    }
}
