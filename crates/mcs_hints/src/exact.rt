//! Whether a sum of fractions is above one, computed exactly.
ghost use Rattle.std.specs.Prelude.{◌≡◌, ◌≤◌, length, map};
ghost use Rattle.std.specs.List.{All, sum_by};
ghost use Rattle.mcs_hints.specs.Exact.{IsFraction, wholes_of, rest_of, is_above_one};

/// A part of a core's time. As the utilisation of a context it is at most one, and its denominator
/// is a period, 1 to 2^40.
#[derive(Clone, Copy, Debug, PartialEq, Eq)]
pub(crate) struct Fraction {
    pub numerator: u64,
    pub denominator: u64,
}

impl Fraction {
    /// Factor by which each fraction is multiplied in a step: 2^20, so no product exceeds 2^60.
    const BASE: u64 = 1_048_576;

    /// Returns the whole part of 2^20 times the fraction.
    fn wholes(&self) -> u64
        requires { IsFraction self.now }
        ensures { result ≡ wholes_of self.now }
    {
        self.numerator * Self::BASE / self.denominator
    }

    /// Replaces the fraction by the remainder of 2^20 times it, without the whole part.
    fn keep_rest(&mut self)
        requires { IsFraction self.old }
        ensures { self.new ≡ rest_of self.old }
    {
        self.numerator = self.numerator * Self::BASE % self.denominator;
    }
}

fn wholes(fractions: &[Fraction]) -> u64
    requires all { All IsFraction fractions.now }
    requires few { length fractions.now ≤ 4096 }
    ensures { result ≡ sum_by wholes_of fractions.now }
{
    let mut wholes = 0;
    for fraction in fractions {
        wholes += fraction.wholes();
    }
    wholes
}

fn keep_rests(fractions: &mut [Fraction])
    requires { All IsFraction fractions.old }
    ensures { fractions.new ≡ map rest_of fractions.old }
{
    for fraction in fractions.iter_mut() {
        fraction.keep_rest();
    }
}

/// Whether the sum of these fractions, at most 4,096, is above one. The fractions are used up.
///
/// The sum is compared digit by digit to the base 2^20. Two digits for each fraction and one more
/// suffice: a sum above one exceeds it by at least one over the product of the denominators.
/// Usually one or two digits decide.
pub(crate) fn is_above_one(fractions: &mut [Fraction]) -> bool
    requires all { All IsFraction fractions.old }
    requires few { length fractions.old ≤ 4096 }
    ensures { result ≡ is_above_one fractions.old }
{
    // the sum that the remaining fractions must exceed
    let mut bar = 1;
    for _digit in 0..2 * fractions.len() + 1 {
        let wholes = wholes(fractions);
        keep_rests(fractions);
        bar *= Fraction::BASE;
        if bar < wholes {
            return true;
        }
        bar -= wholes;
        if fractions.len() as u64 <= bar {
            return false;
        }
    }
    false
}
