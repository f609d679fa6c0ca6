// Exact fractions of natural numbers, and their order.
ghost use Rattle.std.specs.Prelude.{◌≡◌, ◌*◌, ◌^◌, ◌<◌};
ghost use Rattle.integers.specs.code.Fraction.{order, Bounded};
ghost use Rattle.integers.specs.code.Root.{ceiling_root};
ghost use Rattle.integers.specs.code.Units.{whole_units};

use crate::root::root;
use std::cmp::Ordering;

// An upper number over a lower number. It is never reduced. `Bounded` stays a clause: definitions make a fraction of any
// two numbers.
#[derive(Clone, Copy)]
pub struct Fraction {
    pub upper: u64,
    pub lower: u64,
}

impl Fraction {
    // The order of two fractions: exactly that of their cross products, which may need more than 64 bits. (No `Ord`: that
    // asks for an order of all values, and each fraction would be equal to 0/0.)
    pub fn compare(self, other: Fraction) -> Ordering
        ensures { result ≡ order (self.upper * other.lower) (other.upper * self.lower) }
    {
        let left = u128::from(self.upper) * u128::from(other.lower);
        let right = u128::from(other.upper) * u128::from(self.lower);
        left.cmp(&right)
    }

    // The fraction in whole units, of which `units` make 1, rounded down. `units` times the upper number need not fit 64
    // bits: the whole part and the remainder are taken apart.
    // In u128 lower numbers of any size would do, and must-fail/lower_of_33_bits.edit could not be refused.
    pub fn whole_units(self, units: u64) -> u64
        requires bounded { Bounded self }
        requires units_bound { units < 2 ^ 32 }
        requires fits { whole_units units self < 2 ^ 64 }
        ensures { result ≡ whole_units units self }
    {
        let whole = self.upper / self.lower;
        let rest = self.upper % self.lower;
        whole * units + rest * units / self.lower
    }

    // The smallest number whose square is not below the fraction.
    pub fn ceiling_root(self) -> u64
        requires { 0 < self.lower }
        ensures { result ≡ ceiling_root self }
    {
        if self.upper == 0 {
            return 0;
        }
        root((self.upper - 1) / self.lower) + 1
    }
}
