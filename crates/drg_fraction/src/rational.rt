ghost use Rattle.std.specs.Prelude.{◌≡◌, refl};

use crate::field::Field;
use crate::fraction::Fraction;
use drg_whole::{Whole, Wide};
use std::cmp::Ordering;

/// A fraction is an exact value of root 0.
impl Field for Fraction {
    ghost use Rattle.drg_algebra.specs.Rational.{ℚ};
    ghost use Rattle.drg_fraction.specs.Fraction.{rational_of, one_fraction};
    ghost use Rattle.drg_fraction.specs.Rationals.{rational_operations, rational_laws};

    ghost V = { ℚ };

    ghost value = { rational_of };

    ghost root_of = { λ x. 0 };

    ghost HasRoot = { λ root. root ≡ 0 };

    ghost operations = { λ root. rational_operations };

    ghost laws = { rational_laws };

    ghost has_root = { λ x. refl };

    ghost over = { λ x. tt };

    ghost one_member = { λ x y h e. one_fraction x y e };

    fn root(&self) -> u32 {
        0
    }

    fn of_int(_root: u32, v: i128) -> Fraction {
        Fraction::whole(Whole::new(v))
    }

    fn of_halves(_root: u32, s: i128, _f: i128) -> Fraction {
        Fraction::make(s, 2)
    }

    fn of_parts(_root: u32, a: Fraction, _b: Fraction) -> Fraction {
        a
    }

    fn add(self, other: Fraction) -> Result<Fraction, Wide> {
        self.exact_sum(other)
    }

    fn sub(self, other: Fraction) -> Result<Fraction, Wide> {
        self.exact_sum(other.negated())
    }

    fn mul(self, other: Fraction) -> Result<Fraction, Wide> {
        self.exact_product(other)
    }

    fn div(self, other: Fraction) -> Result<Fraction, Wide> {
        self.exact_product(other.inverse())
    }

    fn is_zero(&self) -> bool {
        self.num() == 0
    }

    fn same(&self, other: Fraction) -> bool {
        *self == other
    }

    fn sign(&self) -> Result<Ordering, Wide> {
        Ok(self.num().cmp(&0))
    }

    fn as_int(&self) -> Option<i128> {
        if self.den() == 1 {
            Some(self.num())
        } else {
            None
        }
    }

    fn parts(&self) -> (Fraction, Fraction) {
        (*self, Fraction::whole(Whole::new(0)))
    }
}
