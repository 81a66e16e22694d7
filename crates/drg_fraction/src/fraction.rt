ghost use Rattle.std.specs.Prelude.{◌≡◌, ◌++◌, OnOk, OnErr, pos, ◌<ℤ◌, IsTrue, ◌↔◌};
ghost use Rattle.drg_algebra.specs.Beginnings.{BeginsWith};
ghost use Rattle.drg_algebra.specs.Rational.{plus, times, minus, whole};
ghost use Rattle.drg_algebra.specs.Ratio.{ratio};
ghost use Rattle.drg_algebra.specs.Reduced.{numerator, denominator, common};
ghost use Rattle.drg_algebra.specs.Fields.{invert};
ghost use Rattle.drg_fraction.specs.Work.{all_fit, sum_work, product_work, product_fits};
ghost use Rattle.drg_whole.specs.Range.{InRange, Gives};
ghost use Rattle.drg_fraction.specs.Text.{rational_text};

use drg_whole::{Whole, Wide};
use itoa::Buffer;
use std::alloc::AllocError;

/// A fraction in lowest terms, with a positive denominator.
#[derive(Clone, Copy, Debug, PartialEq, Eq)]
pub struct Fraction {
    num: Whole,
    den: Whole,
    pub ghost above: { pos 0 <ℤ den.value },
    pub ghost reduced: { common num.value den.value ≡ 1 },
}

impl Fraction {
    ghost use Rattle.drg_fraction.specs.Fraction.{rational_of};

    /// The fraction `num/den` in lowest terms.
    pub fn make(num: i128, den: i128) -> Fraction
        requires num { InRange num }
        requires den { InRange den }
        requires nonzero { ¬ (den ≡ pos 0) }
        ensures { rational_of result ≡ ratio num den }
    {
        let num = Whole::new(num);
        let den = Whole::new(den);
        if den.value < 0 {
            Fraction::reduce(num.negated(), den.negated())
        } else {
            Fraction::reduce(num, den)
        }
    }

    /// The numerator in lowest terms.
    pub fn num(&self) -> i128
        ensures value { result ≡ numerator (rational_of self.now) }
        ensures range { InRange result }
    {
        self.num.value
    }

    /// The denominator in lowest terms.
    pub fn den(&self) -> i128
        ensures value { result ≡ denominator (rational_of self.now) }
        ensures positive { pos 0 <ℤ result }
        ensures range { InRange result }
    {
        self.den.value
    }

    /// The fraction with the other sign.
    pub fn negated(self) -> Fraction
        ensures { rational_of result ≡ minus (rational_of self) }
    {
        Fraction {
            num: self.num.negated(),
            den: self.den,
        }
    }

    /// The product with itself, which is refused exactly where that of `mul` is. A fraction in lowest
    /// terms has its square in lowest terms.
    pub fn squared(self) -> Result<Fraction, Wide>
        ensures { Gives rational_of result
            (product_fits (rational_of self) (rational_of self))
            (times (rational_of self) (rational_of self)) }
    {
        let over = self.num.times(self.num)?;
        let under = self.den.times(self.den)?;
        Ok(Fraction {
            num: over,
            den: under,
        })
    }

    /// Appends the numerator, and behind a slash the denominator where that isn't 1.
    pub fn write_text(&self, out: &mut Vec<u8>) -> Result<(), AllocError>
        ensures ok { OnOk result
            (out.new.items ≡ out.old.items ++ rational_text (rational_of self.now)) }
        ensures err { OnErr result
            (BeginsWith (rational_text (rational_of self.now)) out.old.items out.new.items) }
    {
        let mut buffer = Buffer::new();
        out.extend_from_slice(buffer.format(self.num()).as_bytes())?;
        if self.den() != 1 {
            out.push(b'/')?;
            out.extend_from_slice(buffer.format(self.den()).as_bytes())?;
        }
        Ok(())
    }

    // The whole number.
    pub(crate) fn whole(num: Whole) -> Fraction
        ensures { rational_of result ≡ whole num.value }
    {
        Fraction {
            num,
            den: Whole::new(1),
        }
    }

    // The fraction of a numerator and a positive denominator.
    fn reduce(num: Whole, den: Whole) -> Fraction
        requires { pos 0 <ℤ den.value }
        ensures { rational_of result ≡ ratio num.value den.value }
    {
        let divisor = num.common_divisor(den);
        Fraction {
            num: num.over(divisor),
            den: den.over(divisor),
        }
    }

    // The sum, over the least common denominator.
    pub(crate) fn exact_sum(self, other: Fraction) -> Result<Fraction, Wide>
        ensures { Gives rational_of result
            (all_fit (sum_work self.num.value self.den.value other.num.value other.den.value))
            (plus (rational_of self) (rational_of other)) }
    {
        if self.is_whole() && other.is_whole() {
            Ok(Fraction::whole(self.num.plus(other.num)?))
        } else if self.num.value == 0 {
            Ok(other)
        } else if other.num.value == 0 {
            Ok(self)
        } else {
            self.general_sum(other)
        }
    }

    // The same by the least common denominator. What that has in common with the sum divides the
    // greatest common divisor of both denominators.
    fn general_sum(self, other: Fraction) -> Result<Fraction, Wide>
        ensures { Gives rational_of result
            (all_fit (sum_work self.num.value self.den.value other.num.value other.den.value))
            (plus (rational_of self) (rational_of other)) }
    {
        let divisor = self.den.common_divisor(other.den);
        let own_scale = other.den.over(divisor);
        let other_scale = self.den.over(divisor);
        let left = self.num.times(own_scale)?;
        let right = other.num.times(other_scale)?;
        let sum = left.plus(right)?;
        let under = self.den.times(own_scale)?;
        let rest = sum.common_divisor(divisor);
        Ok(Fraction {
            num: sum.over(rest),
            den: under.over(rest),
        })
    }

    // Whether the denominator is 1.
    fn is_whole(&self) -> bool
        ensures { IsTrue result ↔ (self.now.den.value ≡ pos 1) }
    {
        self.den.value == 1
    }

    // The product, with common divisors taken out first, so that it is in lowest terms.
    pub(crate) fn exact_product(self, other: Fraction) -> Result<Fraction, Wide>
        ensures { Gives rational_of result
            (all_fit (product_work self.num.value self.den.value other.num.value other.den.value))
            (times (rational_of self) (rational_of other)) }
    {
        if self.is_whole() && other.is_whole() {
            Ok(Fraction::whole(self.num.times(other.num)?))
        } else if self.num.value == 0 {
            Ok(self)
        } else if other.num.value == 0 {
            Ok(other)
        } else {
            self.general_product(other)
        }
    }

    // The same of any two fractions.
    fn general_product(self, other: Fraction) -> Result<Fraction, Wide>
        ensures { Gives rational_of result
            (all_fit (product_work self.num.value self.den.value other.num.value other.den.value))
            (times (rational_of self) (rational_of other)) }
    {
        let first = self.num.common_divisor(other.den);
        let second = other.num.common_divisor(self.den);
        let over = self.num.over(first).times(other.num.over(second))?;
        let under = self.den.over(second).times(other.den.over(first))?;
        Ok(Fraction {
            num: over,
            den: under,
        })
    }

    // The inverse, with its sign at the numerator.
    pub(crate) fn inverse(self) -> Fraction
        requires { ¬ (rational_of self ≡ whole (pos 0)) }
        ensures { rational_of result ≡ invert (rational_of self) }
    {
        if self.num.value < 0 {
            let (num, den) = (self.den.negated(), self.num.negated());
            return Fraction { num, den };
        }
        Fraction {
            num: self.den,
            den: self.num,
        }
    }
}
