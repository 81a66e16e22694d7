//! The checked whole number.

ghost use Rattle.std.specs.Prelude.{ℤ, ◌≡◌, ◌≢◌, ◌↔◌, ◌<ℤ◌, ◌≤ℤ◌, ◌+ℤ◌, ◌-ℤ◌, ◌*ℤ◌, neg_ℤ, pos, unsigned_abs, int_div, int_rem, MatchOption, IsErr, IsTrue, IfOk, IfSome, IfNone};
ghost use Rattle.std.specs.Int.{IsGcd};
ghost use Rattle.drg_algebra.specs.Reduced.{common};
ghost use Rattle.drg_whole.specs.Range.{InRange, in_range, Gives};
ghost use Rattle.drg_whole.specs.Division.{Divides, IsQuotient, IsRemainder, IsFloor, IsCeiling, IsLcm, floor_of, ceiling_of, least_multiple};

use crate::divisor::gcd;

/// A number has magnitude above `2^127 - 1`.
#[derive(Clone, Copy, Debug, PartialEq, Eq)]
pub struct Wide;

/// A whole number from `-(2^127 - 1)` to `2^127 - 1`.
#[derive(Clone, Copy, Debug, PartialEq, Eq, PartialOrd, Ord)]
pub struct Whole {
    /// The number, which isn't `i128::MIN`.
    pub value: i128,
    pub ghost in_range: { InRange value },
}

impl Whole {
    ghost use Rattle.drg_whole.specs.Whole.{value_of};
    ghost use Rattle.drg_whole.specs.Difference.{less_product, less_product_fits};

    /// The number, which isn't `i128::MIN`.
    #[inline]
    pub fn new(value: i128) -> Whole
        requires { InRange value }
        ensures { result.value ≡ value }
    {
        Whole { value }
    }

    /// The number, refused exactly where it is `i128::MIN`.
    #[inline]
    pub fn checked(value: i128) -> Result<Whole, Wide>
        ensures { Gives value_of result (in_range value) value }
    {
        Whole::within(Some(value))
    }

    // What a checked operation gives, refused where it gives nothing or `i128::MIN`.
    #[inline]
    pub(crate) fn within(number: Option<i128>) -> Result<Whole, Wide>
        ensures { MatchOption number (IsErr result) (λ z. Gives value_of result (in_range z) z) }
    {
        match number {
            None | Some(i128::MIN) => Err(Wide),
            Some(value) => Ok(Whole { value }),
        }
    }

    /// Whether the number is 0.
    #[inline]
    pub fn is_zero(self) -> bool
        ensures { IsTrue result ↔ (self.value ≡ pos 0) }
    {
        self.value == 0
    }

    /// The number with the other sign.
    #[inline]
    pub fn negated(self) -> Whole
        ensures { result.value ≡ neg_ℤ self.value }
    {
        Whole { value: -self.value }
    }

    /// The sum.
    #[inline]
    pub fn plus(self, other: Whole) -> Result<Whole, Wide>
        ensures { Gives value_of result (in_range (self.value +ℤ other.value)) (self.value +ℤ other.value) }
    {
        Whole::within(self.value.checked_add(other.value))
    }

    /// The difference.
    #[inline]
    pub fn minus(self, other: Whole) -> Result<Whole, Wide>
        ensures { Gives value_of result (in_range (self.value -ℤ other.value)) (self.value -ℤ other.value) }
    {
        Whole::within(self.value.checked_sub(other.value))
    }

    /// The product.
    #[inline]
    pub fn times(self, other: Whole) -> Result<Whole, Wide>
        ensures { Gives value_of result (in_range (self.value *ℤ other.value)) (self.value *ℤ other.value) }
    {
        Whole::within(self.value.checked_mul(other.value))
    }

    /// The number less a product: refused where the product or the difference isn't in range.
    #[inline]
    pub fn less_product(self, left: Whole, right: Whole) -> Result<Whole, Wide>
        ensures { Gives value_of result
            (less_product_fits self.value left.value right.value) (less_product self.value left.value right.value) }
    {
        self.minus(left.times(right)?)
    }

    /// The greatest common divisor. It isn't negative, and it is 0 for two zeros.
    #[inline]
    pub fn common_divisor(self, other: Whole) -> Whole
        ensures not_negative { pos 0 ≤ℤ result.value }
        ensures greatest { IsGcd (unsigned_abs self.value) (unsigned_abs other.value) (unsigned_abs result.value) }
        ensures value { result.value ≡ pos (common self.value other.value) }
        ensures zero { result.value ≡ pos 0 → (self.value ≡ pos 0) × (other.value ≡ pos 0) }
    {
        Whole {
            value: gcd(self.value, other.value),
        }
    }

    /// The least common multiple. It isn't negative, and it is 0 where a number is 0.
    pub fn common_multiple(self, other: Whole) -> Result<Whole, Wide>
        ensures value { Gives value_of result
            (in_range (least_multiple self.value other.value)) (least_multiple self.value other.value) }
        ensures not_negative { IfOk result (λ m. pos 0 ≤ℤ m.value) }
        ensures least { IfOk result (λ m.
            IsLcm (unsigned_abs self.value) (unsigned_abs other.value) (unsigned_abs m.value)) }
    {
        if self.is_zero() || other.is_zero() {
            return Ok(Whole { value: 0 });
        }
        self.magnitude()
            .over(self.common_divisor(other))
            .times(other.magnitude())
    }

    // The number without its sign.
    #[inline]
    fn magnitude(self) -> Whole
        ensures { result.value ≡ pos (unsigned_abs self.value) }
    {
        Whole {
            value: self.value.abs(),
        }
    }

    /// The quotient toward zero.
    #[inline]
    pub fn over(self, divisor: Whole) -> Whole
        requires { divisor.value ≢ pos 0 }
        ensures value { result.value ≡ int_div self.value divisor.value }
        ensures quotient { IsQuotient self.value divisor.value result.value }
    {
        Whole {
            value: self.value / divisor.value,
        }
    }

    /// What the quotient toward zero leaves. It has the number's sign, or is 0.
    #[inline]
    pub fn remainder(self, divisor: Whole) -> Whole
        requires { divisor.value ≢ pos 0 }
        ensures value { result.value ≡ int_rem self.value divisor.value }
        ensures remainder { IsRemainder self.value divisor.value result.value }
    {
        Whole {
            value: self.value % divisor.value,
        }
    }

    /// Whether the number divides another one. 0 divides 0 alone.
    pub fn divides(self, other: Whole) -> bool
        ensures { IsTrue result ↔ Divides self.value other.value }
    {
        if self.is_zero() {
            return other.is_zero();
        }
        other.remainder(self).is_zero()
    }

    /// The quotient, where it is whole.
    pub fn whole_quotient(self, divisor: Whole) -> Option<Whole>
        requires { divisor.value ≢ pos 0 }
        ensures some { IfSome result (λ q. divisor.value *ℤ q.value ≡ self.value) }
        ensures none { IfNone result ((q : ℤ) → divisor.value *ℤ q ≢ self.value) }
    {
        if self.remainder(divisor).is_zero() {
            Some(self.over(divisor))
        } else {
            None
        }
    }

    /// The greatest whole number that isn't above the quotient.
    pub fn floor_over(self, divisor: Whole) -> Whole
        requires { pos 0 <ℤ divisor.value }
        ensures value { result.value ≡ floor_of self.value divisor.value }
        ensures floor { IsFloor self.value divisor.value result.value }
    {
        Whole {
            value: self.value.div_euclid(divisor.value),
        }
    }

    /// The least whole number that isn't below the quotient.
    pub fn ceiling_over(self, divisor: Whole) -> Whole
        requires { pos 0 <ℤ divisor.value }
        ensures value { result.value ≡ ceiling_of self.value divisor.value }
        ensures ceiling { IsCeiling self.value divisor.value result.value }
    {
        self.negated().floor_over(divisor).negated()
    }
}

impl From<u16> for Whole {
    ghost from_gives = { λ n w. w.value ≡ pos n };

    /// The number as it is.
    fn from(number: u16) -> Whole {
        Whole {
            value: i128::from(number),
        }
    }
}
