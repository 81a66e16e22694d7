//! Whole quotients by divisors of either sign.
ghost use Rattle.std.specs.Prelude.{◌≡◌, ◌≢◌, pos};
ghost use Rattle.drg_linear.specs.Rounding.{ceiling as the_ceiling, floor as the_floor};

use drg_whole::Whole;

/// `m/a`, rounded up to a whole number.
#[tactic(auto, unfolding(crate::specs::Rounding::ceiling))]
pub fn ceiling(m: Whole, a: Whole) -> Whole
    requires { a.value ≢ pos 0 }
    ensures { result.value ≡ the_ceiling m.value a.value }
{
    if a.value > 0 {
        m.ceiling_over(a)
    } else {
        m.negated().ceiling_over(a.negated())
    }
}

/// `m/a`, rounded down to a whole number.
#[tactic(auto, unfolding(crate::specs::Rounding::floor))]
pub fn floor(m: Whole, a: Whole) -> Whole
    requires { a.value ≢ pos 0 }
    ensures { result.value ≡ the_floor m.value a.value }
{
    if a.value > 0 {
        m.floor_over(a)
    } else {
        m.negated().floor_over(a.negated())
    }
}
