//! The greatest common divisor.

ghost use Rattle.std.specs.Prelude.{◌≡◌, ◌≤ℤ◌, pos, unsigned_abs};
ghost use Rattle.std.specs.Int.{IsGcd};
ghost use Rattle.drg_algebra.specs.Gcd.{gcd_of};
ghost use Rattle.drg_algebra.specs.Reduced.{common};
ghost use Rattle.drg_whole.specs.Range.{InRange};

/// The greatest common divisor. It isn't negative, and it is 0 for two zeros.
pub fn gcd(a: i128, b: i128) -> i128
    requires left { InRange a }
    requires right { InRange b }
    ensures not_negative { pos 0 ≤ℤ result }
    ensures greatest { IsGcd (unsigned_abs a) (unsigned_abs b) (unsigned_abs result) }
    ensures value { result ≡ pos (common a b) }
    ensures zero { result ≡ pos 0 → (a ≡ pos 0) × (b ≡ pos 0) }
{
    gcd_unsigned(a.unsigned_abs(), b.unsigned_abs()) as i128
}

// By Euclid's remainders.
fn gcd_unsigned(a: u128, b: u128) -> u128
    ensures { result ≡ gcd_of a b }
{
    let mut x = a;
    let mut y = b;
    while y != 0 {
        let rest = x % y;
        x = y;
        y = rest;
    }
    x
}
