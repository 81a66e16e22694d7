ghost use Rattle.std.specs.Prelude.{◌≡◌, pos};
ghost use Rattle.drg_algebra.specs.Rational.{times, whole};
ghost use Rattle.drg_fraction.specs.Fraction.{rational_of};
ghost use Rattle.drg_fraction.specs.Work.{product_fits};
ghost use Rattle.drg_whole.specs.Range.{Gives};
ghost use Rattle.drg_quadratic.specs.Work.{sign_of};
ghost use Rattle.drg_quadratic.specs.Text.{magnitude_of};

use drg_fraction::{Field, Fraction, Wide};
use std::cmp::Ordering;

// The fraction without its sign.
pub(crate) fn magnitude(part: Fraction) -> Fraction
    ensures { rational_of result ≡ magnitude_of (rational_of part) }
{
    if part.num() < 0 { part.negated() } else { part }
}

// How the fraction stands to 0.
pub(crate) fn sign(part: Fraction) -> Ordering
    ensures { result ≡ sign_of (rational_of part) }
{
    part.num().cmp(&0)
}

// The root times the fraction.
pub(crate) fn root_times(root: u32, part: Fraction) -> Result<Fraction, Wide>
    ensures { Gives rational_of result
        (product_fits (whole (pos root)) (rational_of part))
        (times (whole (pos root)) (rational_of part)) }
{
    Fraction::of_int(0, i128::from(root)).mul(part)
}
