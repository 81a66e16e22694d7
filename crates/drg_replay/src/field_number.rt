//! Field numbers in a line: `a + b√root` as the numerator and the denominator of a and, where the
//! root isn't 0, those of b.
ghost use Rattle.std.specs.Prelude.{◌≡◌, ◌<◌, ◌≤◌, ◌^◌, IsTrue, ◌↔◌};
ghost use Rattle.drg_fraction.specs.Fraction.{rational_of};
ghost use Rattle.drg_quadratic.specs.Values.{IsRoot};
ghost use Rattle.drg_quadratic.specs.Quadratic.{value_of, root_of};
ghost use Rattle.drg_quadratic.specs.Work.{sign_fits};
ghost use Rattle.drg_whole.specs.Range.{Gives};
ghost use Rattle.drg_replay.specs.FieldNumbers.{is_lowest as the_is_lowest, are_lowest as the_are_lowest, are_long as the_are_long, are_field_numbers as the_are_field_numbers, fraction_count as the_fraction_count, fraction_of as the_fraction_of, fraction_at as the_fraction_at, value_at as the_value_at, is_same_value, sign_at, is_greater as the_is_greater};

use crate::rows::number_at;
use drg_fraction::{Field, Fraction, Wide, gcd};
use drg_quadratic::Quadratic;
use std::cmp::Ordering;

/// Whether num/den is in lowest terms, with a positive denominator.
fn is_lowest(num: i128, den: i128) -> bool
    ensures { result ≡ the_is_lowest num den }
{
    num != i128::MIN && den != i128::MIN && den > 0 && gcd(num, den) == 1
}

/// Whether the first fractions are in lowest terms.
#[tactic(auto, unfolding(crate::specs::FieldNumbers::are_lowest))]
fn are_lowest(numbers: &[i128], count: usize) -> bool
    requires { count < 2 ^ 32 }
    ensures { result ≡ the_are_lowest numbers.now count }
{
    let mut all = true;
    'fractions: for k in 0..count {
        all = all && is_lowest(number_at(numbers, 2 * k), number_at(numbers, 2 * k + 1));
    }
    all
}

/// How many fractions so many field numbers have.
fn fraction_count(root: u32, count: usize) -> usize
    requires { count < 2 ^ 16 }
    ensures value { result ≡ the_fraction_count root count }
    ensures range { result < 2 ^ 17 }
{
    if root == 0 { count } else { 2 * count }
}

/// Whether the numbers are so many field numbers, each in lowest terms.
pub fn are_field_numbers(root: u32, numbers: &[i128], count: usize) -> bool
    requires { count < 2 ^ 16 }
    ensures { result ≡ the_are_field_numbers root numbers.now count }
{
    let fractions = fraction_count(root, count);
    numbers.len() == 2 * fractions && are_lowest(numbers, fractions)
}

/// The fraction num/den, and 0 for numbers that no fraction has.
fn fraction_of(num: i128, den: i128) -> Fraction
    ensures { rational_of result ≡ the_fraction_of num den }
{
    if num != i128::MIN && den != i128::MIN && den != 0 {
        Fraction::make(num, den)
    } else {
        Fraction::of_int(0, 0)
    }
}

/// The fraction at a place.
fn fraction_at(numbers: &[i128], k: usize) -> Fraction
    requires { k < 2 ^ 32 }
    ensures { rational_of result ≡ the_fraction_at numbers.now k }
{
    fraction_of(number_at(numbers, 2 * k), number_at(numbers, 2 * k + 1))
}

/// The field number at a place.
pub fn value_at(root: u32, numbers: &[i128], j: usize) -> Quadratic
    requires root { IsRoot root }
    requires place { j < 2 ^ 16 }
    ensures value { value_of result ≡ the_value_at root numbers.now j }
    ensures root { root_of result ≡ root }
{
    if root == 0 {
        Quadratic::make(fraction_at(numbers, j), Fraction::of_int(0, 0), root)
    } else {
        Quadratic::make(
            fraction_at(numbers, 2 * j),
            fraction_at(numbers, 2 * j + 1),
            root,
        )
    }
}

/// Whether both are one value.
pub fn is_same(left: Quadratic, right: Quadratic) -> bool
    requires { root_of left ≡ root_of right }
    ensures { result ≡ is_same_value (value_of left) (value_of right) }
{
    left.same(right)
}

fn is_greater(sign: Ordering) -> bool
    ensures { result ≡ the_is_greater sign }
{
    match sign {
        Ordering::Greater => true,
        Ordering::Less | Ordering::Equal => false,
    }
}

/// Whether the value is positive.
#[tactic(auto, using(crate::proofs::ValueLaws::sign_test))]
pub fn is_positive(x: Quadratic) -> Result<bool, Wide>
    ensures { let root = root_of x in
        Gives (λ positive. positive) result
        (sign_fits root (value_of x)) (the_is_greater (sign_at root (value_of x))) }
{
    let sign = x.sign()?;
    Ok(is_greater(sign))
}
