//! What closes the claims krein and absolute.
ghost use Rattle.std.specs.Prelude.{◌≡◌, ◌≤◌, ◌+◌, fold, IfOk};
ghost use Rattle.drg_array.specs.Entries.{diameter};
ghost use Rattle.drg_fraction.specs.Field.{sum_of, sums_fit, sums_fit_from};
ghost use Rattle.drg_quadratic.specs.Operations.{value_operations};
ghost use Rattle.drg_quadratic.specs.Quadratic.{value_of, root_of};
ghost use Rattle.drg_quadratic.specs.Values.{IsRoot};
ghost use Rattle.drg_quadratic.specs.Work.{sign_fits};
ghost use Rattle.drg_whole.specs.Range.{Gives};
ghost use Rattle.drg_replay.specs.Steps.{first_failure};
ghost use Rattle.drg_replay.specs.FieldNumbers.{sign_at, value_at as the_value_at};
ghost use Rattle.drg_replay.specs.Frames.{line_at as the_line_at};
ghost use Rattle.drg_replay.specs.KreinClaims.{is_less as the_is_less, negative_steps, krein_closing, vanishes as the_vanishes, counted_from, half as the_half, half_fits, half_product as the_half_product, half_product_fits, allowed as the_allowed, allowed_fits, exceeding_steps, absolute_closing};

use crate::field_number::{is_positive, is_same, value_at};
use crate::frame::Frame;
use crate::krein_lines::{krein_numbers, krein_stands};
use crate::refusal::{Refusal, met_where};
use drg_array::Array;
use drg_derivation::NumberList;
use drg_fraction::{Field, Fraction, Wide};
use drg_quadratic::Quadratic;
use std::cmp::Ordering;

fn is_less(sign: Ordering) -> bool
    ensures { result ≡ the_is_less sign }
{
    match sign {
        Ordering::Less => true,
        Ordering::Greater | Ordering::Equal => false,
    }
}

/// Whether the value is negative.
#[tactic(auto, using(crate::proofs::KreinSigns::less_test))]
fn is_negative(x: Quadratic) -> Result<bool, Wide>
    ensures { let root = root_of x in
        Gives (λ negative. negative) result
        (sign_fits root (value_of x)) (the_is_less (sign_at root (value_of x))) }
{
    let sign = x.sign()?;
    Ok(is_less(sign))
}

/// Whether a value that is stated is negative.
fn check_negative(x: Quadratic) -> Result<(), Refusal>
    ensures { result ≡ first_failure (negative_steps (root_of x) (value_of x)) }
{
    met_where(is_negative(x)?)
}

/// Whether `krein i j h` is closed.
pub fn check_krein_claim(frame: &Option<Frame>, i: usize, j: usize, h: usize) -> Result<(), Refusal>
    requires { h ≤ 255 }
    ensures { result ≡ first_failure (krein_closing frame.now i j h) }
{
    let Some(frame) = frame else {
        return Err(Refusal::NotMet);
    };
    if !krein_stands(frame.krein(), i, j) {
        return Err(Refusal::NotMet);
    }
    let numbers = krein_numbers(frame.krein(), i, j);
    check_negative(value_at(frame.root(), numbers, h))
}

/// Whether the number at place h is 0.
fn vanishes(root: u32, numbers: &[i128], h: usize) -> bool
    requires root { IsRoot root }
    requires place { h ≤ 255 }
    ensures { result ≡ the_vanishes root numbers.now h }
{
    is_same(value_at(root, numbers, h), Quadratic::of_int(root, 0))
}

/// The sum so far, and the multiplicities of the places where the number isn't 0, for `left` places
/// from h on.
#[tactic(auto, using(crate::proofs::KreinSums::counted_end, crate::proofs::KreinSums::counted_skip, crate::proofs::KreinSums::counted_next))]
fn total_rest(
    so_far: Quadratic,
    m: &[i128],
    numbers: &[i128],
    h: usize,
    left: usize,
) -> Result<Quadratic, Wide>
    requires places { h + left ≤ 17 }
    ensures value { let root = root_of so_far in
        let o = value_operations root in
        let counted = counted_from root m.now numbers.now h left in
        Gives value_of result (sums_fit_from o (value_of so_far) counted)
        (fold o.plus (value_of so_far) counted) }
    ensures root { IfOk result (λ r. root_of r ≡ root_of so_far) }
{
    if left == 0 {
        return Ok(so_far);
    }
    let root = so_far.root();
    if vanishes(root, numbers, h) {
        return total_rest(so_far, m, numbers, h + 1, left - 1);
    }
    total_rest(
        so_far.add(value_at(root, m, h))?,
        m,
        numbers,
        h + 1,
        left - 1,
    )
}

/// The sum of the multiplicities of the places where the number isn't 0, for `left` places from h on.
#[tactic(auto, using(crate::proofs::KreinSums::fits_end, crate::proofs::KreinSums::sum_end, crate::proofs::KreinSums::fits_skip, crate::proofs::KreinSums::sum_skip, crate::proofs::KreinSums::fits_first, crate::proofs::KreinSums::sum_first))]
fn total(root: u32, m: &[i128], numbers: &[i128], h: usize, left: usize) -> Result<Quadratic, Wide>
    requires root { IsRoot root }
    requires places { h + left ≤ 17 }
    ensures value { let o = value_operations root in
        let counted = counted_from root m.now numbers.now h left in
        Gives value_of result (sums_fit o counted) (sum_of o counted) }
    ensures root { IfOk result (λ r. root_of r ≡ root) }
{
    if left == 0 {
        return Ok(Quadratic::of_int(root, 0));
    }
    if vanishes(root, numbers, h) {
        return total(root, m, numbers, h + 1, left - 1);
    }
    total_rest(value_at(root, m, h), m, numbers, h + 1, left - 1)
}

/// The half of a value.
#[tactic(auto, using(crate::proofs::KreinHalves::two_apart))]
fn half(x: Quadratic) -> Result<Quadratic, Wide>
    ensures value { Gives value_of result
        (half_fits (root_of x) (value_of x)) (the_half (root_of x) (value_of x)) }
    ensures root { IfOk result (λ r. root_of r ≡ root_of x) }
{
    let root = x.root();
    if root == 0 {
        half_of_fraction(x)
    } else {
        x.div(Quadratic::of_int(root, 2))
    }
}

/// The half of a value over root 0, by a division of fractions.
#[tactic(auto, using(crate::proofs::KreinHalves::two_fractions_apart, crate::proofs::KreinHalves::half_of))]
fn half_of_fraction(x: Quadratic) -> Result<Quadratic, Wide>
    requires { root_of x ≡ 0 }
    ensures value { Gives value_of result (half_fits 0 (value_of x)) (the_half 0 (value_of x)) }
    ensures root { IfOk result (λ r. root_of r ≡ 0) }
{
    let a = x.a().div(Fraction::of_int(0, 2))?;
    Ok(Quadratic::make(a, Fraction::of_int(0, 0), 0))
}

/// `x (x + 1) / 2`.
fn half_product(x: Quadratic) -> Result<Quadratic, Wide>
    ensures value { Gives value_of result
        (half_product_fits (root_of x) (value_of x)) (the_half_product (root_of x) (value_of x)) }
    ensures root { IfOk result (λ r. root_of r ≡ root_of x) }
{
    let next = x.add(Quadratic::of_int(x.root(), 1))?;
    half(x.mul(next)?)
}

/// The greatest sum that the bound allows for i and j.
fn allowed(root: u32, m: &[i128], i: usize, j: usize) -> Result<Quadratic, Wide>
    requires root { IsRoot root }
    requires i { i ≤ 255 }
    requires j { j ≤ 255 }
    ensures value { let ms = the_value_at root m.now in
        Gives value_of result (allowed_fits root ms i j) (the_allowed root ms i j) }
    ensures root { IfOk result (λ r. root_of r ≡ root) }
{
    let first = value_at(root, m, i);
    if i == j {
        half_product(first)
    } else {
        first.mul(value_at(root, m, j))
    }
}

/// Whether the sum of the multiplicities of the places where the number isn't 0 is above the one that
/// is allowed.
#[tactic(auto, unfolding(crate::specs::KreinClaims::exceeding_steps))]
fn check_exceeding(
    root: u32,
    m: &[i128],
    numbers: &[i128],
    i: usize,
    j: usize,
    d: usize,
) -> Result<(), Refusal>
    requires root { IsRoot root }
    requires short { d ≤ 16 }
    requires i { i ≤ 255 }
    requires j { j ≤ 255 }
    ensures { result ≡ first_failure (exceeding_steps root
        (counted_from root m.now numbers.now 0 (d + 1)) (the_value_at root m.now) i j) }
{
    let total = total(root, m, numbers, 0, d + 1)?;
    let allowed = allowed(root, m, i, j)?;
    let difference = total.sub(allowed)?;
    met_where(is_positive(difference)?)
}

/// The numbers of a line among those of its kind, and none where it doesn't stand.
fn line_at(lines: &[NumberList], i: usize) -> &[i128]
    ensures { result.now ≡ the_line_at lines.now i }
{
    if i < lines.len() {
        lines[i].as_slice()
    } else {
        &[]
    }
}

/// Whether `absolute i j` is closed.
pub fn check_absolute(
    array: &Array,
    frame: &Option<Frame>,
    i: usize,
    j: usize,
) -> Result<(), Refusal>
    requires i { i ≤ 255 }
    requires j { j ≤ 255 }
    ensures { result ≡ first_failure (absolute_closing array.now frame.now i j) }
{
    array.known_valid();
    let Some(frame) = frame else {
        return Err(Refusal::NotMet);
    };
    if !krein_stands(frame.krein(), i, j) {
        return Err(Refusal::NotMet);
    }
    let m = line_at(frame.q(), 0);
    let numbers = krein_numbers(frame.krein(), i, j);
    check_exceeding(frame.root(), m, numbers, i, j, array.d())
}
