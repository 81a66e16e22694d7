//! The `theta` and `prow` lines: the eigenvalues, and the rows of P.
ghost use Rattle.std.specs.Prelude.{◌≡◌, ◌≤◌, ◌<◌, ◌+◌, ◌^◌, length, map, All, IfOk};
ghost use Rattle.drg_array.specs.Entries.{diameter};
ghost use Rattle.drg_fraction.specs.Field.{dot_of, dot_fits};
ghost use Rattle.drg_quadratic.specs.Operations.{value_operations};
ghost use Rattle.drg_quadratic.specs.Quadratic.{value_of, root_of};
ghost use Rattle.drg_algebra.specs.Rational.{whole};
ghost use Rattle.drg_quadratic.specs.Values.{IsRoot, rational};
ghost use Rattle.drg_whole.specs.Range.{Gives};
ghost use Rattle.drg_replay.specs.Steps.{first_failure};
ghost use Rattle.drg_replay.specs.Frames.{theta_at as the_theta_at, descent_steps, theta_steps, value_before as the_value_before, coefficients, neighbours, recurrence_steps, recurrences_from, begins_row as the_begins_row, prow_steps};

use crate::entries::{b_before, c_after};
use crate::field_number::{are_field_numbers, is_positive, is_same, value_at};
use crate::frame::{Frame, all_stand, is_next};
use crate::refusal::{Refusal, met_where};
use drg_array::Array;
use drg_fraction::{Field, Wide, dot};
use drg_quadratic::Quadratic;

/// The eigenvalue of a `theta` line that stands.
fn theta_at(frame: &Frame, i: usize) -> Quadratic
    requires { i < length frame.now.theta }
    ensures value { value_of result ≡ the_theta_at frame.now i }
    ensures root { root_of result ≡ frame.now.root }
{
    value_at(frame.root(), frame.theta()[i].as_slice(), 0)
}

/// Whether x is below the last eigenvalue that stands.
#[tactic(auto, using(crate::proofs::PlaceLaws::descent_first, crate::proofs::PlaceLaws::descent_at))]
fn check_descent(frame: &Frame, x: Quadratic) -> Result<(), Refusal>
    requires { root_of x ≡ frame.now.root }
    ensures { result
        ≡ first_failure (descent_steps frame.now (length frame.now.theta) (value_of x)) }
{
    let count = frame.theta().len();
    if count == 0 {
        return Ok(());
    }
    let difference = theta_at(frame, count - 1).sub(x)?;
    met_where(is_positive(difference)?)
}

/// Whether a `theta` line with these numbers is met.
pub fn check_theta(array: &Array, frame: &Frame, i: i128, numbers: &[i128]) -> Result<(), Refusal>
    ensures { result ≡ first_failure (theta_steps array.now frame.now i numbers.now) }
{
    let root = frame.root();
    if !are_field_numbers(root, numbers, 1) || !is_next(array, i, frame.theta()) {
        return Err(Refusal::NotMet);
    }
    check_descent(frame, value_at(root, numbers, 0))
}

/// An entry as a field number.
fn of_entry(root: u32, entry: i32) -> Quadratic
    requires { IsRoot root }
    ensures value { value_of result ≡ rational (whole entry) }
    ensures root { root_of result ≡ root }
{
    Quadratic::of_int(root, i128::from(entry))
}

/// `b_(j-1)`, `a_j` and `c_(j+1)`, an absent one being 0.
#[tactic(auto, unfolding(crate::specs::Frames::coefficients))]
fn coefficients_of(array: &Array, root: u32, j: usize) -> [Quadratic; 3]
    requires root { IsRoot root }
    requires place { j ≤ diameter array.now }
    ensures values { map value_of result ≡ coefficients array.now j }
    ensures roots { All (λ x. root_of x ≡ root) result }
{
    [
        of_entry(root, i32::from(b_before(array, j))),
        of_entry(root, array.a(j)),
        of_entry(root, i32::from(c_after(array, j))),
    ]
}

/// The number of a row before a place, and 0 where there is none.
fn value_before(root: u32, numbers: &[i128], j: usize) -> Quadratic
    requires root { IsRoot root }
    requires place { j < 2 ^ 16 }
    ensures value { value_of result ≡ the_value_before root numbers.now j }
    ensures root { root_of result ≡ root }
{
    if j == 0 {
        Quadratic::of_int(root, 0)
    } else {
        value_at(root, numbers, j - 1)
    }
}

/// The numbers of a row before, at and behind a place.
#[tactic(auto, unfolding(crate::specs::Frames::neighbours))]
fn neighbours_of(root: u32, numbers: &[i128], j: usize) -> [Quadratic; 3]
    requires root { IsRoot root }
    requires place { j + 1 < 2 ^ 16 }
    ensures values { map value_of result ≡ neighbours root numbers.now j }
    ensures roots { All (λ x. root_of x ≡ root) result }
{
    [
        value_before(root, numbers, j),
        value_at(root, numbers, j),
        value_at(root, numbers, j + 1),
    ]
}

/// `b_(j-1) x_(j-1) + a_j x_j + c_(j+1) x_(j+1)`.
fn recurrence(array: &Array, root: u32, numbers: &[i128], j: usize) -> Result<Quadratic, Wide>
    requires root { IsRoot root }
    requires place { j ≤ diameter array.now }
    ensures value { let o = value_operations root in
        let xs = coefficients array.now j in
        let ys = neighbours root numbers.now j in
        Gives value_of result (dot_fits o xs ys) (dot_of o xs ys) }
    ensures root { IfOk result (λ r. root_of r ≡ root) }
{
    array.known_valid();
    dot(
        root,
        &coefficients_of(array, root, j),
        &neighbours_of(root, numbers, j),
    )
}

/// Whether θ times the number at place j is what the recurrence gives.
#[tactic(auto, unfolding(crate::specs::Frames::recurrence_steps))]
fn check_recurrence(
    array: &Array,
    root: u32,
    theta: Quadratic,
    numbers: &[i128],
    j: usize,
) -> Result<(), Refusal>
    requires root { IsRoot root }
    requires theta { root_of theta ≡ root }
    requires place { j ≤ diameter array.now }
    ensures { result
        ≡ first_failure (recurrence_steps array.now root (value_of theta) numbers.now j) }
{
    array.known_valid();
    let left = theta.mul(value_at(root, numbers, j))?;
    let right = recurrence(array, root, numbers, j)?;
    met_where(is_same(left, right))
}

/// The same for `left` places from j on.
#[tactic(auto, using(crate::proofs::PlaceLaws::recurrences_end, crate::proofs::PlaceLaws::recurrences_fail, crate::proofs::PlaceLaws::recurrences_next))]
fn check_recurrences(
    array: &Array,
    root: u32,
    theta: Quadratic,
    numbers: &[i128],
    j: usize,
    left: usize,
) -> Result<(), Refusal>
    requires root { IsRoot root }
    requires theta { root_of theta ≡ root }
    requires places { j + left ≡ diameter array.now + 1 }
    ensures { result
        ≡ first_failure (recurrences_from array.now root (value_of theta) numbers.now j left) }
{
    array.known_valid();
    if left == 0 {
        return Ok(());
    }
    check_recurrence(array, root, theta, numbers, j)?;
    check_recurrences(array, root, theta, numbers, j + 1, left - 1)
}

/// Whether the row begins with 1 and the eigenvalue.
#[tactic(auto, unfolding(crate::specs::Frames::begins_row))]
fn begins_row(root: u32, theta: Quadratic, numbers: &[i128]) -> bool
    requires root { IsRoot root }
    requires theta { root_of theta ≡ root }
    ensures { result ≡ the_begins_row root (value_of theta) numbers.now }
{
    let one = Quadratic::of_int(root, 1);
    is_same(value_at(root, numbers, 0), one) && is_same(value_at(root, numbers, 1), theta)
}

/// Whether a `prow` line with these numbers is met.
pub fn check_prow(array: &Array, frame: &Frame, i: i128, numbers: &[i128]) -> Result<(), Refusal>
    ensures { result ≡ first_failure (prow_steps array.now frame.now i numbers.now) }
{
    array.known_valid();
    let root = frame.root();
    let side = array.d() + 1;
    if !are_field_numbers(root, numbers, side)
        || !all_stand(array, frame.theta())
        || !is_next(array, i, frame.p())
    {
        return Err(Refusal::NotMet);
    }
    let theta = theta_at(frame, frame.p().len());
    if !begins_row(root, theta, numbers) {
        return Err(Refusal::NotMet);
    }
    check_recurrences(array, root, theta, numbers, 0, side)
}
