//! The values that an equation leaves to an unknown in a room.
ghost use Rattle.std.specs.Prelude.{◌≡◌, ◌<◌, ◌^◌, List, MatchResult, Ok, Err};
ghost use Rattle.drg_whole.specs.Range.{Gives};
ghost use Rattle.drg_whole.specs.Whole.{value_of};
ghost use Rattle.drg_linear.specs.Equations.{rest_of};
ghost use Rattle.drg_linear.specs.Rooms.{end_sum, end_sum_fits};
ghost use Rattle.drg_rooms.specs.Steps.{Step, first_failure};
ghost use Rattle.drg_rooms.specs.Values.{left_steps, low_steps, high_steps, miss_steps};
ghost use Rattle.drg_linear.specs.Values.{left_by as the_left_by, least_by as the_least_by, greatest_by as the_greatest_by};

use crate::refusal::{Refusal, met_where};
use drg_linear::{End, Equation, Unknown, ceiling, end_sum_onto, floor, plus_end};
use drg_whole::{Whole, Wide};

/// The least, or the greatest, sum of the terms beside that of the unknown, where all products and
/// sums are in range.
fn rest_sum(
    d: usize,
    side: End,
    room: &[(i128, i128)],
    terms: &[(Unknown, i128)],
    unknown: Unknown,
) -> Result<Whole, Wide>
    requires { d < 2 ^ 8 }
    ensures { let rest = rest_of unknown terms.now in
        Gives value_of result (end_sum_fits d side room.now rest) (end_sum d side room.now rest) }
{
    let mut sum = Whole::new(0);
    'terms: for (i, term) in terms.iter().enumerate() {
        if term.0.is_same(unknown) {
            return end_sum_onto(sum, d, side, room, &terms[i + 1..]);
        }
        sum = plus_end(sum, d, side, room, *term)?;
    }
    Ok(sum)
}

/// The right side less the sum of the rest at this end, after both sums of the rest.
#[tactic(auto, unfolding(crate::specs::Values::left_steps))]
fn left_by(
    d: usize,
    side: End,
    room: &[(i128, i128)],
    unknown: Unknown,
    equation: &Equation,
) -> Result<Whole, Refusal>
    requires { d < 2 ^ 8 }
    ensures { let all = left_steps d side room.now unknown equation.now in
        MatchResult result
        (λ left. (left.value ≡ the_left_by d side room.now unknown equation.now)
        × ((steps : List Step) → first_failure (all steps) ≡ first_failure steps))
        (λ refusal. (steps : List Step) → first_failure (all steps) ≡ Err refusal) }
{
    let terms = equation.terms.as_slice();
    let Ok(least) = rest_sum(d, End::Least, room, terms, unknown) else {
        return Err(Refusal::Wide);
    };
    let Ok(greatest) = rest_sum(d, End::Greatest, room, terms, unknown) else {
        return Err(Refusal::Wide);
    };
    let sum = match side {
        End::Least => least,
        End::Greatest => greatest,
    };
    match equation.right_side().minus(sum) {
        Ok(left) => Ok(left),
        Err(Wide) => Err(Refusal::Wide),
    }
}

/// Whether no value in the room meets the equation.
pub fn check_miss(d: usize, room: &[(i128, i128)], equation: &Equation) -> Result<(), Refusal>
    requires { d < 2 ^ 8 }
    ensures { result ≡ first_failure (miss_steps d room.now equation.now) }
{
    let terms = equation.terms.as_slice();
    let Ok(least) = end_sum_onto(Whole::new(0), d, End::Least, room, terms) else {
        return Err(Refusal::Wide);
    };
    if equation.right < least.value {
        return Ok(());
    }
    let Ok(greatest) = end_sum_onto(Whole::new(0), d, End::Greatest, room, terms) else {
        return Err(Refusal::Wide);
    };
    met_where(greatest.value < equation.right)
}

/// Which sum of the rest leaves the unknown its least value.
fn least_by(coefficient: i128) -> End
    ensures { result ≡ the_least_by coefficient }
{
    if coefficient > 0 {
        End::Greatest
    } else {
        End::Least
    }
}

/// Which sum of the rest leaves the unknown its greatest value.
fn greatest_by(coefficient: i128) -> End
    ensures { result ≡ the_greatest_by coefficient }
{
    if coefficient > 0 {
        End::Least
    } else {
        End::Greatest
    }
}

/// Whether the least value that the equation leaves to the unknown is at least v.
#[tactic(auto, unfolding(drg_linear::specs::Values::least_value, crate::specs::Values::low_steps))]
pub fn check_low(
    d: usize,
    room: &[(i128, i128)],
    unknown: Unknown,
    v: i128,
    equation: &Equation,
) -> Result<(), Refusal>
    requires { d < 2 ^ 8 }
    ensures { result ≡ first_failure (low_steps d room.now unknown v equation.now) }
{
    let coefficient = equation.coefficient(unknown);
    if coefficient.value == 0 {
        return Err(Refusal::NotMet);
    }
    match left_by(d, least_by(coefficient.value), room, unknown, equation) {
        Ok(left) => met_where(v <= ceiling(left, coefficient).value),
        Err(refusal) => Err(refusal),
    }
}

/// Whether the greatest value that the equation leaves to the unknown is at most v.
#[tactic(auto, unfolding(drg_linear::specs::Values::greatest_value, crate::specs::Values::high_steps))]
pub fn check_high(
    d: usize,
    room: &[(i128, i128)],
    unknown: Unknown,
    v: i128,
    equation: &Equation,
) -> Result<(), Refusal>
    requires { d < 2 ^ 8 }
    ensures { result ≡ first_failure (high_steps d room.now unknown v equation.now) }
{
    let coefficient = equation.coefficient(unknown);
    if coefficient.value == 0 {
        return Err(Refusal::NotMet);
    }
    match left_by(d, greatest_by(coefficient.value), room, unknown, equation) {
        Ok(left) => met_where(floor(left, coefficient).value <= v),
        Err(refusal) => Err(refusal),
    }
}
