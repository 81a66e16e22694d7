//! The sums of an equation in a room, which its numbers fit.
ghost use Rattle.std.specs.Prelude.{◌≡◌, ◌↔◌, ◌-ℤ◌, ◌+ℤ◌, ◌&&◌, IsTrue, IfSome, IfNone, ◌<◌, length, pos, true, All, Contains};
ghost use Rattle.drg_whole.specs.Range.{Gives, in_range};
ghost use Rattle.drg_whole.specs.Whole.{value_of};
ghost use Rattle.drg_linear.specs.Closing.{Misses};
ghost use Rattle.drg_linear.specs.Equations.{is_equation};
ghost use Rattle.drg_linear.specs.Rooms.{IsRoom, end_product, end_sum as the_end_sum};
ghost use Rattle.drg_linear.specs.Systems.{FitsOver};
ghost use Rattle.drg_linear.specs.Values.{left_by};
ghost use Rattle.drg_rooms.specs.Combinations.{equation_at};
ghost use Rattle.drg_solver.specs.Closings.{ByMiss};
ghost use Rattle.drg_solver.specs.Sums.{AreSums};

use drg_linear::{End, Equation, Room, Unknown, end_sum_onto, plus_end};
use drg_whole::{Whole, Wide};

/// The least and the greatest sum of the terms of an equation.
#[derive(Clone, Copy, Debug)]
pub struct Sums {
    pub least: Whole,
    pub greatest: Whole,
}

/// The least, or the greatest, sum of the terms in the room.
fn end_sum(room: &Room, side: End, equation: &Equation) -> Whole
    requires { FitsOver room.now equation.now }
    ensures { result.value ≡ the_end_sum room.now.d side room.now.bounds equation.now.terms }
{
    let terms = equation.terms.as_slice();
    match end_sum_onto(Whole::new(0), room.d(), side, room.as_slice(), terms) {
        Ok(sum) => sum,
        // An equation that fits over the room isn't too wide in it.
        Err(Wide) => unreachable!(),
    }
}

impl Sums {
    /// The sums of an equation.
    pub fn of(room: &Room, equation: &Equation) -> Sums
        requires { FitsOver room.now equation.now }
        ensures { AreSums room.now equation.now result }
    {
        Sums {
            least: end_sum(room, End::Least, equation),
            greatest: end_sum(room, End::Greatest, equation),
        }
    }
}

/// The right side less a sum of all terms, and one of them added again.
fn checked_beside(
    room: &Room,
    side: End,
    right: Whole,
    sum: Whole,
    term: (Unknown, i128),
) -> Result<Whole, Wide>
    ensures room { IsRoom room.now }
    ensures value { let over = right.value -ℤ sum.value in
        let product = end_product room.now.d side room.now.bounds term in
        Gives value_of result
        (in_range over && (in_range product && in_range (over +ℤ product))) (over +ℤ product) }
{
    let d = room.d();
    plus_end(right.minus(sum)?, d, side, room.as_slice(), term)
}

/// The right side less the sum of the terms beside one of them, from the sum of all terms.
pub fn beside(
    room: &Room,
    equation: &Equation,
    side: End,
    sum: Whole,
    term: (Unknown, i128),
) -> Whole
    requires equation { is_equation equation.now ≡ true }
    requires fits { FitsOver room.now equation.now }
    requires sum { sum.value ≡ the_end_sum room.now.d side room.now.bounds equation.now.terms }
    requires term { Contains equation.now.terms term }
    ensures { result.value ≡ left_by room.now.d side room.now.bounds term.0 equation.now }
{
    match checked_beside(room, side, equation.right_side(), sum, term) {
        Ok(left) => left,
        // The same for the right side less such a sum.
        Err(Wide) => unreachable!(),
    }
}

/// Whether no value in the room meets the equation.
fn misses(room: &Room, equation: &Equation) -> bool
    requires { FitsOver room.now equation.now }
    ensures value { IsTrue result ↔ Misses room.now.d room.now.bounds equation.now }
    ensures equation { is_equation equation.now ≡ true }
{
    let right = equation.right;
    let sums = Sums::of(room, equation);
    right < sums.least.value || sums.greatest.value < right
}

/// The first equation that misses.
pub fn first_miss(room: &Room, equations: &[Equation]) -> Option<usize>
    requires { All (FitsOver room.now) equations.now }
    ensures some { IfSome result (ByMiss room.now.d room.now.bounds equations.now) }
    ensures none { IfNone result
        (All (λ e. Misses room.now.d room.now.bounds e → ⊥) equations.now) }
    ensures equations { IfNone result (All (λ e. is_equation e ≡ true) equations.now) }
{
    'equations: for (n, equation) in equations.iter().enumerate() {
        if misses(room, equation) {
            return Some(n);
        }
    }
    None
}
