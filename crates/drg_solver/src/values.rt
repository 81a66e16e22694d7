//! The values that an equation leaves to the unknowns of its terms.
ghost use Rattle.std.specs.Prelude.{◌≡◌, true, Contains};
ghost use Rattle.drg_linear.specs.Equations.{is_equation};
ghost use Rattle.drg_linear.specs.Systems.{FitsOver};
ghost use Rattle.drg_solver.specs.Sums.{AreSums, sum_at};
ghost use Rattle.drg_linear.specs.Values.{least_value as the_least_value, greatest_value as the_greatest_value, least_by as the_least_by, greatest_by as the_greatest_by};

use crate::sums::{Sums, beside};
use drg_linear::{End, Equation, Room, Unknown, ceiling, floor};
use drg_whole::Whole;

impl Sums {
    /// The sum at this end.
    fn at(self, side: End) -> Whole
        ensures { result ≡ sum_at self side }
    {
        match side {
            End::Least => self.least,
            End::Greatest => self.greatest,
        }
    }
}

/// Which sum of the rest leaves the unknown its least value.
fn least_by(coefficient: i128) -> End
    ensures { result ≡ the_least_by coefficient }
{
    if coefficient > 0 {
        End::Greatest
    } else {
        End::Least
    }
}

/// Which sum of the rest leaves the unknown its greatest value.
fn greatest_by(coefficient: i128) -> End
    ensures { result ≡ the_greatest_by coefficient }
{
    if coefficient > 0 {
        End::Least
    } else {
        End::Greatest
    }
}

/// The least value that the equation leaves to the unknown of a term.
#[tactic(auto, unfolding(drg_linear::specs::Values::least_value))]
pub fn least_value(room: &Room, equation: &Equation, sums: Sums, term: (Unknown, i128)) -> Whole
    requires equation { is_equation equation.now ≡ true }
    requires fits { FitsOver room.now equation.now }
    requires sums { AreSums room.now equation.now sums }
    requires term { Contains equation.now.terms term }
    ensures { result.value ≡ the_least_value room.now.d room.now.bounds term.0 equation.now }
{
    let coefficient = Whole::new(term.1);
    let side = least_by(coefficient.value);
    let left = beside(room, equation, side, sums.at(side), term);
    ceiling(left, coefficient)
}

/// The greatest value that the equation leaves to the unknown of a term.
#[tactic(auto, unfolding(drg_linear::specs::Values::greatest_value))]
pub fn greatest_value(room: &Room, equation: &Equation, sums: Sums, term: (Unknown, i128)) -> Whole
    requires equation { is_equation equation.now ≡ true }
    requires fits { FitsOver room.now equation.now }
    requires sums { AreSums room.now equation.now sums }
    requires term { Contains equation.now.terms term }
    ensures { result.value ≡ the_greatest_value room.now.d room.now.bounds term.0 equation.now }
{
    let coefficient = Whole::new(term.1);
    let side = greatest_by(coefficient.value);
    let left = beside(room, equation, side, sums.at(side), term);
    floor(left, coefficient)
}
