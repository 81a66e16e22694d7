//! Equations in the order in which they were made.
ghost use Rattle.std.specs.Prelude.{◌≡◌, ◌++◌, ◌∷◌, [], true, false, IfOk, MatchResult};
ghost use Rattle.drg_rooms.specs.Combinations.{is_number, equation_at as the_equation_at};
ghost use Rattle.drg_rooms.specs.Stores.{KeepsPlaces, StandsIn};
ghost use Rattle.drg_rooms.specs.declared.refusal.Refusal.TheVariants.{NotMet};

use crate::refusal::Refusal;
use drg_linear::Equation;
use indexmap::IndexSet;
use std::alloc::{AllocError, Global};
use std::marker::Model;

/// The equations made so far. One that is made again takes no more than the place of a number.
#[derive(Debug, Drop)]
pub struct EquationList {
    distinct: IndexSet<Equation>,
    order: Vec<usize>,
}

impl Model for EquationList {
    ghost use Rattle.std.specs.Prelude.{List};
    ghost use Rattle.drg_linear.specs.Equations.{EquationContent};
    ghost use Rattle.drg_rooms.specs.Stores.{AreAmong, equations_in};

    ghost Value = { List EquationContent };

    ghost view = { λ l. equations_in l.distinct.keys l.order.items };

    ghost invariant = { λ l. AreAmong l.distinct.keys l.order.items };
}

/// The place of an equation among distinct ones, which takes it up where it isn't there. The places
/// of the others stay.
fn place_of(distinct: &mut IndexSet<Equation>, equation: Equation) -> Result<usize, AllocError>
    ensures place { IfOk result (λ place. StandsIn distinct.new.keys place equation) }
    ensures others { KeepsPlaces distinct.old.keys distinct.new.keys }
{
    let (place, _) = distinct.insert_full(equation)?;
    Ok(place)
}

impl EquationList {
    /// No equation. Takes no memory.
    pub fn new(alloc: Global) -> EquationList
        ensures { result ≡ [] }
    {
        EquationList {
            distinct: IndexSet::new(alloc),
            order: Vec::new(alloc),
        }
    }

    /// Where its memory comes from.
    pub fn allocator(&self) -> Global {
        *self.order.allocator()
    }

    /// Appends an equation as the next. Where it fails, nothing has changed.
    pub fn push(&mut self, equation: Equation) -> Result<(), AllocError>
        ensures { MatchResult result
            (λ _. self.new ≡ self.old ++ equation ∷ [])
            (λ _. self.new ≡ self.old) }
    {
        match place_of(&mut self.distinct, equation) {
            Ok(place) => match self.order.push(place) {
                Ok(()) => Ok(()),
                Err(failed) => Err(failed.into()),
            },
            Err(error) => Err(error),
        }
    }

    /// The equation with this number, which is made before.
    #[tactic(auto, unfolding(crate::specs::Combinations::is_number))]
    pub fn get(&self, n: i128) -> Result<&Equation, Refusal>
        ensures { MatchResult result
            (λ equation. (is_number n self.now ≡ true)
            × (equation.now ≡ the_equation_at self.now n))
            (λ refusal. (is_number n self.now ≡ false) × (refusal ≡ NotMet)) }
    {
        if n < 0 || n >= self.order.len() as i128 {
            return Err(Refusal::NotMet);
        }
        Ok(&self.distinct.as_slice()[self.order[n as usize]])
    }
}
