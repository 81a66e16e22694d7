//! Systems for the tests, from equations that are looked at before they are made.
ghost use Rattle.std.specs.Prelude.{◌≡◌, ◌≤◌, ◌<◌, ◌^◌, true, IfSome};
ghost use Rattle.drg_linear.specs.Equations.{all_coefficients, follows as the_follows, is_ordered};
ghost use Rattle.drg_linear.specs.Systems.{FitsOver, are_unknowns, weight};

use crate::finding::is_unknown;
use crate::{Outcome, solve};
use drg_linear::{Equation, EquationName, Room, System, Terms, Unknown, bounds_at, holds};
use std::alloc::Global;
use std::test::Fail;

/// Whether the first of the terms, where there is one, stands after this one.
fn follows(term: (Unknown, i128), terms: &[(Unknown, i128)]) -> bool
    ensures { result ≡ the_follows term terms.now }
{
    match terms.first() {
        Some(first) => term.0.precedes(first.0),
        None => true,
    }
}

/// The sum of `|coefficient|·high`. None where the terms aren't those of an equation over the room, or
/// the sum is too wide.
fn weight_of(room: &Room, terms: &[(Unknown, i128)]) -> Option<u128>
    ensures weight { IfSome result (λ w. weight room.now.d room.now.bounds terms.now ≡ w) }
    ensures ordered { IfSome result (λ _. is_ordered terms.now ≡ true) }
    ensures coefficients { IfSome result (λ _. all_coefficients terms.now ≡ true) }
    ensures unknowns { IfSome result (λ _. are_unknowns room.now.d terms.now ≡ true) }
{
    let Some((term, rest)) = terms.split_first() else {
        return Some(0);
    };
    let weight = weight_of(room, rest)?;
    let good = is_unknown(room.d(), term.0) && follows(*term, rest);
    if !good || term.1 == 0 || term.1 == i128::MIN {
        return None;
    }
    let high = bounds_at(room.as_slice(), term.0.place(room.d())).1;
    let own = term.1.unsigned_abs().checked_mul(high.unsigned_abs())?;
    own.checked_add(weight)
}

/// The equation, where it fits over the room.
fn equation(room: &Room, terms: Vec<(Unknown, i128)>, right: i128) -> Option<Equation>
    ensures { IfSome result (FitsOver room.now) }
{
    let weight = weight_of(room, &terms)?;
    let total = weight.checked_add(right.unsigned_abs())?;
    if right == i128::MIN || total > i128::MAX.unsigned_abs() {
        return None;
    }
    Some(Equation {
        terms: Terms::new(terms),
        right,
    })
}

/// Diameter 2, with each unknown from 0 to its high bound.
pub fn room(alloc: Global, highs: [u16; 8]) -> Result<Room, Fail> {
    let [a, b, c, d, e, f, g, h] = highs;
    let bounds = vec![in alloc;
        (0, i128::from(a)),
        (0, i128::from(b)),
        (0, i128::from(c)),
        (0, i128::from(d)),
        (0, i128::from(e)),
        (0, i128::from(f)),
        (0, i128::from(g)),
        (0, i128::from(h)),
    ]?;
    Ok(Room::make(2, bounds))
}

/// Diameter d, with each unknown from 0 to 2.
pub fn even_room(alloc: Global, d: usize) -> Result<Room, Fail>
    requires { d < 2 ^ 8 }
{
    let bounds = vec![in alloc; (0, 2); d * d * d]?;
    Ok(Room::make(d, bounds))
}

/// Appends an equation with its name.
pub fn push(
    system: &mut System,
    name: EquationName,
    terms: Vec<(Unknown, i128)>,
    right: i128,
) -> Result<(), Fail> {
    let equation = equation(system.room(), terms, right).ok_or("an equation that doesn't fit")?;
    system.push(name, equation)?;
    Ok(())
}

/// What a search answers, in a word: a solution is looked at, and of a closing the kinds of the lines
/// are told.
pub fn answer(alloc: Global, system: &System, budget: u32) -> Result<String, Fail> {
    match solve(alloc, system, budget.max(1))? {
        Outcome::Solution(values) => {
            let word = if holds(system, &values) {
                "solution"
            } else {
                "wrong"
            };
            Ok(String::from_str(alloc, word)?)
        }
        Outcome::Closed(lines) => {
            let mut words = String::new(alloc);
            'lines: for line in &lines {
                write!(words, "{:?} ", line.kind())?;
            }
            Ok(words)
        }
        Outcome::Spent { branches, splits } => {
            Ok(format!(in alloc; "spent {branches} {splits:?}")?)
        }
    }
}
