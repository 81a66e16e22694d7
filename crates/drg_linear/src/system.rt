//! Systems: a room, and equations that fit over it, each with its name.
ghost use Rattle.std.specs.Prelude.{◌≡◌, ◌↔◌, ◌<◌, ◌^◌, ◌≤ℤ◌, ◌+ℤ◌, ◌&&◌, ◌++◌, ◌∷◌, [], true, length, All, IsTrue, MatchResult, pos, slice_set, slice_index_or};
ghost use Rattle.drg_whole.specs.Range.{Gives, in_range};
ghost use Rattle.drg_whole.specs.Whole.{value_of};
ghost use Rattle.drg_linear.specs.Unknowns.{is_unknown, place};
ghost use Rattle.drg_linear.specs.Equations.{Meets, MeetsAll};
ghost use Rattle.drg_linear.specs.Rooms.{InRoom, IsRoom, IsSolution, bounds_at as the_bounds_at};
ghost use Rattle.drg_linear.specs.Assignments.{number_at as the_number_at, term_value, value_fits, value_at};
ghost use Rattle.drg_linear.specs.Systems.{FitsOver};

use crate::assignment::{Assignment, number_at};
use crate::equation::Equation;
use crate::room::Room;
use crate::unknown::Unknown;
use drg_whole::{Product, Whole, Wide};
use std::alloc::{AllocError, Global};
use std::marker::Model;

/// The numbers of the line that makes an equation.
#[derive(Clone, Copy, Debug, PartialEq, Eq)]
pub enum EquationName {
    /// The counting equation of this vertex, which is 1, 2 or 3, and these two distances.
    Eq { a: u8, x: u8, y: u8 },
    /// A part of the equation of the Krein parameter `q^h_ij`, which is 0: part 0 is the rational
    /// one, and part 1 that of the root.
    Keq { i: u8, j: u8, h: u8, part: u8 },
}

/// The division of a leaf in two: the leaves are a list that starts with the whole room. The side up
/// to `at` stays in the place `leaf`, counted from 0, and the side above `at` goes to the end.
#[derive(Clone, Copy, Debug, PartialEq, Eq)]
pub struct Branching {
    pub leaf: u32,
    pub unknown: Unknown,
    pub at: i128,
}

/// A room, and equations with their names. Each equation fits over the room: the sum of
/// `|coefficient|·high` and `|right|` is at most `2^127 - 1`.
#[derive(Debug, Drop)]
pub struct System {
    room: Room,
    names: Vec<EquationName>,
    equations: Vec<Equation>,
}

impl Model for System {
    ghost use Rattle.drg_linear.specs.Systems.{IsSystem, SystemContent};

    ghost Value = { SystemContent };

    ghost view = { λ s. record { room = s.room; names = s.names.items; equations = s.equations.items } };

    ghost invariant = { λ s. IsSystem
        (record { room = s.room; names = s.names.items; equations = s.equations.items }) };
}

impl System {
    /// The room without any equation. Takes no memory.
    pub fn make(alloc: Global, room: Room) -> System
        ensures { result ≡ record { room = room; names = []; equations = [] } }
    {
        System {
            room,
            names: Vec::new(alloc),
            equations: Vec::new(alloc),
        }
    }

    /// The greatest of an unknown's numbers.
    pub fn d(&self) -> usize
        ensures { result ≡ self.now.room.d }
    {
        self.room.d()
    }

    /// The room.
    pub fn room(&self) -> &Room
        ensures { result.now ≡ self.now.room }
    {
        &self.room
    }

    /// The equations, in their order.
    pub fn equations(&self) -> &[Equation]
        ensures value { result.now ≡ self.now.equations }
        ensures fit { All (FitsOver self.now.room) self.now.equations }
    {
        &self.equations
    }

    /// The name with which equation n was pushed.
    pub fn name(&self, n: usize) -> EquationName
        requires { n < length self.now.equations }
        ensures { result ≡ slice_index_or self.now.names n result }
    {
        self.names[n]
    }

    /// Appends an equation with its name. Where it fails, nothing has changed.
    pub fn push(&mut self, name: EquationName, equation: Equation) -> Result<(), AllocError>
        requires { FitsOver self.old.room equation }
        ensures { MatchResult result
            (λ _. self.new ≡ record self.old {
              names = self.old.names ++ name ∷ [];
              equations = self.old.equations ++ equation ∷ [];
            })
            (λ _. self.new ≡ self.old) }
    {
        self.names.push(name)?;
        match self.equations.push(equation) {
            Ok(()) => Ok(()),
            Err(failed) => {
                self.names.pop();
                Err(failed.into())
            }
        }
    }

    /// The system with these bounds of an unknown, which lie within the old ones. Takes no memory.
    pub fn narrow(self, x: Unknown, low: i128, high: i128) -> System
        requires unknown { is_unknown self.room.d x ≡ true }
        requires low { (the_bounds_at self.room.bounds (place self.room.d x)).0 ≤ℤ low }
        requires high { high ≤ℤ (the_bounds_at self.room.bounds (place self.room.d x)).1 }
        requires order { low ≤ℤ high }
        ensures { result ≡ record self {
          room = record self.room {
            bounds = slice_set self.room.bounds (place self.room.d x) (low, high);
          };
        } }
    {
        let place = x.place(self.room.d());
        System {
            room: self.room.with(place, (low, high)),
            names: self.names,
            equations: self.equations,
        }
    }
}

/// Whether each number lies within the bounds at its place.
fn lies_in(room: &[(i128, i128)], values: &[i128]) -> bool
    requires { length values.now ≡ length room.now }
    ensures { IsTrue result ↔ InRoom (the_number_at values.now) room.now }
{
    'places: for (i, bounds) in room.iter().enumerate() {
        let value = number_at(values, i);
        if value < bounds.0 || bounds.1 < value {
            return false;
        }
    }
    true
}

/// The total with what a term comes to at these numbers: first the product, then the sum.
fn plus_term(total: Whole, d: usize, values: &[i128], term: (Unknown, i128)) -> Result<Whole, Wide>
    requires { d < 2 ^ 8 }
    ensures { let product = term_value d values.now term in
        Gives value_of result
        (in_range product && in_range (total.value +ℤ product)) (total.value +ℤ product) }
{
    let product = Product {
        left: term.1,
        right: number_at(values, term.0.place(d)),
    };
    total.plus(product.value()?)
}

/// The terms at these numbers, added from left to right.
fn value_of_terms(d: usize, values: &[i128], terms: &[(Unknown, i128)]) -> Result<Whole, Wide>
    requires { d < 2 ^ 8 }
    ensures { Gives value_of result
        (value_fits d values.now terms.now) (value_at d values.now terms.now) }
{
    let mut sum = Whole::new(0);
    'terms: for term in terms {
        sum = plus_term(sum, d, values, *term)?;
    }
    Ok(sum)
}

/// Whether an equation holds at numbers within the room.
fn meets(room: &Room, values: &[i128], equation: &Equation) -> bool
    requires inside { InRoom (the_number_at values.now) room.now.bounds }
    requires fits { FitsOver room.now equation.now }
    ensures { IsTrue result ↔ Meets room.now.d (the_number_at values.now) equation.now }
{
    match value_of_terms(room.d(), values, equation.terms.as_slice()) {
        Ok(sum) => sum.value == equation.right,
        Err(Wide) => false,
    }
}

/// Whether all equations hold at numbers within the room.
fn meets_all(room: &Room, values: &[i128], equations: &[Equation]) -> bool
    requires inside { InRoom (the_number_at values.now) room.now.bounds }
    requires fit { All (FitsOver room.now) equations.now }
    ensures { IsTrue result ↔ MeetsAll room.now.d (the_number_at values.now) equations.now }
{
    'equations: for equation in equations {
        if !meets(room, values, equation) {
            return false;
        }
    }
    true
}

/// Whether the numbers are a solution: all lie in the room, and all equations hold.
pub fn holds(system: &System, values: &Assignment) -> bool
    requires { values.now.d ≡ system.now.room.d }
    ensures { IsTrue result ↔ IsSolution system.now.room.d system.now.room.bounds
        system.now.equations (the_number_at values.now.values) }
{
    let room = system.room();
    let numbers = values.as_slice();
    lies_in(room.as_slice(), numbers) && meets_all(room, numbers, system.equations())
}
