//! The greatest of the least values that equations leave to each unknown.
ghost use Rattle.std.specs.Prelude.{◌≡◌, None, true, All, IfOk, length, replicate, slice_index_or};
ghost use Rattle.drg_linear.specs.Equations.{is_equation};
ghost use Rattle.drg_linear.specs.Systems.{FitsOver};
ghost use Rattle.drg_solver.specs.Tables.{greater as the_greater, with_equations, with_terms, with_value};

use crate::closing::Bound;
use crate::sums::Sums;
use crate::values::least_value;
use drg_linear::{Equation, Room};
use std::alloc::{AllocError, Global};

/// The value at a place, if one stands there.
pub fn least_at(table: &[Option<Bound>], place: usize) -> Option<Bound>
    ensures { result ≡ slice_index_or table.now place None }
{
    if place < table.len() {
        table[place]
    } else {
        None
    }
}

/// The greater one of what stands and a new value.
fn greater(old: Option<Bound>, new: Bound) -> Option<Bound>
    ensures { result ≡ the_greater old new }
{
    match old {
        Some(bound) if bound.number >= new.number => Some(bound),
        _ => Some(new),
    }
}

/// Puts a value at a place, where it is greater than what stands there.
fn put(table: &mut Vec<Option<Bound>>, place: usize, bound: Bound)
    ensures { table.new.items ≡ with_value table.old.items place bound }
{
    let greatest = greater(least_at(table, place), bound);
    if place < table.len() {
        table[place] = greatest;
    }
}

/// Puts the least values that equation n leaves to the unknowns of its terms into the table.
fn put_equation(room: &Room, n: usize, equation: &Equation, table: &mut Vec<Option<Bound>>)
    requires equation { is_equation equation.now ≡ true }
    requires fits { FitsOver room.now equation.now }
    ensures { table.new.items ≡ with_terms room.now.d room.now.bounds equation.now n
        table.old.items equation.now.terms }
{
    let sums = Sums::of(room, equation);
    'terms: for term in equation.terms.as_slice() {
        let bound = Bound {
            unknown: term.0,
            number: least_value(room, equation, sums, *term).value,
            equation: n,
        };
        put(table, term.0.place(room.d()), bound);
    }
}

/// The greatest of the least values that the equations leave to each unknown, by the places of the
/// unknowns.
pub fn least_values(
    alloc: Global,
    room: &Room,
    equations: &[Equation],
) -> Result<Vec<Option<Bound>>, AllocError>
    requires fits { All (FitsOver room.now) equations.now }
    requires equations { All (λ e. is_equation e ≡ true) equations.now }
    ensures { IfOk result (λ table. table.items ≡ with_equations room.now.d room.now.bounds 0
        (replicate (length room.now.bounds) None) equations.now) }
{
    let mut table = vec![in alloc; None; room.as_slice().len()]?;
    'equations: for (n, equation) in equations.iter().enumerate() {
        put_equation(room, n, equation, &mut table);
    }
    Ok(table)
}
