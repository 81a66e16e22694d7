//! Leaves that close in one step.
ghost use Rattle.std.specs.Prelude.{◌≡◌, ◌<◌, pos, true, length, All, Contains, IfOk, IfSome, IfNone, MatchOption};
ghost use Rattle.drg_linear.specs.Closing.{ClosesInOneStep};
ghost use Rattle.drg_linear.specs.Equations.{is_equation};
ghost use Rattle.drg_linear.specs.Systems.{FitsOver};
ghost use Rattle.drg_linear.specs.Unknowns.{place};
ghost use Rattle.drg_linear.specs.Values.{greatest_value as the_greatest_value};
ghost use Rattle.drg_rooms.specs.Combinations.{equation_at};
ghost use Rattle.drg_solver.specs.Closings.{ClosesBy};
ghost use Rattle.drg_solver.specs.Parts.{IsPart};
ghost use Rattle.drg_solver.specs.Sums.{AreSums};
ghost use Rattle.drg_solver.specs.Tables.{AreLeft, IsBelow, NoneCrosses};

use crate::closing::{Bound, Closing};
use crate::modulus::first_modulus;
use crate::sums::{Sums, first_miss};
use crate::table::{least_at, least_values};
use crate::values::greatest_value;
use drg_linear::{Equation, Room, System, Unknown};
use std::alloc::{AllocError, Global};

/// The values of the unknown of a term, where the greatest one that equation n leaves is below the one
/// in the table.
fn crossed(
    room: &Room,
    equations: &[Equation],
    n: usize,
    sums: Sums,
    term: (Unknown, i128),
    table: &[Option<Bound>],
) -> Option<Closing>
    requires number { n < length equations.now }
    requires fits { All (FitsOver room.now) equations.now }
    requires equations { All (λ e. is_equation e ≡ true) equations.now }
    requires sums { AreSums room.now (equation_at equations.now (pos n)) sums }
    requires term { Contains (equation_at equations.now (pos n)).terms term }
    requires table { AreLeft room.now.d room.now.bounds equations.now table.now }
    ensures some { IfSome result (ClosesBy room.now.d room.now.bounds equations.now) }
    ensures none { IfNone result (IsBelow table.now (place room.now.d term.0)
        (the_greatest_value room.now.d room.now.bounds term.0 (equation_at equations.now (pos n)))) }
{
    let low = least_at(table, term.0.place(room.d()))?;
    let number = greatest_value(room, &equations[n], sums, term).value;
    if number >= low.number {
        return None;
    }
    let high = Bound {
        unknown: term.0,
        number,
        equation: n,
    };
    Some(Closing::Values { low, high })
}

/// The first term of equation n at which values cross.
fn crossing(
    room: &Room,
    equations: &[Equation],
    n: usize,
    table: &[Option<Bound>],
) -> Option<Closing>
    requires number { n < length equations.now }
    requires fits { All (FitsOver room.now) equations.now }
    requires equations { All (λ e. is_equation e ≡ true) equations.now }
    requires table { AreLeft room.now.d room.now.bounds equations.now table.now }
    ensures some { IfSome result (ClosesBy room.now.d room.now.bounds equations.now) }
    ensures none { IfNone result (NoneCrosses room.now.d room.now.bounds table.now
        (equation_at equations.now (pos n))) }
{
    let equation = &equations[n];
    let sums = Sums::of(room, equation);
    'terms: for term in equation.terms.as_slice() {
        let closing = crossed(room, equations, n, sums, *term, table);
        if closing.is_some() {
            return closing;
        }
    }
    None
}

/// The first equation at which values cross.
fn first_crossing(room: &Room, equations: &[Equation], table: &[Option<Bound>]) -> Option<Closing>
    requires fits { All (FitsOver room.now) equations.now }
    requires equations { All (λ e. is_equation e ≡ true) equations.now }
    requires table { AreLeft room.now.d room.now.bounds equations.now table.now }
    ensures some { IfSome result (ClosesBy room.now.d room.now.bounds equations.now) }
    ensures none { IfNone result
        (All (NoneCrosses room.now.d room.now.bounds table.now) equations.now) }
{
    'equations: for n in 0..equations.len() {
        let closing = crossing(room, equations, n, table);
        if closing.is_some() {
            return closing;
        }
    }
    None
}

/// How a leaf closes in one step, where it does.
pub fn one_step(alloc: Global, system: &System, room: &Room) -> Result<Option<Closing>, AllocError>
    requires { IsPart system.now.room room.now }
    ensures { IfOk result (λ found. MatchOption found
        (ClosesInOneStep room.now.d room.now.bounds system.now.equations → ⊥)
        (ClosesBy room.now.d room.now.bounds system.now.equations)) }
{
    let equations = system.equations();
    if let Some(n) = first_miss(room, equations) {
        return Ok(Some(Closing::Miss(n)));
    }
    let closing = first_modulus(room, equations);
    if closing.is_some() {
        return Ok(closing);
    }
    let table = least_values(alloc, room, equations)?;
    Ok(first_crossing(room, equations, &table))
}
