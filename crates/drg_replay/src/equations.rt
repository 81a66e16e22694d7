//! The equations of `eq` lines.
ghost use Rattle.std.specs.Prelude.{◌≡◌, true, unsigned_abs, ◌≤◌, ◌<◌, ◌^◌, ◌-ℤ◌, ℤ, pos, IfOk, MatchResult, Err};
ghost use Rattle.drg_algebra.specs.Sums.{bit};
ghost use Rattle.drg_array.specs.Entries.{diameter};
ghost use Rattle.drg_linear.specs.Triples.{unknown_over as the_unknown_over, opposite as the_opposite, fixed_number as the_fixed_number, sum_over};
ghost use Rattle.drg_whole.specs.Range.{Gives, in_range};
ghost use Rattle.drg_whole.specs.Whole.{value_of};
ghost use Rattle.drg_replay.specs.Indices.{is_index};
ghost use Rattle.drg_replay.specs.Steps.{first_failure};
ghost use Rattle.drg_replay.specs.Answers.{Makes};
ghost use Rattle.drg_replay.specs.Systems.{number, vertex_of as the_vertex_of, is_live as the_is_live, equation_of as the_equation_of, eq_steps};

use crate::counts::Counts;
use crate::index::index;
use crate::refusal::{Fault, Refusal, met_where};
use drg_array::Array;
use drg_linear::{Equation, Terms, TripleType, Unknown, Vertex};
use drg_whole::{Whole, Wide};
use std::alloc::{AllocError, Global};

/// The vertex that a number from 1 to 3 stands for.
fn vertex_of(n: i128) -> Vertex
    ensures { result ≡ the_vertex_of n }
{
    if n == 1 {
        Vertex::First
    } else if n == 2 {
        Vertex::Second
    } else {
        Vertex::Third
    }
}

/// The unknown with distance q from the vertex and x and y from the two others.
fn unknown_over(vertex: Vertex, x: u8, y: u8, q: u8) -> Unknown
    ensures { result ≡ the_unknown_over vertex x y q }
{
    match vertex {
        Vertex::First => Unknown { r: q, s: x, t: y },
        Vertex::Second => Unknown { r: x, s: q, t: y },
        Vertex::Third => Unknown { r: x, s: y, t: q },
    }
}

/// The distance of the two other vertices.
fn opposite(ty: TripleType, vertex: Vertex) -> u8
    ensures { result ≡ the_opposite ty vertex }
{
    match vertex {
        Vertex::First => ty.u,
        Vertex::Second => ty.v,
        Vertex::Third => ty.w,
    }
}

/// Whether the vertex itself is at distances x and y from the two others.
fn is_fixed(ty: TripleType, vertex: Vertex, x: u8, y: u8) -> bool
    ensures { pos (bit result) ≡ the_fixed_number ty vertex x y }
{
    match vertex {
        Vertex::First => x == ty.w && y == ty.v,
        Vertex::Second => x == ty.w && y == ty.u,
        Vertex::Third => x == ty.v && y == ty.u,
    }
}

/// The number less 1 where that is asked.
fn less_bit(number: i128, one: bool) -> Result<Whole, Wide>
    ensures { Gives value_of result
        (in_range (number -ℤ pos (bit one))) (number -ℤ pos (bit one)) }
{
    if !one {
        return Whole::checked(number);
    }
    match number.checked_sub(1) {
        None => Err(Wide),
        Some(less) => Whole::checked(less),
    }
}

/// The vertex, and the distances from the two others, of an `eq` line.
#[derive(Clone, Copy, Debug, PartialEq, Eq)]
struct Counted {
    vertex: Vertex,
    x: u8,
    y: u8,
}

/// The right side of a counting equation.
fn right_side(counts: &Counts, ty: TripleType, counted: Counted) -> Result<Whole, Wide>
    ensures { let right = number counts.now.rows (the_opposite ty counted.vertex) counted.x counted.y
        -ℤ the_fixed_number ty counted.vertex counted.x counted.y in
        Gives value_of result (in_range right) right }
{
    let h = usize::from(opposite(ty, counted.vertex));
    let all = counts.number(h, usize::from(counted.x), usize::from(counted.y));
    less_bit(all, is_fixed(ty, counted.vertex, counted.x, counted.y))
}

/// The terms of a counting equation.
fn terms_over(alloc: Global, d: u8, vertex: Vertex, x: u8, y: u8) -> Result<Terms, AllocError>
    requires { d < 2 ^ 7 }
    ensures { IfOk result (λ terms. terms ≡ sum_over d vertex x y) }
{
    let mut terms = Vec::new(alloc);
    'distances: for q in 0..d {
        terms.push((unknown_over(vertex, x, y, q + 1), 1))?;
    }
    Ok(Terms::new(terms))
}

/// The number, where it is small.
fn as_byte(n: usize) -> u8
    requires { n < 2 ^ 8 }
    ensures { result ≡ n }
{
    n as u8
}

/// Whether all rows of the three distances stand and `p^W_VU` is positive.
fn is_live(array: &Array, counts: &Counts, ty: TripleType) -> bool
    ensures { result ≡ the_is_live array.now counts.now.rows ty }
{
    let d = array.d();
    let (u, v, w) = (usize::from(ty.u), usize::from(ty.v), usize::from(ty.w));
    counts.row_stands(u, d)
        && counts.row_stands(v, d)
        && counts.row_stands(w, d)
        && counts.number(w, v, u) > 0
}

/// What is counted by an `eq` line with these numbers, where the type is live and they are in their
/// ranges.
fn counted_by(
    array: &Array,
    counts: &Counts,
    ty: TripleType,
    n: i128,
    x: i128,
    y: i128,
) -> Result<Counted, Refusal>
    ensures { MatchResult result
        (λ counted. (the_is_live array.now counts.now.rows ty ≡ true)
        × (is_index 1 n 3 ≡ true)
        × (is_index 1 x (diameter array.now) ≡ true)
        × (is_index 1 y (diameter array.now) ≡ true)
        × (counted.vertex ≡ the_vertex_of n)
        × (counted.x ≡ unsigned_abs x)
        × (counted.y ≡ unsigned_abs y))
        (λ refusal. first_failure (eq_steps array.now counts.now.rows ty n x y) ≡ Err refusal) }
{
    array.known_valid();
    let d = array.d();
    met_where(is_live(array, counts, ty))?;
    index(1, n, 3)?;
    let x = as_byte(index(1, x, d)?);
    let y = as_byte(index(1, y, d)?);
    Ok(Counted {
        vertex: vertex_of(n),
        x,
        y,
    })
}

/// The counting equation with this right side.
fn equation_with(
    alloc: Global,
    d: u8,
    counted: Counted,
    right: Whole,
) -> Result<Equation, AllocError>
    requires { d < 2 ^ 7 }
    ensures { IfOk result (λ equation. equation ≡ record {
      terms = sum_over d counted.vertex counted.x counted.y;
      right = right.value;
    }) }
{
    Ok(Equation {
        terms: terms_over(alloc, d, counted.vertex, counted.x, counted.y)?,
        right: right.value,
    })
}

/// The counting equation of an `eq` line with these numbers, where it is met.
pub fn equation_of_line(
    alloc: Global,
    array: &Array,
    counts: &Counts,
    ty: TripleType,
    n: i128,
    x: i128,
    y: i128,
) -> Result<Equation, Fault>
    ensures { Makes result (eq_steps array.now counts.now.rows ty n x y)
        (the_equation_of (diameter array.now) counts.now.rows ty n x y) }
{
    array.known_valid();
    let counted = counted_by(array, counts, ty, n, x, y)?;
    let right = match right_side(counts, ty, counted) {
        Ok(right) => right,
        Err(Wide) => return Err(Fault::Refused(Refusal::Wide)),
    };
    let equation = equation_with(alloc, as_byte(array.d()), counted, right)?;
    Ok(equation)
}
