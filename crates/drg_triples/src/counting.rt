//! The counting system of a type.

ghost use Rattle.std.specs.Prelude.{◌≡◌, ◌≤◌, ◌∷◌, [], pos, unsigned_abs, ◌+ℤ◌, ◌-ℤ◌, ◌≤ℤ◌, ◌&&◌, IfOk, IfErr, OnOk};
ghost use Rattle.drg_algebra.specs.Sums.{bit};
ghost use Rattle.drg_linear.specs.declared.bounds.End.TheVariants.{Greatest};
ghost use Rattle.drg_linear.specs.Rooms.{end_products};
ghost use Rattle.drg_linear.specs.Triples.{unknown_over as the_unknown_over, opposite as the_opposite, fixed_number as the_fixed_number, sum_over};
ghost use Rattle.drg_whole.specs.Range.{Gives, InRange, in_range};
ghost use Rattle.drg_whole.specs.Sums.{sum_from, sum_fits_from};
ghost use Rattle.drg_whole.specs.Whole.{value_of};
ghost use Rattle.drg_triples.specs.LiveTypes.{IsLiveType};
ghost use Rattle.drg_triples.specs.Counting.{IsCounted, counted_at, counted_of, counted_with, counting_system as the_counting_system, equation_of as the_equation_of, extended, name_of as the_name_of, number_of_vertex as the_number_of_vertex, starting_room as the_starting_room};
ghost use Rattle.drg_triples.specs.Faults.{AllFit, IsFault, IsFaultAmong, node_of as the_node_of};

use crate::counted::Counted;
use crate::fault::TripleFault;
use crate::room::starting_room;
use drg_array::{MAX_DIAMETER, Node};
use drg_intersection::Numbers;
use drg_linear::{
    End, Equation, EquationName, Room, System, Terms, TripleType, Unknown, Vertex, end_sum_onto,
};
use drg_whole::{Whole, Wide};
use std::alloc::{AllocError, Global};

/// The counting system of a live type: a room in which each unknown is from 0 to its high bound, and
/// the counting equations by their vertex and their two distances, each with the name of its line. A
/// fault names the first equation that doesn't fit.
pub fn counting_system(
    alloc: Global,
    numbers: &Numbers,
    ty: TripleType,
) -> Result<System, TripleFault>
    requires { IsLiveType numbers.now ty }
    ensures system { IfOk result (λ system. system ≡ the_counting_system numbers.now ty) }
    ensures fit { OnOk result (AllFit numbers.now ty (counted_of numbers.now.d)) }
    ensures fault { IfErr result (IsFault numbers.now ty) }
{
    let mut system = System::make(alloc, starting_room(alloc, numbers, ty)?);
    add_equations_at(alloc, numbers, ty, Vertex::First, &mut system)?;
    add_equations_at(alloc, numbers, ty, Vertex::Second, &mut system)?;
    add_equations_at(alloc, numbers, ty, Vertex::Third, &mut system)?;
    Ok(system)
}

/// Appends the equations of a vertex.
fn add_equations_at(
    alloc: Global,
    numbers: &Numbers,
    ty: TripleType,
    vertex: Vertex,
    system: &mut System,
) -> Result<(), TripleFault>
    requires live { IsLiveType numbers.now ty }
    requires room { system.old.room ≡ the_starting_room numbers.now ty }
    ensures system { OnOk result
        (system.new ≡ extended numbers.now ty system.old (counted_at numbers.now.d vertex)) }
    ensures fit { OnOk result (AllFit numbers.now ty (counted_at numbers.now.d vertex)) }
    ensures fault { IfErr result
        (IsFaultAmong numbers.now ty (counted_at numbers.now.d vertex)) }
{
    let d = numbers.d();
    'firsts: for x in 0..d {
        add_equations_with(alloc, numbers, ty, vertex, x + 1, system)?;
    }
    Ok(())
}

/// Those with this x.
fn add_equations_with(
    alloc: Global,
    numbers: &Numbers,
    ty: TripleType,
    vertex: Vertex,
    x: usize,
    system: &mut System,
) -> Result<(), TripleFault>
    requires live { IsLiveType numbers.now ty }
    requires some { 1 ≤ x }
    requires inside { x ≤ numbers.now.d }
    requires room { system.old.room ≡ the_starting_room numbers.now ty }
    ensures system { OnOk result
        (system.new ≡ extended numbers.now ty system.old (counted_with numbers.now.d vertex x)) }
    ensures fit { OnOk result (AllFit numbers.now ty (counted_with numbers.now.d vertex x)) }
    ensures fault { IfErr result
        (IsFaultAmong numbers.now ty (counted_with numbers.now.d vertex x)) }
{
    let d = numbers.d();
    'seconds: for y in 0..d {
        let counted = counted_by(vertex, x, y + 1);
        add_equation(alloc, numbers, ty, counted, system)?;
    }
    Ok(())
}

/// Appends one equation.
fn add_equation(
    alloc: Global,
    numbers: &Numbers,
    ty: TripleType,
    counted: Counted,
    system: &mut System,
) -> Result<(), TripleFault>
    requires live { IsLiveType numbers.now ty }
    requires counted { IsCounted numbers.now.d counted }
    requires room { system.old.room ≡ the_starting_room numbers.now ty }
    ensures system { OnOk result
        (system.new ≡ extended numbers.now ty system.old (counted ∷ [])) }
    ensures fit { OnOk result (AllFit numbers.now ty (counted ∷ [])) }
    ensures fault { IfErr result (IsFaultAmong numbers.now ty (counted ∷ [])) }
{
    let equation = equation_of(alloc, numbers, ty, counted)?;
    if weight(system.room(), &equation).is_err() {
        return Err(TripleFault::Wide {
            node: node_of(ty, counted),
        });
    }
    system.push(name_of(counted), equation)?;
    Ok(())
}

/// What is counted for a vertex and two distances.
fn counted_by(vertex: Vertex, x: usize, y: usize) -> Counted
    requires x { x ≤ MAX_DIAMETER }
    requires y { y ≤ MAX_DIAMETER }
    ensures { result ≡ record { vertex = vertex; x = x; y = y } }
{
    Counted {
        vertex,
        x: index(x),
        y: index(y),
    }
}

/// The index, which is small.
fn index(n: usize) -> u8
    requires { n ≤ MAX_DIAMETER }
    ensures { result ≡ n }
{
    n as u8
}

/// The number that stands for a vertex in names.
fn number_of_vertex(vertex: Vertex) -> u8
    ensures { result ≡ the_number_of_vertex vertex }
{
    match vertex {
        Vertex::First => 1,
        Vertex::Second => 2,
        Vertex::Third => 3,
    }
}

/// The name of an equation.
fn name_of(counted: Counted) -> EquationName
    ensures { result ≡ the_name_of counted }
{
    EquationName::Eq {
        a: number_of_vertex(counted.vertex),
        x: counted.x,
        y: counted.y,
    }
}

/// The node of an equation.
fn node_of(ty: TripleType, counted: Counted) -> Node
    ensures { result ≡ the_node_of ty counted }
{
    Node::Eq {
        u: ty.u,
        v: ty.v,
        w: ty.w,
        a: number_of_vertex(counted.vertex),
        x: counted.x,
        y: counted.y,
    }
}

/// The unknown at distance q from the vertex of an equation.
fn unknown_over(counted: Counted, q: u8) -> Unknown
    ensures { result ≡ the_unknown_over counted.vertex counted.x counted.y q }
{
    let Counted { vertex, x, y } = counted;
    match vertex {
        Vertex::First => Unknown { r: q, s: x, t: y },
        Vertex::Second => Unknown { r: x, s: q, t: y },
        Vertex::Third => Unknown { r: x, s: y, t: q },
    }
}

/// The distance of the two other vertices.
fn opposite(ty: TripleType, vertex: Vertex) -> u8
    ensures { result ≡ the_opposite ty vertex }
{
    match vertex {
        Vertex::First => ty.u,
        Vertex::Second => ty.v,
        Vertex::Third => ty.w,
    }
}

/// Whether the vertex itself is among those that are counted.
fn is_fixed(ty: TripleType, counted: Counted) -> bool
    ensures { pos (bit result) ≡ the_fixed_number ty counted.vertex counted.x counted.y }
{
    let Counted { vertex, x, y } = counted;
    match vertex {
        Vertex::First => x == ty.w && y == ty.v,
        Vertex::Second => x == ty.w && y == ty.u,
        Vertex::Third => x == ty.v && y == ty.u,
    }
}

/// The right side of an equation.
fn right_side(numbers: &Numbers, ty: TripleType, counted: Counted) -> Whole
    requires live { IsLiveType numbers.now ty }
    requires counted { IsCounted numbers.now.d counted }
    ensures { result.value ≡ (the_equation_of numbers.now ty counted).right }
{
    let h = usize::from(opposite(ty, counted.vertex));
    let all = numbers.p(h, usize::from(counted.x), usize::from(counted.y));
    Whole::new(less_bit(all, is_fixed(ty, counted)))
}

/// A number that isn't negative, less 1 where that is asked.
fn less_bit(number: i128, one: bool) -> i128
    requires { pos 0 ≤ℤ number }
    ensures value { result ≡ number -ℤ pos (bit one) }
    ensures range { InRange result }
{
    if one { number - 1 } else { number }
}

/// The terms of an equation.
fn terms_over(alloc: Global, d: usize, counted: Counted) -> Result<Terms, AllocError>
    requires { d ≤ MAX_DIAMETER }
    ensures { IfOk result (λ terms.
        terms ≡ sum_over d counted.vertex counted.x counted.y) }
{
    let mut terms = Vec::new(alloc);
    'distances: for q in 0..d {
        terms.push((unknown_over(counted, index(q + 1)), 1))?;
    }
    Ok(Terms::new(terms))
}

/// The counting equation.
fn equation_of(
    alloc: Global,
    numbers: &Numbers,
    ty: TripleType,
    counted: Counted,
) -> Result<Equation, AllocError>
    requires live { IsLiveType numbers.now ty }
    requires counted { IsCounted numbers.now.d counted }
    ensures { IfOk result (λ equation. equation ≡ the_equation_of numbers.now ty counted) }
{
    let right = right_side(numbers, ty, counted);
    equation_with(alloc, numbers.d(), counted, right)
}

/// The counting equation with this right side.
fn equation_with(
    alloc: Global,
    d: usize,
    counted: Counted,
    right: Whole,
) -> Result<Equation, AllocError>
    requires { d ≤ MAX_DIAMETER }
    ensures { IfOk result (λ equation. equation ≡ record {
      terms = sum_over d counted.vertex counted.x counted.y;
      right = right.value;
    }) }
{
    Ok(Equation {
        terms: terms_over(alloc, d, counted)?,
        right: right.value,
    })
}

/// The greatest sum of the terms of an equation in a room, and the magnitude of its right side.
fn weight(room: &Room, equation: &Equation) -> Result<Whole, Wide>
    ensures { let products = end_products room.now.d Greatest room.now.bounds equation.now.terms in
        let sum = sum_from (pos 0) products +ℤ pos (unsigned_abs equation.now.right) in
        Gives value_of result (sum_fits_from (pos 0) products && in_range sum) sum }
{
    let sum = end_sum_onto(
        Whole::new(0),
        room.d(),
        End::Greatest,
        room.as_slice(),
        equation.terms.as_slice(),
    )?;
    sum.plus(magnitude(equation.right_side()))
}

/// The magnitude of a number.
fn magnitude(number: Whole) -> Whole
    ensures { result.value ≡ pos (unsigned_abs number.value) }
{
    if number.value < 0 {
        number.negated()
    } else {
        number
    }
}
