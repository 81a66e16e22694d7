//! What is found of one leaf.
ghost use Rattle.std.specs.Prelude.{◌≡◌, true, map, All, IsTrue, IfOk, IfSome, IfNone};
ghost use Rattle.drg_linear.specs.Closing.{ClosesInOneStep};
ghost use Rattle.drg_linear.specs.Rooms.{Bounds};
ghost use Rattle.drg_linear.specs.Splits.{Divides};
ghost use Rattle.drg_linear.specs.Systems.{FitsOver, are_unknowns};
ghost use Rattle.drg_linear.specs.Unknowns.{place, is_unknown as the_is_unknown};
ghost use Rattle.drg_solver.specs.Findings.{IsFree, IsRight, NoneFree};
ghost use Rattle.drg_solver.specs.Parts.{IsPart};

use crate::closes::closes;
use crate::one_step::one_step;
use crate::proposal::{Proposal, Proposer};
use crate::rows::{Interval, interval_at};
use drg_derivation::Line;
use drg_linear::{Assignment, Equation, Room, System, Unknown, holds};
use std::alloc::{AllocError, Global};

/// What is found of a leaf.
#[derive(Debug, Drop)]
pub enum Finding {
    /// These lines close it.
    Closed(Vec<Line>),
    /// These numbers in it solve the system.
    Solved(Assignment),
    /// It doesn't close in one step, and the unknown has values up to `at` and above it.
    Divided { unknown: Unknown, at: i128 },
}

/// The first of these unknowns that has more than one value in the room.
fn free_term(room: &Room, terms: &[(Unknown, i128)]) -> Option<Unknown>
    requires { are_unknowns room.now.d terms.now ≡ true }
    ensures some { IfSome result (IsFree room.now) }
    ensures none { IfNone result (NoneFree room.now terms.now) }
{
    'terms: for term in terms {
        if room.low(term.0) < room.high(term.0) {
            return Some(term.0);
        }
    }
    None
}

/// The first unknown of an equation that has more than one value in the room.
fn first_free(room: &Room, equations: &[Equation]) -> Option<Unknown>
    requires { All (FitsOver room.now) equations.now }
    ensures some { IfSome result (IsFree room.now) }
    ensures none { IfNone result (All (λ e. NoneFree room.now e.terms) equations.now) }
{
    'equations: for equation in equations {
        let unknown = free_term(room, equation.terms.as_slice());
        if unknown.is_some() {
            return unknown;
        }
    }
    None
}

/// The low bounds of the room.
fn low_bounds(alloc: Global, room: &Room) -> Result<Assignment, AllocError>
    ensures { IfOk result (λ values. (values.d ≡ room.now.d)
        × (values.values ≡ map (λ (b : Bounds). b.0) room.now.bounds)) }
{
    let mut values = Vec::new(alloc);
    'bounds: for bounds in room.as_slice() {
        values.push(bounds.0)?;
    }
    Ok(Assignment::make(room.d(), values))
}

/// The values of intervals that have one each.
fn values_of(alloc: Global, room: &Room, intervals: &[Interval]) -> Result<Assignment, AllocError>
    ensures { IfOk result (λ values. values.d ≡ room.now.d) }
{
    let mut values = Vec::new(alloc);
    'places: for place in 0..room.as_slice().len() {
        values.push(interval_at(intervals, place).low.value)?;
    }
    Ok(Assignment::make(room.d(), values))
}

/// Whether the numbers of the unknown are from 1 to d.
pub fn is_unknown(d: usize, u: Unknown) -> bool
    ensures { result ≡ the_is_unknown d u }
{
    let (r, s, t) = (usize::from(u.r), usize::from(u.s), usize::from(u.t));
    1 <= r && r <= d && 1 <= s && s <= d && 1 <= t && t <= d
}

/// Whether the unknown has values up to `at` and above it.
fn has_sides(room: &Room, unknown: Unknown, at: i128) -> bool
    ensures unknown { IsTrue result → the_is_unknown room.now.d unknown ≡ true }
    ensures sides { IsTrue result → Divides room.now.bounds (place room.now.d unknown) at }
{
    is_unknown(room.d(), unknown) && room.low(unknown) <= at && at < room.high(unknown)
}

/// What is proposed for a leaf, where it does what it was proposed for.
fn proposed(
    alloc: Global,
    system: &System,
    proposer: &mut Proposer,
    room: &Room,
) -> Result<Option<Finding>, AllocError>
    requires part { IsPart system.now.room room.now }
    requires unclosed { ClosesInOneStep room.now.d room.now.bounds system.now.equations → ⊥ }
    ensures { IfOk result (λ found. IfSome found (IsRight system.now room.now)) }
{
    match proposer.propose(alloc, room)? {
        Proposal::Closing(lines) => {
            if closes(alloc, system, room, &lines)? {
                return Ok(Some(Finding::Closed(lines)));
            }
        }
        Proposal::Values(intervals) => {
            let values = values_of(alloc, system.room(), &intervals)?;
            if holds(system, &values) {
                return Ok(Some(Finding::Solved(values)));
            }
        }
        Proposal::Division { unknown, at } => {
            if has_sides(room, unknown, at) {
                return Ok(Some(Finding::Divided { unknown, at }));
            }
        }
        Proposal::Nothing => {}
    }
    Ok(None)
}

/// Closes a leaf, solves the system in it, or says where to divide it.
pub fn find(
    alloc: Global,
    system: &System,
    proposer: &mut Proposer,
    room: &Room,
) -> Result<Finding, AllocError>
    requires { IsPart system.now.room room.now }
    ensures { IfOk result (IsRight system.now room.now) }
{
    let equations = system.equations();
    if let Some(closing) = one_step(alloc, system, room)? {
        return Ok(Finding::Closed(closing.lines(alloc)?));
    }
    if let Some(finding) = proposed(alloc, system, proposer, room)? {
        return Ok(finding);
    }
    match first_free(room, equations) {
        Some(unknown) => Ok(Finding::Divided {
            unknown,
            at: room.low(unknown),
        }),
        None => Ok(Finding::Solved(low_bounds(alloc, room)?)),
    }
}
