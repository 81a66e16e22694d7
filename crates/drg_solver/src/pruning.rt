//! The lines of a closing, without the equations that none of them names.
ghost use Rattle.std.specs.Prelude.{◌≡◌, ◌≤◌, ◌+◌, ℕ, ℤ, [], ◌∷◌, IfOk, IfSome};
ghost use Rattle.drg_linear.specs.Rooms.{IsRoom, IsSolution};
ghost use Rattle.drg_solver.specs.Answers.{IsClosing, opened};
ghost use Rattle.drg_solver.specs.Lines.{CloseAll, bounds_after as the_bounds_after};
ghost use Rattle.drg_solver.specs.Trials.{AreNamed};

use crate::closes::{copied, take};
use crate::lines::{line_of, names};
use drg_derivation::Line;
use drg_linear::System;
use drg_rooms::Branches;
use std::alloc::{AllocError, Global};

/// The most `low` and `high` lines of a branch.
const MOST_BOUNDS: usize = 64;

/// The number of the equation that a line names.
fn equation_of(line: &Line) -> Option<i128> {
    match line {
        Line::Low { n, .. } => Some(*n),
        Line::High { n, .. } => Some(*n),
        Line::Miss { n } => Some(*n),
        Line::Mod { n, .. } => Some(*n),
        _ => None,
    }
}

/// Which of so many equations the lines name.
fn used_by(alloc: Global, equations: usize, lines: &[Line]) -> Result<Vec<bool>, AllocError> {
    let mut used = vec![in alloc; false; equations]?;
    for line in lines {
        if let Some(number) = equation_of(line) {
            if let Ok(place) = usize::try_from(number) {
                if place < used.len() {
                    used[place] = true;
                }
            }
        }
    }
    Ok(used)
}

/// Whether the flag at a place is set.
fn is_set(flags: &[bool], place: usize) -> bool {
    place < flags.len() && flags[place]
}

/// The new numbers of equations, where those that aren't used are left out, by the old numbers.
fn numbers_of(alloc: Global, used: &[bool]) -> Result<Vec<i128>, AllocError> {
    let mut numbers = Vec::new(alloc);
    let mut next: i128 = 0;
    for flag in used {
        numbers.push(next)?;
        if *flag {
            next = next.saturating_add(1);
        }
    }
    Ok(numbers)
}

/// The new number of an equation.
fn new_number(numbers: &[i128], old: i128) -> Option<i128> {
    let place = usize::try_from(old).ok()?;
    if place < numbers.len() {
        return Some(numbers[place]);
    }
    None
}

/// The line with the new number of its equation.
fn renumbered(line: &Line, numbers: &[i128]) -> Option<Line> {
    match line {
        Line::Low { r, s, t, v, n } => Some(Line::Low {
            r: *r,
            s: *s,
            t: *t,
            v: *v,
            n: new_number(numbers, *n)?,
        }),
        Line::High { r, s, t, v, n } => Some(Line::High {
            r: *r,
            s: *s,
            t: *t,
            v: *v,
            n: new_number(numbers, *n)?,
        }),
        Line::Split { r, s, t, v } => Some(Line::Split {
            r: *r,
            s: *s,
            t: *t,
            v: *v,
        }),
        Line::Miss { n } => Some(Line::Miss {
            n: new_number(numbers, *n)?,
        }),
        Line::Mod { n, g } => Some(Line::Mod {
            n: new_number(numbers, *n)?,
            g: *g,
        }),
        Line::Void { r, s, t } => Some(Line::Void {
            r: *r,
            s: *s,
            t: *t,
        }),
        _ => None,
    }
}

/// How many bound lines the branch in hand has after a line.
fn bounds_after(line: &Line, before: usize) -> usize
    requires { before ≤ 64 }
    ensures { result ≡ the_bounds_after line.now before }
{
    match line {
        Line::Low { .. } => before + 1,
        Line::High { .. } => before + 1,
        Line::Split { .. } => 0,
        Line::Miss { .. } => 0,
        Line::Mod { .. } => 0,
        Line::Void { .. } => 0,
        _ => before,
    }
}

/// Pushes the equations that are used, and gives the lines that name them.
fn name_used(
    alloc: Global,
    system: &System,
    used: &[bool],
    branches: &mut Branches,
) -> Result<Vec<Line>, AllocError>
    requires { branches.old ≡ opened system.now [] }
    ensures { IfOk result (λ names. AreNamed system.now names.items branches.new) }
{
    let equations = system.equations();
    let mut names = Vec::new(alloc);
    'equations: for n in 0..equations.len() {
        if is_set(used, n) {
            branches.push(copied(alloc, &equations[n])?)?;
            names.push(line_of(system.name(n)))?;
        }
    }
    Ok(names)
}

/// The lines with new numbers, where they close every branch.
fn follow(
    alloc: Global,
    branches: &mut Branches,
    lines: &[Line],
    numbers: &[i128],
) -> Result<Option<Vec<Line>>, AllocError>
    ensures { IfOk result (λ found. IfSome found (λ followed. CloseAll branches.old 0 followed.items)) }
{
    let mut followed = Vec::new(alloc);
    let mut bounds = 0;
    'lines: for line in lines {
        let Some(new) = renumbered(line, numbers) else {
            return Ok(None);
        };
        bounds = bounds_after(&new, bounds);
        if bounds > MOST_BOUNDS || !branches.is_open() || !take(branches, &new)? {
            return Ok(None);
        }
        followed.push(new)?;
    }
    if branches.is_open() {
        return Ok(None);
    }
    Ok(Some(followed))
}

/// The whole room of a system as one open branch, before any equation.
fn whole(alloc: Global, system: &System) -> Result<Branches, AllocError>
    ensures branches { IfOk result (λ branches. branches ≡ opened system.now []) }
    ensures room { IfOk result (λ _. IsRoom system.now.room) }
{
    let room = system.room();
    let bounds = Vec::from_slice(alloc, room.as_slice())?;
    Ok(Branches::start(alloc, room.d(), bounds))
}

/// The lines that close a system, with the equations that they need alone, where they can be followed
/// so.
fn pruned(alloc: Global, system: &System, lines: &[Line]) -> Result<Option<Vec<Line>>, AllocError>
    requires { (x : ℕ → ℤ) → IsSolution system.now.room.d system.now.room.bounds
        system.now.equations x → ⊥ }
    ensures closing { IfOk result (λ found. IfSome found (λ all. IsClosing system.now all.items)) }
    ensures room { IfOk result (λ _. IsRoom system.now.room) }
{
    let used = used_by(alloc, system.equations().len(), lines)?;
    let numbers = numbers_of(alloc, &used)?;
    let mut branches = whole(alloc, system)?;
    let mut all = name_used(alloc, system, &used, &mut branches)?;
    let Some(mut followed) = follow(alloc, &mut branches, lines, &numbers)? else {
        return Ok(None);
    };
    all.append(&mut followed)?;
    Ok(Some(all))
}

/// The lines that name equations of a system, and then close every branch.
pub fn derivation(alloc: Global, system: &System, lines: Vec<Line>) -> Result<Vec<Line>, AllocError>
    requires closed { CloseAll (opened system.now system.now.equations) 0 lines.items }
    requires none { (x : ℕ → ℤ) → IsSolution system.now.room.d system.now.room.bounds
        system.now.equations x → ⊥ }
    ensures { IfOk result (λ all. IsClosing system.now all.items) }
{
    if let Some(all) = pruned(alloc, system, &lines)? {
        return Ok(all);
    }
    let mut all = names(alloc, system)?;
    let mut rest = lines;
    all.append(&mut rest)?;
    Ok(all)
}
