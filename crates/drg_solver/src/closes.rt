//! Lines that were proposed are tried before they are written.
ghost use Rattle.std.specs.Prelude.{◌≡◌, ◌∷◌, [], IsTrue, IfOk};
ghost use Rattle.drg_solver.specs.Findings.{CloseLeaf, state};
ghost use Rattle.drg_solver.specs.Trials.{IsTaken, is_combination as the_is_combination};
ghost use Rattle.drg_solver.specs.Parts.{IsPart};

use drg_derivation::Line;
use drg_linear::{Equation, Room, System, Terms};
use drg_rooms::{Branches, RoomFault};
use std::alloc::{AllocError, Global};

/// The most lines that are tried on a leaf, as a branch has at most 64 `low` and `high` lines.
const MOST_LINES: usize = 64;

/// A copy of an equation.
pub fn copied(alloc: Global, equation: &Equation) -> Result<Equation, AllocError>
    ensures { IfOk result (λ copy. copy ≡ equation.now) }
{
    let terms = Vec::from_slice(alloc, equation.terms.as_slice())?;
    Ok(Equation {
        terms: Terms::new(terms),
        right: equation.right,
    })
}

/// One open branch with the room of a leaf, after the equations of the system.
fn open(alloc: Global, system: &System, room: &Room) -> Result<Branches, AllocError>
    requires { room.now.d ≡ system.now.room.d }
    ensures { IfOk result (λ branches.
        branches ≡ state system.now.room.d system.now.equations (room.now.bounds ∷ [])) }
{
    let bounds = Vec::from_slice(alloc, room.as_slice())?;
    let mut branches = Branches::start(alloc, room.d(), bounds);
    'equations: for equation in system.equations() {
        branches.push(copied(alloc, equation)?)?;
    }
    Ok(branches)
}

/// Whether a line makes a combination.
fn is_combination(line: &Line) -> bool
    ensures { result ≡ the_is_combination line.now }
{
    matches!(line, Line::Comb { .. })
}

/// Takes a line that makes no combination, where it is met.
pub fn take(branches: &mut Branches, line: &Line) -> Result<bool, AllocError>
    ensures { IfOk result (λ taken. IsTrue taken → IsTaken branches.old line.now branches.new) }
{
    if is_combination(line) {
        return Ok(false);
    }
    match branches.step(line) {
        Ok(()) => Ok(true),
        Err(RoomFault::Memory) => Err(AllocError),
        Err(_) => Ok(false),
    }
}

/// Whether these lines, which make no combination, close the leaf. Where they don't, or are more than a
/// branch may have, nothing is said of them.
pub fn closes(
    alloc: Global,
    system: &System,
    room: &Room,
    lines: &[Line],
) -> Result<bool, AllocError>
    requires { IsPart system.now.room room.now }
    ensures { IfOk result (λ closes. IsTrue closes → CloseLeaf system.now room.now lines.now) }
{
    if lines.len() > MOST_LINES {
        return Ok(false);
    }
    let mut branches = open(alloc, system, room)?;
    'lines: for line in lines {
        if !branches.is_open() || !take(&mut branches, line)? {
            return Ok(false);
        }
    }
    Ok(!branches.is_open())
}
