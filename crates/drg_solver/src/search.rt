//! The search, depth first, with a budget of branches.
ghost use Rattle.std.specs.Prelude.{◌≡◌, ◌*◌, ◌≤◌, IfOk};
ghost use Rattle.drg_linear.specs.Rooms.{IsRoom, points};
ghost use Rattle.drg_solver.specs.Answers.{IsAnswer, IsDecided};

use crate::finding::{Finding, find};
use crate::leaf::{Leaf, divide};
use crate::lines::split_line;
use crate::outcome::Outcome;
use crate::proposal::Proposer;
use crate::pruning::derivation;
use drg_derivation::Line;
use drg_linear::{Branching, Room, System};
use std::alloc::{AllocError, Global};

/// The whole room of a system, as the first leaf.
fn whole(alloc: Global, system: &System) -> Result<Leaf, AllocError>
    ensures leaf { IfOk result (λ leaf. leaf ≡ record { place = 0; room = system.now.room }) }
    ensures room { IsRoom system.now.room }
{
    let room = system.room();
    let bounds = Vec::from_slice(alloc, room.as_slice())?;
    Ok(Leaf {
        place: 0,
        room: Room::make(room.d(), bounds),
    })
}

/// Searches the room of a system for a solution, and opens at most `budget` branches, at least one.
///
/// A branch is the whole room or one side of a split. The answer is a solution; or lines that close
/// every branch, where there is none; or [`Outcome::Spent`], where so many branches were opened and a
/// further one is wanted. The budget is never spent where it is at least twice the number of
/// assignments of the room.
pub fn solve(alloc: Global, system: &System, budget: u32) -> Result<Outcome, AllocError>
    requires { 1 ≤ budget }
    ensures answer { IfOk result (IsAnswer system.now budget) }
    ensures enough { 2 * points system.now.room.bounds ≤ budget → IfOk result IsDecided }
{
    let mut splits: Vec<Branching> = Vec::new(alloc);
    let mut lines: Vec<Line> = Vec::new(alloc);
    let mut proposer = Proposer::new(alloc, system)?;
    let mut waiting: Vec<Leaf> = Vec::new(alloc);
    waiting.push(whole(alloc, system)?)?;
    'branches: for opened in 0..budget {
        let Some(leaf) = waiting.pop() else {
            return Ok(Outcome::Closed(derivation(alloc, system, lines)?));
        };
        match find(alloc, system, &mut proposer, &leaf.room)? {
            Finding::Closed(mut closing) => lines.append(&mut closing)?,
            Finding::Solved(values) => return Ok(Outcome::Solution(values)),
            Finding::Divided { unknown, at } => {
                lines.push(split_line(unknown, at))?;
                divide(alloc, leaf, unknown, at, &mut splits, &mut waiting)?;
            }
        }
    }
    if waiting.is_empty() {
        return Ok(Outcome::Closed(derivation(alloc, system, lines)?));
    }
    Ok(Outcome::Spent {
        branches: budget,
        splits,
    })
}
