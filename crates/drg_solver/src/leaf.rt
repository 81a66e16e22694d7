//! The leaves that wait, and their division.
ghost use Rattle.std.specs.Prelude.{◌≡◌, ◌+◌, ◌<◌, ◌≤ℤ◌, ◌^◌, pos, OnOk, IfOk, vec_len, slice_set};
ghost use Rattle.drg_linear.specs.Rooms.{RoomContent};
ghost use Rattle.drg_linear.specs.Splits.{Divides};
ghost use Rattle.drg_linear.specs.Unknowns.{place as the_place};
ghost use Rattle.drg_solver.specs.Leaves.{IsDivision};

use drg_linear::{Branching, Room, Unknown, bounds_at};
use std::alloc::{AllocError, Global};

/// A leaf that waits: its place among the leaves, and its room.
#[derive(Debug, Drop)]
pub struct Leaf {
    pub place: u32,
    pub room: Room,
}

/// Puts these bounds at a place.
fn put(all: &mut Vec<(i128, i128)>, place: usize, bounds: (i128, i128))
    ensures { all.new.items ≡ slice_set all.old.items place bounds }
{
    if place < all.len() {
        all[place] = bounds;
    }
}

/// The room with these bounds at a place.
fn with_bounds(
    alloc: Global,
    room: &Room,
    place: usize,
    bounds: (i128, i128),
) -> Result<Room, AllocError>
    requires low { pos 0 ≤ℤ bounds.0 }
    requires order { bounds.0 ≤ℤ bounds.1 }
    ensures { IfOk result (λ new.
        new ≡ record room.now { bounds = slice_set room.now.bounds place bounds }) }
{
    let mut all = Vec::from_slice(alloc, room.as_slice())?;
    put(&mut all, place, bounds);
    Ok(Room::make(room.d(), all))
}

/// Divides a leaf: the side up to `at` is the next that waits, and the side above it the one after.
pub fn divide(
    alloc: Global,
    leaf: Leaf,
    unknown: Unknown,
    at: i128,
    splits: &mut Vec<Branching>,
    waiting: &mut Vec<Leaf>,
) -> Result<(), AllocError>
    requires divides { Divides leaf.room.bounds (the_place leaf.room.d unknown) at }
    requires few { vec_len splits.old + 1 < 2 ^ 32 }
    ensures { OnOk result (IsDivision leaf unknown at
        splits.old.items splits.new.items waiting.old.items waiting.new.items) }
{
    let place = unknown.place(leaf.room.d());
    let (low, high) = bounds_at(leaf.room.as_slice(), place);
    let up_to = with_bounds(alloc, &leaf.room, place, (low, at))?;
    let above = with_bounds(alloc, &leaf.room, place, (at + 1, high))?;
    let last = splits.len() as u32 + 1;
    splits.push(Branching {
        leaf: leaf.place,
        unknown,
        at,
    })?;
    waiting.push(Leaf {
        place: last,
        room: above,
    })?;
    waiting.push(Leaf {
        place: leaf.place,
        room: up_to,
    })?;
    Ok(())
}
