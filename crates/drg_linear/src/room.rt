//! Rooms of a system.
ghost use Rattle.std.specs.Prelude.{◌≡◌, ◌<◌, ◌≤◌, ◌^◌, ◌-◌, ◌+◌, ◌*◌, ◌≤ℤ◌, pos, suc, length, min, true, slice_set};
ghost use Rattle.drg_linear.specs.Unknowns.{is_unknown, place};
ghost use Rattle.drg_linear.specs.Rooms.{IsRoom, bounds_at as the_bounds_at, points as the_points, width};

use crate::bounds::bounds_at;
use crate::unknown::Unknown;
use std::marker::Model;

/// A low and a high bound for each unknown whose numbers are from 1 to d. No low bound is negative,
/// or above its high bound.
#[derive(Debug, Drop)]
pub struct Room {
    d: usize,
    bounds: Vec<(i128, i128)>,
}

impl Model for Room {
    ghost use Rattle.drg_linear.specs.Rooms.{IsRoom, RoomContent};

    ghost Value = { RoomContent };

    ghost view = { λ r. record { d = r.d; bounds = r.bounds.items } };

    ghost invariant = { λ r. IsRoom (record { d = r.d; bounds = r.bounds.items }) };
}

/// How many values lie within these bounds, held at `u128::MAX`.
fn values_within(bounds: (i128, i128)) -> u128
    ensures { result ≡ min (width bounds + 1) (2 ^ 128 - 1) }
{
    bounds.1.abs_diff(bounds.0).saturating_add(1)
}

/// The product of these numbers of values, held at `u128::MAX`.
fn points_of(bounds: &[(i128, i128)]) -> u128
    ensures { result ≡ min (the_points bounds.now) (2 ^ 128 - 1) }
{
    let mut points: u128 = 1;
    'bounds: for pair in bounds {
        points = points.saturating_mul(values_within(*pair));
    }
    points
}

/// Puts these bounds at a place.
fn put(room: &mut Vec<(i128, i128)>, place: usize, bounds: (i128, i128))
    ensures { room.new.items ≡ slice_set room.old.items place bounds }
{
    if place < room.len() {
        room[place] = bounds;
    }
}

impl Room {
    /// The room with these bounds, in the order of the unknowns. Takes no memory.
    pub fn make(d: usize, bounds: Vec<(i128, i128)>) -> Room
        requires { IsRoom (record { d = d; bounds = bounds.items }) }
        ensures { result ≡ record { d = d; bounds = bounds.items } }
    {
        Room { d, bounds }
    }

    /// The greatest of an unknown's numbers.
    pub fn d(&self) -> usize
        ensures value { result ≡ self.now.d }
        ensures room { IsRoom self.now }
    {
        self.d
    }

    /// The bounds, in the order of the unknowns.
    pub fn as_slice(&self) -> &[(i128, i128)]
        ensures value { result.now ≡ self.now.bounds }
        ensures room { IsRoom self.now }
    {
        &self.bounds
    }

    /// The low bound of an unknown.
    pub fn low(&self, x: Unknown) -> i128
        requires { is_unknown self.now.d x ≡ true }
        ensures { result ≡ (the_bounds_at self.now.bounds (place self.now.d x)).0 }
    {
        bounds_at(&self.bounds, x.place(self.d)).0
    }

    /// The high bound of an unknown.
    pub fn high(&self, x: Unknown) -> i128
        requires { is_unknown self.now.d x ≡ true }
        ensures { result ≡ (the_bounds_at self.now.bounds (place self.now.d x)).1 }
    {
        bounds_at(&self.bounds, x.place(self.d)).1
    }

    /// The number of assignments of the room: the product of `high - low + 1` over all unknowns,
    /// held at `u128::MAX`.
    pub fn points(&self) -> u128
        ensures { result ≡ min (the_points self.now.bounds) (2 ^ 128 - 1) }
    {
        points_of(&self.bounds)
    }

    /// The room with these bounds at a place.
    pub(crate) fn with(self, place: usize, bounds: (i128, i128)) -> Room
        requires low { pos 0 ≤ℤ bounds.0 }
        requires order { bounds.0 ≤ℤ bounds.1 }
        ensures { result ≡ record self { bounds = slice_set self.bounds place bounds } }
    {
        let mut room = self.bounds;
        put(&mut room, place, bounds);
        Room {
            d: self.d,
            bounds: room,
        }
    }
}
