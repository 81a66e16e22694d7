//! The room of a counting system.

ghost use Rattle.std.specs.Prelude.{◌≡◌, ◌≤◌, ◌<◌, ◌+◌, ◌*◌, ◌/◌, ◌%◌, true, pos, IfOk};
ghost use Rattle.drg_linear.specs.Triples.{high_bound as the_high_bound};
ghost use Rattle.drg_linear.specs.Unknowns.{is_unknown};
ghost use Rattle.drg_triple_numbers.specs.Places.{unknown_at as the_unknown_at};
ghost use Rattle.drg_triples.specs.LiveTypes.{IsLiveType, number_in};
ghost use Rattle.drg_triples.specs.Counting.{starting_bounds as the_starting_bounds, starting_room as the_starting_room};

use drg_array::MAX_DIAMETER;
use drg_intersection::Numbers;
use drg_linear::{Room, TripleType, Unknown};
use drg_triple_numbers::place_law;
use std::alloc::{AllocError, Global};

/// A number of an unknown, after those below it.
fn one_more(below: usize) -> u8
    requires { below < MAX_DIAMETER }
    ensures { result ≡ below + 1 }
{
    below as u8 + 1
}

/// The unknown at a place of the order of those whose numbers are from 1 to d.
#[tactic(auto, unfolding(drg_triple_numbers::specs::Places::unknown_at))]
fn unknown_at(d: usize, place: usize) -> Unknown
    requires d { d ≤ MAX_DIAMETER }
    requires place { place < d * d * d }
    ensures value { result ≡ the_unknown_at d place }
    ensures unknown { is_unknown d result ≡ true }
{
    place_law();
    Unknown {
        r: one_more(place / d / d),
        s: one_more(place / d % d),
        t: one_more(place % d),
    }
}

/// The least of `p^U_st`, `p^V_rt` and `p^W_rs` for the unknown `[r s t]`.
fn high_bound(numbers: &Numbers, ty: TripleType, unknown: Unknown) -> i128
    requires live { IsLiveType numbers.now ty }
    requires unknown { is_unknown numbers.now.d unknown ≡ true }
    ensures { result ≡ the_high_bound (number_in numbers.now) ty unknown }
{
    let r = usize::from(unknown.r);
    let s = usize::from(unknown.s);
    let t = usize::from(unknown.t);
    let first = numbers.p(usize::from(ty.u), s, t);
    let second = numbers.p(usize::from(ty.v), r, t);
    let third = numbers.p(usize::from(ty.w), r, s);
    first.min(second.min(third))
}

/// The bounds of an unknown: 0 and its high bound.
fn bounds_of(numbers: &Numbers, ty: TripleType, unknown: Unknown) -> (i128, i128)
    requires live { IsLiveType numbers.now ty }
    requires unknown { is_unknown numbers.now.d unknown ≡ true }
    ensures { result ≡ (pos 0, the_high_bound (number_in numbers.now) ty unknown) }
{
    (0, high_bound(numbers, ty, unknown))
}

/// The bounds of all unknowns, in their order.
fn starting_bounds(
    alloc: Global,
    d: usize,
    numbers: &Numbers,
    ty: TripleType,
) -> Result<Vec<(i128, i128)>, AllocError>
    requires live { IsLiveType numbers.now ty }
    requires diameter { numbers.now.d ≡ d }
    requires short { d ≤ MAX_DIAMETER }
    ensures { IfOk result (λ bounds.
        bounds.items ≡ the_starting_bounds d (number_in numbers.now) ty) }
{
    let mut bounds = Vec::new(alloc);
    'places: for place in 0..d * d * d {
        bounds.push(bounds_of(numbers, ty, unknown_at(d, place)))?;
    }
    Ok(bounds)
}

/// The room in which each unknown is from 0 to its high bound.
pub(crate) fn starting_room(
    alloc: Global,
    numbers: &Numbers,
    ty: TripleType,
) -> Result<Room, AllocError>
    requires { IsLiveType numbers.now ty }
    ensures { IfOk result (λ room. room ≡ the_starting_room numbers.now ty) }
{
    let d = numbers.d();
    let bounds = starting_bounds(alloc, d, numbers, ty)?;
    Ok(Room::make(d, bounds))
}
