//! The system of triple intersection numbers of a claim's type, before its first equation.
ghost use Rattle.std.specs.Prelude.{◌≡◌, ◌≤◌, ◌<◌, ◌*◌, ◌+◌, ◌/◌, ◌%◌, IfOk};
ghost use Rattle.drg_linear.specs.Triples.{high_bound as the_high_bound};
ghost use Rattle.drg_triple_numbers.specs.Places.{unknown_at as the_unknown_at};
ghost use Rattle.drg_replay.specs.Systems.{number, type_of as the_type_of, starting_room as the_starting_room};

use crate::counts::Counts;
use drg_array::Claim;
use drg_linear::{TripleType, Unknown};
use std::alloc::{AllocError, Global};

/// The type of triples of which a claim speaks.
pub fn type_of(claim: Claim) -> Option<TripleType>
    ensures { result ≡ the_type_of claim }
{
    match claim {
        Claim::Triple { u, v, w } => Some(TripleType { u, v, w }),
        _ => None,
    }
}

/// A number of an unknown, after those below it.
fn one_more(below: usize) -> u8
    requires { below < 12 }
    ensures { result ≡ below + 1 }
{
    below as u8 + 1
}

/// The unknown at a place of the order of those whose numbers are from 1 to d.
#[tactic(auto, unfolding(drg_triple_numbers::specs::Places::unknown_at))]
fn unknown_at(d: usize, place: usize) -> Unknown
    requires d { d ≤ 12 }
    requires place { place < d * d * d }
    ensures { result ≡ the_unknown_at d place }
{
    Unknown {
        r: one_more(place / d / d),
        s: one_more(place / d % d),
        t: one_more(place % d),
    }
}

/// The least of `p^U_st`, `p^V_rt` and `p^W_rs` for the unknown `[r s t]`.
fn high_bound(counts: &Counts, ty: TripleType, unknown: Unknown) -> i128
    ensures { result ≡ the_high_bound (number counts.now.rows) ty unknown }
{
    let r = usize::from(unknown.r);
    let s = usize::from(unknown.s);
    let t = usize::from(unknown.t);
    let first = counts.number(usize::from(ty.u), s, t);
    let second = counts.number(usize::from(ty.v), r, t);
    let third = counts.number(usize::from(ty.w), r, s);
    first.min(second.min(third))
}

/// The room of all numbers from 0 to the high bound of each unknown, in the order of the unknowns.
pub fn starting_room(
    alloc: Global,
    d: usize,
    counts: &Counts,
    ty: TripleType,
) -> Result<Vec<(i128, i128)>, AllocError>
    requires { d ≤ 12 }
    ensures { IfOk result (λ room. room.items ≡ the_starting_room d counts.now.rows ty) }
{
    let mut room = Vec::new(alloc);
    'places: for place in 0..d * d * d {
        room.push((0, high_bound(counts, ty, unknown_at(d, place))))?;
    }
    Ok(room)
}
