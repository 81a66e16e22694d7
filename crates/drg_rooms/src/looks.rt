//! The numbers of a line as unknowns, and bounds at a place.
ghost use Rattle.std.specs.Prelude.{◌≡◌, ◌<◌, ◌^◌, ◌+ℤ◌, pos, true, false, unsigned_abs, if◌then◌else◌, length, Ok, Err, MatchResult};
ghost use Rattle.drg_linear.specs.Rooms.{bounds_at as the_bounds_at};
ghost use Rattle.drg_rooms.specs.declared.refusal.Refusal.TheVariants.{NotMet};
ghost use Rattle.drg_rooms.specs.Indices.{is_index};
ghost use Rattle.drg_rooms.specs.Lines.{are_indices, unknown_at as the_unknown_at, splits as the_splits, is_void as the_is_void};

use crate::refusal::Refusal;
use drg_linear::{Unknown, bounds_at};

/// The number as a number of an unknown, from 1 to d.
fn index(n: i128, d: usize) -> Result<u8, Refusal>
    requires { d < 2 ^ 8 }
    ensures { result ≡ (if is_index 1 n d then Ok (unsigned_abs n) else Err NotMet) }
{
    if n < 1 || n > d as i128 {
        return Err(Refusal::NotMet);
    }
    Ok(n as u8)
}

/// The unknown with these three numbers, which are from 1 to d.
#[tactic(auto, unfolding(crate::specs::Lines::are_indices))]
pub fn unknown_at(d: usize, r: i128, s: i128, t: i128) -> Result<Unknown, Refusal>
    requires { d < 2 ^ 8 }
    ensures { MatchResult result
        (λ unknown. (are_indices d r s t ≡ true) × (unknown ≡ the_unknown_at r s t))
        (λ refusal. (are_indices d r s t ≡ false) × (refusal ≡ NotMet)) }
{
    let r = index(r, d)?;
    let s = index(s, d)?;
    let t = index(t, d)?;
    Ok(Unknown { r, s, t })
}

/// Whether v divides the bounds at a place: low <= v < high.
#[tactic(auto, unfolding(crate::specs::Lines::splits))]
pub fn splits(room: &[(i128, i128)], place: usize, v: i128) -> bool
    ensures { result ≡ the_splits room.now place v }
{
    let bounds = bounds_at(room, place);
    bounds.0 <= v && v < bounds.1
}

/// The low bound of the upper half.
#[tactic(auto, unfolding(crate::specs::Lines::splits))]
pub fn above(room: &[(i128, i128)], place: usize, v: i128) -> i128
    requires { the_splits room.now place v ≡ true }
    ensures { result ≡ v +ℤ pos 1 }
{
    let bounds = bounds_at(room, place);
    if v < bounds.1 { v + 1 } else { v }
}

/// Whether the bounds at a place leave no value.
pub fn is_void(room: &[(i128, i128)], place: usize) -> bool
    ensures { result ≡ the_is_void room.now place }
{
    let bounds = bounds_at(room, place);
    bounds.0 > bounds.1
}
