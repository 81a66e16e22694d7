//! The claims on parity, by residues.
ghost use Rattle.std.specs.Prelude.{◌≡◌, ◌<◌, ◌*ℤ◌};
ghost use Rattle.drg_whole.specs.ResidueOf.{IsResidueOf};
ghost use Rattle.drg_whole.specs.Residues.{divides as the_divides};
ghost use Rattle.drg_replay.specs.Steps.{first_failure};
ghost use Rattle.drg_replay.specs.Sizes.{size_at as the_size_at, vertex_count};
ghost use Rattle.drg_replay.specs.Claims.{handshake_closing, induced_closing, triangles_closing};

use crate::refusal::{Refusal, met_where};
use crate::rows::{entry, row_stands};
use crate::sizes::{is_full, size_at, values_of};
use drg_array::Array;
use drg_derivation::NumberList;
use drg_whole::Residue;

/// Whether m divides a number.
pub fn divides(m: u16, number: i128) -> bool
    requires { 0 < m }
    ensures { result ≡ the_divides m number }
{
    Residue::of(number, m).value == 0
}

/// The residue of n·k_i, the ordered pairs at distance i.
fn pairs_residue(m: u16, sizes: &Option<NumberList>, i: usize) -> Residue
    requires { 0 < m }
    ensures modulus { result.modulus ≡ m }
    ensures value { IsResidueOf result (vertex_count sizes.now *ℤ the_size_at sizes.now i) }
{
    let order = Residue::of(0, m).plus_all(values_of(sizes));
    order.times(Residue::of(size_at(sizes, i), m))
}

/// Whether `handshake i` is closed: n·k_i is odd.
pub fn check_handshake(array: &Array, sizes: &Option<NumberList>, i: usize) -> Result<(), Refusal>
    ensures { result ≡ first_failure (handshake_closing array.now sizes.now i) }
{
    if !is_full(array, sizes) {
        return Err(Refusal::NotMet);
    }
    met_where(pairs_residue(2, sizes, i).value != 0)
}

/// Whether `induced i j` is closed: k_i·p^i_ij is odd.
pub fn check_induced(
    array: &Array,
    sizes: &Option<NumberList>,
    rows: &[NumberList],
    i: usize,
    j: usize,
) -> Result<(), Refusal>
    ensures { result ≡ first_failure (induced_closing array.now sizes.now rows.now i j) }
{
    if !is_full(array, sizes) || !row_stands(rows, i) {
        return Err(Refusal::NotMet);
    }
    let size = Residue::of(size_at(sizes, i), 2);
    let count = Residue::of(entry(i, rows, i, j), 2);
    met_where(size.times(count).value != 0)
}

/// Whether `triangles i` is closed: 6 doesn't divide n·k_i·p^i_ii.
pub fn check_triangles(
    array: &Array,
    sizes: &Option<NumberList>,
    rows: &[NumberList],
    i: usize,
) -> Result<(), Refusal>
    ensures { result ≡ first_failure (triangles_closing array.now sizes.now rows.now i) }
{
    if !is_full(array, sizes) || !row_stands(rows, i) {
        return Err(Refusal::NotMet);
    }
    let count = Residue::of(entry(i, rows, i, i), 6);
    met_where(pairs_residue(6, sizes, i).times(count).value != 0)
}
