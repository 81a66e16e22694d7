//! The entries of an array next to an index, and products with them.
ghost use Rattle.std.specs.Prelude.{◌≡◌, ◌≤◌, ◌*ℤ◌, suc, pos};
ghost use Rattle.drg_array.specs.Entries.{diameter, c_at};
ghost use Rattle.drg_whole.specs.Range.{Gives, in_range};
ghost use Rattle.drg_whole.specs.Whole.{value_of};
ghost use Rattle.drg_replay.specs.Rows.{b_before as the_b_before};

use drg_array::Array;
use drg_whole::{Product, Whole, Wide};

/// `b_(j-1)`, and 0 for j = 0.
pub fn b_before(array: &Array, j: usize) -> u16
    requires { j ≤ diameter array.now }
    ensures { result ≡ the_b_before array.now j }
{
    if j == 0 { 0 } else { array.b(j - 1) }
}

/// `c_(j+1)`, and 0 for j = d.
pub fn c_after(array: &Array, j: usize) -> u16
    requires { j ≤ diameter array.now }
    ensures { result ≡ c_at array.now (suc j) }
{
    if j == array.d() { 0 } else { array.c(j + 1) }
}

/// A number times an entry, as a work number.
pub fn times_entry(value: i128, entry: u16) -> Result<Whole, Wide>
    ensures { Gives value_of result (in_range (value *ℤ pos entry)) (value *ℤ pos entry) }
{
    Product {
        left: value,
        right: i128::from(entry),
    }
    .value()
}
