//! The `k` line.
ghost use Rattle.std.specs.Prelude.{◌≡◌, ◌≤◌, ◌<◌, ◌+◌, length};
ghost use Rattle.drg_array.specs.Entries.{diameter};
ghost use Rattle.drg_replay.specs.Steps.{first_failure};
ghost use Rattle.drg_replay.specs.Sizes.{is_full as the_is_full, next_steps, size_at as the_size_at, size_steps, sizes_from, values_of as the_values_of};

use crate::entries::{c_after, times_entry};
use crate::refusal::{Refusal, met_where_same};
use crate::rows::number_at;
use drg_array::Array;
use drg_derivation::NumberList;

/// Whether the value is `k_(i+1)`, after `k_i`, which is `last`.
fn check_next(array: &Array, i: usize, last: i128, value: i128) -> Result<(), Refusal>
    requires { i < diameter array.now }
    ensures { result ≡ first_failure (next_steps array.now i last value) }
{
    let left = times_entry(value, c_after(array, i))?;
    let right = times_entry(last, array.b(i))?;
    met_where_same(left, right)
}

/// Whether each of the numbers after `k_i`, which is `last`, is the size that follows.
fn check_sizes_from(array: &Array, i: usize, last: i128, values: &[i128]) -> Result<(), Refusal>
    requires { i + length values.now ≤ diameter array.now }
    ensures { result ≡ first_failure (sizes_from array.now i last values.now) }
{
    array.known_valid();
    match values.split_first() {
        None => Ok(()),
        Some((value, rest)) => {
            check_next(array, i, last, *value)?;
            check_sizes_from(array, i + 1, *value, rest)
        }
    }
}

/// Whether a `k` line with these numbers is met.
pub fn check_sizes(
    array: &Array,
    sizes: &Option<NumberList>,
    values: &[i128],
) -> Result<(), Refusal>
    ensures { result ≡ first_failure (size_steps array.now sizes.now values.now) }
{
    let Some((first, rest)) = values.split_first() else {
        return Err(Refusal::NotMet);
    };
    if sizes.is_some() || rest.len() > array.d() || *first != 1 {
        return Err(Refusal::NotMet);
    }
    check_sizes_from(array, 0, *first, rest)
}

/// The numbers of the `k` line, and none where it doesn't stand.
pub fn values_of(sizes: &Option<NumberList>) -> &[i128]
    ensures { result.now ≡ the_values_of sizes.now }
{
    match sizes {
        Some(values) => values.as_slice(),
        None => &[],
    }
}

/// Whether all sizes up to `k_d` stand.
pub fn is_full(array: &Array, sizes: &Option<NumberList>) -> bool
    ensures { result ≡ the_is_full array.now sizes.now }
{
    let d = array.d();
    values_of(sizes).len() == d + 1
}

/// The size `k_i`, and 0 where it doesn't stand.
pub fn size_at(sizes: &Option<NumberList>, i: usize) -> i128
    ensures { result ≡ the_size_at sizes.now i }
{
    number_at(values_of(sizes), i)
}
