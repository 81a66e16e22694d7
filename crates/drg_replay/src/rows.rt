//! The `p` lines.
ghost use Rattle.std.specs.Prelude.{◌≡◌, ◌≤◌, ◌<◌, ◌+◌, suc, neg_ℤ, length, slice_index_or, pos};
ghost use Rattle.drg_array.specs.Entries.{diameter, c_at, a_at};
ghost use Rattle.drg_replay.specs.Steps.{first_failure};
ghost use Rattle.drg_whole.specs.Range.{Gives};
ghost use Rattle.drg_whole.specs.Whole.{value_of};
ghost use Rattle.drg_replay.specs.Rows.{entry as the_entry, entry_before as the_entry_before, entry_above as the_entry_above, row_stands as the_row_stands, balance, balance_sum as the_balance_sum, balance_fits, balance_steps, balances_from, row_steps, of_factors, b_before as the_b_before};

use crate::entries::{b_before, c_after};
use crate::refusal::{Refusal, met_where_same};
use drg_array::Array;
use drg_derivation::NumberList;
use drg_whole::{Product, Whole, Wide, sum_onto};

/// Whether row i stands among the rows of an upper index. Row 0 is given.
pub fn row_stands(rows: &[NumberList], i: usize) -> bool
    ensures { result ≡ the_row_stands rows.now i }
{
    i <= rows.len()
}

/// The number at place j, and 0 past the end.
pub fn number_at(numbers: &[i128], j: usize) -> i128
    ensures { result ≡ slice_index_or numbers.now j (pos 0) }
{
    if j < numbers.len() { numbers[j] } else { 0 }
}

/// `p^h_ij` as the rows of h state it.
pub fn entry(h: usize, rows: &[NumberList], i: usize, j: usize) -> i128
    ensures { result ≡ the_entry h rows.now i j }
{
    if i == 0 {
        return if j == h { 1 } else { 0 };
    }
    if i <= rows.len() {
        number_at(rows[i - 1].as_slice(), j)
    } else {
        0
    }
}

/// The entry one place before, and 0 where there is none.
fn entry_before(h: usize, rows: &[NumberList], i: usize, j: usize) -> i128
    ensures { result ≡ the_entry_before h rows.now i j }
{
    if j == 0 { 0 } else { entry(h, rows, i, j - 1) }
}

/// The entry one row above, and 0 where there is none.
fn entry_above(h: usize, rows: &[NumberList], i: usize, j: usize) -> i128
    ensures { result ≡ the_entry_above h rows.now i j }
{
    if i == 0 { 0 } else { entry(h, rows, i - 1, j) }
}

/// `b_(j-1) p^h_(i,j-1)`.
fn term_before(array: &Array, h: usize, rows: &[NumberList], i: usize, j: usize) -> Product
    requires { j ≤ diameter array.now }
    ensures { result ≡
        of_factors (pos (the_b_before array.now j)) (the_entry_before h rows.now i j) }
{
    Product {
        left: i128::from(b_before(array, j)),
        right: entry_before(h, rows, i, j),
    }
}

/// `a_j p^h_ij`.
fn term_at(array: &Array, h: usize, rows: &[NumberList], i: usize, j: usize) -> Product
    requires { j ≤ diameter array.now }
    ensures { result ≡ of_factors (a_at array.now j) (the_entry h rows.now i j) }
{
    Product {
        left: i128::from(array.a(j)),
        right: entry(h, rows, i, j),
    }
}

/// `c_(j+1) p^h_(i,j+1)`.
fn term_after(array: &Array, h: usize, rows: &[NumberList], i: usize, j: usize) -> Product
    requires { j ≤ diameter array.now }
    ensures { result ≡
        of_factors (pos (c_at array.now (suc j))) (the_entry h rows.now i (suc j)) }
{
    array.known_valid();
    Product {
        left: i128::from(c_after(array, j)),
        right: entry(h, rows, i, j + 1),
    }
}

/// `-b_(i-1) p^h_(i-1,j)`.
fn term_above(array: &Array, h: usize, rows: &[NumberList], i: usize, j: usize) -> Product
    requires { i ≤ diameter array.now }
    ensures { result ≡
        of_factors (neg_ℤ (pos (the_b_before array.now i))) (the_entry_above h rows.now i j) }
{
    Product {
        left: -i128::from(b_before(array, i)),
        right: entry_above(h, rows, i, j),
    }
}

/// `-a_i p^h_ij`.
fn term_same(array: &Array, h: usize, rows: &[NumberList], i: usize, j: usize) -> Product
    requires { i ≤ diameter array.now }
    ensures { result ≡ of_factors (neg_ℤ (a_at array.now i)) (the_entry h rows.now i j) }
{
    Product {
        left: -i128::from(array.a(i)),
        right: entry(h, rows, i, j),
    }
}

/// The terms of `N(h,i+1,j)`.
#[tactic(auto, unfolding(crate::specs::Rows::balance))]
fn balance_of(array: &Array, h: usize, rows: &[NumberList], i: usize, j: usize) -> [Product; 5]
    requires j { j ≤ diameter array.now }
    requires i { i < diameter array.now }
    ensures { result ≡ balance array.now h rows.now i j }
{
    [
        term_before(array, h, rows, i, j),
        term_at(array, h, rows, i, j),
        term_after(array, h, rows, i, j),
        term_above(array, h, rows, i, j),
        term_same(array, h, rows, i, j),
    ]
}

/// `N(h,i+1,j)`.
pub fn balance_sum(
    array: &Array,
    h: usize,
    rows: &[NumberList],
    i: usize,
    j: usize,
) -> Result<Whole, Wide>
    requires j { j ≤ diameter array.now }
    requires i { i < diameter array.now }
    ensures { Gives value_of result
        (balance_fits array.now h rows.now i j) (the_balance_sum array.now h rows.now i j) }
{
    sum_onto(Whole::new(0), &balance_of(array, h, rows, i, j))
}

/// Whether the balance equation holds for this number of row i+1.
fn check_balance(
    array: &Array,
    h: usize,
    rows: &[NumberList],
    i: usize,
    j: usize,
    value: i128,
) -> Result<(), Refusal>
    requires j { j ≤ diameter array.now }
    requires i { i < diameter array.now }
    ensures { result ≡ first_failure (balance_steps array.now h rows.now i j value) }
{
    let left = Product {
        left: i128::from(c_after(array, i)),
        right: value,
    }
    .value()?;
    let right = balance_sum(array, h, rows, i, j)?;
    met_where_same(left, right)
}

/// Whether the balance equation holds for these numbers of row i+1, from place j on.
fn check_balances(
    array: &Array,
    h: usize,
    rows: &[NumberList],
    i: usize,
    j: usize,
    values: &[i128],
) -> Result<(), Refusal>
    requires j { j + length values.now ≡ diameter array.now + 1 }
    requires i { i < diameter array.now }
    ensures { result ≡ first_failure (balances_from array.now h rows.now i j values.now) }
{
    array.known_valid();
    match values.split_first() {
        None => Ok(()),
        Some((value, rest)) => {
            check_balance(array, h, rows, i, j, *value)?;
            check_balances(array, h, rows, i, j + 1, rest)
        }
    }
}

/// Whether row i+1 of h with these numbers is met after the rows of h.
pub fn check_row(
    array: &Array,
    h: usize,
    rows: &[NumberList],
    i: usize,
    values: &[i128],
) -> Result<(), Refusal>
    requires i { i < diameter array.now }
    ensures { result ≡ first_failure (row_steps array.now h rows.now i values.now) }
{
    let d = array.d();
    if row_stands(rows, i + 1) || !row_stands(rows, i) || values.len() != d + 1 {
        return Err(Refusal::NotMet);
    }
    check_balances(array, h, rows, i, 0, values)
}
