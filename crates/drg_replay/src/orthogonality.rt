//! The `qrow` lines: the rows of Q, and `P·Q = nI`.
ghost use Rattle.std.specs.Prelude.{◌≡◌, ◌≤◌, ◌<◌, ◌+◌, ◌++◌, ◌∷◌, [], pos, length, fold, IfOk};
ghost use Rattle.drg_array.specs.Entries.{diameter};
ghost use Rattle.drg_fraction.specs.Field.{products, dot_of, dot_fits, dot_fits_from};
ghost use Rattle.drg_quadratic.specs.Operations.{value_operations};
ghost use Rattle.drg_quadratic.specs.Quadratic.{value_of, root_of};
ghost use Rattle.drg_quadratic.specs.Values.{IsRoot};
ghost use Rattle.drg_whole.specs.Range.{Gives, InRange};
ghost use Rattle.drg_whole.specs.Whole.{value_of as whole_value};
ghost use Rattle.drg_whole.specs.Sums.{sum_from, sum_fits_from};
ghost use Rattle.drg_replay.specs.Sizes.{values_of as the_values_of};
ghost use Rattle.drg_replay.specs.Steps.{first_failure};
ghost use Rattle.drg_replay.specs.Frames.{line_at, row_values, column_values, diagonal as the_diagonal, cell_steps, cells_from, product_rows, product_steps, qrow_steps};

use crate::field_number::{are_field_numbers, is_same, value_at};
use crate::frame::{Frame, all_stand, is_next};
use crate::refusal::{Refusal, met_where};
use crate::sizes::values_of;
use drg_array::Array;
use drg_derivation::NumberList;
use drg_fraction::{Field, Wide};
use drg_quadratic::Quadratic;
use drg_whole::Whole;

/// Row l of Q, where the last one is that of the line in hand.
fn row_of<'a>(earlier: &'a [NumberList], last: &'a NumberList, l: usize) -> &'a [i128]
    requires { l ≤ length earlier.now }
    ensures { result.now ≡ line_at (earlier.now ++ last.now ∷ []) l }
{
    if l < earlier.len() {
        earlier[l].as_slice()
    } else {
        last.as_slice()
    }
}

/// The sum so far and the products of the row and column j of Q, for `left` places from l on.
#[tactic(auto, using(crate::proofs::PlaceLaws::places_end, crate::proofs::PlaceLaws::places_next))]
fn dot_rest(
    so_far: Quadratic,
    row: &[i128],
    earlier: &[NumberList],
    last: &NumberList,
    j: usize,
    l: usize,
    left: usize,
) -> Result<Quadratic, Wide>
    requires places { l + left ≡ length earlier.now + 1 }
    requires short { length earlier.now ≤ 16 }
    requires column { j ≤ length earlier.now }
    ensures value { let root = root_of so_far in
        let o = value_operations root in
        let xs = row_values root row.now l left in
        let ys = column_values root (earlier.now ++ last.now ∷ []) j l left in
        Gives value_of result (dot_fits_from o (value_of so_far) xs ys)
        (fold o.plus (value_of so_far) (products o xs ys)) }
    ensures root { IfOk result (λ r. root_of r ≡ root_of so_far) }
{
    if left == 0 {
        return Ok(so_far);
    }
    let root = so_far.root();
    let product = value_at(root, row, l).mul(value_at(root, row_of(earlier, last, l), j))?;
    dot_rest(so_far.add(product)?, row, earlier, last, j, l + 1, left - 1)
}

/// The sum of the products of the row and column j of Q.
fn cell(
    root: u32,
    row: &[i128],
    earlier: &[NumberList],
    last: &NumberList,
    j: usize,
) -> Result<Quadratic, Wide>
    requires root { IsRoot root }
    requires short { length earlier.now ≤ 16 }
    requires column { j ≤ length earlier.now }
    ensures value { let o = value_operations root in
        let side = length earlier.now + 1 in
        let xs = row_values root row.now 0 side in
        let ys = column_values root (earlier.now ++ last.now ∷ []) j 0 side in
        Gives value_of result (dot_fits o xs ys) (dot_of o xs ys) }
    ensures root { IfOk result (λ r. root_of r ≡ root) }
{
    let first = value_at(root, row, 0).mul(value_at(root, row_of(earlier, last, 0), j))?;
    dot_rest(first, row, earlier, last, j, 1, earlier.len())
}

/// n on the diagonal, and 0 elsewhere.
fn diagonal(root: u32, n: Whole, i: usize, j: usize) -> Quadratic
    requires { IsRoot root }
    ensures value { value_of result ≡ the_diagonal n.value i j }
    ensures root { root_of result ≡ root }
{
    if i == j {
        Quadratic::of_int(root, n.value)
    } else {
        Quadratic::of_int(root, 0)
    }
}

/// Whether the cell of `P·Q = nI` in row i and column j holds.
#[tactic(auto, unfolding(crate::specs::Frames::cell_steps))]
fn check_cell(
    root: u32,
    row: &[i128],
    earlier: &[NumberList],
    last: &NumberList,
    n: Whole,
    i: usize,
    j: usize,
) -> Result<(), Refusal>
    requires root { IsRoot root }
    requires short { length earlier.now ≤ 16 }
    requires column { j ≤ length earlier.now }
    ensures { result ≡ first_failure (cell_steps root (earlier.now ++ last.now ∷ [])
        (length earlier.now + 1) n.value row.now i j) }
{
    let left = cell(root, row, earlier, last, j)?;
    met_where(is_same(left, diagonal(root, n, i, j)))
}

/// The same for `left` cells of row i from column j on.
#[tactic(auto, using(crate::proofs::PlaceLaws::cells_end, crate::proofs::PlaceLaws::cells_fail, crate::proofs::PlaceLaws::cells_next))]
fn check_cells(
    root: u32,
    row: &[i128],
    earlier: &[NumberList],
    last: &NumberList,
    n: Whole,
    i: usize,
    j: usize,
    left: usize,
) -> Result<(), Refusal>
    requires root { IsRoot root }
    requires short { length earlier.now ≤ 16 }
    requires columns { j + left ≡ length earlier.now + 1 }
    ensures { result ≡ first_failure (cells_from root (earlier.now ++ last.now ∷ [])
        (length earlier.now + 1) n.value row.now i j left) }
{
    if left == 0 {
        return Ok(());
    }
    check_cell(root, row, earlier, last, n, i, j)?;
    check_cells(root, row, earlier, last, n, i, j + 1, left - 1)
}

/// The same for these rows of P, from row i on.
#[tactic(auto, using(crate::proofs::PlaceLaws::rows_end, crate::proofs::PlaceLaws::rows_fail, crate::proofs::PlaceLaws::rows_next))]
fn check_rows(
    root: u32,
    rows: &[NumberList],
    earlier: &[NumberList],
    last: &NumberList,
    n: Whole,
    i: usize,
) -> Result<(), Refusal>
    requires root { IsRoot root }
    requires short { length earlier.now ≤ 16 }
    requires rows { i + length rows.now ≤ 17 }
    ensures { result ≡ first_failure (product_rows root (earlier.now ++ last.now ∷ [])
        (length earlier.now + 1) n.value i rows.now) }
{
    match rows.split_first() {
        None => Ok(()),
        Some((row, rest)) => {
            let side = earlier.len() + 1;
            check_cells(root, row.as_slice(), earlier, last, n, i, 0, side)?;
            check_rows(root, rest, earlier, last, n, i + 1)
        }
    }
}

/// The sum of the numbers from left to right.
fn sum_of(numbers: &[i128]) -> Result<Whole, Wide>
    ensures { Gives whole_value result
        (sum_fits_from (pos 0) numbers.now) (sum_from (pos 0) numbers.now) }
{
    let mut sum = Whole::new(0);
    'numbers: for number in numbers {
        sum = sum.plus(Whole::checked(*number)?)?;
    }
    Ok(sum)
}

/// Whether `P·Q = nI` holds, where the last row of Q is that of the line in hand.
fn check_product(
    array: &Array,
    sizes: &Option<NumberList>,
    frame: &Frame,
    last: &NumberList,
) -> Result<(), Refusal>
    requires rows { length frame.now.p ≡ diameter array.now + 1 }
    requires earlier { length frame.now.q ≡ diameter array.now }
    ensures { result ≡ first_failure (product_steps array.now sizes.now frame.now
        (frame.now.q ++ last.now ∷ [])) }
{
    array.known_valid();
    let n = sum_of(values_of(sizes))?;
    check_rows(frame.root(), frame.p(), frame.q(), last, n, 0)
}

/// Whether a `qrow` line with these numbers is met.
pub fn check_qrow(
    array: &Array,
    sizes: &Option<NumberList>,
    frame: &Frame,
    r: i128,
    numbers: &NumberList,
) -> Result<(), Refusal>
    ensures { result ≡ first_failure (qrow_steps array.now sizes.now frame.now r numbers.now) }
{
    array.known_valid();
    let side = array.d() + 1;
    if !are_field_numbers(frame.root(), numbers.as_slice(), side)
        || !all_stand(array, frame.p())
        || !is_next(array, r, frame.q())
    {
        return Err(Refusal::NotMet);
    }
    if frame.q().len() == array.d() {
        check_product(array, sizes, frame, numbers)
    } else {
        Ok(())
    }
}
