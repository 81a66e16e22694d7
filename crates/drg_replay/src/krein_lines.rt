//! The `krein` lines: the Krein parameters of a frame, by products of columns of Q.
ghost use Rattle.std.specs.Prelude.{◌≡◌, ◌≤◌, ◌<◌, ◌+◌, length, fold, IfOk};
ghost use Rattle.drg_array.specs.Entries.{diameter};
ghost use Rattle.drg_fraction.specs.Field.{products, dot_of, dot_fits, dot_fits_from};
ghost use Rattle.drg_quadratic.specs.Operations.{value_operations};
ghost use Rattle.drg_quadratic.specs.Quadratic.{value_of, root_of};
ghost use Rattle.drg_quadratic.specs.Values.{IsRoot};
ghost use Rattle.drg_whole.specs.Range.{Gives};
ghost use Rattle.drg_replay.specs.Steps.{first_failure};
ghost use Rattle.drg_replay.specs.Frames.{row_values};
ghost use Rattle.drg_replay.specs.KreinLines.{is_of as the_is_of, krein_content, krein_stands as the_krein_stands, krein_numbers as the_krein_numbers, parameter_steps, parameter_rows, krein_numbers_steps};

use crate::field_number::{are_field_numbers, is_same, value_at};
use crate::frame::{Frame, all_stand};
use crate::refusal::{Refusal, met_where};
use drg_array::Array;
use drg_derivation::NumberList;
use drg_fraction::{Field, Wide};
use drg_quadratic::Quadratic;
use std::marker::Model;

/// The indices i and j of a `krein` line, and its numbers: q^h_ij for each h.
#[derive(Debug, Drop)]
pub struct KreinLine {
    i: usize,
    j: usize,
    numbers: NumberList,
}

impl Model for KreinLine {
    ghost use Rattle.drg_replay.specs.Known.{KreinContent};

    ghost Value = { KreinContent };

    ghost view = { λ l. record { i = l.i; j = l.j; numbers = l.numbers } };
}

impl KreinLine {
    /// The line of i and j with these numbers. Takes no memory.
    pub fn new(i: usize, j: usize, numbers: NumberList) -> KreinLine
        ensures { result ≡ krein_content i j numbers }
    {
        KreinLine { i, j, numbers }
    }

    /// Whether it is the line of i and j.
    fn is_of(&self, i: usize, j: usize) -> bool
        ensures { result ≡ the_is_of self.now i j }
    {
        self.i == i && self.j == j
    }
}

/// Whether a line of i and j stands among these.
pub fn krein_stands(lines: &[KreinLine], i: usize, j: usize) -> bool
    ensures { result ≡ the_krein_stands lines.now i j }
{
    match lines.split_first() {
        None => false,
        Some((line, rest)) => line.is_of(i, j) || krein_stands(rest, i, j),
    }
}

/// Its numbers, and none where it doesn't stand.
pub fn krein_numbers(lines: &[KreinLine], i: usize, j: usize) -> &[i128]
    ensures { result.now ≡ the_krein_numbers lines.now i j }
{
    match lines.split_first() {
        None => &[],
        Some((line, rest)) => {
            if line.is_of(i, j) {
                line.numbers.as_slice()
            } else {
                krein_numbers(rest, i, j)
            }
        }
    }
}

/// The sum so far and the products of both rows, for `left` places from h on.
#[tactic(auto, using(crate::proofs::PlaceLaws::places_end, crate::proofs::PlaceLaws::places_next))]
fn rows_dot_rest(
    so_far: Quadratic,
    xs: &[i128],
    qs: &[i128],
    h: usize,
    left: usize,
) -> Result<Quadratic, Wide>
    requires places { h + left ≤ 17 }
    ensures value { let root = root_of so_far in
        let o = value_operations root in
        let ls = row_values root xs.now h left in
        let rs = row_values root qs.now h left in
        Gives value_of result (dot_fits_from o (value_of so_far) ls rs)
        (fold o.plus (value_of so_far) (products o ls rs)) }
    ensures root { IfOk result (λ r. root_of r ≡ root_of so_far) }
{
    if left == 0 {
        return Ok(so_far);
    }
    let root = so_far.root();
    let product = value_at(root, xs, h).mul(value_at(root, qs, h))?;
    rows_dot_rest(so_far.add(product)?, xs, qs, h + 1, left - 1)
}

/// The sum of the products of both rows, over the places up to d.
#[tactic(auto, using(crate::proofs::KreinSteps::products_fit, crate::proofs::KreinSteps::products_sum))]
fn rows_dot(root: u32, xs: &[i128], qs: &[i128], d: usize) -> Result<Quadratic, Wide>
    requires root { IsRoot root }
    requires short { d ≤ 16 }
    ensures value { let o = value_operations root in
        let ls = row_values root xs.now 0 (d + 1) in
        let rs = row_values root qs.now 0 (d + 1) in
        Gives value_of result (dot_fits o ls rs) (dot_of o ls rs) }
    ensures root { IfOk result (λ r. root_of r ≡ root) }
{
    let first = value_at(root, xs, 0).mul(value_at(root, qs, 0))?;
    rows_dot_rest(first, xs, qs, 1, d)
}

/// Whether in this row of Q the product at i and j is the sum of the products with the numbers.
#[tactic(auto, unfolding(crate::specs::KreinLines::parameter_steps))]
fn check_parameters(
    root: u32,
    numbers: &[i128],
    i: usize,
    j: usize,
    row: &[i128],
    d: usize,
) -> Result<(), Refusal>
    requires root { IsRoot root }
    requires short { d ≤ 16 }
    requires i { i ≤ d }
    requires j { j ≤ d }
    ensures { result ≡ first_failure (parameter_steps root (d + 1) numbers.now i j row.now) }
{
    let left = value_at(root, row, i).mul(value_at(root, row, j))?;
    let right = rows_dot(root, numbers, row, d)?;
    met_where(is_same(left, right))
}

/// The same for these rows of Q.
#[tactic(auto, using(crate::proofs::KreinSteps::rows_end, crate::proofs::KreinSteps::rows_fail, crate::proofs::KreinSteps::rows_next))]
fn check_parameter_rows(
    root: u32,
    numbers: &[i128],
    i: usize,
    j: usize,
    rows: &[NumberList],
    d: usize,
) -> Result<(), Refusal>
    requires root { IsRoot root }
    requires short { d ≤ 16 }
    requires i { i ≤ d }
    requires j { j ≤ d }
    ensures { result ≡ first_failure (parameter_rows root (d + 1) numbers.now i j rows.now) }
{
    match rows.split_first() {
        None => Ok(()),
        Some((row, rest)) => {
            check_parameters(root, numbers, i, j, row.as_slice(), d)?;
            check_parameter_rows(root, numbers, i, j, rest, d)
        }
    }
}

/// Whether a `krein` line of i and j with these numbers is met.
pub fn check_krein(
    array: &Array,
    frame: &Frame,
    i: usize,
    j: usize,
    numbers: &[i128],
) -> Result<(), Refusal>
    requires i { i ≤ diameter array.now }
    requires j { j ≤ diameter array.now }
    ensures { result ≡ first_failure (krein_numbers_steps array.now frame.now i j numbers.now) }
{
    array.known_valid();
    let d = array.d();
    let root = frame.root();
    if !are_field_numbers(root, numbers, d + 1)
        || !all_stand(array, frame.q())
        || krein_stands(frame.krein(), i, j)
    {
        return Err(Refusal::NotMet);
    }
    check_parameter_rows(root, numbers, i, j, frame.q(), d)
}
