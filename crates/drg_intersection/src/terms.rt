//! The products of the balance equation, read from the table, and the numbers of an array as factors.

ghost use Rattle.std.specs.Prelude.{◌≡◌, ◌≤◌, ◌<◌, ◌≢◌, suc, neg_ℤ, pos};
ghost use Rattle.drg_array.specs.Entries.{IsArray, diameter, c_at, a_at};
ghost use Rattle.drg_intersection.specs.FirstNumbers.{cell as the_cell};
ghost use Rattle.drg_intersection.specs.Numbers.{place as the_place};
ghost use Rattle.drg_intersection.specs.Table.{balance as the_balance, of_factors, term_above as the_term_above, term_before as the_term_before};

use drg_array::{Array, MAX_DIAMETER};
use drg_whole::{Product, Whole};

/// An index as it stands in the name of a number.
pub fn index(array: &Array, i: usize) -> u8
    requires array { IsArray array.now }
    requires inside { i ≤ diameter array.now }
    ensures { result ≡ i }
{
    i as u8
}

/// The entry `c_(i+1)`, by which the formulas of k_(i+1) and of row i+1 divide.
pub fn divisor(array: &Array, i: usize) -> Whole
    requires array { IsArray array.now }
    requires inside { i < diameter array.now }
    ensures value { result.value ≡ pos (c_at array.now (suc i)) }
    ensures nonzero { result.value ≢ pos 0 }
{
    Whole::new(i128::from(array.c(i + 1)))
}

/// Where p^h_ij stands in the table.
pub fn place(d: usize, h: usize, i: usize, j: usize) -> usize
    requires d { d ≤ MAX_DIAMETER }
    requires h { h ≤ d }
    requires i { i ≤ suc d }
    requires j { j ≤ suc d }
    ensures { result ≡ the_place d h i j }
{
    (h * (d + 1) + i) * (d + 1) + j
}

/// The number that the table has for p^h_ij, and 0 past its end.
fn cell(array: &Array, p: &[i128], h: usize, i: usize, j: usize) -> i128
    requires array { IsArray array.now }
    requires h { h ≤ diameter array.now }
    requires i { i ≤ diameter array.now }
    requires j { j ≤ suc (diameter array.now) }
    ensures { result ≡ the_cell (diameter array.now) p.now h i j }
{
    let at = place(array.d(), h, i, j);
    if at < p.len() { p[at] } else { 0 }
}

/// `b_(j-1) p^h_(i,j-1)`.
fn term_before(array: &Array, p: &[i128], h: usize, i: usize, j: usize) -> Product
    requires array { IsArray array.now }
    requires h { h ≤ diameter array.now }
    requires i { i ≤ diameter array.now }
    requires j { j ≤ diameter array.now }
    ensures { result ≡ the_term_before array.now p.now h i j }
{
    if j == 0 {
        return Product { left: 0, right: 0 };
    }
    Product {
        left: i128::from(array.b(j - 1)),
        right: cell(array, p, h, i, j - 1),
    }
}

/// `a_j p^h_ij`.
fn term_at(array: &Array, p: &[i128], h: usize, i: usize, j: usize) -> Product
    requires array { IsArray array.now }
    requires h { h ≤ diameter array.now }
    requires i { i ≤ diameter array.now }
    requires j { j ≤ diameter array.now }
    ensures { result ≡ of_factors (a_at array.now j) (the_cell (diameter array.now) p.now h i j) }
{
    Product {
        left: i128::from(array.a(j)),
        right: cell(array, p, h, i, j),
    }
}

/// `c_(j+1)`, and 0 for j = d.
fn c_after(array: &Array, j: usize) -> u16
    requires { j ≤ diameter array.now }
    ensures { result ≡ c_at array.now (suc j) }
{
    if j == array.d() { 0 } else { array.c(j + 1) }
}

/// `c_(j+1) p^h_(i,j+1)`.
fn term_after(array: &Array, p: &[i128], h: usize, i: usize, j: usize) -> Product
    requires array { IsArray array.now }
    requires h { h ≤ diameter array.now }
    requires i { i ≤ diameter array.now }
    requires j { j ≤ diameter array.now }
    ensures { result ≡
        of_factors (pos (c_at array.now (suc j))) (the_cell (diameter array.now) p.now h i (suc j)) }
{
    Product {
        left: i128::from(c_after(array, j)),
        right: cell(array, p, h, i, j + 1),
    }
}

/// `-b_(i-1) p^h_(i-1,j)`.
fn term_above(array: &Array, p: &[i128], h: usize, i: usize, j: usize) -> Product
    requires array { IsArray array.now }
    requires h { h ≤ diameter array.now }
    requires i { i ≤ diameter array.now }
    requires j { j ≤ diameter array.now }
    ensures { result ≡ the_term_above array.now p.now h i j }
{
    if i == 0 {
        return Product { left: 0, right: 0 };
    }
    Product {
        left: -i128::from(array.b(i - 1)),
        right: cell(array, p, h, i - 1, j),
    }
}

/// `-a_i p^h_ij`.
fn term_same(array: &Array, p: &[i128], h: usize, i: usize, j: usize) -> Product
    requires array { IsArray array.now }
    requires h { h ≤ diameter array.now }
    requires i { i ≤ diameter array.now }
    requires j { j ≤ diameter array.now }
    ensures { result ≡
        of_factors (neg_ℤ (a_at array.now i)) (the_cell (diameter array.now) p.now h i j) }
{
    Product {
        left: -i128::from(array.a(i)),
        right: cell(array, p, h, i, j),
    }
}

/// The products of the balance equation for row i+1, at j.
#[tactic(auto, unfolding(crate::specs::Table::balance))]
pub fn balance(array: &Array, p: &[i128], h: usize, i: usize, j: usize) -> [Product; 5]
    requires array { IsArray array.now }
    requires h { h ≤ diameter array.now }
    requires i { i ≤ diameter array.now }
    requires j { j ≤ diameter array.now }
    ensures { result ≡ the_balance array.now p.now h i j }
{
    [
        term_before(array, p, h, i, j),
        term_at(array, p, h, i, j),
        term_after(array, p, h, i, j),
        term_above(array, p, h, i, j),
        term_same(array, p, h, i, j),
    ]
}
