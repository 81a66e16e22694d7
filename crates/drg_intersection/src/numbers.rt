//! The numbers of an array.

ghost use Rattle.std.specs.Prelude.{◌≡◌, ◌≤◌, ◌↔◌, IsTrue, suc, pos, ◌≤ℤ◌, [], length, slice_index_or, ℕ, IfOk, IfErr, OnOk, IfSome};
ghost use Rattle.drg_algebra.specs.Rational.{whole};
ghost use Rattle.drg_array.specs.Conditions.{CountsHold};
ghost use Rattle.drg_array.specs.Entries.{Entries, IsArray, diameter};
ghost use Rattle.drg_array.specs.Numbers.{vertex_count};
ghost use Rattle.drg_array.specs.declared.test.Test.TheVariants as test;
ghost use Rattle.drg_intersection.specs.Faults.{AllPass, AreBefore, IsNumbersFault, failing_node};
ghost use Rattle.drg_intersection.specs.FirstNumbers.{AreCells, AreFirstNumbers, AreSizes, EndBefore, HasRow, IsFull, IsRowOf, first_of};
ghost use Rattle.drg_intersection.specs.Numbers.{AreNumbersOf, k_at, n_of, p_at, place as the_place};

use crate::fault::NumbersFault;
use crate::sizes::{fill_sizes, sum_of};
use crate::table::fill_table;
use crate::terms::place;
use drg_array::{Array, MAX_DIAMETER};
use std::alloc::Global;
use std::marker::Model;

/// The first numbers of an array of diameter d: sizes from k_0 on and then, where all sizes are there,
/// intersection numbers from p^0_00 on, by h, i and j.
#[derive(Drop)]
pub struct FirstNumbers {
    d: usize,
    sizes: Vec<i128>,
    table: Vec<i128>,
}

impl Model for FirstNumbers {
    ghost use Rattle.std.specs.Prelude.{◌≤◌};
    ghost use Rattle.drg_array.specs.declared.limits.TheConstants.{MAX_DIAMETER};
    ghost use Rattle.drg_intersection.specs.FirstNumbers.{FirstNumbers as TheFirstNumbers};

    ghost Value = { TheFirstNumbers };

    ghost view = { λ t. record { d = t.d; sizes = t.sizes.items; table = t.table.items } };

    ghost invariant = { λ t. t.d ≤ MAX_DIAMETER };
}

impl FirstNumbers {
    /// The diameter of the array.
    pub fn d(&self) -> usize
        ensures value { result ≡ self.now.d }
        ensures short { result ≤ MAX_DIAMETER }
    {
        self.d
    }

    /// The sizes k_0, k_1, .. that are made.
    pub fn sizes(&self) -> &[i128]
        ensures { result.now ≡ self.now.sizes }
    {
        &self.sizes
    }

    /// Whether the row p^h_i0 to p^h_id is made.
    pub fn has_row(&self, h: usize, i: usize) -> bool
        requires h { h ≤ self.now.d }
        requires i { i ≤ self.now.d }
        ensures { IsTrue result ↔ HasRow self.now h i }
    {
        place(self.d, h, i + 1, 0) <= self.table.len()
    }

    /// The row p^h_i0 to p^h_id, which has to be made.
    pub fn row(&self, h: usize, i: usize) -> &[i128]
        requires h { h ≤ self.now.d }
        requires i { i ≤ self.now.d }
        requires made { HasRow self.now h i }
        ensures { IsRowOf self.now h i result.now }
    {
        &self.table[place(self.d, h, i, 0)..place(self.d, h, i + 1, 0)]
    }
}

/// The sizes, the number of vertices and the intersection numbers of an array of diameter d: whole, and
/// not negative.
#[derive(Drop)]
pub struct Numbers {
    first: FirstNumbers,
    n: i128,
}

impl Model for Numbers {
    ghost use Rattle.drg_intersection.specs.Numbers.{Numbers as TheNumbers};
    ghost use Rattle.drg_intersection.specs.Table.{IsTable};

    ghost Value = { TheNumbers };

    ghost view = { λ t.
        record { d = t.first.d; sizes = t.first.sizes; vertices = t.n; table = t.first.table } };

    ghost invariant = { λ t. IsTable
        (record { d = t.first.d; sizes = t.first.sizes; vertices = t.n; table = t.first.table }) };
}

impl Numbers {
    /// The diameter.
    pub fn d(&self) -> usize
        ensures value { result ≡ self.now.d }
        ensures short { result ≤ MAX_DIAMETER }
    {
        self.first.d
    }

    /// The sizes and the intersection numbers, as first numbers that are all there.
    pub fn first(&self) -> &FirstNumbers
        ensures value { result.now ≡ first_of self.now }
        ensures full { IsFull result.now }
        ensures are { (a : Entries) → AreNumbersOf a self.now → AreFirstNumbers a result.now }
    {
        &self.first
    }

    /// The sizes k_0 to k_d.
    pub fn sizes(&self) -> &[i128]
        ensures length { length result.now ≡ suc self.now.d }
        ensures sizes { (i : ℕ) → i ≤ self.now.d →
            slice_index_or result.now i (pos 0) ≡ pos (k_at self.now i) }
    {
        self.first.sizes()
    }

    /// The size k_i, the number of vertices at distance i from a vertex.
    pub fn k(&self, i: usize) -> i128
        requires { i ≤ self.now.d }
        ensures { result ≡ pos (k_at self.now i) }
    {
        self.sizes()[i]
    }

    /// The number of vertices.
    pub fn n(&self) -> i128
        ensures { result ≡ pos (n_of self.now) }
    {
        self.n
    }

    /// The row p^h_i0 to p^h_id.
    pub fn row(&self, h: usize, i: usize) -> &[i128]
        requires h { h ≤ self.now.d }
        requires i { i ≤ self.now.d }
        ensures length { length result.now ≡ suc self.now.d }
        ensures row { (j : ℕ) → j ≤ self.now.d →
            slice_index_or result.now j (pos 0) ≡ pos (p_at self.now h i j) }
    {
        self.first.row(h, i)
    }

    /// The intersection number p^h_ij, the number of vertices at distance i from one and j from the other
    /// of two vertices at distance h.
    pub fn p(&self, h: usize, i: usize, j: usize) -> i128
        requires h { h ≤ self.now.d }
        requires i { i ≤ self.now.d }
        requires j { j ≤ self.now.d }
        ensures { result ≡ pos (p_at self.now h i j) }
    {
        self.row(h, i)[j]
    }
}

/// A fault, and the numbers before the one that it names.
#[derive(Drop)]
pub struct Shortfall {
    pub fault: NumbersFault,
    pub before: FirstNumbers,
}

/// The numbers of the array. A fault names the first number that doesn't fit, isn't whole, or is a
/// negative intersection number, in the order k_0 to k_d, n, then p^h_ij by h, i and j.
pub fn numbers_of(alloc: Global, array: &Array) -> Result<Numbers, NumbersFault>
    ensures numbers { IfOk result (AreNumbersOf array.now) }
    ensures pass { IfOk result (λ numbers. AllPass array.now) }
    ensures size { IfOk result (λ numbers. CountsHold array.now test.Size) }
    ensures intersect { IfOk result (λ numbers. CountsHold array.now test.Intersect) }
    ensures fault { IfErr result (IsNumbersFault array.now) }
{
    match numbers_or_before(alloc, array) {
        Ok(numbers) => Ok(numbers),
        Err(shortfall) => Err(shortfall.fault),
    }
}

/// The numbers of the array as in `numbers_of`, or the fault with all numbers before the one that it
/// names.
pub fn numbers_or_before(alloc: Global, array: &Array) -> Result<Numbers, Shortfall>
    ensures numbers { IfOk result (AreNumbersOf array.now) }
    ensures pass { IfOk result (λ numbers. AllPass array.now) }
    ensures size { IfOk result (λ numbers. CountsHold array.now test.Size) }
    ensures intersect { IfOk result (λ numbers. CountsHold array.now test.Intersect) }
    ensures fault { IfErr result (λ shortfall. IsNumbersFault array.now shortfall.fault) }
    ensures before { IfErr result (λ shortfall.
        AreBefore array.now shortfall.fault shortfall.before) }
{
    let d = array.d();
    let mut sizes = Vec::new(alloc);
    let mut table = Vec::new(alloc);
    let sum = fill(array, &mut sizes, &mut table);
    let first = FirstNumbers { d, sizes, table };
    match sum {
        Ok(n) => Ok(Numbers { first, n }),
        Err(fault) => Err(Shortfall {
            fault,
            before: first,
        }),
    }
}

/// Appends the sizes and the intersection numbers to no number, and gives the number of vertices. After
/// an error those before the fault are appended.
fn fill(array: &Array, sizes: &mut Vec<i128>, table: &mut Vec<i128>) -> Result<i128, NumbersFault>
    requires array { IsArray array.now }
    requires no_size { sizes.old.items ≡ [] }
    requires no_number { table.old.items ≡ [] }
    ensures sizes { AreSizes array.now sizes.new.items }
    ensures cells { AreCells array.now table.new.items }
    ensures all_sizes { OnOk result (length sizes.new.items ≡ suc (diameter array.now)) }
    ensures all_cells { OnOk result (length table.new.items ≡
        the_place (diameter array.now) (suc (diameter array.now)) 0 0) }
    ensures sum { IfOk result (λ n. vertex_count array.now ≡ whole n) }
    ensures natural { IfOk result (λ n. pos 0 ≤ℤ n) }
    ensures pass { OnOk result (AllPass array.now) }
    ensures fault { IfErr result (IsNumbersFault array.now) }
    ensures end { IfErr result (λ fault. IfSome (failing_node fault) (EndBefore
        (record { d = diameter array.now; sizes = sizes.new.items; table = table.new.items }))) }
{
    fill_sizes(array, sizes)?;
    let n = sum_of(array, sizes)?;
    fill_table(array, table)?;
    Ok(n)
}
