//! Square tables.

ghost use Rattle.std.specs.Prelude.{◌≡◌, ◌↔◌, ◌≤◌, ◌<◌, ℕ, All, IfOk, IfErr, IsTrue, length, map, slice_index_or};
ghost use Rattle.drg_algebra.specs.Tables.{delta};
ghost use Rattle.drg_whole.specs.Range.{Gives};
ghost use Rattle.drg_matrix.specs.Table.{IsTable, cell, row_of, IsScalarTable};
ghost use Rattle.drg_matrix.specs.Product.{AllFit, IsFault, product_at, product_fits_at};

use crate::fault::TableFault;
use crate::product::{append_row, dot_column};
use drg_fraction::{Field, Wide};
use std::alloc::{AllocError, Global};
use std::marker::Model;

/// A square table of 1 to 17 rows over an exact field. All cells have one root. Rows and
/// columns are counted from 0.
#[derive(Drop)]
pub struct Table<F: Field> {
    side: usize,
    root: u32,
    cells: Vec<F>,
}

impl<F: Field> Model for Table<F> {
    ghost use Rattle.drg_matrix.specs.Table.{Square, IsTable};

    ghost Value = { Square F };

    ghost view = { λ t. record { side = t.side; root = t.root; cells = t.cells.items } };

    ghost invariant = { λ t. IsTable F.root_of (record { side = t.side; root = t.root; cells = t.cells.items }) };
}

impl<F: Field> Table<F> {
    /// The table with `fill` in each cell, whose root is that of `fill`.
    pub fn make(alloc: Global, side: usize, fill: F) -> Result<Table<F>, AllocError>
        requires some { 1 ≤ side }
        requires short { side ≤ 17 }
        ensures side { IfOk result (λ t. t.side ≡ side) }
        ensures root { IfOk result (λ t. t.root ≡ F.root_of fill) }
        ensures cells { IfOk result (λ t. (i j : ℕ) → i < side → j < side
            → cell F.value F.operations t i j ≡ F.value fill) }
    {
        let mut cells = Vec::new(alloc);
        cells.resize(side * side, fill)?;
        Ok(Table {
            side,
            root: fill.root(),
            cells,
        })
    }

    /// The number of rows, which is that of columns.
    pub fn side(&self) -> usize
        ensures value { result ≡ self.now.side }
        ensures table { IsTable F.root_of self.now }
    {
        self.side
    }

    /// The value in a row and a column.
    pub fn get(&self, row: usize, col: usize) -> F
        requires row { row < self.now.side }
        requires col { col < self.now.side }
        ensures value { F.value result ≡ cell F.value F.operations self.now row col }
        ensures root { F.root_of result ≡ self.now.root }
    {
        self.cells[row * self.side + col]
    }

    /// Replaces the value in a row and a column.
    pub fn set(&mut self, row: usize, col: usize, v: F)
        requires row { row < self.old.side }
        requires col { col < self.old.side }
        requires root { F.root_of v ≡ self.old.root }
        ensures side { self.new.side ≡ self.old.side }
        ensures root { self.new.root ≡ self.old.root }
        ensures changed { cell F.value F.operations self.new row col ≡ F.value v }
        ensures others { (i j : ℕ) → i < self.old.side → j < self.old.side → ¬ ((i ≡ row) × (j ≡ col))
            → cell F.value F.operations self.new i j ≡ cell F.value F.operations self.old i j }
    {
        self.cells[row * self.side + col] = v;
    }

    /// The row, from its first column.
    pub fn row(&self, row: usize) -> &[F]
        requires { row < self.now.side }
        ensures values { map F.value result.now ≡ row_of F.value F.operations self.now row }
        ensures length { length result.now ≡ self.now.side }
        ensures table { IsTable F.root_of self.now }
        ensures roots { All (λ x. F.root_of x ≡ self.now.root) result.now }
    {
        &self.cells[row * self.side..(row + 1) * self.side]
    }

    /// Whether the table is `v` on the diagonal and 0 elsewhere.
    pub fn is_scalar(&self, v: F) -> bool
        requires { F.root_of v ≡ self.now.root }
        ensures { IsTrue result
            ↔ IsScalarTable (F.operations self.now.root) self.now.side (cell F.value F.operations self.now) (F.value v) }
    {
        'rows: for row in 0..self.side {
            if !is_scalar_row(self.row(row), row, v) {
                return false;
            }
        }
        true
    }

    /// The product. Each cell is the `dot` of a row of this table and a column of the other one. A
    /// fault names the first cell, row by row, whose `dot` is `Wide`.
    pub fn product(&self, alloc: Global, other: &Table<F>) -> Result<Table<F>, TableFault>
        requires side { self.now.side ≡ other.now.side }
        requires root { self.now.root ≡ other.now.root }
        ensures side { IfOk result (λ t. t.side ≡ self.now.side) }
        ensures root { IfOk result (λ t. t.root ≡ self.now.root) }
        ensures cells { IfOk result (λ t. (i j : ℕ) → i < self.now.side → j < self.now.side
            → cell F.value F.operations t i j
            ≡ product_at F.value F.operations self.now other.now i j) }
        ensures fit { IfOk result (λ t. AllFit self.now.side
            (product_fits_at F.value F.operations self.now other.now)) }
        ensures fault { IfErr result (IsFault self.now.side
            (product_fits_at F.value F.operations self.now other.now)) }
    {
        let mut cells = Vec::new(alloc);
        'rows: for row in 0..self.side {
            append_row(&mut cells, self, other, row)?;
        }
        Ok(Table {
            side: self.side,
            root: self.root,
            cells,
        })
    }

    /// The value of the product in a row and a column, which is the `dot` of that row of this table and
    /// that column of the other one.
    pub fn product_cell(&self, other: &Table<F>, row: usize, col: usize) -> Result<F, Wide>
        requires side { self.now.side ≡ other.now.side }
        requires root { self.now.root ≡ other.now.root }
        requires row { row < self.now.side }
        requires col { col < self.now.side }
        ensures value { Gives F.value result
            (product_fits_at F.value F.operations self.now other.now row col)
            (product_at F.value F.operations self.now other.now row col) }
        ensures root { IfOk result (λ r. F.root_of r ≡ self.now.root) }
    {
        dot_column(self.row(row), other, col)
    }

    /// The root of the cells.
    pub(crate) fn root(&self) -> u32
        ensures { result ≡ self.now.root }
    {
        self.root
    }
}

/// Whether the row is `v` at the place and 0 elsewhere.
fn is_scalar_row<F: Field>(row: &[F], place: usize, v: F) -> bool
    requires { All (λ x. F.root_of x ≡ F.root_of v) row.now }
    ensures { IsTrue result ↔ ((j : ℕ) → j < length row.now
        → slice_index_or (map F.value row.now) j (F.operations (F.root_of v)).nil
        ≡ delta (F.operations (F.root_of v)).nil (F.value v) place j) }
{
    'items: for (at, item) in row.iter().enumerate() {
        if !is_scalar_item(item, at, place, v) {
            return false;
        }
    }
    true
}

/// Whether the item is `v` where `at` is the place, and 0 elsewhere.
fn is_scalar_item<F: Field>(item: &F, at: usize, place: usize, v: F) -> bool
    requires { F.root_of item.now ≡ F.root_of v }
    ensures { IsTrue result
        ↔ (F.value item.now ≡ delta (F.operations (F.root_of v)).nil (F.value v) place at) }
{
    if at == place {
        item.same(v)
    } else {
        item.is_zero()
    }
}
