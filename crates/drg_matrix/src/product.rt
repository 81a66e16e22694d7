//! The rows of a product.

ghost use Rattle.std.specs.Prelude.{◌≡◌, ◌+◌, ◌≤◌, ◌<◌, All, IfOk, IfErr, OnOk, drop, fold, length, map};
ghost use Rattle.drg_whole.specs.Range.{Gives};
ghost use Rattle.drg_fraction.specs.Field.{products, dot_of, dot_fits, dot_fits_from};
ghost use Rattle.drg_matrix.specs.Table.{column_of};
ghost use Rattle.drg_matrix.specs.Product.{IsFault, product_fits_at};
ghost use Rattle.drg_matrix.specs.Filling.{IsFilled};

use crate::fault::TableFault;
use crate::table::Table;
use drg_fraction::{Field, Wide};

/// Appends a row of the product of two tables.
pub(crate) fn append_row<F: Field>(
    cells: &mut Vec<F>,
    left: &Table<F>,
    right: &Table<F>,
    row: usize,
) -> Result<(), TableFault>
    requires side { left.now.side ≡ right.now.side }
    requires root { left.now.root ≡ right.now.root }
    requires row { row < left.now.side }
    requires filled { IsFilled F.value F.operations F.root_of left.now right.now row 0 cells.old.items }
    ensures filled { OnOk result
        (IsFilled F.value F.operations F.root_of left.now right.now (row + 1) 0 cells.new.items) }
    ensures fault { IfErr result (IsFault left.now.side
        (product_fits_at F.value F.operations left.now right.now)) }
{
    'cols: for col in 0..right.side() {
        let Ok(value) = left.product_cell(right, row, col) else {
            return Err(TableFault::Wide {
                row: row as u8,
                col: col as u8,
            });
        };
        cells.push(value)?;
    }
    Ok(())
}

/// The row times the column, from left to right, starting at the first product.
pub(crate) fn dot_column<F: Field>(row: &[F], right: &Table<F>, col: usize) -> Result<F, Wide>
    requires short { right.now.side ≤ 17 }
    requires length { length row.now ≡ right.now.side }
    requires roots { All (λ x. F.root_of x ≡ right.now.root) row.now }
    requires col { col < right.now.side }
    ensures value { let o = F.operations right.now.root in
        let xs = map F.value row.now in
        let ys = column_of F.value F.operations right.now col in
        Gives F.value result (dot_fits o xs ys) (dot_of o xs ys) }
    ensures root { IfOk result (λ r. F.root_of r ≡ right.now.root) }
{
    match row {
        [] => Ok(F::of_int(right.root(), 0)),
        [first, rest @ ..] => {
            let product = first.mul(right.get(0, col))?;
            dot_column_onto(product, rest, right, 1, col)
        }
    }
}

/// What stands so far and the products of the row and the column from the place `at` on, from left
/// to right.
fn dot_column_onto<F: Field>(
    so_far: F,
    row: &[F],
    right: &Table<F>,
    at: usize,
    col: usize,
) -> Result<F, Wide>
    requires so_far { F.root_of so_far ≡ right.now.root }
    requires short { right.now.side ≤ 17 }
    requires length { at + length row.now ≡ right.now.side }
    requires roots { All (λ x. F.root_of x ≡ right.now.root) row.now }
    requires col { col < right.now.side }
    ensures value { let o = F.operations right.now.root in
        let xs = map F.value row.now in
        let ys = drop at (column_of F.value F.operations right.now col) in
        Gives F.value result (dot_fits_from o (F.value so_far) xs ys)
        (fold o.plus (F.value so_far) (products o xs ys)) }
    ensures root { IfOk result (λ r. F.root_of r ≡ right.now.root) }
{
    match row {
        [] => Ok(so_far),
        [first, rest @ ..] => {
            let product = first.mul(right.get(at, col))?;
            dot_column_onto(so_far.add(product)?, rest, right, at + 1, col)
        }
    }
}
