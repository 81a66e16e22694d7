//! The cosines and the matrix Q of a frame as tables, whose rows are at hand.

ghost use Rattle.std.specs.Prelude.{◌≡◌, ◌≤◌, ◌<◌, suc, IfOk};
ghost use Rattle.drg_matrices.specs.Tables.{diameter_of, root_of_tables};
ghost use Rattle.drg_krein.specs.Copies.{IsCopy, entry_in};

use drg_fraction::Field;
use drg_matrices::Frame;
use drg_matrix::Table;
use std::alloc::{AllocError, Global};

/// A matrix of a frame.
#[derive(Clone, Copy)]
pub(crate) enum Matrix {
    /// The cosines, a row for each eigenvalue.
    Cosines,
    /// The matrix Q.
    Dual,
}

/// The matrix of the frame.
pub(crate) fn copy_of<F: Field>(
    alloc: Global,
    frame: &Frame<F>,
    matrix: Matrix,
) -> Result<Table<F>, AllocError>
    ensures { IfOk result (λ t. IsCopy F.value F.operations frame.now matrix
        t (suc (diameter_of frame.now)) 0) }
{
    let side = frame.d() + 1;
    let mut table = Table::make(alloc, side, frame.m(0))?;
    'rows: for row in 0..side {
        copy_row(frame, matrix, &mut table, row);
    }
    Ok(table)
}

/// Copies a row.
fn copy_row<F: Field>(frame: &Frame<F>, matrix: Matrix, table: &mut Table<F>, row: usize)
    requires inside { row ≤ diameter_of frame.now }
    requires table { IsCopy F.value F.operations frame.now matrix table.old row 0 }
    ensures { IsCopy F.value F.operations frame.now matrix table.new (suc row) 0 }
{
    'entries: for col in 0..frame.d() + 1 {
        table.set(row, col, entry(frame, matrix, row, col));
    }
}

/// An entry of the matrix.
fn entry<F: Field>(frame: &Frame<F>, matrix: Matrix, row: usize, col: usize) -> F
    requires row { row ≤ diameter_of frame.now }
    requires col { col ≤ diameter_of frame.now }
    ensures value { F.value result ≡ entry_in F.value F.operations frame.now matrix row col }
    ensures root { F.root_of result ≡ root_of_tables frame.now }
{
    match matrix {
        Matrix::Cosines => frame.cosine(row, col),
        Matrix::Dual => frame.dual(row, col),
    }
}
