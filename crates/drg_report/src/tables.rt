//! The lines of the eigenvalues of an array, of its matrices P and Q, and of its Krein parameters.

ghost use Rattle.std.specs.Prelude.{◌≡◌, ◌≤◌, ◌++◌, suc, OnOk, OnErr};
ghost use Rattle.drg_algebra.specs.Beginnings.{BeginsWith};
ghost use Rattle.drg_matrices.specs.Tables.{diameter_of, root_of_tables};
ghost use Rattle.drg_report.specs.Pieces.{spaced};
ghost use Rattle.drg_report.specs.Words.{field_text};
ghost use Rattle.drg_report.specs.SpectralTexts.{IsRowOf, dual_lines, eigen_lines, frame_lines, root_line, row_line, row_value, row_word, spectra_lines, table_lines, values_text};

use crate::krein::write_krein_lines;
use crate::words::write_value;
use crate::{Spectra, SpectralTables};
use drg_fraction::Field;
use drg_matrices::Frame;
use itoa::Buffer;
use std::alloc::AllocError;

/// A line of values of a frame: its eigenvalues, or a row of P or of Q.
#[derive(Clone, Copy)]
pub(crate) enum Row {
    Thetas,
    Eigen { i: usize },
    Dual { r: usize },
}

impl Row {
    /// The word before the values.
    fn word(self) -> &'static str
        ensures { result.now ≡ row_word self }
    {
        match self {
            Row::Thetas => "theta",
            Row::Eigen { .. } => "P",
            Row::Dual { .. } => "Q",
        }
    }

    /// The value in a column.
    fn value<F: Field>(self, frame: &Frame<F>, column: usize) -> F
        requires row { IsRowOf (diameter_of frame.now) self }
        requires column { column ≤ diameter_of frame.now }
        ensures value { F.value result ≡ row_value F.value F.operations frame.now self column }
        ensures root { F.root_of result ≡ root_of_tables frame.now }
    {
        match self {
            Row::Thetas => frame.theta(column),
            Row::Eigen { i } => frame.eigen(i, column),
            Row::Dual { r } => frame.dual(r, column),
        }
    }
}

/// Appends the lines of the tables, where there are any.
pub(crate) fn write_spectra_lines(
    spectra: &Option<Spectra>,
    out: &mut Vec<u8>,
) -> Result<(), AllocError>
    ensures ok { OnOk result (out.new.items ≡ out.old.items ++ spectra_lines spectra.now) }
    ensures err { OnErr result
        (BeginsWith (spectra_lines spectra.now) out.old.items out.new.items) }
{
    match spectra {
        None => Ok(()),
        Some(Spectra::Rational(tables)) => write_table_lines(tables, out),
        Some(Spectra::Quadratic(tables)) => write_table_lines(tables, out),
    }
}

/// Appends the lines of the frame, and those of its Krein parameters, where there are any.
fn write_table_lines<F: Field>(
    tables: &SpectralTables<F>,
    out: &mut Vec<u8>,
) -> Result<(), AllocError>
    ensures ok { OnOk result (out.new.items ≡ out.old.items
        ++ table_lines F.value F.operations tables.now.frame tables.now.krein) }
    ensures err { OnErr result
        (BeginsWith (table_lines F.value F.operations tables.now.frame tables.now.krein)
        out.old.items out.new.items) }
{
    write_frame_lines(&tables.frame, out)?;
    write_krein_lines(&tables.krein, out)
}

/// Appends the lines of the root, of the eigenvalues, and of the rows of P and of Q.
fn write_frame_lines<F: Field>(frame: &Frame<F>, out: &mut Vec<u8>) -> Result<(), AllocError>
    ensures ok { OnOk result
        (out.new.items ≡ out.old.items ++ frame_lines F.value F.operations frame.now) }
    ensures err { OnErr result
        (BeginsWith (frame_lines F.value F.operations frame.now) out.old.items out.new.items) }
{
    write_root_line(frame.root(), out)?;
    write_row_line(frame, Row::Thetas, out)?;
    write_eigen_lines(frame, out)?;
    write_dual_lines(frame, out)
}

/// Appends the line of the root.
fn write_root_line(root: u32, out: &mut Vec<u8>) -> Result<(), AllocError>
    ensures ok { OnOk result (out.new.items ≡ out.old.items ++ root_line root) }
    ensures err { OnErr result (BeginsWith (root_line root) out.old.items out.new.items) }
{
    out.extend_from_slice(b"root ")?;
    out.extend_from_slice(Buffer::new().format(root).as_bytes())?;
    out.extend_from_slice(b"\n")
}

/// Appends the lines of the rows of P.
fn write_eigen_lines<F: Field>(frame: &Frame<F>, out: &mut Vec<u8>) -> Result<(), AllocError>
    ensures ok { OnOk result (out.new.items
        ≡ out.old.items ++ eigen_lines F.value F.operations frame.now (suc (diameter_of frame.now))) }
    ensures err { OnErr result
        (BeginsWith (eigen_lines F.value F.operations frame.now (suc (diameter_of frame.now)))
        out.old.items out.new.items) }
{
    'rows: for i in 0..frame.d() + 1 {
        write_row_line(frame, Row::Eigen { i }, out)?;
    }
    Ok(())
}

/// Appends the lines of the rows of Q.
fn write_dual_lines<F: Field>(frame: &Frame<F>, out: &mut Vec<u8>) -> Result<(), AllocError>
    ensures ok { OnOk result (out.new.items
        ≡ out.old.items ++ dual_lines F.value F.operations frame.now (suc (diameter_of frame.now))) }
    ensures err { OnErr result
        (BeginsWith (dual_lines F.value F.operations frame.now (suc (diameter_of frame.now)))
        out.old.items out.new.items) }
{
    'rows: for r in 0..frame.d() + 1 {
        write_row_line(frame, Row::Dual { r }, out)?;
    }
    Ok(())
}

/// Appends the line of a row.
fn write_row_line<F: Field>(frame: &Frame<F>, row: Row, out: &mut Vec<u8>) -> Result<(), AllocError>
    requires { IsRowOf (diameter_of frame.now) row }
    ensures ok { OnOk result
        (out.new.items ≡ out.old.items ++ row_line F.value F.operations frame.now row) }
    ensures err { OnErr result
        (BeginsWith (row_line F.value F.operations frame.now row) out.old.items out.new.items) }
{
    out.extend_from_slice(row.word().as_bytes())?;
    write_values(frame, row, out)?;
    out.extend_from_slice(b"\n")
}

/// Appends the values of a row, with one space before each.
fn write_values<F: Field>(frame: &Frame<F>, row: Row, out: &mut Vec<u8>) -> Result<(), AllocError>
    requires { IsRowOf (diameter_of frame.now) row }
    ensures ok { OnOk result (out.new.items
        ≡ out.old.items ++ values_text F.value F.operations frame.now row (suc (diameter_of frame.now))) }
    ensures err { OnErr result
        (BeginsWith (values_text F.value F.operations frame.now row (suc (diameter_of frame.now)))
        out.old.items out.new.items) }
{
    'columns: for column in 0..frame.d() + 1 {
        write_spaced_value(row.value(frame, column), out)?;
    }
    Ok(())
}

/// Appends a space and the value.
pub(crate) fn write_spaced_value<F: Field>(value: F, out: &mut Vec<u8>) -> Result<(), AllocError>
    ensures ok { let root = F.root_of value in OnOk result (out.new.items
        ≡ out.old.items ++ spaced (field_text (F.operations root) root (F.value value))) }
    ensures err { let root = F.root_of value in OnErr result
        (BeginsWith (spaced (field_text (F.operations root) root (F.value value)))
        out.old.items out.new.items) }
{
    out.push(b' ')?;
    write_value(value, out)
}
