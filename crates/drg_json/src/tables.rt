//! The eigenvalues of an array, and its matrices P and Q.

ghost use Rattle.std.specs.Prelude.{◌≡◌, ◌≤◌, IfOk, OnOk};
ghost use Rattle.serde_json.specs.View.{members_view, view};
ghost use Rattle.drg_matrices.specs.Tables.{diameter_of, root_of_tables};
ghost use Rattle.drg_json.specs.Putting.{put_spectra as with_spectra, put_tables as with_tables};
ghost use Rattle.drg_json.specs.Tables.{IsRowOf, dual_data, eigen_data, root_data, row_data, row_value, spectra_data, table_data, value_data};

use crate::krein::put_krein;
use crate::pieces::text_of;
use drg_fraction::Field;
use drg_matrices::Frame;
use drg_quadratic::Quadratic;
use drg_report::{Spectra, SpectralTables};
use itoa::Buffer;
use serde_json::{Map, Value, put};
use std::alloc::{AllocError, Global};

/// A list of values of a frame: its eigenvalues, or a row of P or of Q.
#[derive(Clone, Copy)]
pub(crate) enum Row {
    Thetas,
    Eigen { i: usize },
    Dual { r: usize },
}

impl Row {
    /// The value in a column.
    fn value<F: Field>(self, frame: &Frame<F>, column: usize) -> F
        requires row { IsRowOf (diameter_of frame.now) self }
        requires column { column ≤ diameter_of frame.now }
        ensures value { F.value result ≡ row_value F.value F.operations frame.now self column }
        ensures root { F.root_of result ≡ root_of_tables frame.now }
    {
        match self {
            Row::Thetas => frame.theta(column),
            Row::Eigen { i } => frame.eigen(i, column),
            Row::Dual { r } => frame.dual(r, column),
        }
    }
}

/// Puts in the members of the tables, where there are any.
pub(crate) fn put_spectra(
    object: &mut Map<String, Value>,
    alloc: Global,
    spectra: &Option<Spectra>,
) -> Result<(), AllocError>
    ensures { OnOk result (members_view object.new.entries
        ≡ with_spectra (spectra_data spectra.now) (members_view object.old.entries)) }
{
    match spectra {
        None => Ok(()),
        Some(Spectra::Rational(tables)) => put_tables(object, alloc, tables),
        Some(Spectra::Quadratic(tables)) => put_tables(object, alloc, tables),
    }
}

/// Puts in the root, the eigenvalues, the matrices, and the Krein parameters, where there are any.
fn put_tables<F: Field>(
    object: &mut Map<String, Value>,
    alloc: Global,
    tables: &SpectralTables<F>,
) -> Result<(), AllocError>
    ensures { OnOk result (members_view object.new.entries
        ≡ with_tables (table_data F.value F.operations tables.now.frame tables.now.krein)
        (members_view object.old.entries)) }
{
    let frame = &tables.frame;
    put(object, alloc, "root", root(alloc, frame.root())?)?;
    put(
        object,
        alloc,
        "theta",
        row_values(alloc, frame, Row::Thetas)?,
    )?;
    put(object, alloc, "eigen", eigen_rows(alloc, frame)?)?;
    put(object, alloc, "dual", dual_rows(alloc, frame)?)?;
    put_krein(object, alloc, &tables.krein)
}

/// The root.
fn root(alloc: Global, root: u32) -> Result<Value, AllocError>
    ensures { IfOk result (λ v. view v ≡ root_data root) }
{
    Value::try_from_str(alloc, Buffer::new().format(root))
}

/// The rows of P.
fn eigen_rows<F: Field>(alloc: Global, frame: &Frame<F>) -> Result<Value, AllocError>
    ensures { IfOk result (λ v. view v ≡ eigen_data F.value F.operations frame.now) }
{
    let mut list = Vec::new(alloc);
    'rows: for i in 0..frame.d() + 1 {
        list.push(row_values(alloc, frame, Row::Eigen { i })?)?;
    }
    Ok(Value::Array(list))
}

/// The rows of Q.
fn dual_rows<F: Field>(alloc: Global, frame: &Frame<F>) -> Result<Value, AllocError>
    ensures { IfOk result (λ v. view v ≡ dual_data F.value F.operations frame.now) }
{
    let mut list = Vec::new(alloc);
    'rows: for r in 0..frame.d() + 1 {
        list.push(row_values(alloc, frame, Row::Dual { r })?)?;
    }
    Ok(Value::Array(list))
}

/// The values of a row.
fn row_values<F: Field>(alloc: Global, frame: &Frame<F>, row: Row) -> Result<Value, AllocError>
    requires { IsRowOf (diameter_of frame.now) row }
    ensures { IfOk result (λ v. view v ≡ row_data F.value F.operations frame.now row) }
{
    let mut list = Vec::new(alloc);
    'columns: for column in 0..frame.d() + 1 {
        list.push(field_value(alloc, row.value(frame, column))?)?;
    }
    Ok(Value::Array(list))
}

/// A value of a field, as a text.
pub(crate) fn field_value<F: Field>(alloc: Global, value: F) -> Result<Value, AllocError>
    ensures { IfOk result (λ v.
        view v ≡ value_data F.value F.operations (F.root_of value) (F.value value)) }
{
    let (a, b) = value.parts();
    let mut text = Vec::new(alloc);
    Quadratic::make(a, b, value.root()).write_text(&mut text)?;
    Ok(text_of(text))
}
