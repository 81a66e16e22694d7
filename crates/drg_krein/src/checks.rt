//! The equations and the signs of Krein parameters, whose work numbers have to fit. That the equations
//! hold is proved.

ghost use Rattle.std.specs.Prelude.{◌≡◌, ◌≤◌, ◌<◌, ◌&&◌, suc, is_ok, IfErr, OnOk};
ghost use Rattle.drg_array.specs.declared.node.Node.TheVariants as node;
ghost use Rattle.drg_matrix.specs.Table.{cell, row_of};
ghost use Rattle.drg_fraction.specs.Field.{dot_fits};
ghost use Rattle.drg_matrices.specs.Tables.{diameter_of, root_of_tables};
ghost use Rattle.drg_krein.specs.Copies.{IsCopy};
ghost use Rattle.drg_krein.specs.Values.{values_in};
ghost use Rattle.drg_krein.specs.Faults.{IsFault, NumbersFit, ProductsFit, SignsFit};
ghost use Rattle.drg_krein.specs.Filling.{AreFull, HasNumbers, ProductsFitBefore, SignsFitBefore};
ghost use Rattle.drg_krein.specs.declared.copies.Matrix.TheVariants as matrix;
ghost use Rattle.drg_krein.specs.declared.fault.KreinFault.TheVariants.{Wide as TooWide};

use crate::fault::KreinFault;
use drg_array::Node;
use drg_fraction::{Field, Wide, dot};
use drg_intersection::Numbers;
use drg_matrices::Frame;
use drg_matrix::Table;

/// Makes both sides of each equation of the Krein parameters.
pub(crate) fn products<F: Field>(
    numbers: &Numbers,
    frame: &Frame<F>,
    dual: &Table<F>,
    tables: &[Table<F>],
) -> Result<(), KreinFault>
    requires dual { IsCopy F.value F.operations frame.now matrix.Dual
        dual.now (suc (diameter_of frame.now)) 0 }
    requires full { let f = values_in F.value F.operations numbers.now frame.now in
        AreFull F.value F.operations (root_of_tables frame.now) f
        tables.now (suc (diameter_of frame.now)) }
    requires numbers { let f = values_in F.value F.operations numbers.now frame.now in
        NumbersFit (F.operations (root_of_tables frame.now)) f }
    ensures fit { let f = values_in F.value F.operations numbers.now frame.now in
        OnOk result (ProductsFit (F.operations (root_of_tables frame.now)) f) }
    ensures fault { let f = values_in F.value F.operations numbers.now frame.now in
        IfErr result (IsFault (F.operations (root_of_tables frame.now)) f) }
{
    'firsts: for i in 0..frame.d() + 1 {
        products_of(numbers, frame, dual, &tables[i], i)?;
    }
    Ok(())
}

/// Those of an i, for i ≤ j.
fn products_of<F: Field>(
    numbers: &Numbers,
    frame: &Frame<F>,
    dual: &Table<F>,
    table: &Table<F>,
    i: usize,
) -> Result<(), KreinFault>
    requires inside { i ≤ diameter_of frame.now }
    requires dual { IsCopy F.value F.operations frame.now matrix.Dual
        dual.now (suc (diameter_of frame.now)) 0 }
    requires table { let f = values_in F.value F.operations numbers.now frame.now in
        HasNumbers F.value F.operations (root_of_tables frame.now) f
        i table.now (suc (diameter_of frame.now)) 0 }
    requires numbers { let f = values_in F.value F.operations numbers.now frame.now in
        NumbersFit (F.operations (root_of_tables frame.now)) f }
    requires before { let f = values_in F.value F.operations numbers.now frame.now in
        ProductsFitBefore (F.operations (root_of_tables frame.now)) f i 0 0 }
    ensures fit { let f = values_in F.value F.operations numbers.now frame.now in
        OnOk result (ProductsFitBefore (F.operations (root_of_tables frame.now)) f (suc i) 0 0) }
    ensures fault { let f = values_in F.value F.operations numbers.now frame.now in
        IfErr result (IsFault (F.operations (root_of_tables frame.now)) f) }
{
    'seconds: for j in i..frame.d() + 1 {
        products_of_pair(numbers, frame, dual, table, i, j)?;
    }
    Ok(())
}

/// Those of an i and a j.
fn products_of_pair<F: Field>(
    numbers: &Numbers,
    frame: &Frame<F>,
    dual: &Table<F>,
    table: &Table<F>,
    i: usize,
    j: usize,
) -> Result<(), KreinFault>
    requires ordered { i ≤ j }
    requires inside { j ≤ diameter_of frame.now }
    requires dual { IsCopy F.value F.operations frame.now matrix.Dual
        dual.now (suc (diameter_of frame.now)) 0 }
    requires table { let f = values_in F.value F.operations numbers.now frame.now in
        HasNumbers F.value F.operations (root_of_tables frame.now) f
        i table.now (suc (diameter_of frame.now)) 0 }
    requires numbers { let f = values_in F.value F.operations numbers.now frame.now in
        NumbersFit (F.operations (root_of_tables frame.now)) f }
    requires before { let f = values_in F.value F.operations numbers.now frame.now in
        ProductsFitBefore (F.operations (root_of_tables frame.now)) f i j 0 }
    ensures fit { let f = values_in F.value F.operations numbers.now frame.now in
        OnOk result (ProductsFitBefore (F.operations (root_of_tables frame.now)) f i (suc j) 0) }
    ensures fault { let f = values_in F.value F.operations numbers.now frame.now in
        IfErr result (IsFault (F.operations (root_of_tables frame.now)) f) }
{
    'rows: for r in 0..frame.d() + 1 {
        if product(dual, table, i, j, r).is_err() {
            return Err(wide_product(i, j, r));
        }
    }
    Ok(())
}

/// Makes both sides of the equation of i and j in row r, where the table has q^h_ij in row j.
fn product<F: Field>(
    dual: &Table<F>,
    table: &Table<F>,
    i: usize,
    j: usize,
    r: usize,
) -> Result<(), Wide>
    requires side { table.now.side ≡ dual.now.side }
    requires root { table.now.root ≡ dual.now.root }
    requires i { i < dual.now.side }
    requires j { j < dual.now.side }
    requires r { r < dual.now.side }
    ensures { let o = F.operations dual.now.root in
        let q = cell F.value F.operations dual.now in is_ok result ≡ (o.product_fits (q r i) (q r j)
        && dot_fits o (row_of F.value F.operations table.now j)
        (row_of F.value F.operations dual.now r)) }
{
    let left = dual.get(r, i);
    let _left = left.mul(dual.get(r, j))?;
    let _right = dot(left.root(), table.row(j), dual.row(r))?;
    Ok(())
}

/// Makes the sign of each parameter.
pub(crate) fn signs<F: Field>(
    numbers: &Numbers,
    frame: &Frame<F>,
    tables: &[Table<F>],
) -> Result<(), KreinFault>
    requires full { let f = values_in F.value F.operations numbers.now frame.now in
        AreFull F.value F.operations (root_of_tables frame.now) f
        tables.now (suc (diameter_of frame.now)) }
    requires numbers { let f = values_in F.value F.operations numbers.now frame.now in
        NumbersFit (F.operations (root_of_tables frame.now)) f }
    requires products { let f = values_in F.value F.operations numbers.now frame.now in
        ProductsFit (F.operations (root_of_tables frame.now)) f }
    ensures fit { let f = values_in F.value F.operations numbers.now frame.now in
        OnOk result (SignsFit (F.operations (root_of_tables frame.now)) f) }
    ensures fault { let f = values_in F.value F.operations numbers.now frame.now in
        IfErr result (IsFault (F.operations (root_of_tables frame.now)) f) }
{
    'firsts: for i in 0..frame.d() + 1 {
        signs_of(numbers, frame, &tables[i], i)?;
    }
    Ok(())
}

/// Those of an i, for i ≤ j.
fn signs_of<F: Field>(
    numbers: &Numbers,
    frame: &Frame<F>,
    table: &Table<F>,
    i: usize,
) -> Result<(), KreinFault>
    requires inside { i ≤ diameter_of frame.now }
    requires table { let f = values_in F.value F.operations numbers.now frame.now in
        HasNumbers F.value F.operations (root_of_tables frame.now) f
        i table.now (suc (diameter_of frame.now)) 0 }
    requires numbers { let f = values_in F.value F.operations numbers.now frame.now in
        NumbersFit (F.operations (root_of_tables frame.now)) f }
    requires products { let f = values_in F.value F.operations numbers.now frame.now in
        ProductsFit (F.operations (root_of_tables frame.now)) f }
    requires before { let f = values_in F.value F.operations numbers.now frame.now in
        SignsFitBefore (F.operations (root_of_tables frame.now)) f i 0 0 }
    ensures fit { let f = values_in F.value F.operations numbers.now frame.now in
        OnOk result (SignsFitBefore (F.operations (root_of_tables frame.now)) f (suc i) 0 0) }
    ensures fault { let f = values_in F.value F.operations numbers.now frame.now in
        IfErr result (IsFault (F.operations (root_of_tables frame.now)) f) }
{
    'seconds: for j in i..frame.d() + 1 {
        signs_of_pair(numbers, frame, table, i, j)?;
    }
    Ok(())
}

/// Those of an i and a j.
fn signs_of_pair<F: Field>(
    numbers: &Numbers,
    frame: &Frame<F>,
    table: &Table<F>,
    i: usize,
    j: usize,
) -> Result<(), KreinFault>
    requires ordered { i ≤ j }
    requires inside { j ≤ diameter_of frame.now }
    requires table { let f = values_in F.value F.operations numbers.now frame.now in
        HasNumbers F.value F.operations (root_of_tables frame.now) f
        i table.now (suc (diameter_of frame.now)) 0 }
    requires numbers { let f = values_in F.value F.operations numbers.now frame.now in
        NumbersFit (F.operations (root_of_tables frame.now)) f }
    requires products { let f = values_in F.value F.operations numbers.now frame.now in
        ProductsFit (F.operations (root_of_tables frame.now)) f }
    requires before { let f = values_in F.value F.operations numbers.now frame.now in
        SignsFitBefore (F.operations (root_of_tables frame.now)) f i j 0 }
    ensures fit { let f = values_in F.value F.operations numbers.now frame.now in
        OnOk result (SignsFitBefore (F.operations (root_of_tables frame.now)) f i (suc j) 0) }
    ensures fault { let f = values_in F.value F.operations numbers.now frame.now in
        IfErr result (IsFault (F.operations (root_of_tables frame.now)) f) }
{
    'thirds: for h in 0..frame.d() + 1 {
        if table.get(j, h).sign().is_err() {
            return Err(wide_sign(i, j, h));
        }
    }
    Ok(())
}

/// The fault that names the equation of i and j in row r.
fn wide_product(i: usize, j: usize, r: usize) -> KreinFault
    requires i { i < 256 }
    requires j { j < 256 }
    requires r { r < 256 }
    ensures { result ≡ TooWide (node.Kprod i j r) }
{
    KreinFault::Wide {
        node: Node::Kprod {
            i: i as u8,
            j: j as u8,
            r: r as u8,
        },
    }
}

/// The fault that names the sign of q^h_ij.
fn wide_sign(i: usize, j: usize, h: usize) -> KreinFault
    requires i { i < 256 }
    requires j { j < 256 }
    requires h { h < 256 }
    ensures { result ≡ TooWide (node.Sign i j h) }
{
    KreinFault::Wide {
        node: Node::Sign {
            i: i as u8,
            j: j as u8,
            h: h as u8,
        },
    }
}
