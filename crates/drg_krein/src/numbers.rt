//! The Krein parameters, table by table.

ghost use Rattle.std.specs.Prelude.{◌≡◌, ◌≤◌, ◌<◌, ◌&&◌, suc, true, map, length, All, IfOk, IfErr, OnOk, OnErr};
ghost use Rattle.drg_array.specs.declared.node.Node.TheVariants as node;
ghost use Rattle.drg_matrices.specs.Tables.{diameter_of, root_of_tables};
ghost use Rattle.drg_matrix.specs.Frame.{multiplicity};
ghost use Rattle.drg_whole.specs.Range.{Gives};
ghost use Rattle.drg_fraction.specs.Field.{dot_fits, dot_of};
ghost use Rattle.drg_krein.specs.Copies.{IsCopy};
ghost use Rattle.drg_krein.specs.Values.{IsFrameOfNumbers, values_in};
ghost use Rattle.drg_krein.specs.Formulas.{row_of, scale as the_scale, term};
ghost use Rattle.drg_krein.specs.Fits.{SharesFit};
ghost use Rattle.drg_krein.specs.Faults.{IsFault, NumbersFit};
ghost use Rattle.drg_krein.specs.Filling.{AreFull, HasNumbers, NumbersFitBefore};
ghost use Rattle.drg_krein.specs.declared.copies.Matrix.TheVariants as matrix;
ghost use Rattle.drg_krein.specs.declared.fault.KreinFault.TheVariants.{Wide as TooWide};

use crate::fault::KreinFault;
use drg_array::Node;
use drg_fraction::{Field, Wide, dot};
use drg_intersection::Numbers;
use drg_matrices::Frame;
use drg_matrix::Table;
use std::alloc::Global;

/// The tables of all parameters.
pub(crate) fn tables_of<F: Field>(
    alloc: Global,
    numbers: &Numbers,
    frame: &Frame<F>,
    cosines: &Table<F>,
) -> Result<Vec<Table<F>>, KreinFault>
    requires frame { IsFrameOfNumbers F.value F.operations numbers.now frame.now }
    requires cosines { IsCopy F.value F.operations frame.now matrix.Cosines
        cosines.now (suc (diameter_of frame.now)) 0 }
    ensures full { let f = values_in F.value F.operations numbers.now frame.now in
        IfOk result (λ tables. AreFull F.value F.operations (root_of_tables frame.now) f
        tables.items (suc (diameter_of frame.now))) }
    ensures fit { let f = values_in F.value F.operations numbers.now frame.now in
        OnOk result (NumbersFit (F.operations (root_of_tables frame.now)) f) }
    ensures fault { let f = values_in F.value F.operations numbers.now frame.now in
        IfErr result (IsFault (F.operations (root_of_tables frame.now)) f) }
{
    let mut tables = Vec::new(alloc);
    'tables: for i in 0..frame.d() + 1 {
        let table = table_of(alloc, numbers, frame, cosines, i)?;
        tables.push(table)?;
    }
    Ok(tables)
}

/// The table of the parameters q^h_ij of an i, for i ≤ j.
fn table_of<F: Field>(
    alloc: Global,
    numbers: &Numbers,
    frame: &Frame<F>,
    cosines: &Table<F>,
    i: usize,
) -> Result<Table<F>, KreinFault>
    requires inside { i ≤ diameter_of frame.now }
    requires frame { IsFrameOfNumbers F.value F.operations numbers.now frame.now }
    requires cosines { IsCopy F.value F.operations frame.now matrix.Cosines
        cosines.now (suc (diameter_of frame.now)) 0 }
    requires before { let f = values_in F.value F.operations numbers.now frame.now in
        NumbersFitBefore (F.operations (root_of_tables frame.now)) f i 0 0 }
    ensures table { let f = values_in F.value F.operations numbers.now frame.now in
        IfOk result (λ t. HasNumbers F.value F.operations (root_of_tables frame.now) f
        i t (suc (diameter_of frame.now)) 0) }
    ensures fit { let f = values_in F.value F.operations numbers.now frame.now in
        OnOk result (NumbersFitBefore (F.operations (root_of_tables frame.now)) f (suc i) 0 0) }
    ensures fault { let f = values_in F.value F.operations numbers.now frame.now in
        IfErr result (IsFault (F.operations (root_of_tables frame.now)) f) }
{
    let side = frame.d() + 1;
    let mut table = Table::make(alloc, side, frame.m(0))?;
    'rows: for j in i..side {
        fill_row(alloc, numbers, frame, cosines, &mut table, i, j)?;
    }
    Ok(table)
}

/// Fills the row of j in the table of i.
fn fill_row<F: Field>(
    alloc: Global,
    numbers: &Numbers,
    frame: &Frame<F>,
    cosines: &Table<F>,
    table: &mut Table<F>,
    i: usize,
    j: usize,
) -> Result<(), KreinFault>
    requires ordered { i ≤ j }
    requires inside { j ≤ diameter_of frame.now }
    requires frame { IsFrameOfNumbers F.value F.operations numbers.now frame.now }
    requires cosines { IsCopy F.value F.operations frame.now matrix.Cosines
        cosines.now (suc (diameter_of frame.now)) 0 }
    requires table { let f = values_in F.value F.operations numbers.now frame.now in
        HasNumbers F.value F.operations (root_of_tables frame.now) f i table.old j 0 }
    requires before { let f = values_in F.value F.operations numbers.now frame.now in
        NumbersFitBefore (F.operations (root_of_tables frame.now)) f i j 0 }
    ensures table { let f = values_in F.value F.operations numbers.now frame.now in
        OnOk result (HasNumbers F.value F.operations (root_of_tables frame.now) f
        i table.new (suc j) 0) }
    ensures fit { let f = values_in F.value F.operations numbers.now frame.now in
        OnOk result (NumbersFitBefore (F.operations (root_of_tables frame.now)) f i (suc j) 0) }
    ensures fault { let f = values_in F.value F.operations numbers.now frame.now in
        IfErr result (IsFault (F.operations (root_of_tables frame.now)) f) }
{
    let Ok(scale) = scale(numbers, frame, i, j) else {
        return Err(wide(i, j, 0));
    };
    let mut terms = Vec::new(alloc);
    'terms: for r in 0..frame.d() + 1 {
        let Ok(term) = frame.eigen(i, r).mul(frame.cosine(j, r)) else {
            return Err(wide(i, j, 0));
        };
        terms.push(term)?;
    }
    fill_numbers(numbers, frame, cosines, scale, &terms, table, i, j)
}

/// The factor m_i·m_j / n of all parameters of i and j.
fn scale<F: Field>(numbers: &Numbers, frame: &Frame<F>, i: usize, j: usize) -> Result<F, Wide>
    requires i { i ≤ diameter_of frame.now }
    requires j { j ≤ diameter_of frame.now }
    requires frame { IsFrameOfNumbers F.value F.operations numbers.now frame.now }
    ensures value { let f = values_in F.value F.operations numbers.now frame.now in
        let o = F.operations (root_of_tables frame.now) in
        IfOk result (λ s. F.value s ≡ the_scale o f i j) }
    ensures root { IfOk result (λ s. F.root_of s ≡ root_of_tables frame.now) }
    ensures fit { let f = values_in F.value F.operations numbers.now frame.now in
        let o = F.operations (root_of_tables frame.now) in
        OnOk result (o.product_fits (multiplicity f.q i) (multiplicity f.q j) ≡ true) }
    ensures quotient { let f = values_in F.value F.operations numbers.now frame.now in
        let o = F.operations (root_of_tables frame.now) in OnOk result
        (o.quotient_fits (o.times (multiplicity f.q i) (multiplicity f.q j)) f.n ≡ true) }
    ensures wide { let f = values_in F.value F.operations numbers.now frame.now in
        OnErr result (¬ SharesFit (F.operations (root_of_tables frame.now)) f i j) }
{
    let product = frame.m(i).mul(frame.m(j))?;
    product.div(count(numbers, frame))
}

/// The number of vertices.
fn count<F: Field>(numbers: &Numbers, frame: &Frame<F>) -> F
    ensures value { F.value result ≡ (values_in F.value F.operations numbers.now frame.now).n }
    ensures root { F.root_of result ≡ root_of_tables frame.now }
{
    let like = frame.m(0);
    F::of_int(like.root(), numbers.n())
}

/// Fills the row of j in the table of i, from the factor and the terms that all its parameters share.
fn fill_numbers<F: Field>(
    numbers: &Numbers,
    frame: &Frame<F>,
    cosines: &Table<F>,
    scale: F,
    terms: &[F],
    table: &mut Table<F>,
    i: usize,
    j: usize,
) -> Result<(), KreinFault>
    requires ordered { i ≤ j }
    requires inside { j ≤ diameter_of frame.now }
    requires cosines { IsCopy F.value F.operations frame.now matrix.Cosines
        cosines.now (suc (diameter_of frame.now)) 0 }
    requires scale { let f = values_in F.value F.operations numbers.now frame.now in
        F.value scale ≡ the_scale (F.operations (root_of_tables frame.now)) f i j }
    requires scale_root { F.root_of scale ≡ root_of_tables frame.now }
    requires terms { let f = values_in F.value F.operations numbers.now frame.now in
        let o = F.operations (root_of_tables frame.now) in
        map F.value terms.now ≡ row_of o f (term o f i j) }
    requires term_roots { All (λ x. F.root_of x ≡ root_of_tables frame.now) terms.now }
    requires shares { let f = values_in F.value F.operations numbers.now frame.now in
        SharesFit (F.operations (root_of_tables frame.now)) f i j }
    requires table { let f = values_in F.value F.operations numbers.now frame.now in
        HasNumbers F.value F.operations (root_of_tables frame.now) f i table.old j 0 }
    requires before { let f = values_in F.value F.operations numbers.now frame.now in
        NumbersFitBefore (F.operations (root_of_tables frame.now)) f i j 0 }
    ensures table { let f = values_in F.value F.operations numbers.now frame.now in
        OnOk result (HasNumbers F.value F.operations (root_of_tables frame.now) f
        i table.new (suc j) 0) }
    ensures fit { let f = values_in F.value F.operations numbers.now frame.now in
        OnOk result (NumbersFitBefore (F.operations (root_of_tables frame.now)) f i (suc j) 0) }
    ensures fault { let f = values_in F.value F.operations numbers.now frame.now in
        IfErr result (IsFault (F.operations (root_of_tables frame.now)) f) }
{
    let root = frame.root();
    'numbers: for h in 0..frame.d() + 1 {
        let Ok(number) = number(root, scale, terms, cosines.row(h)) else {
            return Err(wide(i, j, h));
        };
        table.set(j, h, number);
    }
    Ok(())
}

/// The factor times the sum of the products of the terms and the cosines.
fn number<F: Field>(root: u32, scale: F, terms: &[F], cosines: &[F]) -> Result<F, Wide>
    requires scale { F.root_of scale ≡ root }
    requires lengths { length terms.now ≡ length cosines.now }
    requires terms { All (λ x. F.root_of x ≡ root) terms.now }
    requires cosines { All (λ x. F.root_of x ≡ root) cosines.now }
    ensures value { let o = F.operations root in
        let xs = map F.value terms.now in let ys = map F.value cosines.now in
        Gives F.value result (dot_fits o xs ys && o.product_fits (F.value scale) (dot_of o xs ys))
        (o.times (F.value scale) (dot_of o xs ys)) }
    ensures root { IfOk result (λ r. F.root_of r ≡ root) }
{
    let sum = dot(root, terms, cosines)?;
    scale.mul(sum)
}

/// The fault that names the parameter q^h_ij.
fn wide(i: usize, j: usize, h: usize) -> KreinFault
    requires i { i < 256 }
    requires j { j < 256 }
    requires h { h < 256 }
    ensures { result ≡ TooWide (node.Krein i j h) }
{
    KreinFault::Wide {
        node: Node::Krein {
            i: i as u8,
            j: j as u8,
            h: h as u8,
        },
    }
}
