//! The matrix P and the multiplicities.

ghost use Rattle.std.specs.Prelude.{◌≡◌, ◌≤◌, ◌<◌, suc, [], IfOk, IfErr, OnOk, OnErr, All, length};
ghost use Rattle.drg_array.specs.Entries.{diameter};
ghost use Rattle.drg_array.specs.declared.node.Node.TheVariants as node;
ghost use Rattle.drg_intersection.specs.Numbers.{AreNumbersOf};
ghost use Rattle.drg_matrices.specs.Values.{item_at};
ghost use Rattle.drg_matrices.specs.Formulas.{multiplicity_of};
ghost use Rattle.drg_matrices.specs.Fits.{MultiplicityFits};
ghost use Rattle.drg_matrices.specs.Faults.{IsFault};
ghost use Rattle.drg_matrices.specs.Filling.{HasCosines, HasEigen, HasMultiplicities};
ghost use Rattle.drg_matrices.specs.declared.fault.FrameFault.TheVariants.{Wide as TooWide};

use crate::fault::FrameFault;
use crate::terms::{count, number, size};
use drg_array::{Array, Node};
use drg_fraction::{Field, Wide, dot};
use drg_intersection::Numbers;
use drg_matrix::Table;
use std::alloc::Global;

/// The matrix P, whose row i has the numbers k_r·u_r of the i-th eigenvalue. Appends the
/// multiplicities of the eigenvalues to no number.
pub(crate) fn eigen<F: Field>(
    alloc: Global,
    array: &Array,
    numbers: &Numbers,
    root: u32,
    thetas: &[F],
    cosines: &Table<F>,
    multiplicities: &mut Vec<F>,
) -> Result<Table<F>, FrameFault>
    requires numbers { AreNumbersOf array.now numbers.now }
    requires length { length thetas.now ≡ suc (diameter array.now) }
    requires roots { All (λ x. F.root_of x ≡ root) thetas.now }
    requires cosines { let theta = item_at (F.operations root) F.value thetas.now in
        HasCosines F.value F.operations F.root_of root array.now theta
        cosines.now (suc (diameter array.now)) 0 }
    requires empty { multiplicities.old.items ≡ [] }
    ensures table { let theta = item_at (F.operations root) F.value thetas.now in
        IfOk result (λ t. HasEigen F.value F.operations F.root_of root array.now theta
        t (suc (diameter array.now)) 0) }
    ensures multiplicities { let theta = item_at (F.operations root) F.value thetas.now in
        OnOk result (HasMultiplicities F.value F.operations F.root_of root array.now theta
        multiplicities.new.items (suc (diameter array.now))) }
    ensures fault { let theta = item_at (F.operations root) F.value thetas.now in
        IfErr result (IsFault (F.operations root) array.now theta) }
{
    let side = array.d() + 1;
    let mut table = Table::make(alloc, side, number(thetas[0], 0))?;
    'rows: for i in 0..side {
        let Ok(m) = fill_row(array, numbers, root, thetas, cosines, &mut table, i) else {
            return Err(wide(i));
        };
        multiplicities.push(m)?;
    }
    Ok(table)
}

/// Fills the row of an eigenvalue with the numbers k_r·u_r, and gives its multiplicity.
fn fill_row<F: Field>(
    array: &Array,
    numbers: &Numbers,
    root: u32,
    thetas: &[F],
    cosines: &Table<F>,
    table: &mut Table<F>,
    i: usize,
) -> Result<F, Wide>
    requires inside { i < suc (diameter array.now) }
    requires numbers { AreNumbersOf array.now numbers.now }
    requires length { length thetas.now ≡ suc (diameter array.now) }
    requires roots { All (λ x. F.root_of x ≡ root) thetas.now }
    requires cosines { let theta = item_at (F.operations root) F.value thetas.now in
        HasCosines F.value F.operations F.root_of root array.now theta
        cosines.now (suc (diameter array.now)) 0 }
    requires table { let theta = item_at (F.operations root) F.value thetas.now in
        HasEigen F.value F.operations F.root_of root array.now theta table.old i 0 }
    ensures table { let theta = item_at (F.operations root) F.value thetas.now in
        OnOk result (HasEigen F.value F.operations F.root_of root array.now theta
        table.new (suc i) 0) }
    ensures value { let o = F.operations root in
        IfOk result (λ m. F.value m
        ≡ multiplicity_of o array.now (item_at o F.value thetas.now i)) }
    ensures root { IfOk result (λ m. F.root_of m ≡ root) }
    ensures fit { let o = F.operations root in
        OnOk result (MultiplicityFits o array.now (item_at o F.value thetas.now i)) }
    ensures wide { let o = F.operations root in
        OnErr result (¬ MultiplicityFits o array.now (item_at o F.value thetas.now i)) }
{
    fill_entries(array, numbers, root, thetas, cosines, table, i)?;
    multiplicity(array, numbers, root, thetas, cosines, table, i)
}

/// Fills the row of an eigenvalue with the numbers k_r·u_r.
fn fill_entries<F: Field>(
    array: &Array,
    numbers: &Numbers,
    root: u32,
    thetas: &[F],
    cosines: &Table<F>,
    table: &mut Table<F>,
    i: usize,
) -> Result<(), Wide>
    requires inside { i < suc (diameter array.now) }
    requires numbers { AreNumbersOf array.now numbers.now }
    requires length { length thetas.now ≡ suc (diameter array.now) }
    requires roots { All (λ x. F.root_of x ≡ root) thetas.now }
    requires cosines { let theta = item_at (F.operations root) F.value thetas.now in
        HasCosines F.value F.operations F.root_of root array.now theta
        cosines.now (suc (diameter array.now)) 0 }
    requires table { let theta = item_at (F.operations root) F.value thetas.now in
        HasEigen F.value F.operations F.root_of root array.now theta table.old i 0 }
    ensures table { let theta = item_at (F.operations root) F.value thetas.now in
        OnOk result (HasEigen F.value F.operations F.root_of root array.now theta
        table.new (suc i) 0) }
    ensures wide { let o = F.operations root in
        OnErr result (¬ MultiplicityFits o array.now (item_at o F.value thetas.now i)) }
{
    let side = array.d() + 1;
    'entries: for r in 0..side {
        let cosine = cosines.get(i, r);
        let entry = size(array, numbers, cosine, r).mul(cosine)?;
        table.set(i, r, entry);
    }
    Ok(())
}

/// The multiplicity of an eigenvalue, the number of vertices over the sum of k_r·u_r².
fn multiplicity<F: Field>(
    array: &Array,
    numbers: &Numbers,
    root: u32,
    thetas: &[F],
    cosines: &Table<F>,
    table: &Table<F>,
    i: usize,
) -> Result<F, Wide>
    requires inside { i < suc (diameter array.now) }
    requires numbers { AreNumbersOf array.now numbers.now }
    requires length { length thetas.now ≡ suc (diameter array.now) }
    requires roots { All (λ x. F.root_of x ≡ root) thetas.now }
    requires cosines { let theta = item_at (F.operations root) F.value thetas.now in
        HasCosines F.value F.operations F.root_of root array.now theta
        cosines.now (suc (diameter array.now)) 0 }
    requires table { let theta = item_at (F.operations root) F.value thetas.now in
        HasEigen F.value F.operations F.root_of root array.now theta table.now (suc i) 0 }
    ensures value { let o = F.operations root in
        IfOk result (λ m. F.value m
        ≡ multiplicity_of o array.now (item_at o F.value thetas.now i)) }
    ensures root { IfOk result (λ m. F.root_of m ≡ root) }
    ensures fit { let o = F.operations root in
        OnOk result (MultiplicityFits o array.now (item_at o F.value thetas.now i)) }
    ensures wide { let o = F.operations root in
        OnErr result (¬ MultiplicityFits o array.now (item_at o F.value thetas.now i)) }
{
    array.known_valid();
    let count = count(array, numbers, thetas[i]);
    let squares = dot(root, table.row(i), cosines.row(i))?;
    count.div(squares)
}

/// The fault that names the multiplicity of the i-th eigenvalue.
fn wide(i: usize) -> FrameFault
    requires { i < 256 }
    ensures { result ≡ TooWide (node.M i) }
{
    FrameFault::Wide {
        node: Node::M { i: i as u8 },
    }
}
