//! The matrix Q.

ghost use Rattle.std.specs.Prelude.{◌≡◌, ◌≤◌, ◌<◌, suc, IfOk, IfErr, OnOk, All, length};
ghost use Rattle.drg_array.specs.Entries.{diameter};
ghost use Rattle.drg_array.specs.declared.node.Node.TheVariants as node;
ghost use Rattle.drg_matrices.specs.Values.{item_at};
ghost use Rattle.drg_matrices.specs.Faults.{IsFault, ReachesDual};
ghost use Rattle.drg_matrices.specs.Filling.{HasCosines, HasDual, HasMultiplicities};
ghost use Rattle.drg_matrices.specs.declared.fault.FrameFault.TheVariants.{Wide as TooWide};

use crate::fault::FrameFault;
use crate::terms::number;
use drg_array::{Array, Node};
use drg_fraction::Field;
use drg_matrix::Table;
use std::alloc::Global;

/// The matrix Q, whose column i has the numbers m·u_r of the i-th eigenvalue.
pub(crate) fn dual<F: Field>(
    alloc: Global,
    array: &Array,
    root: u32,
    thetas: &[F],
    cosines: &Table<F>,
    multiplicities: &[F],
) -> Result<Table<F>, FrameFault>
    requires length { length thetas.now ≡ suc (diameter array.now) }
    requires roots { All (λ x. F.root_of x ≡ root) thetas.now }
    requires cosines { let theta = item_at (F.operations root) F.value thetas.now in
        HasCosines F.value F.operations F.root_of root array.now theta
        cosines.now (suc (diameter array.now)) 0 }
    requires multiplicities { let theta = item_at (F.operations root) F.value thetas.now in
        HasMultiplicities F.value F.operations F.root_of root array.now theta
        multiplicities.now (suc (diameter array.now)) }
    requires reached { let theta = item_at (F.operations root) F.value thetas.now in
        ReachesDual (F.operations root) array.now theta }
    ensures table { let theta = item_at (F.operations root) F.value thetas.now in
        IfOk result (λ t. HasDual F.value F.operations F.root_of root array.now theta
        t (suc (diameter array.now)) 0) }
    ensures fault { let theta = item_at (F.operations root) F.value thetas.now in
        IfErr result (IsFault (F.operations root) array.now theta) }
{
    let side = array.d() + 1;
    let mut table = Table::make(alloc, side, number(thetas[0], 0))?;
    'rows: for r in 0..side {
        fill_row(array, root, thetas, cosines, multiplicities, &mut table, r)?;
    }
    Ok(table)
}

/// Fills a row with the numbers m·u_r of the eigenvalues.
fn fill_row<F: Field>(
    array: &Array,
    root: u32,
    thetas: &[F],
    cosines: &Table<F>,
    multiplicities: &[F],
    table: &mut Table<F>,
    r: usize,
) -> Result<(), FrameFault>
    requires inside { r < suc (diameter array.now) }
    requires length { length thetas.now ≡ suc (diameter array.now) }
    requires roots { All (λ x. F.root_of x ≡ root) thetas.now }
    requires cosines { let theta = item_at (F.operations root) F.value thetas.now in
        HasCosines F.value F.operations F.root_of root array.now theta
        cosines.now (suc (diameter array.now)) 0 }
    requires multiplicities { let theta = item_at (F.operations root) F.value thetas.now in
        HasMultiplicities F.value F.operations F.root_of root array.now theta
        multiplicities.now (suc (diameter array.now)) }
    requires reached { let theta = item_at (F.operations root) F.value thetas.now in
        ReachesDual (F.operations root) array.now theta }
    requires table { let theta = item_at (F.operations root) F.value thetas.now in
        HasDual F.value F.operations F.root_of root array.now theta table.old r 0 }
    ensures table { let theta = item_at (F.operations root) F.value thetas.now in
        OnOk result (HasDual F.value F.operations F.root_of root array.now theta
        table.new (suc r) 0) }
    ensures fault { let theta = item_at (F.operations root) F.value thetas.now in
        IfErr result (IsFault (F.operations root) array.now theta) }
{
    let side = array.d() + 1;
    'entries: for i in 0..side {
        let Ok(entry) = multiplicities[i].mul(cosines.get(i, r)) else {
            return Err(wide(r, i));
        };
        table.set(r, i, entry);
    }
    Ok(())
}

/// The fault that names the entry Q_ri.
fn wide(r: usize, i: usize) -> FrameFault
    requires r { r < 256 }
    requires i { i < 256 }
    ensures { result ≡ TooWide (node.Qrow r i) }
{
    FrameFault::Wide {
        node: Node::Qrow {
            r: r as u8,
            i: i as u8,
        },
    }
}
