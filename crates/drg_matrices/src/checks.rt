//! The equations of a frame, whose work numbers have to fit. That they hold is proved.

ghost use Rattle.std.specs.Prelude.{◌≡◌, ◌≤◌, ◌<◌, suc, is_ok, IfOk, IfErr, OnOk, All, length};
ghost use Rattle.drg_array.specs.Entries.{diameter};
ghost use Rattle.drg_array.specs.declared.node.Node.TheVariants as node;
ghost use Rattle.drg_matrix.specs.Table.{cell};
ghost use Rattle.drg_whole.specs.Range.{Gives};
ghost use Rattle.drg_matrices.specs.Values.{item_at};
ghost use Rattle.drg_matrices.specs.Formulas.{first_terms as the_first_terms};
ghost use Rattle.drg_matrices.specs.Fits.{Fits, first_terms_fit, last_term_fits, recurrence_fits};
ghost use Rattle.drg_matrices.specs.Faults.{AllFit, HoldsBefore, IsFault, ReachesProduct, ReachesRecurrences, cell_fault as the_cell_fault};
ghost use Rattle.drg_matrices.specs.Filling.{HasDual, HasEigen};
ghost use Rattle.drg_matrices.specs.declared.fault.FrameFault.TheVariants.{Wide as TooWide};

use crate::fault::FrameFault;
use crate::terms::{a, b, c};
use drg_array::{Array, Node};
use drg_fraction::{Field, Wide};
use drg_matrix::{Table, TableFault};
use std::alloc::Global;

/// Makes both sides of each recurrence θ_i·P_ij = b_(j-1)·P_i,j-1 + a_j·P_ij + c_(j+1)·P_i,j+1.
pub(crate) fn recurrences<F: Field>(
    array: &Array,
    root: u32,
    thetas: &[F],
    eigen: &Table<F>,
) -> Result<(), FrameFault>
    requires length { length thetas.now ≡ suc (diameter array.now) }
    requires roots { All (λ x. F.root_of x ≡ root) thetas.now }
    requires eigen { let theta = item_at (F.operations root) F.value thetas.now in
        HasEigen F.value F.operations F.root_of root array.now theta
        eigen.now (suc (diameter array.now)) 0 }
    requires reached { let theta = item_at (F.operations root) F.value thetas.now in
        ReachesRecurrences (F.operations root) array.now theta }
    ensures reached { let theta = item_at (F.operations root) F.value thetas.now in
        OnOk result (ReachesProduct (F.operations root) array.now theta) }
    ensures fault { let theta = item_at (F.operations root) F.value thetas.now in
        IfErr result (IsFault (F.operations root) array.now theta) }
{
    'rows: for i in 0..array.d() + 1 {
        row_of_recurrences(array, root, thetas, eigen, i)?;
    }
    Ok(())
}

/// Those of the row i.
fn row_of_recurrences<F: Field>(
    array: &Array,
    root: u32,
    thetas: &[F],
    eigen: &Table<F>,
    i: usize,
) -> Result<(), FrameFault>
    requires inside { i < suc (diameter array.now) }
    requires length { length thetas.now ≡ suc (diameter array.now) }
    requires roots { All (λ x. F.root_of x ≡ root) thetas.now }
    requires eigen { let theta = item_at (F.operations root) F.value thetas.now in
        HasEigen F.value F.operations F.root_of root array.now theta
        eigen.now (suc (diameter array.now)) 0 }
    requires reached { let theta = item_at (F.operations root) F.value thetas.now in
        ReachesRecurrences (F.operations root) array.now theta }
    requires before { let o = F.operations root in let theta = item_at o F.value thetas.now in
        HoldsBefore (suc (diameter array.now)) (λ i j. Fits o array.now theta (node.Rec i j)) i 0 }
    ensures before { let o = F.operations root in let theta = item_at o F.value thetas.now in
        OnOk result
        (HoldsBefore (suc (diameter array.now))
        (λ i j. Fits o array.now theta (node.Rec i j)) (suc i) 0) }
    ensures fault { let theta = item_at (F.operations root) F.value thetas.now in
        IfErr result (IsFault (F.operations root) array.now theta) }
{
    let side = array.d() + 1;
    'places: for j in 0..side {
        if recurrence(array, thetas[i], eigen, i, j).is_err() {
            return Err(wide(i, j));
        }
    }
    Ok(())
}

/// Makes both sides of the recurrence at i and j, where `theta` is the i-th eigenvalue.
fn recurrence<F: Field>(
    array: &Array,
    theta: F,
    eigen: &Table<F>,
    i: usize,
    j: usize,
) -> Result<(), Wide>
    requires side { eigen.now.side ≡ suc (diameter array.now) }
    requires root { F.root_of theta ≡ eigen.now.root }
    requires row { i < eigen.now.side }
    requires col { j < eigen.now.side }
    ensures { is_ok result ≡ recurrence_fits (F.operations eigen.now.root) array.now
        (F.value theta) (cell F.value F.operations eigen.now i) j }
{
    let _left = theta.mul(eigen.get(i, j))?;
    let first = first_terms(array, eigen, i, j)?;
    let _right = with_last_term(array, eigen, i, j, first)?;
    Ok(())
}

/// The sum `b_(j-1)·P_i,j-1 + a_j·P_ij`, whose first term is absent for j = 0.
fn first_terms<F: Field>(array: &Array, eigen: &Table<F>, i: usize, j: usize) -> Result<F, Wide>
    requires side { eigen.now.side ≡ suc (diameter array.now) }
    requires row { i < eigen.now.side }
    requires col { j < eigen.now.side }
    ensures value { let o = F.operations eigen.now.root in
        let p = cell F.value F.operations eigen.now i in Gives F.value result
        (first_terms_fit o array.now p j) (the_first_terms o array.now p j) }
    ensures root { IfOk result (λ r. F.root_of r ≡ eigen.now.root) }
{
    if j == 0 {
        let first = eigen.get(i, 0);
        return a(array, first, 0).mul(first);
    }
    two_terms(array, eigen, i, j - 1)
}

/// The sum `b_j·P_ij + a_(j+1)·P_i,j+1`.
fn two_terms<F: Field>(array: &Array, eigen: &Table<F>, i: usize, j: usize) -> Result<F, Wide>
    requires side { eigen.now.side ≡ suc (diameter array.now) }
    requires row { i < eigen.now.side }
    requires col { suc j < eigen.now.side }
    ensures value { let o = F.operations eigen.now.root in
        let p = cell F.value F.operations eigen.now i in Gives F.value result
        (first_terms_fit o array.now p (suc j)) (the_first_terms o array.now p (suc j)) }
    ensures root { IfOk result (λ r. F.root_of r ≡ eigen.now.root) }
{
    let _ = array.d();
    let before = eigen.get(i, j);
    let own = eigen.get(i, j + 1);
    let left = b(array, before, j).mul(before)?;
    let right = a(array, own, j + 1).mul(own)?;
    left.add(right)
}

/// The sum with `c_(j+1)·P_i,j+1`, which is absent for j = d.
fn with_last_term<F: Field>(
    array: &Array,
    eigen: &Table<F>,
    i: usize,
    j: usize,
    first: F,
) -> Result<F, Wide>
    requires side { eigen.now.side ≡ suc (diameter array.now) }
    requires row { i < eigen.now.side }
    requires col { j < eigen.now.side }
    requires root { F.root_of first ≡ eigen.now.root }
    requires first { F.value first ≡ the_first_terms (F.operations eigen.now.root) array.now
        (cell F.value F.operations eigen.now i) j }
    ensures { is_ok result ≡ last_term_fits (F.operations eigen.now.root) array.now
        (cell F.value F.operations eigen.now i) j }
{
    if j == array.d() {
        return Ok(first);
    }
    let after = eigen.get(i, j + 1);
    let last = c(array, after, j + 1).mul(after)?;
    first.add(last)
}

/// The fault that names the recurrence at i and j.
fn wide(i: usize, j: usize) -> FrameFault
    requires i { i < 256 }
    requires j { j < 256 }
    ensures { result ≡ TooWide (node.Rec i j) }
{
    FrameFault::Wide {
        node: Node::Rec {
            i: i as u8,
            j: j as u8,
        },
    }
}

/// Makes each cell of P·Q.
pub(crate) fn product<F: Field>(
    alloc: Global,
    array: &Array,
    root: u32,
    thetas: &[F],
    eigen: &Table<F>,
    dual: &Table<F>,
) -> Result<(), FrameFault>
    requires length { length thetas.now ≡ suc (diameter array.now) }
    requires eigen { let theta = item_at (F.operations root) F.value thetas.now in
        HasEigen F.value F.operations F.root_of root array.now theta
        eigen.now (suc (diameter array.now)) 0 }
    requires dual { let theta = item_at (F.operations root) F.value thetas.now in
        HasDual F.value F.operations F.root_of root array.now theta
        dual.now (suc (diameter array.now)) 0 }
    requires reached { let theta = item_at (F.operations root) F.value thetas.now in
        ReachesProduct (F.operations root) array.now theta }
    ensures fit { let theta = item_at (F.operations root) F.value thetas.now in
        OnOk result (AllFit (F.operations root) array.now theta) }
    ensures fault { let theta = item_at (F.operations root) F.value thetas.now in
        IfErr result (IsFault (F.operations root) array.now theta) }
{
    if let Err(fault) = eigen.product(alloc, dual) {
        return Err(cell_fault(fault));
    }
    Ok(())
}

/// The fault that names the cell of P·Q which a fault of the product names.
fn cell_fault(fault: TableFault) -> FrameFault
    ensures { result ≡ the_cell_fault fault }
{
    match fault {
        TableFault::Wide { row, col } => {
            FrameFault::Wide {
                node: Node::Pq { i: row, j: col },
            }
        }
        TableFault::Memory => FrameFault::Memory,
    }
}
