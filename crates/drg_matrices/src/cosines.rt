//! The cosines of the eigenvalues.

ghost use Rattle.std.specs.Prelude.{◌≡◌, ◌≤◌, ◌<◌, suc, IfOk, IfErr, OnOk, All, length};
ghost use Rattle.drg_array.specs.Entries.{diameter};
ghost use Rattle.drg_array.specs.declared.node.Node.TheVariants as node;
ghost use Rattle.drg_whole.specs.Range.{Gives};
ghost use Rattle.drg_matrices.specs.Values.{quotient, b_value, item_at};
ghost use Rattle.drg_matrices.specs.Formulas.{next_cosine as the_next_cosine};
ghost use Rattle.drg_matrices.specs.Fits.{next_fits};
ghost use Rattle.drg_matrices.specs.Faults.{IsFault};
ghost use Rattle.drg_matrices.specs.Filling.{HasCosines};
ghost use Rattle.drg_matrices.specs.declared.fault.FrameFault.TheVariants.{Wide as TooWide};

use crate::fault::FrameFault;
use crate::terms::{a, b, c, number};
use drg_array::{Array, Node};
use drg_fraction::{Field, Wide};
use drg_matrix::Table;
use std::alloc::Global;

/// The cosines u_0 to u_d of each eigenvalue, a row for each.
pub(crate) fn cosines<F: Field>(
    alloc: Global,
    array: &Array,
    root: u32,
    thetas: &[F],
) -> Result<Table<F>, FrameFault>
    requires length { length thetas.now ≡ suc (diameter array.now) }
    requires roots { All (λ x. F.root_of x ≡ root) thetas.now }
    ensures table { let theta = item_at (F.operations root) F.value thetas.now in
        IfOk result (λ t. HasCosines F.value F.operations F.root_of root array.now theta
        t (suc (diameter array.now)) 0) }
    ensures fault { let theta = item_at (F.operations root) F.value thetas.now in
        IfErr result (IsFault (F.operations root) array.now theta) }
{
    let side = array.d() + 1;
    let mut table = Table::make(alloc, side, number(thetas[0], 1))?;
    'rows: for i in 0..side {
        fill_row(array, root, thetas, &mut table, i)?;
    }
    Ok(table)
}

/// Fills the row of an eigenvalue with its cosines.
fn fill_row<F: Field>(
    array: &Array,
    root: u32,
    thetas: &[F],
    table: &mut Table<F>,
    i: usize,
) -> Result<(), FrameFault>
    requires inside { i < suc (diameter array.now) }
    requires length { length thetas.now ≡ suc (diameter array.now) }
    requires roots { All (λ x. F.root_of x ≡ root) thetas.now }
    requires table { let theta = item_at (F.operations root) F.value thetas.now in
        HasCosines F.value F.operations F.root_of root array.now theta table.old i 0 }
    ensures table { let theta = item_at (F.operations root) F.value thetas.now in
        OnOk result (HasCosines F.value F.operations F.root_of root array.now theta
        table.new (suc i) 0) }
    ensures fault { let theta = item_at (F.operations root) F.value thetas.now in
        IfErr result (IsFault (F.operations root) array.now theta) }
{
    let d = array.d();
    let theta = thetas[i];
    let mut before = number(theta, 1);
    table.set(i, 0, before);
    let Ok(mut last) = first_cosine(array, theta) else {
        return Err(wide(i, 1));
    };
    table.set(i, 1, last);
    'cosines: for r in 0..d - 1 {
        let Ok(next) = next_cosine(array, r, theta, before, last) else {
            return Err(wide(i, r + 2));
        };
        table.set(i, r + 2, next);
        before = last;
        last = next;
    }
    Ok(())
}

/// The cosine u_1 of an eigenvalue.
fn first_cosine<F: Field>(array: &Array, theta: F) -> Result<F, Wide>
    ensures value { let o = F.operations (F.root_of theta) in Gives F.value result
        (o.quotient_fits (F.value theta) (b_value o array.now 0))
        (quotient o (F.value theta) (b_value o array.now 0)) }
    ensures root { IfOk result (λ r. F.root_of r ≡ F.root_of theta) }
{
    array.known_valid();
    theta.div(b(array, theta, 0))
}

/// The cosine u_(r+2) of an eigenvalue, after u_r and u_(r+1).
fn next_cosine<F: Field>(array: &Array, r: usize, theta: F, before: F, last: F) -> Result<F, Wide>
    requires inside { suc r < diameter array.now }
    requires before { F.root_of before ≡ F.root_of theta }
    requires last { F.root_of last ≡ F.root_of theta }
    ensures value { let o = F.operations (F.root_of theta) in Gives F.value result
        (next_fits o array.now r (F.value theta) (F.value before) (F.value last))
        (the_next_cosine o array.now r (F.value theta) (F.value before) (F.value last)) }
    ensures root { IfOk result (λ r. F.root_of r ≡ F.root_of theta) }
{
    let _ = array.d();
    let rest = theta.sub(a(array, theta, r + 1))?;
    let product = rest.mul(last)?;
    let less = c(array, theta, r + 1).mul(before)?;
    product.sub(less)?.div(b(array, theta, r + 1))
}

/// The fault that names the cosine u_r of the i-th eigenvalue.
fn wide(i: usize, r: usize) -> FrameFault
    requires i { i < 256 }
    requires r { r < 256 }
    ensures { result ≡ TooWide (node.U i r) }
{
    FrameFault::Wide {
        node: Node::U {
            i: i as u8,
            r: r as u8,
        },
    }
}
