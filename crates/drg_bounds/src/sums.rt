//! The sums of multiplicities that the absolute bound compares.

ghost use Rattle.std.specs.Prelude.{◌≡◌, ◌≤◌, ◌↔◌, suc, IsTrue, IfOk, OnErr};
ghost use Rattle.std.specs.declared.cmp.Ordering.TheVariants as ordering;
ghost use Rattle.drg_matrix.specs.Frame.{multiplicity};
ghost use Rattle.drg_matrices.specs.Tables.{diameter_of, root_of_tables, dual_in};
ghost use Rattle.drg_whole.specs.Range.{Gives};
ghost use Rattle.drg_krein.specs.Vanishing.{Vanishes};
ghost use Rattle.drg_bounds.specs.AbsoluteBound.{allowed as the_allowed, half_product as the_half_product, values_in};
ghost use Rattle.drg_bounds.specs.AbsoluteFits.{allowed_fits, half_product_fits};
ghost use Rattle.drg_bounds.specs.Totals.{IsTotal, IsTotalBelow, SumFits};

use drg_fraction::{Field, Wide};
use drg_krein::Krein;
use drg_matrices::Frame;
use std::cmp::Ordering;

/// The sum of the m_h with q^h_ij not 0, over all h from 0, from left to right.
pub(crate) fn total<F: Field>(
    frame: &Frame<F>,
    krein: &Krein<F>,
    i: usize,
    j: usize,
) -> Result<F, Wide>
    requires diameter { krein.now.d ≡ diameter_of frame.now }
    requires root { krein.now.root ≡ root_of_tables frame.now }
    requires i { i ≤ diameter_of frame.now }
    requires j { j ≤ diameter_of frame.now }
    ensures total { let root = root_of_tables frame.now in
        let b = values_in F.value F.operations frame.now krein.now in
        IfOk result (IsTotal F.value F.operations root b i j) }
    ensures root { IfOk result (λ r. F.root_of r ≡ root_of_tables frame.now) }
    ensures wide { let o = F.operations (root_of_tables frame.now) in OnErr result
        (¬ SumFits o (values_in F.value F.operations frame.now krein.now) i j) }
{
    let mut total = None;
    'numbers: for h in 0..frame.d() + 1 {
        total = with_number(frame, krein, i, j, h, total)?;
    }
    match total {
        Some(sum) => Ok(sum),
        None => Ok(zero(frame)),
    }
}

/// The sum of no multiplicities.
fn zero<F: Field>(frame: &Frame<F>) -> F
    ensures value { F.value result ≡ (F.operations (root_of_tables frame.now)).nil }
    ensures root { F.root_of result ≡ root_of_tables frame.now }
{
    let like = frame.m(0);
    F::of_int(like.root(), 0)
}

/// The sum so far, with m_h where q^h_ij isn't 0. No value stands for the sum of none.
fn with_number<F: Field>(
    frame: &Frame<F>,
    krein: &Krein<F>,
    i: usize,
    j: usize,
    h: usize,
    total: Option<F>,
) -> Result<Option<F>, Wide>
    requires diameter { krein.now.d ≡ diameter_of frame.now }
    requires root { krein.now.root ≡ root_of_tables frame.now }
    requires i { i ≤ diameter_of frame.now }
    requires j { j ≤ diameter_of frame.now }
    requires h { h ≤ diameter_of frame.now }
    requires before { let root = root_of_tables frame.now in
        let b = values_in F.value F.operations frame.now krein.now in
        IsTotalBelow F.value F.root_of F.operations root b i j h total }
    ensures total { let root = root_of_tables frame.now in
        let b = values_in F.value F.operations frame.now krein.now in
        IfOk result (IsTotalBelow F.value F.root_of F.operations root b i j (suc h)) }
    ensures wide { let o = F.operations (root_of_tables frame.now) in OnErr result
        (¬ SumFits o (values_in F.value F.operations frame.now krein.now) i j) }
{
    if vanishes(krein, i, j, h) {
        return Ok(total);
    }
    match total {
        Some(sum) => Ok(Some(sum.add(frame.m(h))?)),
        None => Ok(Some(frame.m(h))),
    }
}

/// Whether q^h_ij is 0.
fn vanishes<F: Field>(krein: &Krein<F>, i: usize, j: usize, h: usize) -> bool
    requires i { i ≤ krein.now.d }
    requires j { j ≤ krein.now.d }
    requires h { h ≤ krein.now.d }
    ensures { IsTrue result ↔ Vanishes F.value F.operations krein.now i j h }
{
    krein.q(i, j, h).is_zero()
}

/// The greatest sum that is allowed: m_i·m_j, or m_i·(m_i + 1)/2 where j is i.
pub(crate) fn allowed<F: Field>(frame: &Frame<F>, i: usize, j: usize) -> Result<F, Wide>
    requires i { i ≤ diameter_of frame.now }
    requires j { j ≤ diameter_of frame.now }
    ensures value { let o = F.operations (root_of_tables frame.now) in
        let m = multiplicity (dual_in F.value F.operations frame.now) in
        Gives F.value result (allowed_fits o m i j) (the_allowed o m i j) }
    ensures root { IfOk result (λ r. F.root_of r ≡ root_of_tables frame.now) }
{
    if i == j {
        half_product(frame.m(i))
    } else {
        frame.m(i).mul(frame.m(j))
    }
}

/// The value x·(x + 1)/2.
fn half_product<F: Field>(x: F) -> Result<F, Wide>
    ensures value { let o = F.operations (F.root_of x) in Gives F.value result
        (half_product_fits o (F.value x)) (the_half_product o (F.value x)) }
    ensures root { IfOk result (λ r. F.root_of r ≡ F.root_of x) }
{
    let next = x.add(F::of_int(x.root(), 1))?;
    let product = x.mul(next)?;
    product.div(F::of_int(x.root(), 2))
}

/// Whether a value with this sign is above 0.
pub(crate) fn is_greater(sign: Ordering) -> bool
    ensures { IsTrue result ↔ (sign ≡ ordering.Greater) }
{
    match sign {
        Ordering::Greater => true,
        _ => false,
    }
}
