//! The test on the absolute bound.

ghost use Rattle.std.specs.Prelude.{◌≡◌, ◌≤◌, ◌↔◌, suc, IsTrue, IfOk, IfErr, IfSome, IfNone, OnOk, OnErr};
ghost use Rattle.drg_array.specs.ClaimOrder.{ComesBefore};
ghost use Rattle.drg_array.specs.declared.claim.Claim.{Claim};
ghost use Rattle.drg_array.specs.declared.claim.Claim.TheVariants as claims;
ghost use Rattle.drg_array.specs.declared.node.Node.TheVariants as nodes;
ghost use Rattle.drg_matrices.specs.Tables.{diameter_of, root_of_tables};
ghost use Rattle.drg_bounds.specs.AbsoluteBound.{FailsAbsolute, IsExceeded, values_in};
ghost use Rattle.drg_bounds.specs.AbsoluteFits.{AbsoluteFits, FitUpTo, IsFirstClaim, IsWideNode, PassBefore};

use crate::sums::{allowed, is_greater, total};
use drg_array::{Claim, MAX_DIAMETER, Node};
use drg_fraction::{Field, Wide};
use drg_krein::Krein;
use drg_matrices::Frame;

/// The first failing claim of the test absolute: the first i ≤ j, from 1 on, where the sum of the
/// multiplicities m_h over all h from 0 with q^h_ij not 0 is above m_i·m_j, or above m_i·(m_i + 1)/2
/// where j is i (Brouwer, Cohen and Neumaier 1989, section 2.3). The Krein parameters have the
/// diameter and the root of the frame. The error names the first such pair with a work number above
/// 2^127 - 1 in magnitude, if no pair before it fails.
pub fn absolute<F: Field>(frame: &Frame<F>, krein: &Krein<F>) -> Result<Option<Claim>, Node>
    requires diameter { krein.now.d ≡ diameter_of frame.now }
    requires root { krein.now.root ≡ root_of_tables frame.now }
    ensures fails { let o = F.operations (root_of_tables frame.now) in
        let b = values_in F.value F.operations frame.now krein.now in
        IfOk result (λ found. IfSome found (FailsAbsolute o b)) }
    ensures first { let o = F.operations (root_of_tables frame.now) in
        let b = values_in F.value F.operations frame.now krein.now in
        IfOk result (λ found. IfSome found (λ claim. (earlier : Claim)
        → ComesBefore earlier claim → FailsAbsolute o b earlier → ⊥)) }
    ensures none { let o = F.operations (root_of_tables frame.now) in
        let b = values_in F.value F.operations frame.now krein.now in
        IfOk result (λ found. IfNone found ((claim : Claim) → FailsAbsolute o b claim → ⊥)) }
    ensures fit { let o = F.operations (root_of_tables frame.now) in
        let b = values_in F.value F.operations frame.now krein.now in
        IfOk result (FitUpTo o b) }
    ensures wide { let o = F.operations (root_of_tables frame.now) in
        let b = values_in F.value F.operations frame.now krein.now in
        IfErr result (IsWideNode o b) }
{
    'firsts: for i in 1..frame.d() + 1 {
        let found = exceeded_of(frame, krein, i)?;
        if let Some(claim) = found {
            return Ok(Some(claim));
        }
    }
    Ok(None)
}

/// The first one with this i.
fn exceeded_of<F: Field>(
    frame: &Frame<F>,
    krein: &Krein<F>,
    i: usize,
) -> Result<Option<Claim>, Node>
    requires diameter { krein.now.d ≡ diameter_of frame.now }
    requires root { krein.now.root ≡ root_of_tables frame.now }
    requires some { 1 ≤ i }
    requires inside { i ≤ diameter_of frame.now }
    requires before { let o = F.operations (root_of_tables frame.now) in
        PassBefore o (values_in F.value F.operations frame.now krein.now) i 0 }
    ensures first { let o = F.operations (root_of_tables frame.now) in
        let b = values_in F.value F.operations frame.now krein.now in
        IfOk result (λ found. IfSome found (IsFirstClaim o b)) }
    ensures none { let o = F.operations (root_of_tables frame.now) in
        let b = values_in F.value F.operations frame.now krein.now in
        IfOk result (λ found. IfNone found (PassBefore o b (suc i) 0)) }
    ensures wide { let o = F.operations (root_of_tables frame.now) in
        let b = values_in F.value F.operations frame.now krein.now in
        IfErr result (IsWideNode o b) }
{
    'seconds: for j in i..frame.d() + 1 {
        let Ok(exceeded) = is_exceeded(frame, krein, i, j) else {
            return Err(absolute_node(i, j));
        };
        if exceeded {
            return Ok(Some(absolute_claim(i, j)));
        }
    }
    Ok(None)
}

/// Whether the sum of the multiplicities of i and j is above the one that is allowed.
fn is_exceeded<F: Field>(
    frame: &Frame<F>,
    krein: &Krein<F>,
    i: usize,
    j: usize,
) -> Result<bool, Wide>
    requires diameter { krein.now.d ≡ diameter_of frame.now }
    requires root { krein.now.root ≡ root_of_tables frame.now }
    requires i { i ≤ diameter_of frame.now }
    requires j { j ≤ diameter_of frame.now }
    ensures answer { let o = F.operations (root_of_tables frame.now) in
        let b = values_in F.value F.operations frame.now krein.now in
        IfOk result (λ r. IsTrue r ↔ IsExceeded o b i j) }
    ensures fits { let o = F.operations (root_of_tables frame.now) in
        OnOk result (AbsoluteFits o (values_in F.value F.operations frame.now krein.now) i j) }
    ensures wide { let o = F.operations (root_of_tables frame.now) in OnErr result
        (¬ AbsoluteFits o (values_in F.value F.operations frame.now krein.now) i j) }
{
    let total = total(frame, krein, i, j)?;
    let allowed = allowed(frame, i, j)?;
    let difference = total.sub(allowed)?;
    let sign = difference.sign()?;
    Ok(is_greater(sign))
}

/// The claim that the sum of i and j isn't above the one that is allowed.
fn absolute_claim(i: usize, j: usize) -> Claim
    requires i { i ≤ MAX_DIAMETER }
    requires j { j ≤ MAX_DIAMETER }
    ensures { result ≡ claims.Absolute i j }
{
    Claim::Absolute {
        i: i as u8,
        j: j as u8,
    }
}

/// The quantity that this claim rests on.
fn absolute_node(i: usize, j: usize) -> Node
    requires i { i ≤ MAX_DIAMETER }
    requires j { j ≤ MAX_DIAMETER }
    ensures { result ≡ nodes.Absolute i j }
{
    Node::Absolute {
        i: i as u8,
        j: j as u8,
    }
}
