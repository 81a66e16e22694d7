//! The test on the signs of Krein parameters.

ghost use Rattle.std.specs.Prelude.{◌≡◌, ◌≤◌, ◌↔◌, suc, true, IsTrue, IfSome, IfNone};
ghost use Rattle.std.specs.declared.cmp.Ordering.TheVariants as ordering;
ghost use Rattle.drg_array.specs.ClaimOrder.{ComesBefore};
ghost use Rattle.drg_array.specs.declared.claim.Claim.{Claim};
ghost use Rattle.drg_array.specs.declared.claim.Claim.TheVariants as claims;
ghost use Rattle.drg_krein.specs.Tables.{krein_in};
ghost use Rattle.drg_bounds.specs.KreinSigns.{IsNegative, TablesFailKrein};
ghost use Rattle.drg_bounds.specs.Signs.{IsFirstNegative, NoneNegativeBefore};

use drg_array::{Claim, MAX_DIAMETER};
use drg_fraction::Field;
use drg_krein::Krein;
use std::cmp::Ordering;

/// The first failing claim of the test krein: the first i ≤ j ≤ h, from 1 on, with q^h_ij below 0
/// (Brouwer, Cohen and Neumaier 1989, section 2.3).
pub fn krein_signs<F: Field>(krein: &Krein<F>) -> Option<Claim>
    ensures fails { IfSome result (TablesFailKrein F.value F.operations krein.now) }
    ensures first { IfSome result (λ claim. (earlier : Claim) → ComesBefore earlier claim
        → TablesFailKrein F.value F.operations krein.now earlier → ⊥) }
    ensures none { IfNone result
        ((claim : Claim) → TablesFailKrein F.value F.operations krein.now claim → ⊥) }
{
    'firsts: for i in 1..krein.d() + 1 {
        if let Some(claim) = negative_of(krein, i) {
            return Some(claim);
        }
    }
    None
}

/// The first one with this i.
fn negative_of<F: Field>(krein: &Krein<F>, i: usize) -> Option<Claim>
    requires some { 1 ≤ i }
    requires inside { i ≤ krein.now.d }
    requires before { NoneNegativeBefore F.value F.operations krein.now i 0 0 }
    ensures first { IfSome result (IsFirstNegative F.value F.operations krein.now) }
    ensures none { IfNone result (NoneNegativeBefore F.value F.operations krein.now (suc i) 0 0) }
{
    'seconds: for j in i..krein.d() + 1 {
        if let Some(claim) = negative_of_pair(krein, i, j) {
            return Some(claim);
        }
    }
    None
}

/// The first one with this i and j.
fn negative_of_pair<F: Field>(krein: &Krein<F>, i: usize, j: usize) -> Option<Claim>
    requires some { 1 ≤ i }
    requires ordered { i ≤ j }
    requires inside { j ≤ krein.now.d }
    requires before { NoneNegativeBefore F.value F.operations krein.now i j 0 }
    ensures first { IfSome result (IsFirstNegative F.value F.operations krein.now) }
    ensures none { IfNone result (NoneNegativeBefore F.value F.operations krein.now i (suc j) 0) }
{
    'thirds: for h in j..krein.d() + 1 {
        if is_negative(krein, i, j, h) {
            return Some(krein_claim(i, j, h));
        }
    }
    None
}

/// Whether q^h_ij is below 0.
fn is_negative<F: Field>(krein: &Krein<F>, i: usize, j: usize, h: usize) -> bool
    requires i { i ≤ krein.now.d }
    requires j { j ≤ krein.now.d }
    requires h { h ≤ krein.now.d }
    ensures { IsTrue result ↔ IsNegative (F.operations krein.now.root)
        (krein_in F.value F.operations krein.now h i j) }
{
    is_below(krein.q(i, j, h))
}

/// Whether a value whose sign fits is below 0.
fn is_below<F: Field>(value: F) -> bool
    requires { (F.operations (F.root_of value)).sign_fits (F.value value) ≡ true }
    ensures { IsTrue result ↔ IsNegative (F.operations (F.root_of value)) (F.value value) }
{
    match value.sign() {
        Ok(sign) => is_less(sign),
        Err(_) => unreachable!(),
    }
}

/// Whether a value with this sign is below 0.
fn is_less(sign: Ordering) -> bool
    ensures { IsTrue result ↔ (sign ≡ ordering.Less) }
{
    match sign {
        Ordering::Less => true,
        _ => false,
    }
}

/// The claim that q^h_ij isn't negative.
fn krein_claim(i: usize, j: usize, h: usize) -> Claim
    requires i { i ≤ MAX_DIAMETER }
    requires j { j ≤ MAX_DIAMETER }
    requires h { h ≤ MAX_DIAMETER }
    ensures { result ≡ claims.Krein i j h }
{
    Claim::Krein {
        i: i as u8,
        j: j as u8,
        h: h as u8,
    }
}
