//! The test on multiplicities.

ghost use Rattle.std.specs.Prelude.{◌↔◌, ◌<ℤ◌, pos, IsTrue, IfSome, IfNone};
ghost use Rattle.drg_array.specs.ClaimOrder.{ComesBefore};
ghost use Rattle.drg_array.specs.declared.claim.Claim.{Claim};
ghost use Rattle.drg_bounds.specs.Multiplicities.{FrameFailsMult, IsPositiveWhole};

use drg_array::Claim;
use drg_fraction::Field;
use drg_matrices::Frame;

/// The first failing claim of the test mult: the first i from 1 on whose multiplicity isn't a positive
/// whole number (Brouwer, Cohen and Neumaier 1989, section 4.1.B).
pub fn multiplicities<F: Field>(frame: &Frame<F>) -> Option<Claim>
    ensures fails { IfSome result (FrameFailsMult F.value F.operations frame.now) }
    ensures first { IfSome result (λ claim. (earlier : Claim) → ComesBefore earlier claim
        → FrameFailsMult F.value F.operations frame.now earlier → ⊥) }
    ensures none { IfNone result
        ((claim : Claim) → FrameFailsMult F.value F.operations frame.now claim → ⊥) }
{
    'indices: for i in 1..frame.d() + 1 {
        if !is_positive_whole(frame.m(i)) {
            return Some(Claim::Mult { i: i as u8 });
        }
    }
    None
}

/// Whether the value is a positive whole number.
fn is_positive_whole<F: Field>(value: F) -> bool
    ensures { IsTrue result ↔ IsPositiveWhole (F.operations (F.root_of value)) (F.value value) }
{
    match value.as_int() {
        Some(number) => is_positive(number),
        None => false,
    }
}

/// Whether the number is above 0.
fn is_positive(number: i128) -> bool
    ensures { IsTrue result ↔ (pos 0 <ℤ number) }
{
    number > 0
}
