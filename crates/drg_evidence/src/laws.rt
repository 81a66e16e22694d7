//! Laws of derivations with the lines of their claim. The functions do nothing when they run.

ghost use Rattle.drg_evidence.specs.Laws.{CountsAccepted, CountsHaveText, MultAccepted, MultHasText, OneFrameOfValues, OneListOfFrameLines};

use drg_eigen::split_law;
use drg_matrices::one_frame;
use drg_quadratic::Quadratic;

/// A derivation of a claim on counts that the array fails, with the lines of this claim, is
/// accepted with the class of the claim, and it has a text.
pub fn counts_law()
    ensures accepted { CountsAccepted }
    ensures text { CountsHaveText }
{}

/// A derivation of a claim of the test mult that the array fails, with the lines of this claim, is
/// accepted with the class Spectral, and it has a text.
pub fn mult_law()
    ensures accepted { MultAccepted }
    ensures text { MultHasText }
{
    split_law();
    one_frame::<Quadratic>();
}

/// An array has one frame, over one root, and so one list of the lines of its frame.
pub fn frame_law()
    ensures one { OneFrameOfValues }
    ensures lines { OneListOfFrameLines }
{
    split_law();
    one_frame::<Quadratic>();
}
