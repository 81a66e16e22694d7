//! Laws of conditions, of derivations and of verdicts. The functions do nothing when they run.

ghost use Rattle.drg_engine.specs.FrameLaws.{FrameLaws};
ghost use Rattle.drg_engine.specs.Laws.{AcceptanceLaw, CompletenessLaw, FailingTestsDontHold, OneReportLaw, RefusedLaw, SelectedTestsRun, TextLaw, UnfailedTestsHold, WideFrameLaw, WideLaw};

use drg_array::{claim_law, condition_law};
use drg_eigen::split_law;
use drg_evidence::{counts_law, frame_law, mult_law};
use drg_fraction::Fraction;
use drg_intersection::fault_law;
use drg_quadratic::Quadratic;

/// A test that is built holds exactly where no claim of it fails, if the array has a frame where
/// the test asks for one, and each selected test runs.
pub fn built_law()
    ensures fails { FailingTestsDontHold }
    ensures holds { UnfailedTestsHold }
    ensures selected { SelectedTestsRun }
{
    condition_law();
    frame_law();
}

/// A derivation of a claim that the array fails, with the lines of this claim, is accepted with the
/// class of the claim.
pub fn acceptance_law()
    ensures { AcceptanceLaw }
{
    counts_law();
    mult_law();
}

/// And it has a text.
pub fn text_law()
    ensures { TextLaw }
{
    counts_law();
    mult_law();
}

/// Where no number is too wide and one quadratic field holds the eigenvalues, if a test asks for
/// them, a right verdict decides: it is infeasible where a test that runs doesn't hold, and else a
/// survivor.
pub fn completeness_law()
    ensures { CompletenessLaw }
{
    built_law();
    frame_laws();
}

/// Where the tests on the entries hold and the first number k, n or p that fails is too wide, a
/// right verdict is undecided, and its one entry names this number.
pub fn wide_law()
    ensures { WideLaw }
{
    fault_law();
}

/// Where no test fails and a number on the way to the frame is the first that is too wide, a right
/// verdict is undecided, and each test that asks for the frame has an entry that names this number.
pub fn wide_frame_law()
    ensures { WideFrameLaw }
{
    frame_laws();
}

/// Where no test fails, no number is too wide and no one quadratic field holds the eigenvalues, a
/// right verdict says so with the one certificate, if a test asks for the frame.
pub fn refused_law()
    ensures { RefusedLaw }
{
    frame_laws();
}

/// Two right verdicts on an array, for the same tests, have one report: nothing in its text is
/// free.
pub fn one_report_law()
    ensures { OneReportLaw }
{
    claim_law();
    built_law();
    fault_law();
    frame_laws();
    frame_law();
}

/// What becomes of the frame of an array is one.
fn frame_laws()
    ensures { FrameLaws }
{
    drg_eigen::fault_law();
    split_law();
    drg_matrices::fault_law::<Fraction>();
    drg_matrices::fault_law::<Quadratic>();
}
