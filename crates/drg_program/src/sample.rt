ghost use Rattle.std.specs.Prelude.{◌≡◌, [], IfOk};
ghost use Rattle.std.specs.List.{AllZip};
ghost use Rattle.drg_array.specs.Claims.{test_of as the_test_of};
ghost use Rattle.drg_program.specs.Run.{Finds};
ghost use Rattle.drg_program.specs.Sample.{AreKindsOn, IsKindOn, kind_of as the_kind_of};
ghost use Rattle.drg_words.specs.declared.command.Command.TheVariants.{Sample as SampleCommand};

use crate::Status;
use crate::check::judged;
use crate::output::{EarlyRefusal, Output};
use drg_array::{Array, Claim, ClaimName, Test, TestSet};
use drg_report::Verdict;
use drg_sample::{Found, generate, render_summary, sample_law};
use drg_tables::distinct_arrays;
use std::alloc::{AllocError, Global};

/// Judges the arrays that the seed generates, by all tests that are built, and tells how many of them
/// are what.
pub fn sample(alloc: Global, seed: u32, count: u32) -> Result<Output, EarlyRefusal>
    ensures { Finds (SampleCommand seed count) [] result }
{
    sample_law();
    let arrays = generate(alloc, seed, count)?;
    let kinds = kinds_on(alloc, &arrays)?;
    let text = render_summary(alloc, seed, &kinds)?;
    Ok(Output {
        status: Status::Done,
        text,
    })
}

/// What each of these arrays is counted as. Equal ones are judged once.
fn kinds_on(alloc: Global, arrays: &[Array]) -> Result<Vec<Found>, AllocError>
    ensures { IfOk result (λ kinds. AreKindsOn arrays.now kinds.items) }
{
    let distinct = distinct_arrays(alloc, arrays)?;
    let values = kinds_on_each(alloc, distinct.arrays())?;
    let kinds = distinct.spread(alloc, &values)?;
    Ok(kinds)
}

/// What each array is counted as.
fn kinds_on_each(alloc: Global, arrays: &[Array]) -> Result<Vec<Found>, AllocError>
    ensures { IfOk result (λ kinds. AllZip IsKindOn arrays.now kinds.items) }
{
    let mut kinds = Vec::new(alloc);
    'arrays: for array in arrays {
        let kind = kind_on(alloc, array)?;
        kinds.push(kind)?;
    }
    Ok(kinds)
}

/// What the array is counted as.
fn kind_on(alloc: Global, array: &Array) -> Result<Found, AllocError>
    ensures { IfOk result (IsKindOn array.now) }
{
    array.known_valid();
    let verdict = judged(alloc, array, &TestSet::all())?;
    Ok(kind_of(&verdict))
}

/// What a verdict is counted as.
fn kind_of(verdict: &Verdict) -> Found
    ensures { result ≡ the_kind_of verdict.now }
{
    match verdict {
        Verdict::Infeasible(found) => Found::Infeasible(test_of(&found.claim)),
        Verdict::Undecided(_) => Found::Undecided,
        Verdict::RefusedSpectrum(_) => Found::RefusedSpectrum,
        Verdict::Survivor(_) => Found::Survivor,
    }
}

/// The test that an array fails which meets the claim.
fn test_of(claim: &Claim) -> Test
    ensures { result ≡ the_test_of claim.now }
{
    match claim.name() {
        ClaimName::OfTest(test) => test,
    }
}
