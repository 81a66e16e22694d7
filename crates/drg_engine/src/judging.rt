//! The verdict on an array.

ghost use Rattle.std.specs.Prelude.{◌≡◌, List, [], suc, IfOk, OnOk};
ghost use Rattle.drg_array.specs.Claims.{test_of};
ghost use Rattle.drg_array.specs.ClaimOrder.{test_number};
ghost use Rattle.drg_array.specs.Conditions.{CountsHold};
ghost use Rattle.drg_array.specs.Entries.{Entries};
ghost use Rattle.drg_array.specs.declared.test.Test.TheVariants as test;
ghost use Rattle.drg_array.specs.declared.test.Test.{Test as TheTest};
ghost use Rattle.drg_array.specs.declared.claim.Claim.{Claim as TheClaim};
ghost use Rattle.drg_counting.specs.EntryTests.{IsBasic};
ghost use Rattle.drg_intersection.specs.Faults.{AllPass, IsFirstWide, IsNode};
ghost use Rattle.drg_intersection.specs.Numbers.{AreNumbersOf};
ghost use Rattle.drg_engine.specs.Causes.{IsDecidable};
ghost use Rattle.drg_engine.specs.Conditions.{Fails, IsBuilt};
ghost use Rattle.drg_engine.specs.Courses.{ComesFirst, IsCourse, NoneFailsWithin};
ghost use Rattle.drg_engine.specs.Frames.{HasOtherSpectrum, IsFirstTooWide, IsFrameReached};
ghost use Rattle.drg_engine.specs.Parameters.{HaveNoParameters};
ghost use Rattle.drg_engine.specs.Selections.{Runs};
ghost use Rattle.drg_engine.specs.SpectraFaults.{IsSpectraFault};
ghost use Rattle.drg_evidence.specs.Lines.{AreLinesOf};
ghost use Rattle.drg_evidence.specs.Made.{AreMade};
ghost use Rattle.drg_engine.specs.Verdicts.{AreSpectraOf, IsNodeOf, VerdictHolds};

use crate::course::Course;
use crate::spectra::{SpectraFault, first_multiplicity, frame_lines, spectra_of};
use crate::{acceptance_law, built_law, text_law};
use drg_array::{Array, Claim, Node, Test, TestSet};
use drg_counting::{basic, parity};
use drg_derivation::{Derivation, Line};
use drg_eigen::OtherSpectrum;
use drg_evidence::count_lines;
use drg_graph::counting_claims_law;
use drg_intersection::{Numbers, NumbersFault, numbers_or_before};
use drg_orderings::p_orderings;
use drg_report::{
    Cause, Infeasible, Pending, PendingTests, RefusedSpectrum, Spectra, Survivor, Undecided,
    Verdict,
};
use std::alloc::{AllocError, Global};

/// The verdict on the array, by the first six tests and those that are selected. They run in their
/// order, and the first one that fails, or that can't be decided, ends it. The one error is want of
/// memory.
pub fn judge(alloc: Global, array: &Array, tests: &TestSet) -> Result<Verdict, AllocError>
    ensures { IfOk result (VerdictHolds array.now tests.now) }
{
    let mut course = Course::new(alloc);
    if let Some(claim) = basic(array) {
        return Ok(infeasible_by(array, claim, Vec::new(alloc), course.pending));
    }
    course.pass_up_to(Test::Cross, tests)?;
    match numbers_or_before(alloc, array) {
        Ok(numbers) => judge_numbers(alloc, array, tests, numbers, course),
        Err(shortfall) => match shortfall.fault {
            NumbersFault::Fall { claim } => {
                let lines = count_lines(alloc, claim, &shortfall.before)?;
                Ok(infeasible_by(array, claim, lines, course.pending))
            }
            NumbersFault::Wide { node } => undecided_by(node, tests, course),
            NumbersFault::Memory => Err(AllocError),
        },
    }
}

/// The verdict on an array that holds the first six tests and has these numbers.
fn judge_numbers(
    alloc: Global,
    array: &Array,
    tests: &TestSet,
    numbers: Numbers,
    mut course: Course,
) -> Result<Verdict, AllocError>
    requires entries { (claim : TheClaim) → IsBasic claim → Fails array.now claim → ⊥ }
    requires numbers { AreNumbersOf array.now numbers }
    requires pass { AllPass array.now }
    requires course { IsCourse tests.now course }
    requires decided { course.decided ≡ 4 }
    ensures { IfOk result (VerdictHolds array.now tests.now) }
{
    array.known_valid();
    built_law();
    course.pass_up_to(Test::Intersect, tests)?;
    if let Some(claim) = parity(&numbers, tests) {
        let lines = count_lines(alloc, claim, numbers.first())?;
        return Ok(infeasible_by(array, claim, lines, course.pending));
    }
    course.pass_up_to(Test::Triangles, tests)?;
    if tests.has(Test::Mult) {
        return judge_spectrum(alloc, array, tests, numbers, course);
    }
    let p_orderings = p_orderings(alloc, &numbers)?;
    let passed = course.passed;
    Ok(Verdict::Survivor(Survivor {
        passed,
        numbers,
        spectra: None,
        p_orderings,
        q_orderings: None,
    }))
}

/// The verdict on an array that holds the first nine tests as far as they run, where mult runs.
fn judge_spectrum(
    alloc: Global,
    array: &Array,
    tests: &TestSet,
    numbers: Numbers,
    course: Course,
) -> Result<Verdict, AllocError>
    requires runs { Runs tests.now test.Mult }
    requires numbers { AreNumbersOf array.now numbers }
    requires pass { AllPass array.now }
    requires course { IsCourse tests.now course }
    requires decided { course.decided ≡ 9 }
    requires none { NoneFailsWithin array.now tests.now 9 }
    requires first { CountsHold array.now test.First }
    ensures { IfOk result (VerdictHolds array.now tests.now) }
{
    match spectra_of(alloc, array, &numbers) {
        Ok(spectra) => judge_frame(alloc, array, tests, numbers, spectra, course),
        Err(fault) => without_frame(fault, course),
    }
}

/// The same where the array has this frame.
fn judge_frame(
    alloc: Global,
    array: &Array,
    tests: &TestSet,
    numbers: Numbers,
    spectra: Spectra,
    mut course: Course,
) -> Result<Verdict, AllocError>
    requires runs { Runs tests.now test.Mult }
    requires numbers { AreNumbersOf array.now numbers }
    requires pass { AllPass array.now }
    requires course { IsCourse tests.now course }
    requires decided { course.decided ≡ 9 }
    requires none { NoneFailsWithin array.now tests.now 9 }
    requires spectra { AreSpectraOf array.now spectra }
    requires made { IsFrameReached array.now }
    requires parameters { HaveNoParameters spectra }
    ensures { IfOk result (VerdictHolds array.now tests.now) }
{
    array.known_valid();
    built_law();
    if let Some(claim) = first_multiplicity(&spectra) {
        let lines = frame_lines(alloc, &numbers, &spectra)?;
        return Ok(infeasible_by(array, claim, lines, course.pending));
    }
    course.pass_up_to(Test::Mult, tests)?;
    let p_orderings = p_orderings(alloc, &numbers)?;
    let passed = course.passed;
    Ok(Verdict::Survivor(Survivor {
        passed,
        numbers,
        spectra: Some(spectra),
        p_orderings,
        q_orderings: None,
    }))
}

/// The verdict where the frame isn't made, for this reason.
fn without_frame(fault: SpectraFault, course: Course) -> Result<Verdict, AllocError>
    requires decided { course.decided ≡ 9 }
    ensures { IfOk result (λ verdict. (a : Entries) (tests : List TheTest) →
        IsCourse tests course → Runs tests test.Mult → AllPass a → NoneFailsWithin a tests 9 →
        IsSpectraFault a fault → VerdictHolds a tests verdict) }
{
    match fault {
        SpectraFault::Wide { node } => wide_frame(node, course),
        SpectraFault::Other { other } => refused_by(other, course),
        SpectraFault::Memory => Err(AllocError),
    }
}

/// The verdict where a number on the way to the frame is too wide. The tests that ask for the frame
/// can't be decided.
fn wide_frame(node: Node, mut course: Course) -> Result<Verdict, AllocError>
    requires decided { course.decided ≡ 9 }
    ensures { IfOk result (λ verdict. (a : Entries) (tests : List TheTest) →
        IsCourse tests course → Runs tests test.Mult → AllPass a → NoneFailsWithin a tests 9 →
        IsFirstTooWide a node → VerdictHolds a tests verdict) }
{
    built_law();
    let cause = Cause::Wide(node);
    course.pending.push(Pending {
        test: Test::Mult,
        cause,
    })?;
    Ok(Verdict::Undecided(Undecided {
        passed: course.passed,
        pending: course.pending,
        other: None,
    }))
}

/// The verdict where no one quadratic field holds the eigenvalues. The tests that ask for the frame
/// can't be decided.
fn refused_by(other: OtherSpectrum, mut course: Course) -> Result<Verdict, AllocError>
    requires decided { course.decided ≡ 9 }
    ensures { IfOk result (λ verdict. (a : Entries) (tests : List TheTest) →
        IsCourse tests course → Runs tests test.Mult → AllPass a → NoneFailsWithin a tests 9 →
        HasOtherSpectrum a other → VerdictHolds a tests verdict) }
{
    built_law();
    let cause = Cause::Spectrum;
    course.pending.push(Pending {
        test: Test::Mult,
        cause,
    })?;
    Ok(Verdict::RefusedSpectrum(RefusedSpectrum {
        passed: course.passed,
        pending: course.pending,
        other,
    }))
}

/// The verdict on an array of which this is the first failing claim, with the lines that show it.
/// No test before it is pending.
fn infeasible_by(array: &Array, claim: Claim, lines: Vec<Line>, pending: PendingTests) -> Verdict
    requires built { IsBuilt (test_of claim) }
    requires fails { Fails array.now claim }
    requires made { AreMade array.now claim }
    requires decidable { IsDecidable array.now (test_of claim) }
    requires lines { AreLinesOf array.now claim lines.items }
    requires none_pending { pending ≡ [] }
    ensures { (tests : List TheTest) → ComesFirst array.now tests claim
        → VerdictHolds array.now tests result }
{
    array.known_valid();
    acceptance_law();
    text_law();
    built_law();
    counting_claims_law();
    // By the laws, a derivation of these parts has a text, and is accepted.
    let Some(derivation) = Derivation::make(array.copied(), claim, lines) else {
        unreachable!();
    };
    Verdict::Infeasible(Infeasible {
        claim,
        class: claim.class(),
        derivation,
        pending,
        other: None,
    })
}

/// The verdict on an array with a number that is too wide, after others that pass.
fn undecided_by(node: Node, tests: &TestSet, mut course: Course) -> Result<Verdict, AllocError>
    requires course { IsCourse tests.now course }
    requires decided { course.decided ≡ 4 }
    ensures { IfOk result (λ verdict. (a : Entries) →
        ((claim : TheClaim) → IsBasic claim → Fails a claim → ⊥) →
        IsFirstWide a node → VerdictHolds a tests.now verdict) }
{
    built_law();
    let test = pass_up_to_node(node, tests, &mut course)?;
    let cause = Cause::Wide(node);
    course.pending.push(Pending { test, cause })?;
    Ok(Verdict::Undecided(Undecided {
        passed: course.passed,
        pending: course.pending,
        other: None,
    }))
}

/// The test of which this number is a part. The tests before it are noted as tests that hold.
fn pass_up_to_node(node: Node, tests: &TestSet, course: &mut Course) -> Result<Test, AllocError>
    requires course { IsCourse tests.now course.old }
    requires decided { course.old.decided ≡ 4 }
    ensures part { IfOk result (λ test. (a : Entries) → IsNode a node → IsNodeOf test node) }
    ensures course { OnOk result (IsCourse tests.now course.new) }
    ensures next { IfOk result (λ test. test_number test ≡ suc course.new.decided) }
{
    match node {
        Node::P { .. } => {
            course.pass_up_to(Test::Size, tests)?;
            Ok(Test::Intersect)
        }
        _ => Ok(Test::Size),
    }
}
