ghost use Rattle.std.specs.Prelude.{◌≡◌, ℕ, List, Some, IfOk};
ghost use Rattle.drg_array.specs.Entries.{IsArray};
ghost use Rattle.drg_program.specs.Check.{IsJudged, report_of as the_report, status_of as the_status, without_line_end};
ghost use Rattle.drg_program.specs.Input.{AreBytesOf, HasCauses};
ghost use Rattle.drg_program.specs.Run.{Ends, Finds};
ghost use Rattle.drg_words.specs.declared.command.Command.TheVariants.{Check};

use crate::Status;
use crate::input::read_input;
use crate::output::{EarlyRefusal, Output};
use drg_array::{Array, TestSet};
use drg_derivation::one_text_law;
use drg_engine::{completeness_law, judge, text_law};
use drg_json::render_json;
use drg_outside::Inputs;
use drg_report::{Verdict, render};
use drg_words::FileName;
use std::alloc::{AllocError, Global};

/// Judges the one array that the file holds, by the tests that always run and these, and reports it as
/// JSON or as lines of text.
pub fn check<I: Inputs>(
    alloc: Global,
    inputs: &mut I,
    file: &FileName<'_>,
    tests: &TestSet,
    json: bool,
) -> Result<Output, EarlyRefusal>
    // No test that is built opens branches, so a budget changes nothing.
    ensures output { (bytes : List ℕ) × AreBytesOf (I.files inputs.old) file.now bytes
        × ((budget : ℕ) → Ends (Check tests.now budget json file.now) bytes result) }
    ensures causes { HasCauses (Some file.now) (I.files inputs.old)
        (I.open_faults inputs.old) (I.open_faults inputs.new)
        (I.read_faults inputs.old) (I.read_faults inputs.new) result }
    ensures same_files { I.files inputs.new ≡ I.files inputs.old }
{
    let bytes = read_input(alloc, inputs, file.as_str())?;
    check_text(alloc, &bytes, tests, json)
}

/// Judges the one array that stands in these bytes.
fn check_text(
    alloc: Global,
    bytes: &[u8],
    tests: &TestSet,
    json: bool,
) -> Result<Output, EarlyRefusal>
    ensures { (budget : ℕ) (file : List ℕ)
        → Finds (Check tests.now budget json file) bytes.now result }
{
    let array = match Array::read(without_end(bytes)) {
        Ok(array) => array,
        Err(fault) => {
            return Err(EarlyRefusal::BadInput {
                line: 1,
                at: fault.at,
            });
        }
    };
    let verdict = judged(alloc, &array, tests)?;
    let text = report(alloc, &array, &verdict, json)?;
    Ok(Output {
        status: status_of(&verdict),
        text,
    })
}

/// The bytes less one line end.
pub fn without_end(bytes: &[u8]) -> &[u8]
    ensures { result.now ≡ without_line_end bytes.now }
{
    match bytes {
        [rest @ .., b'\r', b'\n'] => rest,
        [rest @ .., b'\n'] => rest,
        _ => bytes,
    }
}

/// The right verdict on the array.
pub fn judged(alloc: Global, array: &Array, tests: &TestSet) -> Result<Verdict, AllocError>
    requires { IsArray array.now }
    ensures { IfOk result (IsJudged array.now tests.now) }
{
    completeness_law();
    text_law();
    one_text_law();
    judge(alloc, array, tests)
}

/// The report on the array with this verdict, as JSON or as lines of text.
fn report(
    alloc: Global,
    array: &Array,
    verdict: &Verdict,
    json: bool,
) -> Result<Vec<u8>, AllocError>
    ensures { IfOk result (λ text. text.items ≡ the_report json array.now verdict.now) }
{
    if json {
        render_json(alloc, array, verdict)
    } else {
        render(alloc, array, verdict)
    }
}

/// The status with which a verdict is told.
fn status_of(verdict: &Verdict) -> Status
    ensures { result ≡ the_status verdict.now }
{
    match verdict {
        Verdict::Infeasible(_) => Status::Infeasible,
        Verdict::Undecided(_) => Status::Undecided,
        Verdict::RefusedSpectrum(_) => Status::RefusedSpectrum,
        Verdict::Survivor(_) => Status::Survivor,
    }
}
