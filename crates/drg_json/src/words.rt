//! Names, claims, the lines of a derivation, and why a test isn't decided.

ghost use Rattle.std.specs.Prelude.{◌≡◌, ◌++◌, ◌∷◌, ℕ, List, IfNone, IfOk, IfSome, IsAscii, OnOk};
ghost use Rattle.serde_json.specs.Data.{string};
ghost use Rattle.serde_json.specs.View.{view};
ghost use Rattle.drg_array.specs.Claims.{claim_text};
ghost use Rattle.drg_report.specs.Words.{cause_text, pending_text};
ghost use Rattle.drg_json.specs.Pieces.{texts};
ghost use Rattle.drg_json.specs.Reports.{derivation_lines, names_data, pending_data};
ghost use Rattle.drg_json.specs.Lines.{AreLinesOf, HasNoEnd};

use crate::pieces::text_of;
use drg_array::{Claim, Test};
use drg_derivation::Derivation;
use drg_report::{Cause, Pending};
use serde_json::Value;
use std::alloc::{AllocError, Global};

/// The names of the tests.
pub(crate) fn names(alloc: Global, tests: &[Test]) -> Result<Value, AllocError>
    ensures { IfOk result (λ v. view v ≡ names_data tests.now) }
{
    let mut list = Vec::new(alloc);
    'tests: for test in tests {
        list.push(Value::try_from_str(alloc, test.name())?)?;
    }
    Ok(Value::Array(list))
}

/// The claim, with its indices.
pub(crate) fn claim_value(alloc: Global, claim: Claim) -> Result<Value, AllocError>
    ensures { IfOk result (λ v. view v ≡ string (claim_text claim)) }
{
    let mut text = Vec::new(alloc);
    claim.write_text(&mut text)?;
    Ok(text_of(text))
}

/// A text for each test that isn't decided.
pub(crate) fn pending_tests(alloc: Global, pending: &[Pending]) -> Result<Value, AllocError>
    ensures { IfOk result (λ v. view v ≡ pending_data pending.now) }
{
    let mut list = Vec::new(alloc);
    'entries: for entry in pending {
        list.push(pending_value(alloc, entry)?)?;
    }
    Ok(Value::Array(list))
}

/// The test that isn't decided, and why.
fn pending_value(alloc: Global, entry: &Pending) -> Result<Value, AllocError>
    ensures { IfOk result (λ v. view v ≡ string (pending_text entry.now)) }
{
    let mut text = Vec::new(alloc);
    entry.test.write_text(&mut text)?;
    text.extend_from_slice(b" ")?;
    write_cause(&entry.cause, &mut text)?;
    Ok(text_of(text))
}

/// Appends why a test isn't decided.
fn write_cause(cause: &Cause, out: &mut Vec<u8>) -> Result<(), AllocError>
    ensures { OnOk result (out.new.items ≡ out.old.items ++ cause_text cause.now) }
{
    match cause {
        Cause::Wide(node) => {
            out.extend_from_slice(b"wide ")?;
            node.write_text(out)
        }
        Cause::Spectrum => out.extend_from_slice(b"spectrum"),
    }
}

/// The lines of the derivation, without their line ends.
pub(crate) fn derivation_value(alloc: Global, derivation: &Derivation) -> Result<Value, AllocError>
    ensures { IfOk result (λ v. view v ≡ texts (derivation_lines derivation.now)) }
{
    let mut text = Vec::new(alloc);
    derivation.write_text(&mut text)?;
    lines(alloc, &text)
}

/// The lines of an ASCII text that ends with one, without their line ends.
fn lines(alloc: Global, text: &[u8]) -> Result<Value, AllocError>
    requires { IsAscii text.now }
    ensures { IfOk result (λ v.
        (lines : List (List ℕ)) → AreLinesOf text.now lines → view v ≡ texts lines) }
{
    let mut list = Vec::new(alloc);
    let mut rest = text;
    'lines: while let Some((line, more)) = split_line(rest) {
        list.push(text_of(line.to_vec(alloc)?))?;
        rest = more;
    }
    Ok(Value::Array(list))
}

/// The bytes before the first line end, and those after it.
fn split_line(bytes: &[u8]) -> Option<(&[u8], &[u8])>
    ensures whole { IfSome result (λ x. bytes.now ≡ x.0.now ++ 10 ∷ x.1.now) }
    ensures line { IfSome result (λ x. HasNoEnd x.0.now) }
    ensures none { IfNone result (HasNoEnd bytes.now) }
{
    let len = bytes.iter().position(|byte| *byte == b'\n')?;
    Some((&bytes[..len], &bytes[len + 1..]))
}
