//! The words of which a report is made.
//!
//! They stand in the lines of a text, and each by itself in other forms of a report.

ghost use Rattle.std.specs.Prelude.{◌≡◌, ◌++◌, IfOk, OnOk, OnErr};
ghost use Rattle.drg_algebra.specs.Beginnings.{BeginsWith};
ghost use Rattle.drg_report.specs.Words.{cause_text, claim_with_class, field_text, pending_text, verdict_words as the_verdict_words};

use crate::{Cause, Pending, Verdict};
use drg_array::{Claim, Class};
use drg_fraction::Field;
use drg_quadratic::Quadratic;
use std::alloc::{AllocError, Global};

/// What was found of an array in a few words: `survivor`, `undecided`, `refused-spectrum`, or
/// `infeasible` with the claim and its class. The one error is want of memory.
pub fn verdict_words(alloc: Global, verdict: &Verdict) -> Result<Vec<u8>, AllocError>
    ensures { IfOk result (λ words. words.items ≡ the_verdict_words verdict.now) }
{
    let mut words = Vec::new(alloc);
    write_verdict_words(verdict, &mut words)?;
    Ok(words)
}

/// Appends the words of a verdict.
pub(crate) fn write_verdict_words(verdict: &Verdict, out: &mut Vec<u8>) -> Result<(), AllocError>
    ensures ok { OnOk result (out.new.items ≡ out.old.items ++ the_verdict_words verdict.now) }
    ensures err { OnErr result
        (BeginsWith (the_verdict_words verdict.now) out.old.items out.new.items) }
{
    match verdict {
        Verdict::Infeasible(found) => {
            out.extend_from_slice(b"infeasible ")?;
            write_claim_with_class(found.claim, found.class, out)
        }
        Verdict::Undecided(_) => out.extend_from_slice(b"undecided"),
        Verdict::RefusedSpectrum(_) => out.extend_from_slice(b"refused-spectrum"),
        Verdict::Survivor(_) => out.extend_from_slice(b"survivor"),
    }
}

/// Appends the claim and its class, with one space between them.
pub fn write_claim_with_class(
    claim: Claim,
    class: Class,
    out: &mut Vec<u8>,
) -> Result<(), AllocError>
    ensures ok { OnOk result (out.new.items ≡ out.old.items ++ claim_with_class claim class) }
    ensures err { OnErr result
        (BeginsWith (claim_with_class claim class) out.old.items out.new.items) }
{
    claim.write_text(out)?;
    out.extend_from_slice(b" ")?;
    out.extend_from_slice(class.name().as_bytes())
}

/// Appends the test that isn't decided, and why.
pub(crate) fn write_pending_text(entry: &Pending, out: &mut Vec<u8>) -> Result<(), AllocError>
    ensures ok { OnOk result (out.new.items ≡ out.old.items ++ pending_text entry.now) }
    ensures err { OnErr result (BeginsWith (pending_text entry.now) out.old.items out.new.items) }
{
    entry.test.write_text(out)?;
    out.extend_from_slice(b" ")?;
    write_cause(&entry.cause, out)
}

/// Appends why a test isn't decided.
fn write_cause(cause: &Cause, out: &mut Vec<u8>) -> Result<(), AllocError>
    ensures ok { OnOk result (out.new.items ≡ out.old.items ++ cause_text cause.now) }
    ensures err { OnErr result (BeginsWith (cause_text cause.now) out.old.items out.new.items) }
{
    match cause {
        Cause::Wide(node) => {
            out.extend_from_slice(b"wide ")?;
            node.write_text(out)
        }
        Cause::Spectrum => out.extend_from_slice(b"spectrum"),
    }
}

/// Appends a value of a field, as in `-1/2+1/2r5`.
pub(crate) fn write_value<F: Field>(value: F, out: &mut Vec<u8>) -> Result<(), AllocError>
    ensures ok { let root = F.root_of value in OnOk result (out.new.items
        ≡ out.old.items ++ field_text (F.operations root) root (F.value value)) }
    ensures err { let root = F.root_of value in OnErr result
        (BeginsWith (field_text (F.operations root) root (F.value value))
        out.old.items out.new.items) }
{
    let (a, b) = value.parts();
    Quadratic::make(a, b, value.root()).write_text(out)
}
