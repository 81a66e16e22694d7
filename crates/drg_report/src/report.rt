//! The text of a report.
//!
//! Each line ends with one line feed, and each number is written in decimal. Tests, entries and
//! sizes stand in the order in which the verdict has them.

ghost use Rattle.std.specs.Prelude.{◌≡◌, ◌++◌, suc, IfOk, OnOk, OnErr};
ghost use Rattle.drg_algebra.specs.Beginnings.{BeginsWith};
ghost use Rattle.drg_report.specs.Texts.{array_lines, names_text, numbers_lines, pending_line, pending_lines, report_text, sizes_text, verdict_line};

use crate::certificate::{write_certificate_lines, write_other_lines};
use crate::orderings::{write_p_lines, write_q_lines};
use crate::tables::write_spectra_lines;
use crate::words::{write_pending_text, write_verdict_words};
use crate::{Pending, Verdict};
use drg_array::{Array, Test};
use drg_intersection::Numbers;
use itoa::Buffer;
use std::alloc::{AllocError, Global};

/// The text of the report on this array with this verdict. The one error is want of memory.
pub fn render(alloc: Global, array: &Array, verdict: &Verdict) -> Result<Vec<u8>, AllocError>
    ensures { IfOk result (λ text. text.items ≡ report_text array.now verdict.now) }
{
    let mut text = Vec::new(alloc);
    match verdict {
        Verdict::Infeasible(found) => {
            found.derivation.write_text(&mut text)?;
            write_verdict_line(verdict, &mut text)?;
            write_pending_lines(found.pending.as_slice(), &mut text)?;
            write_other_lines(&found.other, &mut text)?;
        }
        Verdict::Undecided(found) => {
            write_verdict_line(verdict, &mut text)?;
            write_array_lines(array, found.passed.as_slice(), &mut text)?;
            write_pending_lines(found.pending.as_slice(), &mut text)?;
            write_other_lines(&found.other, &mut text)?;
        }
        Verdict::RefusedSpectrum(found) => {
            write_verdict_line(verdict, &mut text)?;
            write_array_lines(array, found.passed.as_slice(), &mut text)?;
            write_pending_lines(found.pending.as_slice(), &mut text)?;
            write_certificate_lines(&found.other, &mut text)?;
        }
        Verdict::Survivor(found) => {
            write_verdict_line(verdict, &mut text)?;
            write_array_lines(array, found.passed.as_slice(), &mut text)?;
            write_numbers_lines(&found.numbers, &mut text)?;
            write_spectra_lines(&found.spectra, &mut text)?;
            write_p_lines(&found.p_orderings, &mut text)?;
            write_q_lines(&found.q_orderings, &mut text)?;
        }
    }
    Ok(text)
}

/// Appends the line of the verdict.
fn write_verdict_line(verdict: &Verdict, out: &mut Vec<u8>) -> Result<(), AllocError>
    ensures ok { OnOk result (out.new.items ≡ out.old.items ++ verdict_line verdict.now) }
    ensures err { OnErr result (BeginsWith (verdict_line verdict.now) out.old.items out.new.items) }
{
    out.extend_from_slice(b"verdict ")?;
    write_verdict_words(verdict, out)?;
    out.extend_from_slice(b"\n")
}

/// Appends the line of the array, and the line of the tests that ran and hold.
fn write_array_lines(array: &Array, passed: &[Test], out: &mut Vec<u8>) -> Result<(), AllocError>
    ensures ok { OnOk result (out.new.items ≡ out.old.items ++ array_lines array.now passed.now) }
    ensures err { OnErr result
        (BeginsWith (array_lines array.now passed.now) out.old.items out.new.items) }
{
    out.extend_from_slice(b"array ")?;
    array.write_text(out)?;
    out.extend_from_slice(b"\npassed")?;
    write_names(passed, out)?;
    out.extend_from_slice(b"\n")
}

/// Appends the names of the tests, with one space before each.
fn write_names(tests: &[Test], out: &mut Vec<u8>) -> Result<(), AllocError>
    ensures ok { OnOk result (out.new.items ≡ out.old.items ++ names_text tests.now) }
    ensures err { OnErr result (BeginsWith (names_text tests.now) out.old.items out.new.items) }
{
    'tests: for test in tests {
        out.push(b' ')?;
        test.write_text(out)?;
    }
    Ok(())
}

/// Appends a line for each test that isn't decided.
fn write_pending_lines(pending: &[Pending], out: &mut Vec<u8>) -> Result<(), AllocError>
    ensures ok { OnOk result (out.new.items ≡ out.old.items ++ pending_lines pending.now) }
    ensures err { OnErr result
        (BeginsWith (pending_lines pending.now) out.old.items out.new.items) }
{
    'entries: for entry in pending {
        write_pending_line(entry, out)?;
    }
    Ok(())
}

/// Appends the line of a test that isn't decided.
fn write_pending_line(entry: &Pending, out: &mut Vec<u8>) -> Result<(), AllocError>
    ensures ok { OnOk result (out.new.items ≡ out.old.items ++ pending_line entry.now) }
    ensures err { OnErr result (BeginsWith (pending_line entry.now) out.old.items out.new.items) }
{
    out.extend_from_slice(b"pending ")?;
    write_pending_text(entry, out)?;
    out.extend_from_slice(b"\n")
}

/// Appends the line of the number of vertices, and the line of the sizes k_0 to k_d.
fn write_numbers_lines(numbers: &Numbers, out: &mut Vec<u8>) -> Result<(), AllocError>
    ensures ok { OnOk result (out.new.items ≡ out.old.items ++ numbers_lines numbers.now) }
    ensures err { OnErr result
        (BeginsWith (numbers_lines numbers.now) out.old.items out.new.items) }
{
    out.extend_from_slice(b"n ")?;
    out.extend_from_slice(Buffer::new().format(numbers.n()).as_bytes())?;
    out.extend_from_slice(b"\nsizes")?;
    write_sizes(numbers, out)?;
    out.extend_from_slice(b"\n")
}

/// Appends the sizes k_0 to k_d, with one space before each.
fn write_sizes(numbers: &Numbers, out: &mut Vec<u8>) -> Result<(), AllocError>
    ensures ok { OnOk result (out.new.items
        ≡ out.old.items ++ sizes_text numbers.now (suc numbers.now.d)) }
    ensures err { OnErr result (BeginsWith (sizes_text numbers.now (suc numbers.now.d))
        out.old.items out.new.items) }
{
    let mut buffer = Buffer::new();
    'sizes: for i in 0..numbers.d() + 1 {
        out.push(b' ')?;
        out.extend_from_slice(buffer.format(numbers.k(i)).as_bytes())?;
    }
    Ok(())
}
