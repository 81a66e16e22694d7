//! The text of a derivation.

ghost use Rattle.std.specs.Prelude.{◌≡◌, ◌++◌, ◌∷◌, [], OnOk, OnErr};
ghost use Rattle.drg_algebra.specs.Beginnings.{BeginsWith};
ghost use Rattle.drg_derivation.specs.Integers.{integers_text};
ghost use Rattle.drg_derivation.specs.Text.{derivation_text, evidence_views, line_text, written_texts};
ghost use Rattle.drg_derivation.specs.Words.{array_numbers as numbers_of_array};
ghost use Rattle.drg_derivation.specs.Writing.{parts_text, plain_line};
ghost use Rattle.drg_derivation.specs.declared.view.LineView.TheVariants.{Array as ArrayView, Claim as ClaimView, Evidence as EvidenceLine};

use crate::header::MAX_NUMBERS;
use crate::view::array_number;
use crate::{Derivation, Line};
use arrayvec::ArrayVec;
use drg_array::{Array, Claim};
use itoa::Buffer;
use std::alloc::AllocError;

impl Derivation {
    /// Appends the text.
    pub fn write_text(&self, out: &mut Vec<u8>) -> Result<(), AllocError>
        ensures ok { OnOk result (out.new.items ≡ out.old.items ++ derivation_text self.now) }
        ensures err { OnErr result
            (BeginsWith (derivation_text self.now) out.old.items out.new.items) }
    {
        write_parts(&self.array, &self.claim, &self.lines, out)
    }
}

/// Appends the text of a derivation with these parts.
fn write_parts(
    array: &Array,
    claim: &Claim,
    lines: &[Line],
    out: &mut Vec<u8>,
) -> Result<(), AllocError>
    ensures ok { OnOk result
        (out.new.items ≡ out.old.items ++ parts_text array.now claim.now lines.now) }
    ensures err { OnErr result
        (BeginsWith (parts_text array.now claim.now lines.now) out.old.items out.new.items) }
{
    out.extend_from_slice(b"drg 1\n")?;
    write_array(array, out)?;
    write_claim(claim, out)?;
    write_lines(lines, out)?;
    out.extend_from_slice(b"end\n")
}

/// Appends the line of the array.
fn write_array(array: &Array, out: &mut Vec<u8>) -> Result<(), AllocError>
    ensures ok { OnOk result
        (out.new.items ≡ out.old.items ++ line_text (ArrayView array.now)) }
    ensures err { OnErr result
        (BeginsWith (line_text (ArrayView array.now)) out.old.items out.new.items) }
{
    write_plain(b"array", &array_numbers(array), &[], out)
}

/// The numbers of the line of an array.
fn array_numbers(array: &Array) -> ArrayVec<i128, MAX_NUMBERS>
    ensures { result.items ≡ numbers_of_array array.now }
{
    let mut numbers = ArrayVec::new();
    'numbers: for i in 0..1 + 2 * array.d() {
        numbers.push(i128::from(array_number(array, i)));
    }
    numbers
}

/// Appends the line of the claim.
fn write_claim(claim: &Claim, out: &mut Vec<u8>) -> Result<(), AllocError>
    ensures ok { OnOk result
        (out.new.items ≡ out.old.items ++ line_text (ClaimView claim.now)) }
    ensures err { OnErr result
        (BeginsWith (line_text (ClaimView claim.now)) out.old.items out.new.items) }
{
    out.extend_from_slice(b"claim ")?;
    claim.write_text(out)?;
    out.extend_from_slice(b"\n")
}

/// Appends the evidence lines.
fn write_lines(lines: &[Line], out: &mut Vec<u8>) -> Result<(), AllocError>
    ensures ok { OnOk result
        (out.new.items ≡ out.old.items ++ written_texts (evidence_views lines.now)) }
    ensures err { OnErr result
        (BeginsWith (written_texts (evidence_views lines.now)) out.old.items out.new.items) }
{
    'lines: for line in lines {
        write_line(line, out)?;
    }
    Ok(())
}

/// Appends an evidence line.
fn write_line(line: &Line, out: &mut Vec<u8>) -> Result<(), AllocError>
    ensures ok { OnOk result
        (out.new.items ≡ out.old.items ++ line_text (EvidenceLine line.now)) }
    ensures err { OnErr result
        (BeginsWith (line_text (EvidenceLine line.now)) out.old.items out.new.items) }
{
    let parts = line.parts();
    write_plain(
        parts.kind.name().as_bytes(),
        &parts.leading,
        parts.tail,
        out,
    )
}

/// Appends a word, these numbers with one space before each, and a line end.
fn write_plain(
    word: &[u8],
    leading: &[i128],
    tail: &[i128],
    out: &mut Vec<u8>,
) -> Result<(), AllocError>
    ensures ok { OnOk result
        (out.new.items ≡ out.old.items ++ plain_line word.now leading.now tail.now) }
    ensures err { OnErr result
        (BeginsWith (plain_line word.now leading.now tail.now) out.old.items out.new.items) }
{
    out.extend_from_slice(word)?;
    write_numbers(leading, out)?;
    write_numbers(tail, out)?;
    out.extend_from_slice(b"\n")
}

/// Appends the numbers, with one space before each.
fn write_numbers(numbers: &[i128], out: &mut Vec<u8>) -> Result<(), AllocError>
    ensures ok { OnOk result (out.new.items ≡ out.old.items ++ integers_text numbers.now) }
    ensures err { OnErr result
        (BeginsWith (integers_text numbers.now) out.old.items out.new.items) }
{
    'numbers: for number in numbers {
        write_number(*number, out)?;
    }
    Ok(())
}

/// Appends a space and the number.
fn write_number(number: i128, out: &mut Vec<u8>) -> Result<(), AllocError>
    ensures ok { OnOk result (out.new.items ≡ out.old.items ++ integers_text (number ∷ [])) }
    ensures err { OnErr result
        (BeginsWith (integers_text (number ∷ [])) out.old.items out.new.items) }
{
    out.push(b' ')?;
    out.extend_from_slice(Buffer::new().format(number).as_bytes())
}
