//! The line that is written for the answer to a derivation.

ghost use Rattle.std.specs.Prelude.{◌≡◌, ◌++◌, OnOk, OnErr};
ghost use Rattle.drg_algebra.specs.Beginnings.{BeginsWith};
ghost use Rattle.drg_program.specs.AnswerText.{accepted_text, number_line, open_text, rejected_text, wide_text};

use drg_array::{Claim, Class};
use drg_report::write_claim_with_class;
use itoa::Buffer;
use std::alloc::AllocError;

/// Appends the answer to a derivation that is accepted.
pub fn write_accepted(claim: Claim, class: Class, out: &mut Vec<u8>) -> Result<(), AllocError>
    ensures ok { OnOk result (out.new.items ≡ out.old.items ++ accepted_text claim class) }
    ensures err { OnErr result
        (BeginsWith (accepted_text claim class) out.old.items out.new.items) }
{
    out.extend_from_slice(b"accepted ")?;
    write_claim_with_class(claim, class, out)?;
    out.extend_from_slice(b"\n")
}

/// Appends the answer to a derivation with a line that is not met.
pub fn write_rejected(line: u64, out: &mut Vec<u8>) -> Result<(), AllocError>
    ensures ok { OnOk result (out.new.items ≡ out.old.items ++ rejected_text line) }
    ensures err { OnErr result (BeginsWith (rejected_text line) out.old.items out.new.items) }
{
    write_number(b"rejected line ", line, out)
}

/// Appends the answer to a derivation whose claim is not closed at the end, in this line.
pub fn write_open(line: u64, out: &mut Vec<u8>) -> Result<(), AllocError>
    ensures ok { OnOk result (out.new.items ≡ out.old.items ++ open_text line) }
    ensures err { OnErr result (BeginsWith (open_text line) out.old.items out.new.items) }
{
    write_number(b"rejected open ", line, out)
}

/// Appends the answer to a derivation with a line that has too wide a work number.
pub fn write_wide(line: u64, out: &mut Vec<u8>) -> Result<(), AllocError>
    ensures ok { OnOk result (out.new.items ≡ out.old.items ++ wide_text line) }
    ensures err { OnErr result (BeginsWith (wide_text line) out.old.items out.new.items) }
{
    write_number(b"undecided wide ", line, out)
}

/// Appends these words, the number of a line, and a line end.
fn write_number(words: &[u8], number: u64, out: &mut Vec<u8>) -> Result<(), AllocError>
    ensures ok { OnOk result (out.new.items ≡ out.old.items ++ number_line words.now number) }
    ensures err { OnErr result
        (BeginsWith (number_line words.now number) out.old.items out.new.items) }
{
    out.extend_from_slice(words)?;
    out.extend_from_slice(Buffer::new().format(number).as_bytes())?;
    out.extend_from_slice(b"\n")?;
    Ok(())
}
