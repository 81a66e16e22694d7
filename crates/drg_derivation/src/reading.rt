//! A derivation, read from its text.

ghost use Rattle.std.specs.Prelude.{◌≡◌, ◌≢◌, ◌++◌, ◌∷◌, [], IfOk, IfErr, OnOk};
ghost use Rattle.drg_array.specs.Entries.{IsArray};
ghost use Rattle.drg_derivation.specs.Faults.{IsCause, IsStop};
ghost use Rattle.drg_derivation.specs.Places.{HandsOut, HandsOutAll, IsAmong, IsAtArray, IsAtClaim};
ghost use Rattle.drg_derivation.specs.Text.{Begins, evidence_views};
ghost use Rattle.drg_derivation.specs.declared.place.Place.{Place};
ghost use Rattle.drg_derivation.specs.declared.view.LineView.TheVariants.{Array as ArrayView, Claim as ClaimView, End as EndView};

use crate::split::split_line;
use crate::{Derivation, DerivationFault, EvidenceView, Line, LineReader, LineView};
use drg_array::{Array, Claim};
use std::alloc::{AllocError, Global};

/// Reads a derivation up to and with its `end` line, and says how many bytes it has. What follows
/// isn't looked at.
pub fn read(alloc: Global, bytes: &[u8]) -> Result<(Derivation, usize), DerivationFault>
    ensures ok { IfOk result (λ x. Begins bytes.now x.1 x.0) }
    ensures refused { IfErr result (IsCause bytes.now) }
{
    let mut reader = LineReader::new(bytes);
    let _version = next_line(&mut reader)?;
    let array = read_array(&mut reader)?;
    let claim = read_claim(&mut reader)?;
    let lines = read_lines(alloc, &mut reader)?;
    let used = bytes.len() - reader.rest().len();
    let derivation = Derivation {
        array,
        claim,
        lines,
    };
    Ok((derivation, used))
}

/// The next line.
fn next_line<'a>(reader: &mut LineReader<'a>) -> Result<LineView<'a>, DerivationFault>
    requires { reader.old.place ≢ Place.After }
    ensures ok { IfOk result (λ line. HandsOut reader.old line reader.new) }
    ensures refused { IfErr result (IsStop reader.old) }
{
    match reader.next() {
        Ok(Some(line)) => Ok(line),
        Ok(None) => unreachable!(),
        Err(line) => Err(DerivationFault::BadText { line }),
    }
}

/// The array of the next line.
fn read_array(reader: &mut LineReader) -> Result<Array, DerivationFault>
    requires { IsAtArray reader.old.place }
    ensures ok { IfOk result (λ array. HandsOut reader.old (ArrayView array) reader.new) }
    ensures refused { IfErr result (IsStop reader.old) }
{
    match next_line(reader)? {
        LineView::Array { array } => Ok(array),
        _ => unreachable!(),
    }
}

/// The claim of the next line.
fn read_claim(reader: &mut LineReader) -> Result<Claim, DerivationFault>
    requires { IsAtClaim reader.old.place }
    ensures ok { IfOk result (λ claim. HandsOut reader.old (ClaimView claim) reader.new) }
    ensures refused { IfErr result (IsStop reader.old) }
{
    match next_line(reader)? {
        LineView::Claim { claim } => Ok(claim),
        _ => unreachable!(),
    }
}

/// The evidence lines up to `end`.
fn read_lines(alloc: Global, reader: &mut LineReader) -> Result<Vec<Line>, DerivationFault>
    requires { IsAmong reader.old.place }
    ensures ok { IfOk result (λ lines.
        HandsOutAll reader.old (evidence_views lines.items ++ EndView ∷ []) reader.new) }
    ensures refused { IfErr result (IsStop reader.old) }
{
    let mut lines = Vec::with_capacity(alloc, lines_before_end(reader.rest()))?;
    'lines: loop {
        match next_line(reader)? {
            LineView::Evidence { line } => push_line(alloc, &line, &mut lines)?,
            LineView::End => return Ok(lines),
            _ => unreachable!(),
        }
    }
}

/// Appends the line.
fn push_line(alloc: Global, line: &EvidenceView, lines: &mut Vec<Line>) -> Result<(), AllocError>
    ensures { OnOk result (lines.new.items ≡ lines.old.items ++ line.now ∷ []) }
{
    lines.push(line.to_line(alloc)?)?;
    Ok(())
}

/// The fewest bytes of an evidence line.
const SHORTEST: usize = 3;

/// How many evidence lines there are at most before `end`, 0 where no line is `end`.
fn lines_before_end(bytes: &[u8]) -> usize {
    let mut rest = bytes;
    let mut count: usize = 0;
    'lines: while let Some((line, more)) = split_line(rest) {
        if line == "end".as_bytes() || line.len() < SHORTEST {
            return count;
        }
        count += 1;
        rest = more;
    }
    0
}
