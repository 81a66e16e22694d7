//! A line of a derivation as it lies in the bytes.

ghost use Rattle.std.specs.Prelude.{◌≡◌, ◌<◌, pos, length, slice_index_or};
ghost use Rattle.drg_derivation.specs.Words.{array_numbers, word_text, written};

use crate::EvidenceView;
use drg_array::{Array, Claim, ClaimName};

/// A line of a derivation over lent bytes, by what it says.
#[derive(Debug, Drop)]
pub enum LineView<'a> {
    /// `drg` and the version of the text.
    Version { version: u8 },
    /// `array`, the diameter and the entries.
    Array { array: Array },
    /// `claim`, the name of a claim and its indices.
    Claim { claim: Claim },
    /// The word of an evidence line and its numbers.
    Evidence { line: EvidenceView<'a> },
    /// `end`.
    End,
}

impl LineView<'_> {
    /// The word with which the line begins.
    pub fn word(&self) -> &'static str
        ensures { result.now ≡ word_text (written self.now).word }
    {
        match self {
            LineView::Version { .. } => "drg",
            LineView::Array { .. } => "array",
            LineView::Claim { .. } => "claim",
            LineView::Evidence { line } => line.kind().name(),
            LineView::End => "end",
        }
    }

    /// The name of the claim, which follows as a second word where the line is that of a claim.
    pub fn name(&self) -> Option<ClaimName>
        ensures { result ≡ (written self.now).name }
    {
        match self {
            LineView::Claim { claim } => Some(claim.name()),
            _ => None,
        }
    }

    /// How many numbers follow the words.
    pub fn count(&self) -> usize
        ensures { result ≡ length (written self.now).numbers }
    {
        match self {
            LineView::Version { .. } => 1,
            LineView::Array { array } => 1 + 2 * array.d(),
            LineView::Claim { claim } => claim.indices().len(),
            LineView::Evidence { line } => line.count(),
            LineView::End => 0,
        }
    }

    /// The number at place i, counted from 0.
    pub fn number(&self, i: usize) -> i128
        requires { i < length (written self.now).numbers }
        ensures { result ≡ slice_index_or (written self.now).numbers i (pos 0) }
    {
        match self {
            LineView::Version { version } => i128::from(*version),
            LineView::Array { array } => i128::from(array_number(array, i)),
            LineView::Claim { claim } => i128::from(claim.indices()[i]),
            LineView::Evidence { line } => line.number(i),
            LineView::End => 0,
        }
    }
}

/// The number at this place of the line of an array.
pub(crate) fn array_number(array: &Array, i: usize) -> u16
    requires { i < length (array_numbers array.now) }
    ensures { pos result ≡ slice_index_or (array_numbers array.now) i (pos 0) }
{
    let d = array.d();
    if i == 0 {
        d as u16
    } else if i <= d {
        array.b(i - 1)
    } else {
        array.c(i - d)
    }
}
