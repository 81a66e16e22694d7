//! The places of lines in a derivation.

ghost use Rattle.std.specs.Prelude.{◌≡◌, IfSome, IfNone};
ghost use Rattle.drg_derivation.specs.LineReading.{evidence_read, line_read};
ghost use Rattle.drg_derivation.specs.Places.{IsLineAt, next_place};
ghost use Rattle.drg_derivation.specs.declared.view.LineView.{LineView as TheLine};

use crate::header::{array_of, claim_of, version_of};
use crate::word::Word;
use crate::written::WrittenLine;
use crate::{Context, EvidenceView, LineView};

/// Which line comes next, and what the lines before it settle.
#[derive(Clone, Copy, Debug, PartialEq, Eq)]
pub enum Place {
    /// The first line.
    Version,
    /// The second line.
    Array { version: u8 },
    /// The third line.
    Claim { context: Context },
    /// Evidence lines and the last line.
    Evidence { context: Context },
    /// Past the last line.
    After,
}

/// The line of this text, which has no line end, at this place, and the place after it.
pub fn line_at(place: Place, text: &[u8]) -> Option<(LineView, Place)>
    ensures line { IfSome result (λ x. IsLineAt place text.now x.0) }
    ensures next { IfSome result (λ x. x.1 ≡ next_place place x.0) }
    ensures none { IfNone result ((line : TheLine) → IsLineAt place text.now line → ⊥) }
{
    let line = WrittenLine::read(text)?;
    let found = line_with(place, &line)?;
    Some(found)
}

/// The line of these words and numbers at this place, and the place after it.
#[tactic(auto, unfolding(crate::specs::LineReading::line_read))]
fn line_with<'a>(place: Place, line: &WrittenLine<'a>) -> Option<(LineView<'a>, Place)>
    ensures { result ≡ line_read place line.now }
{
    match place {
        Place::Version => {
            let version = version_of(line)?;
            Some((LineView::Version { version }, Place::Array { version }))
        }
        Place::Array { version } => {
            let array = array_of(line)?;
            let context = Context::start(version, array.d() as u8);
            Some((LineView::Array { array }, Place::Claim { context }))
        }
        Place::Claim { context } => {
            let claim = claim_of(line)?;
            Some((LineView::Claim { claim }, Place::Evidence { context }))
        }
        Place::Evidence { context } => line_among(context, line),
        Place::After => None,
    }
}

/// The evidence line or the last line of these words and numbers, and the place after it.
#[tactic(auto, unfolding(crate::specs::LineReading::evidence_read))]
fn line_among<'a>(context: Context, line: &WrittenLine<'a>) -> Option<(LineView<'a>, Place)>
    ensures { result ≡ evidence_read context line.now }
{
    match line.word() {
        Word::Evidence { kind } => {
            let first = line.first();
            if !context.suits(kind, first, line.count()) {
                return None;
            }
            let context = context.after(kind, first);
            let line = EvidenceView::of(kind, line);
            Some((LineView::Evidence { line }, Place::Evidence { context }))
        }
        Word::End => {
            if line.count() == 0 {
                Some((LineView::End, Place::After))
            } else {
                None
            }
        }
        Word::Drg | Word::Array | Word::Claim => None,
    }
}
