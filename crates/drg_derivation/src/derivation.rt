//! Derivations, whole.

ghost use Rattle.std.specs.Prelude.{◌≡◌, ◌↔◌, IsTrue, IsSome, IfSome};
ghost use Rattle.drg_derivation.specs.Lines.{AreFit};
ghost use Rattle.drg_derivation.specs.Text.{HasText};
ghost use Rattle.drg_derivation.specs.Words.{IsClaim};

use crate::{Context, Line};
use drg_array::{Array, Claim};
use std::marker::Model;

/// The version of the text that a derivation is written in.
pub const FIRST_VERSION: u8 = 1;

/// An array, the claim that it fails, and the lines that show it. It always has a text: each line
/// has as many numbers as its place asks for, and each number can be written.
#[derive(Debug, Drop)]
pub struct Derivation {
    pub array: Array,
    pub claim: Claim,
    pub lines: Vec<Line>,
}

impl Model for Derivation {
    ghost use Rattle.drg_derivation.specs.Content.{Content};
    ghost use Rattle.drg_derivation.specs.Text.{HasText};

    ghost Value = { Content };

    ghost view = { λ δ. record { array = δ.array; claim = δ.claim; lines = δ.lines.items } };

    ghost invariant = { λ δ.
        HasText (record { array = δ.array; claim = δ.claim; lines = δ.lines.items }) };
}

impl Derivation {
    /// The derivation of these parts, where it has a text. Takes no memory.
    pub fn make(array: Array, claim: Claim, lines: Vec<Line>) -> Option<Derivation>
        ensures some { IsSome result
            ↔ HasText (record { array = array; claim = claim; lines = lines.items }) }
        ensures parts { IfSome result
            (λ δ. δ ≡ record { array = array; claim = claim; lines = lines.items }) }
    {
        show_indices_are_bytes(&claim);
        let context = Context::start(FIRST_VERSION, array.d() as u8);
        if lines_fit(context, &lines) {
            Some(Derivation {
                array,
                claim,
                lines,
            })
        } else {
            None
        }
    }
}

/// Whether the lines after the claim fit at their places, the first of them in this context.
fn lines_fit(context: Context, lines: &[Line]) -> bool
    ensures { IsTrue result ↔ AreFit context lines.now }
{
    let mut context = context;
    'lines: for line in lines {
        let parts = line.parts();
        if !context.suits(parts.kind, parts.first(), parts.count()) || !parts.is_short() {
            return false;
        }
        context = context.after(parts.kind, parts.first());
    }
    true
}

/// For the proof alone: the indices of a claim are bytes.
fn show_indices_are_bytes(claim: &Claim)
    ensures { IsClaim claim.now }
{
    let _indices = claim.indices();
}
