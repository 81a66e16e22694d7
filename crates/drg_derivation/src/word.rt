//! The words that a line of a derivation begins with.

ghost use Rattle.std.specs.Prelude.{◌≡◌};
ghost use Rattle.drg_derivation.specs.Words.{takes_name as takes_name_of, word_text};

use crate::Kind;

/// The first word of a line.
#[derive(Clone, Copy, Debug, PartialEq, Eq)]
pub enum Word {
    /// `drg`, which the first line begins with.
    Drg,
    /// `array`, which the second line begins with.
    Array,
    /// `claim`, which the third line begins with.
    Claim,
    /// The word of an evidence line.
    Evidence { kind: Kind },
    /// `end`, the last line.
    End,
}

/// The words other than those of evidence lines.
pub const OTHER_WORDS: [Word; 4] = [Word::End, Word::Drg, Word::Array, Word::Claim];

impl Word {
    /// The word as it is written.
    pub fn text(self) -> &'static str
        ensures { result.now ≡ word_text self }
    {
        match self {
            Word::Drg => "drg",
            Word::Array => "array",
            Word::Claim => "claim",
            Word::Evidence { kind } => kind.name(),
            Word::End => "end",
        }
    }

    /// Whether the name of a claim follows as a second word.
    pub fn takes_name(self) -> bool
        ensures { result ≡ takes_name_of self }
    {
        match self {
            Word::Claim => true,
            _ => false,
        }
    }
}
