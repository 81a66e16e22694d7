//! Laws of derivation texts, for callers' proofs. The functions do nothing when they run.

ghost use Rattle.drg_derivation.specs.Laws.{BeginsOrRefused, LineOrRefusal, LinesOfDerivation, NoPrefix, NotBoth, NotLineAndRefusal, OneBeginning, OneDerivation, OneLine, OneRefusal, OneText, SameLines, SameRefusal};

/// Each derivation that has a text has exactly one, which [`crate::Derivation::write_text`] writes.
pub fn one_text_law()
    ensures { OneText }
{}

/// A text is that of one derivation, and bytes begin with one derivation.
pub fn one_derivation_law()
    ensures text { OneDerivation }
    ensures front { OneBeginning }
{}

/// No text of a derivation is a proper prefix of another's.
pub fn no_prefix_law()
    ensures { NoPrefix }
{}

/// Bytes begin with a derivation or are refused, exactly one of both, and at one line alone.
pub fn refusal_law()
    ensures either { BeginsOrRefused }
    ensures not_both { NotBoth }
    ensures one { OneRefusal }
{}

/// What the line reader does is determined by the bytes: it hands out a line or refuses one. It
/// hands out the lines of the derivation with which the bytes begin, and lines up to the end are
/// those of one. Where there is none, it refuses the line that [`crate::read`] refuses.
pub fn line_reader_law()
    ensures lines { SameLines }
    ensures derivation { LinesOfDerivation }
    ensures refusal { SameRefusal }
    ensures either { LineOrRefusal }
    ensures not_both { NotLineAndRefusal }
    ensures one { OneLine }
{}
