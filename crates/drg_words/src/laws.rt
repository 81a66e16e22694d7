//! Laws of the grammar, for the crates above.

ghost use Rattle.drg_words.specs.Commands.{OneCommand};

/// The same words are one command, with one list of tests, the same numbers and one file.
pub fn words_law()
    ensures { OneCommand }
{}
