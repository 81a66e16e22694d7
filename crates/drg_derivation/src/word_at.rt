//! The words at the front of a line.

ghost use Rattle.std.specs.Prelude.{◌≡◌};
ghost use Rattle.drg_derivation.specs.Reading.{seen};
ghost use Rattle.drg_derivation.specs.WordReading.{kind_named as kind_named_of, name_at, name_named as name_named_of, other_word as other_word_of, rest_part, word_at as word_at_of, word_named as word_named_of, word_part};

use crate::Kind;
use crate::integers::after_byte;
use crate::kind::KINDS;
use crate::word::{OTHER_WORDS, Word};
use drg_array::ClaimName;

/// The bytes before the first space, and those from it on.
fn split_word(text: &[u8]) -> (&[u8], &[u8])
    ensures word { result.0.now ≡ word_part text.now }
    ensures rest { result.1.now ≡ rest_part text.now }
{
    let mut len: usize = 0;
    'bytes: for byte in text {
        if *byte == b' ' {
            break 'bytes;
        }
        len += 1;
    }
    text.split_at(len)
}

/// The name of a claim that these bytes are.
fn name_named(text: &[u8]) -> Option<ClaimName>
    ensures { result ≡ name_named_of text.now }
{
    ClaimName::read(text)
}

/// The kind of evidence line with this word.
#[tactic(auto, unfolding(crate::specs::WordReading::kind_named))]
fn kind_named(name: &[u8]) -> Option<Kind>
    ensures { result ≡ kind_named_of name.now }
{
    'kinds: for kind in &KINDS {
        if name == kind.name().as_bytes() {
            return Some(*kind);
        }
    }
    None
}

/// The word of this text, which isn't that of an evidence line.
#[tactic(auto, unfolding(crate::specs::WordReading::other_word))]
fn other_word(name: &[u8]) -> Option<Word>
    ensures { result ≡ other_word_of name.now }
{
    'words: for word in &OTHER_WORDS {
        if name == word.text().as_bytes() {
            return Some(*word);
        }
    }
    None
}

/// The word of this text.
#[tactic(auto, unfolding(crate::specs::WordReading::word_named))]
fn word_named(name: &[u8]) -> Option<Word>
    ensures { result ≡ word_named_of name.now }
{
    match kind_named(name) {
        Some(kind) => Some(Word::Evidence { kind }),
        None => other_word(name),
    }
}

/// The name of a claim after a space, where one is taken, and what follows it.
#[tactic(auto, unfolding(crate::specs::WordReading::name_at, crate::specs::WordReading::second_at))]
pub fn read_name(word: Word, rest: &[u8]) -> Option<(Option<ClaimName>, &[u8])>
    ensures { seen result ≡ name_at word rest.now }
{
    if !word.takes_name() {
        return Some((None, rest));
    }
    let (name, rest) = split_word(after_byte(rest, b' ')?);
    let name = name_named(name)?;
    Some((Some(name), rest))
}

/// The word at the front, and what follows it.
#[tactic(auto, unfolding(crate::specs::WordReading::word_at))]
pub fn read_word(text: &[u8]) -> Option<(Word, &[u8])>
    ensures { seen result ≡ word_at_of text.now }
{
    let (name, rest) = split_word(text);
    let word = word_named(name)?;
    Some((word, rest))
}
