//! A line as it is written: its words and its numbers, at whatever place.

ghost use Rattle.std.specs.Prelude.{◌≡◌, length};
ghost use Rattle.drg_derivation.specs.Reading.{AreRead, integers_in};
ghost use Rattle.drg_derivation.specs.Shapes.{first_of};
ghost use Rattle.drg_derivation.specs.WordReading.{written_at};

use crate::integers::{LineNumbers, count_integers};
use crate::word::Word;
use crate::word_at::{read_name, read_word};
use drg_array::ClaimName;
use std::marker::Model;

/// A line over lent bytes, whose words and numbers were looked at, but not whether they go
/// together.
#[derive(Debug, Drop)]
pub struct WrittenLine<'a> {
    word: Word,
    name: Option<ClaimName>,
    text: &'a [u8],
    count: usize,
}

impl<'a> Model for WrittenLine<'a> {
    ghost use Rattle.drg_derivation.specs.Words.{Written};
    ghost use Rattle.drg_derivation.specs.Reading.{integers_in, IsCounted};

    ghost Value = { Written };

    ghost view = { λ w.
        record { word = w.word; name = w.name; numbers = integers_in w.text.now } };

    ghost invariant = { λ w. IsCounted w.text.now w.count };
}

impl<'a> WrittenLine<'a> {
    /// The line of this text, which has no line end.
    #[tactic(auto, unfolding(crate::specs::WordReading::written_at))]
    pub fn read(text: &'a [u8]) -> Option<WrittenLine<'a>>
        ensures { result ≡ written_at text.now }
    {
        let (word, text) = read_word(text)?;
        let (name, text) = read_name(word, text)?;
        let count = count_integers(text)?;
        Some(WrittenLine {
            word,
            name,
            text,
            count,
        })
    }

    /// The first word.
    pub fn word(&self) -> Word
        ensures { result ≡ self.now.word }
    {
        self.word
    }

    /// The name of a claim, where it is a second word.
    pub fn name(&self) -> Option<ClaimName>
        ensures { result ≡ self.now.name }
    {
        self.name
    }

    /// How many numbers follow the words.
    pub fn count(&self) -> usize
        ensures { result ≡ length self.now.numbers }
    {
        self.count
    }

    /// The numbers.
    pub fn numbers(&self) -> LineNumbers<'a>
        ensures { result ≡ self.now.numbers }
    {
        LineNumbers::new(self.text)
    }

    /// The first number, or 0 where there is none.
    pub fn first(&self) -> i128
        ensures { result ≡ first_of self.now.numbers }
    {
        self.numbers().next().unwrap_or(0)
    }

    /// The text of the numbers, which has nothing else.
    pub fn text(&self) -> &'a [u8]
        ensures read { AreRead result.now }
        ensures numbers { integers_in result.now ≡ self.now.numbers }
    {
        self.text
    }
}
