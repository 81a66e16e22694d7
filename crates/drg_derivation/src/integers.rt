//! Whole numbers at the front of bytes.

ghost use Rattle.std.specs.Prelude.{◌≡◌, ◌≤◌, pos, option_copied, length, IfSome};
ghost use Rattle.std.specs.Iterator.{item_count, YieldsFirst};
ghost use Rattle.std.specs.Option.{option_map};
ghost use Rattle.drg_derivation.specs.Integers.{greatest};
ghost use Rattle.drg_derivation.specs.Reading.{after_byte as after_byte_of, AreRead, integer_at as integer_at_of, integers_in, integers_of, negative, positive_at, seen, spaced_at};

use std::marker::Model;

/// The greatest magnitude of a number, without its last digit.
const FRONT: u128 = 17014118346046923173168730371588410572;

/// The last digit of the greatest magnitude.
const LAST: u8 = 7;

/// What follows this byte at the front.
pub fn after_byte(bytes: &[u8], byte: u8) -> Option<&[u8]>
    ensures { option_copied result ≡ after_byte_of byte bytes.now }
{
    let (first, rest) = bytes.split_first()?;
    if *first == byte { Some(rest) } else { None }
}

/// The number at the front, a digit that isn't 0 and digits, and what follows it.
#[tactic(auto, unfolding(crate::specs::Reading::positive_at))]
fn read_positive(bytes: &[u8]) -> Option<(u128, &[u8])>
    ensures value { seen result ≡ positive_at bytes.now }
    ensures short { IfSome result (λ x. x.0 ≤ greatest) }
{
    let (first, mut rest) = bytes.split_first()?;
    if *first <= b'0' || *first > b'9' {
        return None;
    }
    let mut value = u128::from(*first - b'0');
    'digits: while let Some((byte, more)) = rest.split_first() {
        if *byte < b'0' || *byte > b'9' {
            break 'digits;
        }
        let digit = *byte - b'0';
        if value > FRONT || value == FRONT && digit > LAST {
            return None;
        }
        value = value * 10 + u128::from(digit);
        rest = more;
    }
    Some((value, rest))
}

/// The number at the front, and what follows it.
#[tactic(auto, unfolding(crate::specs::Reading::integer_at))]
pub fn read_integer(bytes: &[u8]) -> Option<(i128, &[u8])>
    ensures { seen result ≡ integer_at_of bytes.now }
{
    let (first, rest) = bytes.split_first()?;
    if *first == b'0' {
        return Some((0, rest));
    }
    if *first == b'-' {
        let (value, rest) = read_positive(rest)?;
        return Some((opposite(value), rest));
    }
    let (value, rest) = read_positive(bytes)?;
    Some((whole(value), rest))
}

/// The number of this magnitude that isn't negative.
fn whole(magnitude: u128) -> i128
    requires { magnitude ≤ greatest }
    ensures { result ≡ pos magnitude }
{
    magnitude as i128
}

/// The number of this magnitude that isn't positive.
fn opposite(magnitude: u128) -> i128
    requires { magnitude ≤ greatest }
    ensures { result ≡ negative magnitude }
{
    -(magnitude as i128)
}

/// The number after a space at the front, and what follows it.
#[tactic(auto, unfolding(crate::specs::Reading::spaced_at))]
pub fn read_spaced(bytes: &[u8]) -> Option<(i128, &[u8])>
    ensures { seen result ≡ spaced_at bytes.now }
{
    read_integer(after_byte(bytes, b' ')?)
}

/// How many numbers the text has, where it has nothing else.
pub fn count_integers(text: &[u8]) -> Option<usize>
    ensures { result ≡ option_map length (integers_of text.now) }
{
    let mut count: usize = 0;
    let mut rest = text;
    'numbers: while !rest.is_empty() {
        let (_, more) = read_spaced(rest)?;
        count += 1;
        rest = more;
    }
    Some(count)
}

/// The whole numbers of a line, from left to right over lent bytes.
#[derive(Debug, Drop)]
pub struct LineNumbers<'a> {
    text: &'a [u8],
}

impl<'a> Model for LineNumbers<'a> {
    ghost use Rattle.std.specs.Prelude.{List, ℤ};
    ghost use Rattle.drg_derivation.specs.Reading.{AreRead, integers_in};

    ghost Value = { List ℤ };

    ghost view = { λ n. integers_in n.text.now };

    ghost invariant = { λ n. AreRead n.text.now };
}

impl<'a> LineNumbers<'a> {
    /// The numbers of a text that has nothing else.
    pub(crate) fn new(text: &'a [u8]) -> LineNumbers<'a>
        requires { AreRead text.now }
        ensures { result ≡ integers_in text.now }
    {
        LineNumbers { text }
    }
}

impl Iterator for LineNumbers<'_> {
    type Item = i128;

    ghost next_gives = { YieldsFirst (λ numbers. numbers) };

    ghost remaining = { item_count (λ numbers. numbers) };

    fn next(&mut self) -> Option<i128> {
        let (number, rest) = read_spaced(self.text)?;
        self.text = rest;
        Some(number)
    }
}
