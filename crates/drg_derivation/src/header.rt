//! The version, the array and the claim of a derivation, from their lines.

ghost use Rattle.std.specs.Prelude.{◌≡◌, ◌≤◌, length};
ghost use Rattle.std.specs.Option.{option_map};
ghost use Rattle.drg_derivation.specs.Header.{array_from, array_read, claim_read, natural as natural_of, naturals as naturals_of, version_named as version_named_of, version_read};

use crate::word::Word;
use crate::written::WrittenLine;
use arrayvec::ArrayVec;
use drg_array::{Array, Claim, MAX_DIAMETER, MAX_INDICES};
use num_traits::cast;

/// The latest version of the text.
const LATEST_VERSION: u8 = 1;

/// The most numbers of an array's line.
pub const MAX_NUMBERS: usize = 2 * MAX_DIAMETER + 1;

/// The version of the text in this line.
#[tactic(auto, unfolding(crate::specs::Header::version_read))]
pub fn version_of(line: &WrittenLine) -> Option<u8>
    ensures { result ≡ version_read line.now }
{
    let Word::Drg = line.word() else {
        return None;
    };
    if line.count() != 1 {
        return None;
    }
    version_named(line.first())
}

/// The version of the text that has this number.
fn version_named(number: i128) -> Option<u8>
    ensures { result ≡ version_named_of number }
{
    let version = cast(number)?;
    if version >= 1 && version <= LATEST_VERSION {
        Some(version)
    } else {
        None
    }
}

/// The array of this line.
#[tactic(auto, unfolding(crate::specs::Header::array_read))]
pub fn array_of(line: &WrittenLine) -> Option<Array>
    ensures { result ≡ array_read line.now }
{
    let Word::Array = line.word() else {
        return None;
    };
    if line.count() > MAX_NUMBERS {
        return None;
    }
    array_with(&naturals(line)?)
}

/// The array of this diameter and these entries, all in one list.
#[tactic(auto, unfolding(crate::specs::Header::array_from))]
fn array_with(numbers: &[u16]) -> Option<Array>
    ensures { result ≡ array_from numbers.now }
{
    let (d, entries) = numbers.split_first()?;
    let d = usize::from(*d);
    if entries.len() != 2 * d {
        return None;
    }
    Array::make(&entries[..d], &entries[d..])
}

/// The claim of this line.
#[tactic(auto, unfolding(crate::specs::Header::claim_read))]
pub fn claim_of(line: &WrittenLine) -> Option<Claim>
    ensures { result ≡ claim_read line.now }
{
    let Word::Claim = line.word() else {
        return None;
    };
    let name = line.name()?;
    if line.count() > MAX_INDICES {
        return None;
    }
    Claim::of(name, &bytes(line)?)
}

/// The numbers of the line, where each is at least 0 and below 2^16.
fn naturals(line: &WrittenLine) -> Option<ArrayVec<u16, MAX_NUMBERS>>
    requires { length line.now.numbers ≤ MAX_NUMBERS }
    ensures { option_map (λ found. found.items) result ≡ naturals_of 65535 line.now.numbers }
{
    let mut found = ArrayVec::new();
    'numbers: for number in line.numbers() {
        found.push(natural(number)?);
    }
    Some(found)
}

/// The number, where it is at least 0 and below 2^16.
fn natural(number: i128) -> Option<u16>
    ensures { result ≡ natural_of 65535 number }
{
    cast(number)
}

/// The numbers of the line, where each is at least 0 and below 2^8.
fn bytes(line: &WrittenLine) -> Option<ArrayVec<u8, MAX_INDICES>>
    requires { length line.now.numbers ≤ MAX_INDICES }
    ensures { option_map (λ found. found.items) result ≡ naturals_of 255 line.now.numbers }
{
    let mut found = ArrayVec::new();
    'numbers: for number in line.numbers() {
        found.push(byte(number)?);
    }
    Some(found)
}

/// The number, where it is at least 0 and below 2^8.
fn byte(number: i128) -> Option<u8>
    ensures { result ≡ natural_of 255 number }
{
    cast(number)
}
