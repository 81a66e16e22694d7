//! The summary of a sample.

ghost use Rattle.std.specs.Prelude.{◌≡◌, ◌++◌, codes, decimal, IfOk, OnOk};
ghost use Rattle.std.specs.List.{flat_map};
ghost use Rattle.drg_array.specs.declared.test.TheConstants.Test.{ALL};
ghost use Rattle.drg_sample.specs.Summary.{count_of as the_count_of, is_same as are_same, line_of, number_line, summary_text, test_line};

use drg_array::Test;
use itoa::Buffer;
use std::alloc::{AllocError, Global};

/// What was found of an array of a sample.
#[derive(Clone, Copy, Debug, PartialEq, Eq)]
pub enum Found {
    Survivor,
    RefusedSpectrum,
    Undecided,
    /// Infeasible, with the test that the array fails first.
    Infeasible(Test),
}

impl Found {
    /// The line of a summary that counts it, after the first line.
    fn line(self) -> u16
        ensures { result ≡ line_of self }
    {
        match self {
            Found::Survivor => 1,
            Found::RefusedSpectrum => 2,
            Found::Undecided => 3,
            Found::Infeasible(test) => 3 + u16::from(test.number()),
        }
    }

    /// Whether both are counted on one line.
    fn is_same(self, other: Found) -> bool
        ensures { result ≡ are_same self other }
    {
        self.line() == other.line()
    }
}

/// The summary of the sample that this seed generates, where these were found of its arrays, one for
/// each: the seed and how many there are, and how many of each kind. The one error is want of memory.
pub fn render_summary(alloc: Global, seed: u32, all: &[Found]) -> Result<Vec<u8>, AllocError>
    ensures { IfOk result (λ text. text.items ≡ summary_text seed all.now) }
{
    let mut out = Vec::new(alloc);
    write_head(seed, all.len(), &mut out)?;
    write_line("survivor", count_of(Found::Survivor, all), &mut out)?;
    write_line(
        "refused-spectrum",
        count_of(Found::RefusedSpectrum, all),
        &mut out,
    )?;
    write_line("undecided", count_of(Found::Undecided, all), &mut out)?;
    write_tests(all, &mut out)?;
    Ok(out)
}

/// Appends the line of the seed and of how many arrays there are.
fn write_head(seed: u32, count: usize, out: &mut Vec<u8>) -> Result<(), AllocError>
    ensures { OnOk result (out.new.items
        ≡ out.old.items ++ number_line (codes "sample " ++ decimal seed) count) }
{
    out.extend_from_slice(b"sample ")?;
    write_number(u64::from(seed), out)?;
    write_line("", count, out)
}

/// Appends a line of some words and a number.
fn write_line(words: &str, number: usize, out: &mut Vec<u8>) -> Result<(), AllocError>
    ensures { OnOk result (out.new.items ≡ out.old.items ++ number_line words.now number) }
{
    out.extend_from_slice(words.as_bytes())?;
    out.push(b' ')?;
    write_number(number as u64, out)?;
    out.push(b'\n')?;
    Ok(())
}

/// Appends the digits of a number.
fn write_number(number: u64, out: &mut Vec<u8>) -> Result<(), AllocError>
    ensures { OnOk result (out.new.items ≡ out.old.items ++ decimal number) }
{
    let mut buffer = Buffer::new();
    out.extend_from_slice(buffer.format(number).as_bytes())
}

/// Appends the line of each test.
fn write_tests(all: &[Found], out: &mut Vec<u8>) -> Result<(), AllocError>
    ensures { OnOk result (out.new.items ≡ out.old.items ++ flat_map (test_line all.now) ALL) }
{
    'tests: for test in Test::ALL.iter() {
        write_test(*test, all, out)?;
    }
    Ok(())
}

/// Appends the line of a test.
fn write_test(test: Test, all: &[Found], out: &mut Vec<u8>) -> Result<(), AllocError>
    ensures { OnOk result (out.new.items ≡ out.old.items ++ test_line all.now test) }
{
    out.extend_from_slice(b"infeasible ")?;
    write_line(test.name(), count_of(Found::Infeasible(test), all), out)
}

/// How often this stands among them.
fn count_of(found: Found, all: &[Found]) -> usize
    ensures { result ≡ the_count_of found all.now }
{
    let mut count = 0;
    'all: for other in all {
        if found.is_same(*other) {
            count += 1;
        }
    }
    count
}
