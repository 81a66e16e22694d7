//! Evidence lines over lent bytes.

ghost use Rattle.std.specs.Prelude.{◌≡◌, ◌≤◌, ◌<◌, ℕ, pos, take, drop, length, slice_index_or, IfOk};
ghost use Rattle.drg_derivation.specs.Lines.{IsMade, kind_of, line_made, numbers_of};

use crate::integers::LineNumbers;
use crate::line::MAX_LEADING;
use crate::written::WrittenLine;
use crate::{Kind, Line, NumberList};
use std::alloc::{AllocError, Global};
use std::marker::Model;

/// An evidence line over lent bytes, with as many numbers as its kind asks for at its place.
#[derive(Debug, Drop)]
pub struct EvidenceView<'a> {
    kind: Kind,
    text: &'a [u8],
    count: usize,
}

impl<'a> Model for EvidenceView<'a> {
    ghost use Rattle.drg_derivation.specs.declared.line.Line.{Line};
    ghost use Rattle.drg_derivation.specs.Lines.{IsLent, line_made};
    ghost use Rattle.drg_derivation.specs.Reading.{integers_in};

    ghost Value = { Line };

    ghost view = { λ e. line_made e.kind (integers_in e.text.now) };

    ghost invariant = { λ e. IsLent e.kind e.text.now e.count };
}

impl<'a> EvidenceView<'a> {
    /// The evidence line of this kind, whose numbers are as many as the kind has.
    pub(crate) fn of(kind: Kind, line: &WrittenLine<'a>) -> EvidenceView<'a>
        requires { IsMade kind line.now.numbers }
        ensures { result ≡ line_made kind line.now.numbers }
    {
        EvidenceView {
            kind,
            text: line.text(),
            count: line.count(),
        }
    }

    /// The kind of the line.
    pub fn kind(&self) -> Kind
        ensures { result ≡ kind_of self.now }
    {
        self.kind
    }

    /// How many numbers the line has.
    pub fn count(&self) -> usize
        ensures { result ≡ length (numbers_of self.now) }
    {
        self.count
    }

    /// The numbers from left to right, in time in proportion to their bytes.
    pub fn numbers(&self) -> LineNumbers<'a>
        ensures { result ≡ numbers_of self.now }
    {
        LineNumbers::new(self.text)
    }

    /// The number at place i, counted from 0. Takes time in proportion to the bytes before it.
    pub fn number(&self, i: usize) -> i128
        requires { i < length (numbers_of self.now) }
        ensures { result ≡ slice_index_or (numbers_of self.now) i (pos 0) }
    {
        self.numbers().nth(i).unwrap_or(0)
    }

    /// The same line, with numbers of its own.
    pub fn to_line(&self, alloc: Global) -> Result<Line, AllocError>
        ensures { IfOk result (λ line. line ≡ self.now) }
    {
        let len = self.kind.shape().leading;
        let mut numbers = self.numbers();
        let leading = take_leading(&mut numbers, len);
        let values = listed(alloc, numbers, self.count - len)?;
        Ok(Line::of(self.kind, leading, NumberList::new(values)))
    }
}

/// So many of the numbers, and 0 for the others that can lead.
fn take_leading(numbers: &mut LineNumbers, len: usize) -> [i128; MAX_LEADING]
    requires few { len ≤ 5 }
    requires within { len ≤ length numbers.old }
    ensures leading { (i : ℕ) → slice_index_or result i (pos 0)
        ≡ slice_index_or (take len numbers.old) i (pos 0) }
    ensures rest { numbers.new ≡ drop len numbers.old }
{
    let mut leading = [0; MAX_LEADING];
    'leading: for place in 0..len {
        leading[place] = numbers.next().unwrap_or(0);
    }
    leading
}

/// The numbers, so many of which are left.
fn listed(alloc: Global, numbers: LineNumbers, len: usize) -> Result<Vec<i128>, AllocError>
    ensures { IfOk result (λ list. list.items ≡ numbers.entry) }
{
    let mut list = Vec::with_capacity(alloc, len)?;
    'numbers: for number in numbers {
        list.push(number)?;
    }
    Ok(list)
}
