//! What the lines so far settle of the numbers in those that follow.

ghost use Rattle.std.specs.Prelude.{◌≡◌, ◌↔◌, IsTrue};
ghost use Rattle.drg_derivation.specs.Shapes.{AreTwice, context_after, first_context, form_of, HasTail, Suits, width_of};

use crate::kind::{Kind, Tail};

/// What the lines so far settle of the numbers in those that follow.
#[derive(Clone, Copy, Debug, PartialEq, Eq)]
pub struct Context {
    /// The version of the text.
    pub version: u8,
    /// The diameter of the array.
    pub d: u8,
    /// How many numbers write a field number, by the last `frame` line.
    pub width: u8,
}

impl Context {
    /// Before any `frame` line.
    pub(crate) fn start(version: u8, d: u8) -> Context
        ensures { result ≡ first_context version d }
    {
        Context {
            version,
            d,
            width: field_width(0),
        }
    }

    /// After a line of this kind with this first number.
    pub(crate) fn after(self, kind: Kind, first: i128) -> Context
        ensures { result ≡ context_after self kind first }
    {
        match kind {
            Kind::Frame => Context {
                width: field_width(first),
                ..self
            },
            _ => self,
        }
    }

    /// Whether a line of this kind with this first number may have so many numbers.
    pub(crate) fn suits(self, kind: Kind, first: i128, count: usize) -> bool
        ensures { IsTrue result ↔ Suits self (form_of kind) first count }
    {
        let shape = kind.shape();
        shape.since <= self.version
            && shape.leading <= count
            && self.has_tail(shape.tail, first, count - shape.leading)
    }

    /// Whether so many numbers may follow the leading ones, of which this is the first.
    fn has_tail(self, tail: Tail, first: i128, count: usize) -> bool
        ensures { IsTrue result ↔ HasTail self tail first count }
    {
        let row = usize::from(self.d) + 1;
        let width = usize::from(self.width);
        match tail {
            Tail::Nothing => count == 0,
            Tail::Sizes => 1 <= count && count <= row,
            Tail::Row => count == row,
            Tail::FieldNumber => count == width,
            Tail::FieldRow => count == width * row,
            Tail::Pairs => are_twice(first, count),
        }
    }
}

/// How many numbers write a field number over this root.
fn field_width(root: i128) -> u8
    ensures { result ≡ width_of root }
{
    if root == 0 { 2 } else { 4 }
}

/// Whether so many numbers are m pairs, where m is at least 1.
fn are_twice(m: i128, count: usize) -> bool
    ensures { IsTrue result ↔ AreTwice m count }
{
    m >= 1 && count % 2 == 0 && m == (count / 2) as i128
}
