//! What is wrong with an array text, and where.

/// What is wrong with an array text. No array text begins with the bytes up to and with the one at
/// the fault, and this is its first byte with that property; where there is none, the fault is just
/// past the last byte.
#[derive(Clone, Copy, Debug, PartialEq, Eq)]
pub struct ArrayFault {
    /// The place of the byte, counted from 1.
    pub at: u64,
    pub kind: ArrayKind,
}

/// What the byte at the fault is.
#[derive(Clone, Copy, Debug, PartialEq, Eq)]
pub enum ArrayKind {
    /// None of the others, or the end of the text.
    Syntax,
    /// A `0` where a number begins.
    Zero,
    /// A digit that takes a number past `MAX_ENTRY`.
    Large,
    /// A comma after as many numbers as stand before the semicolon, or `}` after fewer.
    Lengths,
    /// A comma after `MAX_DIAMETER` numbers before the semicolon.
    Long,
}
