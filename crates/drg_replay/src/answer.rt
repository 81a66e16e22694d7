//! The answers that aren't Ok.

/// Why a derivation isn't accepted. Lines are numbered from 1, the line `drg 1`.
#[derive(Clone, Copy, Debug, PartialEq, Eq)]
pub enum ReplayFault {
    /// The condition of this line fails.
    NotMet { line: u64 },
    /// All lines are met, and at this line, the end, the claim isn't closed.
    Open { line: u64 },
    /// A work number of this line passes 2^127-1.
    Wide { line: u64 },
    /// Memory ran out.
    Memory,
}
