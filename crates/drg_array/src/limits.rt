//! The limits of an array and of a claim.

/// The greatest diameter. Every condition on a diameter names it.
pub const MAX_DIAMETER: usize = 12;

/// The greatest entry.
pub const MAX_ENTRY: u16 = 4095;

/// The most indices of a claim.
pub const MAX_INDICES: usize = 3;
