//! Where a test with two indices fails.

/// The indices at which a test fails.
#[derive(Clone, Copy)]
pub struct TwoIndices {
    pub i: u8,
    pub j: u8,
}
