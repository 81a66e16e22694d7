//! What the lines of a derivation come to.
use crate::known::Known;
use crate::refusal::Refusal;

/// What the lines so far come to.
#[derive(Debug, Drop)]
pub enum Progress {
    /// Each of them is met, and this is known.
    AllMet(Known),
    /// The first line that decides, by its number.
    Decided { refusal: Refusal, line: u64 },
}
