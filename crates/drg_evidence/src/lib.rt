//! The evidence of a claim: the lines with which its derivation shows that an array fails it.
//!
//! `count_lines` gives the lines of a claim on counts, and `mult_lines` those of a claim on
//! multiplicities. Which lines these are is said in `specs/Lines.antt`, which numbers the lines of a
//! frame state in `specs/FrameLines.antt`, and on which numbers of the array they rest in
//! `specs/Made.antt`. `specs/Laws.antt` has the laws: a derivation with these lines has a text, and
//! the replayer accepts it.
#![tactic(auto)]

mod counts;
mod frame;
mod laws;

pub use counts::count_lines;
pub use frame::mult_lines;
pub use laws::{counts_law, frame_law, mult_law};

#[cfg(test)]
mod tests;
