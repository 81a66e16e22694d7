//! Samples of arrays: arrays that a seed generates, and the summary of what was found of them.
//!
//! [`generate`] draws arrays of diameter 2 or 3 from a seed (`specs/Draws.antt`, `specs/Generated.antt`):
//! the same ones whenever the seed is the same, and each after the draws of the one before. [`render_summary`]
//! tells how many arrays were found to be what (`specs/Summary.antt`). Its numbers add up to the number of
//! arrays (`specs/Laws.antt`).
#![tactic(auto)]

mod generator;
mod laws;
mod summary;

pub use generator::generate;
pub use laws::sample_law;
pub use summary::{Found, render_summary};

#[cfg(test)]
mod tests;
