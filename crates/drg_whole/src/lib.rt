//! Whole numbers of magnitude at most `2^127 - 1`, checked.
//!
//! `Whole` is such a number. Each operation gives the exact value, or refuses with `Wide`, and it
//! refuses exactly where a number that it makes has magnitude above `2^127 - 1`. Besides sums, products
//! and divisions there are the sum of products from left to right, over factors that may be any `i128`,
//! and residues, which never are too wide. No call takes memory.
//!
//! The range and the form of an answer stand in `specs/Range.antt`, sums and their fit in
//! `specs/Sums.antt`, quotients, floors and multiples in `specs/Division.antt`, residues in
//! `specs/Residues.antt`.
#![tactic(auto)]

mod divisor;
mod product;
mod residue;
#[cfg(test)]
mod tests;
mod whole;

pub use divisor::gcd;
pub use product::{Product, sum_onto};
pub use residue::Residue;
pub use whole::{Whole, Wide};
