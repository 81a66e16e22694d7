//! Exact values `a + b√root` over a squarefree root.
//!
//! A `Quadratic` has two rational parts, each a `Fraction`, and a root, which is a squarefree number
//! above 1, or 0 where b is 0. It is an exact field: each operation gives the exact value, or refuses
//! with `Wide`, and it refuses exactly where one of the operations on its parts does. No call takes
//! memory but `Quadratic::write_text`.
//!
//! An `Eigenvalue` is a value `(s + f√root)/2` with small whole s and f. Eigenvalues have an exact
//! equality and order, by root first and then by value. In each exact field over the root their values
//! descend where they do, and comparing two by the sign of a difference is never `Wide`.
//! `split_square` writes a number as `f²·root` with a squarefree root.
//!
//! The values and their operations stand in `specs/Values.antt`, on the ring and the order of
//! `drg_algebra`; which operations on fractions each of them takes, in `specs/Work.antt`; the value of a
//! `Quadratic` in `specs/Quadratic.antt`, the operations as those of an exact field in
//! `specs/Operations.antt`, the laws of an exact field in `specs/Laws.antt`, and the text in
//! `specs/Text.antt`. The value and the order of an `Eigenvalue` stand in `specs/Eigenvalue.antt`, and
//! its values in exact fields in `specs/EigenvalueFields.antt`.
#![tactic(auto)]

mod eigenvalue;
mod laws;
mod parts;
mod quadratic;
mod squares;
#[cfg(test)]
mod tests;
mod text;

pub use eigenvalue::Eigenvalue;
pub use laws::{comparisons_fit, eigenvalues_are_ordered, values_descend, zero_by_parts};
pub use quadratic::Quadratic;
pub use squares::split_square;
