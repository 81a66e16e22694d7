//! The questions that come before a table of arrays.
//!
//! `census` gives exactly the arrays of a diameter, a valency and a number of vertices that meet the
//! conditions of tests 1 to 9. It builds them entry by entry, and leaves a beginning as soon as the order
//! of the entries, the sizes or the number of vertices rule it out.
//!
//! `classical` gives exactly the classical parameters (d, b, alpha, beta) of an array whose b is whole and
//! at most the valency in magnitude, or names the b that can't be decided within 128 bits.
//!
//! `specs/Census.antt` says what a census is, by all arrays and the conditions alone, and
//! `specs/Begins.antt` what its search keeps. `specs/Classical.antt` says what classical parameters are,
//! `specs/ClassicalWork.antt` which work numbers a base takes in which order, and
//! `specs/ClassicalRows.antt` which rows an array has.
#![tactic(auto)]

mod bases;
mod beginning;
mod laws;
mod member;
mod parameters;
mod search;

pub use bases::{ClassicalRow, classical};
pub use laws::{census_law, classical_law};
pub use search::census;

#[cfg(test)]
mod tests;
