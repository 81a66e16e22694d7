//! The sizes, the number of vertices and the intersection numbers of an array, as whole numbers.
//!
//! Every array has them as rationals, defined in drg_array. `numbers_of` gives them where all are whole,
//! no intersection number is negative, and no number on the way is above 2^127 - 1 in magnitude. Else it
//! names the first number that fails, in the order k_0 to k_d, n, then p^h_ij by h, i and j.
//! `numbers_or_before` gives besides the numbers before it, so that nobody makes them twice.
//!
//! `specs/Numbers.antt` says what the numbers of an array are, `specs/FirstNumbers.antt` what the numbers
//! before one that fails are, `specs/Fits.antt` when the formula of a number fits, and
//! `specs/Faults.antt` which number is the first that fails.
#![tactic(auto)]

mod fault;
mod laws;
mod numbers;
mod sizes;
mod table;
mod terms;

pub use fault::NumbersFault;
pub use laws::{fault_law, table_law};
pub use numbers::{FirstNumbers, Numbers, Shortfall, numbers_of, numbers_or_before};

#[cfg(test)]
mod tests;
