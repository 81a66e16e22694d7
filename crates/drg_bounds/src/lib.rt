//! The feasibility tests on the eigenvalues of an intersection array.
//!
//! `multiplicities`, `krein_signs` and `absolute` give the first failing claim of the tests mult, krein
//! and absolute, and None exactly where no claim of theirs fails. `absolute` names the first quantity
//! with a work number above `2^127 - 1` in magnitude where it comes before a failing claim.
//!
//! The order of claims stands in `drg_array`, frames in `drg_matrices`, and Krein parameters in
//! `drg_krein`. What it is to fail the tests stands in `specs/Multiplicities.antt`,
//! `specs/KreinSigns.antt` and `specs/AbsoluteBound.antt`, and when the sums of `absolute` fit in
//! `specs/AbsoluteFits.antt`.
#![tactic(auto)]

mod absolute_bound;
mod mult;
mod signs;
mod sums;
#[cfg(test)]
mod tests;

pub use absolute_bound::absolute;
pub use mult::multiplicities;
pub use signs::krein_signs;
