//! The feasibility tests on an intersection array that need counts alone.
//!
//! Each call gives the first failing claim of its tests, and None exactly where no claim of them
//! fails. The order of claims, and what it is to fail one, stand in `drg_array`; which claims each
//! call looks at in `specs/EntryTests.antt` and `specs/Parity.antt`.
#![tactic(auto)]

mod divisibility;
mod entries;
mod indices;

pub use divisibility::parity;
pub use entries::basic;

#[cfg(test)]
mod tests;
