//! Intersection arrays and their texts, and the names of tests, claims and computed quantities.
//!
//! `Array::read` takes exactly the texts of the grammar in `specs/Text.antt`, and refuses every
//! other one with the place and the kind that `specs/Faults.antt` gives it by that grammar alone.
//! The sizes and intersection numbers of an array stand in `specs/Numbers.antt`, as rationals, and
//! the conditions of tests 1 to 9 over them in `specs/Conditions.antt`.
#![tactic(auto)]

mod array;
mod claim;
mod claim_name;
mod fault;
mod laws;
mod limits;
mod node;
mod numbers;
mod reading;
mod test;
mod test_set;

pub use array::Array;
pub use claim::{Claim, Class};
pub use claim_name::{ClaimName, REPLAYED};
pub use fault::{ArrayFault, ArrayKind};
pub use laws::{claim_law, limit_law, test_law, test_list_law, text_law};
pub use limits::{MAX_DIAMETER, MAX_ENTRY, MAX_INDICES};
pub use node::Node;
pub use numbers::{condition_law, example_law, number_law};
pub use test::Test;
pub use test_set::{BUILT, TestSet};

#[cfg(test)]
mod tests;
