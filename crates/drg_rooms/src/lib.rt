//! The lines of a derivation that close a system branch by branch: `comb`, `low`, `high`, `split`,
//! `miss`, `mod` and `void`.
//!
//! What a line asks of the equations made before it and of the open branches is a list of steps,
//! conditions and work numbers, in the order in which they decide (specs/Lines.antt), and the first
//! step that fails decides. Lines that are met keep every solution in an open branch, so lines that
//! close every branch leave no solution (specs/Laws.antt).
#![tactic(auto)]

mod branches;
mod combinations;
mod equation_list;
mod fault;
mod laws;
mod looks;
mod moduli;
mod refusal;
mod trail;
mod values;

pub use branches::Branches;
pub use fault::RoomFault;
pub use laws::{closing_law, combination_law, hand_law, keeping_law, one_step_law};

#[cfg(test)]
mod tests;
