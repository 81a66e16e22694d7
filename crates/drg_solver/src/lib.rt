//! The search for solutions of a system of equations between triple intersection numbers.
//!
//! [`solve`] searches the room of a system depth first. It gives a solution; or the lines of a
//! derivation that close every branch, so that the system has no solution; or, where its budget of
//! branches is spent, the splits that it made. A branch is the whole room or one side of a split, and
//! its room, a leaf, stays as it is until it closes or is divided.
//!
//! A leaf closes in one step where an equation misses, fails modulo some number, or where two
//! equations leave an unknown no value. [`solve`] divides no leaf that closes so.
//!
//! For the other leaves lines that close them, values that solve the system, and divisions are
//! proposed: by bounds that are tightened row by row, and by a bounded search for values. Nothing is
//! known of a proposal before it is tried: lines are taken by the rules of drg_rooms, and values are
//! judged by the system.
//!
//! What the answers mean stands in `specs/Answers.antt`: the lines of a closing by the rules of
//! drg_rooms, the splits of a search that is spent by the live splits of drg_linear.
#![tactic(auto)]

mod closes;
mod closing;
mod dive;
mod finding;
mod leaf;
mod lines;
mod modulus;
mod needed;
mod one_step;
mod outcome;
mod proposal;
mod pruning;
mod rows;
mod search;
mod stop;
mod sums;
mod table;
mod tighten;
mod values;

pub use outcome::Outcome;
pub use search::solve;

#[cfg(test)]
mod systems;
#[cfg(test)]
mod tests;
