//! Triple intersection numbers of a graph: how many vertices are at three distances from three
//! vertices (Vidali 2018).
//!
//! The three vertices of a type whose intersection number isn't 0 exist in every graph of the array,
//! and their triple intersection numbers solve the counting equations of the type, within its high
//! bounds (specs/Laws.antt). So an array with such a type and no solution has no graph. The unknowns
//! of the equations stand at places, and each place below d³ is that of one unknown
//! (specs/Places.antt).
//!
//! The functions below do nothing. Each carries a law as its clause, and calling it brings the law to
//! a proof.
#![tactic(auto)]

mod laws;

pub use laws::{exist_law, no_solution_law, place_law, system_law};
