//! The live types of triples of vertices of an array, and the counting system of each.
//!
//! `types` lists exactly the live types. `counting_system` makes the system of one: each unknown is
//! from 0 to its high bound, and each counting equation has the name of its line. Where an equation
//! doesn't fit, the first that doesn't is named. In a graph of the array three vertices of each live
//! type exist, and their triple intersection numbers solve its system (`graph_law`).
//!
//! `specs/LiveTypes.antt` says what a live type is, `specs/Counting.antt` what the system is and when an
//! equation fits, `specs/Faults.antt` which equation a fault names, and `specs/Laws.antt` has the laws.
//! The equations themselves are defined in `drg_linear`.
#![tactic(auto)]

mod counted;
mod counting;
mod fault;
mod laws;
mod live_types;
mod room;
#[cfg(test)]
mod tests;

pub use counting::counting_system;
pub use drg_linear::TripleType;
pub use fault::TripleFault;
pub use laws::{fault_law, graph_law, solution_law};
pub use live_types::types;
