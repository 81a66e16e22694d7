//! Graphs as lists of edges, and the array of the graph that such a list gives.
//!
//! `read_graph` takes exactly the texts of the grammar in `specs/Text.antt`, and names the first
//! line of every other one that isn't as it should be. `array_of` gives the intersection array of a
//! graph, or says why it has none: two pairs of vertices at one distance with different counts, two
//! vertices without a distance, or a distance that no array has.
//!
//! The answer is said in `specs/Answers.antt`, over the definition of a distance-regular graph in
//! drg_graph. A graph has one answer, so it is distance-regular with an array exactly where the
//! answer is this array.
#![tactic(auto)]

mod answer;
mod fault;
mod graph;
mod laws;
mod layers;
mod reading;
mod references;
mod regular;
mod search;
mod vertex_set;

pub use answer::GraphAnswer;
pub use fault::GraphFault;
pub use graph::Graph;
pub use laws::{answer_law, edge_text_law};
pub use reading::read_graph;
pub use search::array_of;

#[cfg(test)]
mod tests;
