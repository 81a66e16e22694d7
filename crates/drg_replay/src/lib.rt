//! Judges a derivation by its written lines alone, without the tables and searches that found it.
//!
//! The answer of a derivation is a definition on the list of its lines (specs/Answers.antt): a line
//! is met, or not, by a list of conditions on what the lines before it make known
//! (specs/Lines.antt), and the first line that decides gives the answer. `replay` gives exactly
//! that answer. A derivation that is accepted with the class Counting excludes every graph, and the
//! numbers of met lines are counts in every graph of the array (specs/Soundness.antt). One that is
//! accepted with the class Spectral writes a frame of its array, at whose numbers the condition of
//! the claim fails (specs/Spectral.antt). What further lines come to depends on what is known
//! before them alone (specs/Laws.antt).
//!
//! The rules that are built are those of the claims first, degree, order, cross, size, intersect,
//! handshake, induced, triangles, mult and triple, and of all lines but `keq`. No other claim or line
//! is met yet.
#![tactic(auto)]

mod answer;
mod claims;
mod counts;
mod eigenmatrix;
mod entries;
mod equations;
mod field_number;
mod frame;
mod index;
mod judge;
mod known;
mod krein_claims;
mod krein_lines;
mod laws;
mod orthogonality;
mod parity;
mod progress;
mod refusal;
mod root;
mod rows;
mod sizes;
mod systems;

pub use answer::ReplayFault;
pub use judge::{Judge, replay};
pub use laws::{
    closed_rooms_law, graph_law, known_alone_law, known_krein_law, met_rows_law, met_sizes_law,
    rational_root_law, replayed_law, root_law, spectral_law,
};

#[cfg(test)]
mod frame_tests;
#[cfg(test)]
mod krein_tests;
#[cfg(test)]
mod room_tests;
#[cfg(test)]
mod tests;
