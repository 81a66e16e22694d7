//! Linear equations over the triple intersection numbers of a type, and rooms for them.
//!
//! An [`Equation`] has terms, a coefficient for each of some [`Unknown`]s, and a right side. A
//! [`System`] is a [`Room`], which gives each unknown a low and a high bound, and equations that fit
//! over it, each with its name; [`holds`] says whether an [`Assignment`] solves it. No call but
//! [`System::push`] takes memory.
//!
//! Where lines of a derivation tighten a room, a low bound may come to lie above its high bound, and
//! bounds may be negative. Such rooms are plain pairs in the order of the unknowns, with the least
//! and the greatest sum of terms within them ([`end_sum_onto`]) and quotients rounded up and down.
//!
//! The definitions stand in `specs/`: what an equation comes to at numbers for the unknowns and
//! when it holds (`Equations.antt`), rooms and the sums of terms in them (`Rooms.antt`), what fits
//! over a room (`Systems.antt`), the counting equations of a type and their solutions
//! (`Triples.antt`), the values that an equation leaves to an unknown (`Values.antt`), rooms that
//! close in one step (`Closing.antt`), and live splits (`Splits.antt`). That sums and quotients are
//! what they are for, and that solutions stay within the high bounds, are laws (`Laws.antt`).
#![tactic(auto)]

mod assignment;
mod bounds;
mod equation;
mod laws;
mod room;
mod rounding;
mod system;
mod triple;
mod unknown;

pub use assignment::Assignment;
pub use bounds::{End, bounds_at, end_sum_onto, plus_end};
pub use equation::{Equation, Terms};
pub use laws::{bounds_law, range_law, rounding_law};
pub use room::Room;
pub use rounding::{ceiling, floor};
pub use system::{Branching, EquationName, System, holds};
pub use triple::{TripleType, Vertex};
pub use unknown::Unknown;

#[cfg(test)]
mod tests;
