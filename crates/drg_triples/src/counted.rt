//! Which vertices a counting equation counts.

use drg_linear::Vertex;

/// The counting equation of a vertex and two distances, each from 1 to d: it counts the vertices at
/// distances x and y from the two other vertices of the triple, in their order, by their distance from
/// this one.
#[derive(Clone, Copy, Debug, PartialEq, Eq)]
pub(crate) struct Counted {
    pub vertex: Vertex,
    pub x: u8,
    pub y: u8,
}
