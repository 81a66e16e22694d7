//! The types of triples of vertices.

/// The distances of three vertices u, v and w: U is that of v and w, V that of u and w, and W that
/// of u and v.
#[derive(Clone, Copy, Debug, PartialEq, Eq)]
pub struct TripleType {
    pub u: u8,
    pub v: u8,
    pub w: u8,
}

/// One of the three vertices of a triple.
#[derive(Clone, Copy, Debug, PartialEq, Eq)]
pub enum Vertex {
    First,
    Second,
    Third,
}
