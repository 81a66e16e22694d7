//! The answer on a graph.

use drg_array::Array;

/// Whether a graph is distance-regular: its array, or why it has none. Pairs of vertices are
/// ordered, and taken in lexicographic order.
#[derive(PartialEq, Eq, Debug, Drop)]
pub enum GraphAnswer {
    /// The graph is distance-regular with this array.
    Array(Array),
    /// There is one vertex only.
    Single,
    /// The first pair without a distance.
    Apart {
        x: u32,
        y: u32,
    },
    /// The first pair at a distance, and the first pair of all whose counts differ from those of
    /// the first at its distance: of the neighbours of y one step nearer to x or, where `up` is
    /// true and those agree, one step further. `first` is this count of the first pair, and
    /// `second` that of the other.
    Differ {
        x: u32,
        y: u32,
        x2: u32,
        y2: u32,
        distance: u32,
        up: bool,
        first: u32,
        second: u32,
    },
    /// The first pair one step further apart than an array allows.
    Far {
        x: u32,
        y: u32,
    },
}
