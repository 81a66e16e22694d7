//! Finite graphs, and what belonging to an intersection array means: the bottom of every answer that speaks of graphs.
//!
//! The definitions stand in `specs/Graph.antt`: a finite simple graph as a list of vertices and a list of pairs,
//! walks, distances, distance-regular with an array, and `NoGraph`, that no finite graph belongs to an array. Counts
//! are plain counts over the list of vertices, and nothing bounds how many there are. No graph is ever built.
//!
//! The functions below do nothing. Each carries a law as its clause, and calling it brings the law to a proof. The
//! laws of distances exclude arrays by their entries; those of sizes and rows say that the numbers made from the
//! entries are counts in every graph of the array; those of parity count pairs and triangles. At the end stand a test
//! that is true exactly of the graphs of an array, and six graphs that pass it, so that the definition isn't empty.
#![tactic(auto)]

ghost use Rattle.drg_graph.specs.DistanceLaws.{AdjacentLaw, ShortestLaw, MetricLaw};
ghost use Rattle.drg_graph.specs.DistanceLaws.{DistancesLaw, ValencyLaw, EqualLaw, FirstLaw, DegreeLaw, OrderLaw, CrossLaw};
ghost use Rattle.drg_graph.specs.SizeLaws.{SpheresLaw, SizesLaw, VerticesLaw, SizeLaw};
ghost use Rattle.drg_graph.specs.RowLaws.{CountsLaw, RowsLaw, IntersectLaw};
ghost use Rattle.drg_graph.specs.ParityLaws.{HandshakeLaw, InducedLaw, TrianglesLaw};
ghost use Rattle.drg_graph.specs.NumberLaws.{SizesAreCounts, VertexCountIsCount, NumbersAreCounts, CountingClaimsLaw};
ghost use Rattle.drg_graph.specs.Witness.{CheckLaw, OneArrayLaw, PetersenLaw, HeptagonLaw};
ghost use Rattle.drg_graph.specs.Witness.{EdgeLaw, CompleteLaw, OctahedronLaw, CubeLaw};

/// Two numbers are adjacent exactly where they are different vertices and their pair stands in the list of edges, in
/// one order or the other.
pub fn adjacent_law()
    ensures { AdjacentLaw }
{}

/// The distance is the length of a shortest walk.
pub fn shortest_law()
    ensures { ShortestLaw }
{}

/// Two vertices have at most one distance; it is 0 only from a vertex to itself and 1 only between neighbours, it is
/// symmetric, and it meets the triangle inequality.
pub fn metric_law()
    ensures { MetricLaw }
{}

/// In a graph of an array, all distances from 0 to d occur at every vertex.
pub fn distances_law()
    ensures { DistancesLaw }
{}

/// Each vertex has `b_0` neighbours.
pub fn valency_law()
    ensures { ValencyLaw }
{}

/// Of two vertices at distance i, the second has `a_i = b_0 - b_i - c_i` neighbours at distance i from the first.
pub fn equal_law()
    ensures { EqualLaw }
{}

/// An array with `c_1` other than 1 has no graph.
pub fn first_law()
    ensures { FirstLaw }
{}

/// An array with a negative `a_i` has no graph.
pub fn degree_law()
    ensures { DegreeLaw }
{}

/// An array has no graph where some `b_i` is below `b_(i+1)`, or some `c_i` above `c_(i+1)`.
pub fn order_law()
    ensures { OrderLaw }
{}

/// An array has no graph where `c_i` is above `b_j` for some i and j with `i + j` at most d.
pub fn cross_law()
    ensures { CrossLaw }
{}

/// The numbers of vertices at distance 0 to d from any vertex are sizes of the array.
pub fn spheres_law()
    ensures { SpheresLaw }
{}

/// Whole sizes of the array are these numbers, at each vertex.
pub fn sizes_law()
    ensures { SizesLaw }
{}

/// The sum of the sizes is the number of vertices.
pub fn vertices_law()
    ensures { VerticesLaw }
{}

/// An array with a size that isn't whole has no graph.
pub fn size_law()
    ensures { SizeLaw }
{}

/// For each two vertices at distance h, the numbers of vertices at distance i from the one and j from the other are
/// rows of intersection numbers with upper index h.
pub fn counts_law()
    ensures { CountsLaw }
{}

/// Whole rows of intersection numbers with upper index h are these numbers, for each two vertices at distance h by
/// themselves.
pub fn rows_law()
    ensures { RowsLaw }
{}

/// An array with an intersection number that isn't whole, or is negative, has no graph.
pub fn intersect_law()
    ensures { IntersectLaw }
{}

/// An array has no graph where `n k_i` is odd for some i from 1.
pub fn handshake_law()
    ensures { HandshakeLaw }
{}

/// An array has no graph where `k_i p^i_ij` is odd for some j from 1.
pub fn induced_law()
    ensures { InducedLaw }
{}

/// An array has no graph where 6 doesn't divide `n k_i p^i_ii` for some i from 1.
pub fn triangles_law()
    ensures { TrianglesLaw }
{}

/// The rational size `k_i` of an array is the number of vertices at distance i from any vertex of a graph of it.
pub fn sizes_are_counts()
    ensures { SizesAreCounts }
{}

/// The rational sum n of the sizes is the number of vertices.
pub fn vertex_count_is_count()
    ensures { VertexCountIsCount }
{}

/// The rational intersection number `p^h_ij` is, for each two vertices at distance h, the number of vertices at distance
/// i from the one and j from the other.
pub fn numbers_are_counts()
    ensures { NumbersAreCounts }
{}

/// An array that fails a claim of the tests first, degree, order, cross, size, intersect, handshake, induced or triangles
/// has no graph.
pub fn counting_claims_law()
    ensures { CountingClaimsLaw }
{}

/// A graph is distance-regular with an array exactly where a test says so that goes over all ordered pairs of vertices.
pub fn check_law()
    ensures { CheckLaw }
{}

/// A graph is distance-regular with one array at most.
pub fn one_array_law()
    ensures { OneArrayLaw }
{}

/// The Petersen graph belongs to `{3,2;1,1}`.
pub fn petersen_law()
    ensures { PetersenLaw }
{}

/// The heptagon belongs to `{2,1,1;1,1,1}`.
pub fn heptagon_law()
    ensures { HeptagonLaw }
{}

/// The complete graph on two vertices belongs to `{1;1}`.
pub fn edge_law()
    ensures { EdgeLaw }
{}

/// The complete graph on four vertices belongs to `{3;1}`.
pub fn complete_law()
    ensures { CompleteLaw }
{}

/// The octahedron belongs to `{4,1;1,4}`.
pub fn octahedron_law()
    ensures { OctahedronLaw }
{}

/// The cube belongs to `{3,2,1;1,2,3}`.
pub fn cube_law()
    ensures { CubeLaw }
{}
