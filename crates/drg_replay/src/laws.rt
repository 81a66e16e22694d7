//! The laws of the answer and of met lines.
ghost use Rattle.drg_replay.specs.RationalRoots.{RationalRootLaw};
ghost use Rattle.drg_replay.specs.Roots.{RootLaw};
ghost use Rattle.drg_replay.specs.Laws.{ClassLaw, KnownAloneLaw, KnownKreinLaw, KnownRowsLaw, KnownSizesLaw, ReplayedLaw};
ghost use Rattle.drg_replay.specs.Spectral.{SpectralLaw};
ghost use Rattle.drg_replay.specs.Soundness.{ClosedRoomsLaw, GraphLaw, MetRowsLaw, MetSizesLaw};

use drg_graph::{
    cross_law, degree_law, first_law, handshake_law, induced_law, intersect_law, order_law,
    rows_law, size_law, sizes_law, triangles_law,
};

/// A claim line is met for the claims alone that a replay knows, and each of these can be.
pub fn replayed_law()
    ensures { ReplayedLaw }
{}

/// The class of an accepted derivation is spectral exactly where a `frame` line stands.
pub fn class_law()
    ensures { ClassLaw }
{}

/// A derivation that is accepted by counting rules alone excludes every graph.
pub fn graph_law()
    ensures { GraphLaw }
{
    first_law();
    degree_law();
    order_law();
    cross_law();
    size_law();
    intersect_law();
    handshake_law();
    induced_law();
    triangles_law();
    closed_rooms_law();
}

/// Lines that are met and close all rooms of the type of triples of their claim exclude every graph.
pub fn closed_rooms_law()
    ensures { ClosedRoomsLaw }
{}

/// The written numbers of a derivation that is accepted with a frame are a frame of its array, and
/// its condition fails at them.
pub fn spectral_law()
    ensures { SpectralLaw }
{}

/// What lines come to after others depends on what those make known alone, up to the numbers of the
/// lines.
pub fn known_alone_law()
    ensures { KnownAloneLaw }
{}

/// The sizes that are known are those of the `k` line, and in a graph that has the array they are
/// the counts of vertices at each distance, at each vertex.
pub fn met_sizes_law()
    ensures stated { KnownSizesLaw }
    ensures counts { MetSizesLaw }
{
    sizes_law();
}

/// The rows of h that are known are those of its `p` lines, and in a graph that has the array their
/// numbers are the counts of vertices at two distances from two vertices, for each two vertices at
/// distance h.
pub fn met_rows_law()
    ensures stated { KnownRowsLaw }
    ensures counts { MetRowsLaw }
{
    rows_law();
}

/// The Krein parameters that are known of two indices are the numbers of their `krein` line.
pub fn known_krein_law()
    ensures { KnownKreinLaw }
{}

/// The root of a met `frame` line is 0, or squarefree above 1 and below 2^32, and each such number
/// is taken.
pub fn root_law()
    ensures { RootLaw }
{}

/// Over root 0 the values of a derivation are fractions, and their sums, differences, products and
/// signs fit exactly where those of the fractions do.
pub fn rational_root_law()
    ensures { RationalRootLaw }
{}
