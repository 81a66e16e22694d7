//! The first pair at each distance, and the pairs that differ from it.

ghost use Rattle.std.specs.Prelude.{◌≡◌, ◌<◌, ◌≢◌, ℕ, suc, Some, length, IfSome, IfNone, MatchOption};
ghost use Rattle.drg_graph.specs.Graph.{Graph as TheGraph};
ghost use Rattle.drg_edges.specs.Layers.{AreLayers, AreRows};
ghost use Rattle.drg_edges.specs.Pairs.{HasDistances};
ghost use Rattle.drg_edges.specs.References.{AreAlike, AreCounts, AreReferences, IsFirstDifference, reference_of};

use crate::Graph;
use crate::layers::Layers;
use crate::vertex_set::VertexSet;

/// How many neighbours of the second vertex of a pair are one step nearer to the first, and how
/// many are one step further.
#[derive(Clone, Copy, PartialEq, Eq)]
pub struct Counts {
    pub down: u16,
    pub up: u16,
}

/// The first pair at a distance, with its counts.
#[derive(Clone, Copy)]
pub struct Reference {
    pub x: u16,
    pub y: u16,
    pub counts: Counts,
}

/// A pair that differs from the reference of its distance.
#[derive(Clone, Copy)]
pub struct Difference {
    pub reference: Reference,
    pub y: u16,
    pub distance: u16,
    pub counts: Counts,
}

/// The counts of the pair of x, from which the layers are, and y at this distance.
fn counts_at(rows: &[VertexSet], layers: &Layers, y: usize, distance: usize) -> Counts
    requires y { y < length rows.now }
    requires distance { suc distance < length layers.now.sets.items }
    ensures { (g : TheGraph) (x : ℕ) → AreRows g rows.now → AreLayers g x layers.now →
        AreCounts g distance x y result }
{
    let row = &rows[y];
    Counts {
        down: if distance == 0 {
            0
        } else {
            row.common(&layers.sets[distance - 1])
        },
        up: row.common(&layers.sets[distance + 1]),
    }
}

/// Notes the pair as the reference of its distance where there is none yet. Gives the reference
/// where the pair differs from it.
fn settle(
    references: &mut [Option<Reference>],
    distance: usize,
    found: Reference,
) -> Option<Reference>
    requires { distance < length references.old }
    ensures length { length references.new ≡ length references.old }
    ensures others { (i : ℕ) → i ≢ distance →
        reference_of references.new i ≡ reference_of references.old i }
    ensures noted { MatchOption (reference_of references.old distance)
        (reference_of references.new distance ≡ Some found)
        (λ first. reference_of references.new distance ≡ Some first) }
    ensures result { MatchOption result
        (IfSome (reference_of references.old distance) (λ first. first.counts ≡ found.counts))
        (λ first. (reference_of references.old distance ≡ Some first)
        × (first.counts ≢ found.counts)) }
{
    let Some(first) = references[distance] else {
        references[distance] = Some(found);
        return None;
    };
    if first.counts == found.counts {
        None
    } else {
        Some(first)
    }
}

/// Compares the pairs that begin with x, from which the layers are, with the references, and notes
/// those that are the first at their distance. Gives the first that differs.
pub fn compare(
    graph: &Graph,
    rows: &[VertexSet],
    layers: &Layers,
    x: u16,
    references: &mut [Option<Reference>],
) -> Option<Difference>
    requires rows { AreRows graph.now rows.now }
    requires x { x < length rows.now }
    requires layers { AreLayers graph.now x layers.now }
    requires connected { HasDistances graph.now }
    requires length { length references.old ≡ length rows.now }
    requires references { AreReferences graph.now x 0 references.old }
    requires alike { AreAlike graph.now x 0 }
    ensures length { length references.new ≡ length references.old }
    ensures references { IfNone result (AreReferences graph.now (suc x) 0 references.new) }
    ensures alike { IfNone result (AreAlike graph.now (suc x) 0) }
    ensures difference { IfSome result (IsFirstDifference graph.now x) }
{
    'vertices: for y in 0..graph.count() {
        let distance = layers.distance(usize::from(y));
        let counts = counts_at(rows, layers, usize::from(y), usize::from(distance));
        let found = Reference { x, y, counts };
        if let Some(reference) = settle(references, usize::from(distance), found) {
            return Some(Difference {
                reference,
                y,
                distance,
                counts,
            });
        }
    }
    None
}
