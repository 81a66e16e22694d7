//! The vertices at each distance from one.

ghost use Rattle.std.specs.Prelude.{◌≡◌, ◌≢◌, ◌≤◌, ◌<◌, ◌==◌, ◌&&◌, ◌||◌, ℕ, true, not, None, Some, if◌then◌else◌, length, IfOk};
ghost use Rattle.std.specs.List.{AllByRecursion};
ghost use Rattle.drg_edges.specs.Text.{IsPair};
ghost use Rattle.drg_edges.specs.Layers.{AreLayers, AreRows, are_joined, has_neighbour, noted_at, set_at};
ghost use Rattle.drg_edges.specs.VertexSets.{holds};

use crate::Graph;
use crate::vertex_set::VertexSet;
use std::alloc::{AllocError, Global};

/// The neighbours of each vertex.
pub fn rows_of(alloc: Global, graph: &Graph) -> Result<Vec<VertexSet>, AllocError>
    ensures { IfOk result (λ rows. AreRows graph.now rows.items) }
{
    let mut rows = vec![in alloc; VertexSet::empty(); usize::from(graph.count())]?;
    join_all(&mut rows, graph.pairs());
    Ok(rows)
}

/// Notes the vertices of each pair as neighbours.
fn join_all(rows: &mut [VertexSet], pairs: &[(u16, u16)])
    requires few { length rows.old ≤ 2000 }
    requires pairs { AllByRecursion (IsPair (length rows.old)) pairs.now }
    ensures length { length rows.new ≡ length rows.old }
    ensures hold { (u v : ℕ) → holds (set_at rows.new u) v ≡
        (are_joined pairs.now u v || holds (set_at rows.old u) v) }
{
    'pairs: for (x, y) in pairs {
        join(rows, usize::from(*x), usize::from(*y));
        join(rows, usize::from(*y), usize::from(*x));
    }
}

/// Notes y as a neighbour of x.
fn join(rows: &mut [VertexSet], x: usize, y: usize)
    requires x { x < length rows.old }
    requires y { y < 2048 }
    ensures length { length rows.new ≡ length rows.old }
    ensures hold { (u v : ℕ) → holds (set_at rows.new u) v ≡
        (x == u && y == v || holds (set_at rows.old u) v) }
{
    rows[x].insert(y);
}

/// The vertices by their distance from one.
#[derive(Drop)]
pub struct Layers {
    /// The vertices at distance 0, 1, .. up to the greatest, and then a set without any.
    pub sets: Vec<VertexSet>,
    /// The distance of each vertex.
    pub distances: Vec<Option<u16>>,
}

impl Layers {
    /// The distance of a vertex that has one.
    pub fn distance(&self, v: usize) -> u16
        requires inside { v < length self.now.distances.items }
        requires noted { noted_at self.now.distances.items v ≢ None }
        ensures { noted_at self.now.distances.items v ≡ Some result }
    {
        let Some(distance) = self.distances[v] else {
            unreachable!();
        };
        distance
    }
}

/// The vertices of a graph by their distance from x.
pub fn layers_from(
    alloc: Global,
    graph: &Graph,
    rows: &[VertexSet],
    x: usize,
) -> Result<Layers, AllocError>
    requires rows { AreRows graph.now rows.now }
    requires x { x < length rows.now }
    ensures { IfOk result (AreLayers graph.now x) }
{
    let mut sets = Vec::new(alloc);
    let mut distances = vec![in alloc; None; usize::from(graph.count())]?;
    let mut seen = VertexSet::empty();
    seen.insert(x);
    let mut layer = seen;
    'layers: while layer.next_member(0).is_some() {
        let distance = sets.len() as u16;
        let next = visit(rows, &layer, distance, &seen, &mut distances);
        sets.push(layer)?;
        seen.unite(&next);
        layer = next;
    }
    sets.push(layer)?;
    Ok(Layers { sets, distances })
}

/// The neighbours of a layer that aren't seen. Notes the distance of the vertices in the layer.
fn visit(
    rows: &[VertexSet],
    layer: &VertexSet,
    distance: u16,
    seen: &VertexSet,
    distances: &mut [Option<u16>],
) -> VertexSet
    requires most { length rows.now ≤ 2000 }
    requires length { length distances.old ≡ length rows.now }
    requires layer { (v : ℕ) → holds layer.now v ≡ true → v < length rows.now }
    ensures next { (u : ℕ) → holds result u ≡
        (has_neighbour rows.now layer.now u && not (holds seen.now u)) }
    ensures length { length distances.new ≡ length distances.old }
    ensures noted { (v : ℕ) → noted_at distances.new v ≡
        (if holds layer.now v then Some distance else noted_at distances.old v) }
{
    let mut next = VertexSet::empty();
    let mut from = 0;
    'members: while let Some(v) = layer.next_member(from) {
        next.unite(&rows[v]);
        distances[v] = Some(distance);
        from = v + 1;
    }
    next.remove(seen);
    next
}
