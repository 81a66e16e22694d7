//! Whether a graph is distance-regular.

ghost use Rattle.std.specs.Prelude.{◌≡◌, ◌<◌, ℕ, length, IfOk, MatchOption, if◌then◌else◌};
ghost use Rattle.drg_edges.specs.Answers.{IsAnswer, IsApart};
ghost use Rattle.drg_edges.specs.Layers.{AreRows};
ghost use Rattle.drg_edges.specs.Pairs.{HasDistances};
ghost use Rattle.drg_edges.specs.References.{IsFirstDifference};

use crate::layers::{layers_from, rows_of};
use crate::references::{Counts, Difference, compare};
use crate::regular::regular;
use crate::vertex_set::VertexSet;
use crate::{Graph, GraphAnswer};
use std::alloc::{AllocError, Global};

/// The array of a graph, or why it has none. The vertices of a pair are those of the text. The one
/// error is want of memory. For each two vertices it goes over three rows of bits, however many
/// edges there are.
pub fn array_of(alloc: Global, graph: &Graph) -> Result<GraphAnswer, AllocError>
    ensures { IfOk result (IsAnswer graph.now) }
{
    let count = graph.count();
    if count == 1 {
        return Ok(GraphAnswer::Single);
    }
    let rows = rows_of(alloc, graph)?;
    if let Some(y) = first_apart(alloc, graph, &rows)? {
        return Ok(GraphAnswer::Apart { x: 0, y });
    }
    let mut references = vec![in alloc; None; usize::from(count)]?;
    'vertices: for x in 0..count {
        let layers = layers_from(alloc, graph, &rows, usize::from(x))?;
        if let Some(difference) = compare(graph, &rows, &layers, x, &mut references) {
            return Ok(differ(graph, x, &difference));
        }
    }
    regular(alloc, graph, &references)
}

/// The first vertex without a distance from 0.
fn first_apart(alloc: Global, graph: &Graph, rows: &[VertexSet]) -> Result<Option<u32>, AllocError>
    requires rows { AreRows graph.now rows.now }
    requires several { 1 < length graph.now.vertices }
    ensures { IfOk result
        (λ found. MatchOption found (HasDistances graph.now) (IsApart graph.now 0)) }
{
    let layers = layers_from(alloc, graph, rows, 0)?;
    'vertices: for y in 0..graph.count() {
        if layers.distances[usize::from(y)].is_none() {
            return Ok(Some(u32::from(y)));
        }
    }
    Ok(None)
}

/// The answer on a pair of x that differs from the reference of its distance.
fn differ(graph: &Graph, x: u16, found: &Difference) -> GraphAnswer
    requires connected { HasDistances graph.now }
    requires first { IsFirstDifference graph.now x found.now }
    ensures { IsAnswer graph.now result }
{
    let reference = found.reference;
    let up = reference.counts.down == found.counts.down;
    GraphAnswer::Differ {
        x: u32::from(reference.x),
        y: u32::from(reference.y),
        x2: u32::from(x),
        y2: u32::from(found.y),
        distance: u32::from(found.distance),
        up,
        first: u32::from(told(&reference.counts, up)),
        second: u32::from(told(&found.counts, up)),
    }
}

/// The count of the neighbours one step further, or of those one step nearer.
fn told(counts: &Counts, up: bool) -> u16
    ensures { result ≡ (if up then counts.now.up else counts.now.down) }
{
    if up { counts.up } else { counts.down }
}
