//! The array of a graph of which no pair differs.

ghost use Rattle.std.specs.Prelude.{◌≡◌, ◌≢◌, ◌≤◌, ◌<◌, ℕ, suc, None, Some, length, IfOk, MatchOption};
ghost use Rattle.drg_algebra.specs.Sums.{below};
ghost use Rattle.drg_array.specs.declared.limits.TheConstants.{MAX_DIAMETER};
ghost use Rattle.drg_edges.specs.Answers.{IsAnswer};
ghost use Rattle.drg_edges.specs.Pairs.{HasDistances};
ghost use Rattle.drg_edges.specs.References.{AreAlike, AreReferences, reference_of};

use crate::references::Reference;
use crate::{Graph, GraphAnswer};
use drg_array::{Array, MAX_DIAMETER};
use std::alloc::{AllocError, Global};

/// The answer on a graph of which no pair differs from the reference of its distance.
pub fn regular(
    alloc: Global,
    graph: &Graph,
    references: &[Option<Reference>],
) -> Result<GraphAnswer, AllocError>
    requires connected { HasDistances graph.now }
    requires vertices { graph.now.vertices ≡ below (length references.now) }
    requires few { length references.now ≤ 2000 }
    requires references { AreReferences graph.now (length references.now) 0 references.now }
    requires alike { AreAlike graph.now (length references.now) 0 }
    ensures { IfOk result (IsAnswer graph.now) }
{
    let diameter = greatest_distance(references);
    if let Some(far) = first_too_far(references, diameter) {
        return Ok(GraphAnswer::Far {
            x: u32::from(far.x),
            y: u32::from(far.y),
        });
    }
    let mut b = Vec::new(alloc);
    let mut c = Vec::new(alloc);
    'distances: for i in 0..diameter {
        b.push(reference_at(references, i).counts.up)?;
        c.push(reference_at(references, i + 1).counts.down)?;
    }
    let Some(array) = Array::make(&b, &c) else {
        unreachable!();
    };
    Ok(GraphAnswer::Array(array))
}

/// The greatest distance such that it and each one below it but 0 has a reference.
fn greatest_distance(references: &[Option<Reference>]) -> usize
    requires { 0 < length references.now }
    ensures inside { result < length references.now }
    ensures there { (i : ℕ) → 1 ≤ i → i ≤ result → reference_of references.now i ≢ None }
    ensures none { suc result < length references.now →
        reference_of references.now (suc result) ≡ None }
{
    'distances: for i in 1..references.len() {
        if references[i].is_none() {
            return i - 1;
        }
    }
    references.len() - 1
}

/// The first pair one step further apart than an array allows, where some pair is as far.
fn first_too_far(references: &[Option<Reference>], diameter: usize) -> Option<Reference>
    requires inside { diameter < length references.now }
    requires there { (i : ℕ) → 1 ≤ i → i ≤ diameter → reference_of references.now i ≢ None }
    ensures { MatchOption result (diameter ≤ MAX_DIAMETER)
        (λ far. (MAX_DIAMETER < diameter)
        × (reference_of references.now (suc MAX_DIAMETER) ≡ Some far)) }
{
    if diameter <= MAX_DIAMETER {
        return None;
    }
    Some(reference_at(references, MAX_DIAMETER + 1))
}

/// The reference of a distance that has one.
fn reference_at(references: &[Option<Reference>], i: usize) -> Reference
    requires inside { i < length references.now }
    requires there { reference_of references.now i ≢ None }
    ensures { reference_of references.now i ≡ Some result }
{
    let Some(reference) = references[i] else {
        unreachable!();
    };
    reference
}
