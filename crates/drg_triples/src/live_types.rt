//! The live types, in lexicographic order.

ghost use Rattle.std.specs.Prelude.{◌≡◌, ◌≤◌, suc, IfOk, OnOk};
ghost use Rattle.drg_triples.specs.LiveTypes.{AreLiveBefore, AreLiveTypes};

use drg_array::MAX_DIAMETER;
use drg_intersection::Numbers;
use drg_linear::TripleType;
use std::alloc::{AllocError, Global};

/// The live types of triples of vertices of an array with these numbers, in lexicographic order: those
/// with `1 <= U <= V <= W <= d` and `p^W_VU > 0`. Want of memory is the one error.
pub fn types(alloc: Global, numbers: &Numbers) -> Result<Vec<TripleType>, AllocError>
    ensures { IfOk result (λ found. AreLiveTypes numbers.now found.items) }
{
    let mut found = Vec::new(alloc);
    'firsts: for u in 1..numbers.d() + 1 {
        add_first(numbers, u, &mut found)?;
    }
    Ok(found)
}

/// Appends those with this U.
fn add_first(numbers: &Numbers, u: usize, found: &mut Vec<TripleType>) -> Result<(), AllocError>
    requires some { 1 ≤ u }
    requires inside { u ≤ numbers.now.d }
    requires before { AreLiveBefore numbers.now u 0 0 found.old.items }
    ensures { OnOk result (AreLiveBefore numbers.now (suc u) 0 0 found.new.items) }
{
    'seconds: for v in u..numbers.d() + 1 {
        add_pair(numbers, u, v, found)?;
    }
    Ok(())
}

/// Those with this U and V.
fn add_pair(
    numbers: &Numbers,
    u: usize,
    v: usize,
    found: &mut Vec<TripleType>,
) -> Result<(), AllocError>
    requires some { 1 ≤ u }
    requires first { u ≤ v }
    requires inside { v ≤ numbers.now.d }
    requires before { AreLiveBefore numbers.now u v 0 found.old.items }
    ensures { OnOk result (AreLiveBefore numbers.now u (suc v) 0 found.new.items) }
{
    'thirds: for w in v..numbers.d() + 1 {
        add_if_live(numbers, u, v, w, found)?;
    }
    Ok(())
}

/// Appends U, V and W if `p^W_VU` is positive.
fn add_if_live(
    numbers: &Numbers,
    u: usize,
    v: usize,
    w: usize,
    found: &mut Vec<TripleType>,
) -> Result<(), AllocError>
    requires some { 1 ≤ u }
    requires first { u ≤ v }
    requires second { v ≤ w }
    requires inside { w ≤ numbers.now.d }
    requires short { numbers.now.d ≤ MAX_DIAMETER }
    requires before { AreLiveBefore numbers.now u v w found.old.items }
    ensures { OnOk result (AreLiveBefore numbers.now u v (suc w) found.new.items) }
{
    if numbers.p(w, v, u) > 0 {
        found.push(triple(u, v, w))?;
    }
    Ok(())
}

/// The type as it stands in a list.
fn triple(u: usize, v: usize, w: usize) -> TripleType
    requires u { u ≤ MAX_DIAMETER }
    requires v { v ≤ MAX_DIAMETER }
    requires w { w ≤ MAX_DIAMETER }
    ensures { result ≡ record { u = u; v = v; w = w } }
{
    TripleType {
        u: u as u8,
        v: v as u8,
        w: w as u8,
    }
}
