//! Arrays, the number of vertices, sizes, and orderings.

ghost use Rattle.std.specs.Prelude.{◌≡◌, IfOk};
ghost use Rattle.serde_json.specs.View.{view};
ghost use Rattle.drg_json.specs.Pieces.{indices as data_of_indices};
ghost use Rattle.drg_json.specs.Reports.{array_data, orderings_data, sizes_data, vertices_data};

use crate::pieces::{indices, integer};
use drg_array::Array;
use drg_intersection::Numbers;
use drg_orderings::PolynomialOrdering;
use serde_json::{Map, Value, put};
use std::alloc::{AllocError, Global};

/// The entries of the array.
pub(crate) fn array_value(alloc: Global, array: &Array) -> Result<Value, AllocError>
    ensures { IfOk result (λ v. view v ≡ array_data array.now) }
{
    let mut object = Map::new(alloc);
    put(&mut object, alloc, "b", entries_b(alloc, array)?)?;
    put(&mut object, alloc, "c", entries_c(alloc, array)?)?;
    Ok(Value::Object(object))
}

/// The entries b_0 to b_(d-1).
fn entries_b(alloc: Global, array: &Array) -> Result<Value, AllocError>
    ensures { IfOk result (λ v. view v ≡ data_of_indices array.now.b) }
{
    let mut list = Vec::new(alloc);
    'entries: for i in 0..array.d() {
        list.push(Value::from(array.b(i)))?;
    }
    Ok(Value::Array(list))
}

/// The entries c_1 to c_d.
fn entries_c(alloc: Global, array: &Array) -> Result<Value, AllocError>
    ensures { IfOk result (λ v. view v ≡ data_of_indices array.now.c) }
{
    let mut list = Vec::new(alloc);
    'entries: for i in 0..array.d() {
        list.push(Value::from(array.c(i + 1)))?;
    }
    Ok(Value::Array(list))
}

/// The number of vertices.
pub(crate) fn vertices(alloc: Global, numbers: &Numbers) -> Result<Value, AllocError>
    ensures { IfOk result (λ v. view v ≡ vertices_data numbers.now) }
{
    integer(alloc, numbers.n())
}

/// The sizes k_0 to k_d.
pub(crate) fn sizes(alloc: Global, numbers: &Numbers) -> Result<Value, AllocError>
    ensures { IfOk result (λ v. view v ≡ sizes_data numbers.now) }
{
    let mut list = Vec::new(alloc);
    'sizes: for i in 0..numbers.d() + 1 {
        list.push(integer(alloc, numbers.k(i))?)?;
    }
    Ok(Value::Array(list))
}

/// The indices of each ordering.
pub(crate) fn orderings_value(
    alloc: Global,
    orderings: &[PolynomialOrdering],
) -> Result<Value, AllocError>
    ensures { IfOk result (λ v. view v ≡ orderings_data orderings.now) }
{
    let mut list = Vec::new(alloc);
    'orderings: for ordering in orderings {
        list.push(indices(alloc, ordering.as_slice())?)?;
    }
    Ok(Value::Array(list))
}
