//! Whether an array belongs to a census.

ghost use Rattle.std.specs.Prelude.{◌≡◌, ◌↔◌, ◌+◌, IsTrue, IfOk, MatchOption, length};
ghost use Rattle.drg_array.specs.Entries.{Entries, IsArray, b_at, diameter};
ghost use Rattle.drg_intersection.specs.Numbers.{AreNumbersOf, n_of};
ghost use Rattle.drg_census.specs.Begins.{IsBeginning, IsTheArray, NoneBegins};
ghost use Rattle.drg_census.specs.Census.{InCensus, IsWithinLimits};
ghost use Rattle.drg_census.specs.Members.{PassesLate};

use crate::search::Sought;
use drg_array::{Array, TestSet, condition_law};
use drg_counting::{basic, parity};
use drg_intersection::{Numbers, NumbersFault, numbers_of};
use std::alloc::{AllocError, Global};

/// The array of these entries, where it belongs to the census.
pub fn member_of(
    alloc: Global,
    sought: Sought,
    entries: &[u16],
) -> Result<Option<Array>, AllocError>
    requires beginning { IsBeginning sought.d sought.k sought.n entries.now }
    requires all { length entries.now ≡ sought.d + sought.d }
    ensures { IfOk result (λ found. MatchOption found
        (NoneBegins sought.d sought.k sought.n entries.now)
        (IsTheArray sought.d sought.k sought.n entries.now)) }
{
    let (b, c) = entries.split_at(sought.d);
    let Some(array) = Array::make(b, c) else {
        return Ok(None);
    };
    if is_member(alloc, &array, sought.n)? {
        Ok(Some(array))
    } else {
        Ok(None)
    }
}

/// Whether the array has this number of vertices, and passes tests 1 to 9.
fn is_member(alloc: Global, array: &Array, n: u32) -> Result<bool, AllocError>
    requires { IsWithinLimits (diameter array.now) (b_at array.now 0) n }
    ensures { IfOk result (λ answer.
        IsTrue answer ↔ InCensus (diameter array.now) (b_at array.now 0) n array.now) }
{
    array.known_valid();
    condition_law();
    if let Some(_claim) = basic(array) {
        return Ok(false);
    }
    match numbers_of(alloc, array) {
        Ok(numbers) => Ok(numbers_pass(&numbers, n)),
        Err(NumbersFault::Fall { .. }) => Ok(false),
        // No number of an array of a census is too wide.
        Err(NumbersFault::Wide { .. }) => Ok(false),
        Err(NumbersFault::Memory) => Err(AllocError),
    }
}

/// Whether there are this many vertices, and the tests on parity pass.
fn numbers_pass(numbers: &Numbers, n: u32) -> bool
    ensures { (a : Entries) → IsArray a → AreNumbersOf a numbers.now →
        (IsTrue result ↔ PassesLate n a) }
{
    condition_law();
    match parity(numbers, &TestSet::all()) {
        Some(_claim) => false,
        None => has_vertices(numbers, n),
    }
}

/// Whether there are this many vertices.
fn has_vertices(numbers: &Numbers, n: u32) -> bool
    ensures { IsTrue result ↔ (n_of numbers.now ≡ n) }
{
    numbers.n() == i128::from(n)
}
