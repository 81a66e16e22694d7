//! The tests on the entries: first, degree, order and cross.
ghost use Rattle.std.specs.Prelude.{ℕ, ◌<◌, ◌≤◌, ◌+◌, IfSome, IfNone};
ghost use Rattle.drg_array.specs.Conditions.{CountsFail};
ghost use Rattle.drg_array.specs.Entries.{diameter};
ghost use Rattle.drg_array.specs.declared.claim.Claim.{Claim};
ghost use Rattle.drg_array.specs.declared.claim.Claim.TheVariants.{First, Degree, Order, Cross};
ghost use Rattle.drg_array.specs.ClaimOrder.{ComesBefore};
ghost use Rattle.drg_counting.specs.EntryTests.{IsBasic};

use crate::indices::TwoIndices;
use drg_array::{Array, Claim};

/// The first failing claim of the tests first, degree, order and cross.
pub fn basic(array: &Array) -> Option<Claim>
    ensures basic { IfSome result IsBasic }
    ensures fails { IfSome result (CountsFail array.now) }
    ensures first { IfSome result (λ claim. (earlier : Claim) →
        ComesBefore earlier claim → CountsFail array.now earlier → ⊥) }
    ensures none { IfNone result ((claim : Claim) →
        IsBasic claim → CountsFail array.now claim → ⊥) }
{
    array.known_valid();
    if array.c(1) != 1 {
        return Some(Claim::First);
    }
    if let Some(i) = first_degree(array) {
        return Some(Claim::Degree { i });
    }
    if let Some(i) = first_order(array) {
        return Some(Claim::Order { i });
    }
    match first_cross(array) {
        Some(at) => Some(Claim::Cross { i: at.i, j: at.j }),
        None => None,
    }
}

/// The first i with `a_i < 0`.
fn first_degree(array: &Array) -> Option<u8>
    ensures fails { IfSome result (λ i. CountsFail array.now (Degree i)) }
    ensures first { IfSome result (λ i. (j : ℕ) → j < i → CountsFail array.now (Degree j) → ⊥) }
    ensures none { IfNone result ((j : ℕ) → CountsFail array.now (Degree j) → ⊥) }
{
    'indices: for i in 1..array.d() + 1 {
        if array.a(i) < 0 {
            return Some(i as u8);
        }
    }
    None
}

/// The first i with `b_i < b_(i+1)` or `c_i > c_(i+1)`.
fn first_order(array: &Array) -> Option<u8>
    ensures fails { IfSome result (λ i. CountsFail array.now (Order i)) }
    ensures first { IfSome result (λ i. (j : ℕ) → j < i → CountsFail array.now (Order j) → ⊥) }
    ensures none { IfNone result ((j : ℕ) → CountsFail array.now (Order j) → ⊥) }
{
    'indices: for i in 1..array.d() {
        if array.b(i) < array.b(i + 1) || array.c(i) > array.c(i + 1) {
            return Some(i as u8);
        }
    }
    None
}

/// The first i and j with `i + j <= d` and `c_i > b_j`.
fn first_cross(array: &Array) -> Option<TwoIndices>
    ensures fails { IfSome result (λ at. CountsFail array.now (Cross at.i at.j)) }
    ensures first { IfSome result (λ at. (i j : ℕ) →
        i < at.i → CountsFail array.now (Cross i j) → ⊥) }
    ensures same { IfSome result (λ at. (j : ℕ) →
        j < at.j → CountsFail array.now (Cross at.i j) → ⊥) }
    ensures none { IfNone result ((i j : ℕ) → CountsFail array.now (Cross i j) → ⊥) }
{
    'indices: for i in 1..array.d() + 1 {
        if let Some(j) = first_cross_at(array, i) {
            return Some(TwoIndices { i: i as u8, j });
        }
    }
    None
}

/// The first j with `i + j <= d` and `c_i > b_j`.
fn first_cross_at(array: &Array, i: usize) -> Option<u8>
    requires low { 1 ≤ i }
    requires high { i ≤ diameter array.now }
    ensures fails { IfSome result (λ j. CountsFail array.now (Cross i j)) }
    ensures first { IfSome result (λ j. (l : ℕ) → l < j → CountsFail array.now (Cross i l) → ⊥) }
    ensures none { IfNone result ((l : ℕ) → CountsFail array.now (Cross i l) → ⊥) }
{
    'indices: for j in 0..array.d() + 1 - i {
        if array.c(i) > array.b(j) {
            return Some(j as u8);
        }
    }
    None
}
