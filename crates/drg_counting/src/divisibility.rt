//! The tests on parity: handshake, induced and triangles.

ghost use Rattle.std.specs.Prelude.{ℕ, ◌≡◌, ◌≤◌, ◌<◌, ◌*ℤ◌, ◌↔◌, pos, Contains, IsTrue, IfSome, IfNone};
ghost use Rattle.drg_array.specs.ClaimOrder.{ComesBefore};
ghost use Rattle.drg_array.specs.Conditions.{CountsFail};
ghost use Rattle.drg_array.specs.Entries.{Entries, IsArray};
ghost use Rattle.drg_array.specs.declared.claim.Claim.{Claim as TheClaim};
ghost use Rattle.drg_array.specs.declared.claim.Claim.TheVariants.{Handshake, Induced, Triangles};
ghost use Rattle.drg_array.specs.declared.test.Test.TheVariants as test;
ghost use Rattle.drg_intersection.specs.Numbers.{AreNumbersOf};
ghost use Rattle.drg_counting.specs.Parity.{IsDistance, IsSelectedParity, NumbersFail};

use crate::indices::TwoIndices;
use drg_array::{Claim, Test, TestSet};
use drg_intersection::Numbers;
use drg_whole::Residue;

/// The first failing claim of the selected tests among handshake, induced and triangles, of an
/// array with these numbers. It works by residues, so no product can be too wide.
pub fn parity(numbers: &Numbers, tests: &TestSet) -> Option<Claim>
    ensures selected { IfSome result (IsSelectedParity tests.now) }
    ensures fails { IfSome result (λ claim. (a : Entries) →
        IsArray a → AreNumbersOf a numbers.now → CountsFail a claim) }
    ensures first { IfSome result (λ claim. (a : Entries) →
        IsArray a → AreNumbersOf a numbers.now → (earlier : TheClaim) →
        IsSelectedParity tests.now earlier → ComesBefore earlier claim → CountsFail a earlier → ⊥) }
    ensures none { IfNone result ((a : Entries) → IsArray a → AreNumbersOf a numbers.now →
        (claim : TheClaim) → IsSelectedParity tests.now claim → CountsFail a claim → ⊥) }
{
    if let Some(i) = selected_handshake(numbers, tests) {
        return Some(Claim::Handshake { i });
    }
    if let Some(at) = selected_induced(numbers, tests) {
        return Some(Claim::Induced { i: at.i, j: at.j });
    }
    match selected_triangles(numbers, tests) {
        Some(i) => Some(Claim::Triangles { i }),
        None => None,
    }
}

/// The first i that fails handshake, where that is selected.
fn selected_handshake(numbers: &Numbers, tests: &TestSet) -> Option<u8>
    ensures selected { IfSome result (λ i. Contains tests.now test.Handshake) }
    ensures fails { IfSome result (λ i. NumbersFail numbers.now (Handshake i)) }
    ensures first { IfSome result (λ i. (l : ℕ) →
        l < i → NumbersFail numbers.now (Handshake l) → ⊥) }
    ensures none { IfNone result (Contains tests.now test.Handshake →
        (l : ℕ) → NumbersFail numbers.now (Handshake l) → ⊥) }
{
    if tests.has(Test::Handshake) {
        first_handshake(numbers)
    } else {
        None
    }
}

/// The first i and j that fail induced, where that is selected.
fn selected_induced(numbers: &Numbers, tests: &TestSet) -> Option<TwoIndices>
    ensures selected { IfSome result (λ at. Contains tests.now test.Induced) }
    ensures fails { IfSome result (λ at. NumbersFail numbers.now (Induced at.i at.j)) }
    ensures first { IfSome result (λ at. (i j : ℕ) →
        i < at.i → NumbersFail numbers.now (Induced i j) → ⊥) }
    ensures same { IfSome result (λ at. (j : ℕ) →
        j < at.j → NumbersFail numbers.now (Induced at.i j) → ⊥) }
    ensures none { IfNone result (Contains tests.now test.Induced →
        (i j : ℕ) → NumbersFail numbers.now (Induced i j) → ⊥) }
{
    if tests.has(Test::Induced) {
        first_induced(numbers)
    } else {
        None
    }
}

/// The first i that fails triangles, where that is selected.
fn selected_triangles(numbers: &Numbers, tests: &TestSet) -> Option<u8>
    ensures selected { IfSome result (λ i. Contains tests.now test.Triangles) }
    ensures fails { IfSome result (λ i. NumbersFail numbers.now (Triangles i)) }
    ensures first { IfSome result (λ i. (l : ℕ) →
        l < i → NumbersFail numbers.now (Triangles l) → ⊥) }
    ensures none { IfNone result (Contains tests.now test.Triangles →
        (l : ℕ) → NumbersFail numbers.now (Triangles l) → ⊥) }
{
    if tests.has(Test::Triangles) {
        first_triangles(numbers)
    } else {
        None
    }
}

/// Whether `n k_i` is odd.
fn fails_handshake(numbers: &Numbers, i: usize) -> bool
    requires { IsDistance numbers.now i }
    ensures { IsTrue result ↔ NumbersFail numbers.now (Handshake i) }
{
    let vertices = Residue::of(numbers.n(), 2);
    !vertices.times(Residue::of(numbers.k(i), 2)).is_zero()
}

/// Whether `k_i p^i_ij` is odd.
fn fails_induced(numbers: &Numbers, i: usize, j: usize) -> bool
    requires i { IsDistance numbers.now i }
    requires j { IsDistance numbers.now j }
    ensures { IsTrue result ↔ NumbersFail numbers.now (Induced i j) }
{
    let sphere = Residue::of(numbers.k(i), 2);
    !sphere.times(Residue::of(numbers.p(i, i, j), 2)).is_zero()
}

/// Whether 6 doesn't divide `n k_i p^i_ii`.
fn fails_triangles(numbers: &Numbers, i: usize) -> bool
    requires { IsDistance numbers.now i }
    ensures { IsTrue result ↔ NumbersFail numbers.now (Triangles i) }
{
    let sphere = Residue::of(numbers.k(i), 6);
    let neighbours = sphere.times(Residue::of(numbers.p(i, i, i), 6));
    !Residue::of(numbers.n(), 6).times(neighbours).is_zero()
}

/// The first i that fails handshake.
fn first_handshake(numbers: &Numbers) -> Option<u8>
    ensures fails { IfSome result (λ i. NumbersFail numbers.now (Handshake i)) }
    ensures first { IfSome result (λ i. (l : ℕ) →
        l < i → NumbersFail numbers.now (Handshake l) → ⊥) }
    ensures none { IfNone result ((l : ℕ) → NumbersFail numbers.now (Handshake l) → ⊥) }
{
    'indices: for i in 1..numbers.d() + 1 {
        if fails_handshake(numbers, i) {
            return Some(i as u8);
        }
    }
    None
}

/// The first i and j that fail induced.
fn first_induced(numbers: &Numbers) -> Option<TwoIndices>
    ensures fails { IfSome result (λ at. NumbersFail numbers.now (Induced at.i at.j)) }
    ensures first { IfSome result (λ at. (i j : ℕ) →
        i < at.i → NumbersFail numbers.now (Induced i j) → ⊥) }
    ensures same { IfSome result (λ at. (j : ℕ) →
        j < at.j → NumbersFail numbers.now (Induced at.i j) → ⊥) }
    ensures none { IfNone result ((i j : ℕ) → NumbersFail numbers.now (Induced i j) → ⊥) }
{
    'indices: for i in 1..numbers.d() + 1 {
        if let Some(j) = first_induced_at(numbers, i) {
            return Some(TwoIndices { i: i as u8, j });
        }
    }
    None
}

/// The first j that fails induced with this i.
fn first_induced_at(numbers: &Numbers, i: usize) -> Option<u8>
    requires { IsDistance numbers.now i }
    ensures fails { IfSome result (λ j. NumbersFail numbers.now (Induced i j)) }
    ensures first { IfSome result (λ j. (l : ℕ) →
        l < j → NumbersFail numbers.now (Induced i l) → ⊥) }
    ensures none { IfNone result ((l : ℕ) → NumbersFail numbers.now (Induced i l) → ⊥) }
{
    'indices: for j in 1..numbers.d() + 1 {
        if fails_induced(numbers, i, j) {
            return Some(j as u8);
        }
    }
    None
}

/// The first i that fails triangles.
fn first_triangles(numbers: &Numbers) -> Option<u8>
    ensures fails { IfSome result (λ i. NumbersFail numbers.now (Triangles i)) }
    ensures first { IfSome result (λ i. (l : ℕ) →
        l < i → NumbersFail numbers.now (Triangles l) → ⊥) }
    ensures none { IfNone result ((l : ℕ) → NumbersFail numbers.now (Triangles l) → ⊥) }
{
    'indices: for i in 1..numbers.d() + 1 {
        if fails_triangles(numbers, i) {
            return Some(i as u8);
        }
    }
    None
}
