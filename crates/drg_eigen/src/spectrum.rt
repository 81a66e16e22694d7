//! The roots of divisors, in one field or in more.

ghost use Rattle.std.specs.Prelude.{◌≡◌, ◌≢◌, ◌<◌, ◌≤◌, ◌*ℤ◌, ℕ, pos, unsigned_abs, MatchOption, MatchResult, IfOk, OnOk, IsTrue, ◌↔◌, ◌∷◌, []};
ghost use Rattle.std.specs.List.{AllByRecursion};
ghost use Rattle.drg_algebra.specs.Root.{IsSquarefree};
ghost use Rattle.drg_quadratic.specs.Values.{IsRoot};
ghost use Rattle.drg_eigen.specs.Factor.{product, quadratic, discriminant as the_discriminant};
ghost use Rattle.drg_eigen.specs.Order.{AreInOrder};
ghost use Rattle.drg_eigen.specs.Found.{IsReal};
ghost use Rattle.drg_eigen.specs.Step.{factor_of, factors_of};
ghost use Rattle.drg_eigen.specs.Roots.{IsFirstNotOver, IsWholeRoot, AreRootsOf, HasMore};
ghost use Rattle.drg_eigen.specs.Spectrum.{AreRoots, AreTwoFields, IsCommonRoot, IsOver};

use crate::discriminant::split_discriminant;
use crate::divisor::Divisor;
use drg_quadratic::Eigenvalue;
use std::alloc::{AllocError, Global};

/// The root over which the roots of all divisors lie, which is 0 where no divisor is quadratic. Or
/// the first quadratic divisor and the first one with roots in another field.
pub fn common_root(found: &[Divisor]) -> Result<u32, (Divisor, Divisor)>
    requires { AllByRecursion IsReal (factors_of found.now) }
    ensures { MatchResult result
        (IsCommonRoot (factors_of found.now))
        (λ pair. AreTwoFields (factors_of found.now) (factor_of pair.0) (factor_of pair.1)) }
{
    match found {
        [] => Ok(0),
        [first, rest @ ..] => match *first {
            Divisor::Linear { .. } => common_root(rest),
            Divisor::Quadratic { s, t } => root_of_all(s, t, rest),
        },
    }
}

/// The same where the first divisor is `x² - sx + t`.
fn root_of_all(s: i32, t: i32, rest: &[Divisor]) -> Result<u32, (Divisor, Divisor)>
    requires first { IsReal (quadratic s t) }
    requires rest { AllByRecursion IsReal (factors_of rest.now) }
    ensures { MatchResult result
        (IsCommonRoot (quadratic s t ∷ factors_of rest.now))
        (λ pair. AreTwoFields (quadratic s t ∷ factors_of rest.now)
        (factor_of pair.0) (factor_of pair.1)) }
{
    let root = split_discriminant(s, t).1;
    match not_over(root, rest) {
        None => Ok(root),
        Some(other) => Err((Divisor::Quadratic { s, t }, other)),
    }
}

/// The first divisor whose roots don't lie over the root.
fn not_over(root: u32, found: &[Divisor]) -> Option<Divisor>
    requires root { IsSquarefree root }
    requires found { AllByRecursion IsReal (factors_of found.now) }
    ensures { MatchOption result
        (AllByRecursion (IsOver root) (factors_of found.now))
        (λ other. IsFirstNotOver root (factors_of found.now) (factor_of other)) }
{
    match found {
        [] => None,
        [first, rest @ ..] => {
            if is_over(root, *first) {
                not_over(root, rest)
            } else {
                Some(*first)
            }
        }
    }
}

/// Whether the roots of the divisor lie over the root.
fn is_over(root: u32, divisor: Divisor) -> bool
    requires root { IsSquarefree root }
    requires divisor { IsReal (factor_of divisor) }
    ensures { IsTrue result ↔ IsOver root (factor_of divisor) }
{
    match divisor {
        Divisor::Linear { .. } => true,
        Divisor::Quadratic { s, t } => split_discriminant(s, t).1 == root,
    }
}

/// The roots of the divisors over their common root, descending.
pub fn roots(alloc: Global, found: &[Divisor], root: u32) -> Result<Vec<Eigenvalue>, AllocError>
    requires found { AllByRecursion IsReal (factors_of found.now) }
    requires order { AreInOrder (factors_of found.now) }
    requires root { IsCommonRoot (factors_of found.now) root }
    ensures { IfOk result (λ xs.
        AreRoots (product (factors_of found.now) (pos 1 ∷ [])) root xs.items) }
{
    let mut roots = unsorted_roots(alloc, found, root)?;
    roots.sort()?;
    roots.reverse();
    Ok(roots)
}

/// The roots of the divisors, one divisor after the other.
fn unsorted_roots(
    alloc: Global,
    found: &[Divisor],
    root: u32,
) -> Result<Vec<Eigenvalue>, AllocError>
    requires found { AllByRecursion IsReal (factors_of found.now) }
    requires root { IsCommonRoot (factors_of found.now) root }
    ensures { IfOk result (λ xs. AreRootsOf root (factors_of found.now) xs.items) }
{
    let mut roots = Vec::new(alloc);
    'divisors: for divisor in found {
        push_roots(&mut roots, *divisor, root)?;
    }
    Ok(roots)
}

/// Appends the root of `x - r`, or the two roots of `x² - sx + t`.
fn push_roots(roots: &mut Vec<Eigenvalue>, divisor: Divisor, root: u32) -> Result<(), AllocError>
    requires divisor { IsReal (factor_of divisor) }
    requires root { IsRoot root }
    requires over { IsOver root (factor_of divisor) }
    ensures { OnOk result (HasMore root (factor_of divisor) roots.old.items roots.new.items) }
{
    match divisor {
        Divisor::Linear { r } => roots.push(whole_root(r, root))?,
        Divisor::Quadratic { s, t } => {
            let f = multiple(s, t);
            roots.push(half_root(s, f, root))?;
            roots.push(half_root(s, -f, root))?;
        }
    }
    Ok(())
}

/// The r as an eigenvalue over the root.
fn whole_root(r: i32, root: u32) -> Eigenvalue
    requires r { unsigned_abs r ≤ 4095 }
    requires root { IsRoot root }
    ensures { IsWholeRoot root r result }
{
    Eigenvalue::make(2 * r, 0, root)
}

/// The value `(s + f√root)/2`.
fn half_root(s: i32, f: i32, root: u32) -> Eigenvalue
    requires s { unsigned_abs s ≤ 8190 }
    requires f { unsigned_abs f ≤ 65536 }
    requires root { IsRoot root }
    requires some { 0 < root }
    ensures over { result.root ≡ root }
    ensures s { result.s ≡ s }
    ensures f { result.f ≡ f }
{
    Eigenvalue::make(s, f, root)
}

/// The f of the roots `(s ± f√root)/2` of `x² - sx + t`.
fn multiple(s: i32, t: i32) -> i32
    requires { IsReal (quadratic s t) }
    ensures square { (root : ℕ) → IsSquarefree root → IsOver root (quadratic s t)
        → (result *ℤ result) *ℤ pos root ≡ the_discriminant s t }
    ensures some { result ≢ pos 0 }
    ensures small { unsigned_abs result ≤ 65536 }
{
    split_discriminant(s, t).0 as i32
}
