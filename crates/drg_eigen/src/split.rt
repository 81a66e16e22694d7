//! The spectrum, or why no one quadratic field holds it.

ghost use Rattle.std.specs.Prelude.{◌≡◌, ◌≤◌, IfOk, IfErr, map};
ghost use Rattle.std.specs.List.{AllByRecursion};
ghost use Rattle.drg_eigen.specs.Factor.{IsCandidate, polynomial_of};
ghost use Rattle.drg_eigen.specs.Monic.{IsPoly};
ghost use Rattle.drg_eigen.specs.Order.{AreInOrder};
ghost use Rattle.drg_eigen.specs.Simple.{IsSimple};
ghost use Rattle.drg_eigen.specs.Search.{IsSearch};
ghost use Rattle.drg_eigen.specs.Candidates.{AllDivisionsFit, IsSplitFault};
ghost use Rattle.drg_eigen.specs.Found.{IsReal};
ghost use Rattle.drg_eigen.specs.Step.{factors_of};
ghost use Rattle.drg_eigen.specs.Split.{IsSplit, IsWholeSplit};
ghost use Rattle.drg_eigen.specs.declared.split.OtherSpectrum.TheVariants as other;

use crate::divisor::Divisor;
use crate::factors::{Eigenvalues, Factors};
use crate::fault::EigenFault;
use crate::poly::Poly;
use crate::search::Search;
use crate::spectrum::{common_root, roots};
use std::alloc::{AllocError, Global};

/// All eigenvalues, strictly descending, each over the root. The root is 0 where all are rational.
#[derive(Drop, Debug)]
pub struct Spectrum {
    pub root: u32,
    pub thetas: Eigenvalues,
}

/// Why no one quadratic field holds all eigenvalues.
#[derive(Drop, Debug)]
pub enum OtherSpectrum {
    /// The factors among the candidates, and what is left without them, which isn't 1.
    Rest {
        factors: Factors,
        rest: Poly,
    },
    /// All factors, the first quadratic one, and the first one with roots in another field than it.
    TwoFields {
        factors: Factors,
        first: Poly,
        second: Poly,
    },
}

/// What becomes of a polynomial that is split into factors.
#[derive(Drop, Debug)]
pub enum Split {
    Spectrum(Spectrum),
    Other(OtherSpectrum),
}

/// Splits the polynomial into its factors among the candidates for a valency k: the `x - r` with r
/// from k down to -k, then the irreducible `x² - sx + t` with s from 2k down to -2k, then t from k²
/// down to -k². A fault names the first division that is asked for and has a number above 2^127 - 1
/// in magnitude. No division is made by an `x² - sx + t` without real roots, nor where its values
/// at 0, 1 and -1 don't divide those of the polynomial without its factors `x - r`.
pub fn split_of(alloc: Global, poly: &Poly, k: u16) -> Result<Split, EigenFault>
    requires valency { k ≤ 4095 }
    requires simple { IsSimple poly.now }
    ensures split { IfOk result (IsSplit k poly.now) }
    ensures fits { IfOk result (λ split. AllDivisionsFit k poly.now) }
    ensures fault { IfErr result (IsSplitFault k poly.now) }
{
    let search = factored(alloc, poly, k)?;
    if search.left.coefficients().len() > 1 {
        Ok(Split::Other(rest(alloc, search)?))
    } else {
        Ok(whole(alloc, &search.found)?)
    }
}

/// The factors of the polynomial among the candidates, and what is left without them.
fn factored(alloc: Global, poly: &Poly, k: u16) -> Result<Search, EigenFault>
    requires valency { k ≤ 4095 }
    requires simple { IsSimple poly.now }
    ensures search { IfOk result (λ s.
        IsSearch (IsCandidate k) poly.now (factors_of s.found.items) s.left) }
    ensures poly { IfOk result (λ s. IsPoly poly.now) }
    ensures fits { IfOk result (λ s. AllDivisionsFit k poly.now) }
    ensures fault { IfErr result (IsSplitFault k poly.now) }
{
    let mut search = Search::start(alloc, poly)?;
    search.try_linears(alloc, k)?;
    search.try_quadratics(alloc, k)?;
    Ok(search)
}

/// The answer where something is left.
fn rest(alloc: Global, search: Search) -> Result<OtherSpectrum, AllocError>
    ensures { IfOk result (λ answer. answer ≡ other.Rest
        (map polynomial_of (factors_of search.found.items)) search.left) }
{
    let Search { found, left } = search;
    Ok(OtherSpectrum::Rest {
        factors: Factors::of(alloc, &found)?,
        rest: left,
    })
}

/// The answer where nothing is left.
fn whole(alloc: Global, found: &[Divisor]) -> Result<Split, AllocError>
    requires found { AllByRecursion IsReal (factors_of found.now) }
    requires order { AreInOrder (factors_of found.now) }
    ensures { IfOk result (IsWholeSplit (factors_of found.now)) }
{
    match common_root(found) {
        Ok(root) => {
            let thetas = Eigenvalues::of(roots(alloc, found, root)?);
            Ok(Split::Spectrum(Spectrum { root, thetas }))
        }
        Err((first, second)) => Ok(Split::Other(OtherSpectrum::TwoFields {
            factors: Factors::of(alloc, found)?,
            first: first.poly(alloc)?,
            second: second.poly(alloc)?,
        })),
    }
}
