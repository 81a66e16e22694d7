//! The search for factors among the candidates.

ghost use Rattle.std.specs.Prelude.{◌↔◌, IsTrue};
ghost use Rattle.drg_eigen.specs.Factor.{quadratic, IsIrreducible, IsSmall};
ghost use Rattle.drg_eigen.specs.Values.{MayPass};

use crate::discriminant::{discriminant, is_irreducible};
use crate::divisor::Divisor;
use crate::fault::EigenFault;
use crate::poly::Poly;
use crate::products::{below, products};
use crate::quotient::divided_by;
use crate::values::Values;
use std::alloc::{AllocError, Global};

/// The factors that are found, and what is left of the polynomial without them.
#[derive(Drop)]
pub struct Search {
    pub found: Vec<Divisor>,
    pub left: Poly,
}

impl Search {
    ghost use Rattle.std.specs.Prelude.{◌≡◌, ◌≢◌, ◌≤◌, ℤ, pos, unsigned_abs, [], All, IfOk, OnOk, OnErr, IfErr, IsTrue, ◌↔◌};
    ghost use Rattle.drg_eigen.specs.Factor.{linear, quadratic, IsIrreducible, IsSmall, Divides, DividesTwice};
    ghost use Rattle.drg_eigen.specs.Division.{IsDivisor};
    ghost use Rattle.drg_eigen.specs.Monic.{IsPoly};
    ghost use Rattle.drg_eigen.specs.Candidates.{IsLinearCandidate, IsQuadraticCandidate, value_at};
    ghost use Rattle.drg_eigen.specs.Search.{IsSearchFault};
    ghost use Rattle.drg_eigen.specs.Step.{factor_of};
    ghost use Rattle.drg_eigen.specs.Simple.{IsSimple};
    ghost use Rattle.drg_eigen.specs.Products.{AreFalling};
    ghost use Rattle.drg_eigen.specs.Values.{MayPass};
    ghost use Rattle.drg_eigen.specs.Found.{HasTried, IsAnything, IsListed, IsOne, MayBeFactor};

    /// A search that has tried nothing.
    pub fn start(alloc: Global, poly: &Poly) -> Result<Search, AllocError>
        ensures found { IfOk result (λ s. s.found.items ≡ []) }
        ensures left { IfOk result (λ s. s.left ≡ poly.now) }
        ensures poly { IsPoly poly.now }
    {
        Ok(Search {
            found: Vec::new(alloc),
            left: poly.copied(alloc)?,
        })
    }

    /// Tries the x - r with r from k down to -k.
    pub fn try_linears(&mut self, alloc: Global, k: u16) -> Result<(), EigenFault>
        requires { IsSimple self.old.left }
        ensures tried { OnOk result (HasTried (IsLinearCandidate k) IsAnything self.old self.new) }
        ensures fault { IfErr result
            (IsSearchFault (IsLinearCandidate k) IsAnything self.old.left) }
    {
        let most = u32::from(k);
        'linears: for steps in 0..2 * most + 1 {
            let r = below(most, steps);
            self.try_divisor(alloc, Divisor::Linear { r })?;
        }
        Ok(())
    }

    /// Tries the irreducible x² - sx + t with s from 2k down to -2k and t from k² down to -k²,
    /// where no candidate x - r divides what is left.
    pub fn try_quadratics(&mut self, alloc: Global, k: u16) -> Result<(), EigenFault>
        requires simple { IsSimple self.old.left }
        requires valency { k ≤ 4095 }
        requires nonzero { value_at (pos 0) self.old.left ≢ pos 0 }
        ensures tried { OnOk result
            (HasTried (IsQuadraticCandidate k) (MayBeFactor self.old.left) self.old self.new) }
        ensures fault { IfErr result
            (IsSearchFault (IsQuadraticCandidate k) (MayBeFactor self.old.left) self.old.left) }
    {
        let values = Values::of(&self.left);
        let k = u32::from(k);
        let products = products(alloc, self.left.coefficients()[0], k * k)?;
        let most = 2 * k;
        'sums: for steps in 0..2 * most + 1 {
            self.try_sum(alloc, below(most, steps), &products, &values)?;
        }
        Ok(())
    }

    /// Tries the irreducible x² - sx + t with one s and the t in the list.
    fn try_sum(
        &mut self,
        alloc: Global,
        s: i32,
        products: &[i32],
        values: &Values,
    ) -> Result<(), EigenFault>
        requires simple { IsSimple self.old.left }
        requires falling { AreFalling products.now }
        requires nonzero { All (λ t. t ≢ pos 0) products.now }
        requires small { All (λ t. IsSmall 4095 (quadratic s t)) products.now }
        requires allowed { (t : ℤ) → Divides (quadratic s t) self.old.left
            → IsIrreducible (quadratic s t) → MayPass values.now (quadratic s t) }
        ensures tried { OnOk result
            (HasTried (IsListed s products.now) (MayPass values.now) self.old self.new) }
        ensures fault { IfErr result
            (IsSearchFault (IsListed s products.now) (MayPass values.now) self.old.left) }
    {
        'products: for t in products {
            if passes(values, s, *t) {
                self.try_divisor(alloc, Divisor::Quadratic { s, t: *t })?;
            }
        }
        Ok(())
    }

    /// Takes the divisor off where it divides what is left.
    fn try_divisor(&mut self, alloc: Global, divisor: Divisor) -> Result<(), EigenFault>
        requires divisor { IsDivisor (factor_of divisor) }
        requires simple { IsSimple self.old.left }
        ensures tried { OnOk result
            (HasTried (IsOne (factor_of divisor)) IsAnything self.old self.new) }
        ensures fault { IfErr result
            (IsSearchFault (IsOne (factor_of divisor)) IsAnything self.old.left) }
    {
        if let Some(quotient) = divided_by(alloc, &self.left, divisor)? {
            self.found.push(divisor)?;
            self.left = quotient;
        }
        Ok(())
    }
}

/// Whether x² - sx + t is irreducible with real roots, and the values allow it.
fn passes(values: &Values, s: i32, t: i32) -> bool
    requires { IsSmall 4095 (quadratic s t) }
    ensures { IsTrue result ↔ (IsIrreducible (quadratic s t) × MayPass values.now (quadratic s t)) }
{
    if discriminant(s, t) <= 0 {
        return false;
    }
    values.allow(s, t) && is_irreducible(s, t)
}
