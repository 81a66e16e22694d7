//! Lists of factors and of eigenvalues.

ghost use Rattle.std.specs.Prelude.{◌≡◌, IfOk, map};
ghost use Rattle.drg_eigen.specs.Factor.{polynomial_of};
ghost use Rattle.drg_eigen.specs.Step.{factors_of};

use crate::divisor::Divisor;
use crate::poly::Poly;
use drg_quadratic::Eigenvalue;
use std::alloc::{AllocError, Global};
use std::marker::Model;

/// Factors of a polynomial, seen as the list of their lists of coefficients.
#[derive(Drop, Debug)]
pub struct Factors {
    polys: Vec<Poly>,
}

impl Model for Factors {
    ghost use Rattle.std.specs.Prelude.{List, ℤ};

    ghost Value = { List (List ℤ) };

    ghost view = { λ f. f.polys.items };
}

impl Factors {
    /// The factors in order.
    pub fn as_slice(&self) -> &[Poly]
        ensures { result.now ≡ self.now }
    {
        &self.polys
    }

    pub(crate) fn of(alloc: Global, found: &[Divisor]) -> Result<Factors, AllocError>
        ensures { IfOk result (λ f. f ≡ map polynomial_of (factors_of found.now)) }
    {
        let mut polys = Vec::new(alloc);
        'divisors: for divisor in found {
            polys.push(divisor.poly(alloc)?)?;
        }
        Ok(Factors { polys })
    }
}

/// Eigenvalues, seen as their list.
#[derive(Drop, Debug)]
pub struct Eigenvalues {
    values: Vec<Eigenvalue>,
}

impl Model for Eigenvalues {
    ghost use Rattle.std.specs.Prelude.{List};
    ghost use Rattle.drg_quadratic.specs.declared.eigenvalue.Eigenvalue.{Eigenvalue};

    ghost Value = { List Eigenvalue };

    ghost view = { λ e. e.values.items };
}

impl Eigenvalues {
    /// The eigenvalues in order.
    pub fn as_slice(&self) -> &[Eigenvalue]
        ensures { result.now ≡ self.now }
    {
        &self.values
    }

    pub(crate) fn of(values: Vec<Eigenvalue>) -> Eigenvalues
        ensures { result ≡ values.items }
    {
        Eigenvalues { values }
    }
}
