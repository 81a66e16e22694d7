//! The factors `x - r` and `x² - sx + t` that are tried.

ghost use Rattle.std.specs.Prelude.{◌≡◌, IfOk};
ghost use Rattle.drg_eigen.specs.Division.{divisor as the_divisor, node_of};
ghost use Rattle.drg_eigen.specs.Factor.{polynomial_of};

use crate::poly::Poly;
use drg_array::Node;
use drg_whole::Whole;
use std::alloc::{AllocError, Global};

/// `x - r` or `x² - sx + t`.
#[derive(Clone, Copy, Debug, PartialEq, Eq)]
pub enum Divisor {
    Linear { r: i32 },
    Quadratic { s: i32, t: i32 },
}

impl Divisor {
    ghost use Rattle.drg_eigen.specs.Step.{factor_of};

    /// The r or the t.
    pub fn constant(self) -> Whole
        ensures { result.value ≡ the_divisor (factor_of self) }
    {
        match self {
            Divisor::Linear { r } => Whole::new(i128::from(r)),
            Divisor::Quadratic { t, .. } => Whole::new(i128::from(t)),
        }
    }

    /// The node of a division by it.
    pub fn node(self) -> Node
        ensures { result ≡ node_of (factor_of self) }
    {
        match self {
            Divisor::Linear { r } => Node::Linear { r },
            Divisor::Quadratic { s, t } => Node::Quadratic { s, t },
        }
    }

    /// The polynomial.
    pub fn poly(self, alloc: Global) -> Result<Poly, AllocError>
        ensures { IfOk result (λ p. p ≡ polynomial_of (factor_of self)) }
    {
        let coefficients = match self {
            Divisor::Linear { r } => Vec::from_slice(alloc, &[-i128::from(r), 1])?,
            Divisor::Quadratic { s, t } => {
                Vec::from_slice(alloc, &[i128::from(t), -i128::from(s), 1])?
            }
        };
        Ok(Poly::of_coefficients(coefficients))
    }
}
