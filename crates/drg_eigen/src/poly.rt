//! Monic polynomials.

ghost use Rattle.std.specs.Prelude.{◌≡◌, ◌↔◌, IsTrue, IsSome, IfSome, IfOk};
ghost use Rattle.std.specs.List.{AllByRecursion};
ghost use Rattle.drg_whole.specs.Range.{InRange};
ghost use Rattle.drg_eigen.specs.Monic.{IsMonic, IsPoly};

use std::alloc::{AllocError, Global};
use std::marker::Model;

/// A monic polynomial with whole coefficients from -(2^127 - 1) to 2^127 - 1, seen as the list of
/// its coefficients from the constant upwards.
#[derive(Drop, Debug)]
pub struct Poly {
    coefficients: Vec<i128>,
}

impl Model for Poly {
    ghost use Rattle.std.specs.Prelude.{List, ℤ};
    ghost use Rattle.drg_eigen.specs.Monic.{IsPoly};

    ghost Value = { List ℤ };

    ghost view = { λ p. p.coefficients.items };

    ghost invariant = { λ p. IsPoly p.coefficients.items };
}

impl Poly {
    /// The polynomial of these coefficients, from the constant upwards. There is none where the
    /// last one isn't 1, or one is `i128::MIN`. Takes no memory.
    pub fn make(coefficients: Vec<i128>) -> Option<Poly>
        ensures some { IsSome result ↔ IsPoly coefficients.items }
        ensures value { IfSome result (λ p. p ≡ coefficients.items) }
    {
        if !is_monic(&coefficients) || !are_in_range(&coefficients) {
            return None;
        }
        Some(Poly { coefficients })
    }

    pub(crate) fn of_coefficients(coefficients: Vec<i128>) -> Poly
        requires { IsPoly coefficients.items }
        ensures { result ≡ coefficients.items }
    {
        Poly { coefficients }
    }

    pub(crate) fn copied(&self, alloc: Global) -> Result<Poly, AllocError>
        ensures copy { IfOk result (λ p. p ≡ self.now) }
        ensures poly { IsPoly self.now }
    {
        Ok(Poly {
            coefficients: Vec::from_slice(alloc, &self.coefficients)?,
        })
    }

    /// The coefficients, from the constant upwards.
    pub fn coefficients(&self) -> &[i128]
        ensures items { result.now ≡ self.now }
        ensures poly { IsPoly self.now }
    {
        &self.coefficients
    }
}

/// Whether the last number is 1.
fn is_monic(numbers: &[i128]) -> bool
    ensures { IsTrue result ↔ IsMonic numbers.now }
{
    match numbers.last() {
        Some(last) => *last == 1,
        None => false,
    }
}

/// Whether none of the numbers is `i128::MIN`.
fn are_in_range(numbers: &[i128]) -> bool
    ensures { IsTrue result ↔ AllByRecursion InRange numbers.now }
{
    numbers.iter().all(|&number| number != i128::MIN)
}
