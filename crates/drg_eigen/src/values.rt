//! The values of a polynomial at 1 and at -1, which those of its factors divide.

ghost use Rattle.std.specs.Prelude.{◌≡◌, ◌↔◌, ◌+ℤ◌, ◌-ℤ◌, pos, IsTrue};
ghost use Rattle.std.specs.List.{AllByRecursion};
ghost use Rattle.drg_whole.specs.Range.{InRange};
ghost use Rattle.drg_eigen.specs.Values.{DividesValue, IsValueAt};

use crate::poly::Poly;
use drg_whole::Whole;

/// The values of a polynomial at 1 and at -1, where they fit.
#[derive(Clone, Copy)]
pub struct Values {
    pub at_one: Option<Whole>,
    pub at_minus_one: Option<Whole>,
}

impl Values {
    ghost use Rattle.drg_eigen.specs.Values.{Allow, AreValuesOf};

    /// The values of the polynomial.
    pub fn of(poly: &Poly) -> Values
        ensures { AreValuesOf poly.now result }
    {
        let coefficients = poly.coefficients();
        Values {
            at_one: value_at(Whole::new(1), coefficients),
            at_minus_one: value_at(Whole::new(-1), coefficients),
        }
    }

    /// Whether the values of `x² - sx + t` divide these.
    pub fn allow(&self, s: i32, t: i32) -> bool
        ensures { IsTrue result ↔ Allow self.now s t }
    {
        divides(quadratic_at_one(s, t), self.at_one)
            && divides(quadratic_at_minus_one(s, t), self.at_minus_one)
    }
}

/// The value of `x² - sx + t` at 1.
fn quadratic_at_one(s: i32, t: i32) -> Whole
    ensures { result.value ≡ (pos 1 -ℤ s) +ℤ t }
{
    Whole::new(1 - i128::from(s) + i128::from(t))
}

/// The value of `x² - sx + t` at -1.
fn quadratic_at_minus_one(s: i32, t: i32) -> Whole
    ensures { result.value ≡ (pos 1 +ℤ s) +ℤ t }
{
    Whole::new(1 + i128::from(s) + i128::from(t))
}

/// The value at a point by Horner's rule, where its products and sums are in range.
fn value_at(point: Whole, coefficients: &[i128]) -> Option<Whole>
    requires { AllByRecursion InRange coefficients.now }
    ensures { IsValueAt point.value coefficients.now result }
{
    match coefficients {
        [] => Some(Whole::new(0)),
        [first, rest @ ..] => {
            let product = point.times(value_at(point, rest)?).ok()?;
            Whole::new(*first).plus(product).ok()
        }
    }
}

/// Whether the number divides the value, as far as there is one.
fn divides(divisor: Whole, value: Option<Whole>) -> bool
    ensures { IsTrue result ↔ DividesValue divisor.value value }
{
    match value {
        None => true,
        Some(value) => divisor.divides(value),
    }
}
