//! Division of a polynomial by `x - r` and by `x² - sx + t`.

ghost use Rattle.std.specs.Prelude.{◌≡◌, ◌≢◌, ◌↔◌, None, pos, IfOk, IfErr, IfSome, IfNone, IsTrue};
ghost use Rattle.drg_eigen.specs.Division.{IsDivided, IsDivisor, IsDivisionFault, DivisionFits, divisor as the_divisor};
ghost use Rattle.drg_eigen.specs.Factor.{linear};
ghost use Rattle.drg_eigen.specs.Monic.{IsPoly};
ghost use Rattle.drg_eigen.specs.Step.{IsDividedInRange, IsNumerator, IsOver, factor_of, shortened};

use crate::divisor::Divisor;
use crate::fault::EigenFault;
use crate::poly::Poly;
use drg_whole::{Whole, Wide};
use std::alloc::{AllocError, Global};

/// The polynomial over the divisor, or none where the divisor doesn't divide it. A fault names the
/// division, where it has a number above 2^127 - 1 in magnitude before a coefficient of the
/// quotient isn't whole.
pub fn divided_by(alloc: Global, poly: &Poly, divisor: Divisor) -> Result<Option<Poly>, EigenFault>
    requires { IsDivisor (factor_of divisor) }
    ensures divided { IfOk result (IsDivided (factor_of divisor) poly.now) }
    ensures fits { IfOk result (λ answer. DivisionFits (factor_of divisor) poly.now) }
    ensures fault { IfErr result (IsDivisionFault (factor_of divisor) poly.now) }
{
    if divisor.constant().is_zero() {
        return Ok(divided_by_x(alloc, poly)?);
    }
    match quotient(alloc, poly.coefficients(), divisor)? {
        Some(quotient) => Ok(Some(Poly::of_coefficients(quotient))),
        None => Ok(None),
    }
}

/// The polynomial divided by x: its coefficients but the constant, where that is 0.
fn divided_by_x(alloc: Global, poly: &Poly) -> Result<Option<Poly>, AllocError>
    ensures { IfOk result (IsDivided (linear (pos 0)) poly.now) }
{
    let coefficients = poly.coefficients();
    if coefficients[0] != 0 {
        return Ok(None);
    }
    let quotient = Vec::from_slice(alloc, &coefficients[1..])?;
    Ok(Some(Poly::of_coefficients(quotient)))
}

/// The coefficients of the quotient by a divisor other than x, from the constant upwards.
fn quotient(
    alloc: Global,
    coefficients: &[i128],
    divisor: Divisor,
) -> Result<Option<Vec<i128>>, EigenFault>
    requires poly { IsPoly coefficients.now }
    requires divisor { the_divisor (factor_of divisor) ≢ pos 0 }
    ensures some { IfOk result (λ answer. IfSome answer (λ q.
        IsDividedInRange (factor_of divisor) coefficients.now q.items)) }
    ensures none { IfOk result (λ answer. IfNone answer
        (IsDivided (factor_of divisor) coefficients.now None)) }
    ensures fits { IfOk result (λ answer. DivisionFits (factor_of divisor) coefficients.now) }
    ensures fault { IfErr result (IsDivisionFault (factor_of divisor) coefficients.now) }
{
    let mut quotient = Vec::new(alloc);
    let mut before = Whole::new(0);
    let mut last = Whole::new(0);
    'coefficients: for coefficient in coefficients {
        let Ok(number) = numerator(divisor, before, last, Whole::new(*coefficient)) else {
            return Err(EigenFault::Wide {
                node: divisor.node(),
            });
        };
        let Some(next) = number.whole_quotient(divisor.constant()) else {
            return Ok(None);
        };
        quotient.push(next.value)?;
        before = last;
        last = next;
    }
    if !is_over(divisor, before, last) {
        return Ok(None);
    }
    shorten(divisor, &mut quotient);
    Ok(Some(quotient))
}

/// The numerator of the next coefficient, after two of the quotient.
fn numerator(
    divisor: Divisor,
    before: Whole,
    last: Whole,
    coefficient: Whole,
) -> Result<Whole, Wide>
    ensures { IsNumerator (factor_of divisor) before.value last.value coefficient.value result }
{
    match divisor {
        Divisor::Linear { .. } => last.minus(coefficient),
        Divisor::Quadratic { s, .. } => {
            let s = Whole::new(i128::from(s));
            coefficient.plus(s.times(last)?)?.minus(before)
        }
    }
}

/// Whether nothing is left over at the end, after the last two coefficients.
fn is_over(divisor: Divisor, before: Whole, last: Whole) -> bool
    ensures { IsTrue result ↔ IsOver (factor_of divisor) before.value last.value }
{
    match divisor {
        Divisor::Linear { .. } => last.is_zero(),
        Divisor::Quadratic { .. } => before.is_zero() && last.is_zero(),
    }
}

/// Takes the zeros from the end: one for `x - r`, and two for `x² - sx + t`.
fn shorten(divisor: Divisor, quotient: &mut Vec<i128>)
    ensures { quotient.new.items ≡ shortened (factor_of divisor) quotient.old.items }
{
    quotient.pop();
    if let Divisor::Quadratic { .. } = divisor {
        quotient.pop();
    }
}
