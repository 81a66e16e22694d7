//! The recurrence of the polynomials of an array.

ghost use Rattle.std.specs.Prelude.{◌≡◌, ◌≤◌, ◌<◌, suc, IfOk, IfErr};
ghost use Rattle.std.specs.List.{AllByRecursion};
ghost use Rattle.drg_array.specs.Entries.{diameter};
ghost use Rattle.drg_array.specs.declared.node.Node.TheVariants as node;
ghost use Rattle.drg_eigen.specs.Characteristic.{characteristic as the_characteristic, polynomial};
ghost use Rattle.drg_eigen.specs.Fits.{AllFit, AllFitBelow, IsFault, coefficient as the_coefficient, coefficient_before as the_coefficient_before, next_coefficient as the_next_coefficient};
ghost use Rattle.drg_whole.specs.Range.{Gives, InRange};
ghost use Rattle.drg_whole.specs.Whole.{value_of};
ghost use Rattle.drg_eigen.specs.Simple.{IsSimple};
ghost use Rattle.drg_eigen.specs.Work.{next_fits};
ghost use Rattle.drg_eigen.specs.declared.fault.EigenFault.TheVariants as fault;

use crate::fault::EigenFault;
use crate::poly::Poly;
use drg_array::{Array, Node};
use drg_whole::{Whole, Wide};
use std::alloc::Global;

/// The characteristic polynomial F_(d+1) of the array, where d is its diameter. A fault names the
/// first F_j with a product or a difference above 2^127 - 1 in magnitude.
pub fn characteristic(alloc: Global, array: &Array) -> Result<Poly, EigenFault>
    ensures polynomial { IfOk result (λ p. p ≡ the_characteristic array.now) }
    ensures simple { IfOk result (λ p. IsSimple p) }
    ensures fits { IfOk result (λ p. AllFit array.now) }
    ensures fault { IfErr result (IsFault array.now) }
{
    let mut before = Vec::from_slice(alloc, &[1i128])?;
    let mut last = Vec::from_slice(alloc, &[0i128, 1])?;
    'polynomials: for j in 0..array.d() {
        let next = next_polynomial(alloc, array, j, &before, &last)?;
        before = last;
        last = next;
    }
    Ok(Poly::of_coefficients(last))
}

/// F_(j+2), from F_j and F_(j+1).
fn next_polynomial(
    alloc: Global,
    array: &Array,
    j: usize,
    before: &[i128],
    last: &[i128],
) -> Result<Vec<i128>, EigenFault>
    requires inside { j < diameter array.now }
    requires before { before.now ≡ polynomial array.now j }
    requires last { last.now ≡ polynomial array.now (suc j) }
    requires before_in_range { AllByRecursion InRange before.now }
    requires last_in_range { AllByRecursion InRange last.now }
    requires reached { AllFitBelow array.now (suc (suc j)) }
    ensures next { IfOk result (λ next. next.items ≡ polynomial array.now (suc (suc j))) }
    ensures in_range { IfOk result (λ next. AllByRecursion InRange next.items) }
    ensures reached { IfOk result (λ next. AllFitBelow array.now (suc (suc (suc j)))) }
    ensures fault { IfErr result (IsFault array.now) }
{
    array.known_valid();
    let mut next = Vec::new(alloc);
    'coefficients: for t in 0..j + 3 {
        let Ok(coefficient) = next_coefficient(array, j, before, last, t) else {
            return Err(wide(j + 2));
        };
        next.push(coefficient.value)?;
    }
    Ok(next)
}

/// The fault that names F_j.
fn wide(j: usize) -> EigenFault
    requires { j < 256 }
    ensures { result ≡ fault.Wide (node.Poly j) }
{
    EigenFault::Wide {
        node: Node::Poly { j: j as u8 },
    }
}

/// The coefficient of x^t in F_(j+2), from F_j and F_(j+1).
fn next_coefficient(
    array: &Array,
    j: usize,
    before: &[i128],
    last: &[i128],
    t: usize,
) -> Result<Whole, Wide>
    requires inside { j < diameter array.now }
    requires before { AllByRecursion InRange before.now }
    requires last { AllByRecursion InRange last.now }
    ensures { Gives value_of result (next_fits array.now j before.now last.now t)
        (the_next_coefficient array.now j before.now last.now t) }
{
    array.known_valid();
    let a = Whole::new(i128::from(array.a(j + 1)));
    let first = coefficient_before(last, t).less_product(a, coefficient(last, t))?;
    let weight = Whole::from(array.b(j)).times(Whole::from(array.c(j + 1)))?;
    first.less_product(weight, coefficient(before, t))
}

/// The coefficient of x^t, and 0 past the last one.
fn coefficient(polynomial: &[i128], t: usize) -> Whole
    requires { AllByRecursion InRange polynomial.now }
    ensures { result.value ≡ the_coefficient polynomial.now t }
{
    if t < polynomial.len() {
        Whole::new(polynomial[t])
    } else {
        Whole::new(0)
    }
}

/// The coefficient of x^(t-1), and 0 for t = 0.
fn coefficient_before(polynomial: &[i128], t: usize) -> Whole
    requires { AllByRecursion InRange polynomial.now }
    ensures { result.value ≡ the_coefficient_before polynomial.now t }
{
    if t == 0 {
        return Whole::new(0);
    }
    coefficient(polynomial, t - 1)
}
