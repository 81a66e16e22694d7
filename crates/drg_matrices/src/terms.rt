//! The numbers of an array and its eigenvalues as members of an exact field.

ghost use Rattle.std.specs.Prelude.{◌≡◌, ◌≤◌, ◌<◌, suc, pos, ◌<ℤ◌, IfOk, All, map, length};
ghost use Rattle.drg_algebra.specs.Rational.{whole};
ghost use Rattle.drg_array.specs.Entries.{IsArray, a_at, b_at, c_at, diameter};
ghost use Rattle.drg_intersection.specs.Numbers.{AreNumbersOf};
ghost use Rattle.drg_whole.specs.Range.{InRange};
ghost use Rattle.drg_matrices.specs.Values.{a_value, b_value, c_value, count_value, eigenvalue_in, size_value};

use drg_array::Array;
use drg_fraction::Field;
use drg_intersection::Numbers;
use drg_quadratic::Eigenvalue;
use std::alloc::{AllocError, Global};

/// The whole number over the root of another value.
pub(crate) fn number<F: Field>(like: F, number: i128) -> F
    requires { InRange number }
    ensures value { F.value result ≡ (F.operations (F.root_of like)).rational (whole number) }
    ensures root { F.root_of result ≡ F.root_of like }
{
    F::of_int(like.root(), number)
}

/// The entry `b_i` of the array.
pub(crate) fn b<F: Field>(array: &Array, like: F, i: usize) -> F
    requires { i < diameter array.now }
    ensures value { let o = F.operations (F.root_of like) in
        F.value result ≡ b_value o array.now i }
    ensures nonzero { ¬ (F.value result ≡ (F.operations (F.root_of like)).nil) }
    ensures root { F.root_of result ≡ F.root_of like }
{
    array.known_valid();
    number(like, i128::from(array.b(i)))
}

/// The entry `c_i` of the array.
pub(crate) fn c<F: Field>(array: &Array, like: F, i: usize) -> F
    requires { i ≤ diameter array.now }
    ensures value { let o = F.operations (F.root_of like) in
        F.value result ≡ c_value o array.now i }
    ensures root { F.root_of result ≡ F.root_of like }
{
    number(like, i128::from(array.c(i)))
}

/// The number `a_i` of the array.
pub(crate) fn a<F: Field>(array: &Array, like: F, i: usize) -> F
    requires { i ≤ diameter array.now }
    ensures value { let o = F.operations (F.root_of like) in
        F.value result ≡ a_value o array.now i }
    ensures root { F.root_of result ≡ F.root_of like }
{
    number(like, i128::from(array.a(i)))
}

/// The size k_i of the array.
pub(crate) fn size<F: Field>(array: &Array, numbers: &Numbers, like: F, i: usize) -> F
    requires numbers { AreNumbersOf array.now numbers.now }
    requires inside { i ≤ diameter array.now }
    ensures value { let o = F.operations (F.root_of like) in
        F.value result ≡ size_value o array.now i }
    ensures root { F.root_of result ≡ F.root_of like }
{
    number(like, numbers.k(i))
}

/// The number of vertices of the array.
pub(crate) fn count<F: Field>(array: &Array, numbers: &Numbers, like: F) -> F
    requires { AreNumbersOf array.now numbers.now }
    ensures value { let o = F.operations (F.root_of like) in
        F.value result ≡ count_value o array.now }
    ensures root { F.root_of result ≡ F.root_of like }
{
    number(like, numbers.n())
}

/// The values of the eigenvalues, which are over the root.
pub(crate) fn thetas_of<F: Field>(
    alloc: Global,
    root: u32,
    thetas: &[Eigenvalue],
) -> Result<Vec<F>, AllocError>
    requires allowed { F.HasRoot root }
    requires over { All (λ x. x.root ≡ root) thetas.now }
    ensures values { IfOk result (λ xs. map F.value xs.items
        ≡ map (eigenvalue_in (F.operations root)) thetas.now) }
    ensures roots { IfOk result (λ xs. All (λ x. F.root_of x ≡ root) xs.items) }
{
    let mut values = Vec::new(alloc);
    'thetas: for theta in thetas {
        values.push(theta_of(root, *theta))?;
    }
    Ok(values)
}

/// The value of an eigenvalue over the root.
fn theta_of<F: Field>(root: u32, theta: Eigenvalue) -> F
    requires allowed { F.HasRoot root }
    requires over { theta.root ≡ root }
    ensures value { F.value result ≡ eigenvalue_in (F.operations root) theta }
    ensures root { F.root_of result ≡ root }
{
    F::of_halves(root, i128::from(theta.s()), i128::from(theta.f()))
}
