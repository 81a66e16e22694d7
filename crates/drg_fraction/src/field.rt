ghost use Rattle.std.specs.Prelude.{◌≡◌, ◌≤◌, ℕ, ℤ, pos, unsigned_abs, is_ok, IfOk, IfSome, MatchOption, IsTrue, ◌↔◌, map, fold, length, All};
ghost use Rattle.drg_algebra.specs.Rational.{whole};
ghost use Rattle.drg_whole.specs.Range.{InRange, Gives};
ghost use Rattle.drg_fraction.specs.Fraction.{rational_of};
ghost use Rattle.drg_fraction.specs.Operations.{Operations};
ghost use Rattle.drg_fraction.specs.Members.{AreOrderedField};
ghost use Rattle.drg_fraction.specs.Field.{IsExactField, HasSign, sum_of, sums_fit, sums_fit_from, products, dot_of, dot_fits, dot_fits_from};

use crate::fraction::Fraction;
use drg_whole::Wide;
use std::cmp::Ordering;

/// Values `a + b√root` with rational a and b, where each operation gives the exact value, or refuses
/// with `Wide` exactly where one of its work numbers has magnitude above `2^127 - 1`. All values of
/// one computation have one root.
pub trait Field: Copy {
    // What a member stands for, and its root.
    ghost V: { Type 0 };

    ghost value: { Self → V };

    ghost root_of: { Self → ℕ };

    // The roots that the type has, and the operations on the values over a root.
    ghost HasRoot: { ℕ → Type 0 };

    ghost operations: { ℕ → Operations V };

    /// The root, which is 0 for a rational type.
    fn root(&self) -> u32
        ensures { result ≡ root_of self.now };

    /// The whole number `v`.
    fn of_int(root: u32, v: i128) -> Self
        requires range { InRange v }
        requires root { HasRoot root }
        ensures value { value result ≡ (operations root).rational (whole v) }
        ensures root { root_of result ≡ root };

    /// The value `(s + f√root)/2`.
    fn of_halves(root: u32, s: i128, f: i128) -> Self
        requires s { unsigned_abs s ≤ 65536 }
        requires f { unsigned_abs f ≤ 65536 }
        requires flat { root ≡ 0 → f ≡ pos 0 }
        requires root { HasRoot root }
        ensures value { let o = operations root in o.plus (value result) (value result)
            ≡ o.plus (o.rational (whole s)) (o.times (o.rational (whole f)) o.square_root) }
        ensures root { root_of result ≡ root };

    /// The value `a + b√root`.
    fn of_parts(root: u32, a: Fraction, b: Fraction) -> Self
        requires flat { root ≡ 0 → rational_of b ≡ whole (pos 0) }
        requires root { HasRoot root }
        ensures value { let o = operations root in value result
            ≡ o.plus (o.rational (rational_of a)) (o.times (o.rational (rational_of b)) o.square_root) }
        ensures rational_part { (operations root).rational_part (value result) ≡ rational_of a }
        ensures root_part { (operations root).root_part (value result) ≡ rational_of b }
        ensures root { root_of result ≡ root };

    /// The sum.
    fn add(self, other: Self) -> Result<Self, Wide>
        requires { root_of self ≡ root_of other }
        ensures value { let o = operations (root_of self) in Gives value result
            (o.sum_fits (value self) (value other)) (o.plus (value self) (value other)) }
        ensures root { IfOk result (λ r. root_of r ≡ root_of self) };

    /// The difference.
    fn sub(self, other: Self) -> Result<Self, Wide>
        requires { root_of self ≡ root_of other }
        ensures value { let o = operations (root_of self) in Gives value result
            (o.difference_fits (value self) (value other))
            (o.plus (value self) (o.minus (value other))) }
        ensures root { IfOk result (λ r. root_of r ≡ root_of self) };

    /// The product.
    fn mul(self, other: Self) -> Result<Self, Wide>
        requires { root_of self ≡ root_of other }
        ensures value { let o = operations (root_of self) in Gives value result
            (o.product_fits (value self) (value other)) (o.times (value self) (value other)) }
        ensures root { IfOk result (λ r. root_of r ≡ root_of self) };

    /// The quotient by a divisor that isn't 0.
    fn div(self, other: Self) -> Result<Self, Wide>
        requires root { root_of self ≡ root_of other }
        requires nonzero { ¬ (value other ≡ (operations (root_of self)).nil) }
        ensures value { let o = operations (root_of self) in Gives value result
            (o.quotient_fits (value self) (value other))
            (o.times (value self) (o.invert (value other))) }
        ensures root { IfOk result (λ r. root_of r ≡ root_of self) };

    /// Whether the value is 0.
    fn is_zero(&self) -> bool
        ensures { IsTrue result ↔ (value self.now ≡ (operations (root_of self.now)).nil) };

    /// Whether both stand for one value.
    fn same(&self, other: Self) -> bool
        requires { root_of self.now ≡ root_of other }
        ensures { IsTrue result ↔ (value self.now ≡ value other) };

    /// How the value stands to 0: `Less` where it is negative, `Greater` where it is positive.
    fn sign(&self) -> Result<Ordering, Wide>
        ensures value { IfOk result (HasSign (operations (root_of self.now)) (value self.now)) }
        ensures wide { is_ok result ≡ (operations (root_of self.now)).sign_fits (value self.now) };

    /// The whole number that the value is, if it is one.
    fn as_int(&self) -> Option<i128>
        ensures whole { let o = operations (root_of self.now) in MatchOption result
            ((n : ℤ) → ¬ (value self.now ≡ o.rational (whole n)))
            (λ n. value self.now ≡ o.rational (whole n)) }
        ensures range { IfSome result InRange };

    /// The a and the b of `a + b√root`; b is 0 where the root is 0.
    fn parts(&self) -> (Fraction, Fraction)
        ensures rational_part { rational_of result.0
            ≡ (operations (root_of self.now)).rational_part (value self.now) }
        ensures root_part { rational_of result.1
            ≡ (operations (root_of self.now)).root_part (value self.now) };

    // The values over a root of the type are an exact field.
    ghost laws: { (root : ℕ) → HasRoot root → IsExactField (operations root) root };

    // Each member has a root of the type, and its value belongs to that root.
    ghost has_root: { (x : Self) → HasRoot (root_of x) };

    ghost over: { (x : Self) → (operations (root_of x)).IsOver (value x) };

    // A value over a root has one member.
    ghost one_member: { (x y : Self) → root_of x ≡ root_of y → value x ≡ value y → x ≡ y };
}

/// The sum of the items from left to right, starting at the first one, and 0 for none. All items
/// have the root.
pub fn sum<F: Field>(root: u32, items: &[F]) -> Result<F, Wide>
    requires allowed { F.HasRoot root }
    requires items { All (λ x. F.root_of x ≡ root) items.now }
    ensures value { Gives F.value result
        (sums_fit (F.operations root) (map F.value items.now))
        (sum_of (F.operations root) (map F.value items.now)) }
    ensures root { IfOk result (λ r. F.root_of r ≡ root) }
{
    match items {
        [] => Ok(F::of_int(root, 0)),
        [first, rest @ ..] => sum_from(*first, rest),
    }
}

// The first value and the rest from left to right.
fn sum_from<F: Field>(first: F, rest: &[F]) -> Result<F, Wide>
    requires { All (λ x. F.root_of x ≡ F.root_of first) rest.now }
    ensures value { let o = F.operations (F.root_of first) in Gives F.value result
        (sums_fit_from o (F.value first) (map F.value rest.now))
        (fold o.plus (F.value first) (map F.value rest.now)) }
    ensures root { IfOk result (λ r. F.root_of r ≡ F.root_of first) }
{
    let mut total = first;
    'items: for item in rest {
        total = total.add(*item)?;
    }
    Ok(total)
}

/// The sum of the products of the items at one place, from left to right, starting at the first
/// product, and 0 for none. All items have the root.
pub fn dot<F: Field>(root: u32, left: &[F], right: &[F]) -> Result<F, Wide>
    requires allowed { F.HasRoot root }
    requires lengths { length left.now ≡ length right.now }
    requires left { All (λ x. F.root_of x ≡ root) left.now }
    requires right { All (λ x. F.root_of x ≡ root) right.now }
    ensures value { let xs = map F.value left.now in let ys = map F.value right.now in
        Gives F.value result
        (dot_fits (F.operations root) xs ys) (dot_of (F.operations root) xs ys) }
    ensures root { IfOk result (λ r. F.root_of r ≡ root) }
{
    match (left, right) {
        ([x, xs @ ..], [y, ys @ ..]) => dot_from(x.mul(*y)?, xs, ys),
        _ => Ok(F::of_int(root, 0)),
    }
}

// The first value and the products of the items at one place, from left to right.
fn dot_from<F: Field>(first: F, left: &[F], right: &[F]) -> Result<F, Wide>
    requires lengths { length left.now ≡ length right.now }
    requires left { All (λ x. F.root_of x ≡ F.root_of first) left.now }
    requires right { All (λ x. F.root_of x ≡ F.root_of first) right.now }
    ensures value { let xs = map F.value left.now in let ys = map F.value right.now in
        let o = F.operations (F.root_of first) in Gives F.value result
        (dot_fits_from o (F.value first) xs ys) (fold o.plus (F.value first) (products o xs ys)) }
    ensures root { IfOk result (λ r. F.root_of r ≡ F.root_of first) }
{
    let mut total = first;
    'items: for (place, item) in left.iter().enumerate() {
        let product = item.mul(right[place])?;
        total = total.add(product)?;
    }
    Ok(total)
}

/// The values over a root are an ordered field, by the laws alone, so that each law of ordered fields
/// holds of them.
pub fn values_are_a_field<F: Field>()
    ensures { (root : ℕ) → F.HasRoot root → AreOrderedField (F.operations root) }
{}
