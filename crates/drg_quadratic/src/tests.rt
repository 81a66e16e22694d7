ghost use Rattle.std.specs.Prelude.{◌≡◌, ◌≤◌, unsigned_abs};
ghost use Rattle.drg_quadratic.specs.Quadratic.{root_of};

use crate::{
    Eigenvalue, Quadratic, comparisons_fit, eigenvalues_are_ordered, split_square, values_descend,
    zero_by_parts,
};
use drg_fraction::{Field, Fraction, Wide, dot, sum, values_are_a_field};
use std::alloc::{AllocError, Global};
use std::cmp::Ordering;
use std::test::Fail;

/// The number `a + b√2`.
fn over_two(a: i64, b: i64) -> Quadratic
    ensures { root_of result ≡ 2 }
{
    let a = Fraction::make(i128::from(a), 1);
    let b = Fraction::make(i128::from(b), 1);
    Quadratic::make(a, b, 2)
}

/// The same number, by its parts.
fn by_parts(a: i64, b: i64) -> Quadratic
    ensures { root_of result ≡ 2 }
{
    let a = Fraction::make(i128::from(a), 1);
    let b = Fraction::make(i128::from(b), 1);
    Quadratic::of_parts(2, a, b)
}

/// The number `(s + f√5)/2`.
fn half_over_five(s: i128, f: i128) -> Quadratic
    requires s { unsigned_abs s ≤ 65536 }
    requires f { unsigned_abs f ≤ 65536 }
{
    Quadratic::of_halves(5, s, f)
}

/// The numerator and the denominator of a, and those of b.
fn parts_of(number: Quadratic) -> [i128; 4] {
    let (a, b) = (number.a(), number.b());
    [a.num(), a.den(), b.num(), b.den()]
}

/// The parts, or nothing where the answer is Wide.
fn shown(answer: Result<Quadratic, Wide>) -> Option<[i128; 4]> {
    match answer {
        Ok(number) => Some(parts_of(number)),
        Err(Wide) => None,
    }
}

/// The quotient, and Wide where the divisor is 0.
fn quotient(x: Quadratic, y: Quadratic) -> Result<Quadratic, Wide>
    requires { root_of x ≡ root_of y }
{
    if y.is_zero() { Err(Wide) } else { x.div(y) }
}

#[test]
fn operations(rt: HostRuntime) {
    let one = over_two(1, 0);
    let x = over_two(1, 1);
    let y = over_two(1, -1);
    let least = over_two(0, i64::MIN);
    for (answer, want) in [
        (x.add(y), Some([2, 1, 0, 1])),
        (x.sub(y), Some([0, 1, 2, 1])),
        (by_parts(1, 1).sub(y), Some([0, 1, 2, 1])),
        (x.mul(over_two(-3, 0)), Some([-3, 1, -3, 1])),
        (x.mul(y), Some([-1, 1, 0, 1])),
        (quotient(one, over_two(3, -2)), Some([3, 1, 2, 1])),
        (quotient(one, over_two(0, 2)), Some([0, 1, 1, 4])),
        (
            least.mul(over_two(0, i64::MAX)),
            Some([(1 << 64) - i128::MAX - 1, 1, 0, 1]),
        ),
        (least.mul(least), None),
        (quotient(one, least), None),
    ] {
        assert_eq!(rt; shown(answer), want);
    }
    assert_eq!(rt; parts_of(half_over_five(-1, 3)), [-1, 2, 3, 2]);
}

#[test]
fn comparisons(rt: HostRuntime) {
    for (number, sign, whole) in [
        (over_two(3, -2), Ok(Ordering::Greater), None),
        (over_two(1, -1), Ok(Ordering::Less), None),
        (over_two(-3, 2), Ok(Ordering::Less), None),
        (over_two(-1, 1), Ok(Ordering::Greater), None),
        (over_two(0, 0), Ok(Ordering::Equal), Some(0)),
        (over_two(-7, 0), Ok(Ordering::Less), Some(-7)),
        (over_two(0, 1), Ok(Ordering::Greater), None),
        (over_two(-1, i64::MIN), Ok(Ordering::Less), None),
        (over_two(1, i64::MIN), Err(Wide), None),
    ] {
        assert_eq!(rt; number.sign(), sign);
        assert_eq!(rt; number.as_int(), whole);
        assert_eq!(rt; number.is_zero(), whole == Some(0));
        assert_eq!(rt; number.root(), 2);
        assert_eq!(rt; number.same(over_two(-7, 0)), whole == Some(-7));
    }
}

/// The text that is appended to nothing.
fn text_of(alloc: Global, number: Quadratic) -> Result<Vec<u8>, AllocError> {
    let mut out = Vec::new(alloc);
    number.write_text(&mut out)?;
    Ok(out)
}

#[test]
fn texts(rt: HostRuntime) -> Result<(), Fail> {
    for (number, want) in [
        (half_over_five(-1, 1), "-1/2+1/2r5"),
        (half_over_five(6, -1), "3-1/2r5"),
        (over_two(0, 1), "1r2"),
        (over_two(0, -1), "-1r2"),
        (over_two(-7, 0), "-7"),
        (over_two(0, 0), "0"),
    ] {
        assert_eq!(rt; text_of(rt.alloc(), number)?.as_slice(), want.as_bytes());
    }
    Ok(())
}

#[test]
fn sums_of_lists(rt: HostRuntime) {
    values_are_a_field::<Quadratic>();
    zero_by_parts();
    let left = [over_two(1, 1), over_two(0, 1)];
    let right = [over_two(1, -1), over_two(0, 1)];
    assert_eq!(rt; shown(sum(2, &left)), Some([1, 1, 2, 1]));
    assert_eq!(rt; shown(dot(2, &left, &right)), Some([1, 1, 0, 1]));
}

/// The eigenvalue `(s + f√5)/2`.
fn eigenvalue_over_five(s: i32, f: i32) -> Eigenvalue
    requires s { unsigned_abs s ≤ 65536 }
    requires f { unsigned_abs f ≤ 65536 }
{
    Eigenvalue::make(s, f, 5)
}

/// The eigenvalue `s/2`.
fn rational_eigenvalue(s: i32) -> Eigenvalue
    requires s { unsigned_abs s ≤ 65536 }
{
    Eigenvalue::make(s, 0, 0)
}

#[test]
fn eigenvalues(rt: HostRuntime) {
    eigenvalues_are_ordered();
    values_descend::<Fraction>();
    values_descend::<Quadratic>();
    comparisons_fit();
    let golden = eigenvalue_over_five(1, 1);
    for (x, y, order) in [
        (golden, eigenvalue_over_five(2, 0), Ordering::Greater),
        (
            eigenvalue_over_five(1, -1),
            eigenvalue_over_five(2, 0),
            Ordering::Less,
        ),
        (golden, eigenvalue_over_five(1, 1), Ordering::Equal),
        (eigenvalue_over_five(3, 0), golden, Ordering::Less),
        (eigenvalue_over_five(4, 0), golden, Ordering::Greater),
        (
            eigenvalue_over_five(65536, -65536),
            eigenvalue_over_five(-65536, 65536),
            Ordering::Less,
        ),
        (
            rational_eigenvalue(7),
            rational_eigenvalue(-7),
            Ordering::Greater,
        ),
        (rational_eigenvalue(7), golden, Ordering::Less),
    ] {
        assert_eq!(rt; x.cmp(&y), order);
        assert_eq!(rt; y.partial_cmp(&x), Some(order.reverse()));
        assert_eq!(rt; x == y, order == Ordering::Equal);
    }
    assert_eq!(rt; (golden.s(), golden.f(), golden.root()), (1, 1, 5));
}

#[test]
fn squares(rt: HostRuntime) {
    for (answer, want) in [
        (split_square(1), (1, 1)),
        (split_square(2), (1, 2)),
        (split_square(4), (2, 1)),
        (split_square(12), (2, 3)),
        (split_square(18), (3, 2)),
        (split_square(72), (6, 2)),
        (split_square(4_294_836_225), (65535, 1)),
        (split_square(4_294_967_291), (1, 4_294_967_291)),
        (split_square(4_294_967_295), (1, 4_294_967_295)),
    ] {
        assert_eq!(rt; answer, want);
    }
}
