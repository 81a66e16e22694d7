ghost use Rattle.std.specs.Prelude.{◌≡◌};

use crate::{Field, Fraction, Wide, dot, gcd, sum, values_are_a_field};
use std::alloc::{AllocError, Global};
use std::cmp::Ordering;
use std::test::Fail;

/// The greatest number in range.
const MOST: i128 = i128::MAX;

/// The numerator and the denominator, or nothing where the answer is Wide.
fn shown(answer: Result<Fraction, Wide>) -> Option<(i128, i128)> {
    match answer {
        Ok(value) => Some((value.num(), value.den())),
        Err(Wide) => None,
    }
}

/// The quotient, and Wide where the divisor is 0.
fn quotient(x: Fraction, y: Fraction) -> Result<Fraction, Wide> {
    if y.is_zero() { Err(Wide) } else { x.div(y) }
}

#[test]
fn divisors(rt: HostRuntime) {
    for (a, b, want) in [
        (0, 0, 0),
        (0, -5, 5),
        (-12, 18, 6),
        (7, 9, 1),
        (-MOST, MOST, MOST),
    ] {
        assert_eq!(rt; gcd(a, b), want, "of {a} and {b}");
    }
}

#[test]
fn lowest_terms(rt: HostRuntime) {
    for (value, want) in [
        (Fraction::make(2, 4), (1, 2)),
        (Fraction::make(3, -6), (-1, 2)),
        (Fraction::make(-3, -6), (1, 2)),
        (Fraction::make(0, -5), (0, 1)),
        (Fraction::make(MOST, -MOST), (-1, 1)),
        (Fraction::make(1, -MOST), (-1, MOST)),
    ] {
        assert_eq!(rt; (value.num(), value.den()), want);
    }
}

#[test]
fn sums_and_differences(rt: HostRuntime) {
    let one = Fraction::make(1, 1);
    let most = Fraction::make(MOST, 1);
    for (answer, want) in [
        (
            Fraction::make(1, 6).add(Fraction::make(1, 10)),
            Some((4, 15)),
        ),
        (
            Fraction::make(1, 6).sub(Fraction::make(1, 10)),
            Some((1, 15)),
        ),
        (
            Fraction::make(1, 1 << 100).add(Fraction::make(
                1,
                42_391_158_275_216_203_514_294_433_201,
            )),
            None,
        ),
        (Fraction::make(MOST - 1, 1).add(one), Some((MOST, 1))),
        (most.add(one), None),
        (
            Fraction::make(-MOST, 1).sub(Fraction::make(0, 1)),
            Some((-MOST, 1)),
        ),
        (Fraction::make(-MOST, 1).sub(one), None),
        (Fraction::make(1 - MOST, 1).sub(one), Some((-MOST, 1))),
        (
            Fraction::make(1, 1 << 125).add(Fraction::make(1, 3)),
            Some(((1 << 125) + 3, 3 << 125)),
        ),
        (Fraction::make(1, 1 << 126).add(Fraction::make(1, 3)), None),
        (
            Fraction::make(1, MOST).sub(Fraction::make(1, MOST)),
            Some((0, 1)),
        ),
        (
            Fraction::make(0, 1).sub(Fraction::make(MOST, 2)),
            Some((-MOST, 2)),
        ),
        (
            Fraction::make(1, MOST).add(Fraction::make(0, 1)),
            Some((1, MOST)),
        ),
        (Ok(Fraction::make(-1, 2).negated()), Some((1, 2))),
    ] {
        assert_eq!(rt; shown(answer), want);
    }
}

#[test]
fn products_and_quotients(rt: HostRuntime) {
    let big = Fraction::make(1 << 64, 1);
    let small = Fraction::make(1, 1 << 63);
    for (answer, want) in [
        (
            Fraction::make(6, 35).mul(Fraction::make(-14, 9)),
            Some((-4, 15)),
        ),
        (
            quotient(Fraction::make(6, 35), Fraction::make(-9, 14)),
            Some((-4, 15)),
        ),
        (
            Fraction::make(MOST, 1).mul(Fraction::make(1, MOST)),
            Some((1, 1)),
        ),
        (
            Fraction::make(MOST, 1).mul(Fraction::make(-1, 1)),
            Some((-MOST, 1)),
        ),
        (
            big.mul(Fraction::make((1 << 63) - 1, 1)),
            Some((((1 << 63) - 1) << 64, 1)),
        ),
        (big.mul(Fraction::make(1 << 63, 1)), None),
        (big.mul(Fraction::make(-1 << 63, 1)), None),
        (small.mul(small), Some((1, 1 << 126))),
        (small.mul(Fraction::make(1, 1 << 64)), None),
        (quotient(big, small), None),
        (quotient(small, big), None),
        (
            quotient(small, Fraction::make(1 << 63, 1)),
            Some((1, 1 << 126)),
        ),
        (quotient(Fraction::make(0, 1), small), Some((0, 1))),
        (
            Fraction::make(1, MOST).mul(Fraction::make(0, 1)),
            Some((0, 1)),
        ),
        (Fraction::make(2, -3).squared(), Some((4, 9))),
        (small.squared(), Some((1, 1 << 126))),
        (big.squared(), None),
    ] {
        assert_eq!(rt; shown(answer), want);
    }
}

#[test]
fn comparisons(rt: HostRuntime) {
    for (value, sign, whole) in [
        (Fraction::make(-1, 2), Ordering::Less, None),
        (Fraction::make(0, 3), Ordering::Equal, Some(0)),
        (Fraction::make(1, 2), Ordering::Greater, None),
        (Fraction::make(-6, 3), Ordering::Less, Some(-2)),
        (Fraction::make(MOST, 1), Ordering::Greater, Some(MOST)),
    ] {
        assert_eq!(rt; value.sign(), Ok(sign));
        assert_eq!(rt; value.as_int(), whole);
        assert_eq!(rt; value.is_zero(), sign == Ordering::Equal);
    }
    let half = Fraction::make(1, 2);
    assert!(rt; half.same(Fraction::make(2, 4)));
    assert!(rt; !half.same(Fraction::make(1, 3)));
    assert!(rt; !half.same(Fraction::make(-1, 2)));
}

/// The text that is appended to nothing.
fn text_of(alloc: Global, value: Fraction) -> Result<Vec<u8>, AllocError> {
    let mut out = Vec::new(alloc);
    value.write_text(&mut out)?;
    Ok(out)
}

#[test]
fn texts(rt: HostRuntime) -> Result<(), Fail> {
    for (value, want) in [
        (Fraction::make(8, 30), "4/15"),
        (Fraction::make(1, -2), "-1/2"),
        (Fraction::make(14, 2), "7"),
        (Fraction::make(0, 9), "0"),
        (
            Fraction::make(-MOST, 1),
            "-170141183460469231731687303715884105727",
        ),
        (
            Fraction::make(1, MOST),
            "1/170141183460469231731687303715884105727",
        ),
    ] {
        assert_eq!(rt; text_of(rt.alloc(), value)?.as_slice(), want.as_bytes());
    }
    Ok(())
}

#[test]
fn sums_of_lists(rt: HostRuntime) {
    let parts = [
        Fraction::make(1, 2),
        Fraction::make(1, 3),
        Fraction::make(1, 6),
    ];
    assert_eq!(rt; shown(sum(0, &parts)), Some((1, 1)));
    assert_eq!(rt; shown(sum::<Fraction>(0, &[])), Some((0, 1)));
    let scales = [
        Fraction::make(2, 1),
        Fraction::make(-3, 1),
        Fraction::make(4, 1),
    ];
    assert_eq!(rt; shown(dot(0, &parts, &scales)), Some((2, 3)));
    assert_eq!(rt; shown(dot::<Fraction>(0, &[], &[])), Some((0, 1)));
    let most = Fraction::make(MOST, 1);
    let one = Fraction::make(1, 1);
    let less = Fraction::make(-1, 1);
    assert_eq!(rt; shown(sum(0, &[most, less, one])), Some((MOST, 1)));
    assert_eq!(rt; shown(sum(0, &[most, one, less])), None);
    assert_eq!(rt;
        shown(dot(0, &[most, one], &[one, less])),
        Some((MOST - 1, 1))
    );
    assert_eq!(rt; shown(dot(0, &[most, one], &[one, one])), None);
}

/// Whether each call of an exact field answers as its laws say, for two values of one root.
fn each_call<F: Field>(root: u32, x: F, y: F) -> Result<bool, Wide>
    requires allowed { F.HasRoot root }
    requires x { F.root_of x ≡ root }
    requires y { F.root_of y ≡ root }
{
    let one = F::of_int(root, 2).mul(F::of_halves(root, 1, 0))?;
    let back = x.add(y)?.sub(y)?;
    let product = x.mul(y)?;
    let divided = if y.is_zero() { x } else { product.div(y)? };
    let (whole, rest) = one.parts();
    let (a, b) = x.parts();
    Ok(
        back.same(x)
            && F::of_parts(root, a, b).same(x)
            && divided.same(x)
            && one.root() == root
            && one.as_int() == Some(1)
            && one.sign()? == Ordering::Greater
            && whole.num() == 1
            && rest.is_zero(),
    )
}

#[test]
fn fractions_through_their_bound(rt: HostRuntime) {
    values_are_a_field::<Fraction>();
    let x = Fraction::make(3, 7);
    let y = Fraction::make(-5, 9);
    assert_eq!(rt; each_call(0, x, y), Ok(true));
    assert_eq!(rt; each_call(0, y, Fraction::make(0, 1)), Ok(true));
    assert_eq!(rt; each_call(0, Fraction::make(MOST, 1), x), Err(Wide));
}
