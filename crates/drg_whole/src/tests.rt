//! Values by hand, at the ends of the range too.
use crate::{Product, Residue, Whole, Wide, gcd, sum_onto};
use std::process::Abort;

/// The greatest number in range.
const MOST: i128 = i128::MAX;

/// The number, or nothing where the answer is Wide.
fn shown(answer: Result<Whole, Wide>) -> Option<i128> {
    match answer {
        Ok(number) => Some(number.value),
        Err(Wide) => None,
    }
}

/// The number. It stands for `i128::MIN` by the number above, which no case has.
fn of(value: i128) -> Whole {
    match Whole::checked(value) {
        Ok(number) => number,
        Err(Wide) => Whole::new(-MOST),
    }
}

#[test]
fn sums_and_products(rt: HostRuntime) {
    assert_eq!(rt; shown(Whole::checked(i128::MIN)), None);
    assert_eq!(rt; shown(Whole::checked(-MOST)), Some(-MOST));
    assert_eq!(rt; Whole::from(4095).negated().value, -4095);
    // 2^64 and 2^63, whose product is 2^127.
    let high = 18_446_744_073_709_551_616;
    let half = 9_223_372_036_854_775_808;
    for (a, b, sum, difference, product) in [
        (MOST, 1, None, Some(MOST - 1), Some(MOST)),
        (-MOST, 1, Some(1 - MOST), None, Some(-MOST)),
        (-MOST, -1, None, Some(1 - MOST), Some(MOST)),
        (MOST, -1, Some(MOST - 1), None, Some(-MOST)),
        (MOST, -MOST, Some(0), None, None),
        (
            high,
            half,
            Some(27_670_116_110_564_327_424),
            Some(half),
            None,
        ),
        (
            -high,
            half,
            Some(-half),
            Some(-27_670_116_110_564_327_424),
            None,
        ),
        (0, -7, Some(-7), Some(7), Some(0)),
    ] {
        assert_eq!(rt; shown(of(a).plus(of(b))), sum);
        assert_eq!(rt; shown(of(a).minus(of(b))), difference);
        assert_eq!(rt; shown(of(a).times(of(b))), product);
        assert_eq!(rt; shown(Product { left: a, right: b }.value()), product);
    }
    assert_eq!(rt; shown(of(5).less_product(of(-2), of(3))), Some(11));
    assert_eq!(rt; shown(of(-MOST).less_product(of(1), of(1))), None);
    assert_eq!(rt; shown(of(0).less_product(of(high), of(half))), None);
    assert!(rt; of(-3) < of(2));
}

#[test]
fn sums_of_products(rt: HostRuntime) {
    let products = [
        Product { left: 3, right: -4 },
        Product {
            left: i128::MIN,
            right: 0,
        },
        Product { left: 5, right: 7 },
    ];
    assert_eq!(rt; shown(sum_onto(of(1), &products)), Some(24));
    assert_eq!(rt; shown(sum_onto(of(-9), &[])), Some(-9));
    // The sum is 0, and a sum on the way is too wide.
    let apart = [
        Product {
            left: MOST,
            right: 1,
        },
        Product { left: 1, right: 1 },
        Product {
            left: -MOST,
            right: 1,
        },
    ];
    assert_eq!(rt; shown(sum_onto(of(-1), &apart)), Some(0));
    assert_eq!(rt; shown(sum_onto(of(0), &apart)), None);
    assert_eq!(rt;
        shown(sum_onto(
            of(0),
            &[Product {
                left: i128::MIN,
                right: 1
            }]
        )),
        None
    );
}

#[test]
fn divisors_and_quotients(rt: HostRuntime) {
    for (a, b, divisor, multiple) in [
        (0, 0, 0, Some(0)),
        (0, -5, 5, Some(0)),
        (-12, 18, 6, Some(36)),
        (7, 9, 1, Some(63)),
        (-MOST, MOST, MOST, Some(MOST)),
        (MOST, 2, 1, None),
    ] {
        assert_eq!(rt; gcd(of(a).value, of(b).value), divisor);
        assert_eq!(rt; of(a).common_divisor(of(b)).value, divisor);
        assert_eq!(rt; shown(of(a).common_multiple(of(b))), multiple);
    }
    for (n, d, quotient, rest, floor, ceiling) in [
        (7, 2, 3, 1, 3, 4),
        (-7, 2, -3, -1, -4, -3),
        (6, 3, 2, 0, 2, 2),
        (-6, 3, -2, 0, -2, -2),
        (0, 5, 0, 0, 0, 0),
        (-1, MOST, 0, -1, -1, 0),
        (1, MOST, 0, 1, 0, 1),
        (-MOST, 1, -MOST, 0, -MOST, -MOST),
    ] {
        if d > 0 {
            let (number, by) = (of(n), Whole::new(d));
            assert_eq!(rt; number.over(by).value, quotient);
            assert_eq!(rt; number.remainder(by).value, rest);
            assert_eq!(rt; number.floor_over(by).value, floor);
            assert_eq!(rt; number.ceiling_over(by).value, ceiling);
            assert_eq!(rt; by.divides(number), rest == 0);
            assert_eq!(rt; number.whole_quotient(by).is_some(), rest == 0);
        }
    }
    let by = Whole::new(-2);
    assert_eq!(rt; Whole::new(7).over(by).value, -3);
    assert_eq!(rt; Whole::new(7).remainder(by).value, 1);
    assert_eq!(rt; Whole::new(-8).whole_quotient(by), Some(Whole::new(4)));
    assert!(rt; !Whole::new(0).divides(by) && by.divides(Whole::new(0)));
}

#[test]
fn residues(rt: HostRuntime) {
    // i128::MIN is -2^127, which is 4 modulo 6, since the powers of 2 are 2 and 4 by turns.
    for (number, modulus, value) in [
        (i128::MIN, 6, 4),
        (i128::MIN, 2, 0),
        (MOST, 2, 1),
        (-1, 65_535, 65_534),
        (-12, 5, 3),
    ] {
        assert_eq!(rt; Residue::of(number, modulus).value, value);
    }
    let (three, four) = (Residue::of(-3, 7), Residue::of(-10, 7));
    assert_eq!(rt; three.times(four).value, 2);
    assert_eq!(rt; three.plus(four).value, 1);
    assert_eq!(rt; three.plus_all(&[5, -20, 4]).value, 0);
    assert!(rt; three.plus_all(&[3]).is_zero() && !three.is_zero());
}
