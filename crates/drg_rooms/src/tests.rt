//! Values by hand, in rooms of diameter 2 and 12. What a line comes to is asked in functions of their
//! own, so that each test is a table and no more.
use crate::{Branches, RoomFault};
use drg_derivation::{Line, NumberList};
use drg_linear::{Equation, Terms, Unknown};
use std::alloc::Global;
use std::process::Abort;
use std::test::Fail;

type Answer = Result<(), RoomFault>;

const MET: Answer = Ok(());

const NOT_MET: Answer = Err(RoomFault::NotMet);

const WIDE: Answer = Err(RoomFault::Wide);

/// 2^126, whose double passes the bound.
const LARGE: i128 = 85070591730234615865843651857942052864;

/// -2^126 - 1.
const BELOW: i128 = -85070591730234615865843651857942052865;

/// The unknown [1 1 1].
const X: Unknown = Unknown { r: 1, s: 1, t: 1 };

/// The unknown [2 1 2].
const Y: Unknown = Unknown { r: 2, s: 1, t: 2 };

/// The number of the first equation that a test makes.
const MADE: i128 = 3;

/// The equation `u = 0`.
fn none_of(alloc: Global, u: Unknown) -> Result<Equation, Fail> {
    let terms = Terms::new(vec![in alloc; (u, 1)]?);
    Ok(Equation { terms, right: 0 })
}

/// A room of diameter 2 with bounds of X and of Y; the other unknowns are 0. Its equations are x = 0,
/// y = 0 and 0 = 1.
fn room(alloc: Global, [x, y]: [(i128, i128); 2]) -> Result<Branches, Fail> {
    let zero = (0, 0);
    let bounds = vec![in alloc; x, zero, zero, zero, zero, y, zero, zero]?;
    let mut branches = Branches::start(alloc, 2, bounds);
    branches.push(none_of(alloc, X)?)?;
    branches.push(none_of(alloc, Y)?)?;
    let terms = Terms::new(Vec::new(alloc));
    branches.push(Equation { terms, right: 1 })?;
    Ok(branches)
}

fn comb(alloc: Global, values: &[i128]) -> Result<Line, Fail> {
    Ok(Line::Comb {
        m: 1,
        values: NumberList::new(values.to_vec(alloc)?),
    })
}

/// The line that makes the equation `ax + by = right` in such a room.
fn equation(alloc: Global, [a, b, right]: [i128; 3]) -> Result<Line, Fail> {
    comb(alloc, &[0, a, 1, b, 2, right])
}

fn low(u: Unknown, v: i128, n: i128) -> Line {
    let (r, s, t) = (i128::from(u.r), i128::from(u.s), i128::from(u.t));
    Line::Low { r, s, t, v, n }
}

fn high(u: Unknown, v: i128, n: i128) -> Line {
    let (r, s, t) = (i128::from(u.r), i128::from(u.s), i128::from(u.t));
    Line::High { r, s, t, v, n }
}

/// Divides the room at [1 1 1].
fn split(v: i128) -> Line {
    let (r, s, t) = (1, 1, 1);
    Line::Split { r, s, t, v }
}

/// Takes a line, and asks what it comes to.
fn expect(rt: &impl Abort, branches: &mut Branches, line: Line, wanted: Answer) {
    let given = branches.step(&line);
    assert_eq!(rt; given, wanted, "{line:?}");
}

/// Takes a line in a room with these bounds and this equation, and asks what it comes to.
fn check(
    rt: &impl Abort,
    alloc: Global,
    bounds: [(i128, i128); 2],
    made: [i128; 3],
    line: Line,
    wanted: Answer,
) -> Result<(), Fail> {
    let mut branches = room(alloc, bounds)?;
    expect(rt, &mut branches, equation(alloc, made)?, MET);
    let given = branches.step(&line);
    assert_eq!(rt; given, wanted, "{line:?} with {bounds:?} and {made:?}");
    Ok(())
}

/// Asks which value the equation leaves to x at least, and which at most.
fn leaves(
    rt: &impl Abort,
    alloc: Global,
    bounds: [(i128, i128); 2],
    made: [i128; 3],
    [least, greatest]: [i128; 2],
) -> Result<(), Fail> {
    let above = least.saturating_add(1);
    let below = greatest.saturating_sub(1);
    check(rt, alloc, bounds, made, low(X, least, MADE), MET)?;
    check(rt, alloc, bounds, made, low(X, above, MADE), NOT_MET)?;
    check(rt, alloc, bounds, made, high(X, greatest, MADE), MET)?;
    check(rt, alloc, bounds, made, high(X, below, MADE), NOT_MET)
}

#[test]
fn values_that_an_equation_leaves(rt: HostRuntime) -> Result<(), Fail> {
    // Bounds of x and y, the equation, and the least and the greatest value that it leaves to x.
    let cases = [
        // 3x = 7.
        ([(0, 10), (0, 0)], [3, 0, 7], [3, 2]),
        // -3x = 7.
        ([(-10, 10), (0, 0)], [-3, 0, 7], [-2, -3]),
        // 2x = 9 - y with y from 1 to 4: from 5 to 8.
        ([(0, 10), (1, 4)], [2, 1, 9], [3, 4]),
        // 2x = 9 + y: from 10 to 13.
        ([(0, 10), (1, 4)], [2, -1, 9], [5, 6]),
        // -2x = 9 - y: from 5 to 8.
        ([(-10, 10), (1, 4)], [-2, 1, 9], [-4, -3]),
        // x = -y where the bounds of y are turned: the sum of y is least -2 and greatest -5.
        ([(0, 10), (-2, -5)], [1, 1, 0], [5, 2]),
    ];
    for (bounds, made, ends) in &cases {
        leaves(&rt, rt.alloc(), *bounds, *made, *ends)?;
    }
    Ok(())
}

#[test]
fn sums_that_are_too_wide(rt: HostRuntime) -> Result<(), Fail> {
    let alloc = rt.alloc();
    // x + 2^126·y, whose rest goes from 0 to 2^127: both sums are made, whichever one counts.
    let (bounds, made) = ([(0, 9), (0, 2)], [1, LARGE, 0]);
    check(&rt, alloc, bounds, made, low(X, 0, MADE), WIDE)?;
    check(&rt, alloc, bounds, made, high(X, 0, MADE), WIDE)?;
    check(&rt, alloc, bounds, made, high(Y, 0, MADE), MET)?;
    // With the right side -2^126 the rest goes to 2^126, and only -2^126 less this is too wide.
    let (bounds, made) = ([(0, 9), (0, 1)], [1, LARGE, -LARGE]);
    check(&rt, alloc, bounds, made, low(X, -LARGE, MADE), WIDE)?;
    check(&rt, alloc, bounds, made, high(X, -LARGE, MADE), MET)?;
    check(&rt, alloc, bounds, made, high(X, BELOW, MADE), NOT_MET)
}

#[test]
fn equations_that_miss(rt: HostRuntime) -> Result<(), Fail> {
    let cases = [
        // 2x - y with x from 0 to 3 and y from 1 to 2 goes from -2 to 5.
        ([(0, 3), (1, 2)], [2, -1, -3], MET),
        ([(0, 3), (1, 2)], [2, -1, -2], NOT_MET),
        ([(0, 3), (1, 2)], [2, -1, 5], NOT_MET),
        ([(0, 3), (1, 2)], [2, -1, 6], MET),
        // The least sum is made first; where it decides, the greatest isn't made.
        ([(0, 2), (0, 0)], [LARGE, 0, -1], MET),
        ([(0, 2), (0, 0)], [LARGE, 0, 0], WIDE),
        ([(-2, 0), (0, 0)], [LARGE, 0, 0], WIDE),
        ([(1, 2), (0, 0)], [LARGE, 0, LARGE], WIDE),
    ];
    for (bounds, made, wanted) in &cases {
        check(
            &rt,
            rt.alloc(),
            *bounds,
            *made,
            Line::Miss { n: MADE },
            *wanted,
        )?;
    }
    Ok(())
}

#[test]
fn equations_modulo_a_number(rt: HostRuntime) -> Result<(), Fail> {
    // Bounds of y, the equation, g; x goes from 0 to 9.
    let cases = [
        ((0, 9), [2, 4, 5], 2, MET),
        ((0, 9), [2, 4, -5], 2, MET),
        ((0, 9), [2, 4, 6], 2, NOT_MET),
        ((0, 9), [2, 3, 5], 2, NOT_MET),
        // The term of y is 3 or -3.
        ((1, 1), [2, 3, 6], 2, MET),
        ((1, 1), [2, 3, 5], 2, NOT_MET),
        ((-1, -1), [6, 3, 1], 6, MET),
        ((0, 9), [2, 4, 5], 1, NOT_MET),
        ((2, 2), [2, LARGE, 5], 2, WIDE),
    ];
    for (y, made, g, wanted) in &cases {
        let line = Line::Mod { n: MADE, g: *g };
        check(&rt, rt.alloc(), [(0, 9), *y], *made, line, *wanted)?;
    }
    Ok(())
}

#[test]
fn bounds_that_leave_no_value(rt: HostRuntime) -> Result<(), Fail> {
    // Bounds of x, the three numbers of the unknown.
    let cases = [
        ((2, 2), [1, 1, 1], NOT_MET),
        ((3, 2), [1, 1, 1], MET),
        ((-1, -2), [1, 1, 1], MET),
        ((1, 0), [0, 1, 1], NOT_MET),
        ((1, 0), [1, 3, 1], NOT_MET),
        ((1, 0), [1, 1, -1], NOT_MET),
        ((1, 0), [1, 257, 1], NOT_MET),
    ];
    for (x, numbers, wanted) in &cases {
        let [r, s, t] = *numbers;
        let line = Line::Void { r, s, t };
        check(&rt, rt.alloc(), [*x, (0, 0)], [0, 0, 0], line, *wanted)?;
    }
    for (v, wanted) in &[(-1, NOT_MET), (0, MET), (1, MET), (2, NOT_MET)] {
        check(
            &rt,
            rt.alloc(),
            [(0, 2), (0, 0)],
            [0, 0, 0],
            split(*v),
            *wanted,
        )?;
    }
    Ok(())
}

#[test]
fn sums_of_equations(rt: HostRuntime) -> Result<(), Fail> {
    let alloc = rt.alloc();
    let mut branches = room(alloc, [(0, 9), (0, 9)])?;
    let cases = [
        // x + y = 3 and x - y = 1; their difference is 2y = 2.
        ([0, 1, 1, 1, 2, 3], MET),
        ([0, 1, 1, -1, 2, 1], MET),
        ([3, 1, 4, -1, 0, 0], MET),
        // All numbers of equations are looked at before a product is made.
        ([3, LARGE, 3, LARGE, 6, 1], NOT_MET),
        ([-1, 1, 0, 1, 0, 1], NOT_MET),
        // 3·2^126 is too wide, and so is 2^126 + 2^126.
        ([3, LARGE, 0, 1, 0, 1], WIDE),
        ([0, LARGE, 0, LARGE, 0, 1], WIDE),
    ];
    for (values, wanted) in &cases {
        expect(&rt, &mut branches, comb(alloc, values)?, *wanted);
    }
    expect(&rt, &mut branches, low(X, 0, 5), NOT_MET);
    expect(&rt, &mut branches, low(Y, 1, 5), MET);
    expect(&rt, &mut branches, high(Y, 1, 5), MET);
    // A line that was refused made no equation.
    expect(&rt, &mut branches, low(X, 0, 6), NOT_MET);
    Ok(())
}

#[test]
fn equations_made_again(rt: HostRuntime) -> Result<(), Fail> {
    let alloc = rt.alloc();
    let mut branches = room(alloc, [(0, 9), (0, 9)])?;
    // x = 2 and y = 0, each 50,000 times, and then x + y = 2.
    for _ in 0..50000_u32 {
        expect(&rt, &mut branches, equation(alloc, [1, 0, 2])?, MET);
        branches.push(none_of(alloc, Y)?)?;
    }
    expect(
        &rt,
        &mut branches,
        comb(alloc, &[100001, 1, 100002, 1])?,
        MET,
    );
    // Equation 100,002 has no x, and there is no equation 100,004.
    expect(&rt, &mut branches, low(X, 0, 100002), NOT_MET);
    expect(&rt, &mut branches, low(X, 0, 100004), NOT_MET);
    expect(&rt, &mut branches, low(X, 2, 100001), MET);
    expect(&rt, &mut branches, high(Y, 0, 100003), MET);
    Ok(())
}

#[test]
fn sums_of_many_equations(rt: HostRuntime) -> Result<(), Fail> {
    let alloc = rt.alloc();
    let mut branches = room(alloc, [(0, 9), (0, 9)])?;
    expect(&rt, &mut branches, equation(alloc, [1, 1, 3])?, MET);
    let values = vec![in alloc; [MADE, 1]; 100000]?;
    expect(&rt, &mut branches, comb(alloc, values.as_flattened())?, MET);
    // 100,000x + 100,000y = 300,000 leaves x from -6 to 3.
    expect(&rt, &mut branches, low(X, -5, 4), NOT_MET);
    expect(&rt, &mut branches, low(X, -6, 4), MET);
    expect(&rt, &mut branches, high(X, 2, 4), NOT_MET);
    expect(&rt, &mut branches, high(X, 3, 4), MET);
    Ok(())
}

/// The values of a line `comb` that adds this many equations, from the first on.
fn sum_of_first(alloc: Global, count: u32) -> Result<Line, Fail> {
    let mut values = Vec::new(alloc);
    for n in 0..count {
        values.push(i128::from(n))?;
        values.push(1)?;
    }
    comb(alloc, &values)
}

/// Makes the equation `u = 0` for each u whose numbers are from 1 to d.
fn make_each(alloc: Global, branches: &mut Branches, d: u8) -> Result<(), Fail> {
    for r in 1..=d {
        for s in 1..=d {
            for t in 1..=d {
                branches.push(none_of(alloc, Unknown { r, s, t })?)?;
            }
        }
    }
    Ok(())
}

#[test]
fn an_equation_of_all_unknowns(rt: HostRuntime) -> Result<(), Fail> {
    let alloc = rt.alloc();
    let mut branches = Branches::start(alloc, 12, vec![in alloc; (0, 1); 1728]?);
    // Each of the 12·12·12 unknowns is 0, and so is their sum.
    make_each(alloc, &mut branches, 12)?;
    expect(&rt, &mut branches, sum_of_first(alloc, 1728)?, MET);
    expect(&rt, &mut branches, Line::Miss { n: 1728 }, NOT_MET);
    expect(&rt, &mut branches, high(X, -1, 1728), NOT_MET);
    expect(&rt, &mut branches, high(X, 0, 1728), MET);
    // The least value of x is -1727.
    expect(&rt, &mut branches, low(X, -1726, 1728), NOT_MET);
    expect(&rt, &mut branches, low(X, -1727, 1728), MET);
    Ok(())
}

#[test]
fn branches_one_after_the_other(rt: HostRuntime) -> Result<(), Fail> {
    let alloc = rt.alloc();
    let mut branches = room(alloc, [(0, 200000), (0, 0)])?;
    // x = -1 misses in each branch.
    expect(&rt, &mut branches, equation(alloc, [1, 0, -1])?, MET);
    for v in 0..100000_u32 {
        expect(&rt, &mut branches, split(i128::from(v)), MET);
        expect(&rt, &mut branches, Line::Miss { n: MADE }, MET);
    }
    // The branch that is left has x from 100,000 on.
    expect(&rt, &mut branches, split(99999), NOT_MET);
    expect(&rt, &mut branches, Line::Miss { n: MADE }, MET);
    assert!(rt; !branches.is_open());
    expect(&rt, &mut branches, Line::Miss { n: MADE }, NOT_MET);
    Ok(())
}

#[test]
fn branches_within_branches(rt: HostRuntime) -> Result<(), Fail> {
    let alloc = rt.alloc();
    let mut branches = room(alloc, [(0, 200000), (0, 0)])?;
    expect(&rt, &mut branches, equation(alloc, [1, 0, -1])?, MET);
    for v in 0..100000_u32 {
        expect(&rt, &mut branches, split(150000 - i128::from(v)), MET);
    }
    for _ in 0..100000_u32 {
        expect(&rt, &mut branches, Line::Miss { n: MADE }, MET);
    }
    assert!(rt; branches.is_open());
    // The branch kept first has x from 150,001 on.
    expect(&rt, &mut branches, split(150000), NOT_MET);
    expect(&rt, &mut branches, Line::Miss { n: MADE }, MET);
    assert!(rt; !branches.is_open());
    Ok(())
}
