//! Small systems by hand, and the systems of types of two arrays of diameter 2.
use crate::systems::{answer, even_room, push, room};
use drg_linear::{EquationName, System, Unknown};
use std::alloc::Global;
use std::process::Abort;
use std::test::Fail;

/// The unknowns [1 1 1], [1 1 2], [1 2 1] and [1 2 2], which the small systems have.
const UNKNOWNS: [Unknown; 4] = [
    Unknown { r: 1, s: 1, t: 1 },
    Unknown { r: 1, s: 1, t: 2 },
    Unknown { r: 1, s: 2, t: 1 },
    Unknown { r: 1, s: 2, t: 2 },
];

/// A system from the high bounds of the four unknowns, and rows of coefficients with a right side.
fn system(alloc: Global, highs: [u16; 4], rows: &[[i128; 5]]) -> Result<System, Fail> {
    let [a, b, c, d] = highs;
    let mut system = System::make(alloc, room(alloc, [a, b, c, d, 0, 0, 0, 0])?);
    'rows: for (n, row) in rows.iter().enumerate() {
        let [a, b, c, d, right] = *row;
        let mut terms = Vec::new(alloc);
        'terms: for (unknown, coefficient) in UNKNOWNS.iter().zip([a, b, c, d].iter()) {
            if *coefficient != 0 {
                terms.push((*unknown, *coefficient))?;
            }
        }
        let y = u8::try_from(n).ok().ok_or("more equations than names")?;
        let name = EquationName::Eq { a: 1, x: 1, y };
        push(&mut system, name, terms, right)?;
    }
    Ok(system)
}

/// Asks what a search with this budget answers.
fn expect(
    rt: &impl Abort,
    alloc: Global,
    highs: [u16; 4],
    rows: &[[i128; 5]],
    budget: u32,
    wanted: &str,
) -> Result<(), Fail> {
    let system = system(alloc, highs, rows)?;
    let given = answer(alloc, &system, budget)?;
    assert_eq!(rt; given.as_str(), wanted, "{highs:?} {rows:?} {budget}");
    Ok(())
}

/// x + y = 1 and x - y = 0, which a split shows to have no solution.
const APART: [[i128; 5]; 2] = [[1, 1, 0, 0, 1], [1, -1, 0, 0, 0]];

#[test]
fn solutions(rt: HostRuntime) -> Result<(), Fail> {
    let alloc = rt.alloc();
    // No equation.
    expect(&rt, alloc, [3, 0, 0, 0], &[], 1, "solution")?;
    // x + y = 3.
    expect(&rt, alloc, [2, 2, 0, 0], &[[1, 1, 0, 0, 3]], 1, "solution")?;
    // 2x + 3y - 5z = 7 and x + z = 4.
    let rows = [[2, 3, -5, 0, 7], [1, 0, 1, 0, 4]];
    expect(&rt, alloc, [9, 9, 9, 0], &rows, 1, "solution")?;
    Ok(())
}

#[test]
fn closings(rt: HostRuntime) -> Result<(), Fail> {
    let alloc = rt.alloc();
    // x + y = 5, where both are at most 2.
    expect(&rt, alloc, [2, 2, 0, 0], &[[1, 1, 0, 0, 5]], 1, "Eq Miss ")?;
    // 2x + 2y = 3.
    expect(&rt, alloc, [2, 2, 0, 0], &[[2, 2, 0, 0, 3]], 1, "Eq Mod ")?;
    // 4x + y = 7 with y = 0, which fails modulo 4.
    expect(&rt, alloc, [2, 0, 0, 0], &[[4, 1, 0, 0, 7]], 1, "Eq Mod ")?;
    // x - y = 3 leaves x at least 3, and x + z = 2 at most 2.
    let rows = [[1, -1, 0, 0, 3], [1, 0, 1, 0, 2]];
    expect(&rt, alloc, [5, 5, 5, 0], &rows, 1, "Eq Eq Low High Void ")?;
    let both = "Eq Eq Split Low High Void Low High Void ";
    expect(&rt, alloc, [1, 1, 0, 0], &APART, 3, both)?;
    Ok(())
}

#[test]
fn budgets(rt: HostRuntime) -> Result<(), Fail> {
    let alloc = rt.alloc();
    let split = "[Branching { leaf: 0, unknown: Unknown { r: 1, s: 1, t: 1 }, at: 0 }]";
    let spent = format!(in alloc; "spent 1 {split}")?;
    expect(&rt, alloc, [1, 1, 0, 0], &APART, 1, spent.as_str())?;
    let spent = format!(in alloc; "spent 2 {split}")?;
    expect(&rt, alloc, [1, 1, 0, 0], &APART, 2, spent.as_str())?;
    // Twice the four points.
    let both = "Eq Eq Split Low High Void Low High Void ";
    expect(&rt, alloc, [1, 1, 0, 0], &APART, 8, both)?;
    Ok(())
}

#[test]
fn tighter_bounds(rt: HostRuntime) -> Result<(), Fail> {
    let alloc = rt.alloc();
    // x + y = 1000 leaves y at least 998, so z is at most 2 by y + z = 1000, and z + w at most 7.
    let rows = [[1, 1, 0, 0, 1000], [0, 1, 1, 0, 1000], [0, 0, 1, 1, 10]];
    let closed = "Eq Eq Eq Low High Miss ";
    expect(&rt, alloc, [2, 1000, 1000, 5], &rows, 1, closed)?;
    // y + z = 2 leaves both at most 2, so 2y + 3z is at most 10. The other equation isn't needed.
    let rows = [[1, 0, 0, 1, 4], [0, 1, 1, 0, 2], [0, 2, 3, 0, 17]];
    let closed = "Eq Eq High High Miss ";
    expect(&rt, alloc, [9, 9, 9, 9], &rows, 1, closed)?;
    Ok(())
}

/// The intersection numbers `p^h_ij` of an array of diameter 2, for h, i and j from 1 to 2.
type Numbers = [[[u16; 2]; 2]; 2];

/// The Petersen graph, {3,2;1,1}.
const PETERSEN: Numbers = [[[0, 2], [2, 4]], [[1, 2], [2, 3]]];

/// {6,4;1,4}, which falls by triples.
const SIX_FOUR: Numbers = [[[1, 4], [4, 2]], [[4, 2], [2, 3]]];

/// The number `p^h_ij`.
fn number(p: &Numbers, h: u8, i: u8, j: u8) -> u16 {
    let (h, i, j) = (usize::from(h), usize::from(i), usize::from(j));
    if h < 1 || h > 2 || i < 1 || i > 2 || j < 1 || j > 2 {
        return 0;
    }
    p[h - 1][i - 1][j - 1]
}

/// The unknown at distance q from vertex a, and at x and y from the two others.
fn unknown_over(a: u8, x: u8, y: u8, q: u8) -> Unknown {
    match a {
        1 => Unknown { r: q, s: x, t: y },
        2 => Unknown { r: x, s: q, t: y },
        _ => Unknown { r: x, s: y, t: q },
    }
}

/// The high bound of an unknown of the type.
fn high(p: &Numbers, [u, v, w]: [u8; 3], [r, s, t]: [u8; 3]) -> u16 {
    number(p, u, s, t)
        .min(number(p, v, r, t))
        .min(number(p, w, r, s))
}

/// The counting system of a type of triples.
fn counting(alloc: Global, p: &Numbers, ty: [u8; 3]) -> Result<System, Fail> {
    let highs = [
        high(p, ty, [1, 1, 1]),
        high(p, ty, [1, 1, 2]),
        high(p, ty, [1, 2, 1]),
        high(p, ty, [1, 2, 2]),
        high(p, ty, [2, 1, 1]),
        high(p, ty, [2, 1, 2]),
        high(p, ty, [2, 2, 1]),
        high(p, ty, [2, 2, 2]),
    ];
    let [u, v, w] = ty;
    let mut system = System::make(alloc, room(alloc, highs)?);
    'vertices: for (a, h, first, second) in [(1, u, w, v), (2, v, w, u), (3, w, v, u)] {
        'distances: for (x, y) in [(1, 1), (1, 2), (2, 1), (2, 2)] {
            let terms = vec![in alloc;
                (unknown_over(a, x, y, 1), 1),
                (unknown_over(a, x, y, 2), 1),
            ]?;
            let fixed = if x == first && y == second { 1 } else { 0 };
            let right = i128::from(number(p, h, x, y)) - fixed;
            push(&mut system, EquationName::Eq { a, x, y }, terms, right)?;
        }
    }
    Ok(system)
}

#[test]
fn types_of_arrays(rt: HostRuntime) -> Result<(), Fail> {
    let alloc = rt.alloc();
    for ty in [
        [1, 1, 2],
        [1, 2, 1],
        [1, 2, 2],
        [2, 1, 1],
        [2, 1, 2],
        [2, 2, 1],
        [2, 2, 2],
    ] {
        let given = answer(alloc, &counting(alloc, &PETERSEN, ty)?, 1)?;
        assert_eq!(rt; given.as_str(), "solution", "{ty:?}");
    }
    // The unknowns [1 1 2] and [2 1 2] are at most 1 and 2, and add up to 4.
    let closed = "Eq Miss ";
    for ty in [[1, 1, 1], [1, 2, 2], [2, 1, 2], [2, 2, 1]] {
        let given = answer(alloc, &counting(alloc, &SIX_FOUR, ty)?, 1)?;
        assert_eq!(rt; given.as_str(), closed, "{ty:?}");
    }
    for ty in [[1, 1, 2], [1, 2, 1], [2, 1, 1], [2, 2, 2]] {
        let given = answer(alloc, &counting(alloc, &SIX_FOUR, ty)?, 1)?;
        assert_eq!(rt; given.as_str(), "solution", "{ty:?}");
    }
    Ok(())
}

#[test]
fn a_longer_search(rt: HostRuntime) -> Result<(), Fail> {
    let alloc = rt.alloc();
    // x + y = 41 and x - y = 0: 2x is 41. By the first x is at least 1. The sides up to 1 and with one
    // value up to 20 leave y two values, and so does the side above 20, as 41 - x is at most 20 there.
    let rows = [[1, 1, 0, 0, 41], [1, -1, 0, 0, 0]];
    let mut wanted = String::from_str(alloc, "Eq Eq ")?;
    for _ in 0..20 {
        wanted.push_str("Split Low High Void ")?;
    }
    wanted.push_str("Low High Void ")?;
    expect(&rt, alloc, [40, 40, 0, 0], &rows, 41, wanted.as_str())?;
    let short = answer(alloc, &system(alloc, [40, 40, 0, 0], &rows)?, 40)?;
    assert!(rt; short.as_str().starts_with("spent 40 [Branching"));
    Ok(())
}

/// The equations of a room of diameter 12 with each unknown at most 2: those over one vertex, for
/// each pair of distances from the two others, add up to this number.
fn many_unknowns(alloc: Global, right: i128) -> Result<System, Fail> {
    let mut system = System::make(alloc, even_room(alloc, 12)?);
    'vertices: for a in 1..4 {
        'pairs: for pair in 0..144 {
            let (x, y) = (pair / 12 + 1, pair % 12 + 1);
            let mut terms = Vec::new(alloc);
            'distances: for q in 1..13 {
                terms.push((unknown_over(a, x, y, q), 1))?;
            }
            push(&mut system, EquationName::Eq { a, x, y }, terms, right)?;
        }
    }
    Ok(system)
}

#[test]
fn diameter_twelve(rt: HostRuntime) -> Result<(), Fail> {
    let alloc = rt.alloc();
    // Each of the 1,728 unknowns may be 1.
    let given = answer(alloc, &many_unknowns(alloc, 12)?, 1)?;
    assert_eq!(rt; given.as_str(), "solution");
    // Twelve unknowns of at most 2.
    let given = answer(alloc, &many_unknowns(alloc, 25)?, 1)?;
    assert_eq!(rt; given.as_str(), "Eq Miss ");
    Ok(())
}
