//! Types and systems by hand.

ghost use Rattle.std.specs.Prelude.{◌≡◌, ◌≤◌, ◌*◌, IfOk, IfSome};
ghost use Rattle.drg_triples.specs.LiveTypes.{IsLiveType};

use crate::{TripleFault, TripleType, counting_system, fault_law, graph_law, solution_law, types};
use drg_array::{Array, MAX_DIAMETER, Node};
use drg_intersection::{Numbers, numbers_of};
use drg_linear::{Assignment, EquationName, System, Unknown, holds};
use std::alloc::Global;
use std::test::Fail;

/// The type with these distances, where it is live.
fn live_type(numbers: &Numbers, distances: [u8; 3]) -> Option<TripleType>
    ensures { IfSome result (IsLiveType numbers.now) }
{
    let [u, v, w] = distances;
    if u < 1 || v < u {
        return None;
    }
    if w < v || numbers.d() < usize::from(w) {
        return None;
    }
    if numbers.p(usize::from(w), usize::from(v), usize::from(u)) <= 0 {
        return None;
    }
    Some(TripleType { u, v, w })
}

/// The counting system of a live type of an array.
fn system_of(
    alloc: Global,
    text: &[u8],
    distances: [u8; 3],
) -> Result<Result<System, TripleFault>, Fail> {
    let numbers = numbers_of(alloc, &Array::read(text)?)?;
    let Some(ty) = live_type(&numbers, distances) else {
        return Err("not live".into());
    };
    Ok(counting_system(alloc, &numbers, ty))
}

/// The numbers of all unknowns in their order.
fn assignment(alloc: Global, d: usize, values: &[i128]) -> Result<Assignment, Fail>
    requires { d ≤ MAX_DIAMETER }
    ensures { IfOk result (λ assignment. assignment.d ≡ d) }
{
    if values.len() != cube(d) {
        return Err("not for all unknowns".into());
    }
    let mut numbers = Vec::new(alloc);
    numbers.extend_from_slice(values)?;
    Ok(Assignment::make(d, numbers))
}

/// How many unknowns there are.
fn cube(d: usize) -> usize
    requires { d ≤ MAX_DIAMETER }
    ensures { result ≡ d * d * d }
{
    d * d * d
}

/// Whether numbers for all unknowns, in their order, solve a system.
fn is_solution(alloc: Global, system: &System, values: &[i128]) -> Result<bool, Fail> {
    let d = system.d();
    if d > MAX_DIAMETER {
        return Err("not a diameter".into());
    }
    let numbers = assignment(alloc, d, values)?;
    Ok(holds(system, &numbers))
}

/// The unknown `[r s t]`.
fn unknown(distances: [u8; 3]) -> Unknown {
    let [r, s, t] = distances;
    Unknown { r, s, t }
}

/// Whether equation n has this name, and these two unknowns with the coefficient 1.
fn stands_at(system: &System, n: usize, name: EquationName, unknowns: [Unknown; 2]) -> bool {
    let equations = system.equations();
    if n >= equations.len() {
        return false;
    }
    let equation = &equations[n];
    let [first, second] = unknowns;
    let terms = [(first, 1), (second, 1)];
    system.name(n) == name && equation.terms.as_slice() == terms.as_slice()
}

/// Whether U + V + W is even and at most 24, and W at most U + V.
fn is_of_words(ty: TripleType) -> bool {
    let first = u16::from(ty.u);
    let second = u16::from(ty.v);
    let third = u16::from(ty.w);
    let sum = first + second + third;
    sum % 2 == 0 && sum <= 24 && third <= first + second
}

#[test]
fn live_types(rt: HostRuntime) -> Result<(), Fail> {
    // The types of a cycle are those of the steps between three of its vertices.
    let cases: [(&[u8], &[[u8; 3]]); 8] = [
        (b"{1;1}", &[]),
        (b"{3;1}", &[[1, 1, 1]]),
        (b"{2,1;1,1}", &[[1, 1, 2], [1, 2, 2]]),
        (
            b"{2,1,1;1,1,1}",
            &[[1, 1, 2], [1, 2, 3], [1, 3, 3], [2, 2, 3]],
        ),
        (
            b"{2,1,1,1;1,1,1,2}",
            &[[1, 1, 2], [1, 2, 3], [1, 3, 4], [2, 2, 4], [2, 3, 3]],
        ),
        (b"{3,2;1,1}", &[[1, 1, 2], [1, 2, 2], [2, 2, 2]]),
        // The cube has no triangle, and no three vertices of which one is opposite to two.
        (b"{3,2,1;1,2,3}", &[[1, 1, 2], [1, 2, 3], [2, 2, 2]]),
        (b"{6,4;1,4}", &[[1, 1, 1], [1, 1, 2], [1, 2, 2], [2, 2, 2]]),
    ];
    for (text, expected) in cases {
        let numbers = numbers_of(rt.alloc(), &Array::read(text)?)?;
        let found = types(rt.alloc(), &numbers)?;
        assert_eq!(rt; found.len(), expected.len(), "{text:?}");
        for (ty, distances) in found.iter().zip(expected.iter()) {
            assert_eq!(rt; [ty.u, ty.v, ty.w], *distances, "{text:?}");
        }
    }
    Ok(())
}

/// The high bounds of the eight unknowns of diameter 2, and the right sides for (x, y) = (1, 1), (1, 2),
/// (2, 1), (2, 2) of each vertex.
#[test]
fn systems_of_diameter_two(rt: HostRuntime) -> Result<(), Fail> {
    let cases: [(&[u8], [u8; 3], [i128; 8], [i128; 12]); 3] = [
        // u and v at distance 2 have one common neighbour, which is w.
        (
            b"{3,2;1,1}",
            [1, 1, 2],
            [0, 1, 0, 2, 0, 2, 2, 3],
            [0, 2, 1, 4, 0, 2, 1, 4, 0, 2, 2, 3],
        ),
        // A triangle: one common neighbour of two vertices is the third.
        (
            b"{6,4;1,4}",
            [1, 1, 1],
            [1, 1, 1, 2, 1, 2, 2, 2],
            [0, 4, 4, 2, 0, 4, 4, 2, 0, 4, 4, 2],
        ),
        // u is opposite to the edge of v and w.
        (
            b"{2,1;1,1}",
            [1, 2, 2],
            [0, 1, 1, 1, 0, 0, 0, 0],
            [0, 1, 1, 0, 1, 1, 0, 0, 1, 1, 0, 0],
        ),
    ];
    for (text, distances, highs, rights) in cases {
        let system = system_of(rt.alloc(), text, distances)??;
        let bounds = system.room().as_slice();
        assert_eq!(rt; bounds.len(), 8);
        for (bound, high) in bounds.iter().zip(highs.iter()) {
            assert_eq!(rt; *bound, (0, *high), "{text:?}");
        }
        let equations = system.equations();
        assert_eq!(rt; equations.len(), 12);
        for (equation, right) in equations.iter().zip(rights.iter()) {
            assert_eq!(rt; equation.right, *right, "{text:?}");
            assert_eq!(rt; equation.terms.as_slice().len(), 2);
        }
    }
    Ok(())
}

#[test]
fn names_and_terms(rt: HostRuntime) -> Result<(), Fail> {
    let system = system_of(rt.alloc(), b"{6,4;1,4}", [1, 1, 1])??;
    // The place of an equation, its vertex and distances, and its two unknowns.
    let cases: [(usize, [u8; 3], [u8; 3], [u8; 3]); 5] = [
        (0, [1, 1, 1], [1, 1, 1], [2, 1, 1]),
        (1, [1, 1, 2], [1, 1, 2], [2, 1, 2]),
        (2, [1, 2, 1], [1, 2, 1], [2, 2, 1]),
        (6, [2, 2, 1], [2, 1, 1], [2, 2, 1]),
        (9, [3, 1, 2], [1, 2, 1], [1, 2, 2]),
    ];
    for (n, [a, x, y], first, second) in cases {
        let name = EquationName::Eq { a, x, y };
        let unknowns = [unknown(first), unknown(second)];
        assert!(rt; stands_at(&system, n, name, unknowns), "{n}");
    }
    Ok(())
}

#[test]
fn solutions(rt: HostRuntime) -> Result<(), Fail> {
    let cases: [(&[u8], [u8; 3], &[i128], bool); 9] = [
        (b"{3;1}", [1, 1, 1], &[1], true),
        (b"{3;1}", [1, 1, 1], &[0], false),
        (b"{3,2;1,1}", [1, 1, 2], &[0, 0, 0, 2, 0, 2, 1, 2], true),
        (b"{3,2;1,1}", [1, 2, 2], &[0, 1, 1, 1, 0, 1, 1, 2], true),
        (b"{3,2;1,1}", [2, 2, 2], &[0, 1, 1, 1, 1, 1, 1, 1], true),
        (b"{3,2;1,1}", [2, 2, 2], &[1, 0, 0, 2, 0, 2, 2, 0], true),
        // The sums over the distance from u and from v are right, and one over that from w isn't.
        (b"{3,2;1,1}", [1, 1, 2], &[0, 1, 0, 1, 0, 1, 1, 3], false),
        (b"{2,1;1,1}", [1, 1, 2], &[0, 0, 0, 1, 0, 1, 0, 0], true),
        (b"{2,1;1,1}", [1, 2, 2], &[0, 1, 1, 0, 0, 0, 0, 0], true),
    ];
    for (text, distances, values, expected) in cases {
        let system = system_of(rt.alloc(), text, distances)??;
        let solves = is_solution(rt.alloc(), &system, values)?;
        assert_eq!(rt; solves, expected, "{text:?} {distances:?} {values:?}");
    }
    Ok(())
}

/// The number p^12_12,12 is almost k_12 = 1451·1450^11, and above 2^126. It is the high bound of
/// [12 12 12] and the right side of its three equations, whose sums are so above 2^127. The sums of all
/// other equations are below a thousandth of that.
#[test]
fn first_wide_equation(rt: HostRuntime) -> Result<(), Fail> {
    let text =
        b"{1451,1450,1450,1450,1450,1450,1450,1450,1450,1450,1450,1450;1,1,1,1,1,1,1,1,1,1,1,1}";
    let node = Node::Eq {
        u: 12,
        v: 12,
        w: 12,
        a: 1,
        x: 12,
        y: 12,
    };
    match system_of(rt.alloc(), text, [12, 12, 12])? {
        Ok(_) => assert!(rt; false),
        Err(fault) => assert_eq!(rt; fault, TripleFault::Wide { node }),
    }
    Ok(())
}

/// All types of the 12-cube: three words of twelve bits differ in U + V + W places, two for each bit in
/// which not all agree, and so in at most 24.
#[test]
fn cube_of_twelve_bits(rt: HostRuntime) -> Result<(), Fail> {
    let text = b"{12,11,10,9,8,7,6,5,4,3,2,1;1,2,3,4,5,6,7,8,9,10,11,12}";
    let numbers = numbers_of(rt.alloc(), &Array::read(text)?)?;
    let found = types(rt.alloc(), &numbers)?;
    for ty in &found {
        assert!(rt; is_of_words(*ty), "{ty:?}");
    }
    assert_eq!(rt; found.len(), 89);
    let system = system_of(rt.alloc(), text, [8, 8, 8])??;
    assert_eq!(rt; system.room().as_slice().len(), 1728);
    assert_eq!(rt; system.equations().len(), 432);
    Ok(())
}

#[test]
fn laws(_rt: HostRuntime) -> Result<(), Fail> {
    solution_law();
    fault_law();
    graph_law();
    Ok(())
}
