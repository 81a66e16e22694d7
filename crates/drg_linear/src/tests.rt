//! Values by hand.
ghost use Rattle.std.specs.Prelude.{◌≡◌, ◌∷◌, [], pos, IfOk};
ghost use Rattle.drg_linear.specs.Rooms.{Bounds};

use crate::{
    Assignment, End, Equation, EquationName, Room, System, Terms, Unknown, bounds_at, ceiling,
    end_sum_onto, floor, holds,
};
use drg_whole::{Whole, Wide};
use std::alloc::Global;
use std::test::Fail;

const X: Unknown = Unknown { r: 1, s: 1, t: 1 };

const Y: Unknown = Unknown { r: 2, s: 1, t: 2 };

/// Diameter 2: X goes from 0 to 3 and Y from 1 to 2; the other unknowns are 0.
fn small_room(alloc: Global) -> Result<Room, Fail>
    ensures d { IfOk result (λ room. room.d ≡ 2) }
    ensures bounds { let zero : Bounds = (pos 0, pos 0) in
        IfOk result (λ room. room.bounds
        ≡ (pos 0, pos 3) ∷ zero ∷ zero ∷ zero ∷ zero ∷ (pos 1, pos 2) ∷ zero ∷ zero ∷ []) }
{
    let zero = (0, 0);
    let bounds = vec![in alloc; (0, 3), zero, zero, zero, zero, (1, 2), zero, zero]?;
    Ok(Room::make(2, bounds))
}

#[test]
fn quotients_of_either_sign(rt: HostRuntime) -> Result<(), Fail> {
    // m, a, m/a rounded down and up.
    let cases: [(i128, i128, i128, i128); 9] = [
        (7, 2, 3, 4),
        (-7, 2, -4, -3),
        (7, -2, -4, -3),
        (-7, -2, 3, 4),
        (6, -3, -2, -2),
        (-6, -3, 2, 2),
        (0, -5, 0, 0),
        (i128::MAX, -1, -i128::MAX, -i128::MAX),
        (-1, i128::MAX, -1, 0),
    ];
    for (m, a, down, up) in cases {
        let number = Whole::checked(m).ok().ok_or("range")?;
        let divisor = Whole::checked(a).ok().ok_or("range")?;
        if divisor.value != 0 {
            assert_eq!(rt; floor(number, divisor).value, down, "{m}/{a}");
            assert_eq!(rt; ceiling(number, divisor).value, up, "{m}/{a}");
        }
    }
    Ok(())
}

#[test]
fn sums_within_bounds(rt: HostRuntime) -> Result<(), Fail> {
    let x = Unknown { r: 1, s: 1, t: 2 };
    let y = Unknown { r: 2, s: 1, t: 2 };
    assert_eq!(rt; x.place(2), 1);
    assert_eq!(rt; y.place(2), 5);
    let zero = (0, 0);
    // x from 0 to 3, and y from 1 to 2.
    let room = [zero, (0, 3), zero, zero, zero, (1, 2), zero, zero];
    assert_eq!(rt; bounds_at(&room, 5), (1, 2));
    assert_eq!(rt; bounds_at(&room, 8), zero);
    // 2x - 3y goes from -6 to 3.
    let terms = [(x, 2), (y, -3)];
    for (side, expected) in [(End::Least, -6), (End::Greatest, 3)] {
        let sum = end_sum_onto(Whole::new(0), 2, side, &room, &terms);
        let expected = Whole::checked(expected);
        assert_eq!(rt; sum, expected, "{side:?}");
    }
    // 3·2^126 passes the bound, and the least sum doesn't.
    let large = [(x, 85070591730234615865843651857942052864)];
    let least = end_sum_onto(Whole::new(0), 2, End::Least, &room, &large);
    assert_eq!(rt; least, Whole::checked(0));
    let greatest = end_sum_onto(Whole::new(0), 2, End::Greatest, &room, &large);
    assert_eq!(rt; greatest, Err(Wide));
    Ok(())
}

#[test]
fn points_of_rooms(rt: HostRuntime) -> Result<(), Fail> {
    let alloc = rt.alloc();
    let room = small_room(alloc)?;
    assert_eq!(rt; room.points(), 8);
    assert_eq!(rt; (room.low(X), room.high(X)), (0, 3));
    assert_eq!(rt; (room.low(Y), room.high(Y)), (1, 2));
    // One unknown with 2^127 values.
    let one = Room::make(1, vec![in alloc; (0, i128::MAX)]?);
    assert_eq!(rt; one.points(), 170141183460469231731687303715884105728);
    // 2^127 times 2 passes the greatest number by 1, and is held at it.
    let zero = (0, 0);
    let wide = vec![in alloc; (0, i128::MAX), (6, 7), zero, zero, zero, zero, zero, zero]?;
    assert_eq!(rt; Room::make(2, wide).points(), u128::MAX);
    Ok(())
}

#[tactic(auto, unfolding(crate::specs::Unknowns::place))]
#[test]
fn solutions_of_a_system(rt: HostRuntime) -> Result<(), Fail> {
    let alloc = rt.alloc();
    let room = small_room(alloc)?;
    let mut system = System::make(alloc, room);
    // 2x - 3y = 0.
    let terms = vec![in alloc; (X, 2), (Y, -3)]?;
    let name = EquationName::Eq { a: 1, x: 1, y: 2 };
    let equation = Equation {
        terms: Terms::new(terms),
        right: 0,
    };
    system.push(name, equation)?;
    assert_eq!(rt; system.name(0), name);
    for (x, y, expected) in [
        (3, 2, true),
        // Within the bounds, and 2x is 2 or 6 where 3y is 3.
        (1, 1, false),
        (3, 1, false),
        // The equation holds, and a number is out of its bounds.
        (0, 0, false),
        (6, 4, false),
        (-3, -2, false),
    ] {
        let values = Assignment::make(2, vec![in alloc; x, 0, 0, 0, 0, y, 0, 0]?);
        assert_eq!(rt; values.value(Y), y);
        assert_eq!(rt; holds(&system, &values), expected, "{x} {y}");
    }
    let other = Assignment::make(2, vec![in alloc; 3, 0, 0, 0, 0, 2, 0, 1]?);
    assert!(rt; !holds(&system, &other));
    let narrowed = system.narrow(X, 0, 2);
    let values = Assignment::make(2, vec![in alloc; 3, 0, 0, 0, 0, 2, 0, 0]?);
    assert!(rt; !holds(&narrowed, &values));
    assert_eq!(rt; narrowed.room().points(), 6);
    Ok(())
}
