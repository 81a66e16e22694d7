//! Tables by hand.
ghost use Rattle.std.specs.Prelude.{◌≡◌, IfOk};
ghost use Rattle.drg_whole.specs.Range.{InRange};
ghost use Rattle.drg_quadratic.specs.Quadratic.{root_of};

use crate::{Table, TableFault, example_law, krein_law, right_inverse_is_left, table_law};
use drg_fraction::{Field, Fraction, Wide};
use drg_quadratic::Quadratic;
use std::alloc::{AllocError, Global};
use std::test::Fail;

/// The table with the rows `a b` and `c d`.
fn table<F: Field>(alloc: Global, a: F, b: F, c: F, d: F) -> Result<Table<F>, AllocError>
    requires b { F.root_of b ≡ F.root_of a }
    requires c { F.root_of c ≡ F.root_of a }
    requires d { F.root_of d ≡ F.root_of a }
    ensures side { IfOk result (λ t. t.side ≡ 2) }
    ensures root { IfOk result (λ t. t.root ≡ F.root_of a) }
{
    let mut table = Table::make(alloc, 2, a)?;
    table.set(0, 1, b);
    table.set(1, 0, c);
    table.set(1, 1, d);
    Ok(table)
}

/// The table with these whole numbers.
fn wholes(alloc: Global, cells: [i64; 4]) -> Result<Table<Fraction>, AllocError>
    ensures side { IfOk result (λ t. t.side ≡ 2) }
    ensures root { IfOk result (λ t. t.root ≡ 0) }
{
    let [a, b, c, d] = cells.map(|n| Fraction::make(i128::from(n), 1));
    table(alloc, a, b, c, d)
}

/// The number `a + b√2`.
fn over_two(a: i128, b: i128) -> Quadratic
    requires a { InRange a }
    requires b { InRange b }
    ensures { root_of result ≡ 2 }
{
    Quadratic::make(Fraction::make(a, 1), Fraction::make(b, 1), 2)
}

/// Calls each function of laws, through its bound.
fn laws<F: Field>() {
    table_law::<F>();
    right_inverse_is_left::<F>();
    krein_law::<F>();
    example_law::<F>();
}

#[test]
fn products(rt: HostRuntime) -> Result<(), Fail> {
    laws::<Fraction>();
    let left = wholes(rt.alloc(), [1, 2, 3, 4])?;
    for (right, want) in [
        ([5, 6, 7, 8], [19i128, 22, 43, 50]),
        // The same factor transposed.
        ([5, 7, 6, 8], [17, 23, 39, 53]),
    ] {
        let right = wholes(rt.alloc(), right)?;
        let product = left.product(rt.alloc(), &right)?;
        assert_eq!(rt; product.side(), 2);
        for (place, number) in want.into_iter().enumerate() {
            assert_eq!(rt; product.get(place / 2, place % 2).num(), number);
            assert_eq!(rt; product.row(place / 2)[place % 2].num(), number);
            let cell = left.product_cell(&right, place / 2, place % 2);
            assert_eq!(rt; cell, Ok(Fraction::make(number, 1)));
        }
    }
    Ok(())
}

#[test]
fn wide_cells(rt: HostRuntime) -> Result<(), Fail> {
    let zero = Fraction::make(0, 1);
    for (row, col) in [(0, 0), (0, 1), (1, 0), (1, 1)] {
        // All cells of the product are 0 but this one, which is 2(2^127 - 1).
        let mut left = Table::make(rt.alloc(), 2, zero)?;
        left.set(row, 0, Fraction::make(i128::MAX, 1));
        let mut right = Table::make(rt.alloc(), 2, zero)?;
        right.set(0, col, Fraction::make(2, 1));
        assert_eq!(rt; left.product_cell(&right, row, col), Err(Wide));
        match left.product(rt.alloc(), &right) {
            Ok(_) => assert!(rt; false, "{row} {col}"),
            Err(fault) => {
                assert_eq!(rt;
                    fault,
                    TableFault::Wide {
                        row: row as u8,
                        col: col as u8
                    }
                )
            }
        }
    }
    Ok(())
}

#[test]
fn scalars(rt: HostRuntime) -> Result<(), Fail> {
    for (cells, want) in [
        ([3, 0, 0, 3], true),
        ([3, 1, 0, 3], false),
        ([3, 0, 1, 3], false),
        ([3, 0, 0, 2], false),
    ] {
        let found = wholes(rt.alloc(), cells)?.is_scalar(Fraction::make(3, 1));
        assert_eq!(rt; found, want, "{cells:?}");
    }
    Ok(())
}

#[test]
fn over_the_root_of_two(rt: HostRuntime) -> Result<(), Fail> {
    laws::<Quadratic>();
    // The square of the table with the rows 1 √2 and √2 -1 is 3I.
    let (one, less, root) = (over_two(1, 0), over_two(-1, 0), over_two(0, 1));
    let left = table(rt.alloc(), one, root, root, less)?;
    let square = left.product(rt.alloc(), &left)?;
    assert_eq!(rt; square.side(), 2);
    assert!(rt; square.is_scalar(over_two(3, 0)));
    assert!(rt; !left.is_scalar(one));
    assert_eq!(rt; square.get(1, 1).a().num(), 3);
    assert!(rt; square.row(1)[0].is_zero());
    // The product's last cell is 2(2^127 - 1).
    let right = table(rt.alloc(), one, over_two(0, i128::MAX), one, over_two(0, 0))?;
    match left.product(rt.alloc(), &right) {
        Ok(_) => assert!(rt; false),
        Err(fault) => assert_eq!(rt; fault, TableFault::Wide { row: 1, col: 1 }),
    }
    Ok(())
}
