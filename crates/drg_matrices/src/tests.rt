//! Frames by hand.

use crate::frame::tables_of;
use crate::{Frame, FrameFault, fault_law, frame_of, one_frame};
use drg_array::{Array, Node};
use drg_eigen::{Split, characteristic, split_of};
use drg_fraction::{Field, Fraction};
use drg_intersection::numbers_of;
use drg_quadratic::Quadratic;
use std::alloc::{AllocError, Global};
use std::test::Fail;

/// Appends a value, with its part of the root behind an `r` where that isn't 0, and a space.
fn write_value<F: Field>(value: F, out: &mut Vec<u8>) -> Result<(), AllocError> {
    let (a, b) = value.parts();
    a.write_text(out)?;
    if !b.is_zero() {
        out.push(b'r')?;
        b.write_text(out)?;
    }
    out.push(b' ')?;
    Ok(())
}

/// The eigenvalues, the multiplicities, and the rows of P and then of Q, a line for each.
fn frame_text<F: Field>(alloc: Global, frame: &Frame<F>) -> Result<Vec<u8>, AllocError> {
    let mut out = Vec::new(alloc);
    let side = frame.d() + 1;
    for i in 0..side {
        write_value(frame.theta(i), &mut out)?;
    }
    out.push(b'\n')?;
    for i in 0..side {
        write_value(frame.m(i), &mut out)?;
    }
    for i in 0..side {
        out.push(b'\n')?;
        for r in 0..side {
            write_value(frame.eigen(i, r), &mut out)?;
        }
    }
    for r in 0..side {
        out.push(b'\n')?;
        for i in 0..side {
            write_value(frame.dual(r, i), &mut out)?;
        }
    }
    Ok(out)
}

/// The text of the frame of an array, from its spectrum. It is empty where there is none.
fn text_of(alloc: Global, text: &[u8]) -> Result<Vec<u8>, Fail> {
    let array = Array::read(text)?;
    let numbers = numbers_of(alloc, &array)?;
    let poly = characteristic(alloc, &array)?;
    let Split::Spectrum(spectrum) = split_of(alloc, &poly, array.valency())? else {
        return Ok(Vec::new(alloc));
    };
    if array.c(1) != 1 {
        return Ok(Vec::new(alloc));
    }
    if spectrum.root == 0 {
        let frame = frame_of::<Fraction>(alloc, &array, &numbers, &spectrum)?;
        return Ok(frame_text(alloc, &frame)?);
    }
    let frame = frame_of::<Quadratic>(alloc, &array, &numbers, &spectrum)?;
    if frame.root() != spectrum.root {
        return Ok(Vec::new(alloc));
    }
    Ok(frame_text(alloc, &frame)?)
}

/// The Petersen graph and the complete graph with 4 vertices, over the rationals; the octagon over √2,
/// the pentagon over √5, the array {4,3;1,1}, whose multiplicities aren't whole, over √13, and the
/// Paley graph with 17 vertices over √17.
#[test]
fn frames(rt: HostRuntime) -> Result<(), Fail> {
    one_frame::<Fraction>();
    fault_law::<Fraction>();
    one_frame::<Quadratic>();
    fault_law::<Quadratic>();
    let cases: [(&[u8], &str); 6] = [
        (
            b"{3,2;1,1}",
            "3 1 -2 \n1 5 4 \n1 3 6 \n1 1 -2 \n1 -2 1 \n1 5 4 \n1 5/3 -8/3 \n1 -5/3 2/3 ",
        ),
        (b"{3;1}", "3 -1 \n1 3 \n1 3 \n1 -1 \n1 3 \n1 -1 "),
        (
            b"{2,1,1,1;1,1,1,2}",
            "2 0r1 0 0r-1 -2 \n1 2 2 2 1 \n\
            1 2 2 2 1 \n1 0r1 0 0r-1 -1 \n1 0 -2 0 1 \n1 0r-1 0 0r1 -1 \n1 -2 2 -2 1 \n\
            1 2 2 2 1 \n1 0r1 0 0r-1 -1 \n1 0 -2 0 1 \n1 0r-1 0 0r1 -1 \n1 -2 2 -2 1 ",
        ),
        (
            b"{2,1;1,1}",
            "2 -1/2r1/2 -1/2r-1/2 \n1 2 2 \n\
            1 2 2 \n1 -1/2r1/2 -1/2r-1/2 \n1 -1/2r-1/2 -1/2r1/2 \n\
            1 2 2 \n1 -1/2r1/2 -1/2r-1/2 \n1 -1/2r-1/2 -1/2r1/2 ",
        ),
        (
            b"{4,3;1,1}",
            "4 -1/2r1/2 -1/2r-1/2 \n1 8r4/13 8r-4/13 \n\
            1 4 12 \n1 -1/2r1/2 -1/2r-1/2 \n1 -1/2r-1/2 -1/2r1/2 \n\
            1 8r4/13 8r-4/13 \n1 -1/2r25/26 -1/2r-25/26 \n1 -1/2r-9/26 -1/2r9/26 ",
        ),
        (
            b"{8,4;1,4}",
            "8 -1/2r1/2 -1/2r-1/2 \n1 8 8 \n\
            1 8 8 \n1 -1/2r1/2 -1/2r-1/2 \n1 -1/2r-1/2 -1/2r1/2 \n\
            1 8 8 \n1 -1/2r1/2 -1/2r-1/2 \n1 -1/2r-1/2 -1/2r1/2 ",
        ),
    ];
    for (array, want) in cases {
        let found = text_of(rt.alloc(), array)?;
        assert_eq!(rt; found.as_slice(), want.as_bytes(), "{want}");
    }
    Ok(())
}

/// The 12-cube: P and Q are one matrix, whose entries in row i are the coefficients of
/// (1 - x)^i (1 + x)^(12-i).
#[test]
fn diameter_twelve(rt: HostRuntime) -> Result<(), Fail> {
    let alloc = rt.alloc();
    let array = Array::read(b"{12,11,10,9,8,7,6,5,4,3,2,1;1,2,3,4,5,6,7,8,9,10,11,12}")?;
    let numbers = numbers_of(alloc, &array)?;
    let mut thetas = Vec::new(alloc);
    for i in 0..13u8 {
        thetas.push(Fraction::make(12 - 2 * i128::from(i), 1))?;
    }
    if thetas.len() != array.d() + 1 {
        assert!(rt; false);
        return Ok(());
    }
    let frame = tables_of(alloc, &array, &numbers, 0, &thetas)?;
    let binomials: [i64; 13] = [1, 12, 66, 220, 495, 792, 924, 792, 495, 220, 66, 12, 1];
    let middle: [i64; 13] = [1, 0, -6, 0, 15, 0, -20, 0, 15, 0, -6, 0, 1];
    for i in 0..frame.d() + 1 {
        assert_eq!(rt; frame.theta(i), Fraction::make(12 - 2 * (i as i128), 1));
        assert_eq!(rt; frame.cosine(i, 0), Fraction::make(1, 1));
        if i < 13 && frame.d() == 12 {
            assert_eq!(rt; frame.m(i), Fraction::make(i128::from(binomials[i]), 1));
            assert_eq!(rt; frame.eigen(6, i), Fraction::make(i128::from(middle[i]), 1));
            assert_eq!(rt; frame.cosine(6, 12), Fraction::make(1, 1));
        }
        for r in 0..frame.d() + 1 {
            assert_eq!(rt; frame.eigen(i, r), frame.dual(i, r));
        }
    }
    Ok(())
}

/// The node that is too wide, with whole numbers over others in place of the eigenvalues.
fn wide_node(alloc: Global, array: &[u8], ratios: &[(i128, i64)]) -> Result<Option<Node>, Fail> {
    let array = Array::read(array)?;
    let numbers = numbers_of(alloc, &array)?;
    let mut thetas = Vec::new(alloc);
    'ratios: for place in 0..ratios.len() {
        let (over, under) = ratios[place];
        if over != i128::MIN && under != 0 {
            thetas.push(Fraction::make(over, i128::from(under)))?;
        }
    }
    if thetas.len() != array.d() + 1 {
        return Ok(None);
    }
    match tables_of(alloc, &array, &numbers, 0, &thetas) {
        Err(FrameFault::Wide { node }) => Ok(Some(node)),
        _ => Ok(None),
    }
}

/// A fault of each kind.
#[test]
fn wide_quantities(rt: HostRuntime) -> Result<(), Fail> {
    let cases: [(&[u8], &[(i128, i64)], Node); 5] = [
        (
            b"{3,2;1,1}",
            &[(3, 1), (1 << 65, 1), (3, 1)],
            Node::U { i: 1, r: 2 },
        ),
        (
            b"{3,2;1,1}",
            &[(3, 1), (1 << 33, 1), (3, 1)],
            Node::M { i: 1 },
        ),
        (
            b"{4,3;1,1}",
            &[(4, 1), (7, 1_667_233_717), (4, 1)],
            Node::Qrow { r: 2, i: 1 },
        ),
        (
            b"{3;1}",
            &[(3, 1), (15_000_000_000_000_000_000, 1)],
            Node::Rec { i: 1, j: 1 },
        ),
        (
            b"{3,2;1,1}",
            &[(3, 1), (9, 1), (1, 1 << 30)],
            Node::Pq { i: 1, j: 2 },
        ),
    ];
    for (array, ratios, want) in cases {
        assert_eq!(rt; wide_node(rt.alloc(), array, ratios)?, Some(want));
    }
    Ok(())
}
