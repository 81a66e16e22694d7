//! The tests on eigenvalues by hand.

ghost use Rattle.drg_array.specs.Conditions.{CountsHold};
ghost use Rattle.drg_array.specs.Entries.{b_at};
ghost use Rattle.drg_array.specs.declared.test.Test.TheVariants as test;
ghost use Rattle.drg_eigen.specs.Characteristic.{characteristic};
ghost use Rattle.drg_eigen.specs.Spectrum.{IsSpectrum};
ghost use Rattle.drg_intersection.specs.Numbers.{AreNumbersOf};

use crate::{absolute, krein_signs, multiplicities};
use drg_array::{Array, Claim, Node};
use drg_eigen::{Spectrum, Split, characteristic, split_of};
use drg_fraction::{Field, Fraction};
use drg_intersection::{Numbers, numbers_of};
use drg_krein::krein_of;
use drg_matrices::frame_of;
use drg_quadratic::Quadratic;
use std::alloc::Global;
use std::test::Fail;

/// The first failing claim of each test.
#[derive(Clone, Copy, Debug, PartialEq, Eq)]
struct FirstClaims {
    mult: Option<Claim>,
    krein: Option<Claim>,
    absolute: Result<Option<Claim>, Node>,
}

/// Those of an array with a spectrum over the field.
fn claims_over<F: Field>(
    alloc: Global,
    array: &Array,
    numbers: &Numbers,
    spectrum: &Spectrum,
) -> Result<FirstClaims, Fail>
    requires allowed { F.HasRoot spectrum.now.root }
    requires first { CountsHold array.now test.First }
    requires numbers { AreNumbersOf array.now numbers.now }
    requires spectrum { IsSpectrum (b_at array.now 0) (characteristic array.now)
        spectrum.now.root spectrum.now.thetas }
{
    array.known_valid();
    let frame = frame_of::<F>(alloc, array, numbers, spectrum)?;
    let krein = krein_of(alloc, numbers, &frame)?;
    Ok(FirstClaims {
        mult: multiplicities(&frame),
        krein: krein_signs(&krein),
        absolute: absolute(&frame, &krein),
    })
}

/// Those of an array, if it has a spectrum over one field.
fn claims_of(alloc: Global, text: &[u8]) -> Result<Option<FirstClaims>, Fail> {
    let array = Array::read(text)?;
    let numbers = numbers_of(alloc, &array)?;
    let poly = characteristic(alloc, &array)?;
    let Split::Spectrum(spectrum) = split_of(alloc, &poly, array.valency())? else {
        return Ok(None);
    };
    if array.c(1) != 1 {
        return Ok(None);
    }
    if spectrum.root == 0 {
        let claims = claims_over::<Fraction>(alloc, &array, &numbers, &spectrum)?;
        return Ok(Some(claims));
    }
    let claims = claims_over::<Quadratic>(alloc, &array, &numbers, &spectrum)?;
    Ok(Some(claims))
}

/// The Petersen graph, the complete graph with 4 vertices, the pentagon, over √5, and the 12-cube.
#[test]
fn graphs(rt: HostRuntime) -> Result<(), Fail> {
    let none = FirstClaims {
        mult: None,
        krein: None,
        absolute: Ok(None),
    };
    let arrays: [&[u8]; 4] = [
        b"{3,2;1,1}",
        b"{3;1}",
        b"{2,1;1,1}",
        b"{12,11,10,9,8,7,6,5,4,3,2,1;1,2,3,4,5,6,7,8,9,10,11,12}",
    ];
    for text in arrays {
        assert_eq!(rt; claims_of(rt.alloc(), text)?, Some(none), "{text:?}");
    }
    Ok(())
}

/// The claims that these multiplicities and Krein parameters fail.
#[test]
fn first_claims(rt: HostRuntime) -> Result<(), Fail> {
    let cases: [(&[u8], Option<Claim>, Option<Claim>, Option<Claim>); 10] = [
        // 1, 8 + (4/13)√13 and 8 - (4/13)√13.
        (b"{4,3;1,1}", Some(Claim::Mult { i: 1 }), None, None),
        // 1, 11, 75/2, 11/2; q^3_11 = -11/8; 1 + 11 + 75/2 + 11/2 = 55 > 143/8.
        (
            b"{10,6,6;1,3,5}",
            Some(Claim::Mult { i: 2 }),
            Some(Claim::Krein { i: 1, j: 1, h: 3 }),
            Some(Claim::Absolute { i: 3, j: 3 }),
        ),
        // 1, 21, 6; q^2_22 = -4/9; 1 + 21 + 6 > 21.
        (
            b"{9,8;1,4}",
            None,
            Some(Claim::Krein { i: 2, j: 2, h: 2 }),
            Some(Claim::Absolute { i: 2, j: 2 }),
        ),
        // 1, 6, 21: the same for the complement.
        (
            b"{18,5;1,10}",
            None,
            Some(Claim::Krein { i: 1, j: 1, h: 1 }),
            Some(Claim::Absolute { i: 1, j: 1 }),
        ),
        // 1, 42, 7; q^2_22 = 0; 1 + 42 > 28.
        (
            b"{21,16;1,12}",
            None,
            None,
            Some(Claim::Absolute { i: 2, j: 2 }),
        ),
        // 1, 228/17, 75, 95/17; q^3_11 = -760/289; 228/17 + 75 + 95/17 = 94 > 21660/289.
        (
            b"{18,12,10;1,6,9}",
            Some(Claim::Mult { i: 1 }),
            Some(Claim::Krein { i: 1, j: 1, h: 3 }),
            Some(Claim::Absolute { i: 1, j: 3 }),
        ),
        // 1, 4, 10, 20; q^2_12 = -2/7; 1 + 4 + 10 > 10.
        (
            b"{12,4,3;1,3,8}",
            None,
            Some(Claim::Krein { i: 1, j: 2, h: 2 }),
            Some(Claim::Absolute { i: 1, j: 1 }),
        ),
        // 1, 10, 20, 4; q^3_11 = -5/7, q^2_33 = 0; 1 + 10 + 4 > 10.
        (
            b"{6,4,4;1,2,3}",
            None,
            Some(Claim::Krein { i: 1, j: 1, h: 3 }),
            Some(Claim::Absolute { i: 3, j: 3 }),
        ),
        // 1, 416/11, 112/5, 11648/55; 1 + 416/11 + 112/5 + 11648/55 = 273 > 6552/25.
        (
            b"{16,8,6;1,1,6}",
            Some(Claim::Mult { i: 1 }),
            None,
            Some(Claim::Absolute { i: 2, j: 2 }),
        ),
        // Over √2: 1, 3 + (3/4)√2 and 3 - (3/4)√2; q^2_22 = 3/4 - (5/8)√2, whose rational part is
        // positive; 1 + 6 > 105/16 - (21/8)√2.
        (
            b"{3,2;1,2}",
            Some(Claim::Mult { i: 1 }),
            Some(Claim::Krein { i: 2, j: 2, h: 2 }),
            Some(Claim::Absolute { i: 2, j: 2 }),
        ),
    ];
    for (text, mult, krein, absolute) in cases {
        let want = FirstClaims {
            mult,
            krein,
            absolute: Ok(absolute),
        };
        assert_eq!(rt; claims_of(rt.alloc(), text)?, Some(want), "{text:?}");
    }
    Ok(())
}
