//! Derivations of the test mult from an independent program, and their replay.

use crate::mult_lines;
use drg_array::{Array, Claim, Class};
use drg_derivation::{Derivation, Line};
use drg_eigen::{Split, characteristic, split_of};
use drg_fraction::Fraction;
use drg_intersection::numbers_of;
use drg_matrices::frame_of;
use drg_quadratic::Quadratic;
use drg_replay::{ReplayFault, replay};
use std::alloc::Global;
use std::test::Fail;

/// The lines of mult for an array with a spectrum, and none for one without it.
fn lines_of(alloc: Global, text: &str) -> Result<Vec<Line>, Fail> {
    let array = Array::read(text.as_bytes())?;
    let numbers = numbers_of(alloc, &array)?;
    let poly = characteristic(alloc, &array)?;
    let Split::Spectrum(spectrum) = split_of(alloc, &poly, array.valency())? else {
        return Ok(Vec::new(alloc));
    };
    if array.c(1) != 1 {
        return Ok(Vec::new(alloc));
    }
    if spectrum.root == 0 {
        let frame = frame_of::<Fraction>(alloc, &array, &numbers, &spectrum)?;
        return Ok(mult_lines(alloc, numbers.first(), &frame)?);
    }
    let frame = frame_of::<Quadratic>(alloc, &array, &numbers, &spectrum)?;
    Ok(mult_lines(alloc, numbers.first(), &frame)?)
}

/// The derivation of mult i for the array.
fn derivation(alloc: Global, text: &str, i: u8) -> Result<Option<Derivation>, Fail> {
    let lines = lines_of(alloc, text)?;
    let array = Array::read(text.as_bytes())?;
    Ok(Derivation::make(array, Claim::Mult { i }, lines))
}

#[test]
fn derivations(rt: HostRuntime) -> Result<(), Fail> {
    let cases = [
        // 1 and 8 ± (4/13)√13.
        (
            "{4,3;1,1}",
            1,
            "drg 1\n\
array 2 4 3 1 1\n\
claim mult 1\n\
k 1 4 12\n\
frame 13\n\
theta 0 4 1 0 1\n\
theta 1 -1 2 1 2\n\
theta 2 -1 2 -1 2\n\
prow 0 1 1 0 1 4 1 0 1 12 1 0 1\n\
prow 1 1 1 0 1 -1 2 1 2 -1 2 -1 2\n\
prow 2 1 1 0 1 -1 2 -1 2 -1 2 1 2\n\
qrow 0 1 1 0 1 8 1 4 13 8 1 -4 13\n\
qrow 1 1 1 0 1 -1 2 25 26 -1 2 -25 26\n\
qrow 2 1 1 0 1 -1 2 -9 26 -1 2 9 26\n\
end\n\
",
        ),
        // 1, 693/10, 336/5, 33/2.
        (
            "{9,8,6;1,1,6}",
            1,
            "drg 1\n\
array 3 9 8 6 1 1 6\n\
claim mult 1\n\
k 1 9 72 72\n\
frame 0\n\
theta 0 9 1\n\
theta 1 3 1\n\
theta 2 -2 1\n\
theta 3 -5 1\n\
prow 0 1 1 9 1 72 1 72 1\n\
prow 1 1 1 3 1 0 1 -4 1\n\
prow 2 1 1 -2 1 -5 1 6 1\n\
prow 3 1 1 -5 1 16 1 -12 1\n\
qrow 0 1 1 693 10 336 5 33 2\n\
qrow 1 1 1 231 10 -224 15 -55 6\n\
qrow 2 1 1 0 1 -14 3 11 3\n\
qrow 3 1 1 -77 20 28 5 -11 4\n\
end\n\
",
        ),
        // 1 and 11 ± (9/2)√2.
        (
            "{8,7;1,4}",
            1,
            "drg 1\n\
array 2 8 7 1 4\n\
claim mult 1\n\
k 1 8 14\n\
frame 2\n\
theta 0 8 1 0 1\n\
theta 1 -2 1 2 1\n\
theta 2 -2 1 -2 1\n\
prow 0 1 1 0 1 8 1 0 1 14 1 0 1\n\
prow 1 1 1 0 1 -2 1 2 1 1 1 -2 1\n\
prow 2 1 1 0 1 -2 1 -2 1 1 1 2 1\n\
qrow 0 1 1 0 1 11 1 9 2 11 1 -9 2\n\
qrow 1 1 1 0 1 -1 2 13 8 -1 2 -13 8\n\
qrow 2 1 1 0 1 -1 2 -5 4 -1 2 5 4\n\
end\n\
",
        ),
        // 1 and 21/2 ± (7/10)√5.
        (
            "{7,4;1,2}",
            1,
            "drg 1\n\
array 2 7 4 1 2\n\
claim mult 1\n\
k 1 7 14\n\
frame 5\n\
theta 0 7 1 0 1\n\
theta 1 0 1 1 1\n\
theta 2 0 1 -1 1\n\
prow 0 1 1 0 1 7 1 0 1 14 1 0 1\n\
prow 1 1 1 0 1 0 1 1 1 -1 1 -1 1\n\
prow 2 1 1 0 1 0 1 -1 1 -1 1 1 1\n\
qrow 0 1 1 0 1 21 2 -7 10 21 2 7 10\n\
qrow 1 1 1 0 1 -1 2 3 2 -1 2 -3 2\n\
qrow 2 1 1 0 1 -1 2 -7 10 -1 2 7 10\n\
end\n\
",
        ),
        // 1 and 25/2 ± (15/34)√17.
        (
            "{5,4;1,1}",
            1,
            "drg 1\n\
array 2 5 4 1 1\n\
claim mult 1\n\
k 1 5 20\n\
frame 17\n\
theta 0 5 1 0 1\n\
theta 1 -1 2 1 2\n\
theta 2 -1 2 -1 2\n\
prow 0 1 1 0 1 5 1 0 1 20 1 0 1\n\
prow 1 1 1 0 1 -1 2 1 2 -1 2 -1 2\n\
prow 2 1 1 0 1 -1 2 -1 2 -1 2 1 2\n\
qrow 0 1 1 0 1 25 2 15 34 25 2 -15 34\n\
qrow 1 1 1 0 1 -1 2 41 34 -1 2 -41 34\n\
qrow 2 1 1 0 1 -1 2 -11 34 -1 2 11 34\n\
end\n\
",
        ),
        // 1, 24 and 20 ± (20/3)√3.
        (
            "{8,6,1;1,1,6}",
            2,
            "drg 1\n\
array 3 8 6 1 1 1 6\n\
claim mult 2\n\
k 1 8 48 8\n\
frame 3\n\
theta 0 8 1 0 1\n\
theta 1 3 1 0 1\n\
theta 2 -1 1 1 1\n\
theta 3 -1 1 -1 1\n\
prow 0 1 1 0 1 8 1 0 1 48 1 0 1 8 1 0 1\n\
prow 1 1 1 0 1 3 1 0 1 -2 1 0 1 -2 1 0 1\n\
prow 2 1 1 0 1 -1 1 1 1 -3 1 -3 1 3 1 2 1\n\
prow 3 1 1 0 1 -1 1 -1 1 -3 1 3 1 3 1 -2 1\n\
qrow 0 1 1 0 1 24 1 0 1 20 1 -20 3 20 1 20 3\n\
qrow 1 1 1 0 1 9 1 0 1 -5 1 10 3 -5 1 -10 3\n\
qrow 2 1 1 0 1 -1 1 0 1 0 1 -5 6 0 1 5 6\n\
qrow 3 1 1 0 1 -6 1 0 1 5 2 5 2 5 2 -5 2\n\
end\n\
",
        ),
    ];
    for (array, i, want) in cases {
        let derivation = derivation(rt.alloc(), array, i)?.expect(&rt, "a text");
        let mut text = Vec::new(rt.alloc());
        derivation.write_text(&mut text)?;
        assert_eq!(rt; text.as_slice(), want.as_bytes(), "{want}");
        assert_eq!(rt;
            replay(rt.alloc(), &derivation),
            Ok(Class::Spectral),
            "{want}"
        );
    }
    Ok(())
}

#[test]
fn whole_multiplicities(rt: HostRuntime) -> Result<(), Fail> {
    // Each line is met, and the claim isn't closed at the end: the Petersen graph, the pentagon, and
    // the cube of dimension 12.
    let cases = [
        ("{3,2;1,1}", 15),
        ("{2,1;1,1}", 15),
        (
            "{12,11,10,9,8,7,6,5,4,3,2,1;1,2,3,4,5,6,7,8,9,10,11,12}",
            45,
        ),
    ];
    for (array, line) in cases {
        let derivation = derivation(rt.alloc(), array, 1)?.expect(&rt, "a text");
        let answer = replay(rt.alloc(), &derivation);
        assert_eq!(rt; answer, Err(ReplayFault::Open { line }), "{array}");
    }
    Ok(())
}
