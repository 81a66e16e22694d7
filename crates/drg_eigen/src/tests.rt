//! Polynomials by hand, and the spectra of graphs.
ghost use Rattle.drg_eigen.specs.Simple.{IsSimple};

use crate::{EigenFault, Factors, OtherSpectrum, Poly, Spectrum, Split, characteristic, split_of};
use drg_array::{Array, Node};
use std::alloc::Global;
use std::process::Abort;
use std::test::Fail;

#[test]
fn characteristic_polynomials(rt: HostRuntime) -> Result<(), Fail> {
    let cases: [(&[u8], &[i128]); 3] = [
        // (x - 3)(x - 1)(x + 2).
        (b"{3,2;1,1}", &[6, -5, -2, 1]),
        // (x - 2)(x² + x - 1).
        (b"{2,1;1,1}", &[2, -3, -1, 1]),
        // (x - 1)(x + 1).
        (b"{1;1}", &[-1, 0, 1]),
    ];
    for (text, coefficients) in cases {
        let poly = characteristic(rt.alloc(), &Array::read(text)?)?;
        assert_eq!(rt; poly.coefficients(), coefficients, "{text:?}");
    }
    Ok(())
}

#[test]
fn wide(rt: HostRuntime) -> Result<(), Fail> {
    // The coefficient of x in F_11 is near 4093^10, below 2^120, and 4093^11 is above 2^131.
    let text = b"{4095,1,1,1,1,1,1,1,1,1,1,1;1,1,1,1,1,1,1,1,1,1,1,1}";
    match characteristic(rt.alloc(), &Array::read(text)?) {
        Ok(_) => assert!(rt; false),
        Err(fault) => assert_eq!(rt;
            fault,
            EigenFault::Wide {
                node: Node::Poly { j: 12 },
            }
        ),
    }
    Ok(())
}

#[test]
fn made(rt: HostRuntime) -> Result<(), Fail> {
    let cases: [(&[i128], bool); 6] = [
        (&[1], true),
        (&[-1, 0, 1], true),
        (&[i128::MAX, 1], true),
        (&[], false),
        (&[1, 2], false),
        (&[i128::MIN, 1], false),
    ];
    for (coefficients, monic) in cases {
        let poly = Poly::make(Vec::from_slice(rt.alloc(), coefficients)?);
        assert_eq!(rt; poly.is_some(), monic, "{coefficients:?}");
    }
    Ok(())
}

fn split_text(alloc: Global, text: &[u8]) -> Result<Split, Fail> {
    let array = Array::read(text)?;
    let poly = characteristic(alloc, &array)?;
    Ok(split_of(alloc, &poly, array.valency())?)
}

// Whether the spectrum has this root, and eigenvalues with these s and f over it.
fn are_eigenvalues(spectrum: &Spectrum, root: u32, eigenvalues: &[(i32, i32)]) -> bool {
    let thetas = spectrum.thetas.as_slice();
    spectrum.root == root
        && thetas.len() == eigenvalues.len()
        && thetas.iter().zip(eigenvalues).all(|(theta, (s, f))| {
            theta.s() == *s && theta.f() == *f && theta.root() == root
        })
}

// The spectra of graphs are those of the literature.
#[test]
fn spectra(rt: HostRuntime) -> Result<(), Fail> {
    // The array, the root, and the s and f of each eigenvalue (s + f√root)/2.
    let cases: [(&[u8], u32, &[(i32, i32)]); 29] = [
        // The Clebsch graph.
        (b"{5,4;1,2}", 0, &[(10, 0), (2, 0), (-6, 0)]),
        // The Coxeter graph.
        (
            b"{3,2,2,1;1,1,1,2}",
            2,
            &[(6, 0), (4, 0), (-2, 2), (-2, 0), (-2, -2)],
        ),
        // The cube.
        (b"{3,2,1;1,2,3}", 0, &[(6, 0), (2, 0), (-2, 0), (-6, 0)]),
        // The Desargues graph.
        (
            b"{3,2,2,1,1;1,1,2,2,3}",
            0,
            &[(6, 0), (4, 0), (2, 0), (-2, 0), (-4, 0), (-6, 0)],
        ),
        // The dodecahedron.
        (
            b"{3,2,1,1,1;1,1,1,2,3}",
            5,
            &[(6, 0), (0, 2), (2, 0), (0, 0), (-4, 0), (0, -2)],
        ),
        // The Foster graph.
        (
            b"{3,2,2,2,2,1,1,1;1,1,1,1,2,2,2,3}",
            6,
            &[
                (6, 0),
                (0, 2),
                (4, 0),
                (2, 0),
                (0, 0),
                (-2, 0),
                (-4, 0),
                (0, -2),
                (-6, 0),
            ],
        ),
        // The Gosset graph.
        (
            b"{27,10,1;1,10,27}",
            0,
            &[(54, 0), (18, 0), (-2, 0), (-6, 0)],
        ),
        // The Hamming graph H(3,3).
        (b"{6,4,2;1,2,3}", 0, &[(12, 0), (6, 0), (0, 0), (-6, 0)]),
        // The Heawood graph.
        (b"{3,2,2;1,1,3}", 2, &[(6, 0), (0, 2), (0, -2), (-6, 0)]),
        // The Higman-Sims graph.
        (b"{22,21;1,6}", 0, &[(44, 0), (4, 0), (-16, 0)]),
        // The Hoffman-Singleton graph.
        (b"{7,6;1,1}", 0, &[(14, 0), (4, 0), (-6, 0)]),
        // The hypercube of dimension 12.
        (
            b"{12,11,10,9,8,7,6,5,4,3,2,1;1,2,3,4,5,6,7,8,9,10,11,12}",
            0,
            &[
                (24, 0),
                (20, 0),
                (16, 0),
                (12, 0),
                (8, 0),
                (4, 0),
                (0, 0),
                (-4, 0),
                (-8, 0),
                (-12, 0),
                (-16, 0),
                (-20, 0),
                (-24, 0),
            ],
        ),
        // The icosahedron.
        (b"{5,2,1;1,2,5}", 5, &[(10, 0), (0, 2), (-2, 0), (0, -2)]),
        // The Johnson graph J(7,3).
        (b"{12,6,2;1,4,9}", 0, &[(24, 0), (10, 0), (0, 0), (-6, 0)]),
        // The complete graph on four vertices.
        (b"{3;1}", 0, &[(6, 0), (-2, 0)]),
        // The octahedron.
        (b"{4,1;1,4}", 0, &[(8, 0), (0, 0), (-4, 0)]),
        // The octagon.
        (
            b"{2,1,1,1;1,1,1,2}",
            2,
            &[(4, 0), (0, 2), (0, 0), (0, -2), (-4, 0)],
        ),
        // The odd graph on seven points.
        (b"{4,3,3;1,1,2}", 0, &[(8, 0), (4, 0), (-2, 0), (-6, 0)]),
        // The Paley graph on 13 vertices.
        (b"{6,3;1,3}", 13, &[(12, 0), (-1, 1), (-1, -1)]),
        // The Pappus graph.
        (
            b"{3,2,2,1;1,1,2,3}",
            3,
            &[(6, 0), (0, 2), (0, 0), (0, -2), (-6, 0)],
        ),
        // The pentagon.
        (b"{2,1;1,1}", 5, &[(4, 0), (-1, 1), (-1, -1)]),
        // The Perkel graph.
        (b"{6,5,2;1,1,3}", 5, &[(12, 0), (3, 1), (3, -1), (-6, 0)]),
        // The Petersen graph.
        (b"{3,2;1,1}", 0, &[(6, 0), (2, 0), (-4, 0)]),
        // The Shrikhande graph.
        (b"{6,3;1,2}", 0, &[(12, 0), (4, 0), (-4, 0)]),
        // The Sylvester graph.
        (b"{5,4,2;1,1,4}", 0, &[(10, 0), (4, 0), (-2, 0), (-6, 0)]),
        // The Tutte 8-cage.
        (
            b"{3,2,2,2;1,1,1,3}",
            0,
            &[(6, 0), (4, 0), (0, 0), (-4, 0), (-6, 0)],
        ),
        // Two quadratic factors over one root: (x² - 25) (x² - 12) (x² - 3).
        (
            b"{5,4,4,2,3;1,1,3,2,5}",
            3,
            &[(10, 0), (0, 4), (0, 2), (0, -2), (0, -4), (-10, 0)],
        ),
        // A bipartite array of a large valency: (x² - 2001²) (x² - 2000).
        (
            b"{2001,2000,2000;1,1,2001}",
            5,
            &[(4002, 0), (0, 40), (0, -40), (-4002, 0)],
        ),
        // The complete graph on two vertices.
        (b"{1;1}", 0, &[(2, 0), (-2, 0)]),
    ];
    for (text, root, eigenvalues) in cases {
        match split_text(rt.alloc(), text)? {
            Split::Spectrum(spectrum) => {
                assert!(rt; are_eigenvalues(&spectrum, root, eigenvalues), "{text:?}");
            }
            Split::Other(_other) => assert!(rt; false, "{text:?}"),
        }
    }
    Ok(())
}

// Whether these are the factors with these coefficients.
fn are_factors(factors: &Factors, coefficients: &[&[i128]]) -> bool {
    let factors = factors.as_slice();
    factors.len() == coefficients.len()
        && factors.iter().zip(coefficients).all(|(factor, coefficients)| factor.coefficients()
            == *coefficients)
}

fn other_of(alloc: Global, text: &[u8]) -> Result<Option<OtherSpectrum>, Fail> {
    match split_text(alloc, text)? {
        Split::Spectrum(_spectrum) => Ok(None),
        Split::Other(other) => Ok(Some(other)),
    }
}

#[test]
fn rests(rt: HostRuntime) -> Result<(), Fail> {
    // The array, its factors, and what is left.
    let cases: [(&[u8], &[&[i128]], &[i128]); 3] = [
        // The heptagon: (x - 2) (x³ + x² - 2x - 1).
        (b"{2,1,1;1,1,1}", &[&[-2, 1]], &[-1, -2, 1, 1]),
        // The Biggs-Smith graph: (x - 3) (x - 2) x (x² - x - 4) (x³ + 3x² - 3).
        (
            b"{3,2,2,2,1,1,1;1,1,1,1,1,1,3}",
            &[&[-3, 1], &[-2, 1], &[0, 1], &[-4, -1, 1]],
            &[-3, 0, 3, 1],
        ),
        // (x - 1) (x + 5), where -5 is below -k.
        (b"{1;5}", &[&[-1, 1]], &[5, 1]),
    ];
    for (text, coefficients, left) in cases {
        let Some(OtherSpectrum::Rest { factors, rest }) = other_of(rt.alloc(), text)? else {
            assert!(rt; false, "{text:?}");
            return Ok(());
        };
        assert!(rt; are_factors(&factors, coefficients), "{text:?}");
        assert_eq!(rt; rest.coefficients(), left, "{text:?}");
    }
    Ok(())
}

// The split of the polynomial with these coefficients, for the valency 5.
fn split_made(alloc: Global, coefficients: &[i128]) -> Result<Option<Split>, Fail>
    requires { IsSimple coefficients.now }
{
    match Poly::make(Vec::from_slice(alloc, coefficients)?) {
        None => Ok(None),
        Some(poly) => Ok(Some(split_of(alloc, &poly, 5)?)),
    }
}

#[test]
fn wide_division(rt: HostRuntime) -> Result<(), Fail> {
    // The quotient by x² - 96x - 1 grows with each coefficient, and no division before it is too wide.
    let text = b"{60,32,26,25,24,20,16,12,8,6,4,2;1,2,3,4,5,6,7,8,9,10,11,12}";
    let array = Array::read(text)?;
    let poly = characteristic(rt.alloc(), &array)?;
    match split_of(rt.alloc(), &poly, array.valency()) {
        Ok(_split) => assert!(rt; false),
        Err(fault) => assert_eq!(rt;
            fault,
            EigenFault::Wide {
                node: Node::Quadratic { s: 96, t: -1 },
            }
        ),
    }
    Ok(())
}

// Whether there are two fields, with these factors.
fn are_two_fields(
    split: Option<Split>,
    coefficients: &[&[i128]],
    one: &[i128],
    other: &[i128],
) -> bool {
    let Some(
        Split::Other(
            OtherSpectrum::TwoFields {
                factors,
                first,
                second,
            },
        ),
    ) = split
    else {
        return false;
    };
    are_factors(&factors, coefficients)
        && first.coefficients() == one
        && second.coefficients() == other
}

#[test]
fn two_fields(rt: HostRuntime) -> Result<(), Fail> {
    // The Tutte 12-cage: (x - 3) x (x + 3) (x² - 2) (x² - 6).
    let cage = split_text(rt.alloc(), b"{3,2,2,2,2,2;1,1,1,1,1,3}")?;
    assert!(rt;
        are_two_fields(
            Some(cage),
            &[&[-3, 1], &[0, 1], &[3, 1], &[-2, 0, 1], &[-6, 0, 1]],
            &[-2, 0, 1],
            &[-6, 0, 1],
        )
    );
    // (x - 5) (x² - 2) (x² - 3).
    let made = split_made(rt.alloc(), &[-30, 6, 25, -5, -5, 1])?;
    assert!(rt;
        are_two_fields(
            made,
            &[&[-5, 1], &[-2, 0, 1], &[-3, 0, 1]],
            &[-2, 0, 1],
            &[-3, 0, 1],
        )
    );
    Ok(())
}

#[test]
fn one_field(rt: HostRuntime) -> Result<(), Fail> {
    // (x - 5) (x² - 2) (x² - 8), with the discriminants 8 and 32.
    match split_made(rt.alloc(), &[-80, 16, 50, -10, -5, 1])? {
        Some(Split::Spectrum(spectrum)) => {
            let eigenvalues = [(10, 0), (0, 4), (0, 2), (0, -2), (0, -4)];
            assert!(rt; are_eigenvalues(&spectrum, 2, &eigenvalues));
        }
        Some(Split::Other(_other)) => assert!(rt; false),
        None => assert!(rt; false),
    }
    Ok(())
}
