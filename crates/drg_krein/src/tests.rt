//! Krein parameters by hand.

ghost use Rattle.std.specs.Prelude.{◌≤◌};
ghost use Rattle.drg_array.specs.Conditions.{CountsHold};
ghost use Rattle.drg_array.specs.Entries.{b_at};
ghost use Rattle.drg_array.specs.declared.test.Test.TheVariants as test;
ghost use Rattle.drg_eigen.specs.Characteristic.{characteristic};
ghost use Rattle.drg_eigen.specs.Spectrum.{IsSpectrum};
ghost use Rattle.drg_intersection.specs.Numbers.{AreNumbersOf};

use crate::{Krein, KreinFault, fault_law, formula_law, krein_of};
use drg_array::{Array, Node};
use drg_eigen::{Spectrum, Split, characteristic, split_of};
use drg_fraction::{Field, Fraction};
use drg_intersection::{Numbers, numbers_of};
use drg_matrices::frame_of;
use drg_quadratic::Quadratic;
use std::alloc::{AllocError, Global};
use std::cmp::Ordering;
use std::test::Fail;

/// Appends a value, with its part of the root behind an `r` where that isn't 0, and a space.
fn write_value<F: Field>(value: F, out: &mut Vec<u8>) -> Result<(), AllocError> {
    let (a, b) = value.parts();
    a.write_text(out)?;
    if !b.is_zero() {
        out.push(b'r')?;
        b.write_text(out)?;
    }
    out.push(b' ')?;
    Ok(())
}

/// A line for each 1 ≤ i ≤ j with q^0_ij to q^d_ij, and their signs after a bar.
fn krein_text<F: Field>(alloc: Global, krein: &Krein<F>) -> Result<Vec<u8>, AllocError> {
    let mut out = Vec::new(alloc);
    let side = krein.d() + 1;
    for i in 1..side {
        for j in i..side {
            for h in 0..side {
                write_value(krein.q(j, i, h), &mut out)?;
            }
            out.push(b'|')?;
            for h in 0..side {
                out.push(sign_byte(krein.sign(i, j, h)))?;
            }
            out.push(b'\n')?;
        }
    }
    Ok(out)
}

/// `-`, `0` or `+`.
fn sign_byte(sign: Ordering) -> u8 {
    match sign {
        Ordering::Less => b'-',
        Ordering::Equal => b'0',
        Ordering::Greater => b'+',
    }
}

/// The Krein parameters of an array with a spectrum over the field, or why they are not made.
fn krein_over<F: Field>(
    alloc: Global,
    array: &Array,
    numbers: &Numbers,
    spectrum: &Spectrum,
) -> Result<Result<Krein<F>, KreinFault>, Fail>
    requires allowed { F.HasRoot spectrum.now.root }
    requires first { CountsHold array.now test.First }
    requires numbers { AreNumbersOf array.now numbers.now }
    requires spectrum { IsSpectrum (b_at array.now 0) (characteristic array.now)
        spectrum.now.root spectrum.now.thetas }
{
    array.known_valid();
    let frame = frame_of::<F>(alloc, array, numbers, spectrum)?;
    Ok(krein_of(alloc, numbers, &frame))
}

/// The text of the parameters of an array. It is empty where there are none.
fn text_of(alloc: Global, text: &[u8]) -> Result<Vec<u8>, Fail> {
    let array = Array::read(text)?;
    let numbers = numbers_of(alloc, &array)?;
    let poly = characteristic(alloc, &array)?;
    let Split::Spectrum(spectrum) = split_of(alloc, &poly, array.valency())? else {
        return Ok(Vec::new(alloc));
    };
    if array.c(1) != 1 {
        return Ok(Vec::new(alloc));
    }
    if spectrum.root == 0 {
        let krein = krein_over::<Fraction>(alloc, &array, &numbers, &spectrum)??;
        return Ok(krein_text(alloc, &krein)?);
    }
    let krein = krein_over::<Quadratic>(alloc, &array, &numbers, &spectrum)??;
    Ok(krein_text(alloc, &krein)?)
}

/// The Petersen graph and the quadrangle, over the rationals; {9,8;1,4} and its complement, with a
/// negative parameter each; the pentagon over √5; {4,3;1,1} over √13, whose parameters are
/// irrational; and the octagon over √2, many of whose parameters vanish.
#[test]
fn parameters(rt: HostRuntime) -> Result<(), Fail> {
    formula_law::<Fraction>();
    fault_law::<Fraction>();
    formula_law::<Quadratic>();
    fault_law::<Quadratic>();
    let cases: [(&[u8], &str); 8] = [
        (
            b"{3,2;1,1}",
            "5 20/9 20/9 |+++\n0 16/9 25/9 |0++\n4 20/9 2/9 |+++\n",
        ),
        (b"{2,1;1,2}", "2 0 2 |+0+\n0 1 0 |0+0\n1 0 0 |+00\n"),
        (
            b"{9,8;1,4}",
            "21 140/9 140/9 |+++\n0 40/9 49/9 |0++\n6 14/9 -4/9 |++-\n",
        ),
        (
            b"{18,5;1,10}",
            "6 -4/9 14/9 |+-+\n0 49/9 40/9 |0++\n21 140/9 140/9 |+++\n",
        ),
        (b"{2,1;1,1}", "2 0 1 |+0+\n0 1 1 |0++\n2 1 0 |++0\n"),
        (
            b"{4,3;1,1}",
            "8r4/13 38/13r8/13 51/13 |+++\n0 53/13r-4/13 53/13r4/13 |0++\n\
            8r-4/13 51/13 38/13r-8/13 |+++\n",
        ),
        (
            b"{3,2;1,2}",
            "3r3/4 3/4r5/8 7/4r7/8 |+++\n0 5/4r1/8 5/4r-1/8 |0++\n3r-3/4 7/4r-7/8 3/4r-5/8 |++-\n",
        ),
        (
            b"{2,1,1,1;1,1,1,2}",
            "2 0 1 0 0 |+0+00\n0 1 0 1 0 |0+0+0\n0 0 1 0 2 |00+0+\n0 0 0 1 0 |000+0\n\
            2 0 0 0 2 |+000+\n0 1 0 1 0 |0+0+0\n0 0 1 0 0 |00+00\n\
            2 0 1 0 0 |+0+00\n0 1 0 0 0 |0+000\n1 0 0 0 0 |+0000\n",
        ),
    ];
    for (array, want) in cases {
        let found = text_of(rt.alloc(), array)?;
        assert_eq!(rt; found.as_slice(), want.as_bytes(), "{want}");
    }
    Ok(())
}

/// The indices of the vanishing parameters of an array. There are none where it has no parameters.
fn vanishing_of(alloc: Global, text: &[u8]) -> Result<Vec<(u8, u8, u8)>, Fail> {
    let array = Array::read(text)?;
    let numbers = numbers_of(alloc, &array)?;
    let poly = characteristic(alloc, &array)?;
    let Split::Spectrum(spectrum) = split_of(alloc, &poly, array.valency())? else {
        return Ok(Vec::new(alloc));
    };
    if array.c(1) != 1 {
        return Ok(Vec::new(alloc));
    }
    if spectrum.root == 0 {
        let krein = krein_over::<Fraction>(alloc, &array, &numbers, &spectrum)??;
        return Ok(krein.vanishing(alloc)?);
    }
    let krein = krein_over::<Quadratic>(alloc, &array, &numbers, &spectrum)??;
    Ok(krein.vanishing(alloc)?)
}

/// The Petersen graph, of which none vanishes; the Clebsch graph and the complete bipartite graph, over
/// the rationals; and the icosahedron, over √5.
#[test]
fn vanishing(rt: HostRuntime) -> Result<(), Fail> {
    let cases: [(&[u8], &[(u8, u8, u8)]); 4] = [
        (b"{3,2;1,1}", &[]),
        (b"{5,4;1,2}", &[(2, 2, 2)]),
        (b"{3,2;1,3}", &[(1, 2, 2), (2, 1, 2), (2, 2, 1), (2, 2, 2)]),
        (
            b"{5,2,1;1,2,5}",
            &[
                (1, 1, 1),
                (1, 1, 3),
                (1, 2, 2),
                (1, 3, 1),
                (1, 3, 3),
                (2, 1, 2),
                (2, 2, 1),
                (2, 2, 3),
                (2, 3, 2),
                (3, 1, 1),
                (3, 1, 3),
                (3, 2, 2),
                (3, 3, 1),
                (3, 3, 3),
            ],
        ),
    ];
    for (array, want) in cases {
        let found = vanishing_of(rt.alloc(), array)?;
        assert_eq!(rt; found.as_slice(), want, "{array:?}");
    }
    Ok(())
}

/// Whether q^h_ij of the 12-cube vanishes: like its intersection number p^h_ij, where i + j + h is odd,
/// or no three words are at these distances.
fn vanishes_of_cube(i: u8, j: u8, h: u8) -> bool
    requires i { i ≤ 12 }
    requires j { j ≤ 12 }
    requires h { h ≤ 12 }
{
    let apart = h > i + j || i > j + h || j > i + h;
    (i + j + h) % 2 == 1 || apart || i + j + h > 24
}

/// The 12-cube, over the rationals.
#[test]
fn vanishing_of_the_cube_of_twelve_bits(rt: HostRuntime) -> Result<(), Fail> {
    let text = b"{12,11,10,9,8,7,6,5,4,3,2,1;1,2,3,4,5,6,7,8,9,10,11,12}";
    let mut want = Vec::new(rt.alloc());
    for i in 1..13 {
        for j in 1..13 {
            for h in 1..13 {
                if vanishes_of_cube(i, j, h) {
                    want.push((i, j, h))?;
                }
            }
        }
    }
    let found = vanishing_of(rt.alloc(), text)?;
    assert_eq!(rt; found.as_slice(), want.as_slice());
    Ok(())
}

/// The first quantity of the Krein parameters of an array that doesn't fit, if it has rational
/// eigenvalues and there is one.
fn wide_node(alloc: Global, text: &[u8]) -> Result<Option<Node>, Fail> {
    let array = Array::read(text)?;
    let numbers = numbers_of(alloc, &array)?;
    let poly = characteristic(alloc, &array)?;
    let Split::Spectrum(spectrum) = split_of(alloc, &poly, array.valency())? else {
        return Ok(None);
    };
    if array.c(1) != 1 || spectrum.root != 0 {
        return Ok(None);
    }
    match krein_over::<Fraction>(alloc, &array, &numbers, &spectrum)? {
        Err(KreinFault::Wide { node }) => Ok(Some(node)),
        _ => Ok(None),
    }
}

/// The Hamming graph of words of eight letters over 250, whose parameter q^0_88 is too wide, and the
/// Johnson graph J(88,11), all of whose parameters fit and not all of their equations.
#[test]
fn first_wide_nodes(rt: HostRuntime) -> Result<(), Fail> {
    let hamming = b"{1992,1743,1494,1245,996,747,498,249;1,2,3,4,5,6,7,8}";
    let node = Node::Krein { i: 8, j: 8, h: 0 };
    assert_eq!(rt; wide_node(rt.alloc(), hamming)?, Some(node));
    let johnson = b"{847,760,675,592,511,432,355,280,207,136,67;1,4,9,16,25,36,49,64,81,100,121}";
    let node = Node::Kprod { i: 7, j: 7, r: 5 };
    assert_eq!(rt; wide_node(rt.alloc(), johnson)?, Some(node));
    Ok(())
}
