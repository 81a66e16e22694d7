//! Orderings of graphs by hand: where one begins with r_1, the graph in which vertices at distance r_1
//! are adjacent is distance-regular with the distances in that order. Q-polynomial orderings name the
//! eigenvalues, which descend.

ghost use Rattle.drg_array.specs.Conditions.{CountsHold};
ghost use Rattle.drg_array.specs.Entries.{b_at};
ghost use Rattle.drg_array.specs.declared.test.Test.TheVariants as test;
ghost use Rattle.drg_eigen.specs.Characteristic.{characteristic};
ghost use Rattle.drg_eigen.specs.Spectrum.{IsSpectrum};
ghost use Rattle.drg_intersection.specs.Numbers.{AreNumbersOf};

use crate::{Orderings, p_orderings, q_orderings};
use drg_array::Array;
use drg_eigen::{Spectrum, Split, characteristic, split_of};
use drg_fraction::{Field, Fraction};
use drg_intersection::{Numbers, numbers_of};
use drg_krein::krein_of;
use drg_matrices::frame_of;
use drg_quadratic::Quadratic;
use std::alloc::Global;
use std::process::Abort;
use std::test::Fail;

/// The orderings are these, one after the other, each with its r_0 = 0.
fn expect(rt: &impl Abort, alloc: Global, text: &[u8], expected: &[u8]) -> Result<(), Fail> {
    let numbers = numbers_of(alloc, &Array::read(text)?)?;
    let mut found = Vec::new(alloc);
    for ordering in p_orderings(alloc, &numbers)?.as_slice() {
        found.push(0)?;
        found.extend_from_slice(ordering.as_slice())?;
    }
    assert_eq!(rt; found.as_slice(), expected);
    Ok(())
}

/// Complete graphs, and those of diameter 2: the complement of the Petersen graph, the Clebsch graph and
/// the pentagon is connected, and that of a complete bipartite graph isn't.
#[test]
fn small_diameters(rt: HostRuntime) -> Result<(), Fail> {
    expect(&rt, rt.alloc(), b"{3;1}", &[0, 1])?;
    expect(&rt, rt.alloc(), b"{3,2;1,3}", &[0, 1, 2])?;
    expect(&rt, rt.alloc(), b"{3,2;1,1}", &[0, 1, 2, 0, 2, 1])?;
    expect(&rt, rt.alloc(), b"{5,4;1,2}", &[0, 1, 2, 0, 2, 1])?;
    expect(&rt, rt.alloc(), b"{2,1;1,1}", &[0, 1, 2, 0, 2, 1])
}

/// Polygons: one ordering for each step up to half the vertices that goes round all of them.
#[test]
fn polygons(rt: HostRuntime) -> Result<(), Fail> {
    expect(&rt, rt.alloc(), b"{2,1,1;1,1,2}", &[0, 1, 2, 3])?;
    let heptagon = [0, 1, 2, 3, 0, 2, 3, 1, 0, 3, 1, 2];
    expect(&rt, rt.alloc(), b"{2,1,1;1,1,1}", &heptagon)?;
    let octagon = [0, 1, 2, 3, 4, 0, 3, 2, 1, 4];
    expect(&rt, rt.alloc(), b"{2,1,1,1;1,1,1,2}", &octagon)?;
    let nonagon = [0, 1, 2, 3, 4, 0, 2, 4, 3, 1, 0, 4, 1, 3, 2];
    expect(&rt, rt.alloc(), b"{2,1,1,1;1,1,1,1}", &nonagon)
}

/// Diameter 3: the cube and the Hamming graph of words of three letters over three have the natural order
/// alone. The Heawood graph has it for points off lines too, the odd graph on seven points for the Johnson
/// graph J(7,3) and back, the folded 7-cube for the halved 7-cube, and the icosahedron for the vertices
/// near an opposite one.
#[test]
fn diameter_three(rt: HostRuntime) -> Result<(), Fail> {
    expect(&rt, rt.alloc(), b"{3,2,1;1,2,3}", &[0, 1, 2, 3])?;
    expect(&rt, rt.alloc(), b"{6,4,2;1,2,3}", &[0, 1, 2, 3])?;
    expect(&rt, rt.alloc(), b"{3,2,2;1,1,3}", &[0, 1, 2, 3, 0, 3, 2, 1])?;
    expect(&rt, rt.alloc(), b"{4,3,3;1,1,2}", &[0, 1, 2, 3, 0, 2, 3, 1])?;
    expect(
        &rt,
        rt.alloc(),
        b"{12,6,2;1,4,9}",
        &[0, 1, 2, 3, 0, 3, 1, 2],
    )?;
    expect(&rt, rt.alloc(), b"{7,6,5;1,2,3}", &[0, 1, 2, 3, 0, 2, 3, 1])?;
    expect(&rt, rt.alloc(), b"{5,2,1;1,2,5}", &[0, 1, 2, 3, 0, 2, 1, 3])
}

/// Antipodal graphs of greater diameter: the 4-cube and the dodecahedron, where vertices near an
/// opposite one make such a graph again, and the Desargues graph, where they make two
/// graphs.
#[test]
fn antipodal_graphs(rt: HostRuntime) -> Result<(), Fail> {
    let cube = [0, 1, 2, 3, 4, 0, 3, 2, 1, 4];
    expect(&rt, rt.alloc(), b"{4,3,2,1;1,2,3,4}", &cube)?;
    let dodecahedron = [0, 1, 2, 3, 4, 5, 0, 4, 2, 3, 1, 5];
    expect(&rt, rt.alloc(), b"{3,2,1,1,1;1,1,1,2,3}", &dodecahedron)?;
    let desargues = [0, 1, 2, 3, 4, 5];
    expect(&rt, rt.alloc(), b"{3,2,2,1,1;1,1,2,2,3}", &desargues)
}

/// The 12-cube: steps to the words near the opposite one alternate with steps back.
#[test]
fn cube_of_twelve_bits(rt: HostRuntime) -> Result<(), Fail> {
    let text = b"{12,11,10,9,8,7,6,5,4,3,2,1;1,2,3,4,5,6,7,8,9,10,11,12}";
    let orderings = [
        0, 1, 2, 3, 4, 5, 6, 7, 8, 9, 10, 11, 12, //
        0, 11, 2, 9, 4, 7, 6, 5, 8, 3, 10, 1, 12,
    ];
    expect(&rt, rt.alloc(), text, &orderings)
}

/// The polygon with 25 vertices: a step of 5 or 10 goes round some of them.
#[test]
fn polygon_of_diameter_twelve(rt: HostRuntime) -> Result<(), Fail> {
    let text = b"{2,1,1,1,1,1,1,1,1,1,1,1;1,1,1,1,1,1,1,1,1,1,1,1}";
    let orderings = [
        0, 1, 2, 3, 4, 5, 6, 7, 8, 9, 10, 11, 12, //
        0, 2, 4, 6, 8, 10, 12, 11, 9, 7, 5, 3, 1, //
        0, 3, 6, 9, 12, 10, 7, 4, 1, 2, 5, 8, 11, //
        0, 4, 8, 12, 9, 5, 1, 3, 7, 11, 10, 6, 2, //
        0, 6, 12, 7, 1, 5, 11, 8, 2, 4, 10, 9, 3, //
        0, 7, 11, 4, 3, 10, 8, 1, 6, 12, 5, 2, 9, //
        0, 8, 9, 1, 7, 10, 2, 6, 11, 3, 5, 12, 4, //
        0, 9, 7, 2, 11, 5, 4, 12, 3, 6, 10, 1, 8, //
        0, 11, 3, 8, 6, 5, 9, 2, 12, 1, 10, 4, 7, //
        0, 12, 1, 11, 2, 10, 3, 9, 4, 8, 5, 7, 6,
    ];
    expect(&rt, rt.alloc(), text, &orderings)
}

/// The Q-polynomial orderings of an array with a spectrum over the field.
fn q_over<F: Field>(
    alloc: Global,
    array: &Array,
    numbers: &Numbers,
    spectrum: &Spectrum,
) -> Result<Orderings, Fail>
    requires allowed { F.HasRoot spectrum.now.root }
    requires first { CountsHold array.now test.First }
    requires numbers { AreNumbersOf array.now numbers.now }
    requires spectrum { IsSpectrum (b_at array.now 0) (characteristic array.now)
        spectrum.now.root spectrum.now.thetas }
{
    array.known_valid();
    let frame = frame_of::<F>(alloc, array, numbers, spectrum)?;
    let krein = krein_of(alloc, numbers, &frame)?;
    Ok(q_orderings(alloc, &krein)?)
}

/// Those of an array, if it has a spectrum over one field.
fn q_of(alloc: Global, text: &[u8]) -> Result<Option<Orderings>, Fail> {
    let array = Array::read(text)?;
    let numbers = numbers_of(alloc, &array)?;
    let poly = characteristic(alloc, &array)?;
    let Split::Spectrum(spectrum) = split_of(alloc, &poly, array.valency())? else {
        return Ok(None);
    };
    if array.c(1) != 1 {
        return Ok(None);
    }
    if spectrum.root == 0 {
        return Ok(Some(q_over::<Fraction>(alloc, &array, &numbers, &spectrum)?));
    }
    Ok(Some(q_over::<Quadratic>(alloc, &array, &numbers, &spectrum)?))
}

/// The Q-polynomial orderings are these, one after the other, each with its r_0 = 0.
fn expect_q(rt: &impl Abort, alloc: Global, text: &[u8], expected: &[u8]) -> Result<(), Fail> {
    let Some(orderings) = q_of(alloc, text)? else {
        panic!(rt; "no spectrum");
    };
    let mut found = Vec::new(alloc);
    for ordering in orderings.as_slice() {
        found.push(0)?;
        found.extend_from_slice(ordering.as_slice())?;
    }
    assert_eq!(rt; found.as_slice(), expected);
    Ok(())
}

/// Complete graphs and diameter 2: the Petersen and the Clebsch graph, and the Paley graph with 13
/// vertices, over √13, have both orderings; a complete bipartite and a complete multipartite graph have
/// the natural one alone.
#[test]
fn small_diameters_by_eigenvalues(rt: HostRuntime) -> Result<(), Fail> {
    expect_q(&rt, rt.alloc(), b"{3;1}", &[0, 1])?;
    expect_q(&rt, rt.alloc(), b"{3,2;1,1}", &[0, 1, 2, 0, 2, 1])?;
    expect_q(&rt, rt.alloc(), b"{5,4;1,2}", &[0, 1, 2, 0, 2, 1])?;
    expect_q(&rt, rt.alloc(), b"{6,3;1,3}", &[0, 1, 2, 0, 2, 1])?;
    expect_q(&rt, rt.alloc(), b"{3,2;1,3}", &[0, 1, 2])?;
    expect_q(&rt, rt.alloc(), b"{4,1;1,4}", &[0, 1, 2])
}

/// Polygons, over √5, the rationals, √2, √5 and √3: as many as by distances.
#[test]
fn polygons_by_eigenvalues(rt: HostRuntime) -> Result<(), Fail> {
    expect_q(&rt, rt.alloc(), b"{2,1;1,1}", &[0, 1, 2, 0, 2, 1])?;
    expect_q(&rt, rt.alloc(), b"{2,1,1;1,1,2}", &[0, 1, 2, 3])?;
    let octagon = [0, 1, 2, 3, 4, 0, 3, 2, 1, 4];
    expect_q(&rt, rt.alloc(), b"{2,1,1,1;1,1,1,2}", &octagon)?;
    let decagon = [0, 1, 2, 3, 4, 5, 0, 3, 4, 1, 2, 5];
    expect_q(&rt, rt.alloc(), b"{2,1,1,1,1;1,1,1,1,2}", &decagon)?;
    let dodecagon = [0, 1, 2, 3, 4, 5, 6, 0, 5, 2, 3, 4, 1, 6];
    expect_q(&rt, rt.alloc(), b"{2,1,1,1,1,1;1,1,1,1,1,2}", &dodecagon)
}

/// Diameter 3: the cube, the Hamming graph of words of three letters over three, and the Johnson graph
/// J(7,3) have the natural order; the odd graph on seven points has the eigenspaces of J(7,3) in its own
/// order; the Heawood graph, over √2, the icosahedron, over √5, the Gosset graph and the folded 7-cube
/// have two orderings; and the Sylvester graph has none.
#[test]
fn diameter_three_by_eigenvalues(rt: HostRuntime) -> Result<(), Fail> {
    expect_q(&rt, rt.alloc(), b"{3,2,1;1,2,3}", &[0, 1, 2, 3])?;
    expect_q(&rt, rt.alloc(), b"{6,4,2;1,2,3}", &[0, 1, 2, 3])?;
    expect_q(&rt, rt.alloc(), b"{12,6,2;1,4,9}", &[0, 1, 2, 3])?;
    expect_q(&rt, rt.alloc(), b"{4,3,3;1,1,2}", &[0, 3, 1, 2])?;
    let heawood = [0, 1, 2, 3, 0, 2, 1, 3];
    expect_q(&rt, rt.alloc(), b"{3,2,2;1,1,3}", &heawood)?;
    let taylor = [0, 1, 2, 3, 0, 3, 2, 1];
    expect_q(&rt, rt.alloc(), b"{5,2,1;1,2,5}", &taylor)?;
    expect_q(&rt, rt.alloc(), b"{27,10,1;1,10,27}", &taylor)?;
    let folded = [0, 1, 2, 3, 0, 3, 1, 2];
    expect_q(&rt, rt.alloc(), b"{7,6,5;1,2,3}", &folded)?;
    expect_q(&rt, rt.alloc(), b"{5,4,2;1,1,4}", &[])
}

/// Greater diameters: the dodecahedron, over √5, the Coxeter graph, over √2, and the Desargues graph have
/// no ordering; the 12-cube has two.
#[test]
fn greater_diameters_by_eigenvalues(rt: HostRuntime) -> Result<(), Fail> {
    expect_q(&rt, rt.alloc(), b"{3,2,1,1,1;1,1,1,2,3}", &[])?;
    expect_q(&rt, rt.alloc(), b"{3,2,2,1;1,1,1,2}", &[])?;
    expect_q(&rt, rt.alloc(), b"{3,2,2,1,1;1,1,2,2,3}", &[])?;
    let text = b"{12,11,10,9,8,7,6,5,4,3,2,1;1,2,3,4,5,6,7,8,9,10,11,12}";
    let cube = [
        0, 1, 2, 3, 4, 5, 6, 7, 8, 9, 10, 11, 12, //
        0, 11, 2, 9, 4, 7, 6, 5, 8, 3, 10, 1, 12,
    ];
    expect_q(&rt, rt.alloc(), text, &cube)
}
