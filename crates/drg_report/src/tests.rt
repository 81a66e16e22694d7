//! Texts by hand. The verdicts needn't be right.

ghost use Rattle.drg_array.specs.Conditions.{CountsHold};
ghost use Rattle.drg_array.specs.Entries.{b_at};
ghost use Rattle.drg_array.specs.declared.test.Test.TheVariants.{First};
ghost use Rattle.drg_eigen.specs.Characteristic.{characteristic};
ghost use Rattle.drg_eigen.specs.Spectrum.{IsSpectrum};
ghost use Rattle.drg_intersection.specs.Numbers.{AreNumbersOf};

use crate::{
    Cause, Infeasible, PassedTests, Pending, PendingTests, RefusedSpectrum, Spectra,
    SpectralTables, Survivor, Undecided, Verdict, render, verdict_words,
};
use drg_array::{Array, Claim, Class, Node, Test};
use drg_derivation::Derivation;
use drg_eigen::{OtherSpectrum, Spectrum, Split, characteristic, split_of};
use drg_fraction::{Field, Fraction};
use drg_intersection::{Numbers, numbers_of};
use drg_krein::{Krein, krein_of};
use drg_matrices::frame_of;
use drg_orderings::{Orderings, p_orderings, q_orderings};
use drg_quadratic::Quadratic;
use std::alloc::Global;
use std::process::Abort;
use std::test::Fail;

/// The tests that always run.
const FIRST_SIX: [Test; 6] = [
    Test::First,
    Test::Degree,
    Test::Order,
    Test::Cross,
    Test::Size,
    Test::Intersect,
];

/// A test that isn't decided, since this number is too wide.
fn wide(test: Test, node: Node) -> Pending {
    Pending {
        test,
        cause: Cause::Wide(node),
    }
}

/// A test that isn't decided, since no one quadratic field holds the eigenvalues.
fn refused(test: Test) -> Pending {
    Pending {
        test,
        cause: Cause::Spectrum,
    }
}

/// The frame of the array over the field, with its Krein parameters where the test isn't mult.
fn tables_over<F: Field>(
    alloc: Global,
    array: &Array,
    numbers: &Numbers,
    spectrum: &Spectrum,
    test: Test,
) -> Result<SpectralTables<F>, Fail>
    requires allowed { F.HasRoot spectrum.now.root }
    requires first { CountsHold array.now First }
    requires numbers { AreNumbersOf array.now numbers.now }
    requires spectrum { IsSpectrum (b_at array.now 0) (characteristic array.now)
        spectrum.now.root spectrum.now.thetas }
{
    array.known_valid();
    let frame = frame_of::<F>(alloc, array, numbers, spectrum)?;
    if test == Test::Mult {
        return Ok(SpectralTables { frame, krein: None });
    }
    let krein = krein_of(alloc, numbers, &frame)?;
    Ok(SpectralTables {
        frame,
        krein: Some(krein),
    })
}

/// The tables of the array that a report has where this test runs. There are none where no one
/// quadratic field holds the eigenvalues.
fn spectra_of(
    alloc: Global,
    array: &Array,
    numbers: &Numbers,
    test: Test,
) -> Result<Option<Spectra>, Fail>
    requires { AreNumbersOf array.now numbers.now }
{
    array.known_valid();
    let poly = characteristic(alloc, array)?;
    let Split::Spectrum(spectrum) = split_of(alloc, &poly, array.valency())? else {
        return Ok(None);
    };
    if array.c(1) != 1 {
        return Ok(None);
    }
    if spectrum.root == 0 {
        let tables = tables_over::<Fraction>(alloc, array, numbers, &spectrum, test)?;
        return Ok(Some(Spectra::Rational(tables)));
    }
    let tables = tables_over::<Quadratic>(alloc, array, numbers, &spectrum, test)?;
    Ok(Some(Spectra::Quadratic(tables)))
}

/// The Q-polynomial orderings, where there are Krein parameters.
fn q_over<F: Field>(alloc: Global, krein: &Option<Krein<F>>) -> Result<Option<Orderings>, Fail> {
    match krein {
        None => Ok(None),
        Some(krein) => Ok(Some(q_orderings(alloc, krein)?)),
    }
}

/// Those of these tables.
fn q_of(alloc: Global, spectra: &Option<Spectra>) -> Result<Option<Orderings>, Fail> {
    match spectra {
        None => Ok(None),
        Some(Spectra::Rational(tables)) => q_over(alloc, &tables.krein),
        Some(Spectra::Quadratic(tables)) => q_over(alloc, &tables.krein),
    }
}

/// The certificate of an array, where no one quadratic field holds its eigenvalues.
fn other_of(alloc: Global, array: &Array) -> Result<Option<OtherSpectrum>, Fail> {
    array.known_valid();
    let poly = characteristic(alloc, array)?;
    match split_of(alloc, &poly, array.valency())? {
        Split::Spectrum(_spectrum) => Ok(None),
        Split::Other(other) => Ok(Some(other)),
    }
}

/// The array passes the tests that always run and this one, with the tables and the orderings that a
/// report has then.
fn survives(alloc: Global, array: &Array, test: Test) -> Result<Verdict, Fail> {
    let numbers = numbers_of(alloc, array)?;
    let spectra = spectra_of(alloc, array, &numbers, test)?;
    let p_orderings = p_orderings(alloc, &numbers)?;
    let q_orderings = q_of(alloc, &spectra)?;
    let mut passed = FIRST_SIX.to_vec(alloc)?;
    passed.push(test)?;
    Ok(Verdict::Survivor(Survivor {
        passed: PassedTests::new(passed),
        numbers,
        spectra,
        p_orderings,
        q_orderings,
    }))
}

/// The array fails this claim, with a derivation of no lines.
fn fails(
    alloc: Global,
    array: &Array,
    claim: Claim,
    class: Class,
    pending: Vec<Pending>,
    other: Option<OtherSpectrum>,
) -> Result<Verdict, Fail> {
    let derivation = Derivation::make(array.copied(), claim, Vec::new(alloc)).ok_or("no text")?;
    Ok(Verdict::Infeasible(Infeasible {
        claim,
        class,
        derivation,
        pending: PendingTests::new(pending),
        other,
    }))
}

/// These tests hold, and this one isn't decided.
fn stops(alloc: Global, passed: &[Test], entry: Pending) -> Result<Verdict, Fail> {
    let mut pending = Vec::new(alloc);
    pending.push(entry)?;
    Ok(Verdict::Undecided(Undecided {
        passed: PassedTests::new(passed.to_vec(alloc)?),
        pending: PendingTests::new(pending),
        other: None,
    }))
}

/// Checks the words of the verdict, and the text of the report on this array with it.
fn says(
    rt: &impl Abort,
    alloc: Global,
    array: &Array,
    verdict: Verdict,
    words: &str,
    text: &str,
) -> Result<(), Fail> {
    has_words(rt, alloc, &verdict, words)?;
    has_text(rt, alloc, array, &verdict, text)
}

/// Checks the words of the verdict.
fn has_words(rt: &impl Abort, alloc: Global, verdict: &Verdict, words: &str) -> Result<(), Fail> {
    let found = verdict_words(alloc, verdict)?;
    assert_eq!(rt; found.as_slice(), words.as_bytes(), "{words}");
    Ok(())
}

/// The text of the report on this array with the verdict.
fn report_of(alloc: Global, array: &Array, verdict: Verdict) -> Result<Vec<u8>, Fail> {
    let report = render(alloc, array, &verdict)?;
    Ok(report)
}

/// Checks the text of the report on this array with the verdict.
fn has_text(
    rt: &impl Abort,
    alloc: Global,
    array: &Array,
    verdict: &Verdict,
    text: &str,
) -> Result<(), Fail> {
    let report = render(alloc, array, verdict)?;
    assert_eq!(rt; report.as_slice(), text.as_bytes(), "{text}");
    Ok(())
}

#[test]
fn a_survivor(rt: HostRuntime) -> Result<(), Fail> {
    let petersen = Array::read(b"{3,2;1,1}")?;
    let numbers = numbers_of(rt.alloc(), &petersen)?;
    let p_orderings = p_orderings(rt.alloc(), &numbers)?;
    let verdict = Verdict::Survivor(Survivor {
        passed: PassedTests::new(FIRST_SIX.to_vec(rt.alloc())?),
        numbers,
        spectra: None,
        p_orderings,
        q_orderings: None,
    });
    let text = "verdict survivor\narray {3,2;1,1}\n\
passed first degree order cross size intersect\nn 10\nsizes 1 3 6\nppoly 1 2\nppoly 2 1\n";
    says(&rt, rt.alloc(), &petersen, verdict, "survivor", text)
}

#[test]
fn infeasible_arrays(rt: HostRuntime) -> Result<(), Fail> {
    let alloc = rt.alloc();
    let array = Array::read(b"{3,3;1,1}")?;
    let degree = fails(
        alloc,
        &array,
        Claim::Degree { i: 1 },
        Class::Counting,
        Vec::new(alloc),
        None,
    )?;
    let words = "infeasible degree 1 counting";
    let text =
        "drg 1\narray 2 3 3 1 1\nclaim degree 1\nend\nverdict infeasible degree 1 counting\n";
    says(&rt, alloc, &array, degree, words, text)?;
    let ktriple = Claim::Ktriple { u: 1, v: 2, w: 2 };
    let mut pending = Vec::new(alloc);
    pending.push(wide(Test::Mult, Node::Linear { r: -3 }))?;
    pending.push(wide(Test::Ktriple, Node::N))?;
    let spectral = fails(alloc, &array, ktriple, Class::Spectral, pending, None)?;
    let words = "infeasible ktriple 1 2 2 spectral";
    let text = "drg 1\narray 2 3 3 1 1\nclaim ktriple 1 2 2\nend\n\
verdict infeasible ktriple 1 2 2 spectral\n\
pending mult wide linear -3\npending ktriple wide n\n";
    says(&rt, alloc, &array, spectral, words, text)
}

#[test]
fn undecided_arrays(rt: HostRuntime) -> Result<(), Fail> {
    let alloc = rt.alloc();
    let array = Array::read(b"{3,2;1,1}")?;
    let size = stops(alloc, &FIRST_SIX[..4], wide(Test::Size, Node::K { i: 11 }))?;
    let text = "verdict undecided\narray {3,2;1,1}\npassed first degree order cross\n\
pending size wide k 11\n";
    says(&rt, alloc, &array, size, "undecided", text)?;
    let node = Node::P { h: 0, i: 15, j: 14 };
    let intersect = stops(alloc, &FIRST_SIX[..5], wide(Test::Intersect, node))?;
    let text = "verdict undecided\narray {3,2;1,1}\npassed first degree order cross size\n\
pending intersect wide p 0 15 14\n";
    says(&rt, alloc, &array, intersect, "undecided", text)?;
    let node = Node::Kprod { i: 1, j: 2, r: 0 };
    let krein = stops(alloc, &FIRST_SIX, wide(Test::Krein, node))?;
    let text = "verdict undecided\narray {3,2;1,1}\n\
passed first degree order cross size intersect\npending krein wide kprod 1 2 0\n";
    says(&rt, alloc, &array, krein, "undecided", text)
}

/// The Petersen graph and the Sylvester graph over the rationals, the pentagon over √5, the octagon over
/// √2, and the array {4,3;1,1} over √13, whose multiplicities aren't whole. The Sylvester graph has no
/// Q-polynomial ordering.
#[test]
fn tables_of_survivors(rt: HostRuntime) -> Result<(), Fail> {
    let cases: [(&[u8], Test, &str); 6] = [
        (
            b"{3,2;1,1}",
            Test::Mult,
            "verdict survivor\narray {3,2;1,1}\n\
passed first degree order cross size intersect mult\n\
n 10\nsizes 1 3 6\n\
root 0\ntheta 3 1 -2\n\
P 1 3 6\nP 1 1 -2\nP 1 -2 1\n\
Q 1 5 4\nQ 1 5/3 -8/3\nQ 1 -5/3 2/3\n\
ppoly 1 2\nppoly 2 1\n",
        ),
        (
            b"{3;1}",
            Test::Krein,
            "verdict survivor\narray {3;1}\n\
passed first degree order cross size intersect krein\n\
n 4\nsizes 1 3\n\
root 0\ntheta 3 -1\n\
P 1 3\nP 1 -1\n\
Q 1 3\nQ 1 -1\n\
krein 1 1 3 2\n\
ppoly 1\nqpoly 1\n",
        ),
        (
            b"{2,1;1,1}",
            Test::Krein,
            "verdict survivor\narray {2,1;1,1}\n\
passed first degree order cross size intersect krein\n\
n 5\nsizes 1 2 2\n\
root 5\ntheta 2 -1/2+1/2r5 -1/2-1/2r5\n\
P 1 2 2\nP 1 -1/2+1/2r5 -1/2-1/2r5\nP 1 -1/2-1/2r5 -1/2+1/2r5\n\
Q 1 2 2\nQ 1 -1/2+1/2r5 -1/2-1/2r5\nQ 1 -1/2-1/2r5 -1/2+1/2r5\n\
krein 1 1 2 0 1\nkrein 1 2 0 1 1\nkrein 2 2 2 1 0\n\
ppoly 1 2\nppoly 2 1\nqpoly 1 2\nqpoly 2 1\n",
        ),
        (
            b"{2,1,1,1;1,1,1,2}",
            Test::Absolute,
            "verdict survivor\narray {2,1,1,1;1,1,1,2}\n\
passed first degree order cross size intersect absolute\n\
n 8\nsizes 1 2 2 2 1\n\
root 2\ntheta 2 1r2 0 -1r2 -2\n\
P 1 2 2 2 1\nP 1 1r2 0 -1r2 -1\nP 1 0 -2 0 1\nP 1 -1r2 0 1r2 -1\nP 1 -2 2 -2 1\n\
Q 1 2 2 2 1\nQ 1 1r2 0 -1r2 -1\nQ 1 0 -2 0 1\nQ 1 -1r2 0 1r2 -1\nQ 1 -2 2 -2 1\n\
krein 1 1 2 0 1 0 0\nkrein 1 2 0 1 0 1 0\nkrein 1 3 0 0 1 0 2\nkrein 1 4 0 0 0 1 0\n\
krein 2 2 2 0 0 0 2\nkrein 2 3 0 1 0 1 0\nkrein 2 4 0 0 1 0 0\nkrein 3 3 2 0 1 0 0\n\
krein 3 4 0 1 0 0 0\nkrein 4 4 1 0 0 0 0\n\
ppoly 1 2 3 4\nppoly 3 2 1 4\nqpoly 1 2 3 4\nqpoly 3 2 1 4\n",
        ),
        (
            b"{5,4,2;1,1,4}",
            Test::Krein,
            "verdict survivor\narray {5,4,2;1,1,4}\n\
passed first degree order cross size intersect krein\n\
n 36\nsizes 1 5 20 10\n\
root 0\ntheta 5 2 -1 -3\n\
P 1 5 20 10\nP 1 2 -1 -2\nP 1 -1 -4 4\nP 1 -3 4 -2\n\
Q 1 16 10 9\nQ 1 32/5 -2 -27/5\nQ 1 -4/5 -2 9/5\nQ 1 -16/5 4 -9/5\n\
krein 1 1 16 44/5 176/25 16/5\nkrein 1 2 0 22/5 16/5 32/5\nkrein 1 3 0 9/5 144/25 32/5\n\
krein 2 2 10 2 4 2\nkrein 2 3 0 18/5 9/5 8/5\nkrein 3 3 9 18/5 36/25 0\n\
ppoly 1 2 3\n",
        ),
        (
            b"{4,3;1,1}",
            Test::Ktriple,
            "verdict survivor\narray {4,3;1,1}\n\
passed first degree order cross size intersect ktriple\n\
n 17\nsizes 1 4 12\n\
root 13\ntheta 4 -1/2+1/2r13 -1/2-1/2r13\n\
P 1 4 12\nP 1 -1/2+1/2r13 -1/2-1/2r13\nP 1 -1/2-1/2r13 -1/2+1/2r13\n\
Q 1 8+4/13r13 8-4/13r13\nQ 1 -1/2+25/26r13 -1/2-25/26r13\nQ 1 -1/2-9/26r13 -1/2+9/26r13\n\
krein 1 1 8+4/13r13 38/13+8/13r13 51/13\nkrein 1 2 0 53/13-4/13r13 53/13+4/13r13\n\
krein 2 2 8-4/13r13 51/13 38/13-8/13r13\n\
ppoly 1 2\nppoly 2 1\nqpoly 1 2\nqpoly 2 1\n",
        ),
    ];
    for (array, test, text) in cases {
        let array = Array::read(array)?;
        let verdict = survives(rt.alloc(), &array, test)?;
        says(&rt, rt.alloc(), &array, verdict, "survivor", text)?;
    }
    Ok(())
}

/// The cube of dimension 12, whose matrices have the values of Krawtchouk polynomials.
#[test]
fn tables_of_diameter_twelve(rt: HostRuntime) -> Result<(), Fail> {
    let cube = Array::read(b"{12,11,10,9,8,7,6,5,4,3,2,1;1,2,3,4,5,6,7,8,9,10,11,12}")?;
    let verdict = survives(rt.alloc(), &cube, Test::Mult)?;
    let report = report_of(rt.alloc(), &cube, verdict)?;
    let last = "\nQ 1 -12 66 -220 495 -792 924 -792 495 -220 66 -12 1\n\
ppoly 1 2 3 4 5 6 7 8 9 10 11 12\nppoly 11 2 9 4 7 6 5 8 3 10 1 12\n";
    assert_eq!(rt; report.len(), 1395);
    assert!(rt; report.ends_with(last.as_bytes()));
    Ok(())
}

/// Its Krein parameters, which are its intersection numbers, and its Q-polynomial orderings.
#[test]
fn parameters_of_diameter_twelve(rt: HostRuntime) -> Result<(), Fail> {
    let cube = Array::read(b"{12,11,10,9,8,7,6,5,4,3,2,1;1,2,3,4,5,6,7,8,9,10,11,12}")?;
    let verdict = survives(rt.alloc(), &cube, Test::Krein)?;
    let report = report_of(rt.alloc(), &cube, verdict)?;
    let last = "\nkrein 12 12 1 0 0 0 0 0 0 0 0 0 0 0 0\n\
ppoly 1 2 3 4 5 6 7 8 9 10 11 12\nppoly 11 2 9 4 7 6 5 8 3 10 1 12\n\
qpoly 1 2 3 4 5 6 7 8 9 10 11 12\nqpoly 11 2 9 4 7 6 5 8 3 10 1 12\n";
    assert_eq!(rt; report.len(), 4604);
    assert!(rt; report.ends_with(last.as_bytes()));
    Ok(())
}

/// The heptagon, of whose eigenvalues only one is rational, and the Tutte 12-cage, which needs √2 and
/// √6.
#[test]
fn refused_spectra(rt: HostRuntime) -> Result<(), Fail> {
    let cases: [(&[u8], &str); 2] = [
        (
            b"{2,1,1;1,1,1}",
            "verdict refused-spectrum\narray {2,1,1;1,1,1}\n\
passed first degree order cross size intersect\n\
pending mult spectrum\npending krein spectrum\n\
factor -2 1\nrest -1 -2 1 1\n",
        ),
        (
            b"{3,2,2,2,2,2;1,1,1,1,1,3}",
            "verdict refused-spectrum\narray {3,2,2,2,2,2;1,1,1,1,1,3}\n\
passed first degree order cross size intersect\n\
pending mult spectrum\npending krein spectrum\n\
factor -3 1\nfactor 0 1\nfactor 3 1\nfactor -2 0 1\nfactor -6 0 1\n\
first -2 0 1\nsecond -6 0 1\n",
        ),
    ];
    for (array, text) in cases {
        let array = Array::read(array)?;
        let mut pending = Vec::new(rt.alloc());
        pending.push(refused(Test::Mult))?;
        pending.push(refused(Test::Krein))?;
        let verdict = Verdict::RefusedSpectrum(RefusedSpectrum {
            passed: PassedTests::new(FIRST_SIX.to_vec(rt.alloc())?),
            pending: PendingTests::new(pending),
            other: other_of(rt.alloc(), &array)?.ok_or("one field")?,
        });
        says(&rt, rt.alloc(), &array, verdict, "refused-spectrum", text)?;
    }
    Ok(())
}

/// An infeasible array and an undecided one with the certificate of the heptagon.
#[test]
fn certificates(rt: HostRuntime) -> Result<(), Fail> {
    let alloc = rt.alloc();
    let array = Array::read(b"{2,1,1;1,1,1}")?;
    let mut pending = Vec::new(alloc);
    pending.push(refused(Test::Mult))?;
    let claim = Claim::Triple { u: 1, v: 1, w: 2 };
    let other = other_of(alloc, &array)?;
    let infeasible = fails(alloc, &array, claim, Class::Counting, pending, other)?;
    let words = "infeasible triple 1 1 2 counting";
    let text = "drg 1\narray 3 2 1 1 1 1 1\nclaim triple 1 1 2\nend\n\
verdict infeasible triple 1 1 2 counting\npending mult spectrum\n\
factor -2 1\nrest -1 -2 1 1\n";
    says(&rt, alloc, &array, infeasible, words, text)?;
    let mut pending = Vec::new(alloc);
    pending.push(refused(Test::Absolute))?;
    pending.push(wide(Test::Triple, Node::Rec { i: 1, j: 2 }))?;
    let undecided = Verdict::Undecided(Undecided {
        passed: PassedTests::new(FIRST_SIX.to_vec(alloc)?),
        pending: PendingTests::new(pending),
        other: other_of(alloc, &array)?,
    });
    let text = "verdict undecided\narray {2,1,1;1,1,1}\n\
passed first degree order cross size intersect\n\
pending absolute spectrum\npending triple wide rec 1 2\n\
factor -2 1\nrest -1 -2 1 1\n";
    says(&rt, alloc, &array, undecided, "undecided", text)
}
