//! Reports by hand. The verdicts needn't be right.

ghost use Rattle.drg_array.specs.Conditions.{CountsHold};
ghost use Rattle.drg_array.specs.Entries.{b_at};
ghost use Rattle.drg_array.specs.declared.test.Test.TheVariants.{First};
ghost use Rattle.drg_eigen.specs.Characteristic.{characteristic};
ghost use Rattle.drg_eigen.specs.Spectrum.{IsSpectrum};
ghost use Rattle.drg_intersection.specs.Numbers.{AreNumbersOf};

use crate::render_json;
use drg_array::{Array, Claim, Class, Node, Test};
use drg_derivation::Derivation;
use drg_eigen::{OtherSpectrum, Spectrum, Split, characteristic, split_of};
use drg_fraction::{Field, Fraction};
use drg_intersection::{Numbers, numbers_of};
use drg_krein::{Krein, krein_of};
use drg_matrices::frame_of;
use drg_orderings::{Orderings, p_orderings, q_orderings};
use drg_quadratic::Quadratic;
use drg_report::{
    Cause, Infeasible, PassedTests, Pending, PendingTests, RefusedSpectrum, Spectra,
    SpectralTables, Survivor, Undecided, Verdict,
};
use serde_json::Value;
use std::alloc::Global;
use std::process::Abort;
use std::test::Fail;

/// The tests that always run.
const FIRST_SIX: [Test; 6] = [
    Test::First,
    Test::Degree,
    Test::Order,
    Test::Cross,
    Test::Size,
    Test::Intersect,
];

/// A test that isn't decided, since this number is too wide.
fn wide(test: Test, node: Node) -> Pending {
    Pending {
        test,
        cause: Cause::Wide(node),
    }
}

/// A test that isn't decided, since no one quadratic field holds the eigenvalues.
fn refused(test: Test) -> Pending {
    Pending {
        test,
        cause: Cause::Spectrum,
    }
}

/// The frame of the array over the field, with its Krein parameters where the test isn't mult.
fn tables_over<F: Field>(
    alloc: Global,
    array: &Array,
    numbers: &Numbers,
    spectrum: &Spectrum,
    test: Test,
) -> Result<SpectralTables<F>, Fail>
    requires allowed { F.HasRoot spectrum.now.root }
    requires first { CountsHold array.now First }
    requires numbers { AreNumbersOf array.now numbers.now }
    requires spectrum { IsSpectrum (b_at array.now 0) (characteristic array.now)
        spectrum.now.root spectrum.now.thetas }
{
    array.known_valid();
    let frame = frame_of::<F>(alloc, array, numbers, spectrum)?;
    if test == Test::Mult {
        return Ok(SpectralTables { frame, krein: None });
    }
    let krein = krein_of(alloc, numbers, &frame)?;
    Ok(SpectralTables {
        frame,
        krein: Some(krein),
    })
}

/// The tables of the array that a report has where this test runs. There are none where no one
/// quadratic field holds the eigenvalues.
fn spectra_of(
    alloc: Global,
    array: &Array,
    numbers: &Numbers,
    test: Test,
) -> Result<Option<Spectra>, Fail>
    requires { AreNumbersOf array.now numbers.now }
{
    array.known_valid();
    let poly = characteristic(alloc, array)?;
    let Split::Spectrum(spectrum) = split_of(alloc, &poly, array.valency())? else {
        return Ok(None);
    };
    if array.c(1) != 1 {
        return Ok(None);
    }
    if spectrum.root == 0 {
        let tables = tables_over::<Fraction>(alloc, array, numbers, &spectrum, test)?;
        return Ok(Some(Spectra::Rational(tables)));
    }
    let tables = tables_over::<Quadratic>(alloc, array, numbers, &spectrum, test)?;
    Ok(Some(Spectra::Quadratic(tables)))
}

/// The Q-polynomial orderings, where there are Krein parameters.
fn q_over<F: Field>(alloc: Global, krein: &Option<Krein<F>>) -> Result<Option<Orderings>, Fail> {
    match krein {
        None => Ok(None),
        Some(krein) => Ok(Some(q_orderings(alloc, krein)?)),
    }
}

/// Those of these tables.
fn q_of(alloc: Global, spectra: &Option<Spectra>) -> Result<Option<Orderings>, Fail> {
    match spectra {
        None => Ok(None),
        Some(Spectra::Rational(tables)) => q_over(alloc, &tables.krein),
        Some(Spectra::Quadratic(tables)) => q_over(alloc, &tables.krein),
    }
}

/// The certificate of an array, where no one quadratic field holds its eigenvalues.
fn other_of(alloc: Global, array: &Array) -> Result<Option<OtherSpectrum>, Fail> {
    array.known_valid();
    let poly = characteristic(alloc, array)?;
    match split_of(alloc, &poly, array.valency())? {
        Split::Spectrum(_spectrum) => Ok(None),
        Split::Other(other) => Ok(Some(other)),
    }
}

/// The array passes the tests that always run and this one, with the tables and the orderings that a
/// report has then.
fn survives(alloc: Global, array: &Array, test: Test) -> Result<Verdict, Fail> {
    let numbers = numbers_of(alloc, array)?;
    let spectra = spectra_of(alloc, array, &numbers, test)?;
    let p_orderings = p_orderings(alloc, &numbers)?;
    let q_orderings = q_of(alloc, &spectra)?;
    let mut passed = FIRST_SIX.to_vec(alloc)?;
    passed.push(test)?;
    Ok(Verdict::Survivor(Survivor {
        passed: PassedTests::new(passed),
        numbers,
        spectra,
        p_orderings,
        q_orderings,
    }))
}

/// The array fails this claim, with a derivation of no lines.
fn fails(
    alloc: Global,
    array: &Array,
    claim: Claim,
    class: Class,
    pending: Vec<Pending>,
    other: Option<OtherSpectrum>,
) -> Result<Verdict, Fail> {
    let derivation = Derivation::make(array.copied(), claim, Vec::new(alloc)).ok_or("no text")?;
    Ok(Verdict::Infeasible(Infeasible {
        claim,
        class,
        derivation,
        pending: PendingTests::new(pending),
        other,
    }))
}

/// These tests hold, and this one isn't decided.
fn stops(alloc: Global, passed: &[Test], entry: Pending) -> Result<Verdict, Fail> {
    let mut pending = Vec::new(alloc);
    pending.push(entry)?;
    Ok(Verdict::Undecided(Undecided {
        passed: PassedTests::new(passed.to_vec(alloc)?),
        pending: PendingTests::new(pending),
        other: None,
    }))
}

/// The report on this array with the verdict.
fn report_of(alloc: Global, array: &Array, verdict: Verdict) -> Result<Vec<u8>, Fail> {
    let report = render_json(alloc, array, &verdict)?;
    Ok(report)
}

/// Checks the report on this array with the verdict: this text, one line feed, and keys that ascend
/// in each object, as they do in what is written of a value that was read.
fn says(
    rt: &impl Abort,
    alloc: Global,
    array: &Array,
    verdict: Verdict,
    text: &str,
) -> Result<(), Fail> {
    let report = report_of(alloc, array, verdict)?;
    let Some((last, line)) = report.split_last() else {
        return Err("nothing".into());
    };
    assert_eq!(rt; line, text.as_bytes(), "{text}");
    assert_eq!(rt; *last, b'\n');
    is_in_order(rt, alloc, text)
}

/// Checks that the keys of each object ascend.
fn is_in_order(rt: &impl Abort, alloc: Global, text: &str) -> Result<(), Fail> {
    let written = Value::from_str(alloc, text)?.to_vec(alloc)?;
    assert_eq!(rt; written.as_slice(), text.as_bytes(), "{text}");
    Ok(())
}

#[test]
fn infeasible_arrays(rt: HostRuntime) -> Result<(), Fail> {
    let alloc = rt.alloc();
    let array = Array::read(b"{3,3;1,1}")?;
    let degree = fails(
        alloc,
        &array,
        Claim::Degree { i: 1 },
        Class::Counting,
        Vec::new(alloc),
        None,
    )?;
    let text =
        r#"{"array":{"b":[3,3],"c":[1,1]},"claim":"degree 1","class":"counting","derivation":["drg 1","array 2 3 3 1 1","claim degree 1","end"],"pending":[],"verdict":"infeasible"}"#;
    says(&rt, alloc, &array, degree, text)?;
    let ktriple = Claim::Ktriple { u: 1, v: 2, w: 2 };
    let mut pending = Vec::new(alloc);
    pending.push(wide(Test::Mult, Node::Linear { r: -3 }))?;
    pending.push(wide(Test::Ktriple, Node::N))?;
    let spectral = fails(alloc, &array, ktriple, Class::Spectral, pending, None)?;
    let text =
        r#"{"array":{"b":[3,3],"c":[1,1]},"claim":"ktriple 1 2 2","class":"spectral","derivation":["drg 1","array 2 3 3 1 1","claim ktriple 1 2 2","end"],"pending":["mult wide linear -3","ktriple wide n"],"verdict":"infeasible"}"#;
    says(&rt, alloc, &array, spectral, text)
}

#[test]
fn undecided_arrays(rt: HostRuntime) -> Result<(), Fail> {
    let alloc = rt.alloc();
    let array = Array::read(b"{3,2;1,1}")?;
    let size = stops(alloc, &FIRST_SIX[..4], wide(Test::Size, Node::K { i: 11 }))?;
    let text =
        r#"{"array":{"b":[3,2],"c":[1,1]},"passed":["first","degree","order","cross"],"pending":["size wide k 11"],"verdict":"undecided"}"#;
    says(&rt, alloc, &array, size, text)?;
    let node = Node::P { h: 0, i: 15, j: 14 };
    let intersect = stops(alloc, &FIRST_SIX[..5], wide(Test::Intersect, node))?;
    let text =
        r#"{"array":{"b":[3,2],"c":[1,1]},"passed":["first","degree","order","cross","size"],"pending":["intersect wide p 0 15 14"],"verdict":"undecided"}"#;
    says(&rt, alloc, &array, intersect, text)
}

/// The Petersen graph with P and Q alone and with Krein parameters, the complete graph on four vertices,
/// the pentagon over √5, and the Sylvester graph, which has no Q-polynomial ordering.
#[test]
fn survivors(rt: HostRuntime) -> Result<(), Fail> {
    let cases: [(&[u8], Test, &str); 5] = [
        (
            b"{3,2;1,1}",
            Test::Mult,
            r#"{"array":{"b":[3,2],"c":[1,1]},"dual":[["1","5","4"],["1","5/3","-8/3"],["1","-5/3","2/3"]],"eigen":[["1","3","6"],["1","1","-2"],["1","-2","1"]],"n":"10","passed":["first","degree","order","cross","size","intersect","mult"],"ppoly":[[1,2],[2,1]],"root":"0","sizes":["1","3","6"],"theta":["3","1","-2"],"verdict":"survivor"}"#,
        ),
        (
            b"{3,2;1,1}",
            Test::Absolute,
            r#"{"array":{"b":[3,2],"c":[1,1]},"dual":[["1","5","4"],["1","5/3","-8/3"],["1","-5/3","2/3"]],"eigen":[["1","3","6"],["1","1","-2"],["1","-2","1"]],"krein":[{"i":1,"j":1,"q":["5","20/9","20/9"]},{"i":1,"j":2,"q":["0","16/9","25/9"]},{"i":2,"j":2,"q":["4","20/9","2/9"]}],"n":"10","passed":["first","degree","order","cross","size","intersect","absolute"],"ppoly":[[1,2],[2,1]],"qpoly":[[1,2],[2,1]],"root":"0","sizes":["1","3","6"],"theta":["3","1","-2"],"verdict":"survivor"}"#,
        ),
        (
            b"{3;1}",
            Test::Krein,
            r#"{"array":{"b":[3],"c":[1]},"dual":[["1","3"],["1","-1"]],"eigen":[["1","3"],["1","-1"]],"krein":[{"i":1,"j":1,"q":["3","2"]}],"n":"4","passed":["first","degree","order","cross","size","intersect","krein"],"ppoly":[[1]],"qpoly":[[1]],"root":"0","sizes":["1","3"],"theta":["3","-1"],"verdict":"survivor"}"#,
        ),
        (
            b"{2,1;1,1}",
            Test::Krein,
            r#"{"array":{"b":[2,1],"c":[1,1]},"dual":[["1","2","2"],["1","-1/2+1/2r5","-1/2-1/2r5"],["1","-1/2-1/2r5","-1/2+1/2r5"]],"eigen":[["1","2","2"],["1","-1/2+1/2r5","-1/2-1/2r5"],["1","-1/2-1/2r5","-1/2+1/2r5"]],"krein":[{"i":1,"j":1,"q":["2","0","1"]},{"i":1,"j":2,"q":["0","1","1"]},{"i":2,"j":2,"q":["2","1","0"]}],"n":"5","passed":["first","degree","order","cross","size","intersect","krein"],"ppoly":[[1,2],[2,1]],"qpoly":[[1,2],[2,1]],"root":"5","sizes":["1","2","2"],"theta":["2","-1/2+1/2r5","-1/2-1/2r5"],"verdict":"survivor"}"#,
        ),
        (
            b"{5,4,2;1,1,4}",
            Test::Krein,
            r#"{"array":{"b":[5,4,2],"c":[1,1,4]},"dual":[["1","16","10","9"],["1","32/5","-2","-27/5"],["1","-4/5","-2","9/5"],["1","-16/5","4","-9/5"]],"eigen":[["1","5","20","10"],["1","2","-1","-2"],["1","-1","-4","4"],["1","-3","4","-2"]],"krein":[{"i":1,"j":1,"q":["16","44/5","176/25","16/5"]},{"i":1,"j":2,"q":["0","22/5","16/5","32/5"]},{"i":1,"j":3,"q":["0","9/5","144/25","32/5"]},{"i":2,"j":2,"q":["10","2","4","2"]},{"i":2,"j":3,"q":["0","18/5","9/5","8/5"]},{"i":3,"j":3,"q":["9","18/5","36/25","0"]}],"n":"36","passed":["first","degree","order","cross","size","intersect","krein"],"ppoly":[[1,2,3]],"qpoly":[],"root":"0","sizes":["1","5","20","10"],"theta":["5","2","-1","-3"],"verdict":"survivor"}"#,
        ),
    ];
    for (array, test, text) in cases {
        let array = Array::read(array)?;
        let verdict = survives(rt.alloc(), &array, test)?;
        says(&rt, rt.alloc(), &array, verdict, text)?;
    }
    Ok(())
}

/// The Hamming graph of diameter 12 over 342 letters: its sizes and its number of vertices lie beyond
/// 2^53, and stand as texts.
#[test]
fn numbers_beyond_the_range_of_a_double(rt: HostRuntime) -> Result<(), Fail> {
    let alloc = rt.alloc();
    let array = Array::read(
        b"{4092,3751,3410,3069,2728,2387,2046,1705,1364,1023,682,341;1,2,3,4,5,6,7,8,9,10,11,12}",
    )?;
    let numbers = numbers_of(alloc, &array)?;
    let p_orderings = p_orderings(alloc, &numbers)?;
    let verdict = Verdict::Survivor(Survivor {
        passed: PassedTests::new(FIRST_SIX.to_vec(alloc)?),
        numbers,
        spectra: None,
        p_orderings,
        q_orderings: None,
    });
    let text =
        r#"{"array":{"b":[4092,3751,3410,3069,2728,2387,2046,1705,1364,1023,682,341],"c":[1,2,3,4,5,6,7,8,9,10,11,12]},"n":"2560432155354471958946281230336","passed":["first","degree","order","cross","size","intersect"],"ppoly":[[1,2,3,4,5,6,7,8,9,10,11,12]],"sizes":["1","4092","7674546","8723400620","6693029125695","3651716690979192","1452774623561221884","424625268543751424952","90498260358387022442895","13715514125426655401345420","1403097095031146847557636466","86992019891931104548573460892","2472023231929042220921962513681"],"verdict":"survivor"}"#;
    says(&rt, alloc, &array, verdict, text)
}

/// The cube of dimension 12, whose Krein parameters are its intersection numbers.
#[test]
fn parameters_of_diameter_twelve(rt: HostRuntime) -> Result<(), Fail> {
    let cube = Array::read(b"{12,11,10,9,8,7,6,5,4,3,2,1;1,2,3,4,5,6,7,8,9,10,11,12}")?;
    let verdict = survives(rt.alloc(), &cube, Test::Krein)?;
    let report = report_of(rt.alloc(), &cube, verdict)?;
    let last =
        r#","n":"4096","passed":["first","degree","order","cross","size","intersect","krein"],"ppoly":[[1,2,3,4,5,6,7,8,9,10,11,12],[11,2,9,4,7,6,5,8,3,10,1,12]],"qpoly":[[1,2,3,4,5,6,7,8,9,10,11,12],[11,2,9,4,7,6,5,8,3,10,1,12]],"root":"0","sizes":["1","12","66","220","495","792","924","792","495","220","66","12","1"],"theta":["12","10","8","6","4","2","0","-2","-4","-6","-8","-10","-12"],"verdict":"survivor"}
"#;
    assert_eq!(rt; report.len(), 8227);
    assert!(rt; report.ends_with(last.as_bytes()));
    Ok(())
}

/// The heptagon, of whose eigenvalues only one is rational, and the Tutte 12-cage, which needs √2 and
/// √6.
#[test]
fn refused_spectra(rt: HostRuntime) -> Result<(), Fail> {
    let cases: [(&[u8], &str); 2] = [
        (
            b"{2,1,1;1,1,1}",
            r#"{"array":{"b":[2,1,1],"c":[1,1,1]},"factors":[["-2","1"]],"passed":["first","degree","order","cross","size","intersect"],"pending":["mult spectrum","krein spectrum"],"rest":["-1","-2","1","1"],"verdict":"refused-spectrum"}"#,
        ),
        (
            b"{3,2,2,2,2,2;1,1,1,1,1,3}",
            r#"{"array":{"b":[3,2,2,2,2,2],"c":[1,1,1,1,1,3]},"factors":[["-3","1"],["0","1"],["3","1"],["-2","0","1"],["-6","0","1"]],"first":["-2","0","1"],"passed":["first","degree","order","cross","size","intersect"],"pending":["mult spectrum","krein spectrum"],"second":["-6","0","1"],"verdict":"refused-spectrum"}"#,
        ),
    ];
    for (array, text) in cases {
        let array = Array::read(array)?;
        let mut pending = Vec::new(rt.alloc());
        pending.push(refused(Test::Mult))?;
        pending.push(refused(Test::Krein))?;
        let verdict = Verdict::RefusedSpectrum(RefusedSpectrum {
            passed: PassedTests::new(FIRST_SIX.to_vec(rt.alloc())?),
            pending: PendingTests::new(pending),
            other: other_of(rt.alloc(), &array)?.ok_or("one field")?,
        });
        says(&rt, rt.alloc(), &array, verdict, text)?;
    }
    Ok(())
}

/// An infeasible array and an undecided one with the certificate of the heptagon.
#[test]
fn certificates(rt: HostRuntime) -> Result<(), Fail> {
    let alloc = rt.alloc();
    let array = Array::read(b"{2,1,1;1,1,1}")?;
    let mut pending = Vec::new(alloc);
    pending.push(refused(Test::Mult))?;
    let claim = Claim::Triple { u: 1, v: 1, w: 2 };
    let other = other_of(alloc, &array)?;
    let infeasible = fails(alloc, &array, claim, Class::Counting, pending, other)?;
    let text =
        r#"{"array":{"b":[2,1,1],"c":[1,1,1]},"claim":"triple 1 1 2","class":"counting","derivation":["drg 1","array 3 2 1 1 1 1 1","claim triple 1 1 2","end"],"factors":[["-2","1"]],"pending":["mult spectrum"],"rest":["-1","-2","1","1"],"verdict":"infeasible"}"#;
    says(&rt, alloc, &array, infeasible, text)?;
    let mut pending = Vec::new(alloc);
    pending.push(refused(Test::Absolute))?;
    pending.push(wide(Test::Triple, Node::Rec { i: 1, j: 2 }))?;
    let undecided = Verdict::Undecided(Undecided {
        passed: PassedTests::new(FIRST_SIX.to_vec(alloc)?),
        pending: PendingTests::new(pending),
        other: other_of(alloc, &array)?,
    });
    let text =
        r#"{"array":{"b":[2,1,1],"c":[1,1,1]},"factors":[["-2","1"]],"passed":["first","degree","order","cross","size","intersect"],"pending":["absolute spectrum","triple wide rec 1 2"],"rest":["-1","-2","1","1"],"verdict":"undecided"}"#;
    says(&rt, alloc, &array, undecided, text)
}
