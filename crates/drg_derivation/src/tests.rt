use crate::{
    Context, Derivation, DerivationFault, Kind, Line, LineReader, LineView, NumberList, Place,
    line_at, read,
};
use drg_array::{Array, Claim, ClaimName, Test};
use std::alloc::Global;
use std::process::Abort;
use std::test::Fail;

const MULT: &str = "drg 1\narray 2 4 3 1 1\nclaim mult 1\nk 1 4 12\nframe 13\n\
theta 0 4 1 0 1\ntheta 1 -1 2 1 2\ntheta 2 -1 2 -1 2\n\
prow 0 1 1 0 1 4 1 0 1 12 1 0 1\nprow 1 1 1 0 1 -1 2 1 2 -1 2 -1 2\nprow 2 1 1 0 1 -1 2 -1 2 -1 2 1 2\n\
qrow 0 1 1 0 1 8 1 4 13 8 1 -4 13\nqrow 1 1 1 0 1 -1 2 25 26 -1 2 -25 26\nqrow 2 1 1 0 1 -1 2 -9 26 -1 2 9 26\n\
end\n";

const KREIN: &str = "drg 1\narray 2 9 8 1 4\nclaim krein 2 2 2\nk 1 9 18\nframe 0\n\
theta 0 9 1\ntheta 1 1 1\ntheta 2 -5 1\n\
prow 0 1 1 9 1 18 1\nprow 1 1 1 1 1 -2 1\nprow 2 1 1 -5 1 4 1\n\
qrow 0 1 1 21 1 6 1\nqrow 1 1 1 7 3 -10 3\nqrow 2 1 1 -7 3 4 3\n\
krein 2 2 6 1 14 9 -4 9\nend\n";

const TRIPLE: &str =
    "drg 1\narray 2 6 4 1 4\nclaim triple 1 1 1\np 1 1 1 1 4\np 1 2 0 4 2\neq 1 1 2\nmiss 0\nend\n";

/// A text with each kind of line.
const KINDS: &str = "drg 1\narray 2 3 2 1 1\nclaim ktriple 1 2 2\nk 1\np 1 1 0 1 2\nframe 0\n\
theta 0 3 1\nprow 0 1 1 3 1 6 1\nqrow 0 1 1 5 1 4 1\nkrein 1 1 5 1 20 9 20 9\n\
eq 1 1 2\nkeq 1 2 1 0\ncomb 2 0 1 1 -1\nlow 1 1 1 -7 0\nhigh 1 1 1 5 0\nsplit 1 1 1 2\nmiss 0\nmod 0 2\nvoid 1 1 1\nend\n";

/// Reads the text, checks that all of it was used, and that it is written again.
fn comes_back(rt: &impl Abort, alloc: Global, text: &str) -> Result<usize, Fail> {
    let (derivation, used) = read(alloc, text.as_bytes())?;
    assert_eq!(rt; used, text.len());
    let mut out = Vec::new(alloc);
    derivation.write_text(&mut out)?;
    assert_eq!(rt; out.as_slice(), text.as_bytes());
    Ok(derivation.lines.len())
}

/// The line that is refused, 0 where none is.
fn refused(alloc: Global, text: &str) -> u64 {
    match read(alloc, text.as_bytes()) {
        Err(DerivationFault::BadText { line }) => line,
        _ => 0,
    }
}

/// The line that the line reader refuses, 0 where it comes to the end, and the greatest number
/// where neither is so in 30,000 lines.
fn stopped(text: &[u8]) -> u64 {
    let mut reader = LineReader::new(text);
    for _ in 0..30_000 {
        match reader.next() {
            Ok(Some(_)) => {}
            Ok(None) => return 0,
            Err(line) => return line,
        }
    }
    u64::MAX
}

#[test]
fn the_derivation_of_mult_for_4_3_1_1(rt: HostRuntime) -> Result<(), Fail> {
    assert_eq!(rt; comes_back(&rt, rt.alloc(), MULT)?, 11);
    Ok(())
}

#[test]
fn the_derivation_of_krein_for_9_8_1_4(rt: HostRuntime) -> Result<(), Fail> {
    assert_eq!(rt; comes_back(&rt, rt.alloc(), KREIN)?, 12);
    Ok(())
}

#[test]
fn the_derivation_of_triple_for_6_4_1_4(rt: HostRuntime) -> Result<(), Fail> {
    assert_eq!(rt; comes_back(&rt, rt.alloc(), TRIPLE)?, 4);
    Ok(())
}

#[test]
fn each_kind_of_line(rt: HostRuntime) -> Result<(), Fail> {
    assert_eq!(rt; comes_back(&rt, rt.alloc(), KINDS)?, 16);
    Ok(())
}

#[test]
fn claims_of_each_length(rt: HostRuntime) -> Result<(), Fail> {
    for claim in [
        "first",
        "order 0",
        "cross 1 255",
        "intersect 2 0 2",
        "krein 1 1 2",
        "size 3",
    ] {
        let mut text = "drg 1\narray 1 3 1\nclaim ".as_bytes().to_vec(rt.alloc())?;
        text.extend_from_slice(claim.as_bytes())?;
        text.extend_from_slice("\nend\n".as_bytes())?;
        let (derivation, used) = read(rt.alloc(), &text)?;
        assert_eq!(rt; used, text.len());
        let mut out = Vec::new(rt.alloc());
        derivation.write_text(&mut out)?;
        assert_eq!(rt; out.as_slice(), text.as_slice());
    }
    Ok(())
}

#[test]
fn cuts_at_each_byte(rt: HostRuntime) -> Result<(), Fail> {
    let bytes = MULT.as_bytes();
    let mut line = 1;
    for (n, byte) in bytes.iter().enumerate() {
        let cut = &bytes[..n];
        assert_eq!(rt; stopped(cut), line);
        match read(rt.alloc(), cut) {
            Err(DerivationFault::BadText { line: number }) => assert_eq!(rt; number, line),
            _ => assert!(rt; false, "a cut was read"),
        }
        if *byte == b'\n' && line < 100 {
            line += 1;
        }
    }
    Ok(())
}

#[test]
fn refused_lines(rt: HostRuntime) {
    let cases = [
        ("", 1),
        ("drg 2\n", 1),
        ("drg 1 \narray", 1),
        (" drg 1\n", 1),
        ("drg 1\r\n", 1),
        ("drg  1\n", 1),
        ("drg 1\narray 2 6 4 1\n", 2),
        ("drg 1\narray 0\n", 2),
        ("drg 1\narray 1 4096 1\n", 2),
        ("drg 1\narray 1 0 1\n", 2),
        ("drg 1\narray -1 3 1\n", 2),
        (
            "drg 1\narray 13 1 1 1 1 1 1 1 1 1 1 1 1 1 1 1 1 1 1 1 1 1 1 1 1 1 1\n",
            2,
        ),
        ("drg 1\narray 1 3 1\nclaim\n", 3),
        ("drg 1\narray 1 3 1\nclaim first 0\n", 3),
        ("drg 1\narray 1 3 1\nclaim order\n", 3),
        ("drg 1\narray 1 3 1\nclaim order 256\n", 3),
        ("drg 1\narray 1 3 1\nclaim order -1\n", 3),
        ("drg 1\narray 1 3 1\nclaim  first\n", 3),
        ("drg 1\narray 1 3 1\nclaim pair 1 1 1\n", 3),
        ("drg 1\narray 1 3 1\nclaim first\nk\n", 4),
        ("drg 1\narray 1 3 1\nclaim first\nk 1 3 1\n", 4),
        ("drg 1\narray 1 3 1\nclaim first\nk +1\n", 4),
        ("drg 1\narray 1 3 1\nclaim first\nk 01\n", 4),
        ("drg 1\narray 1 3 1\nclaim first\nk -0\n", 4),
        ("drg 1\narray 1 3 1\nclaim first\nk -\n", 4),
        ("drg 1\narray 1 3 1\nclaim first\nk 1  3\n", 4),
        ("drg 1\narray 1 3 1\nclaim first\nk 1 \n", 4),
        ("drg 1\narray 1 3 1\nclaim first\nk 1\t3\n", 4),
        ("drg 1\narray 1 3 1\nclaim first\ncomb 0\n", 4),
        ("drg 1\narray 1 3 1\nclaim first\ncomb 2 0 1\n", 4),
        ("drg 1\narray 1 3 1\nclaim first\ncomb -1 0 1\n", 4),
        ("drg 1\narray 1 3 1\nclaim first\n\nend\n", 4),
        ("drg 1\narray 1 3 1\nclaim first\ntheta 0 1 1 0 1\n", 4),
        ("drg 1\narray 1 3 1\nclaim first\nframe 5\ntheta 0 3 1\n", 5),
        (
            "drg 1\narray 1 3 1\nclaim first\nframe 5\nframe 0\ntheta 0 3 1\nend 0\n",
            7,
        ),
        ("drg 1\narray 1 3 1\nclaim first\nclaim first\n", 4),
        ("drg 1\narray 1 3 1\nclaim first\nlemma 1 1 1 1 1 1\n", 4),
        ("drg 1\narray 1 3 1\nclaim first\nend", 4),
        ("drg 1\narray 1 3 1\nclaim first\nend\r\n", 4),
    ];
    for (text, line) in cases {
        assert_eq!(rt; refused(rt.alloc(), text), line, "{text}");
        assert_eq!(rt; stopped(text.as_bytes()), line, "{text}");
    }
}

#[test]
fn numbers_at_the_bound(rt: HostRuntime) {
    let cases = [
        (
            "drg 1\narray 1 3 1\nclaim first\nmiss 170141183460469231731687303715884105727\nend\n",
            0,
        ),
        (
            "drg 1\narray 1 3 1\nclaim first\nmiss -170141183460469231731687303715884105727\nend\n",
            0,
        ),
        (
            "drg 1\narray 1 3 1\nclaim first\nmiss 170141183460469231731687303715884105728\nend\n",
            4,
        ),
        (
            "drg 1\narray 1 3 1\nclaim first\nmiss -170141183460469231731687303715884105728\nend\n",
            4,
        ),
        (
            "drg 1\narray 1 3 1\nclaim first\nmiss 1000000000000000000000000000000000000000\nend\n",
            4,
        ),
    ];
    for (text, line) in cases {
        assert_eq!(rt; refused(rt.alloc(), text), line, "{text}");
        assert_eq!(rt; stopped(text.as_bytes()), line, "{text}");
    }
}

#[test]
fn refuses_again(rt: HostRuntime) {
    let mut reader = LineReader::new("drg 1\narray 2 6 4 1\n".as_bytes());
    assert!(rt; matches!(reader.next(), Ok(Some(_))));
    assert!(rt; matches!(reader.next(), Err(2)));
    assert!(rt; matches!(reader.next(), Err(2)));
}

#[test]
fn bytes_after_the_end(rt: HostRuntime) -> Result<(), Fail> {
    let text = "drg 1\narray 1 3 1\nclaim first\nend\nverdict infeasible first counting\n";
    let (_, used) = read(rt.alloc(), text.as_bytes())?;
    assert_eq!(rt; used, 34);
    Ok(())
}

/// A derivation for `{3;1}` with this one line.
fn with_line(alloc: Global, line: Line) -> Result<Option<Derivation>, Fail> {
    let array = Array::make(&[3], &[1]).ok_or("no array")?;
    let mut lines = Vec::new(alloc);
    lines.push(line)?;
    Ok(Derivation::make(array, Claim::First, lines))
}

#[test]
fn derivations_that_have_a_text(rt: HostRuntime) -> Result<(), Fail> {
    assert!(rt; with_line(rt.alloc(), Line::Miss { n: -5 })?.is_some());
    assert!(rt; with_line(rt.alloc(), Line::Miss { n: i128::MIN })?.is_none());
    let values = NumberList::new(vec![in rt.alloc(); 0, 1]?);
    assert!(rt; with_line(rt.alloc(), Line::Comb { m: 1, values })?.is_some());
    let values = NumberList::new(vec![in rt.alloc(); 0, 1, 1]?);
    assert!(rt; with_line(rt.alloc(), Line::Comb { m: 1, values })?.is_none());
    Ok(())
}

/// The lines `low 1 1 1 v 0` for v from 0 to 19,999.
fn many_lines(alloc: Global) -> Result<Vec<Line>, Fail> {
    let mut lines = Vec::new(alloc);
    for v in 0u16..20_000 {
        lines.push(Line::Low {
            r: 1,
            s: 1,
            t: 1,
            v: i128::from(v),
            n: 0,
        })?;
    }
    Ok(lines)
}

#[test]
fn a_derivation_of_twenty_thousand_lines(rt: HostRuntime) -> Result<(), Fail> {
    let alloc = rt.alloc();
    let array = Array::make(&[3], &[1]).ok_or("no array")?;
    let derivation = Derivation::make(array, Claim::First, many_lines(alloc)?).ok_or("no text")?;
    let mut text = Vec::new(alloc);
    derivation.write_text(&mut text)?;
    // `low 1 1 1 v 0` with 88,890 digits of v in all, and 34 bytes in the other four lines.
    assert_eq!(rt; text.len(), 20_000 * 13 + 88_890 + 34);
    let (again, used) = read(alloc, &text)?;
    assert_eq!(rt; used, text.len());
    assert_eq!(rt; again.lines.len(), 20_000);
    let mut copy = Vec::new(alloc);
    again.write_text(&mut copy)?;
    assert!(rt; copy.as_slice() == text.as_slice());
    assert_eq!(rt; stopped(&text), 0);
    Ok(())
}

#[test]
fn a_line_of_forty_thousand_numbers(rt: HostRuntime) -> Result<(), Fail> {
    let alloc = rt.alloc();
    let mut text = b"drg 1\narray 1 3 1\nclaim first\ncomb 20000".to_vec(alloc)?;
    for _ in 0..20_000 {
        text.extend_from_slice(b" 0 1")?;
    }
    text.extend_from_slice(b"\nend\n")?;
    let (derivation, used) = read(alloc, &text)?;
    assert_eq!(rt; used, text.len());
    match derivation.lines.as_slice() {
        [Line::Comb { m, values }] => {
            assert_eq!(rt; *m, 20_000);
            assert_eq!(rt; values.len(), 40_000);
            assert_eq!(rt;
                values.as_slice().iter().filter(|v| **v == 1).count(),
                20_000
            );
        }
        _ => assert!(rt; false, "no comb line"),
    }
    let mut copy = Vec::new(alloc);
    derivation.write_text(&mut copy)?;
    assert!(rt; copy.as_slice() == text.as_slice());
    Ok(())
}

/// The name that follows this word in the derivation of mult.
fn name_after(word: &str) -> Option<ClaimName> {
    match word {
        "claim" => Some(ClaimName::OfTest(Test::Mult)),
        _ => None,
    }
}

#[test]
fn words_and_numbers_of_lines(rt: HostRuntime) {
    let cases: [(&str, &[i128]); 15] = [
        ("drg", &[1]),
        ("array", &[2, 4, 3, 1, 1]),
        ("claim", &[1]),
        ("k", &[1, 4, 12]),
        ("frame", &[13]),
        ("theta", &[0, 4, 1, 0, 1]),
        ("theta", &[1, -1, 2, 1, 2]),
        ("theta", &[2, -1, 2, -1, 2]),
        ("prow", &[0, 1, 1, 0, 1, 4, 1, 0, 1, 12, 1, 0, 1]),
        ("prow", &[1, 1, 1, 0, 1, -1, 2, 1, 2, -1, 2, -1, 2]),
        ("prow", &[2, 1, 1, 0, 1, -1, 2, -1, 2, -1, 2, 1, 2]),
        ("qrow", &[0, 1, 1, 0, 1, 8, 1, 4, 13, 8, 1, -4, 13]),
        ("qrow", &[1, 1, 1, 0, 1, -1, 2, 25, 26, -1, 2, -25, 26]),
        ("qrow", &[2, 1, 1, 0, 1, -1, 2, -9, 26, -1, 2, 9, 26]),
        ("end", &[]),
    ];
    let mut reader = LineReader::new(MULT.as_bytes());
    for (word, numbers) in cases {
        match reader.next() {
            Ok(Some(line)) => {
                assert_eq!(rt; line.word(), word);
                assert_eq!(rt; line.name(), name_after(word));
                assert_eq!(rt; line.count(), numbers.len());
                for i in 0..line.count() {
                    assert_eq!(rt; Some(line.number(i)), numbers.get(i).copied());
                }
            }
            _ => assert!(rt; false, "no line"),
        }
    }
}

#[test]
fn an_evidence_line_from_left_to_right(rt: HostRuntime) -> Result<(), Fail> {
    let place = Place::Evidence {
        context: Context {
            version: 1,
            d: 2,
            width: 4,
        },
    };
    let (view, next) = line_at(place, b"theta 1 -1 2 1 2").ok_or("no line")?;
    assert_eq!(rt; next, place);
    match view {
        LineView::Evidence { line } => {
            assert_eq!(rt; line.kind(), Kind::Theta);
            let mut numbers = line.numbers();
            for number in [1, -1, 2, 1, 2] {
                assert_eq!(rt; numbers.next(), Some(number));
            }
            assert!(rt; numbers.next().is_none());
            match &line.to_line(rt.alloc())? {
                Line::Theta { i, values } => {
                    assert_eq!(rt; *i, 1);
                    assert_eq!(rt; values.as_slice(), [-1, 2, 1, 2].as_slice());
                }
                _ => assert!(rt; false, "another kind"),
            }
        }
        _ => assert!(rt; false, "another line"),
    }
    assert!(rt; line_at(place, b"theta 1 -1 2").is_none());
    Ok(())
}
