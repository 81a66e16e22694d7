//! The lines of a triple system and the claim on it, by texts. The answers are worked out by hand.
use crate::judge::replay_lines;
use crate::{ReplayFault, replay};
use drg_array::{Array, Claim, Class};
use drg_derivation::{Line, NumberList, read};
use std::alloc::{AllocError, Global};
use std::process::Abort;
use std::test::Fail;

const ACCEPTED: Result<Class, ReplayFault> = Ok(Class::Counting);

fn not_met(line: u64) -> Result<Class, ReplayFault> {
    Err(ReplayFault::NotMet { line })
}

fn open(line: u64) -> Result<Class, ReplayFault> {
    Err(ReplayFault::Open { line })
}

fn wide(line: u64) -> Result<Class, ReplayFault> {
    Err(ReplayFault::Wide { line })
}

/// The answer of the lines of a text and of others after them, with the lines `drg 1` and `end`.
fn answer(alloc: Global, head: &str, lines: &str) -> Result<Result<Class, ReplayFault>, Fail> {
    let mut text = b"drg 1\n".to_vec(alloc)?;
    text.extend_from_slice(head.as_bytes())?;
    text.extend_from_slice(lines.as_bytes())?;
    text.extend_from_slice(b"end\n")?;
    let (derivation, _) = read(alloc, &text)?;
    Ok(replay(alloc, &derivation))
}

// Three vertices at distance 1 of each other. [1 1 2] and [2 1 2] have the high bounds 1 and 2, and
// their sum is 4 by `eq 1 1 2`. By `eq 1 1 1` the sum of [1 1 1] and [2 1 1] is 0. The first line
// after these is line 6.
const CLOSED: &str = "array 2 6 4 1 4\nclaim triple 1 1 1\np 1 1 1 1 4\np 1 2 0 4 2\n";

// Some numbers of {4,1;1,2} are negative: the high bound of [2 2 2] is p^2_22 = -1. The first line
// after these is line 8.
const NEGATIVE: &str =
    "array 2 4 1 1 2\nclaim triple 1 1 2\np 1 1 1 2 1\np 1 2 0 1 1\np 2 1 0 2 2\np 2 2 1 2 -1\n";

// By `eq 1 2 2` and `eq 2 2 2` the sums of [1 2 2] and of [2 1 2] with [2 2 2] are 2. So equation 4 is
// the multiple of their difference with the factor 2^127-2, and its right side is 0. Each of the
// unknowns has the high bound 2. The first line after these is line 11.
const LARGE: &str =
    "array 2 6 4 1 4\nclaim triple 1 1 1\np 1 1 1 1 4\np 1 2 0 4 2\neq 1 2 2\neq 2 2 2\neq 1 1 2\ncomb 2 0 85070591730234615865843651857942052863 1 -85070591730234615865843651857942052863\ncomb 1 3 2\n";

#[test]
fn a_type_without_a_solution(rt: HostRuntime) -> Result<(), Fail> {
    let alloc = rt.alloc();
    let cases: [(&str, Result<Class, ReplayFault>); 11] = [
        ("eq 1 1 2\nmiss 0\n", ACCEPTED),
        ("eq 1 1 2\n", open(7)),
        ("", open(6)),
        ("eq 1 1 2\nsplit 1 1 2 0\nmiss 0\nmiss 0\n", ACCEPTED),
        ("eq 1 1 2\nsplit 1 1 2 0\nmiss 0\n", open(9)),
        ("eq 1 1 2\nlow 2 1 2 3 0\nvoid 2 1 2\n", ACCEPTED),
        ("eq 1 1 2\nhigh 1 1 2 4 0\nmiss 0\n", ACCEPTED),
        ("eq 1 1 2\nmiss 0\neq 1 1 2\n", not_met(8)),
        ("eq 1 1 2\nmiss 0\ncomb 1 0 1\n", not_met(8)),
        ("eq 1 1 2\nmiss 0\nk 1\n", not_met(8)),
        ("eq 1 1 2\nmiss 0\np 2 1 0 4 2\n", not_met(8)),
    ];
    for (lines, expected) in cases {
        let given = answer(alloc, CLOSED, lines)?;
        assert_eq!(rt; given, expected, "{lines}");
    }
    // The sum of [1 1 2], [2 1 1] and twice [2 1 2] is 8, and [2 1 1] is 0. Where [1 1 2] is 1 the
    // rest is odd.
    let lines =
        "eq 1 1 2\neq 3 2 1\neq 1 1 1\ncomb 2 0 1 1 1\nhigh 2 1 1 0 2\nsplit 1 1 2 0\nmiss 0\nmod 3 2\n";
    assert_eq!(rt; answer(alloc, CLOSED, lines)?, ACCEPTED);
    // A row of one of the distances doesn't stand.
    let head = "array 2 6 4 1 4\nclaim triple 1 1 1\np 1 1 1 1 4\n";
    assert_eq!(rt; answer(alloc, head, "eq 1 1 2\n")?, not_met(5));
    let head = "array 2 6 4 1 4\nclaim triple 1 1 2\np 1 1 1 1 4\np 1 2 0 4 2\n";
    assert_eq!(rt; answer(alloc, head, "eq 1 1 2\n")?, not_met(6));
    Ok(())
}

#[test]
fn lines_that_are_not_met(rt: HostRuntime) -> Result<(), Fail> {
    let alloc = rt.alloc();
    // Nothing stands before the first equation.
    let early: [&str; 15] = [
        "eq 0 1 1\n",
        "eq 4 1 1\n",
        "eq -1 1 1\n",
        "eq 1 0 1\n",
        "eq 1 3 1\n",
        "eq 1 1 0\n",
        "eq 1 1 3\n",
        "comb 1 0 1\n",
        "low 1 1 1 0 0\n",
        "high 1 1 1 1 0\n",
        "split 1 1 1 0\n",
        "miss 0\n",
        "mod 0 2\n",
        "void 1 1 1\n",
        "keq 1 1 1 0\n",
    ];
    for line in early {
        assert_eq!(rt; answer(alloc, CLOSED, line)?, not_met(6), "{line}");
    }
    // [1 1 2] is from 0 to 1.
    let later: [&str; 14] = [
        "eq 1 1 2\ncomb 2 0 1 1 1\n",
        "eq 1 1 2\nlow 2 1 2 4 0\n",
        "eq 1 1 2\nlow 2 1 2 3 1\n",
        "eq 1 1 2\nlow 2 2 2 0 0\n",
        "eq 1 1 2\nlow 3 1 2 0 0\n",
        "eq 1 1 2\nhigh 2 1 2 3 0\n",
        "eq 1 1 2\nhigh 2 2 2 9 0\n",
        "eq 1 1 2\nsplit 1 1 2 1\n",
        "eq 1 1 2\nsplit 1 1 2 -1\n",
        "eq 1 1 1\nmiss 0\n",
        "eq 1 1 1\nmod 0 1\n",
        "eq 1 1 1\nmod 0 2\n",
        "eq 1 1 2\nvoid 1 1 2\n",
        "eq 1 1 2\nframe 0\n",
    ];
    for lines in later {
        assert_eq!(rt; answer(alloc, CLOSED, lines)?, not_met(7), "{lines}");
    }
    Ok(())
}

#[test]
fn work_numbers_of_rooms(rt: HostRuntime) -> Result<(), Fail> {
    let alloc = rt.alloc();
    let cases: [(&str, Result<Class, ReplayFault>); 7] = [
        ("comb 1 4 2\n", wide(11)),
        ("comb 2 4 2 9 1\n", not_met(11)),
        ("low 1 2 2 0 4\n", wide(11)),
        ("high 1 2 2 0 4\n", wide(11)),
        ("miss 4\n", wide(11)),
        ("mod 4 2\n", not_met(11)),
        // In the upper branch [2 1 2] is 2.
        ("split 2 1 2 1\nmiss 2\nmod 4 2\n", wide(13)),
    ];
    for (lines, expected) in cases {
        assert_eq!(rt; answer(alloc, LARGE, lines)?, expected, "{lines}");
    }
    let lines = "eq 1 1 2\ncomb 1 0 170141183460469231731687303715884105727\nmiss 0\n";
    assert_eq!(rt; answer(alloc, CLOSED, lines)?, wide(7));
    Ok(())
}

#[test]
fn rooms_that_are_empty_at_the_start(rt: HostRuntime) -> Result<(), Fail> {
    let alloc = rt.alloc();
    let cases: [(&str, Result<Class, ReplayFault>); 5] = [
        ("eq 1 1 1\nvoid 2 2 2\n", ACCEPTED),
        ("eq 1 1 1\nvoid 1 1 1\n", not_met(9)),
        ("eq 1 1 1\nsplit 2 2 2 -1\n", not_met(9)),
        // The sum of [1 2 2] and [2 2 2] is p^1_22 = 1.
        ("eq 1 2 2\nlow 1 2 2 2 0\nvoid 1 2 2\n", ACCEPTED),
        ("eq 1 2 2\nlow 1 2 2 3 0\n", not_met(9)),
    ];
    for (lines, expected) in cases {
        assert_eq!(rt; answer(alloc, NEGATIVE, lines)?, expected, "{lines}");
    }
    Ok(())
}

/// `split r s t v`.
fn split(r: i128, s: i128, t: i128, v: i128) -> Line {
    Line::Split { r, s, t, v }
}

/// `p 1 i` with these numbers.
fn row(alloc: Global, i: i128, values: &[i128]) -> Result<Line, AllocError> {
    Ok(Line::P {
        h: 1,
        i,
        values: NumberList::new(values.to_vec(alloc)?),
    })
}

/// Splits [1 2 2] above this value, and closes the branch up to it by 125 splits of [2 2 2]. Equation 0
/// misses everywhere.
fn split_above(lines: &mut Vec<Line>, first: i128) -> Result<(), AllocError> {
    lines.push(split(1, 2, 2, first))?;
    for second in 0..125_usize {
        lines.push(split(2, 2, 2, second as i128))?;
        lines.push(Line::Miss { n: 0 })?;
    }
    lines.push(Line::Miss { n: 0 })?;
    Ok(())
}

#[test]
fn a_hundred_thousand_splits(rt: HostRuntime) -> Result<(), Fail> {
    let alloc = rt.alloc();
    // As in the first array, [1 1 2] and [2 1 2] are at most 799 and 800, and their sum is 3200.
    let array = Array::read(b"{4000,3200;1,3200}")?;
    let mut lines = Vec::new(alloc);
    lines.push(row(alloc, 1, &[1, 799, 3200])?)?;
    lines.push(row(alloc, 2, &[0, 3200, 800])?)?;
    lines.push(Line::Eq { a: 1, x: 1, y: 2 })?;
    // [1 2 2] and [2 2 2] are at most 800.
    for first in 0..800_usize {
        split_above(&mut lines, first as i128)?;
    }
    let claim = Claim::Triple { u: 1, v: 1, w: 1 };
    assert_eq!(rt; replay_lines(alloc, &array, claim, &lines), open(201_607));
    lines.push(Line::Miss { n: 0 })?;
    assert_eq!(rt; replay_lines(alloc, &array, claim, &lines), ACCEPTED);
    Ok(())
}
