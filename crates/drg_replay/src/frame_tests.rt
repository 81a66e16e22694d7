//! The lines of a frame and the claim on multiplicities, by texts.
use crate::judge::replay_lines;
use crate::{ReplayFault, replay};
use drg_array::{Array, Claim, Class};
use drg_derivation::{Line, NumberList, read};
use std::alloc::Global;
use std::process::Abort;
use std::test::Fail;

const ACCEPTED: Result<Class, ReplayFault> = Ok(Class::Spectral);

fn not_met(line: u64) -> Result<Class, ReplayFault> {
    Err(ReplayFault::NotMet { line })
}

fn open(line: u64) -> Result<Class, ReplayFault> {
    Err(ReplayFault::Open { line })
}

fn wide(line: u64) -> Result<Class, ReplayFault> {
    Err(ReplayFault::Wide { line })
}

/// The answer of these lines, of which those with the given numbers, from 1 on, are replaced.
fn answer(
    alloc: Global,
    lines: &[&str],
    changes: &[(usize, &str)],
) -> Result<Result<Class, ReplayFault>, Fail> {
    let mut text = Vec::new(alloc);
    for i in 0..lines.len() {
        let mut line = lines[i];
        for (number, other) in changes {
            if *number == i + 1 {
                line = *other;
            }
        }
        text.extend_from_slice(line.as_bytes())?;
        text.push(b'\n')?;
    }
    let (derivation, _) = read(alloc, &text)?;
    Ok(replay(alloc, &derivation))
}

// The eigenvalues are 4 and (-1 ± √13)/2, with the multiplicities 1 and 8 ± 4/√13.
const ROOT_13: [&str; 15] = [
    "drg 1",
    "array 2 4 3 1 1",
    "claim mult 1",
    "k 1 4 12",
    "frame 13",
    "theta 0 4 1 0 1",
    "theta 1 -1 2 1 2",
    "theta 2 -1 2 -1 2",
    "prow 0 1 1 0 1 4 1 0 1 12 1 0 1",
    "prow 1 1 1 0 1 -1 2 1 2 -1 2 -1 2",
    "prow 2 1 1 0 1 -1 2 -1 2 -1 2 1 2",
    "qrow 0 1 1 0 1 8 1 4 13 8 1 -4 13",
    "qrow 1 1 1 0 1 -1 2 25 26 -1 2 -25 26",
    "qrow 2 1 1 0 1 -1 2 -9 26 -1 2 9 26",
    "end",
];

// The pentagon, whose P and Q are one matrix.
const ROOT_5: [&str; 15] = [
    "drg 1",
    "array 2 2 1 1 1",
    "claim mult 1",
    "k 1 2 2",
    "frame 5",
    "theta 0 2 1 0 1",
    "theta 1 -1 2 1 2",
    "theta 2 -1 2 -1 2",
    "prow 0 1 1 0 1 2 1 0 1 2 1 0 1",
    "prow 1 1 1 0 1 -1 2 1 2 -1 2 -1 2",
    "prow 2 1 1 0 1 -1 2 -1 2 -1 2 1 2",
    "qrow 0 1 1 0 1 2 1 0 1 2 1 0 1",
    "qrow 1 1 1 0 1 -1 2 1 2 -1 2 -1 2",
    "qrow 2 1 1 0 1 -1 2 -1 2 -1 2 1 2",
    "end",
];

// The multiplicities are 1, 35/4 and 45/4.
const ROOT_0: [&str; 15] = [
    "drg 1",
    "array 2 5 3 1 1",
    "claim mult 1",
    "k 1 5 15",
    "frame 0",
    "theta 0 5 1",
    "theta 1 2 1",
    "theta 2 -2 1",
    "prow 0 1 1 5 1 15 1",
    "prow 1 1 1 2 1 -3 1",
    "prow 2 1 1 -2 1 1 1",
    "qrow 0 1 1 35 4 45 4",
    "qrow 1 1 1 7 2 -9 2",
    "qrow 2 1 1 -7 4 3 4",
    "end",
];

// Petersen's graph, with the multiplicities 1, 5 and 4.
const PETERSEN: [&str; 15] = [
    "drg 1",
    "array 2 3 2 1 1",
    "claim mult 1",
    "k 1 3 6",
    "frame 0",
    "theta 0 3 1",
    "theta 1 1 1",
    "theta 2 -2 1",
    "prow 0 1 1 3 1 6 1",
    "prow 1 1 1 1 1 -2 1",
    "prow 2 1 1 -2 1 1 1",
    "qrow 0 1 1 5 1 4 1",
    "qrow 1 1 1 5 3 -8 3",
    "qrow 2 1 1 -5 3 2 3",
    "end",
];

/// One line of a derivation is another, and the answer is this.
type Case<'a> = (usize, &'a str, Result<Class, ReplayFault>);

fn check(rt: &impl Abort, alloc: Global, lines: &[&str], cases: &[Case]) -> Result<(), Fail> {
    for (number, line, expected) in cases {
        let given = answer(alloc, lines, &[(*number, *line)])?;
        assert_eq!(rt; given, *expected, "line {number}: {line}");
    }
    Ok(())
}

#[test]
fn multiplicities(rt: HostRuntime) -> Result<(), Fail> {
    let cases: [(&[&str], &str, Result<Class, ReplayFault>); 10] = [
        (&ROOT_13, "claim mult 1", ACCEPTED),
        (&ROOT_13, "claim mult 2", ACCEPTED),
        (&ROOT_13, "claim mult 3", not_met(3)),
        (&ROOT_13, "claim size 1", not_met(5)),
        (&ROOT_0, "claim mult 1", ACCEPTED),
        (&ROOT_0, "claim mult 2", ACCEPTED),
        (&ROOT_5, "claim mult 1", open(15)),
        (&ROOT_5, "claim mult 2", open(15)),
        (&PETERSEN, "claim mult 1", open(15)),
        (&PETERSEN, "claim mult 2", open(15)),
    ];
    for (lines, claim, expected) in cases {
        let given = answer(rt.alloc(), lines, &[(3, claim)])?;
        assert_eq!(rt; given, expected, "{claim} of {}", lines[1]);
    }
    Ok(())
}

#[test]
fn lines_over_a_root(rt: HostRuntime) -> Result<(), Fail> {
    let cases: [Case; 26] = [
        // A number that isn't in lowest terms, or has a denominator that isn't positive.
        (6, "theta 0 8 2 0 1", not_met(6)),
        (6, "theta 0 4 1 0 2", not_met(6)),
        (6, "theta 0 -4 -1 0 1", not_met(6)),
        (6, "theta 0 4 1 0 0", not_met(6)),
        // An eigenvalue out of its place, and one that isn't below the one before.
        (6, "theta 1 4 1 0 1", not_met(6)),
        (7, "theta 0 -1 2 1 2", not_met(7)),
        (7, "theta -1 -1 2 1 2", not_met(7)),
        (7, "theta 1 4 1 0 1", not_met(7)),
        (7, "theta 1 -1 2 -1 2", not_met(8)),
        (8, "theta 2 4 1 -1 13", not_met(8)),
        (8, "theta 2 -1 1 -1 2", not_met(11)),
        (8, "prow 0 1 1 0 1 4 1 0 1 12 1 0 1", not_met(8)),
        // A row of P that doesn't begin with 1 and its eigenvalue, or is no such row, or not the next.
        (9, "prow 0 2 1 0 1 4 1 0 1 12 1 0 1", not_met(9)),
        (9, "prow 0 1 1 0 1 4 1 1 1 12 1 0 1", not_met(9)),
        (9, "prow 0 1 1 0 1 4 1 0 1 12 1 1 1", not_met(9)),
        (9, "prow 1 1 1 0 1 -1 2 1 2 -1 2 -1 2", not_met(9)),
        (10, "prow 1 1 1 0 1 -1 2 1 2 -1 2 1 2", not_met(10)),
        (11, "prow 1 1 1 0 1 -1 2 1 2 -1 2 -1 2", not_met(11)),
        (11, "qrow 0 1 1 0 1 8 1 4 13 8 1 -4 13", not_met(11)),
        // A row of Q out of its place or not in lowest terms. A wrong number shows at the last row.
        (12, "qrow 1 1 1 0 1 8 1 4 13 8 1 -4 13", not_met(12)),
        (12, "qrow 0 1 1 0 1 8 1 4 26 8 1 -4 13", not_met(12)),
        (12, "qrow 0 1 1 0 1 8 1 -4 13 8 1 4 13", not_met(14)),
        (13, "qrow 1 1 1 0 1 -1 2 25 27 -1 2 -25 26", not_met(14)),
        (14, "qrow 2 1 1 0 1 -1 2 -9 26 -1 2 -9 26", not_met(14)),
        (14, "theta 3 -1 1 -1 2", not_met(14)),
        (15, "qrow 3 1 1 0 1 -1 2 -9 26 -1 2 9 26\nend", not_met(15)),
    ];
    check(&rt, rt.alloc(), &ROOT_13, &cases)
}

#[test]
fn lines_of_rationals(rt: HostRuntime) -> Result<(), Fail> {
    let cases: [Case; 14] = [
        (4, "k 1 5", not_met(5)),
        (5, "k 1 5 15", not_met(5)),
        (6, "theta 0 10 2", not_met(6)),
        (6, "theta 0 5 0", not_met(6)),
        (7, "theta 1 -2 1", not_met(8)),
        (7, "theta 2 2 1", not_met(7)),
        (9, "prow 0 1 1 5 1 16 1", not_met(9)),
        (10, "prow 1 1 1 2 1 -3 2", not_met(10)),
        (11, "prow 2 1 1 2 1 -3 1", not_met(11)),
        // The rows of P in place of those of Q.
        (12, "qrow 0 1 1 5 1 15 1", not_met(14)),
        (13, "qrow 1 1 1 9 2 -9 2", not_met(14)),
        (14, "qrow 2 1 1 7 4 3 4", not_met(14)),
        (14, "end", open(14)),
        (12, "end", open(12)),
    ];
    check(&rt, rt.alloc(), &ROOT_0, &cases)
}

#[test]
fn work_numbers_of_a_frame(rt: HostRuntime) -> Result<(), Fail> {
    let cases: [(&[&str], &[(usize, &str)], Result<Class, ReplayFault>); 12] = [
        // (2^127 - 1) - (-1) is 2^127, and (2^127 - 1) - 0 is in range.
        (
            &ROOT_0,
            &[
                (6, "theta 0 170141183460469231731687303715884105727 1"),
                (7, "theta 1 -1 1"),
            ],
            wide(7),
        ),
        (
            &ROOT_0,
            &[
                (6, "theta 0 170141183460469231731687303715884105727 1"),
                (7, "theta 1 0 1"),
            ],
            not_met(9),
        ),
        // The square of the eigenvalue, 2^128, is too wide in the second equation of its row, and the first
        // holds where c_1 is 1, and else fails.
        (
            &ROOT_0,
            &[
                (6, "theta 0 18446744073709551616 1"),
                (8, "theta 2 1 1"),
                (9, "prow 0 1 1 18446744073709551616 1 0 1"),
            ],
            wide(9),
        ),
        (
            &ROOT_0,
            &[
                (2, "array 2 4 4 2 1"),
                (4, "k 1 2 8"),
                (6, "theta 0 18446744073709551616 1"),
                (8, "theta 2 1 1"),
                (9, "prow 0 1 1 18446744073709551616 1 0 1"),
            ],
            not_met(9),
        ),
        // 5·(2^127 - 1) stands in the second cell of the first row of P·Q, whose first cell holds or not.
        (
            &ROOT_0,
            &[(
                13,
                "qrow 1 1 1 170141183460469231731687303715884105727 1 0 1",
            )],
            wide(14),
        ),
        (
            &ROOT_0,
            &[
                (12, "qrow 0 2 1 0 1 0 1"),
                (
                    13,
                    "qrow 1 1 1 170141183460469231731687303715884105727 1 0 1",
                ),
            ],
            not_met(14),
        ),
        // The last cell of a row is wrong, and a cell of the next row is too wide.
        (
            &ROOT_0,
            &[
                (12, "qrow 0 1 1 35 4 45 4"),
                (
                    13,
                    "qrow 1 1 1 7 2 170141183460469231731687303715884105727 5",
                ),
            ],
            wide(14),
        ),
        (
            &ROOT_0,
            &[
                (12, "qrow 0 1 1 35 4 0 1"),
                (
                    13,
                    "qrow 1 1 1 7 2 170141183460469231731687303715884105727 5",
                ),
                (14, "qrow 2 1 1 -7 4 0 1"),
            ],
            not_met(14),
        ),
        // The same over a root: a sum of the parts of √13 is too wide, or the square in the sign.
        (
            &ROOT_13,
            &[
                (6, "theta 0 0 1 170141183460469231731687303715884105727 1"),
                (7, "theta 1 0 1 -1 1"),
            ],
            wide(7),
        ),
        (
            &ROOT_13,
            &[
                (6, "theta 0 18446744073709551616 1 0 1"),
                (7, "theta 1 0 1 1 1"),
            ],
            wide(7),
        ),
        (
            &ROOT_13,
            &[
                (6, "theta 0 18446744073709551616 1 0 1"),
                (7, "theta 1 0 1 -1 1"),
                (8, "theta 2 0 1 -2 1"),
                (9, "prow 0 1 1 0 1 18446744073709551616 1 0 1 0 1 0 1"),
            ],
            wide(9),
        ),
        (
            &ROOT_13,
            &[(
                13,
                "qrow 1 1 1 0 1 0 1 170141183460469231731687303715884105727 1 0 1 0 1",
            )],
            wide(14),
        ),
    ];
    for (lines, changes, expected) in cases {
        let given = answer(rt.alloc(), lines, changes)?;
        let (number, line) = changes[changes.len() - 1];
        assert_eq!(rt; given, expected, "line {number}: {line}");
    }
    Ok(())
}
