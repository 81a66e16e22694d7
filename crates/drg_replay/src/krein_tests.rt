//! The `krein` lines, by texts.
use crate::{ReplayFault, replay};
use drg_array::Class;
use drg_derivation::read;
use std::alloc::Global;
use std::process::Abort;
use std::test::Fail;

const ACCEPTED: Result<Class, ReplayFault> = Ok(Class::Spectral);

fn not_met(line: u64) -> Result<Class, ReplayFault> {
    Err(ReplayFault::NotMet { line })
}

fn wide(line: u64) -> Result<Class, ReplayFault> {
    Err(ReplayFault::Wide { line })
}

/// The answer of this array and claim, with these lines from line 4 on.
fn answer(
    alloc: Global,
    array: &str,
    claim: &str,
    frame: &[&str],
    lines: &[&str],
) -> Result<Result<Class, ReplayFault>, Fail> {
    let mut text = Vec::new(alloc);
    text.extend_from_slice(b"drg 1\n")?;
    add_line(&mut text, array)?;
    add_line(&mut text, claim)?;
    for block in frame {
        add_line(&mut text, block)?;
    }
    for line in lines {
        add_line(&mut text, line)?;
    }
    add_line(&mut text, "end")?;
    let (derivation, _) = read(alloc, &text)?;
    Ok(replay(alloc, &derivation))
}

fn add_line(text: &mut Vec<u8>, line: &str) -> Result<(), Fail> {
    text.extend_from_slice(line.as_bytes())?;
    text.push(b'\n')?;
    Ok(())
}

// Each of these frames has the lines 4 to 14. The array {4,3;1,1} has the eigenvalues 4 and
// (-1 ± √13)/2, with the multiplicities 1 and 8 ± 4/√13.
const ARRAY_13: &str = "array 2 4 3 1 1";

const FRAME_13: &str = "k 1 4 12
frame 13
theta 0 4 1 0 1
theta 1 -1 2 1 2
theta 2 -1 2 -1 2
prow 0 1 1 0 1 4 1 0 1 12 1 0 1
prow 1 1 1 0 1 -1 2 1 2 -1 2 -1 2
prow 2 1 1 0 1 -1 2 -1 2 -1 2 1 2
qrow 0 1 1 0 1 8 1 4 13 8 1 -4 13
qrow 1 1 1 0 1 -1 2 25 26 -1 2 -25 26
qrow 2 1 1 0 1 -1 2 -9 26 -1 2 9 26";

// The array {5,3;1,1} has the multiplicities 1, 35/4 and 45/4.
const ARRAY_0: &str = "array 2 5 3 1 1";

const FRAME_0: &str = "k 1 5 15
frame 0
theta 0 5 1
theta 1 2 1
theta 2 -2 1
prow 0 1 1 5 1 15 1
prow 1 1 1 2 1 -3 1
prow 2 1 1 -2 1 1 1
qrow 0 1 1 35 4 45 4
qrow 1 1 1 7 2 -9 2
qrow 2 1 1 -7 4 3 4";

#[test]
fn krein_lines_over_a_root(rt: HostRuntime) -> Result<(), Fail> {
    let none = answer(rt.alloc(), ARRAY_13, "claim mult 1", &[FRAME_13], &[])?;
    assert_eq!(rt; none, ACCEPTED);
    let cases: [(&str, Result<Class, ReplayFault>); 15] = [
        (
            "krein 1 1 8 1 4 13 38 13 8 13 51 13 0 1
krein 1 2 0 1 0 1 53 13 -4 13 53 13 4 13
krein 2 2 8 1 -4 13 51 13 0 1 38 13 -8 13",
            ACCEPTED,
        ),
        (
            "krein 2 2 8 1 -4 13 51 13 0 1 38 13 -8 13
krein 1 2 0 1 0 1 53 13 -4 13 53 13 4 13
krein 1 1 8 1 4 13 38 13 8 13 51 13 0 1",
            ACCEPTED,
        ),
        // The line stands already.
        (
            "krein 1 1 8 1 4 13 38 13 8 13 51 13 0 1
krein 1 1 8 1 4 13 38 13 8 13 51 13 0 1",
            not_met(16),
        ),
        (
            "krein 1 1 8 1 4 13 38 13 8 13 51 13 0 1
krein 2 2 8 1 -4 13 51 13 0 1 38 13 -8 13
krein 1 2 0 1 0 1 53 13 -4 13 53 13 4 13
krein 2 2 8 1 -4 13 51 13 0 1 38 13 -8 13",
            not_met(18),
        ),
        // Indices out of their range, with numbers that are right for them.
        ("krein 2 1 0 1 0 1 53 13 -4 13 53 13 4 13", not_met(15)),
        ("krein 0 1 0 1 0 1 1 1 0 1 0 1 0 1", not_met(15)),
        ("krein -1 1 8 1 4 13 38 13 8 13 51 13 0 1", not_met(15)),
        ("krein 1 3 0 1 0 1 53 13 -4 13 53 13 4 13", not_met(15)),
        // A number that isn't in lowest terms, a wrong one, and those of other indices.
        ("krein 1 1 8 1 4 13 38 13 8 13 51 13 0 2", not_met(15)),
        ("krein 1 1 8 1 4 13 38 13 8 13 51 13 1 1", not_met(15)),
        ("krein 1 1 8 1 4 13 38 13 -8 13 51 13 0 1", not_met(15)),
        ("krein 1 1 8 1 -4 13 51 13 0 1 38 13 -8 13", not_met(15)),
        ("krein 1 1 0 1 0 1 53 13 -4 13 53 13 4 13", not_met(15)),
        // A row of Q after them, and a product that is too wide.
        (
            "krein 1 1 8 1 4 13 38 13 8 13 51 13 0 1
qrow 3 1 1 0 1 -1 2 -9 26 -1 2 9 26",
            not_met(16),
        ),
        (
            "krein 1 1 0 1 0 1 0 1 170141183460469231731687303715884105727 1 0 1 0 1",
            wide(15),
        ),
    ];
    for (lines, expected) in cases {
        let given = answer(rt.alloc(), ARRAY_13, "claim mult 1", &[FRAME_13], &[lines])?;
        assert_eq!(rt; given, expected, "{lines}");
    }
    Ok(())
}

#[test]
fn krein_lines_of_rationals(rt: HostRuntime) -> Result<(), Fail> {
    let cases: [(&str, Result<Class, ReplayFault>); 8] = [
        ("krein 1 1 35 4 35 8 21 8", ACCEPTED),
        ("krein 1 2 0 1 27 8 49 8", ACCEPTED),
        ("krein 2 2 45 4 63 8 33 8", ACCEPTED),
        ("krein 1 1 35 4 35 8 23 8", not_met(15)),
        ("krein 1 1 45 4 63 8 33 8", not_met(15)),
        // (35/4)(2^127 - 1) stands in the sum of row 0.
        (
            "krein 1 1 0 1 170141183460469231731687303715884105727 1 0 1",
            wide(15),
        ),
        // 2^124 + 9/4 in row 0 is in range and wrong, where 2^124 - 9/10 in row 1 is too wide.
        (
            "krein 1 1 21267647932558653966460912964485513216 1 0 1 1 5",
            not_met(15),
        ),
        // Row 0 is right, and the sum of row 1 too wide.
        (
            "krein 1 1 0 1 -24305883351495604533098186245126300589 20 4726143985013034214769091769885669593 5",
            wide(15),
        ),
    ];
    for (line, expected) in cases {
        let given = answer(rt.alloc(), ARRAY_0, "claim mult 1", &[FRAME_0], &[line])?;
        assert_eq!(rt; given, expected, "{line}");
    }
    Ok(())
}

#[test]
fn krein_lines_need_a_whole_frame(rt: HostRuntime) -> Result<(), Fail> {
    let cases: [(&str, &str, Result<Class, ReplayFault>); 4] = [
        ("claim mult 1", "krein 1 1 35 4 35 8 21 8", not_met(4)),
        (
            "claim size 1",
            "k 1 5 15\nkrein 1 1 35 4 35 8 21 8",
            not_met(5),
        ),
        (
            "claim mult 1",
            "k 1 5 15\nframe 0\nkrein 1 1 35 4 35 8 21 8",
            not_met(6),
        ),
        (
            "claim mult 1",
            "k 1 5 15
frame 0
theta 0 5 1
theta 1 2 1
theta 2 -2 1
prow 0 1 1 5 1 15 1
prow 1 1 1 2 1 -3 1
prow 2 1 1 -2 1 1 1
qrow 0 1 1 35 4 45 4
qrow 1 1 1 7 2 -9 2
krein 1 1 35 4 35 8 21 8",
            not_met(14),
        ),
    ];
    for (claim, lines, expected) in cases {
        let given = answer(rt.alloc(), ARRAY_0, claim, &[], &[lines])?;
        assert_eq!(rt; given, expected, "{claim}: {lines}");
    }
    Ok(())
}
