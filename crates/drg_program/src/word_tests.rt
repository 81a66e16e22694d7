//! Options in any order, JSON reports, and files of odd names.
use crate::Status;
use crate::tests::{PETERSEN, run_on};
use std::test::Fail;

/// Words of which each line asks for the same report.
const SAME: [&[&str]; 12] = [
    &["check", "f"],
    &["check", "--", "f"],
    &["check", "f", "--"],
    &["check", "--tests", "mult,triangles,induced,handshake", "f"],
    &["check", "f", "--tests=handshake,induced,triangles,mult"],
    &["check", "--budget", "1", "f"],
    &["check", "--budget=100000", "f"],
    &["check", "f", "--budget", "10000"],
    &[
        "check",
        "--budget=7",
        "--tests=handshake,induced,triangles,mult",
        "f",
    ],
    &[
        "check",
        "--tests",
        "handshake,induced,triangles,mult",
        "f",
        "--budget",
        "7",
    ],
    &["check", "f", "--budget=7", "--"],
    &["check", "--budget", "7", "--", "f"],
];

#[test]
fn options_in_any_order(rt: HostRuntime) -> Result<(), Fail> {
    for words in SAME {
        let (answer, sink) = run_on(rt.alloc(), words, b"{3,2;1,1}\n", (&[], &[]))?;
        assert_eq!(rt; answer, Status::Survivor, "{words:?}");
        assert_eq!(rt; sink.written(), PETERSEN.as_bytes(), "{words:?}");
    }
    Ok(())
}

/// Each with the tests that are selected, its status and its report.
const JSON: [(&str, &str, Status, &str); 6] = [
    (
        "handshake,induced,triangles,mult",
        "{3,3;1,1}\n",
        Status::Infeasible,
        r#"{"array":{"b":[3,3],"c":[1,1]},"claim":"degree 1","class":"counting","derivation":["drg 1","array 2 3 3 1 1","claim degree 1","end"],"pending":[],"verdict":"infeasible"}"#,
    ),
    // 7·3 is odd.
    (
        "handshake",
        " {3, 2; 1, 2}\r\n",
        Status::Infeasible,
        r#"{"array":{"b":[3,2],"c":[1,2]},"claim":"handshake 1","class":"counting","derivation":["drg 1","array 2 3 2 1 2","claim handshake 1","k 1 3 3","end"],"pending":[],"verdict":"infeasible"}"#,
    ),
    (
        "none",
        "{3,2;1,2}\n",
        Status::Survivor,
        r#"{"array":{"b":[3,2],"c":[1,2]},"n":"7","passed":["first","degree","order","cross","size","intersect"],"ppoly":[[1,2],[2,1]],"sizes":["1","3","3"],"verdict":"survivor"}"#,
    ),
    // The Petersen graph.
    (
        "mult",
        "{3,2;1,1}\n",
        Status::Survivor,
        r#"{"array":{"b":[3,2],"c":[1,1]},"dual":[["1","5","4"],["1","5/3","-8/3"],["1","-5/3","2/3"]],"eigen":[["1","3","6"],["1","1","-2"],["1","-2","1"]],"n":"10","passed":["first","degree","order","cross","size","intersect","mult"],"ppoly":[[1,2],[2,1]],"root":"0","sizes":["1","3","6"],"theta":["3","1","-2"],"verdict":"survivor"}"#,
    ),
    // The heptagon: the eigenvalues other than 2 are roots of x³ + x² - 2x - 1.
    (
        "mult",
        "{2,1,1;1,1,1}\n",
        Status::RefusedSpectrum,
        r#"{"array":{"b":[2,1,1],"c":[1,1,1]},"factors":[["-2","1"]],"passed":["first","degree","order","cross","size","intersect"],"pending":["mult spectrum"],"rest":["-1","-2","1","1"],"verdict":"refused-spectrum"}"#,
    ),
    // k_10 = 4095·4094^9 is below 2^120, and the product of k_10 and b_10 is above 2^127.
    (
        "none",
        "{4095,4094,4094,4094,4094,4094,4094,4094,4094,4094,4094,4094;1,1,1,1,1,1,1,1,1,1,1,1}\n",
        Status::Undecided,
        r#"{"array":{"b":[4095,4094,4094,4094,4094,4094,4094,4094,4094,4094,4094,4094],"c":[1,1,1,1,1,1,1,1,1,1,1,1]},"passed":["first","degree","order","cross"],"pending":["size wide k 11"],"verdict":"undecided"}"#,
    ),
];

#[test]
fn json_reports(rt: HostRuntime) -> Result<(), Fail> {
    for (list, content, status, text) in JSON {
        let words = ["check", "f", "--tests", list, "--json"];
        let (answer, sink) = run_on(rt.alloc(), &words, content.as_bytes(), (&[], &[]))?;
        assert_eq!(rt; answer, status, "{content:?}");
        let Some((last, line)) = sink.written().split_last() else {
            return Err("nothing".into());
        };
        assert_eq!(rt; line, text.as_bytes(), "{content:?}");
        assert_eq!(rt; *last, b'\n', "{content:?}");
    }
    Ok(())
}

#[test]
fn json_refusals(rt: HostRuntime) -> Result<(), Fail> {
    let alloc = rt.alloc();
    let words = ["check", "--json", "f"];
    let (answer, sink) = run_on(alloc, &words, b"{3,2;1}\n", (&[], &[]))?;
    assert_eq!(rt; answer, Status::BadInput { line: 1, at: 7 });
    assert!(rt; sink.written().is_empty());
    let (answer, sink) = run_on(alloc, &words, b"{3,2;1,1}\n", (&[2], &[]))?;
    assert_eq!(rt; answer, Status::ReadFault);
    assert!(rt; sink.written().is_empty());
    let (answer, sink) = run_on(alloc, &words, b"{3,2;1,1}\n", (&[], &[2]))?;
    assert_eq!(rt; answer, Status::WriteFault);
    assert_eq!(rt; sink.written(), r#"{"array":{"b":[3"#.as_bytes());
    Ok(())
}

/// Words of commands on a file that isn't there.
const MISSING: [&[&str]; 10] = [
    &["check", "-"],
    &["check", ""],
    &["check", "check"],
    &["check", "a=b"],
    &["check", "--", "--json"],
    &["check", "--", "--"],
    &["replay", "-"],
    &["graph", "--", "-f"],
    &["classical", "--", "--tests"],
    &["replay", "F"],
];

#[test]
fn files_of_odd_names(rt: HostRuntime) -> Result<(), Fail> {
    for words in MISSING {
        let (answer, sink) = run_on(rt.alloc(), words, b"{3,2;1,1}\n", (&[], &[]))?;
        assert_eq!(rt; answer, Status::OpenFault, "{words:?}");
        assert!(rt; sink.written().is_empty(), "{words:?}");
    }
    Ok(())
}
