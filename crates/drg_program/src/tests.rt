use crate::{Status, run};
use drg_outside::{MemInputs, MemSink};
use std::alloc::Global;
use std::test::Fail;

/// Room of each test's sink.
const ROOM: usize = 1000;

/// The report of the Petersen graph's array.
pub const PETERSEN: &str =
    "verdict survivor\narray {3,2;1,1}\npassed first degree order cross size intersect handshake induced triangles mult\nn 10\nsizes 1 3 6\nroot 0\ntheta 3 1 -2\nP 1 3 6\nP 1 1 -2\nP 1 -2 1\nQ 1 5 4\nQ 1 5/3 -8/3\nQ 1 -5/3 2/3\nppoly 1 2\nppoly 2 1\n";

/// The report of `{3,2;1,2}`: 7 vertices with 3 neighbours each.
const HANDSHAKE: &str =
    "drg 1\narray 2 3 2 1 2\nclaim handshake 1\nk 1 3 3\nend\nverdict infeasible handshake 1 counting\n";

/// And without the test handshake: 3 vertices at distance 2, each with one neighbour among them.
const INDUCED: &str =
    "drg 1\narray 2 3 2 1 2\nclaim induced 2 1\nk 1 3 3\np 2 1 0 2 1\np 2 2 1 1 1\nend\nverdict infeasible induced 2 1 counting\n";

/// A derivation of degree for `{3,3;1,1}`.
const DEGREE: &str = "drg 1\narray 2 3 3 1 1\nclaim degree 1\nend\n";

/// A derivation of mult for `{4,3;1,1}`.
const MULT: &str =
    "drg 1\narray 2 4 3 1 1\nclaim mult 1\nk 1 4 12\nframe 13\ntheta 0 4 1 0 1\ntheta 1 -1 2 1 2\ntheta 2 -1 2 -1 2\nprow 0 1 1 0 1 4 1 0 1 12 1 0 1\nprow 1 1 1 0 1 -1 2 1 2 -1 2 -1 2\nprow 2 1 1 0 1 -1 2 -1 2 -1 2 1 2\nqrow 0 1 1 0 1 8 1 4 13 8 1 -4 13\nqrow 1 1 1 0 1 -1 2 25 26 -1 2 -25 26\nqrow 2 1 1 0 1 -1 2 -9 26 -1 2 9 26\nend\n";

/// A derivation of krein for `{9,8;1,4}`.
const KREIN: &str =
    "drg 1\narray 2 9 8 1 4\nclaim krein 2 2 2\nk 1 9 18\nframe 0\ntheta 0 9 1\ntheta 1 1 1\ntheta 2 -5 1\nprow 0 1 1 9 1 18 1\nprow 1 1 1 1 1 -2 1\nprow 2 1 1 -5 1 4 1\nqrow 0 1 1 21 1 6 1\nqrow 1 1 1 7 3 -10 3\nqrow 2 1 1 -7 3 4 3\nkrein 2 2 6 1 14 9 -4 9\nend\n";

/// A derivation of triple for `{6,4;1,4}`.
const TRIPLE: &str =
    "drg 1\narray 2 6 4 1 4\nclaim triple 1 1 1\np 1 1 1 1 4\np 1 2 0 4 2\neq 1 1 2\nmiss 0\nend\n";

/// Each with the report and with what the report is replayed as.
const INFEASIBLE: [(&str, &str, &str); 10] = [
    (
        "{3,2;2,1}\n",
        "drg 1\narray 2 3 2 2 1\nclaim first\nend\nverdict infeasible first counting\n",
        "accepted first counting\n",
    ),
    (
        "{3,3;1,1}\n",
        "drg 1\narray 2 3 3 1 1\nclaim degree 1\nend\nverdict infeasible degree 1 counting\n",
        "accepted degree 1 counting\n",
    ),
    (
        "{4,1,2;1,1,1}\n",
        "drg 1\narray 3 4 1 2 1 1 1\nclaim order 1\nend\nverdict infeasible order 1 counting\n",
        "accepted order 1 counting\n",
    ),
    (
        "{6,2,1;1,3,3}\n",
        "drg 1\narray 3 6 2 1 1 3 3\nclaim cross 2 1\nend\nverdict infeasible cross 2 1 counting\n",
        "accepted cross 2 1 counting\n",
    ),
    // 5·4 isn't divisible by 3.
    (
        "{5,4;1,3}\n",
        "drg 1\narray 2 5 4 1 3\nclaim size 2\nk 1 5\nend\nverdict infeasible size 2 counting\n",
        "accepted size 2 counting\n",
    ),
    // 1·2 + 2·2 - 4·1 - 2·2 is negative.
    (
        "{4,1;1,2}\n",
        "drg 1\narray 2 4 1 1 2\nclaim intersect 2 2 2\np 2 1 0 2 2\nend\nverdict infeasible intersect 2 2 2 counting\n",
        "accepted intersect 2 2 2 counting\n",
    ),
    // 7·3 is odd.
    ("{3,2;1,2}\n", HANDSHAKE, "accepted handshake 1 counting\n"),
    // 5·1 is odd.
    (
        "{5,3,1;1,1,1}\n",
        "drg 1\narray 3 5 3 1 1 1 1\nclaim induced 1 1\nk 1 5 15 15\np 1 1 1 1 3 0\nend\nverdict infeasible induced 1 1 counting\n",
        "accepted induced 1 1 counting\n",
    ),
    // 16·5·2 isn't divisible by 6.
    (
        "{5,2;1,1}\n",
        "drg 1\narray 2 5 2 1 1\nclaim triangles 1\nk 1 5 10\np 1 1 1 2 2\nend\nverdict infeasible triangles 1 counting\n",
        "accepted triangles 1 counting\n",
    ),
    // The eigenvalues are 4 and (-1 ± √13)/2.
    (
        "{4,3;1,1}\n",
        "drg 1\narray 2 4 3 1 1\nclaim mult 1\nk 1 4 12\nframe 13\ntheta 0 4 1 0 1\ntheta 1 -1 2 1 2\ntheta 2 -1 2 -1 2\nprow 0 1 1 0 1 4 1 0 1 12 1 0 1\nprow 1 1 1 0 1 -1 2 1 2 -1 2 -1 2\nprow 2 1 1 0 1 -1 2 -1 2 -1 2 1 2\nqrow 0 1 1 0 1 8 1 4 13 8 1 -4 13\nqrow 1 1 1 0 1 -1 2 25 26 -1 2 -25 26\nqrow 2 1 1 0 1 -1 2 -9 26 -1 2 9 26\nend\nverdict infeasible mult 1 spectral\n",
        "accepted mult 1 spectral\n",
    ),
];

/// Each with the tests that are selected, where some are named, and with its status and its report.
const CHECKED: [(&str, &str, Status, &str); 25] = [
    ("", "{3,2;1,1}\r\n", Status::Survivor, PETERSEN),
    ("", " { 3, 2; 1, 1 } \n", Status::Survivor, PETERSEN),
    (
        "",
        "{3;1}",
        Status::Survivor,
        "verdict survivor\narray {3;1}\npassed first degree order cross size intersect handshake induced triangles mult\nn 4\nsizes 1 3\nroot 0\ntheta 3 -1\nP 1 3\nP 1 -1\nQ 1 3\nQ 1 -1\nppoly 1\n",
    ),
    // The pentagon.
    (
        "mult",
        "{2,1;1,1}\n",
        Status::Survivor,
        "verdict survivor\narray {2,1;1,1}\npassed first degree order cross size intersect mult\nn 5\nsizes 1 2 2\nroot 5\ntheta 2 -1/2+1/2r5 -1/2-1/2r5\nP 1 2 2\nP 1 -1/2+1/2r5 -1/2-1/2r5\nP 1 -1/2-1/2r5 -1/2+1/2r5\nQ 1 2 2\nQ 1 -1/2+1/2r5 -1/2-1/2r5\nQ 1 -1/2-1/2r5 -1/2+1/2r5\nppoly 1 2\nppoly 2 1\n",
    ),
    // The heptagon: the eigenvalues other than 2 are roots of x³ + x² - 2x - 1.
    (
        "",
        "{2,1,1;1,1,1}\n",
        Status::RefusedSpectrum,
        "verdict refused-spectrum\narray {2,1,1;1,1,1}\npassed first degree order cross size intersect handshake induced triangles\npending mult spectrum\nfactor -2 1\nrest -1 -2 1 1\n",
    ),
    // A search that tries each factor would take hours.
    (
        "mult",
        "{2001,2000,2000;1,1,2001}\n",
        Status::Survivor,
        "verdict survivor\narray {2001,2000,2000;1,1,2001}\npassed first degree order cross size intersect mult\nn 8004002\nsizes 1 2001 4002000 4000000\nroot 5\ntheta 2001 20r5 -20r5 -2001\nP 1 2001 4002000 4000000\nP 1 20r5 -1 -20r5\nP 1 -20r5 -1 20r5\nP 1 -2001 4002000 -4000000\nQ 1 4002000 4002000 1\nQ 1 40000r5 -40000r5 -1\nQ 1 -1 -1 1\nQ 1 -2001/100r5 2001/100r5 -1\nppoly 1 2 3\nppoly 3 2 1\n",
    ),
    // k_10 = 4095·4094^9 is below 2^120, and the product of k_10 and b_10 is above 2^127.
    (
        "",
        "{4095,4094,4094,4094,4094,4094,4094,4094,4094,4094,4094,4094;1,1,1,1,1,1,1,1,1,1,1,1}\n",
        Status::Undecided,
        "verdict undecided\narray {4095,4094,4094,4094,4094,4094,4094,4094,4094,4094,4094,4094;1,1,1,1,1,1,1,1,1,1,1,1}\npassed first degree order cross\npending size wide k 11\n",
    ),
    (
        "",
        "{3,2;1,1}\n\n",
        Status::BadInput { line: 1, at: 10 },
        "",
    ),
    ("", "{3,2;1,1}\r", Status::BadInput { line: 1, at: 10 }, ""),
    ("", "", Status::BadInput { line: 1, at: 1 }, ""),
    ("", "\n", Status::BadInput { line: 1, at: 1 }, ""),
    ("", "{3,2;1}\n", Status::BadInput { line: 1, at: 7 }, ""),
    ("", "{}\n", Status::BadInput { line: 1, at: 2 }, ""),
    ("", "{3,0;1,1}\n", Status::BadInput { line: 1, at: 4 }, ""),
    ("", "{03,2;1,1}\n", Status::BadInput { line: 1, at: 2 }, ""),
    (
        "",
        "{4096,1;1,1}\n",
        Status::BadInput { line: 1, at: 5 },
        "",
    ),
    // The array {3,2;1,2} fails each of the tests that can be selected.
    (
        "none",
        "{3,2;1,2}\n",
        Status::Survivor,
        "verdict survivor\narray {3,2;1,2}\npassed first degree order cross size intersect\nn 7\nsizes 1 3 3\nppoly 1 2\nppoly 2 1\n",
    ),
    ("handshake", "{3,2;1,2}\n", Status::Infeasible, HANDSHAKE),
    ("induced", "{3,2;1,2}\n", Status::Infeasible, INDUCED),
    (
        "triangles",
        "{3,2;1,2}\n",
        Status::Infeasible,
        "drg 1\narray 2 3 2 1 2\nclaim triangles 2\nk 1 3 3\np 2 1 0 2 1\np 2 2 1 1 1\nend\nverdict infeasible triangles 2 counting\n",
    ),
    (
        "handshake,induced",
        "{3,2;1,2}\n",
        Status::Infeasible,
        HANDSHAKE,
    ),
    (
        "triangles,handshake",
        "{3,2;1,2}\n",
        Status::Infeasible,
        HANDSHAKE,
    ),
    (
        "triangles,induced",
        "{3,2;1,2}\n",
        Status::Infeasible,
        INDUCED,
    ),
    (
        "induced,triangles,handshake",
        "{3,2;1,2}\n",
        Status::Infeasible,
        HANDSHAKE,
    ),
    (
        "handshake",
        "{5,2;1,1}\n",
        Status::Survivor,
        "verdict survivor\narray {5,2;1,1}\npassed first degree order cross size intersect handshake\nn 16\nsizes 1 5 10\nppoly 1 2\nppoly 2 1\n",
    ),
];

/// Each with its status and its answer.
const REPLAYED: [(&str, Status, &str); 19] = [
    (
        "drg 1\narray 2 3 3 1 1\nclaim degree 2\nend\n",
        Status::Rejected,
        "rejected open 4\n",
    ),
    (
        "drg 1\narray 2 3 3 1 1\nclaim degree 3\nend\n",
        Status::Rejected,
        "rejected line 3\n",
    ),
    // Petersen's graph has none of these faults.
    (
        "drg 1\narray 2 3 2 1 1\nclaim first\nend\n",
        Status::Rejected,
        "rejected open 4\n",
    ),
    (
        "drg 1\narray 2 3 2 1 1\nclaim first\nk 1 3 6\nend\n",
        Status::Rejected,
        "rejected open 5\n",
    ),
    (
        "drg 1\narray 2 3 3 1 1\nclaim degree 1\nk 1 3 8\nend\n",
        Status::Rejected,
        "rejected line 4\n",
    ),
    // The double of 2^126 is 2^127.
    (
        "drg 1\narray 2 4 1 2 2\nclaim first\nk 1 85070591730234615865843651857942052864\nend\n",
        Status::Undecided,
        "undecided wide 4\n",
    ),
    (MULT, Status::Accepted, "accepted mult 1 spectral\n"),
    (KREIN, Status::Rejected, "rejected line 3\n"),
    (TRIPLE, Status::Accepted, "accepted triple 1 1 1 counting\n"),
    ("", Status::BadInput { line: 1, at: 0 }, ""),
    ("drg 1", Status::BadInput { line: 1, at: 0 }, ""),
    (
        "drg 2\narray 2 3 3 1 1\nclaim degree 1\nend\n",
        Status::BadInput { line: 1, at: 0 },
        "",
    ),
    (
        "drg 1\r\narray 2 3 3 1 1\r\nclaim degree 1\r\nend\r\n",
        Status::BadInput { line: 1, at: 0 },
        "",
    ),
    (
        "drg 1\narray 2 3 3 1\nclaim degree 1\nend\n",
        Status::BadInput { line: 2, at: 0 },
        "",
    ),
    (
        "drg 1\narray 2 3 3 1 1\nclaim  degree 1\nend\n",
        Status::BadInput { line: 3, at: 0 },
        "",
    ),
    (
        "drg 1\narray 2 3 3 1 1\nclaim degree 1\n",
        Status::BadInput { line: 4, at: 0 },
        "",
    ),
    (
        "drg 1\narray 2 3 3 1 1\nclaim degree 1\nend",
        Status::BadInput { line: 4, at: 0 },
        "",
    ),
    // The text is looked at before the claim, which line 3 doesn't meet.
    (
        "drg 1\narray 2 3 3 1 1\nclaim degree 3\nk 1 3\nk\nend\n",
        Status::BadInput { line: 5, at: 0 },
        "",
    ),
    ("{3,3;1,1}\n", Status::BadInput { line: 1, at: 0 }, ""),
];

/// One run over a file `f`: what it answers, and what it has written.
pub fn run_on(
    alloc: Global,
    words: &[&str],
    content: &[u8],
    fails: (&[u64], &[u64]),
) -> Result<(Status, MemSink), Fail> {
    let mut list = Vec::new(alloc);
    for word in words {
        list.push(word.to_string(alloc)?)?;
    }
    let files = vec![in alloc; ("f".to_string(alloc)?, content.to_vec(alloc)?)]?;
    let mut inputs = MemInputs::new(files, 7, fails.0.to_vec(alloc)?);
    let mut sink = MemSink::new(alloc, ROOM, 16, fails.1.to_vec(alloc)?)?;
    let status = run(alloc, &list, &mut inputs, &mut sink);
    Ok((status, sink))
}

#[test]
fn infeasible_arrays(rt: HostRuntime) -> Result<(), Fail> {
    let alloc = rt.alloc();
    for (content, written, line) in INFEASIBLE {
        let (status, report) = run_on(alloc, &["check", "f"], content.as_bytes(), (&[], &[]))?;
        assert_eq!(rt; status, Status::Infeasible, "{content:?}");
        assert_eq!(rt; report.written(), written.as_bytes(), "{content:?}");
        // The report begins with its derivation.
        let (answer, sink) = run_on(alloc, &["replay", "f"], report.written(), (&[], &[]))?;
        assert_eq!(rt; answer, Status::Accepted, "{content:?}");
        assert_eq!(rt; sink.written(), line.as_bytes(), "{content:?}");
    }
    Ok(())
}

#[test]
fn checked_arrays(rt: HostRuntime) -> Result<(), Fail> {
    for (list, content, status, written) in CHECKED {
        let words = ["check", "--tests", list, "f"];
        let words = if list.is_empty() {
            &["check", "f"]
        } else {
            words.as_slice()
        };
        let (answer, sink) = run_on(rt.alloc(), words, content.as_bytes(), (&[], &[]))?;
        assert_eq!(rt; answer, status, "{list} {content:?}");
        assert_eq!(rt; sink.written(), written.as_bytes(), "{list} {content:?}");
    }
    Ok(())
}

#[test]
fn replayed_texts(rt: HostRuntime) -> Result<(), Fail> {
    let alloc = rt.alloc();
    for (content, status, written) in REPLAYED {
        let (answer, sink) = run_on(alloc, &["replay", "f"], content.as_bytes(), (&[], &[]))?;
        assert_eq!(rt; answer, status, "{content:?}");
        assert_eq!(rt; sink.written(), written.as_bytes(), "{content:?}");
    }
    // What follows a derivation isn't looked at.
    let mut content = DEGREE.as_bytes().to_vec(alloc)?;
    content.extend_from_slice(&[255; 1000])?;
    let (answer, sink) = run_on(alloc, &["replay", "f"], &content, (&[], &[]))?;
    assert_eq!(rt; answer, Status::Accepted);
    assert_eq!(rt; sink.written(), "accepted degree 1 counting\n".as_bytes());
    Ok(())
}

#[test]
fn calls_that_fail(rt: HostRuntime) -> Result<(), Fail> {
    let alloc = rt.alloc();
    let cases: [(&str, &[u64], &[u64], Status, [&str; 4]); 6] = [
        ("f", &[1], &[], Status::OpenFault, [""; 4]),
        ("g", &[], &[], Status::OpenFault, [""; 4]),
        ("f", &[2], &[], Status::ReadFault, [""; 4]),
        ("f", &[3], &[], Status::ReadFault, [""; 4]),
        ("f", &[], &[1], Status::WriteFault, [""; 4]),
        (
            "f",
            &[],
            &[2],
            Status::WriteFault,
            [
                "verdict survivor",
                "accepted degree ",
                "differ 0 1 1 0 1",
                "classical -2 -2 ",
            ],
        ),
    ];
    for (name, inputs, writes, status, written) in cases {
        for (command, content, written) in [
            ("check", "{3,2;1,1}\n", written[0]),
            ("replay", DEGREE, written[1]),
            ("graph", "graph 3\n0 1\n1 2\n", written[2]),
            ("classical", "{3,2;1,1}\n", written[3]),
        ] {
            let words = [command, name];
            let (answer, sink) = run_on(alloc, &words, content.as_bytes(), (inputs, writes))?;
            assert_eq!(rt; answer, status, "{words:?} {inputs:?} {writes:?}");
            assert_eq!(rt;
                sink.written(),
                written.as_bytes(),
                "{words:?} {inputs:?} {writes:?}"
            );
        }
    }
    Ok(())
}

#[test]
fn words_that_are_no_command(rt: HostRuntime) -> Result<(), Fail> {
    let alloc = rt.alloc();
    let cases: [&[&str]; 47] = [
        &[],
        &[""],
        &["--"],
        &["--", "check", "f"],
        &["check"],
        &["chekc", "f"],
        &["Check", "f"],
        &["check", "-x"],
        &["check", "--"],
        &["check", "f", "f"],
        &["check", "-h"],
        &["check", "--help"],
        &["check", "--json"],
        &["check", "--json", "--json", "f"],
        &["check", "--json=x", "f"],
        &["check", "--jso", "f"],
        &["check", "--", "--json", "f"],
        &["check", "--budget", "0", "f"],
        &["check", "--budget", "100001", "f"],
        &["check", "--budget", "01", "f"],
        &["check", "--budget=-1", "f"],
        &["check", "--budget", "f"],
        &["check", "--tests", "handshake"],
        &["check", "--tests", "handshake,handshake", "f"],
        &["check", "--tests", "krein", "f"],
        &["check", "--tests", "", "f"],
        &["check", "--tests=", "f"],
        &["check", "--tests", "first", "f"],
        &["check", "--tests", "none", "--tests", "none", "f"],
        &["check", "--tests", "none", "-f"],
        &["replay"],
        &["replay", "-x"],
        &["replay", "f", "f"],
        &["replay", "--tests", "none", "f"],
        &["replay", "--json", "f"],
        &["Replay", "f"],
        &["graph"],
        &["graph", "-x"],
        &["graph", "f", "f"],
        &["graph", "--tests", "none", "f"],
        &["Graph", "f"],
        &["classical"],
        &["classical", "-x"],
        &["classical", "f", "f"],
        &["classical", "--tests", "none", "f"],
        &["--help"],
        &["f"],
    ];
    for words in cases {
        let (answer, sink) = run_on(alloc, words, b"{3,2;1,1}\n", (&[], &[]))?;
        assert_eq!(rt; answer, Status::Usage, "{words:?}");
        assert!(rt; sink.written().is_empty(), "{words:?}");
    }
    Ok(())
}

/// The status of a command on so many spaces.
fn status_on_spaces(alloc: Global, command: &str, length: usize) -> Result<Status, Fail> {
    let words = vec![in alloc; command.to_string(alloc)?, "f".to_string(alloc)?]?;
    let files = vec![in alloc; ("f".to_string(alloc)?, vec![in alloc; b' '; length]?)]?;
    let mut inputs = MemInputs::new(files, 65_536, Vec::new(alloc));
    let mut sink = MemSink::new(alloc, ROOM, 16, Vec::new(alloc))?;
    Ok(run(alloc, &words, &mut inputs, &mut sink))
}

#[test]
fn inputs_around_the_limit(rt: HostRuntime) -> Result<(), Fail> {
    let at = 67_108_865;
    let cases = [
        ("check", 67_108_864, Status::BadInput { line: 1, at }),
        ("check", 67_108_865, Status::TooLong),
        ("replay", 67_108_865, Status::TooLong),
        ("graph", 67_108_865, Status::TooLong),
        ("classical", 67_108_865, Status::TooLong),
    ];
    for (command, length, status) in cases {
        let answer = status_on_spaces(rt.alloc(), command, length)?;
        assert_eq!(rt; answer, status, "{command} {length}");
    }
    Ok(())
}

#[test]
fn lines_and_exit_numbers(rt: HostRuntime) -> Result<(), Fail> {
    let alloc = rt.alloc();
    let cases = [
        (Status::Survivor, 0, "survivor"),
        (Status::Infeasible, 1, "infeasible"),
        (Status::RefusedSpectrum, 2, "refused-spectrum"),
        (Status::Undecided, 3, "undecided"),
        (Status::Accepted, 0, "accepted"),
        (Status::Rejected, 5, "rejected"),
        (Status::Done, 0, "done"),
        (Status::Usage, 64, "usage"),
        (
            Status::BadInput { line: 12, at: 7 },
            65,
            "bad input, line 12, place 7",
        ),
        (Status::TooLong, 66, "input too long"),
        (Status::OpenFault, 67, "cannot open"),
        (Status::ReadFault, 68, "cannot read"),
        (Status::WriteFault, 69, "cannot write"),
        (Status::Memory, 71, "no memory"),
    ];
    for (status, exit, text) in cases {
        assert_eq!(rt; status.exit(), exit, "{text}");
        assert_eq!(rt; status.to_string(alloc)?.as_str(), text);
        assert_eq!(rt; status.is_refusal(), exit >= 64, "{text}");
    }
    Ok(())
}
