//! Derivations on triple intersection numbers, as a run judges them.
use crate::Status;
use crate::tests::run_on;
use std::process::Abort;
use std::test::Fail;

/// The first lines of a derivation on three vertices at distance 1 of each other.
const TRIPLE_HEAD: &str = "drg 1\narray 2 6 4 1 4\nclaim triple 1 1 1\np 1 1 1 1 4\n";

/// What comes after them in place of the lines there, each with its status and its answer.
const TRIPLES: [(&str, Status, &str); 10] = [
    (
        "p 1 2 0 4 2\neq 1 1 2\nend\n",
        Status::Rejected,
        "rejected open 7\n",
    ),
    (
        "p 1 2 0 4 3\neq 1 1 2\nmiss 0\nend\n",
        Status::Rejected,
        "rejected line 5\n",
    ),
    (
        "p 1 2 0 4 2\neq 1 1 2\nmiss 0\n",
        Status::BadInput { line: 8, at: 0 },
        "",
    ),
    (
        "p 1 2 0 4 2\neq 1 1 2\nsplit 1 1 2 0\nmiss 0\nmiss 0\nend\n",
        Status::Accepted,
        "accepted triple 1 1 1 counting\n",
    ),
    (
        "p 1 2 0 4 2\neq 1 1 2\nsplit 1 1 2 0\nmiss 0\nend\n",
        Status::Rejected,
        "rejected open 9\n",
    ),
    (
        "p 1 2 0 4 2\neq 1 1 2\ncomb 1 0 170141183460469231731687303715884105727\nmiss 0\nend\n",
        Status::Undecided,
        "undecided wide 7\n",
    ),
    (
        "p 1 2 0 4 2\neq 1 1 2\nlow 2 1 2 3 0\nvoid 2 1 2\nend\n",
        Status::Accepted,
        "accepted triple 1 1 1 counting\n",
    ),
    (
        "p 1 2 0 4 2\neq 1 1 2\nlow 2 1 2 4 0\nvoid 2 1 2\nend\n",
        Status::Rejected,
        "rejected line 7\n",
    ),
    (
        "p 1 2 0 +4 2\neq 1 1 2\nmiss 0\nend\n",
        Status::BadInput { line: 5, at: 0 },
        "",
    ),
    // What follows the end isn't looked at.
    (
        "p 1 2 0 4 2\neq 1 1 2\nmiss 0\nend\nmiss 0\n",
        Status::Accepted,
        "accepted triple 1 1 1 counting\n",
    ),
];

#[test]
fn replayed_triples(rt: HostRuntime) -> Result<(), Fail> {
    let alloc = rt.alloc();
    for (lines, status, written) in TRIPLES {
        let mut content = TRIPLE_HEAD.as_bytes().to_vec(alloc)?;
        content.extend_from_slice(lines.as_bytes())?;
        let (answer, sink) = run_on(alloc, &["replay", "f"], &content, (&[], &[]))?;
        assert_eq!(rt; answer, status, "{lines:?}");
        assert_eq!(rt; sink.written(), written.as_bytes(), "{lines:?}");
    }
    Ok(())
}
