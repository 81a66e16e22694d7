//! Lists of edges, with answers by hand and from the literature.
use crate::Status;
use crate::tests::run_on;
use std::alloc::Global;
use std::test::Fail;

/// Each list of edges with its status and its answer.
const ANSWERED: [(&str, Status, &str); 21] = [
    // The pentagon.
    (
        "graph 5\n0 1\n1 2\n2 3\n3 4\n0 4\n",
        Status::Accepted,
        "array {2,1;1,1}\n",
    ),
    // The octahedron: all pairs but 0 1, 2 3 and 4 5.
    (
        "graph 6\n0 2\n0 3\n0 4\n0 5\n1 2\n1 3\n1 4\n1 5\n2 4\n2 5\n3 4\n3 5\n",
        Status::Accepted,
        "array {4,1;1,4}\n",
    ),
    (
        "graph 2\r\n0 1\r\n1 0\r\n0 1",
        Status::Accepted,
        "array {1;1}\n",
    ),
    (
        "graph 3\n0 1\n1 2\n",
        Status::Rejected,
        "differ 0 1 1 0 1 up 1 0\n",
    ),
    ("graph 2\n", Status::Rejected, "apart 0 1\n"),
    ("graph 1\n", Status::Rejected, "single\n"),
    // The prism over a triangle, where each vertex has three neighbours.
    (
        "graph 6\n0 1\n1 2\n2 0\n3 4\n4 5\n5 3\n0 3\n1 4\n2 5\n",
        Status::Rejected,
        "differ 0 1 0 3 1 up 1 2\n",
    ),
    // The prism over a pentagon.
    (
        "graph 10\n0 1\n1 2\n2 3\n3 4\n4 0\n5 6\n6 7\n7 8\n8 9\n9 5\n0 5\n1 6\n2 7\n3 8\n4 9\n",
        Status::Rejected,
        "differ 0 2 0 6 2 down 1 2\n",
    ),
    // Two triangles.
    (
        "graph 6\n0 1\n1 2\n2 0\n3 4\n4 5\n5 3\n",
        Status::Rejected,
        "apart 0 3\n",
    ),
    ("graph 2000", Status::Rejected, "apart 0 1\n"),
    ("graph 3\n1 1\n", Status::BadInput { line: 2, at: 0 }, ""),
    ("", Status::BadInput { line: 1, at: 0 }, ""),
    ("graph 0\n", Status::BadInput { line: 1, at: 0 }, ""),
    ("graph 2001\n", Status::BadInput { line: 1, at: 0 }, ""),
    ("graph 05\n", Status::BadInput { line: 1, at: 0 }, ""),
    ("graph 3\n0 3\n", Status::BadInput { line: 2, at: 0 }, ""),
    ("graph 3\n0  1\n", Status::BadInput { line: 2, at: 0 }, ""),
    ("graph 3\n0 1\n\n", Status::BadInput { line: 3, at: 0 }, ""),
    (
        "graph 3\r\n0 1\r\n1 2\r",
        Status::BadInput { line: 3, at: 0 },
        "",
    ),
    (
        "graph 3\n0 1\n1 2\n2 x\n0 0\n",
        Status::BadInput { line: 4, at: 0 },
        "",
    ),
    ("{2,1;1,1}\n", Status::BadInput { line: 1, at: 0 }, ""),
];

/// The edges of a ring.
fn ring(alloc: Global, count: u16) -> Result<String, Fail> {
    let mut text = format!(in alloc; "graph {count}\n")?;
    for x in 0..count {
        write!(text, "{x} {}\n", (x + 1) % count)?;
    }
    Ok(text)
}

#[test]
fn answered_graphs(rt: HostRuntime) -> Result<(), Fail> {
    let alloc = rt.alloc();
    for (content, status, written) in ANSWERED {
        let (answer, sink) = run_on(alloc, &["graph", "f"], content.as_bytes(), (&[], &[]))?;
        assert_eq!(rt; answer, status, "{content:?}");
        assert_eq!(rt; sink.written(), written.as_bytes(), "{content:?}");
    }
    let array = "array {2,1,1,1,1,1,1,1,1,1,1,1;1,1,1,1,1,1,1,1,1,1,1,1}\n";
    let rings = [
        (25, Status::Accepted, array),
        (26, Status::Rejected, "far 0 13\n"),
        (2000, Status::Rejected, "far 0 13\n"),
    ];
    for (count, status, written) in rings {
        let content = ring(alloc, count)?;
        let (answer, sink) = run_on(alloc, &["graph", "f"], content.as_bytes(), (&[], &[]))?;
        assert_eq!(rt; answer, status, "{count}");
        assert_eq!(rt; sink.written(), written.as_bytes(), "{count}");
    }
    Ok(())
}
