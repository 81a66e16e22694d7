//! Graphs and texts, with answers by hand and from the literature.
use crate::{GraphAnswer, GraphFault, array_of, read_graph};
use drg_array::Array;
use std::alloc::Global;
use std::process::Abort;
use std::test::Fail;

/// The Petersen graph.
const PETERSEN: &str =
    "graph 10\n0 1\n1 2\n2 3\n3 4\n4 0\n0 5\n1 6\n2 7\n3 8\n4 9\n5 7\n6 8\n7 9\n8 5\n9 6\n";

/// The heptagon.
const HEPTAGON: &str = "graph 7\n0 1\n1 2\n2 3\n3 4\n4 5\n5 6\n6 0\n";

/// The cube.
const CUBE: &str = "graph 8\n0 1\n2 3\n4 5\n6 7\n0 2\n1 3\n4 6\n5 7\n0 4\n1 5\n2 6\n3 7\n";

/// The octahedron: all pairs but 0 1, 2 3 and 4 5.
const OCTAHEDRON: &str = "graph 6\n0 2\n0 3\n0 4\n0 5\n1 2\n1 3\n1 4\n1 5\n2 4\n2 5\n3 4\n3 5\n";

/// The complete graph on four vertices.
const COMPLETE: &str = "graph 4\n0 1\n0 2\n0 3\n1 2\n1 3\n2 3\n";

/// The icosahedron: two ends, and two rings of five between.
const ICOSAHEDRON: &str =
    "graph 12\n0 1\n0 2\n0 3\n0 4\n0 5\n1 2\n2 3\n3 4\n4 5\n5 1\n1 6\n2 7\n3 8\n4 9\n5 10\n\
1 7\n2 8\n3 9\n4 10\n5 6\n6 7\n7 8\n8 9\n9 10\n10 6\n11 6\n11 7\n11 8\n11 9\n11 10\n";

/// The Shrikhande graph: the torus of 4 times 4, with steps (0,1), (1,0) and (1,1).
const SHRIKHANDE: &str =
    "graph 16\n0 1\n0 3\n0 4\n0 5\n0 12\n0 15\n1 2\n1 5\n1 6\n1 12\n1 13\n2 3\n2 6\n2 7\n\
2 13\n2 14\n3 4\n3 7\n3 14\n3 15\n4 5\n4 7\n4 8\n4 9\n5 6\n5 9\n5 10\n6 7\n6 10\n\
6 11\n7 8\n7 11\n8 9\n8 11\n8 12\n8 13\n9 10\n9 13\n9 14\n10 11\n10 14\n10 15\n11 12\n\
11 15\n12 13\n12 15\n13 14\n14 15\n";

/// The moves of a rook on a board of 4 times 4.
const ROOK: &str =
    "graph 16\n0 1\n0 2\n0 3\n0 4\n0 8\n0 12\n1 2\n1 3\n1 5\n1 9\n1 13\n2 3\n2 6\n2 10\n\
2 14\n3 7\n3 11\n3 15\n4 5\n4 6\n4 7\n4 8\n4 12\n5 6\n5 7\n5 9\n5 13\n6 7\n6 10\n\
6 14\n7 11\n7 15\n8 9\n8 10\n8 11\n8 12\n9 10\n9 11\n9 13\n10 11\n10 14\n11 15\n\
12 13\n12 14\n12 15\n13 14\n13 15\n14 15\n";

/// The Coxeter graph: the 28 triples of seven points that are no lines of a plane, joined where
/// they are disjoint.
const COXETER: &str =
    "graph 28\n0 25\n0 26\n0 27\n1 21\n1 24\n1 26\n2 20\n2 21\n2 23\n3 20\n3 22\n3 25\n\
4 18\n4 19\n4 27\n5 16\n5 17\n5 26\n6 15\n6 17\n6 19\n7 13\n7 14\n7 24\n8 14\n8 19\n\
8 23\n9 13\n9 18\n9 22\n10 12\n10 13\n10 16\n11 12\n11 15\n11 20\n12 27\n14 25\n\
15 24\n16 23\n17 22\n18 21\n";

/// The prism over a triangle.
const PRISM: &str = "graph 6\n0 1\n1 2\n2 0\n3 4\n4 5\n5 3\n0 3\n1 4\n2 5\n";

/// The prism over a pentagon.
const PENTAGON_PRISM: &str =
    "graph 10\n0 1\n1 2\n2 3\n3 4\n4 0\n5 6\n6 7\n7 8\n8 9\n9 5\n0 5\n1 6\n2 7\n3 8\n4 9\n";

/// The complete graph on four vertices less the edge 0 1.
const DIAMOND: &str = "graph 4\n0 2\n0 3\n1 2\n1 3\n2 3\n";

/// Two triangles.
const TRIANGLES: &str = "graph 6\n0 1\n1 2\n2 0\n3 4\n4 5\n5 3\n";

/// The answer on the graph of a text.
fn answer(alloc: Global, text: &[u8]) -> Result<GraphAnswer, Fail> {
    let graph = read_graph(alloc, text)?;
    Ok(array_of(alloc, &graph)?)
}

/// The line that is refused, 0 where none is.
fn refused(alloc: Global, text: &[u8]) -> u64 {
    match read_graph(alloc, text) {
        Err(GraphFault::Bad { line }) => line,
        _ => 0,
    }
}

/// The text of a ring.
fn ring(alloc: Global, count: u16) -> Result<String, Fail> {
    let mut text = format!(in alloc; "graph {count}")?;
    for x in 0..count {
        write!(text, "\n{x} {}", (x + 1) % count)?;
    }
    Ok(text)
}

/// The text of the complete bipartite graph with a thousand vertices on each side.
fn bipartite(alloc: Global) -> Result<String, Fail> {
    let mut text = format!(in alloc; "graph 2000")?;
    for x in 0..1000 {
        for y in 1000..2000 {
            write!(text, "\n{x} {y}")?;
        }
    }
    Ok(text)
}

#[test]
fn graphs_with_an_array(rt: HostRuntime) -> Result<(), Fail> {
    let cases: [(&str, &str); 14] = [
        (PETERSEN, "{3,2;1,1}"),
        (HEPTAGON, "{2,1,1;1,1,1}"),
        (CUBE, "{3,2,1;1,2,3}"),
        (OCTAHEDRON, "{4,1;1,4}"),
        (COMPLETE, "{3;1}"),
        (ICOSAHEDRON, "{5,2,1;1,2,5}"),
        (SHRIKHANDE, "{6,3;1,2}"),
        (ROOK, "{6,3;1,2}"),
        (COXETER, "{3,2,2,1;1,1,1,2}"),
        ("graph 5\n0 1\n1 2\n2 3\n3 4\n0 4", "{2,1;1,1}"),
        ("graph 2\n1 0", "{1;1}"),
        ("graph 2\r\n0 1\r\n1 0\r\n0 1\r\n", "{1;1}"),
        ("graph 3\r\n0 1\n0 2\r\n2 1\n0 1", "{2;1}"),
        ("graph 4\n0 3\n2 1\n3 2\n0 1\n3 0\n", "{2,1;1,2}"),
    ];
    for (text, array) in cases {
        let found = answer(rt.alloc(), text.as_bytes())?;
        let wanted = GraphAnswer::Array(Array::read(array.as_bytes())?);
        assert_eq!(rt; found, wanted, "{array}");
    }
    Ok(())
}

#[test]
fn graphs_without_an_array(rt: HostRuntime) -> Result<(), Fail> {
    let cases: [(&str, GraphAnswer); 10] = [
        ("graph 1\n", GraphAnswer::Single),
        ("graph 2\n", GraphAnswer::Apart { x: 0, y: 1 }),
        (TRIANGLES, GraphAnswer::Apart { x: 0, y: 3 }),
        ("graph 4\n0 3\n3 1", GraphAnswer::Apart { x: 0, y: 2 }),
        ("graph 2000", GraphAnswer::Apart { x: 0, y: 1 }),
        ("graph 3\n0 1\n1 2\n", differ([0, 1, 1, 0], 1, true, [1, 0])),
        (
            "graph 4\n0 1\n0 2\n0 3\n",
            differ([0, 1, 1, 0], 1, true, [0, 2]),
        ),
        (PRISM, differ([0, 1, 0, 3], 1, true, [1, 2])),
        (PENTAGON_PRISM, differ([0, 2, 0, 6], 2, false, [1, 2])),
        (DIAMOND, differ([0, 2, 2, 0], 1, true, [1, 0])),
    ];
    for (text, wanted) in &cases {
        let found = answer(rt.alloc(), text.as_bytes())?;
        assert_eq!(rt; found, *wanted, "{text}");
    }
    Ok(())
}

/// The answer on two pairs, the reference before the other.
fn differ(pairs: [u32; 4], distance: u32, up: bool, counts: [u32; 2]) -> GraphAnswer {
    GraphAnswer::Differ {
        x: pairs[0],
        y: pairs[1],
        x2: pairs[2],
        y2: pairs[3],
        distance,
        up,
        first: counts[0],
        second: counts[1],
    }
}

#[test]
fn rings_up_to_the_greatest_diameter(rt: HostRuntime) -> Result<(), Fail> {
    let found = answer(rt.alloc(), ring(rt.alloc(), 25)?.as_bytes())?;
    let wanted = Array::read(b"{2,1,1,1,1,1,1,1,1,1,1,1;1,1,1,1,1,1,1,1,1,1,1,1}")?;
    assert_eq!(rt; found, GraphAnswer::Array(wanted));
    for count in [26, 27, 2000] {
        let found = answer(rt.alloc(), ring(rt.alloc(), count)?.as_bytes())?;
        assert_eq!(rt; found, GraphAnswer::Far { x: 0, y: 13 }, "{count}");
    }
    Ok(())
}

#[test]
fn a_million_edges(rt: HostRuntime) -> Result<(), Fail> {
    let found = answer(rt.alloc(), bipartite(rt.alloc())?.as_bytes())?;
    let wanted = Array::read(b"{1000,999;1,1000}")?;
    assert_eq!(rt; found, GraphAnswer::Array(wanted));
    Ok(())
}

#[test]
fn refused_texts(rt: HostRuntime) -> Result<(), Fail> {
    let cases: [(&[u8], u64); 40] = [
        (b"", 1),
        (b"\n", 1),
        (b"graph", 1),
        (b"graph \n", 1),
        (b"graph 0\n", 1),
        (b"graph 2001\n", 1),
        (b"graph 05\n", 1),
        (b"graph +5\n", 1),
        (b"graph -5\n", 1),
        (b"graph  5\n", 1),
        (b"graph 5 \n", 1),
        (b" graph 5\n", 1),
        (b"Graph 5\n", 1),
        (b"graph5\n", 1),
        (b"graph 5\r", 1),
        (b"graph 5\r\r\n", 1),
        (b"\ngraph 5\n", 1),
        (b"graph 65537\n0 1\n", 1),
        (b"graph 18446744073709551621\n0 1\n", 1),
        (b"\xff\n", 1),
        (b"graph 1\n0 1\n", 2),
        (b"graph 3\n1 1\n", 2),
        (b"graph 3\n0 3\n", 2),
        (b"graph 3\n3 0", 2),
        (b"graph 3\n0 65537\n", 2),
        (b"graph 3\n0  1\n", 2),
        (b"graph 3\n 0 1\n", 2),
        (b"graph 3\n0 1 \n", 2),
        (b"graph 3\n0 1 2\n", 2),
        (b"graph 3\n0\n", 2),
        (b"graph 3\n0 \n", 2),
        (b"graph 3\n00 1\n", 2),
        (b"graph 3\n0 01\n", 2),
        (b"graph 3\n0 +1\n", 2),
        (b"graph 3\n0\t1\n", 2),
        (b"graph 3\n0 \xff\n", 2),
        (b"graph 3\n\n0 1\n", 2),
        (b"graph 3\n0 1\n\n", 3),
        (b"graph 3\n0 1\n1 2\r", 3),
        (b"graph 3\r\n0 1\r\n1 2\n2 x\n0 0\n", 4),
    ];
    for (text, line) in cases {
        assert_eq!(rt; refused(rt.alloc(), text), line, "{text:?}");
    }
    Ok(())
}
