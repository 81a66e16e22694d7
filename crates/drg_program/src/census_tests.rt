//! Censuses and classical parameters, as a run tells them.
use crate::Status;
use crate::tests::run_on;
use std::test::Fail;

/// Diameter, valency and number of vertices of each census, with its arrays.
const CENSUSES: [([&str; 3], &str); 8] = [
    // The complete graph K4.
    (["1", "3", "4"], "{3;1}\n"),
    // The Petersen graph.
    (["2", "3", "10"], "{3,2;1,1}\n"),
    // The Clebsch graph, beside which {5,2;1,1} fails triangles.
    (["2", "5", "16"], "{5,4;1,2}\n"),
    // Four vertices at distance 2 would need 3·b_1 = 4·c_2, where b_1 is at most 2.
    (["2", "3", "8"], ""),
    // The second is that of the 3x3 rook graph.
    (["2", "4", "9"], "{4,1;1,1}\n{4,2;1,2}\n{4,3;1,3}\n"),
    // The last one is the Johnson graph J(7,3).
    (["3", "12", "35"], "{12,4,3;1,3,8}\n{12,6,2;1,4,9}\n"),
    // The 4-cube.
    (["4", "4", "16"], "{4,3,2,1;1,2,3,4}\n"),
    // Where a vertex has one neighbour, none is at distance 2.
    (["4", "1", "2000"], ""),
];

#[test]
fn censuses(rt: HostRuntime) -> Result<(), Fail> {
    let alloc = rt.alloc();
    for ([d, k, n], written) in CENSUSES {
        let words = ["census", d, k, n];
        // Each call of the inputs would fail: no file is opened.
        let (answer, sink) = run_on(alloc, &words, b"", (&[1, 2], &[]))?;
        assert_eq!(rt; answer, Status::Done, "{words:?}");
        assert_eq!(rt; sink.written(), written.as_bytes(), "{words:?}");
    }
    let words = ["census", "2", "4", "9"];
    let (answer, sink) = run_on(alloc, &words, b"", (&[], &[2]))?;
    assert_eq!(rt; answer, Status::WriteFault);
    assert_eq!(rt; sink.written(), "{4,1;1,1}\n{4,2;1".as_bytes());
    Ok(())
}

#[test]
fn words_of_no_census(rt: HostRuntime) -> Result<(), Fail> {
    let cases: [&[&str]; 18] = [
        &["census"],
        &["census", "2"],
        &["census", "2", "3"],
        &["census", "2", "3", "10", "f"],
        &["Census", "2", "3", "10"],
        &["census", "0", "3", "10"],
        &["census", "5", "3", "10"],
        &["census", "258", "3", "10"],
        &["census", "2", "0", "10"],
        &["census", "2", "33", "10"],
        &["census", "2", "3", "1"],
        &["census", "2", "3", "2001"],
        &["census", "2", "3", "65546"],
        &["census", "02", "3", "10"],
        &["census", "2", "+3", "10"],
        &["census", "2", "3", "-10"],
        &["census", "2", "", "10"],
        &["census", "2", "3", "10 "],
    ];
    for words in cases {
        let (answer, sink) = run_on(rt.alloc(), words, b"", (&[], &[]))?;
        assert_eq!(rt; answer, Status::Usage, "{words:?}");
        assert!(rt; sink.written().is_empty(), "{words:?}");
    }
    Ok(())
}

/// Each with its status and its rows (Brouwer, Cohen and Neumaier 1989, section 6.1).
const CLASSICAL: [(&str, Status, &str); 11] = [
    (
        "{3,2;1,1}\n",
        Status::Done,
        "classical -2 -2 -3\nclassical 1 -1/2 3/2\n",
    ),
    // The cube.
    (" {3, 2, 1; 1, 2, 3}\r\n", Status::Done, "classical 1 0 1\n"),
    // The Johnson graph J(7,3).
    ("{12,6,2;1,4,9}\n", Status::Done, "classical 1 1 4\n"),
    // The Grassmann graph of the lines in a four-space over two elements.
    (
        "{18,8;1,9}\n",
        Status::Done,
        "classical -4 -4 -6\nclassical 2 2 6\n",
    ),
    // The pentagon.
    ("{2,1;1,1}\n", Status::Done, ""),
    // The Johnson graph J(7,3) with another c_3.
    ("{12,6,2;1,4,8}\n", Status::Done, ""),
    ("{3;1}", Status::Done, "diameter 1\n"),
    ("{3;2}\n", Status::Done, "diameter 1\n"),
    ("{3,2;1}\n", Status::BadInput { line: 1, at: 7 }, ""),
    ("{3,2;1,1}\n\n", Status::BadInput { line: 1, at: 10 }, ""),
    ("", Status::BadInput { line: 1, at: 1 }, ""),
];

#[test]
fn classical_parameters(rt: HostRuntime) -> Result<(), Fail> {
    for (content, status, written) in CLASSICAL {
        let words = ["classical", "f"];
        let (answer, sink) = run_on(rt.alloc(), &words, content.as_bytes(), (&[], &[]))?;
        assert_eq!(rt; answer, status, "{content:?}");
        assert_eq!(rt; sink.written(), written.as_bytes(), "{content:?}");
    }
    Ok(())
}
