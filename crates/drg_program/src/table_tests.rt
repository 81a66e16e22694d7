//! Tables and samples, as a run tells them.
use crate::Status;
use crate::tests::run_on;
use std::alloc::{AllocError, Global};
use std::test::Fail;

/// Each table with what is written for it.
const TABLES: [(&str, &str); 12] = [
    // The Petersen graph twice, and an array with a_1 = -1.
    (
        "petersen,\"{3, 2; 1, 1}\"\nbad,\"{3,3;1,1}\"\nagain,\"{3,2;1,1}\"\n",
        "petersen,\"{3,2;1,1}\",survivor\nbad,\"{3,3;1,1}\",infeasible degree 1 counting\nagain,\"{3,2;1,1}\",survivor\n",
    ),
    ("", ""),
    ("\n\r\n", ""),
    // A record ends with LF, CR LF, CR alone or the text.
    (
        "a,{3;1}\r\nb,{4;1}\r\n",
        "a,{3;1},survivor\nb,{4;1},survivor\n",
    ),
    ("a,{3;1}\rb,{4;1}", "a,{3;1},survivor\nb,{4;1},survivor\n"),
    ("\u{feff}a,{3;1}\n", "a,{3;1},survivor\n"),
    // The same row twice.
    ("a,{3;1}\na,{3;1}\n", "a,{3;1},survivor\na,{3;1},survivor\n"),
    // A name has quotes where it needs them, and nothing is taken off.
    (
        "\"say \"\"hi\"\"\",{3;1}\n\"a,b\",{3;1}\n\"a\nb\",{3;1}\n",
        "\"say \"\"hi\"\"\",{3;1},survivor\n\"a,b\",{3;1},survivor\n\"a\nb\",{3;1},survivor\n",
    ),
    (",{3;1}\n", ",{3;1},survivor\n"),
    (" \"a\" , {3;1} \n", "\" \"\"a\"\" \",{3;1},survivor\n"),
    // The arrays of the heptagon, and of one with too many vertices for 128 bits.
    (
        "b,\"{2,1,1;1,1,1}\"\na,\"{4095,4094,4094,4094,4094,4094,4094,4094,4094,4094,4094,4094;1,1,1,1,1,1,1,1,1,1,1,1}\"\n",
        "b,\"{2,1,1;1,1,1}\",refused-spectrum\na,\"{4095,4094,4094,4094,4094,4094,4094,4094,4094,4094,4094,4094;1,1,1,1,1,1,1,1,1,1,1,1}\",undecided\n",
    ),
    // 7·3 is odd, and there is no Moore graph of valency 4.
    (
        "z,\"{3,2;1,2}\"\ny,\"{4,3;1,1}\"\nx,\"{3,2;1,2}\"\nw,\"{4,3;1,1}\"\n",
        "z,\"{3,2;1,2}\",infeasible handshake 1 counting\ny,\"{4,3;1,1}\",infeasible mult 1 spectral\nx,\"{3,2;1,2}\",infeasible handshake 1 counting\nw,\"{4,3;1,1}\",infeasible mult 1 spectral\n",
    ),
];

#[test]
fn tables(rt: HostRuntime) -> Result<(), Fail> {
    for (content, written) in TABLES {
        let (answer, sink) = run_on(rt.alloc(), &["table", "f"], content.as_bytes(), (&[], &[]))?;
        assert_eq!(rt; answer, Status::Done, "{content:?}");
        assert_eq!(rt; sink.written(), written.as_bytes(), "{content:?}");
    }
    Ok(())
}

/// Words on the table of the array `{3,2;1,2}`, with its verdict.
const SELECTED: [(&[&str], &str); 5] = [
    (&["table", "--tests", "none", "f"], "survivor"),
    (
        &["table", "f", "--tests=handshake"],
        "infeasible handshake 1 counting",
    ),
    (
        &["table", "--budget", "1", "--", "f"],
        "infeasible handshake 1 counting",
    ),
    (
        &["table", "--budget=100000", "--tests", "none", "f"],
        "survivor",
    ),
    (
        &["table", "f", "--tests", "mult,handshake", "--budget", "7"],
        "infeasible handshake 1 counting",
    ),
];

#[test]
fn selected_tests(rt: HostRuntime) -> Result<(), Fail> {
    for (words, verdict) in SELECTED {
        let content = b"a,\"{3,2;1,2}\"\n";
        let (answer, sink) = run_on(rt.alloc(), words, content, (&[], &[]))?;
        assert_eq!(rt; answer, Status::Done, "{words:?}");
        let mut record = b"a,\"{3,2;1,2}\",".to_vec(rt.alloc())?;
        record.extend_from_slice(verdict.as_bytes())?;
        record.push(b'\n')?;
        assert_eq!(rt; sink.written(), record.as_slice(), "{words:?}");
    }
    Ok(())
}

/// Each with the number of the first record that is no row, and the place of its fault.
const REFUSED: [(&str, u64, u64); 8] = [
    ("x", 1, 0),
    ("x\n", 1, 0),
    ("a,{3;1},b\n", 1, 0),
    ("a,{3;0}\n", 1, 4),
    // Empty lines are no records, and a record can have several lines.
    ("\n\na,{3;1}\r\n\r\nb,{3;1\n", 2, 5),
    ("\"a\n\n\",{3;1}\nb,\n", 2, 1),
    // A row before it is judged neither.
    ("a,{3;1}\nb,{4;1}\nc\nd\n", 3, 0),
    // A line end is no part of an array.
    ("a,\"{3;1}\n\"\n", 1, 6),
];

#[test]
fn refused_tables(rt: HostRuntime) -> Result<(), Fail> {
    for (content, line, at) in REFUSED {
        let (answer, sink) = run_on(rt.alloc(), &["table", "f"], content.as_bytes(), (&[], &[]))?;
        assert_eq!(rt; answer, Status::BadInput { line, at }, "{content:?}");
        assert!(rt; sink.written().is_empty(), "{content:?}");
    }
    Ok(())
}

#[test]
fn failing_tables(rt: HostRuntime) -> Result<(), Fail> {
    let alloc = rt.alloc();
    let content = b"petersen,\"{3, 2; 1, 1}\"\nagain,\"{3,2;1,1}\"\n";
    let words = ["table", "f"];
    let (answer, sink) = run_on(alloc, &words, content, (&[1], &[]))?;
    assert_eq!(rt; answer, Status::OpenFault);
    assert!(rt; sink.written().is_empty());
    let (answer, sink) = run_on(alloc, &words, content, (&[3], &[]))?;
    assert_eq!(rt; answer, Status::ReadFault);
    assert!(rt; sink.written().is_empty());
    let (answer, sink) = run_on(alloc, &words, content, (&[], &[2]))?;
    assert_eq!(rt; answer, Status::WriteFault);
    assert_eq!(rt; sink.written(), b"petersen,\"{3,2;1".as_slice());
    Ok(())
}

/// The summary of this seed and this count.
fn summary(alloc: Global, seed: &str, count: &str) -> Result<Vec<u8>, Fail> {
    // Each call of the inputs would fail: no file is opened.
    let (answer, sink) = run_on(alloc, &["sample", seed, count], b"", (&[1, 2], &[]))?;
    if answer != Status::Done {
        return Err("not done".into());
    }
    Ok(sink.written().to_vec(alloc)?)
}

/// The summary whose numbers are 0 but for one, that of arrays that fail handshake.
const ONE: &str =
    "sample 1 1\nsurvivor 0\nrefused-spectrum 0\nundecided 0\ninfeasible first 0\ninfeasible degree 0\ninfeasible order 0\ninfeasible cross 0\ninfeasible size 0\ninfeasible intersect 0\ninfeasible handshake 1\ninfeasible induced 0\ninfeasible triangles 0\ninfeasible mult 0\ninfeasible krein 0\ninfeasible absolute 0\ninfeasible triple 0\ninfeasible ktriple 0\n";

/// What tests 1 to 9 say of 200 arrays of seed 7: the lines of a summary from the fifth on.
const COUNTED: &str =
    "\ninfeasible first 0\ninfeasible degree 3\ninfeasible order 0\ninfeasible cross 3\ninfeasible size 52\ninfeasible intersect 11\ninfeasible handshake 24\ninfeasible induced 5\ninfeasible triangles 30\n";

/// The sum of the numbers at the ends of the lines after the first one.
fn sum_of(summary: &str) -> u64 {
    let mut sum: u64 = 0;
    for line in summary.lines().skip(1) {
        if let Some((_, digits)) = line.rsplit_once(' ') {
            if let Ok(number) = digits.parse::<u64>() {
                sum = sum.saturating_add(number);
            }
        }
    }
    sum
}

#[test]
fn samples(rt: HostRuntime) -> Result<(), Fail> {
    let alloc = rt.alloc();
    // The array is {31,30;1,2} with 497 vertices, and 497·31 is odd.
    let one = summary(alloc, "1", "1")?;
    assert_eq!(rt; one.as_slice(), ONE.as_bytes());
    let none = summary(alloc, "0", "0")?;
    assert!(rt; none.starts_with(b"sample 0 0\nsurvivor 0\n"));
    let last = summary(alloc, "2147483647", "3")?;
    assert!(rt; last.starts_with(b"sample 2147483647 3\nsurvivor "));
    Ok(())
}

#[test]
fn samples_are_the_same_at_each_run(rt: HostRuntime) -> Result<(), Fail> {
    let alloc = rt.alloc();
    let first = summary(alloc, "7", "200")?;
    let second = summary(alloc, "7", "200")?;
    assert_eq!(rt; first.as_slice(), second.as_slice());
    let text = str::from_utf8(&first)?;
    assert!(rt; text.starts_with("sample 7 200\nsurvivor "));
    assert!(rt; text.contains(COUNTED));
    assert_eq!(rt; sum_of(text), 200);
    Ok(())
}

#[test]
fn words_of_no_table_and_no_sample(rt: HostRuntime) -> Result<(), Fail> {
    let cases: [&[&str]; 16] = [
        &["table"],
        &["table", "f", "f"],
        &["table", "-f"],
        &["table", "--json", "f"],
        &["table", "--tests", "first", "f"],
        &["table", "--tests=", "f"],
        &["table", "--budget", "0", "f"],
        &["table", "--budget", "1", "--budget", "1", "f"],
        &["Table", "f"],
        &["sample"],
        &["sample", "1"],
        &["sample", "01", "1"],
        &["sample", "2147483648", "1"],
        &["sample", "1", "100001"],
        &["sample", "1", "1", "f"],
        &["sample", "--budget", "1", "1", "1"],
    ];
    for words in cases {
        let (answer, sink) = run_on(rt.alloc(), words, b"a,{3;1}\n", (&[], &[]))?;
        assert_eq!(rt; answer, Status::Usage, "{words:?}");
        assert!(rt; sink.written().is_empty(), "{words:?}");
    }
    Ok(())
}
