//! Censuses and classical parameters from the literature and from a program that shares no code with
//! this one (`tools/census.py`).

ghost use Rattle.std.specs.Prelude.{◌≤◌};
ghost use Rattle.drg_census.specs.Census.{IsWithinLimits};

use crate::{ClassicalRow, census, classical};
use drg_array::Array;
use std::alloc::Global;
use std::process::Abort;
use std::test::Fail;

/// The census has these texts, each with a line end.
fn expect(
    rt: &impl Abort,
    alloc: Global,
    d: u8,
    k: u16,
    n: u32,
    expected: &[u8],
) -> Result<(), Fail>
    requires { IsWithinLimits d k n }
{
    let mut text = Vec::new(alloc);
    for array in &census(alloc, d, k, n)? {
        array.write_text(&mut text)?;
        text.push(b'\n')?;
    }
    assert_eq!(rt; text.as_slice(), expected);
    Ok(())
}

/// The Petersen graph; the Clebsch graph, beside which `{5,2;1,1}` fails triangles; none, as the test
/// handshake asks for `2 n`; the complete graph; and nothing but what the order allows.
#[test]
fn worked(rt: HostRuntime) -> Result<(), Fail> {
    let alloc = rt.alloc();
    expect(&rt, alloc, 2, 3, 10, b"{3,2;1,1}\n")?;
    expect(&rt, alloc, 2, 5, 16, b"{5,4;1,2}\n")?;
    expect(&rt, alloc, 2, 3, 8, b"")?;
    expect(&rt, alloc, 1, 3, 4, b"{3;1}\n")?;
    expect(&rt, alloc, 1, 3, 5, b"")
}

/// Some arrays have a_1 above 0, and some c_d = k. They ascend by b, then by c.
#[test]
fn several_arrays(rt: HostRuntime) -> Result<(), Fail> {
    let alloc = rt.alloc();
    let nine = b"{4,1;1,1}\n{4,2;1,2}\n{4,3;1,3}\n";
    expect(&rt, alloc, 2, 4, 9, nine)?;
    expect(&rt, alloc, 3, 5, 12, b"{5,2,1;1,2,5}\n{5,4,1;1,4,5}\n")?;
    expect(&rt, alloc, 3, 12, 35, b"{12,4,3;1,3,8}\n{12,6,2;1,4,9}\n")?;
    expect(&rt, alloc, 4, 3, 14, b"{3,2,1,1;1,1,2,3}\n")?;
    expect(&rt, alloc, 4, 4, 16, b"{4,3,2,1;1,2,3,4}\n")
}

/// The greatest one that is tested.
#[test]
fn four_hundred_vertices(rt: HostRuntime) -> Result<(), Fail> {
    expect(&rt, rt.alloc(), 4, 20, 400, b"{20,19,18,1;1,2,19,20}\n")
}

/// How many arrays of diameter d and valency k there are, with up to 200 vertices.
fn count_of(alloc: Global, d: u8, k: u16) -> Result<usize, Fail>
    requires d { (1 ≤ d) × (d ≤ 4) }
    requires k { (1 ≤ k) × (k ≤ 32) }
{
    let mut count: usize = 0;
    for n in 2..201 {
        count = count.saturating_add(census(alloc, d, k, n)?.len());
    }
    Ok(count)
}

/// All arrays of diameter up to 3 and valency up to 6, counted by a plain filter. They have at most 187
/// vertices.
#[test]
fn all_small_arrays(rt: HostRuntime) -> Result<(), Fail> {
    let alloc = rt.alloc();
    let counts: [(u16, usize, usize, usize); 6] = [
        (1, 1, 0, 0),
        (2, 1, 2, 2),
        (3, 1, 2, 6),
        (4, 1, 7, 18),
        (5, 1, 3, 19),
        (6, 1, 21, 84),
    ];
    for (k, one, two, three) in counts {
        if 1 <= k && k <= 32 {
            assert_eq!(rt; count_of(alloc, 1, k)?, one);
            assert_eq!(rt; count_of(alloc, 2, k)?, two);
            assert_eq!(rt; count_of(alloc, 3, k)?, three);
        }
    }
    Ok(())
}

/// The rows of an array, each as `b alpha beta`, or `wide b`.
fn expect_rows(rt: &impl Abort, alloc: Global, text: &[u8], expected: &[u8]) -> Result<(), Fail> {
    let array = Array::read(text)?;
    let mut out = Vec::new(alloc);
    if array.d() < 2 {
        return Ok(());
    }
    for row in &classical(alloc, &array)? {
        match row {
            ClassicalRow::Holds { b, alpha, beta } => {
                out.extend_from_slice(format!(in alloc; "{b} ")?.as_bytes())?;
                alpha.write_text(&mut out)?;
                out.push(b' ')?;
                beta.write_text(&mut out)?;
                out.push(b'\n')?;
            }
            ClassicalRow::Wide { b } => {
                out.extend_from_slice(format!(in alloc; "wide {b}\n")?.as_bytes())?;
            }
        }
    }
    assert_eq!(rt; out.as_slice(), expected);
    Ok(())
}

/// The Petersen graph has two pairs, one of them not whole; the pentagon and the icosahedron have none.
#[test]
fn two_pairs_or_none(rt: HostRuntime) -> Result<(), Fail> {
    let alloc = rt.alloc();
    expect_rows(&rt, alloc, b"{3,2;1,1}", b"-2 -2 -3\n1 -1/2 3/2\n")?;
    expect_rows(&rt, alloc, b"{2,1;1,1}", b"")?;
    expect_rows(&rt, alloc, b"{5,2,1;1,2,5}", b"")
}

/// The cube, the Hamming graph H(3,4), the Johnson graph J(7,3), the Grassmann graph of lines in a
/// four-space over two elements, and a dual polar graph over two elements (Brouwer, Cohen and Neumaier
/// 1989, section 6.1). Where only c_1 to c_(d-1) agree, there is no row.
#[test]
fn families(rt: HostRuntime) -> Result<(), Fail> {
    let alloc = rt.alloc();
    expect_rows(&rt, alloc, b"{3,2,1;1,2,3}", b"1 0 1\n")?;
    expect_rows(&rt, alloc, b"{9,6,3;1,2,3}", b"1 0 3\n")?;
    expect_rows(&rt, alloc, b"{12,6,2;1,4,9}", b"1 1 4\n")?;
    expect_rows(&rt, alloc, b"{18,8;1,9}", b"-4 -4 -6\n2 2 6\n")?;
    expect_rows(&rt, alloc, b"{14,12,8;1,3,7}", b"2 0 2\n")?;
    expect_rows(&rt, alloc, b"{10,6,4;1,2,5}", b"")
}
