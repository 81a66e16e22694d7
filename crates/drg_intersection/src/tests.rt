//! Tables and faults by hand.
use crate::{Numbers, NumbersFault, numbers_of, numbers_or_before};
use drg_array::{Array, Claim, Node};
use std::process::Abort;
use std::test::Fail;

#[test]
fn petersen(rt: HostRuntime) -> Result<(), Fail> {
    let numbers = numbers_of(rt.alloc(), &Array::read(b"{3,2;1,1}")?)?;
    assert_eq!(rt; numbers.d(), 2);
    assert_eq!(rt; numbers.n(), 10);
    assert_eq!(rt; numbers.sizes(), [1, 3, 6].as_slice());
    // The numbers p^h_ij of the Petersen graph, for each h the rows i = 0, 1, 2.
    let table: [[[i128; 3]; 3]; 3] = [
        [[1, 0, 0], [0, 3, 0], [0, 0, 6]],
        [[0, 1, 0], [1, 0, 2], [0, 2, 4]],
        [[0, 0, 1], [0, 1, 2], [1, 2, 3]],
    ];
    for (h, rows) in table.into_iter().enumerate() {
        for (i, row) in rows.into_iter().enumerate() {
            assert_eq!(rt; numbers.row(h, i), row.as_slice(), "{h} {i}");
        }
    }
    Ok(())
}

/// The 12-cube: two words of twelve bits are as far apart as the bits in which they differ.
#[test]
fn cube_of_twelve_bits(rt: HostRuntime) -> Result<(), Fail> {
    let text = b"{12,11,10,9,8,7,6,5,4,3,2,1;1,2,3,4,5,6,7,8,9,10,11,12}";
    let numbers = numbers_of(rt.alloc(), &Array::read(text)?)?;
    assert_eq!(rt; numbers.d(), 12);
    assert_eq!(rt; numbers.n(), 4096);
    // The binomial coefficients of 12.
    let sizes: [i128; 13] = [1, 12, 66, 220, 495, 792, 924, 792, 495, 220, 66, 12, 1];
    assert_eq!(rt; numbers.sizes(), sizes.as_slice());
    // A word at distance i from one and j from the other of two that differ in h bits differs from the
    // first in s = (h+i-j)/2 of these and in t = (i+j-h)/2 of the others: C(h,s)·C(12-h,t).
    let cases: [([usize; 3], i128); 10] = [
        ([0, 6, 6], 924),
        ([12, 5, 7], 792),
        ([12, 12, 0], 1),
        ([6, 6, 6], 400),
        ([4, 5, 3], 112),
        ([4, 5, 4], 0),
        ([2, 1, 1], 2),
        ([8, 2, 2], 0),
        ([8, 6, 4], 224),
        ([11, 6, 6], 0),
    ];
    for ([h, i, j], x) in cases {
        assert_eq!(rt; numbers.p(h, i, j), x, "{h} {i} {j}");
    }
    Ok(())
}

/// The fault of each array, and the end of the sizes and rows before it.
#[test]
fn faults(rt: HostRuntime) -> Result<(), Fail> {
    // 4095·4094^9 is below 2^120, and 4095·4094^10 above 2^131.
    let tenth = 1_323_074_962_456_684_325_913_143_090_760_122_880;
    let wide_size =
        b"{4095,4094,4094,4094,4094,4094,4094,4094,4094,4094,4094,4094;1,1,1,1,1,1,1,1,1,1,1,1}";
    // k_11 = k_12 = 4095·4094^9·100 is above 2^126.
    let wide_sum =
        b"{4095,4094,4094,4094,4094,4094,4094,4094,4094,4094,100,1;1,1,1,1,1,1,1,1,1,1,1,1}";
    // The first product that is too wide is a_10·k_10 = 4093·4095·4094^9, in the formula of p^0_11,10.
    let wide_number =
        b"{4095,4094,4094,4094,4094,4094,4094,4094,4094,4094,1;1,1,1,1,1,1,1,1,1,1,1}";
    let cases: [(&[u8], NumbersFault, &[i128]); 5] = [
        // k_2 = 5·4/3.
        (b"{5,4;1,3}", fall(Claim::Size { i: 2 }), &[1, 5]),
        // p^2_22 = -1.
        (
            b"{4,1;1,2}",
            fall(Claim::Intersect { h: 2, i: 2, j: 2 }),
            &[4, 2],
        ),
        (wide_size, wide(Node::K { i: 11 }), &[tenth]),
        (wide_sum, wide(Node::N), &[100 * tenth, 100 * tenth]),
        (
            wide_number,
            wide(Node::P { h: 0, i: 11, j: 10 }),
            &[tenth, tenth],
        ),
    ];
    for (text, fault, last_sizes) in cases {
        let array = Array::read(text)?;
        match numbers_of(rt.alloc(), &array) {
            Ok(_) => assert!(rt; false, "{text:?}"),
            Err(found) => assert_eq!(rt; found, fault, "{text:?}"),
        }
        match numbers_or_before(rt.alloc(), &array) {
            Ok(_) => assert!(rt; false, "{text:?}"),
            Err(shortfall) => {
                assert_eq!(rt; shortfall.fault, fault, "{text:?}");
                assert!(rt; shortfall.before.sizes().ends_with(last_sizes), "{text:?}");
            }
        }
    }
    Ok(())
}

fn fall(claim: Claim) -> NumbersFault {
    NumbersFault::Fall { claim }
}

fn wide(node: Node) -> NumbersFault {
    NumbersFault::Wide { node }
}

#[test]
fn rows_before_the_first_that_fails(rt: HostRuntime) -> Result<(), Fail> {
    let Err(shortfall) = numbers_or_before(rt.alloc(), &Array::read(b"{4,1;1,2}")?) else {
        assert!(rt; false);
        return Ok(());
    };
    let before = shortfall.before;
    assert_eq!(rt; before.d(), 2);
    assert_eq!(rt; before.sizes(), [1, 4, 2].as_slice());
    // p^2_22 = -1, after p^2_1j = 0, c_2 and a_2 in row 1.
    let rows: [[i128; 3]; 2] = [[0, 0, 1], [0, 2, 2]];
    for (i, row) in rows.into_iter().enumerate() {
        assert!(rt; before.has_row(2, i));
        assert_eq!(rt; before.row(2, i), row.as_slice(), "{i}");
    }
    assert!(rt; !before.has_row(2, 2));
    Ok(())
}

/// A distance-regular graph whose vertices are named by numbers.
#[derive(Clone, Copy)]
struct Graph<'a> {
    array: &'a str,
    vertices: &'a [u32],
    metric: Metric,
}

/// How far two vertices are from one another.
#[derive(Clone, Copy)]
enum Metric {
    /// 1 for any two: the complete graphs.
    Complete,
    /// The shorter way around so many vertices: the cycles.
    Cycle(u32),
    /// The bits in which they differ: the cubes.
    Bits,
    /// The bits in which they differ or else the rest of five: the folded 5-cube.
    FoldedBits,
    /// The bits of two in which they differ: the Johnson graph J(5,2).
    Pairs,
}

impl Metric {
    fn distance(self, x: u32, y: u32) -> usize {
        let bits = (x ^ y).count_ones();
        let distance = match self {
            Metric::Complete => u32::from(x != y),
            Metric::Cycle(vertices) => shorter(x.abs_diff(y), vertices),
            Metric::Bits => bits,
            Metric::FoldedBits => shorter(bits, 5),
            Metric::Pairs => bits / 2,
        };
        distance as usize
    }
}

/// The shorter of this part and the rest of the whole.
fn shorter(part: u32, whole: u32) -> u32 {
    part.min(whole.abs_diff(part))
}

impl Graph<'_> {
    /// How many vertices are at distance i from x and j from y.
    fn count(&self, x: u32, y: u32, i: usize, j: usize) -> i128 {
        let metric = self.metric;
        let count = self
            .vertices
            .iter()
            .filter(|&&z| metric.distance(x, z) == i && metric.distance(y, z) == j)
            .count();
        count as i128
    }

    /// Asserts the sizes around x, and the intersection numbers of x and y.
    fn agrees_at(&self, rt: &impl Abort, numbers: &Numbers, x: u32, y: u32) {
        let h = self.metric.distance(x, y);
        assert!(rt; h <= numbers.d());
        for i in 0..numbers.d() + 1 {
            assert_eq!(rt;
                numbers.k(i),
                self.count(x, x, i, i),
                "{}: k {i}",
                self.array
            );
            for j in 0..numbers.d() + 1 {
                assert_eq!(rt;
                    numbers.p(h, i, j),
                    self.count(x, y, i, j),
                    "{}: p {h} {i} {j}",
                    self.array
                );
            }
        }
    }

    /// Asserts that these are the numbers of the graph.
    fn agrees(&self, rt: &impl Abort, numbers: &Numbers) {
        assert_eq!(rt; numbers.n(), self.vertices.len() as i128, "{}", self.array);
        for x in self.vertices {
            for y in self.vertices {
                self.agrees_at(rt, numbers, *x, *y);
            }
        }
    }
}

#[test]
fn agrees_with_slow_numbers(rt: HostRuntime) -> Result<(), Fail> {
    let names: [u32; 16] = [0, 1, 2, 3, 4, 5, 6, 7, 8, 9, 10, 11, 12, 13, 14, 15];
    let pairs: [u32; 10] = [
        0b00011, 0b00101, 0b00110, 0b01001, 0b01010, 0b01100, 0b10001, 0b10010, 0b10100, 0b11000,
    ];
    let cases: [(&str, &[u32], Metric); 13] = [
        ("{4;1}", &names[..5], Metric::Complete),
        ("{2;1}", &names[..3], Metric::Cycle(3)),
        ("{2,1;1,1}", &names[..5], Metric::Cycle(5)),
        ("{2,1,1;1,1,2}", &names[..6], Metric::Cycle(6)),
        ("{2,1,1;1,1,1}", &names[..7], Metric::Cycle(7)),
        ("{2,1,1,1;1,1,1,2}", &names[..8], Metric::Cycle(8)),
        ("{2,1,1,1;1,1,1,1}", &names[..9], Metric::Cycle(9)),
        ("{1;1}", &names[..2], Metric::Bits),
        ("{2,1;1,2}", &names[..4], Metric::Bits),
        ("{3,2,1;1,2,3}", &names[..8], Metric::Bits),
        ("{4,3,2,1;1,2,3,4}", &names, Metric::Bits),
        ("{5,4;1,2}", &names, Metric::FoldedBits),
        ("{6,2;1,4}", &pairs, Metric::Pairs),
    ];
    for (array, vertices, metric) in cases {
        let numbers = numbers_of(rt.alloc(), &Array::read(array.as_bytes())?)?;
        let graph = Graph {
            array,
            vertices,
            metric,
        };
        graph.agrees(&rt, &numbers);
    }
    Ok(())
}
