use crate::judge::replay_lines;
use crate::{ReplayFault, replay};
use drg_array::{Array, Claim, Class};
use drg_derivation::{Derivation, Line, NumberList};
use std::alloc::Global;
use std::test::Fail;

const ACCEPTED: Result<Class, ReplayFault> = Ok(Class::Counting);

fn not_met(line: u64) -> Result<Class, ReplayFault> {
    Err(ReplayFault::NotMet { line })
}

fn open(line: u64) -> Result<Class, ReplayFault> {
    Err(ReplayFault::Open { line })
}

fn wide(line: u64) -> Result<Class, ReplayFault> {
    Err(ReplayFault::Wide { line })
}

fn numbers(alloc: Global, values: &[i128]) -> Result<NumberList, Fail> {
    Ok(NumberList::new(values.to_vec(alloc)?))
}

fn sizes(alloc: Global, values: &[i128]) -> Result<Line, Fail> {
    Ok(Line::K {
        values: numbers(alloc, values)?,
    })
}

fn row(alloc: Global, h: i128, i: i128, values: &[i128]) -> Result<Line, Fail> {
    Ok(Line::P {
        h,
        i,
        values: numbers(alloc, values)?,
    })
}

fn answer(
    alloc: Global,
    text: &str,
    claim: Claim,
    lines: Vec<Line>,
) -> Result<Result<Class, ReplayFault>, Fail> {
    let array = Array::read(text.as_bytes())?;
    Ok(replay_lines(alloc, &array, claim, &lines))
}

#[test]
fn claims_on_the_entries(rt: HostRuntime) -> Result<(), Fail> {
    let alloc = rt.alloc();
    let cases: [(&str, Claim, Result<Class, ReplayFault>); 19] = [
        ("{3,2;2,1}", Claim::First, ACCEPTED),
        ("{3,3;1,1}", Claim::First, open(4)),
        ("{3,3;1,1}", Claim::Degree { i: 1 }, ACCEPTED),
        ("{3,3;1,1}", Claim::Degree { i: 2 }, open(4)),
        ("{3,3;1,1}", Claim::Degree { i: 3 }, not_met(3)),
        ("{3,3;1,1}", Claim::Degree { i: 0 }, not_met(3)),
        ("{4,1,2;1,1,1}", Claim::Order { i: 1 }, ACCEPTED),
        ("{4,1,2;1,1,1}", Claim::Order { i: 2 }, open(4)),
        ("{4,1,2;1,1,1}", Claim::Order { i: 3 }, not_met(3)),
        ("{5,2,1;1,2,1}", Claim::Order { i: 2 }, ACCEPTED),
        ("{6,2,1;1,3,3}", Claim::Cross { i: 2, j: 1 }, ACCEPTED),
        ("{6,2,1;1,3,3}", Claim::Cross { i: 2, j: 0 }, open(4)),
        ("{6,2,1;1,3,3}", Claim::Cross { i: 2, j: 2 }, not_met(3)),
        ("{6,2,1;1,3,3}", Claim::Cross { i: 0, j: 1 }, not_met(3)),
        ("{6,2,1;1,3,3}", Claim::Mult { i: 1 }, open(4)),
        ("{6,2,1;1,3,3}", Claim::Mult { i: 4 }, not_met(3)),
        (
            "{6,2,1;1,3,3}",
            Claim::Krein { i: 1, j: 1, h: 1 },
            not_met(3),
        ),
        ("{6,4;1,4}", Claim::Triple { u: 2, v: 1, w: 1 }, open(4)),
        ("{6,4;1,4}", Claim::Triple { u: 1, v: 3, w: 1 }, not_met(3)),
    ];
    for (text, claim, expected) in cases {
        let given = answer(alloc, text, claim, Vec::new(alloc))?;
        assert_eq!(rt; given, expected, "{claim:?} of {text}");
    }
    Ok(())
}

#[test]
fn a_size_that_is_not_whole(rt: HostRuntime) -> Result<(), Fail> {
    let alloc = rt.alloc();
    let text = "{5,4;1,3}";
    let claim = Claim::Size { i: 2 };
    // 5·4 isn't divisible by 3.
    let lines = vec![in alloc; sizes(alloc, &[1, 5])?]?;
    assert_eq!(rt; answer(alloc, text, claim, lines)?, ACCEPTED);
    assert_eq!(rt; answer(alloc, text, claim, Vec::new(alloc))?, open(4));
    let lines = vec![in alloc; sizes(alloc, &[1])?]?;
    assert_eq!(rt; answer(alloc, text, claim, lines)?, open(5));
    let lines = vec![in alloc; sizes(alloc, &[1, 6])?]?;
    assert_eq!(rt; answer(alloc, text, claim, lines)?, not_met(4));
    let lines = vec![in alloc; sizes(alloc, &[2, 10])?]?;
    assert_eq!(rt; answer(alloc, text, claim, lines)?, not_met(4));
    let lines = vec![in alloc; sizes(alloc, &[1, 5])?, sizes(alloc, &[1, 5])?]?;
    assert_eq!(rt; answer(alloc, text, claim, lines)?, not_met(5));
    // 5·1 is divisible by 1.
    let lines = vec![in alloc; sizes(alloc, &[1, 5])?]?;
    assert_eq!(rt; answer(alloc, text, Claim::Size { i: 1 }, lines)?, open(5));
    // The sizes of Petersen's graph are whole.
    let lines = vec![in alloc; sizes(alloc, &[1, 3, 6])?]?;
    assert_eq!(rt; answer(alloc, "{3,2;1,1}", claim, lines)?, open(5));
    Ok(())
}

#[test]
fn an_intersection_number_below_zero(rt: HostRuntime) -> Result<(), Fail> {
    let alloc = rt.alloc();
    let text = "{4,1;1,2}";
    let claim = Claim::Intersect { h: 2, i: 2, j: 2 };
    let lines = vec![in alloc; row(alloc, 2, 1, &[0, 2, 2])?]?;
    assert_eq!(rt; answer(alloc, text, claim, lines)?, ACCEPTED);
    assert_eq!(rt; answer(alloc, text, claim, Vec::new(alloc))?, open(4));
    let lines = vec![in alloc; row(alloc, 2, 1, &[0, 2, 3])?]?;
    assert_eq!(rt; answer(alloc, text, claim, lines)?, not_met(4));
    // N(2,2,1) = 4 is divisible by 2, and no number of row 0 can fail.
    let lines = vec![in alloc; row(alloc, 2, 1, &[0, 2, 2])?]?;
    assert_eq!(rt;
        answer(alloc, text, Claim::Intersect { h: 2, i: 2, j: 1 }, lines)?,
        open(5)
    );
    let lines = vec![in alloc; row(alloc, 2, 1, &[0, 2, 2])?]?;
    assert_eq!(rt;
        answer(alloc, text, Claim::Intersect { h: 2, i: 0, j: 2 }, lines)?,
        open(5)
    );
    assert_eq!(rt;
        answer(
            alloc,
            text,
            Claim::Intersect { h: 3, i: 2, j: 2 },
            Vec::new(alloc)
        )?,
        not_met(3)
    );
    Ok(())
}

#[test]
fn lines_out_of_their_range(rt: HostRuntime) -> Result<(), Fail> {
    let alloc = rt.alloc();
    // Row 1 of h = 2 of {4,1;1,2} is 0 2 2.
    let cases: [(i128, i128); 6] = [(-1, 1), (3, 1), (2, 0), (2, -1), (2, 2), (2, i128::MAX)];
    for (h, i) in cases {
        let lines = vec![in alloc; row(alloc, h, i, &[0, 2, 2])?]?;
        let given = answer(alloc, "{4,1;1,2}", Claim::First, lines)?;
        assert_eq!(rt; given, not_met(4), "p {h} {i}");
    }
    let lines = vec![in alloc;
        row(alloc, 2, 1, &[0, 2, 2])?,
        row(alloc, 2, 1, &[0, 2, 2])?,
    ]?;
    assert_eq!(rt;
        answer(alloc, "{4,1;1,2}", Claim::First, lines)?,
        not_met(5)
    );
    let lines = vec![in alloc; Line::Frame { root: 0 }]?;
    assert_eq!(rt;
        answer(alloc, "{4,1;1,2}", Claim::First, lines)?,
        not_met(4)
    );
    Ok(())
}

#[test]
fn work_numbers_out_of_range(rt: HostRuntime) -> Result<(), Fail> {
    let alloc = rt.alloc();
    // 2^126, whose double is 2^127.
    let large = 85070591730234615865843651857942052864;
    let lines = vec![in alloc; sizes(alloc, &[1, large])?]?;
    assert_eq!(rt; answer(alloc, "{4,1;2,2}", Claim::First, lines)?, wide(4));
    let lines = vec![in alloc; sizes(alloc, &[1, -large])?]?;
    assert_eq!(rt; answer(alloc, "{4,1;2,2}", Claim::First, lines)?, wide(4));
    // With c_1 = 1 the product is in range, and the equation fails.
    let lines = vec![in alloc; sizes(alloc, &[1, large])?]?;
    assert_eq!(rt;
        answer(alloc, "{4,1;1,2}", Claim::First, lines)?,
        not_met(4)
    );
    let lines = vec![in alloc; row(alloc, 2, 1, &[large, 2, 2])?]?;
    assert_eq!(rt; answer(alloc, "{4,1;2,2}", Claim::First, lines)?, wide(4));
    // The first number decides before the product of the second is made.
    let lines = vec![in alloc; row(alloc, 2, 1, &[1, large, 2])?]?;
    assert_eq!(rt;
        answer(alloc, "{4,1;2,2}", Claim::First, lines)?,
        not_met(4)
    );
    Ok(())
}

#[test]
fn counts_of_the_wrong_parity(rt: HostRuntime) -> Result<(), Fail> {
    let alloc = rt.alloc();
    // n·k = 7·3 is odd.
    let handshake = Claim::Handshake { i: 1 };
    let lines = vec![in alloc; sizes(alloc, &[1, 3, 3])?]?;
    assert_eq!(rt; answer(alloc, "{3,2;1,2}", handshake, lines)?, ACCEPTED);
    let lines = vec![in alloc; sizes(alloc, &[1, 3])?]?;
    assert_eq!(rt; answer(alloc, "{3,2;1,2}", handshake, lines)?, open(5));
    // 3·p with p^2_21 = 1.
    let induced = Claim::Induced { i: 2, j: 1 };
    let lines = vec![in alloc;
        sizes(alloc, &[1, 3, 3])?,
        row(alloc, 2, 1, &[0, 2, 1])?,
        row(alloc, 2, 2, &[1, 1, 1])?,
    ]?;
    assert_eq!(rt; answer(alloc, "{3,2;1,2}", induced, lines)?, ACCEPTED);
    // 16·5·2 isn't divisible by 6.
    let triangles = Claim::Triangles { i: 1 };
    let lines = vec![in alloc; sizes(alloc, &[1, 5, 10])?, row(alloc, 1, 1, &[1, 2, 2])?]?;
    assert_eq!(rt; answer(alloc, "{5,2;1,1}", triangles, lines)?, ACCEPTED);
    let lines = vec![in alloc; sizes(alloc, &[1, 5, 10])?]?;
    assert_eq!(rt; answer(alloc, "{5,2;1,1}", triangles, lines)?, open(5));
    // Petersen's graph has no triangle.
    let lines = vec![in alloc; sizes(alloc, &[1, 3, 6])?, row(alloc, 1, 1, &[1, 0, 2])?]?;
    assert_eq!(rt; answer(alloc, "{3,2;1,1}", triangles, lines)?, open(6));
    Ok(())
}

#[test]
fn negative_numbers_have_their_residues(rt: HostRuntime) -> Result<(), Fail> {
    let alloc = rt.alloc();
    // p^2_22 = -1, so n·k_2·p is -14, and 6 doesn't divide it, but 2 does.
    let text = "{4,1;1,2}";
    for (claim, expected) in [
        (Claim::Triangles { i: 2 }, ACCEPTED),
        (Claim::Induced { i: 2, j: 2 }, open(7)),
    ] {
        let lines = vec![in alloc;
            sizes(alloc, &[1, 4, 2])?,
            row(alloc, 2, 1, &[0, 2, 2])?,
            row(alloc, 2, 2, &[1, 2, -1])?,
        ]?;
        assert_eq!(rt; answer(alloc, text, claim, lines)?, expected, "{claim:?}");
    }
    // k_1 p^1_11 is 3·(-1), which is odd.
    let induced = Claim::Induced { i: 1, j: 1 };
    let lines = vec![in alloc; sizes(alloc, &[1, 3, 9])?, row(alloc, 1, 1, &[1, -1, 3])?]?;
    assert_eq!(rt; answer(alloc, "{3,3;1,1}", induced, lines)?, ACCEPTED);
    Ok(())
}

#[test]
fn what_stands_is_refused_before_a_product_is_made(rt: HostRuntime) -> Result<(), Fail> {
    let alloc = rt.alloc();
    // 2^126, whose double is 2^127.
    let large = 85070591730234615865843651857942052864;
    let second = &[1, 5, large];
    let lines = vec![in alloc; sizes(alloc, second)?]?;
    assert_eq!(rt; answer(alloc, "{5,4;1,3}", Claim::First, lines)?, wide(4));
    let lines = vec![in alloc; sizes(alloc, &[1, 5])?, sizes(alloc, second)?]?;
    assert_eq!(rt;
        answer(alloc, "{5,4;1,3}", Claim::First, lines)?,
        not_met(5)
    );
    let second = &[large, 1, 1];
    let lines = vec![in alloc; row(alloc, 2, 1, second)?]?;
    assert_eq!(rt; answer(alloc, "{4,1;2,2}", Claim::First, lines)?, wide(4));
    let lines = vec![in alloc; row(alloc, 2, 1, &[0, 1, 1])?, row(alloc, 2, 1, second)?]?;
    assert_eq!(rt;
        answer(alloc, "{4,1;2,2}", Claim::First, lines)?,
        not_met(5)
    );
    Ok(())
}

/// 4095, ten times 4094, and c_1 to c_11 are 1.
const LARGE_ARRAY: &str =
    "{4095,4094,4094,4094,4094,4094,4094,4094,4094,4094,4094;1,1,1,1,1,1,1,1,1,1,1}";

/// Its sizes k_0 to k_10, the last of them below 2^120.
const LARGE_SIZES: [i128; 11] = [
    1,
    4095,
    16764930,
    68635623420,
    280994242281480,
    1150390427900379120,
    4709698411824152117280,
    19281505298008078768144320,
    78938482690045074476782846080,
    323174148133044534907948971851520,
    1323074962456684325913143090760122880,
];

#[test]
fn work_numbers_of_the_end(rt: HostRuntime) -> Result<(), Fail> {
    let alloc = rt.alloc();
    // k_10 b_10 passes 2^127.
    let claim = Claim::Size { i: 11 };
    let lines = vec![in alloc; sizes(alloc, &LARGE_SIZES)?]?;
    assert_eq!(rt; answer(alloc, LARGE_ARRAY, claim, lines)?, wide(5));
    let lines = vec![in alloc; sizes(alloc, &LARGE_SIZES[..10])?]?;
    assert_eq!(rt; answer(alloc, LARGE_ARRAY, claim, lines)?, open(5));
    // So does b_10 p^0_10,10.
    let claim = Claim::Intersect { h: 0, i: 11, j: 11 };
    for (count, expected) in [(9, open(13)), (10, wide(14))] {
        let mut lines = Vec::new(alloc);
        for i in 1..count + 1 {
            let mut values = [0; 12];
            values[i] = LARGE_SIZES[i];
            lines.push(row(alloc, 0, i as i128, &values)?)?;
        }
        assert_eq!(rt; answer(alloc, LARGE_ARRAY, claim, lines)?, expected);
    }
    Ok(())
}

#[test]
fn roots_of_a_frame(rt: HostRuntime) -> Result<(), Fail> {
    let alloc = rt.alloc();
    let claim = Claim::Mult { i: 1 };
    let cases: [(i128, bool); 9] = [
        (-1, false),
        (0, true),
        (1, false),
        (2, true),
        (12, false),
        (13, true),
        // The square of a prime; the product of 3, 5, 17, 257 and 65537; and that of 641 and 6700417.
        (4293001441, false),
        (4294967295, true),
        (4294967297, false),
    ];
    for (root, is_met) in cases {
        let lines = vec![in alloc; sizes(alloc, &[1, 4, 12])?, Line::Frame { root }]?;
        let expected = if is_met { open(6) } else { not_met(5) };
        assert_eq!(rt;
            answer(alloc, "{4,3;1,1}", claim, lines)?,
            expected,
            "frame {root}"
        );
    }
    Ok(())
}

#[test]
fn a_frame_out_of_its_place(rt: HostRuntime) -> Result<(), Fail> {
    let alloc = rt.alloc();
    let claim = Claim::Mult { i: 1 };
    let lines = vec![in alloc; Line::Frame { root: 13 }, sizes(alloc, &[1, 4, 12])?]?;
    assert_eq!(rt; answer(alloc, "{4,3;1,1}", claim, lines)?, not_met(4));
    let lines = vec![in alloc; sizes(alloc, &[1, 4])?, Line::Frame { root: 13 }]?;
    assert_eq!(rt; answer(alloc, "{4,3;1,1}", claim, lines)?, not_met(5));
    let lines = vec![in alloc;
        sizes(alloc, &[1, 4, 12])?,
        Line::Frame { root: 13 },
        Line::Frame { root: 13 },
    ]?;
    assert_eq!(rt; answer(alloc, "{4,3;1,1}", claim, lines)?, not_met(6));
    let counting = Claim::Size { i: 2 };
    let lines = vec![in alloc; sizes(alloc, &[1, 4, 12])?, Line::Frame { root: 13 }]?;
    assert_eq!(rt; answer(alloc, "{4,3;1,1}", counting, lines)?, not_met(5));
    Ok(())
}

#[test]
fn the_first_line_that_decides(rt: HostRuntime) -> Result<(), Fail> {
    let alloc = rt.alloc();
    // 2^126, whose double is 2^127.
    let large = 85070591730234615865843651857942052864;
    let cases: [(Claim, [&[i128]; 2], Result<Class, ReplayFault>); 4] = [
        (Claim::First, [&[1, large], &[2]], wide(4)),
        (Claim::First, [&[2], &[1, large]], not_met(4)),
        (Claim::First, [&[1, 2], &[1, large]], not_met(5)),
        (Claim::Degree { i: 3 }, [&[1, large], &[2]], not_met(3)),
    ];
    for (claim, [first, second], expected) in cases {
        let lines = vec![in alloc; sizes(alloc, first)?, sizes(alloc, second)?]?;
        let given = answer(alloc, "{4,1;2,2}", claim, lines)?;
        assert_eq!(rt; given, expected, "{claim:?}, {first:?}, {second:?}");
    }
    Ok(())
}

#[test]
fn many_lines_after_the_one_that_decides(rt: HostRuntime) -> Result<(), Fail> {
    let alloc = rt.alloc();
    let mut lines = Vec::new(alloc);
    for _ in 0..20000 {
        lines.push(sizes(alloc, &[1, 4])?)?;
    }
    assert_eq!(rt;
        answer(alloc, "{4,1;1,2}", Claim::First, lines)?,
        not_met(5)
    );
    Ok(())
}

/// The binomial coefficients up to those of 12.
const CHOICES: [[u16; 13]; 13] = [
    [1, 0, 0, 0, 0, 0, 0, 0, 0, 0, 0, 0, 0],
    [1, 1, 0, 0, 0, 0, 0, 0, 0, 0, 0, 0, 0],
    [1, 2, 1, 0, 0, 0, 0, 0, 0, 0, 0, 0, 0],
    [1, 3, 3, 1, 0, 0, 0, 0, 0, 0, 0, 0, 0],
    [1, 4, 6, 4, 1, 0, 0, 0, 0, 0, 0, 0, 0],
    [1, 5, 10, 10, 5, 1, 0, 0, 0, 0, 0, 0, 0],
    [1, 6, 15, 20, 15, 6, 1, 0, 0, 0, 0, 0, 0],
    [1, 7, 21, 35, 35, 21, 7, 1, 0, 0, 0, 0, 0],
    [1, 8, 28, 56, 70, 56, 28, 8, 1, 0, 0, 0, 0],
    [1, 9, 36, 84, 126, 126, 84, 36, 9, 1, 0, 0, 0],
    [1, 10, 45, 120, 210, 252, 210, 120, 45, 10, 1, 0, 0],
    [1, 11, 55, 165, 330, 462, 462, 330, 165, 55, 11, 1, 0],
    [1, 12, 66, 220, 495, 792, 924, 792, 495, 220, 66, 12, 1],
];

fn choices(n: usize, k: usize) -> u32 {
    if n < 13 && k < 13 {
        u32::from(CHOICES[n][k])
    } else {
        0
    }
}

/// How many words of twelve bits are at distances i and j from two that differ in h places. Such a word
/// leaves the first one in s of these places and in i - s others, and h + i - 2s = j.
fn words(h: usize, i: usize, j: usize) -> i128 {
    for s in 0..13 {
        if s <= i && h.checked_add(i) == j.checked_add(2 * s) {
            let inside = choices(h, s).checked_mul(choices(12_usize.saturating_sub(h), i - s));
            return i128::from(inside.unwrap_or(0));
        }
    }
    0
}

fn rows_of_words(h: usize, i: usize) -> [i128; 13] {
    let mut values = [0; 13];
    for j in 0..13 {
        values[j] = words(h, i, j);
    }
    values
}

#[test]
fn all_rows_of_the_twelve_cube(rt: HostRuntime) -> Result<(), Fail> {
    let alloc = rt.alloc();
    let cube = "{12,11,10,9,8,7,6,5,4,3,2,1;1,2,3,4,5,6,7,8,9,10,11,12}";
    for (last, expected) in [(1, open(161)), (2, not_met(160))] {
        let mut lines = Vec::new(alloc);
        let k: [i128; 13] = [1, 12, 66, 220, 495, 792, 924, 792, 495, 220, 66, 12, 1];
        lines.push(sizes(alloc, &k)?)?;
        for h in 0..13 {
            for i in 1..13 {
                let mut values = rows_of_words(h, i);
                if h == 12 && i == 12 {
                    values[0] = last;
                }
                lines.push(row(alloc, h as i128, i as i128, &values)?)?;
            }
        }
        assert_eq!(rt; answer(alloc, cube, Claim::First, lines)?, expected);
    }
    Ok(())
}

#[test]
fn a_derivation_from_its_parts(rt: HostRuntime) -> Result<(), Fail> {
    let alloc = rt.alloc();
    for (values, expected) in [(&[1, 5], ACCEPTED), (&[1, 6], not_met(4))] {
        let array = Array::read(b"{5,4;1,3}")?;
        let lines = vec![in alloc; sizes(alloc, values)?]?;
        let claim = Claim::Size { i: 2 };
        let derivation = Derivation::make(array, claim, lines).ok_or("no text")?;
        assert_eq!(rt; replay(alloc, &derivation), expected);
    }
    Ok(())
}
