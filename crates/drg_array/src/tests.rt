//! Texts and faults by hand, each public call once.
use crate::{Array, ArrayFault, ArrayKind, Claim, ClaimName, Class, Node, Test, TestSet};
use std::test::Fail;

fn is_refused(text: &str, at: u64, kind: ArrayKind) -> bool {
    matches!(Array::read(text.as_bytes()), Err(fault) if fault == ArrayFault { at, kind })
}

#[test]
fn reads_texts(rt: HostRuntime) -> Result<(), Fail> {
    let array = Array::read(b"{3,2;1,1}")?;
    assert_eq!(rt; array.d(), 2);
    assert_eq!(rt; array.valency(), 3);
    for text in [
        "{3,2;1,1}",
        " {3,2;1,1}",
        "{ 3,2;1,1}",
        "{3 ,2;1,1}",
        "{3, 2;1,1}",
        "{3,2 ;1,1}",
        "{3,2; 1,1}",
        "{3,2;1 ,1}",
        "{3,2;1, 1}",
        "{3,2;1,1 }",
        "{3,2;1,1} ",
        "   {   3  ,  2 ; 1   ,  1  }  ",
    ] {
        assert!(rt;
            matches!(Array::read(text.as_bytes()), Ok(same) if same == array),
            "{text}"
        );
    }
    let twelve = "{4095,1,1,1,1,1,1,1,1,1,1,1;1,1,1,1,1,1,1,1,1,1,1,4095}";
    let array = Array::read(twelve.as_bytes())?;
    assert_eq!(rt; array.d(), 12);
    assert_eq!(rt; array.b(0), 4095);
    assert_eq!(rt; array.c(12), 4095);
    Ok(())
}

#[test]
fn refuses_texts(rt: HostRuntime) -> Result<(), Fail> {
    for (text, at, kind) in [
        ("{3,2;1}", 7, ArrayKind::Lengths),
        ("{3,2;1 }", 8, ArrayKind::Lengths),
        ("{3,2;1,1,1}", 9, ArrayKind::Lengths),
        ("{3,2;1,1 ,1}", 10, ArrayKind::Lengths),
        ("{3;1,1}", 5, ArrayKind::Lengths),
        ("{}", 2, ArrayKind::Syntax),
        ("", 1, ArrayKind::Syntax),
        ("  ", 3, ArrayKind::Syntax),
        ("3", 1, ArrayKind::Syntax),
        ("{3,2;1,1", 9, ArrayKind::Syntax),
        ("{3,2;1,1}}", 10, ArrayKind::Syntax),
        ("{3,2;1,1}\n", 10, ArrayKind::Syntax),
        ("{3,2;}", 6, ArrayKind::Syntax),
        ("{3,2,;1,1}", 6, ArrayKind::Syntax),
        ("{3,2}", 5, ArrayKind::Syntax),
        ("{3,2;1;1}", 7, ArrayKind::Syntax),
        ("{3 2;1,1}", 4, ArrayKind::Syntax),
        ("{3,+2;1,1}", 4, ArrayKind::Syntax),
        ("{3,2;1,1} x", 11, ArrayKind::Syntax),
        ("{3,0;1,1}", 4, ArrayKind::Zero),
        ("{03,2;1,1}", 2, ArrayKind::Zero),
        ("{ 0,2;1,1}", 3, ArrayKind::Zero),
        ("{3,2;0,1}", 6, ArrayKind::Zero),
        ("{3,2;1, 0}", 9, ArrayKind::Zero),
        ("{4096,1;1,1}", 5, ArrayKind::Large),
        ("{10000,1;1,1}", 6, ArrayKind::Large),
        ("{3,9999;1,1}", 7, ArrayKind::Large),
        ("{3,2;1,40950}", 12, ArrayKind::Large),
        ("{1,1,1,1,1,1,1,1,1,1,1,1,1;1}", 25, ArrayKind::Long),
        ("{1,1,1,1,1,1,1,1,1,1,1,1 ,1;1}", 26, ArrayKind::Long),
        (
            "{1,1,1,1,1,1,1,1,1,1,1,1;1,1,1,1,1,1,1,1,1,1,1,1,1}",
            49,
            ArrayKind::Lengths,
        ),
    ] {
        assert!(rt; is_refused(text, at, kind), "{text}");
    }
    Ok(())
}

#[test]
fn makes_arrays(rt: HostRuntime) -> Result<(), Fail> {
    let array = Array::make(&[3, 2], &[1, 1]).expect(&rt, "an array");
    assert_eq!(rt; array.d(), 2);
    assert_eq!(rt; array.valency(), 3);
    for (i, b, c, a) in [(0, 3, 0, 0), (1, 2, 1, 0), (2, 0, 1, 2)] {
        assert_eq!(rt; array.b(i), b);
        assert_eq!(rt; array.c(i), c);
        assert_eq!(rt; array.a(i), a);
    }
    let negative = Array::make(&[3, 3], &[1, 1]).expect(&rt, "an array");
    assert_eq!(rt; negative.a(1), -1);
    assert!(rt; array.copied() == array);
    assert!(rt; matches!(Array::make(&[3, 2], &[1, 1]), Some(same) if same == array));
    assert!(rt; matches!(Array::make(&[3, 2], &[1, 2]), Some(other) if other != array));
    assert!(rt; matches!(Array::make(&[4095; 12], &[4095; 12]), Some(_)));
    for (b, c) in [
        (&[3, 2][..], &[1][..]),
        (&[][..], &[][..]),
        (&[3, 0][..], &[1, 1][..]),
        (&[4096, 2][..], &[1, 1][..]),
        (&[3, 2][..], &[1, 4096][..]),
        (&[1; 13][..], &[1; 13][..]),
    ] {
        assert!(rt; matches!(Array::make(b, c), None));
    }
    Ok(())
}

#[test]
fn writes_arrays(rt: HostRuntime) -> Result<(), Fail> {
    let mut out = Vec::new(rt.alloc());
    Array::read(b" { 3 , 2 ; 1 , 1 } ")?.write_text(&mut out)?;
    assert_eq!(rt; out.as_slice(), b"{3,2;1,1}".as_slice());
    let one = Array::make(&[4095], &[10]).expect(&rt, "an array");
    one.write_text(&mut out)?;
    assert_eq!(rt; out.as_slice(), b"{3,2;1,1}{4095;10}".as_slice());
    Ok(())
}

#[test]
fn writes_claims(rt: HostRuntime) -> Result<(), Fail> {
    let (i, j, h) = (2, 10, 255);
    let (u, v, w) = (1, 2, 12);
    for (claim, text, class) in [
        (Claim::First, "first", Class::Counting),
        (Claim::Degree { i }, "degree 2", Class::Counting),
        (Claim::Order { i }, "order 2", Class::Counting),
        (Claim::Cross { i, j }, "cross 2 10", Class::Counting),
        (Claim::Size { i }, "size 2", Class::Counting),
        (
            Claim::Intersect { h, i, j },
            "intersect 255 2 10",
            Class::Counting,
        ),
        (Claim::Handshake { i }, "handshake 2", Class::Counting),
        (Claim::Induced { i, j }, "induced 2 10", Class::Counting),
        (Claim::Triangles { i }, "triangles 2", Class::Counting),
        (Claim::Mult { i }, "mult 2", Class::Spectral),
        (Claim::Krein { i, j, h }, "krein 2 10 255", Class::Spectral),
        (Claim::Absolute { i, j }, "absolute 2 10", Class::Spectral),
        (Claim::Triple { u, v, w }, "triple 1 2 12", Class::Counting),
        (
            Claim::Ktriple { u, v, w },
            "ktriple 1 2 12",
            Class::Spectral,
        ),
    ] {
        let mut out = Vec::new(rt.alloc());
        claim.write_text(&mut out)?;
        assert_eq!(rt; out.as_slice(), text.as_bytes());
        assert_eq!(rt; claim.class(), class);
        assert_eq!(rt;
            Claim::of(claim.name(), &claim.indices()),
            Some(claim),
            "{text}"
        );
        assert!(rt; claim.test().is_some(), "{text}");
    }
    Ok(())
}

#[test]
fn reads_claims(rt: HostRuntime) -> Result<(), Fail> {
    let cases: [(&[u8], &[u8], Option<Claim>); 11] = [
        (b"first", &[], Some(Claim::First)),
        (b"size", &[12], Some(Claim::Size { i: 12 })),
        (b"cross", &[1, 2], Some(Claim::Cross { i: 1, j: 2 })),
        (
            b"intersect",
            &[3, 1, 2],
            Some(Claim::Intersect { h: 3, i: 1, j: 2 }),
        ),
        (
            b"krein",
            &[1, 2, 3],
            Some(Claim::Krein { i: 1, j: 2, h: 3 }),
        ),
        (b"triple", &[1, 2], None),
        (b"first", &[1], None),
        (b"size", &[], None),
        (b"krein", &[1, 2, 3, 4], None),
        (b"Size", &[1], None),
        (b"siz", &[1], None),
    ];
    for (text, indices, expected) in cases {
        let claim = ClaimName::read(text).and_then(|name| Claim::of(name, indices));
        assert_eq!(rt; claim, expected, "{text:?}");
    }
    Ok(())
}

#[test]
fn lists_tests(rt: HostRuntime) -> Result<(), Fail> {
    let mut out = Vec::new(rt.alloc());
    for (number, test) in (1u8..).zip(Test::ALL) {
        assert_eq!(rt; test.number(), number);
        assert_eq!(rt; test.always_runs(), number <= 6);
        test.write_text(&mut out)?;
        out.push(b' ')?;
    }
    let names = b"first degree order cross size intersect handshake induced triangles mult krein \
        absolute triple ktriple ";
    assert_eq!(rt; out.as_slice(), names.as_slice());
    Ok(())
}

#[test]
fn writes_nodes(rt: HostRuntime) -> Result<(), Fail> {
    let (i, j, h, r) = (1, 0, 12, 2);
    let (u, v, w) = (1, 2, 3);
    for (node, text) in [
        (Node::K { i: 11 }, "k 11"),
        (Node::N, "n"),
        (Node::P { h, i, j }, "p 12 1 0"),
        (Node::Poly { j: 13 }, "poly 13"),
        (Node::Linear { r: -4095 }, "linear -4095"),
        (Node::Quadratic { s: -1, t: 5 }, "quadratic -1 5"),
        (Node::U { i, r }, "u 1 2"),
        (Node::M { i }, "m 1"),
        (Node::Prow { i, r }, "prow 1 2"),
        (Node::Qrow { r, i }, "qrow 2 1"),
        (Node::Rec { i, j }, "rec 1 0"),
        (Node::Pq { i, j }, "pq 1 0"),
        (Node::Krein { i, j, h }, "krein 1 0 12"),
        (Node::Kprod { i, j, r }, "kprod 1 0 2"),
        (Node::Sign { i, j, h }, "sign 1 0 12"),
        (Node::Absolute { i, j }, "absolute 1 0"),
        (
            Node::Eq {
                u,
                v,
                w,
                a: 3,
                x: 1,
                y: 4,
            },
            "eq 1 2 3 3 1 4",
        ),
        (
            Node::Keq {
                u,
                v,
                w,
                i,
                j: 5,
                h,
            },
            "keq 1 2 3 1 5 12",
        ),
    ] {
        let mut out = Vec::new(rt.alloc());
        node.write_text(&mut out)?;
        assert_eq!(rt; out.as_slice(), text.as_bytes());
    }
    Ok(())
}

/// Which of the built tests are selected.
fn selected(set: &TestSet) -> [bool; 4] {
    [
        set.has(Test::Handshake),
        set.has(Test::Induced),
        set.has(Test::Triangles),
        set.has(Test::Mult),
    ]
}

#[test]
fn reads_lists_of_tests(rt: HostRuntime) -> Result<(), Fail> {
    let cases = [
        ("none", [false, false, false, false]),
        ("handshake", [true, false, false, false]),
        ("induced", [false, true, false, false]),
        ("triangles", [false, false, true, false]),
        ("mult", [false, false, false, true]),
        ("mult,handshake", [true, false, false, true]),
        ("handshake,induced,triangles,mult", [true, true, true, true]),
    ];
    for (text, runs) in cases {
        let set = TestSet::read(text).expect(&rt, "a list of tests");
        assert!(rt; set.has(Test::First) && set.has(Test::Intersect) && !set.has(Test::Krein));
        assert_eq!(rt; selected(&set), runs, "{text}");
    }
    assert_eq!(rt; selected(&TestSet::all()), [true, true, true, true]);
    for text in [
        "",
        ",",
        "first",
        "none,none",
        "None",
        "none ",
        "krein",
        "handshake,handshake",
        "handshake, induced",
        "handshake,",
    ] {
        assert!(rt; TestSet::read(text).is_none(), "{text}");
    }
    Ok(())
}
