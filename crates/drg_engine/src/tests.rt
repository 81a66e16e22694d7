//! Reports by hand and from an independent count. The text of a report fixes its verdict.
use crate::judge;
use drg_array::{Array, TestSet};
use drg_report::render;
use std::alloc::Global;
use std::test::Fail;

/// The text of the report on the array, where these tests are selected.
fn report_on(alloc: Global, array: &Array, tests: &TestSet) -> Result<Vec<u8>, Fail> {
    let verdict = judge(alloc, array, tests)?;
    let text = render(alloc, array, &verdict)?;
    Ok(text)
}

#[test]
fn reports(rt: HostRuntime) -> Result<(), Fail> {
    let all = "handshake,induced,triangles";
    let cases = [
        // a_1 = 3 - 3 - 1.
        (
            "{3,3;1,1}",
            all,
            "drg 1\narray 2 3 3 1 1\nclaim degree 1\nend\nverdict infeasible degree 1 counting\n",
        ),
        // k_2 = 5·4/3.
        (
            "{5,4;1,3}",
            "none",
            "drg 1\narray 2 5 4 1 3\nclaim size 2\nk 1 5\nend\nverdict infeasible size 2 counting\n",
        ),
        // k_12 = 5/2.
        (
            "{5,1,1,1,1,1,1,1,1,1,1,1;1,1,1,1,1,1,1,1,1,1,1,2}",
            "none",
            "drg 1\narray 12 5 1 1 1 1 1 1 1 1 1 1 1 1 1 1 1 1 1 1 1 1 1 1 2\nclaim size 12\n\
k 1 5 5 5 5 5 5 5 5 5 5 5\nend\nverdict infeasible size 12 counting\n",
        ),
        // p^2_22 = -1.
        (
            "{4,1;1,2}",
            "none",
            "drg 1\narray 2 4 1 1 2\nclaim intersect 2 2 2\np 2 1 0 2 2\nend\n\
verdict infeasible intersect 2 2 2 counting\n",
        ),
        (
            "{6,2,1,1,1,1,1,1,1,1,1,1;1,1,1,1,1,1,1,1,1,1,1,3}",
            "none",
            "drg 1\narray 12 6 2 1 1 1 1 1 1 1 1 1 1 1 1 1 1 1 1 1 1 1 1 1 3\nclaim intersect 2 12 12\n\
p 2 1 0 1 4 1 0 0 0 0 0 0 0 0 0\np 2 2 1 4 1 5 1 0 0 0 0 0 0 0 0\n\
p 2 3 0 1 5 0 5 1 0 0 0 0 0 0 0\np 2 4 0 0 1 5 0 5 1 0 0 0 0 0 0\n\
p 2 5 0 0 0 1 5 0 5 1 0 0 0 0 0\np 2 6 0 0 0 0 1 5 0 5 1 0 0 0 0\n\
p 2 7 0 0 0 0 0 1 5 0 5 1 0 0 0\np 2 8 0 0 0 0 0 0 1 5 0 5 1 0 0\n\
p 2 9 0 0 0 0 0 0 0 1 5 0 5 1 0\np 2 10 0 0 0 0 0 0 0 0 1 5 0 5 1\n\
p 2 11 0 0 0 0 0 0 0 0 0 1 5 2 4\nend\nverdict infeasible intersect 2 12 12 counting\n",
        ),
        // n = 7 and k_1 = 3.
        (
            "{3,1;1,1}",
            all,
            "drg 1\narray 2 3 1 1 1\nclaim handshake 1\nk 1 3 3\nend\n\
verdict infeasible handshake 1 counting\n",
        ),
        // k_2 = 5 and p^2_21 = 1.
        (
            "{5,2,2;1,2,2}",
            all,
            "drg 1\narray 3 5 2 2 1 2 2\nclaim induced 2 1\nk 1 5 5 5\np 2 1 0 2 1 2\n\
p 2 2 1 1 1 2\nend\nverdict infeasible induced 2 1 counting\n",
        ),
        // n = 16, k_1 = 5 and p^1_11 = 2: 6 doesn't divide 160.
        (
            "{5,2;1,1}",
            "triangles",
            "drg 1\narray 2 5 2 1 1\nclaim triangles 1\nk 1 5 10\np 1 1 1 2 2\nend\n\
verdict infeasible triangles 1 counting\n",
        ),
        (
            "{5,4,4,4,4,4,4,4,4,4,4,2;1,1,1,1,1,1,1,1,1,1,2,2}",
            "triangles",
            "drg 1\narray 12 5 4 4 4 4 4 4 4 4 4 4 2 1 1 1 1 1 1 1 1 1 1 2 2\nclaim triangles 8\n\
k 1 5 20 80 320 1280 5120 20480 81920 327680 1310720 2621440 2621440\n\
p 8 1 0 0 0 0 0 0 0 1 0 4 0 0 0\np 8 2 0 0 0 0 0 0 1 0 3 0 16 0 0\n\
p 8 3 0 0 0 0 0 1 0 3 0 12 0 64 0\np 8 4 0 0 0 0 1 0 3 0 12 0 112 64 128\n\
p 8 5 0 0 0 1 0 3 0 12 0 112 128 512 512\n\
p 8 6 0 0 1 0 3 0 12 0 112 128 1024 1792 2048\n\
p 8 7 0 1 0 3 0 12 0 112 128 1024 3584 7936 7680\n\
p 8 8 1 0 3 0 12 0 112 128 1024 3584 15872 30464 30720\nend\n\
verdict infeasible triangles 8 counting\n",
        ),
        // The tests aren't selected in their order.
        (
            "{3,2;1,1}",
            "triangles,handshake",
            "verdict survivor\narray {3,2;1,1}\n\
passed first degree order cross size intersect handshake triangles\nn 10\nsizes 1 3 6\n\
ppoly 1 2\nppoly 2 1\n",
        ),
        // It fails triangles, which isn't selected.
        (
            "{4,2;1,1}",
            "induced",
            "verdict survivor\narray {4,2;1,1}\n\
passed first degree order cross size intersect induced\nn 13\nsizes 1 4 8\n\
ppoly 1 2\nppoly 2 1\n",
        ),
        // The cube of dimension 12.
        (
            "{12,11,10,9,8,7,6,5,4,3,2,1;1,2,3,4,5,6,7,8,9,10,11,12}",
            all,
            "verdict survivor\narray {12,11,10,9,8,7,6,5,4,3,2,1;1,2,3,4,5,6,7,8,9,10,11,12}\n\
passed first degree order cross size intersect handshake induced triangles\nn 4096\n\
sizes 1 12 66 220 495 792 924 792 495 220 66 12 1\n\
ppoly 1 2 3 4 5 6 7 8 9 10 11 12\nppoly 11 2 9 4 7 6 5 8 3 10 1 12\n",
        ),
        // 4095·4094^9 is below 2^120, 4095·4094^10 above 2^131.
        (
            "{4095,4094,4094,4094,4094,4094,4094,4094,4094,4094,4094,4094;1,1,1,1,1,1,1,1,1,1,1,1}",
            all,
            "verdict undecided\n\
array {4095,4094,4094,4094,4094,4094,4094,4094,4094,4094,4094,4094;1,1,1,1,1,1,1,1,1,1,1,1}\n\
passed first degree order cross\npending size wide k 11\n",
        ),
        // k_11 = k_12 = 4095·4094^9·100 is from 2^126 to 2^127.
        (
            "{4095,4094,4094,4094,4094,4094,4094,4094,4094,4094,100,1;1,1,1,1,1,1,1,1,1,1,1,1}",
            all,
            "verdict undecided\n\
array {4095,4094,4094,4094,4094,4094,4094,4094,4094,4094,100,1;1,1,1,1,1,1,1,1,1,1,1,1}\n\
passed first degree order cross\npending size wide n\n",
        ),
        // a_10 p^0_(10,10) = 4093·4095·4094^9 is above 2^131.
        (
            "{4095,4094,4094,4094,4094,4094,4094,4094,4094,4094,1;1,1,1,1,1,1,1,1,1,1,1}",
            all,
            "verdict undecided\n\
array {4095,4094,4094,4094,4094,4094,4094,4094,4094,4094,1;1,1,1,1,1,1,1,1,1,1,1}\n\
passed first degree order cross size\npending intersect wide p 0 11 10\n",
        ),
    ];
    for (array, names, report) in cases {
        let array = Array::read(array.as_bytes())?;
        let tests = TestSet::read(names).expect(&rt, "a list of tests");
        let text = report_on(rt.alloc(), &array, &tests)?;
        assert_eq!(rt; text.as_slice(), report.as_bytes(), "{report}");
    }
    Ok(())
}

#[test]
fn reports_of_mult(rt: HostRuntime) -> Result<(), Fail> {
    let cases = [
        // The Petersen graph, with the multiplicities 1, 5, 4.
        (
            "{3,2;1,1}",
            "verdict survivor\narray {3,2;1,1}\npassed first degree order cross size intersect mult\n\
n 10\nsizes 1 3 6\nroot 0\ntheta 3 1 -2\nP 1 3 6\nP 1 1 -2\nP 1 -2 1\nQ 1 5 4\n\
Q 1 5/3 -8/3\nQ 1 -5/3 2/3\n\
ppoly 1 2\nppoly 2 1\n",
        ),
        // The pentagon.
        (
            "{2,1;1,1}",
            "verdict survivor\narray {2,1;1,1}\npassed first degree order cross size intersect mult\n\
n 5\nsizes 1 2 2\nroot 5\ntheta 2 -1/2+1/2r5 -1/2-1/2r5\nP 1 2 2\n\
P 1 -1/2+1/2r5 -1/2-1/2r5\nP 1 -1/2-1/2r5 -1/2+1/2r5\nQ 1 2 2\nQ 1 -1/2+1/2r5 -1/2-1/2r5\n\
Q 1 -1/2-1/2r5 -1/2+1/2r5\n\
ppoly 1 2\nppoly 2 1\n",
        ),
        // The octagon.
        (
            "{2,1,1,1;1,1,1,2}",
            "verdict survivor\narray {2,1,1,1;1,1,1,2}\n\
passed first degree order cross size intersect mult\nn 8\nsizes 1 2 2 2 1\nroot 2\n\
theta 2 1r2 0 -1r2 -2\nP 1 2 2 2 1\nP 1 1r2 0 -1r2 -1\nP 1 0 -2 0 1\nP 1 -1r2 0 1r2 -1\n\
P 1 -2 2 -2 1\nQ 1 2 2 2 1\nQ 1 1r2 0 -1r2 -1\nQ 1 0 -2 0 1\nQ 1 -1r2 0 1r2 -1\n\
Q 1 -2 2 -2 1\n\
ppoly 1 2 3 4\nppoly 3 2 1 4\n",
        ),
        // The multiplicity m_1 is 8 + (4/13)√13.
        (
            "{4,3;1,1}",
            "drg 1\narray 2 4 3 1 1\nclaim mult 1\nk 1 4 12\nframe 13\ntheta 0 4 1 0 1\n\
theta 1 -1 2 1 2\ntheta 2 -1 2 -1 2\nprow 0 1 1 0 1 4 1 0 1 12 1 0 1\n\
prow 1 1 1 0 1 -1 2 1 2 -1 2 -1 2\nprow 2 1 1 0 1 -1 2 -1 2 -1 2 1 2\n\
qrow 0 1 1 0 1 8 1 4 13 8 1 -4 13\nqrow 1 1 1 0 1 -1 2 25 26 -1 2 -25 26\n\
qrow 2 1 1 0 1 -1 2 -9 26 -1 2 9 26\nend\nverdict infeasible mult 1 spectral\n",
        ),
        // The heptagon.
        (
            "{2,1,1;1,1,1}",
            "verdict refused-spectrum\narray {2,1,1;1,1,1}\n\
passed first degree order cross size intersect\npending mult spectrum\nfactor -2 1\n\
rest -1 -2 1 1\n",
        ),
        // The Biggs-Smith graph.
        (
            "{3,2,2,2,1,1,1;1,1,1,1,1,1,3}",
            "verdict refused-spectrum\narray {3,2,2,2,1,1,1;1,1,1,1,1,1,3}\n\
passed first degree order cross size intersect\npending mult spectrum\nfactor -3 1\n\
factor -2 1\nfactor 0 1\nfactor -4 -1 1\nrest -3 0 3 1\n",
        ),
        // Tutte's 12-cage, with the roots of 2 and of 6.
        (
            "{3,2,2,2,2,2;1,1,1,1,1,3}",
            "verdict refused-spectrum\narray {3,2,2,2,2,2;1,1,1,1,1,3}\n\
passed first degree order cross size intersect\npending mult spectrum\nfactor -3 1\n\
factor 0 1\nfactor 3 1\nfactor -2 0 1\nfactor -6 0 1\nfirst -2 0 1\nsecond -6 0 1\n",
        ),
        // The Hamming graph H(12,250): its last polynomial is too wide.
        (
            "{2988,2739,2490,2241,1992,1743,1494,1245,996,747,498,249;1,2,3,4,5,6,7,8,9,10,11,12}",
            "verdict undecided\n\
array {2988,2739,2490,2241,1992,1743,1494,1245,996,747,498,249;1,2,3,4,5,6,7,8,9,10,11,12}\n\
passed first degree order cross size intersect\npending mult wide poly 13\n",
        ),
        // The incidence graph of a projective plane of order 2000.
        (
            "{2001,2000,2000;1,1,2001}",
            "verdict survivor\narray {2001,2000,2000;1,1,2001}\n\
passed first degree order cross size intersect mult\nn 8004002\nsizes 1 2001 4002000 4000000\n\
root 5\ntheta 2001 20r5 -20r5 -2001\nP 1 2001 4002000 4000000\nP 1 20r5 -1 -20r5\n\
P 1 -20r5 -1 20r5\nP 1 -2001 4002000 -4000000\nQ 1 4002000 4002000 1\n\
Q 1 40000r5 -40000r5 -1\nQ 1 -1 -1 1\nQ 1 -2001/100r5 2001/100r5 -1\n\
ppoly 1 2 3\nppoly 3 2 1\n",
        ),
    ];
    for (array, report) in cases {
        let array = Array::read(array.as_bytes())?;
        let tests = TestSet::read("mult").expect(&rt, "a list of tests");
        let text = report_on(rt.alloc(), &array, &tests)?;
        assert_eq!(rt; text.as_slice(), report.as_bytes(), "{report}");
    }
    Ok(())
}

/// The cube of dimension 12: its P and Q have the first row 1, 12, 66, .. and the last one with
/// alternating signs.
#[test]
fn report_of_a_cube(rt: HostRuntime) -> Result<(), Fail> {
    let cube = Array::read(b"{12,11,10,9,8,7,6,5,4,3,2,1;1,2,3,4,5,6,7,8,9,10,11,12}")?;
    let tests = TestSet::read("mult").expect(&rt, "a list of tests");
    let text = report_on(rt.alloc(), &cube, &tests)?;
    let start = b"verdict survivor\narray {12,11,10,9,8,7,6,5,4,3,2,1;1,2,3,4,5,6,7,8,9,10,11,12}\n\
passed first degree order cross size intersect mult\nn 4096\n\
sizes 1 12 66 220 495 792 924 792 495 220 66 12 1\nroot 0\n\
theta 12 10 8 6 4 2 0 -2 -4 -6 -8 -10 -12\nP 1 12 66 220 495 792 924 792 495 220 66 12 1\n";
    let end = b"Q 1 -12 66 -220 495 -792 924 -792 495 -220 66 -12 1\n\
ppoly 1 2 3 4 5 6 7 8 9 10 11 12\nppoly 11 2 9 4 7 6 5 8 3 10 1 12\n";
    assert!(rt; text.as_slice().starts_with(start), "the first lines");
    assert!(rt; text.as_slice().ends_with(end), "the last lines");
    Ok(())
}
