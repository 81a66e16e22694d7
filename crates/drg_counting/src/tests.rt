use crate::{basic, parity};
use drg_array::{Array, Claim, TestSet};
use drg_intersection::numbers_of;
use std::test::Fail;

#[test]
fn basic_names_the_first_failing_claim(rt: HostRuntime) -> Result<(), Fail> {
    let cases: [(&[u8], Option<Claim>); 8] = [
        (b"{3,2;1,1}", None),
        (b"{3;1}", None),
        (b"{3,2;2,1}", Some(Claim::First)),
        (b"{3,3;1,1}", Some(Claim::Degree { i: 1 })),
        // a_1 = 4 - 1 - 1 = 2, a_2 = 4 - 2 - 1 = 1, a_3 = 3, but b_1 = 1 < 2 = b_2.
        (b"{4,1,2;1,1,1}", Some(Claim::Order { i: 1 })),
        // c_2 = 2 > 1 = c_3.
        (b"{5,2,1;1,2,1}", Some(Claim::Order { i: 2 })),
        // c_2 = 3 > 2 = b_1, and c_2 <= b_0.
        (b"{6,2,1;1,3,3}", Some(Claim::Cross { i: 2, j: 1 })),
        (b"{1;1}", None),
    ];
    for (text, expected) in cases {
        let array = Array::read(text)?;
        assert_eq!(rt; basic(&array), expected, "{text:?}");
    }
    Ok(())
}

#[test]
fn parity_names_the_first_failing_claim(rt: HostRuntime) -> Result<(), Fail> {
    let all = "handshake,induced,triangles";
    let cases: [(&[u8], &str, Option<Claim>); 10] = [
        (b"{3,2;1,1}", all, None),
        (b"{3,2,1;1,2,3}", all, None),
        // n = 7, k_1 = 3 and p^1_11 = 1.
        (b"{3,1;1,1}", all, Some(Claim::Handshake { i: 1 })),
        (
            b"{3,1;1,1}",
            "triangles,induced",
            Some(Claim::Induced { i: 1, j: 1 }),
        ),
        (b"{3,1;1,1}", "triangles", Some(Claim::Triangles { i: 1 })),
        (b"{3,1;1,1}", "none", None),
        // n = 8, k is 1, 3, 3, 1, and p^1_11 = 1.
        (b"{3,1,1;1,1,3}", all, Some(Claim::Induced { i: 1, j: 1 })),
        // n = 16, k_1 = k_2 = 5, p^1_11 = p^1_12 = 2 and p^2_21 = 1.
        (b"{5,2,2;1,2,2}", all, Some(Claim::Induced { i: 2, j: 1 })),
        // n = 13, k_1 = 4 and p^1_11 = 1: 6 doesn't divide 52.
        (b"{4,2;1,1}", all, Some(Claim::Triangles { i: 1 })),
        (b"{4,2;1,1}", "handshake,induced", None),
    ];
    for (text, names, expected) in cases {
        let array = Array::read(text)?;
        let numbers = numbers_of(rt.alloc(), &array)?;
        match TestSet::read(names) {
            Some(tests) => assert_eq!(rt; parity(&numbers, &tests), expected, "{text:?}"),
            None => assert!(rt; false, "{names}"),
        }
    }
    Ok(())
}
