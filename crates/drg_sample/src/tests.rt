//! Samples by hand.
use crate::{Found, generate, render_summary};
use drg_array::Test;
use std::alloc::{AllocError, Global};
use std::test::Fail;

/// The canonical texts of the arrays that a seed generates.
fn generated(alloc: Global, seed: u32, count: u32) -> Result<Vec<u8>, AllocError> {
    let mut out = Vec::new(alloc);
    for array in &generate(alloc, seed, count)? {
        array.write_text(&mut out)?;
    }
    Ok(out)
}

#[test]
fn generates_arrays(rt: HostRuntime) -> Result<(), Fail> {
    for (seed, count, texts) in [
        (1, 0, ""),
        // The first draws from 1 are 16838, 5758, 10113 and 17515.
        (1, 1, "{31,30;1,2}"),
        // The arrays of other seeds are those of a program written apart from this one.
        (
            1,
            4,
            "{31,30;1,2}{20,19,18;1,1,1}{20,19,18;1,3,5}{6,5,4;1,3,4}",
        ),
        (0, 4, "{21,19;1,2}{10,8;1,2}{13,12;1,2}{11,10,9;1,2,3}"),
        (7, 3, "{29,26;1,1}{8,7,4;1,3,5}{16,13,10;1,3,4}"),
        (2_147_483_647, 2, "{32,30,29;1,2,4}{26,24;1,3}"),
    ] {
        let found = generated(rt.alloc(), seed, count)?;
        assert_eq!(rt; found.as_slice(), texts.as_bytes());
    }
    Ok(())
}

#[test]
fn generates_a_large_sample(rt: HostRuntime) -> Result<(), Fail> {
    let arrays = generate(rt.alloc(), 2_147_483_647, 100_000)?;
    assert_eq!(rt; arrays.len(), 100_000);
    for array in &arrays {
        assert!(rt; array.d() == 2 || array.d() == 3);
    }
    Ok(())
}

#[test]
fn tells_what_was_found(rt: HostRuntime) -> Result<(), Fail> {
    let text = render_summary(rt.alloc(), 1, &[Found::Infeasible(Test::Handshake)])?;
    assert_eq!(rt;
        text.as_slice(),
        b"sample 1 1\nsurvivor 0\nrefused-spectrum 0\nundecided 0\ninfeasible first 0\ninfeasible degree 0\ninfeasible order 0\ninfeasible cross 0\ninfeasible size 0\ninfeasible intersect 0\ninfeasible handshake 1\ninfeasible induced 0\ninfeasible triangles 0\ninfeasible mult 0\ninfeasible krein 0\ninfeasible absolute 0\ninfeasible triple 0\ninfeasible ktriple 0\n".as_slice()
    );
    Ok(())
}
