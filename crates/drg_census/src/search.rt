//! The arrays of a census, one after the other.

ghost use Rattle.std.specs.Prelude.{◌≡◌, ◌+◌, ◌<◌, ℕ, IfOk, OnOk, length};
ghost use Rattle.drg_census.specs.Begins.{AppendsAllFrom, IsBeginning};
ghost use Rattle.drg_census.specs.Census.{IsCensus, IsWithinLimits};

use crate::beginning::{Beginning, may_begin};
use crate::member::member_of;
use drg_array::Array;
use std::alloc::{AllocError, Global};

/// Which arrays are looked for: those of diameter d, valency k and n vertices.
#[derive(Clone, Copy)]
pub struct Sought {
    pub d: usize,
    pub k: u16,
    pub n: u32,
}

/// All arrays of diameter `d`, valency `k` and `n` vertices that pass tests 1 to 9, ascending by their
/// entries, b before c, for `d` from 1 to 4, `k` from 1 to 32 and `n` from 2 to 2,000. Want of memory is
/// the one error.
pub fn census(alloc: Global, d: u8, k: u16, n: u32) -> Result<Vec<Array>, AllocError>
    requires { IsWithinLimits d k n }
    ensures { IfOk result (λ arrays. IsCensus d k n arrays.items) }
{
    let sought = Sought {
        d: usize::from(d),
        k,
        n,
    };
    let mut found = Vec::new(alloc);
    search(alloc, sought, Beginning::of(k), &mut found)?;
    Ok(found)
}

/// Appends the arrays that begin with these entries.
fn search(
    alloc: Global,
    sought: Sought,
    beginning: Beginning,
    found: &mut Vec<Array>,
) -> Result<(), AllocError>
    requires { IsBeginning sought.d sought.k sought.n beginning }
    ensures { OnOk result
        (AppendsAllFrom sought.d sought.k sought.n beginning found.old.items found.new.items) }
{
    if !may_begin(sought, beginning.as_slice()) {
        return Ok(());
    }
    if beginning.len() == 2 * sought.d {
        if let Some(array) = member_of(alloc, sought, beginning.as_slice())? {
            found.push(array)?;
        }
        return Ok(());
    }
    'entries: for entry in 1..sought.k + 1 {
        search(alloc, sought, beginning.followed_by(entry), found)?;
    }
    Ok(())
}
