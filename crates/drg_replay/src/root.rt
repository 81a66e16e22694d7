//! The number whose square root the field numbers of a frame are made with.
ghost use Rattle.std.specs.Prelude.{◌≡◌, ◌<◌, ◌^◌};
ghost use Rattle.drg_replay.specs.Roots.{has_no_square as the_has_no_square, is_root as the_is_root};

use crate::index::index;

/// Whether the square of no number from 2 to m+1 divides n.
#[tactic(auto, unfolding(crate::specs::Roots::has_no_square))]
fn has_no_square(n: u64, m: u64) -> bool
    requires { m < 2 ^ 16 }
    ensures { result ≡ the_has_no_square n m }
{
    let mut none = true;
    'numbers: for k in 0..m {
        none = none && n % ((k + 2) * (k + 2)) != 0;
    }
    none
}

/// Whether it is 0, or squarefree, above 1 and below 2^32.
pub fn is_root(root: i128) -> bool
    ensures { result ≡ the_is_root root }
{
    if root == 0 {
        return true;
    }
    match index(2, root, 4_294_967_295) {
        Ok(root) => has_no_square(root as u64, 65_534),
        Err(_) => false,
    }
}
