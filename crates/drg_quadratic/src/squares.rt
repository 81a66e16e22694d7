ghost use Rattle.std.specs.Prelude.{◌≡◌, ◌*◌, ◌<◌};
ghost use Rattle.drg_algebra.specs.Root.{IsSquarefree};

/// The pair `(f, root)` with `x = f²·root` and a squarefree root, which is 1 where x is a square. No
/// other pair has this (`drg_algebra::greatest_common_divisors`).
pub fn split_square(x: u32) -> (u32, u32)
    requires { 0 < x }
    ensures product { (result.0 * result.0) * result.1 ≡ x }
    ensures squarefree { IsSquarefree result.1 }
{
    let mut f = 1;
    let mut root = x;
    let mut divisor = 2;
    // While the square of the divisor is at most the root.
    'divisors: while divisor <= root / divisor {
        let square = divisor * divisor;
        let rest = root % square;
        if rest != 0 {
            divisor += 1;
            continue;
        }
        root /= square;
        f *= divisor;
    }
    (f, root)
}
