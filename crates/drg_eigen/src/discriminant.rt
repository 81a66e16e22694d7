//! The discriminants of the factors `x² - sx + t`.

ghost use Rattle.std.specs.Prelude.{◌≡◌, ◌↔◌, ◌*◌, ◌<ℤ◌, pos, IsTrue};
ghost use Rattle.drg_algebra.specs.Root.{IsSquarefree};
ghost use Rattle.drg_eigen.specs.Factor.{discriminant as the_discriminant, quadratic, IsIrreducible, IsSmall};

use drg_quadratic::split_square;

/// The number `s² - 4t`.
pub fn discriminant(s: i32, t: i32) -> i64
    ensures { result ≡ the_discriminant s t }
{
    i64::from(s) * i64::from(s) - 4 * i64::from(t)
}

/// The pair `(f, root)` with `s² - 4t = f²·root` and a squarefree root.
pub fn split_discriminant(s: i32, t: i32) -> (u32, u32)
    requires small { IsSmall 4095 (quadratic s t) }
    requires positive { pos 0 <ℤ the_discriminant s t }
    ensures product { pos ((result.0 * result.0) * result.1) ≡ the_discriminant s t }
    ensures squarefree { IsSquarefree result.1 }
{
    split_square(discriminant(s, t) as u32)
}

/// Whether `x² - sx + t`, which has two real roots, has no whole one.
pub fn is_irreducible(s: i32, t: i32) -> bool
    requires small { IsSmall 4095 (quadratic s t) }
    requires positive { pos 0 <ℤ the_discriminant s t }
    ensures { IsTrue result ↔ IsIrreducible (quadratic s t) }
{
    split_discriminant(s, t).1 != 1
}
