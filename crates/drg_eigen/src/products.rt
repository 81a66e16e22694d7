//! The numbers that may be the product of two roots.

ghost use Rattle.std.specs.Prelude.{◌≡◌, ◌≢◌, ◌↔◌, ◌<◌, ◌≤◌, ◌*◌, ◌^◌, ◌-ℤ◌, pos, IfOk, IsTrue};
ghost use Rattle.drg_whole.specs.Division.{Divides};
ghost use Rattle.drg_whole.specs.Range.{InRange};
ghost use Rattle.drg_eigen.specs.Products.{AreDivisors};

use drg_whole::Whole;
use std::alloc::{AllocError, Global};

/// The divisors of the number from `most` down to `-most`.
pub fn products(alloc: Global, number: i128, most: u32) -> Result<Vec<i32>, AllocError>
    requires number { InRange number }
    requires nonzero { number ≢ pos 0 }
    requires most { most < 2 ^ 30 }
    ensures { IfOk result (λ ts. AreDivisors number most ts.items) }
{
    let mut products = Vec::new(alloc);
    let limit = number.unsigned_abs().min(u128::from(most)) as u32;
    'numbers: for steps in 0..2 * limit + 1 {
        let t = below(limit, steps);
        if divides(t, Whole::new(number)) {
            products.push(t)?;
        }
    }
    Ok(products)
}

/// Whether the first number divides the second.
fn divides(t: i32, number: Whole) -> bool
    ensures { IsTrue result ↔ Divides t number.value }
{
    Whole::new(i128::from(t)).divides(number)
}

/// The number that is `steps` below `top`.
pub fn below(top: u32, steps: u32) -> i32
    requires top { top < 2 ^ 30 }
    requires steps { steps ≤ 2 * top }
    ensures { result ≡ pos top -ℤ pos steps }
{
    top as i32 - steps as i32
}
