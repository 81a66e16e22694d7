//! Products of any two numbers, and their sum from left to right.

ghost use Rattle.std.specs.Prelude.{◌≡◌, ◌*ℤ◌};
ghost use Rattle.drg_whole.specs.Range.{in_range, Gives};
ghost use Rattle.drg_whole.specs.Whole.{value_of};
ghost use Rattle.drg_whole.specs.Sums.{products_of, sum_from, sum_fits_from};

use crate::whole::{Whole, Wide};

/// Two factors.
#[derive(Clone, Copy, Debug, PartialEq, Eq)]
pub struct Product {
    pub left: i128,
    pub right: i128,
}

impl Product {
    /// The product. Factors may be `i128::MIN`: what counts is the product.
    #[inline]
    pub fn value(self) -> Result<Whole, Wide>
        ensures { Gives value_of result (in_range (self.left *ℤ self.right)) (self.left *ℤ self.right) }
    {
        Whole::within(self.left.checked_mul(self.right))
    }
}

/// The products added to a total from left to right: refused where a product or a sum on the way isn't
/// in range.
pub fn sum_onto(total: Whole, products: &[Product]) -> Result<Whole, Wide>
    ensures { Gives value_of result
        (sum_fits_from total.value (products_of products.now)) (sum_from total.value (products_of products.now)) }
{
    let mut sum = total;
    'products: for product in products {
        sum = sum.plus(product.value()?)?;
    }
    Ok(sum)
}
