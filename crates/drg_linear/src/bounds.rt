//! Bounds of the unknowns, in their order, and the sums of terms within them.
ghost use Rattle.std.specs.Prelude.{◌≡◌, ◌<◌, ◌^◌, ◌+ℤ◌, ◌&&◌};
ghost use Rattle.drg_whole.specs.Range.{Gives, in_range};
ghost use Rattle.drg_whole.specs.Sums.{sum_from, sum_fits_from};
ghost use Rattle.drg_whole.specs.Whole.{value_of};
ghost use Rattle.drg_linear.specs.Rooms.{bounds_at as the_bounds_at, end_of as the_end_of, end_product as the_end_product, end_products};

use crate::unknown::Unknown;
use drg_whole::{Product, Whole, Wide};

/// Which end of its range in a room a sum of terms takes.
#[derive(Clone, Copy, Debug, PartialEq, Eq)]
pub enum End {
    Least,
    Greatest,
}

/// The bounds at a place, and 0 and 0 outside the room.
pub fn bounds_at(room: &[(i128, i128)], place: usize) -> (i128, i128)
    ensures { result ≡ the_bounds_at room.now place }
{
    if place < room.len() {
        room[place]
    } else {
        (0, 0)
    }
}

/// The bound with which a term with this coefficient adds least, or most.
fn end_of(side: End, bounds: (i128, i128), coefficient: i128) -> i128
    ensures { result ≡ the_end_of side bounds coefficient }
{
    match side {
        End::Least => if coefficient > 0 { bounds.0 } else { bounds.1 },
        End::Greatest => if coefficient > 0 { bounds.1 } else { bounds.0 },
    }
}

/// The least, or the greatest, that a term adds in the room.
fn end_product(
    d: usize,
    side: End,
    room: &[(i128, i128)],
    term: (Unknown, i128),
) -> Result<Whole, Wide>
    requires { d < 2 ^ 8 }
    ensures { let product = the_end_product d side room.now term in
        Gives value_of result (in_range product) product }
{
    let bounds = bounds_at(room, term.0.place(d));
    Product {
        left: term.1,
        right: end_of(side, bounds, term.1),
    }
    .value()
}

/// The total with the least, or the greatest, that a term adds in the room: first the product, then
/// the sum.
pub fn plus_end(
    total: Whole,
    d: usize,
    side: End,
    room: &[(i128, i128)],
    term: (Unknown, i128),
) -> Result<Whole, Wide>
    requires { d < 2 ^ 8 }
    ensures { let product = the_end_product d side room.now term in
        Gives value_of result
        (in_range product && in_range (total.value +ℤ product)) (total.value +ℤ product) }
{
    total.plus(end_product(d, side, room, term)?)
}

/// The least, or the greatest, sum of the terms in the room, added to a total from left to right.
pub fn end_sum_onto(
    total: Whole,
    d: usize,
    side: End,
    room: &[(i128, i128)],
    terms: &[(Unknown, i128)],
) -> Result<Whole, Wide>
    requires { d < 2 ^ 8 }
    ensures { let products = end_products d side room.now terms.now in
        Gives value_of result
        (sum_fits_from total.value products) (sum_from total.value products) }
{
    let mut sum = total;
    'terms: for term in terms {
        sum = plus_end(sum, d, side, room, *term)?;
    }
    Ok(sum)
}
