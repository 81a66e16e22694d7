//! Equations that can't hold modulo a number.
ghost use Rattle.std.specs.Prelude.{◌≡◌, ◌<◌, ◌^◌, ◌≤ℤ◌, ◌-ℤ◌, ◌*ℤ◌, ◌&&◌, pos, true, unsigned_abs, if◌then◌else◌};
ghost use Rattle.drg_whole.specs.Range.{Gives, in_range};
ghost use Rattle.drg_whole.specs.Whole.{value_of};
ghost use Rattle.drg_whole.specs.Residues.{divides as the_divides};
ghost use Rattle.drg_rooms.specs.Steps.{first_failure};
ghost use Rattle.drg_rooms.specs.Moduli.{all_in_range, less_fits_from, mod_steps};
ghost use Rattle.drg_linear.specs.Moduli.{divides_free, fixed_product, fixed_products, is_fixed as the_is_fixed, less_from, term_divides};

use crate::refusal::{Refusal, met_where};
use drg_linear::{Equation, Unknown, bounds_at};
use drg_whole::{Product, Whole, Wide};

/// Whether g divides z.
fn divides(g: i128, z: i128) -> bool
    requires { pos 2 ≤ℤ g }
    ensures { result ≡ the_divides (unsigned_abs g) z }
{
    z.rem_euclid(g) == 0
}

/// Whether the term's unknown isn't free, or g divides its coefficient.
fn check_term(d: usize, room: &[(i128, i128)], g: i128, term: (Unknown, i128)) -> bool
    requires d { d < 2 ^ 8 }
    requires g { pos 2 ≤ℤ g }
    ensures { result ≡ term_divides d room.now (unsigned_abs g) term }
{
    let bounds = bounds_at(room, term.0.place(d));
    bounds.0 >= bounds.1 || divides(g, term.1)
}

/// Whether g divides the coefficient of each free term.
fn check_free(d: usize, room: &[(i128, i128)], g: i128, terms: &[(Unknown, i128)]) -> bool
    requires d { d < 2 ^ 8 }
    requires g { pos 2 ≤ℤ g }
    ensures { result ≡ divides_free d room.now (unsigned_abs g) terms.now }
{
    'terms: for term in terms {
        if !check_term(d, room, g, *term) {
            return false;
        }
    }
    true
}

/// A coefficient times a bound.
fn bound_product(coefficient: i128, bound: i128) -> Result<Whole, Wide>
    ensures { Gives value_of result (in_range (coefficient *ℤ bound)) (coefficient *ℤ bound) }
{
    Product {
        left: coefficient,
        right: bound,
    }
    .value()
}

/// The total less the term, where the term is fixed, and the total else.
fn less_term(
    total: Whole,
    d: usize,
    room: &[(i128, i128)],
    term: (Unknown, i128),
) -> Result<Whole, Wide>
    requires { d < 2 ^ 8 }
    ensures { let product = fixed_product d room.now term in
        Gives value_of result
        (if the_is_fixed d room.now term
        then in_range product && in_range (total.value -ℤ product)
        else true)
        (if the_is_fixed d room.now term then total.value -ℤ product else total.value) }
{
    let bounds = bounds_at(room, term.0.place(d));
    if bounds.0 == bounds.1 {
        total.minus(bound_product(term.1, bounds.0)?)
    } else {
        Ok(total)
    }
}

/// The total less the fixed terms, from left to right.
fn less_fixed(
    total: Whole,
    d: usize,
    room: &[(i128, i128)],
    terms: &[(Unknown, i128)],
) -> Result<Whole, Wide>
    requires { d < 2 ^ 8 }
    ensures { let products = fixed_products d room.now terms.now in
        Gives value_of result
        (all_in_range products && less_fits_from total.value products)
        (less_from total.value products) }
{
    let mut left = total;
    'terms: for term in terms {
        left = less_term(left, d, room, *term)?;
    }
    Ok(left)
}

/// Whether the equation can't hold modulo g in the room.
pub fn check_mod(
    d: usize,
    room: &[(i128, i128)],
    g: i128,
    equation: &Equation,
) -> Result<(), Refusal>
    requires { d < 2 ^ 8 }
    ensures { result ≡ first_failure (mod_steps d room.now g equation.now) }
{
    if g < 2 {
        return Err(Refusal::NotMet);
    }
    let terms = equation.terms.as_slice();
    if !check_free(d, room, g, terms) {
        return Err(Refusal::NotMet);
    }
    let left = less_fixed(equation.right_side(), d, room, terms)?;
    met_where(!divides(g, left.value))
}
