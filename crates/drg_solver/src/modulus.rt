//! Equations that can't hold modulo a number.
ghost use Rattle.std.specs.Prelude.{◌≡◌, ◌<◌, ◌^◌, ◌≤ℤ◌, ◌-ℤ◌, ◌&&◌, ℕ, IfSome, IfNone, pos, true, unsigned_abs, if◌then◌else◌, All};
ghost use Rattle.drg_whole.specs.Range.{Gives, InRange, in_range};
ghost use Rattle.drg_whole.specs.Whole.{value_of};
ghost use Rattle.drg_whole.specs.Residues.{divides as the_divides};
ghost use Rattle.drg_linear.specs.Closing.{FailsModulo, Misses};
ghost use Rattle.drg_linear.specs.Moduli.{fixed_product, fixed_products, is_free as the_is_free, is_fixed as the_is_fixed, less_from};
ghost use Rattle.drg_linear.specs.Rooms.{IsRoom};
ghost use Rattle.drg_linear.specs.Systems.{FitsOver};
ghost use Rattle.drg_rooms.specs.Moduli.{all_in_range, less_fits_from};
ghost use Rattle.drg_solver.specs.Closings.{ClosesBy};
ghost use Rattle.drg_solver.specs.Moduli.{divisor_with as the_divisor_with, divisor_from, less_fixed as the_less_fixed};

use crate::closing::Closing;
use drg_linear::{Equation, Room, Unknown, bounds_at};
use drg_whole::{Product, Whole, Wide};

/// The greatest common divisor with a term's coefficient, where the term is free.
fn divisor_with(d: usize, room: &[(i128, i128)], g: Whole, term: (Unknown, i128)) -> Whole
    requires d { d < 2 ^ 8 }
    requires term { InRange term.1 }
    ensures { result.value ≡ the_divisor_with d room.now g.value term }
{
    let bounds = bounds_at(room, term.0.place(d));
    if bounds.0 < bounds.1 {
        g.common_divisor(Whole::new(term.1))
    } else {
        g
    }
}

/// The greatest common divisor of the coefficients of the free terms, 0 where no term is free.
fn free_divisor(room: &Room, equation: &Equation) -> Whole
    ensures value { result.value
        ≡ divisor_from room.now.d room.now.bounds (pos 0) equation.now.terms }
    ensures room { IsRoom room.now }
{
    let d = room.d();
    let bounds = room.as_slice();
    let mut g = Whole::new(0);
    'terms: for term in equation.terms.as_slice() {
        g = divisor_with(d, bounds, g, *term);
    }
    g
}

/// A number less a term, where the term is fixed.
fn less_fixed(
    d: usize,
    room: &[(i128, i128)],
    total: Whole,
    term: (Unknown, i128),
) -> Result<Whole, Wide>
    requires { d < 2 ^ 8 }
    ensures { let product = fixed_product d room.now term in
        Gives value_of result
        (if the_is_fixed d room.now term
        then in_range product && in_range (total.value -ℤ product)
        else true)
        (the_less_fixed d room.now total.value term) }
{
    let bounds = bounds_at(room, term.0.place(d));
    if bounds.0 == bounds.1 {
        let product = Product {
            left: term.1,
            right: bounds.0,
        };
        total.minus(product.value()?)
    } else {
        Ok(total)
    }
}

/// The right side less the fixed terms, from left to right.
fn checked_left(room: &Room, equation: &Equation) -> Result<Whole, Wide>
    ensures value { let products = fixed_products room.now.d room.now.bounds equation.now.terms in
        Gives value_of result
        (all_in_range products && less_fits_from equation.now.right products)
        (less_from equation.now.right products) }
    ensures room { IsRoom room.now }
{
    let d = room.d();
    let bounds = room.as_slice();
    let mut left = equation.right_side();
    'terms: for term in equation.terms.as_slice() {
        left = less_fixed(d, bounds, left, *term)?;
    }
    Ok(left)
}

/// The right side less the fixed terms.
fn left_by_fixed(room: &Room, equation: &Equation) -> Whole
    requires { FitsOver room.now equation.now }
    ensures { result.value ≡ less_from equation.now.right
        (fixed_products room.now.d room.now.bounds equation.now.terms) }
{
    match checked_left(room, equation) {
        Ok(left) => left,
        // An equation that fits over the room isn't too wide in it.
        Err(Wide) => unreachable!(),
    }
}

/// Whether g divides z.
fn divides(g: i128, z: i128) -> bool
    requires { pos 2 ≤ℤ g }
    ensures { result ≡ the_divides (unsigned_abs g) z }
{
    z.rem_euclid(g) == 0
}

/// A number modulo which the equation fails in the room, where there is one and the equation doesn't
/// miss: then it fails modulo the greatest common divisor of the coefficients of the free terms.
fn modulus(room: &Room, equation: &Equation) -> Option<i128>
    requires { FitsOver room.now equation.now }
    ensures some { IfSome result (λ g. (pos 2 ≤ℤ g)
        × FailsModulo room.now.d room.now.bounds equation.now (unsigned_abs g)) }
    ensures none { IfNone result ((g : ℕ) → FailsModulo room.now.d room.now.bounds equation.now g
        → Misses room.now.d room.now.bounds equation.now) }
{
    let g = free_divisor(room, equation).value;
    if g < 2 {
        return None;
    }
    if divides(g, left_by_fixed(room, equation).value) {
        return None;
    }
    Some(g)
}

/// The first equation that fails modulo some number and doesn't miss.
pub fn first_modulus(room: &Room, equations: &[Equation]) -> Option<Closing>
    requires { All (FitsOver room.now) equations.now }
    ensures some { IfSome result (ClosesBy room.now.d room.now.bounds equations.now) }
    ensures none { IfNone result (All (λ e. (g : ℕ) → FailsModulo room.now.d room.now.bounds e g
        → Misses room.now.d room.now.bounds e) equations.now) }
{
    'equations: for (n, equation) in equations.iter().enumerate() {
        if let Some(g) = modulus(room, equation) {
            return Some(Closing::Modulus { equation: n, g });
        }
    }
    None
}
