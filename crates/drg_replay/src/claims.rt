//! What a claim asks: at its line and at the end.
ghost use Rattle.std.specs.Prelude.{◌≡◌, ◌≤◌};
ghost use Rattle.drg_array.specs.Entries.{diameter};
ghost use Rattle.drg_replay.specs.Steps.{first_failure};
ghost use Rattle.drg_quadratic.specs.Quadratic.{value_of};
ghost use Rattle.drg_replay.specs.Claims.{claim_is_met as the_claim_is_met, is_distance as the_is_distance, size_closing, intersect_closing, is_positive_whole as the_is_positive_whole, mult_closing, closing_steps};

use crate::entries::times_entry;
use crate::field_number::value_at;
use crate::frame::{Frame, all_stand};
use crate::known::Known;
use crate::krein_claims::{check_absolute, check_krein_claim};
use crate::parity::{check_handshake, check_induced, check_triangles, divides};
use crate::refusal::{Refusal, met_where, not_built};
use crate::rows::{balance_sum, row_stands};
use crate::sizes::{size_at, values_of};
use drg_array::{Array, Claim};
use drg_derivation::NumberList;
use drg_fraction::Field;
use drg_quadratic::Quadratic;

/// Whether i is from 1 to d.
fn is_distance(array: &Array, i: u8) -> bool
    ensures { result ≡ the_is_distance array.now i }
{
    1 <= i && usize::from(i) <= array.d()
}

/// Whether the indices of the claim lie in the range of its test.
pub fn claim_is_met(array: &Array, claim: Claim) -> bool
    ensures { result ≡ the_claim_is_met array.now claim }
{
    let d = array.d();
    match claim {
        Claim::First => true,
        Claim::Degree { i } => is_distance(array, i),
        Claim::Order { i } => 1 <= i && usize::from(i) < d,
        Claim::Cross { i, j } => 1 <= i && usize::from(i) + usize::from(j) <= d,
        Claim::Size { i } => is_distance(array, i),
        Claim::Intersect { h, i, j } => {
            usize::from(h) <= d && usize::from(i) <= d && usize::from(j) <= d
        }
        Claim::Handshake { i } => is_distance(array, i),
        Claim::Induced { i, j } => is_distance(array, i) && is_distance(array, j),
        Claim::Triangles { i } => is_distance(array, i),
        Claim::Mult { i } => is_distance(array, i),
        Claim::Triple { u, v, w } => {
            is_distance(array, u) && is_distance(array, v) && is_distance(array, w)
        }
        _ => false,
    }
}

/// Whether `size i` is closed.
fn check_size(array: &Array, sizes: &Option<NumberList>, i: usize) -> Result<(), Refusal>
    requires low { 1 ≤ i }
    requires high { i ≤ diameter array.now }
    ensures { result ≡ first_failure (size_closing array.now sizes.now i) }
{
    array.known_valid();
    if values_of(sizes).len() < i {
        return Err(Refusal::NotMet);
    }
    let product = times_entry(size_at(sizes, i - 1), array.b(i - 1))?;
    met_where(!divides(array.c(i), product.value))
}

/// Whether `intersect h i j` is closed.
fn check_intersect(
    array: &Array,
    h: usize,
    rows: &[NumberList],
    i: usize,
    j: usize,
) -> Result<(), Refusal>
    requires i { i ≤ diameter array.now }
    requires j { j ≤ diameter array.now }
    ensures { result ≡ first_failure (intersect_closing array.now h rows.now i j) }
{
    array.known_valid();
    if i == 0 || !row_stands(rows, i - 1) {
        return Err(Refusal::NotMet);
    }
    let numerator = balance_sum(array, h, rows, i - 1, j)?;
    met_where(numerator.value < 0 || !divides(array.c(i), numerator.value))
}

/// Whether the value is a positive whole number.
fn is_positive_whole(x: Quadratic) -> bool
    ensures { result ≡ the_is_positive_whole (value_of x) }
{
    let whole = x.a();
    x.b().num() == 0 && whole.den() == 1 && whole.num() > 0
}

/// Whether `mult i` is closed.
fn check_mult(array: &Array, frame: &Option<Frame>, i: usize) -> Result<(), Refusal>
    requires { i ≤ diameter array.now }
    ensures { result ≡ first_failure (mult_closing array.now frame.now i) }
{
    array.known_valid();
    let Some(frame) = frame else {
        return Err(Refusal::NotMet);
    };
    if !all_stand(array, frame.q()) {
        return Err(Refusal::NotMet);
    }
    let multiplicity = value_at(frame.root(), frame.q()[0].as_slice(), i);
    met_where(!is_positive_whole(multiplicity))
}

/// Whether the claim is closed by what is known at the end.
pub fn check_closing(known: &Known) -> Result<(), Refusal>
    ensures { result ≡ first_failure (closing_steps known.now) }
{
    let array = known.array();
    let counts = known.counts();
    array.known_valid();
    match known.claim() {
        Claim::First => met_where(array.c(1) != 1),
        Claim::Degree { i } => met_where(array.a(usize::from(i)) < 0),
        Claim::Order { i } => {
            let i = usize::from(i);
            met_where(array.b(i) < array.b(i + 1) || array.c(i + 1) < array.c(i))
        }
        Claim::Cross { i, j } => { met_where(array.b(usize::from(j)) < array.c(usize::from(i))) }
        Claim::Size { i } => check_size(array, counts.sizes(), usize::from(i)),
        Claim::Intersect { h, i, j } => {
            let h = usize::from(h);
            check_intersect(array, h, counts.rows_at(h), usize::from(i), usize::from(j))
        }
        Claim::Handshake { i } => check_handshake(array, counts.sizes(), usize::from(i)),
        Claim::Induced { i, j } => {
            let i = usize::from(i);
            check_induced(array, counts.sizes(), counts.rows_at(i), i, usize::from(j))
        }
        Claim::Triangles { i } => {
            let i = usize::from(i);
            check_triangles(array, counts.sizes(), counts.rows_at(i), i)
        }
        Claim::Mult { i } => check_mult(array, known.frame(), usize::from(i)),
        Claim::Krein { i, j, h } => {
            let (i, j, h) = (usize::from(i), usize::from(j), usize::from(h));
            check_krein_claim(known.frame(), i, j, h)
        }
        Claim::Absolute { i, j } => {
            check_absolute(array, known.frame(), usize::from(i), usize::from(j))
        }
        Claim::Triple { .. } => met_where(known.is_closed()),
        _ => not_built(),
    }
}
