//! The parameters to one base, step by step.

ghost use Rattle.std.specs.Prelude.{◌≡◌, ◌≤◌, ◌<◌, suc, pos, IfOk, OnErr, MatchOption, MatchBool};
ghost use Rattle.drg_algebra.specs.Rational.{whole, plus};
ghost use Rattle.drg_array.specs.Entries.{b_at, c_at, diameter};
ghost use Rattle.drg_fraction.specs.Fraction.{rational_of};
ghost use Rattle.drg_fraction.specs.Work.{quotient_fits};
ghost use Rattle.drg_whole.specs.Range.{Gives, InRange};
ghost use Rattle.drg_census.specs.Classical.{IsTried, bracket, next_bracket as the_next_bracket};
ghost use Rattle.drg_census.specs.ClassicalWork.{AllPass, IsRefuted, IsWide, alpha_fits, alpha_of, b_fits, b_made as the_b_made, b_step, b_steps, beta_of, beta_over, bracket_fits, c_fits, c_made as the_c_made, c_step, c_steps, steps};
ghost use Rattle.drg_census.specs.Rows.{IsPair};

use drg_array::Array;
use drg_fraction::{Field, Fraction, Wide};

/// The parameters alpha and beta of a base.
#[derive(Clone, Copy)]
pub struct Parameters {
    pub alpha: Fraction,
    pub beta: Fraction,
}

/// The parameters to the base b, or none where a comparison with an entry refutes it. An error comes
/// exactly where a work number is too wide before that.
pub fn parameters_at(array: &Array, b: i32) -> Result<Option<Parameters>, Wide>
    requires some { 2 ≤ diameter array.now }
    requires tried { IsTried array.now b }
    ensures ok { IfOk result (λ found. MatchOption found
        (IsRefuted (steps array.now b)) (IsPair array.now b)) }
    ensures err { OnErr result (IsWide (steps array.now b)) }
{
    array.known_valid();
    if array.c(1) != 1 {
        return Ok(None);
    }
    let base = number(i128::from(b));
    let alpha = alpha_at(array, base)?;
    let Some(last) = last_bracket(array, base, alpha)? else {
        return Ok(None);
    };
    let beta = beta_at(array, last)?;
    let pair = Parameters { alpha, beta };
    if further_agree(array, base, pair, last)? {
        Ok(Some(pair))
    } else {
        Ok(None)
    }
}

/// The whole number as a fraction.
fn number(value: i128) -> Fraction
    requires { InRange value }
    ensures { rational_of result ≡ whole value }
{
    Fraction::of_int(0, value)
}

/// The entry as a fraction.
fn entry(value: u16) -> Fraction
    ensures { rational_of result ≡ whole (pos value) }
{
    number(i128::from(value))
}

/// The parameter `c_2 / (1 + b) - 1`.
fn alpha_at(array: &Array, base: Fraction) -> Result<Fraction, Wide>
    requires some { 2 ≤ diameter array.now }
    requires nonzero { ¬ (plus (whole (pos 1)) (rational_of base) ≡ whole (pos 0)) }
    ensures { Gives rational_of result
        (alpha_fits array.now (rational_of base)) (alpha_of array.now (rational_of base)) }
{
    let next = number(1).add(base)?;
    entry(array.c(2)).div(next)?.sub(number(1))
}

/// The parameter `k / [d]`.
fn beta_at(array: &Array, last: Fraction) -> Result<Fraction, Wide>
    requires nonzero { ¬ (rational_of last ≡ whole (pos 0)) }
    ensures { Gives rational_of result
        (quotient_fits (whole (pos (b_at array.now 0))) (rational_of last))
        (beta_over array.now (rational_of last)) }
{
    entry(array.valency()).div(last)
}

/// The number `[i + 1]`, which is `1 + b [i]`.
fn next_bracket(base: Fraction, last: Fraction) -> Result<Fraction, Wide>
    ensures { Gives rational_of result
        (bracket_fits (rational_of base) (rational_of last))
        (the_next_bracket (rational_of base) (rational_of last)) }
{
    number(1).add(base.mul(last)?)
}

/// The number `(alpha [i] + 1) [i + 1]`.
fn c_made(alpha: Fraction, last: Fraction, next: Fraction) -> Result<Fraction, Wide>
    ensures { Gives rational_of result
        (c_fits (rational_of alpha) (rational_of last) (rational_of next))
        (the_c_made (rational_of alpha) (rational_of last) (rational_of next)) }
{
    alpha.mul(last)?.add(number(1))?.mul(next)
}

/// The number `([d] - [i]) (beta - alpha [i])`.
fn b_made(alpha: Fraction, beta: Fraction, last: Fraction, part: Fraction) -> Result<Fraction, Wide>
    ensures { Gives rational_of result
        (b_fits (rational_of alpha) (rational_of beta) (rational_of last) (rational_of part))
        (the_b_made (rational_of alpha) (rational_of beta) (rational_of last) (rational_of part)) }
{
    let rest = last.sub(part)?;
    rest.mul(beta.sub(alpha.mul(part)?)?)
}

/// The number `[i + 1]`, where `c_(i+1)` agrees with it, after `[i]`, which is `last`.
fn nearer_agrees(
    array: &Array,
    base: Fraction,
    alpha: Fraction,
    last: Fraction,
    i: usize,
) -> Result<Option<Fraction>, Wide>
    requires inside { i < diameter array.now }
    requires last { rational_of last ≡ bracket (rational_of base) i }
    ensures ok { IfOk result (λ found. MatchOption found
        (IsRefuted (c_step array.now (rational_of base) (rational_of alpha) i))
        (λ next. AllPass (c_step array.now (rational_of base) (rational_of alpha) i)
        × (rational_of next ≡ bracket (rational_of base) (suc i)))) }
    ensures err { OnErr result
        (IsWide (c_step array.now (rational_of base) (rational_of alpha) i)) }
{
    array.known_valid();
    let next = next_bracket(base, last)?;
    let made = c_made(alpha, last, next)?;
    if made.same(entry(array.c(i + 1))) {
        Ok(Some(next))
    } else {
        Ok(None)
    }
}

/// The number `[d]`, where c_2 to c_d agree.
fn last_bracket(array: &Array, base: Fraction, alpha: Fraction) -> Result<Option<Fraction>, Wide>
    requires { 2 ≤ diameter array.now }
    ensures ok { IfOk result (λ found. MatchOption found
        (IsRefuted (c_steps array.now (rational_of base) (rational_of alpha)))
        (λ last. AllPass (c_steps array.now (rational_of base) (rational_of alpha))
        × (rational_of last ≡ bracket (rational_of base) (diameter array.now)))) }
    ensures err { OnErr result
        (IsWide (c_steps array.now (rational_of base) (rational_of alpha))) }
{
    let mut last = number(1);
    'entries: for i in 1..array.d() {
        let Some(next) = nearer_agrees(array, base, alpha, last, i)? else {
            return Ok(None);
        };
        last = next;
    }
    Ok(Some(last))
}

/// Whether b_i agrees, where `[d]` is `last` and `[i]` is `part`.
fn further_agrees(
    array: &Array,
    base: Fraction,
    pair: Parameters,
    last: Fraction,
    part: Fraction,
    i: usize,
) -> Result<bool, Wide>
    requires inside { i < diameter array.now }
    requires last { rational_of last ≡ bracket (rational_of base) (diameter array.now) }
    requires part { rational_of part ≡ bracket (rational_of base) i }
    ensures ok { IfOk result (λ agrees. MatchBool agrees
        (AllPass (b_step array.now
        (rational_of base) (rational_of pair.alpha) (rational_of pair.beta) i))
        (IsRefuted (b_step array.now
        (rational_of base) (rational_of pair.alpha) (rational_of pair.beta) i))) }
    ensures err { OnErr result (IsWide (b_step array.now
        (rational_of base) (rational_of pair.alpha) (rational_of pair.beta) i)) }
{
    let made = b_made(pair.alpha, pair.beta, last, part)?;
    Ok(made.same(entry(array.b(i))))
}

/// Whether b_1 to b_(d-1) agree, where `[d]` is `last` and c_2 to c_d agree.
fn further_agree(
    array: &Array,
    base: Fraction,
    pair: Parameters,
    last: Fraction,
) -> Result<bool, Wide>
    requires some { 2 ≤ diameter array.now }
    requires last { rational_of last ≡ bracket (rational_of base) (diameter array.now) }
    requires nearer { AllPass (c_steps array.now (rational_of base) (rational_of pair.alpha)) }
    ensures ok { IfOk result (λ agree. MatchBool agree
        (AllPass (b_steps array.now
        (rational_of base) (rational_of pair.alpha) (rational_of pair.beta)))
        (IsRefuted (b_steps array.now
        (rational_of base) (rational_of pair.alpha) (rational_of pair.beta)))) }
    ensures err { OnErr result (IsWide (b_steps array.now
        (rational_of base) (rational_of pair.alpha) (rational_of pair.beta))) }
{
    let mut part = number(1);
    'entries: for i in 1..array.d() {
        if !further_agrees(array, base, pair, last, part, i)? {
            return Ok(false);
        }
        // It was made for c_(i+1) already, so it isn't too wide.
        let Ok(next) = next_bracket(base, part) else {
            unreachable!();
        };
        part = next;
    }
    Ok(true)
}
