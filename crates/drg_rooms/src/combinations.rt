//! Sums of multiples of equations.
ghost use Rattle.std.specs.Prelude.{◌≡◌, ◌+ℤ◌, ◌*ℤ◌, ◌++◌, ◌∷◌, [], true, false, IfOk, MatchResult, MatchOption};
ghost use Rattle.drg_whole.specs.Range.{Gives, in_range};
ghost use Rattle.drg_whole.specs.Whole.{value_of};
ghost use Rattle.drg_linear.specs.Equations.{is_ordered};
ghost use Rattle.drg_rooms.specs.Combinations.{of_terms, none_before, StandBefore, AreDivided, HasOwn, HasNone, Passes, with_term, more_fits, plus_terms, plus_terms_fit, has_pair, are_numbers as the_are_numbers, plus_equation, plus_equation_fits, combination_from, combination_fits_from, no_equation};
ghost use Rattle.drg_rooms.specs.Answers.{Adds, FailsWide, AddsEquation, Combines};

use crate::equation_list::EquationList;
use crate::fault::Fault;
use crate::laws::combination_law;
use crate::refusal::Refusal;
use drg_linear::{Equation, Terms, Unknown};
use drg_whole::{Product, Whole, Wide};
use std::alloc::{AllocError, Global};
use std::mem::swap;

/// A factor times a number.
fn multiple(factor: i128, number: i128) -> Result<Whole, Wide>
    ensures { Gives value_of result (in_range (factor *ℤ number)) (factor *ℤ number) }
{
    Product {
        left: factor,
        right: number,
    }
    .value()
}

/// The sum of two numbers of any size: what counts is the sum.
fn sum(a: i128, b: i128) -> Result<Whole, Wide>
    ensures { Gives value_of result (in_range (a +ℤ b)) (a +ℤ b) }
{
    match a.checked_add(b) {
        Some(sum) => Whole::checked(sum),
        None => Err(Wide),
    }
}

/// How many of the terms stand before the unknown, up to the first that doesn't.
fn count_before(terms: &[(Unknown, i128)], unknown: Unknown) -> usize
    ensures { StandBefore unknown terms.now result }
{
    'terms: for (i, term) in terms.iter().enumerate() {
        if !term.0.precedes(unknown) {
            return i;
        }
    }
    terms.len()
}

/// Puts a term behind others, unless its coefficient is 0.
fn push_term(
    made: &mut Vec<(Unknown, i128)>,
    unknown: Unknown,
    value: i128,
) -> Result<(), AllocError>
    ensures { IfOk result
        (λ _. made.new.items ≡ made.old.items ++ with_term unknown value []) }
{
    if value != 0 {
        made.push((unknown, value))?;
    }
    Ok(())
}

/// The terms before the unknown, and the others.
fn divide(terms: &[(Unknown, i128)], unknown: Unknown) -> (&[(Unknown, i128)], &[(Unknown, i128)])
    ensures { AreDivided unknown terms.now result.0.now result.1.now }
{
    terms.split_at(count_before(terms, unknown))
}

/// The coefficient of the unknown and the terms behind its own, where that is the first.
fn own_term(terms: &[(Unknown, i128)], unknown: Unknown) -> Option<(i128, &[(Unknown, i128)])>
    requires { none_before unknown terms.now ≡ true }
    ensures { MatchOption result
        (HasNone unknown terms.now)
        (λ own. HasOwn unknown terms.now own.0 own.1.now) }
{
    let (term, left) = terms.split_first()?;
    if term.0.is_same(unknown) {
        Some((term.1, left))
    } else {
        None
    }
}

/// Adds a term to a sum: puts the terms before it and its own behind those that are made, and gives
/// the terms that are left.
fn add_term<'a>(
    made: &mut Vec<(Unknown, i128)>,
    terms: &'a [(Unknown, i128)],
    unknown: Unknown,
    value: i128,
) -> Result<&'a [(Unknown, i128)], Fault>
    ensures { MatchResult result
        (λ left. (more_fits unknown value terms.now ≡ true)
        × Passes unknown value terms.now made.old.items made.new.items left.now)
        (λ fault. FailsWide fault (more_fits unknown value terms.now)) }
{
    let (before, rest) = divide(terms, unknown);
    made.extend_from_slice(before)?;
    match own_term(rest, unknown) {
        Some((coefficient, left)) => {
            let total = sum(coefficient, value)?;
            push_term(made, unknown, total.value)?;
            Ok(left)
        }
        None => {
            push_term(made, unknown, value)?;
            Ok(rest)
        }
    }
}

/// Adds f times terms that ascend to a sum, in one walk over both, and puts the new sum behind those
/// that are made.
fn add_terms(
    made: &mut Vec<(Unknown, i128)>,
    terms: &[(Unknown, i128)],
    factor: i128,
    others: &[(Unknown, i128)],
) -> Result<(), Fault>
    requires { is_ordered others.now ≡ true }
    ensures { Adds result
        (plus_terms_fit factor terms.now others.now)
        (made.old.items ++ plus_terms factor terms.now others.now)
        made.new.items }
{
    let mut rest = terms;
    'others: for term in others {
        let value = multiple(factor, term.1)?;
        rest = add_term(made, rest, term.0, value.value)?;
    }
    made.extend_from_slice(rest)?;
    Ok(())
}

/// The first two numbers and the others.
fn first_pair(values: &[i128]) -> Option<(i128, i128, &[i128])>
    ensures { MatchOption result
        (has_pair values.now ≡ false)
        (λ pair. values.now ≡ pair.0 ∷ pair.1 ∷ pair.2.now) }
{
    let (first, more) = values.split_first()?;
    let (second, rest) = more.split_first()?;
    Some((*first, *second, rest))
}

/// Whether each first number of a pair is that of an equation made before.
pub fn are_numbers(equations: &EquationList, values: &[i128]) -> bool
    ensures { result ≡ the_are_numbers equations.now values.now }
{
    let mut rest = values;
    'pairs: while let Some((n, _, more)) = first_pair(rest) {
        if equations.get(n).is_err() {
            return false;
        }
        rest = more;
    }
    rest.is_empty()
}

/// Adds f times an equation to a sum of equations with these terms and this right side: makes the
/// new terms, and gives the new right side.
fn add_equation(
    made: &mut Vec<(Unknown, i128)>,
    terms: &[(Unknown, i128)],
    right: i128,
    factor: i128,
    equation: &Equation,
) -> Result<i128, Fault>
    requires { made.old.items ≡ [] }
    ensures { let total = of_terms terms.now right in
        AddsEquation result
        (plus_equation_fits factor total equation.now)
        (plus_equation factor total equation.now)
        made.new.items }
{
    add_terms(made, terms, factor, equation.terms.as_slice())?;
    let more = multiple(factor, equation.right)?;
    Ok(sum(right, more.value)?.value)
}

/// The sum of the multiples: its terms, where there were none, and its right side. Each sum on the
/// way is made from the one before it in the other of two places, and `made` is the second.
fn add_equations(
    terms: &mut Vec<(Unknown, i128)>,
    mut made: Vec<(Unknown, i128)>,
    equations: &EquationList,
    values: &[i128],
) -> Result<i128, Fault>
    requires none { terms.old.items ≡ [] }
    requires numbers { the_are_numbers equations.now values.now ≡ true }
    ensures { AddsEquation result
        (combination_fits_from equations.now no_equation values.now)
        (combination_from equations.now no_equation values.now)
        terms.new.items }
{
    let mut right = 0;
    let mut rest = values;
    'pairs: while let Some((n, factor, more)) = first_pair(rest) {
        if let Ok(equation) = equations.get(n) {
            made.clear();
            right = add_equation(&mut made, terms, right, factor, equation)?;
            swap(terms, &mut made);
        }
        rest = more;
    }
    Ok(right)
}

/// The sum of `f_l` times equation `n_l` for the numbers `n_1 f_1 .. n_m f_m`.
#[tactic(auto, unfolding(crate::specs::Combinations::comb_steps))]
pub fn combination(
    alloc: Global,
    equations: &EquationList,
    values: &[i128],
) -> Result<Equation, Fault>
    ensures { Combines result equations.now values.now }
{
    combination_law();
    if !are_numbers(equations, values) {
        return Err(Fault::Refused(Refusal::NotMet));
    }
    let mut terms = Vec::new(alloc);
    let right = add_equations(&mut terms, Vec::new(alloc), equations, values)?;
    Ok(Equation {
        terms: Terms::new(terms),
        right,
    })
}
