//! The search for the orderings of a table.

ghost use Rattle.std.specs.Prelude.{◌≡◌, ℕ, ◌≤◌, ◌==◌, ◌↔◌, IsTrue, IfOk, MatchOption, length};
ghost use Rattle.std.specs.List.{list_any};
ghost use Rattle.drg_orderings.specs.Orderings.{AreOrderings, EntryFits, IsOrdering, index_at as the_index};
ghost use Rattle.drg_orderings.specs.Search.{AllFit, AreDifferent, CanFollow, IsTaken, IsTheOrdering, IsWhole, NoneBegins};

use crate::ordering::{Orderings, PolynomialOrdering};
use crate::table::ZeroTable;
use arrayvec::ArrayVec;
use drg_array::MAX_DIAMETER;
use itertools::Itertools;
use std::alloc::{AllocError, Global};

/// The index r_h of the list r_1, r_2, .., with r_0 = 0.
fn index_at(order: &[u8], h: usize) -> usize
    requires { h ≤ length order.now }
    ensures { result ≡ the_index order.now h }
{
    if h == 0 { 0 } else { usize::from(order[h - 1]) }
}

/// Whether the index is one of r_1, r_2, ..
fn stands_in(order: &[u8], index: usize) -> bool
    ensures { result ≡ list_any (λ taken. taken == index) order.now }
{
    order.iter().any(|taken| usize::from(*taken) == index)
}

/// Whether the index is one of r_0 = 0, r_1, r_2, ..
fn is_taken(order: &[u8], index: usize) -> bool
    ensures { IsTrue result ↔ IsTaken order.now index }
{
    index == 0 || stands_in(order, index)
}

/// An index as it stands in an ordering.
fn small(index: usize) -> u8
    requires { index ≤ MAX_DIAMETER }
    ensures { result ≡ index }
{
    index as u8
}

/// Whether the index can come next: it isn't taken, and its entry at the last one isn't zero.
fn can_follow<T: ZeroTable>(table: &T, order: &[u8], index: usize) -> bool
    requires different { AreDifferent (T.diameter table.now) order.now }
    requires index { index ≤ T.diameter table.now }
    ensures { IsTrue result ↔
        CanFollow (T.diameter table.now) (T.IsZero table.now) order.now index }
{
    let (first, last) = (index_at(order, 1), index_at(order, order.len()));
    !is_taken(order, index) && !table.is_zero(index, first, last)
}

/// An index that can come next. In an ordering there is no other.
fn next_index<T: ZeroTable>(table: &T, order: &[u8]) -> Option<u8>
    requires { AreDifferent (T.diameter table.now) order.now }
    ensures { MatchOption result
        ((index : ℕ) → ¬ CanFollow (T.diameter table.now) (T.IsZero table.now) order.now index)
        (CanFollow (T.diameter table.now) (T.IsZero table.now) order.now) }
{
    'indices: for index in 0..table.greatest() + 1 {
        if can_follow(table, order, index) {
            return Some(small(index));
        }
    }
    None
}

/// All indices in the one order that an ordering with this first index can have.
fn forced_order<T: ZeroTable>(table: &T, first: u8) -> Option<ArrayVec<u8, MAX_DIAMETER>>
    requires low { 1 ≤ first }
    requires high { first ≤ T.diameter table.now }
    ensures { MatchOption result
        (NoneBegins (T.diameter table.now) (T.IsZero table.now) first)
        (λ order. IsWhole (T.diameter table.now) (T.IsZero table.now) first order.items) }
{
    let d = table.greatest();
    let mut order = ArrayVec::new();
    order.push(first);
    'walk: while order.len() < d {
        let next = next_index(table, &order)?;
        order.push(next);
    }
    Some(order)
}

/// Whether the entry at these two places of an order of all indices is as in an ordering.
fn entry_fits<T: ZeroTable>(table: &T, order: &[u8], h: usize, j: usize) -> bool
    requires different { AreDifferent (T.diameter table.now) order.now }
    requires h { h ≤ length order.now }
    requires j { j ≤ length order.now }
    ensures { IsTrue result ↔ EntryFits (T.IsZero table.now) order.now h j }
{
    let zero = table.is_zero(index_at(order, h), index_at(order, 1), index_at(order, j));
    match h.abs_diff(j) {
        0 => true,
        1 => !zero,
        _ => zero,
    }
}

/// Whether all entries are as in an ordering.
fn all_fit<T: ZeroTable>(table: &T, order: &[u8]) -> bool
    requires { AreDifferent (T.diameter table.now) order.now }
    ensures { IsTrue result ↔ AllFit (length order.now) (T.IsZero table.now) order.now }
{
    let side = order.len() + 1;
    (0..side)
        .cartesian_product(0..side)
        .all(|(h, j)| entry_fits(table, order, h, j))
}

/// The ordering with this first index, if there is one.
fn ordering_from<T: ZeroTable>(table: &T, first: u8) -> Option<PolynomialOrdering>
    requires low { 1 ≤ first }
    requires high { first ≤ T.diameter table.now }
    ensures { MatchOption result
        (NoneBegins (T.diameter table.now) (T.IsZero table.now) first)
        (IsTheOrdering (T.diameter table.now) (T.IsZero table.now) first) }
{
    let order = forced_order(table, first)?;
    if !all_fit(table, &order) {
        return None;
    }
    Some(PolynomialOrdering::of(order))
}

/// All orderings of the table, ascending by r_1.
pub(crate) fn orderings<T: ZeroTable>(alloc: Global, table: &T) -> Result<Orderings, AllocError>
    ensures { IfOk result
        (AreOrderings (IsOrdering (T.diameter table.now) (T.IsZero table.now))) }
{
    let mut found = Vec::new(alloc);
    'firsts: for first in 1..table.greatest() + 1 {
        if let Some(ordering) = ordering_from(table, small(first)) {
            found.push(ordering)?;
        }
    }
    Ok(Orderings::of(found))
}
