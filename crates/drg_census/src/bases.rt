//! The classical parameters of an array.

ghost use Rattle.std.specs.Prelude.{◌≡◌, ◌≤◌, ◌+◌, ◌+ℤ◌, ◌-ℤ◌, pos, IfOk, OnOk, MatchOption, unsigned_abs};
ghost use Rattle.drg_array.specs.Entries.{b_at, diameter};
ghost use Rattle.drg_census.specs.Classical.{IsTried};
ghost use Rattle.drg_census.specs.ClassicalRows.{AreClassicalRows};
ghost use Rattle.drg_census.specs.Rows.{AreRowsBelow, IsTheRow, NoRow};

use crate::parameters::parameters_at;
use drg_array::Array;
use drg_fraction::{Fraction, Wide};
use std::alloc::{AllocError, Global};

/// What is found for one base b.
#[derive(Clone, Copy, Debug, PartialEq, Eq)]
pub enum ClassicalRow {
    /// The array has the classical parameters (d, b, alpha, beta).
    Holds {
        b: i32,
        alpha: Fraction,
        beta: Fraction,
    },
    /// A work number of magnitude above 2^127 - 1 is made before the base can be refuted.
    Wide {
        b: i32,
    },
}

/// The classical parameters of an array of diameter 2 or more (Brouwer, Cohen and Neumaier 1989, section
/// 6.1), for the bases from -k to k without 0 and -1, ascending. Want of memory is the one error.
pub fn classical(alloc: Global, array: &Array) -> Result<Vec<ClassicalRow>, AllocError>
    requires { 2 ≤ diameter array.now }
    ensures { IfOk result (λ rows. AreClassicalRows array.now rows.items) }
{
    array.known_valid();
    let mut rows = Vec::new(alloc);
    'bases: for steps in 0..2 * u32::from(array.valency()) + 1 {
        push_row(array, base_at(array, steps), &mut rows)?;
    }
    Ok(rows)
}

/// The base that comes this many steps after -k.
fn base_at(array: &Array, steps: u32) -> i32
    requires { steps ≤ b_at array.now 0 + b_at array.now 0 }
    ensures value { result ≡ pos steps -ℤ pos (b_at array.now 0) }
    ensures small { unsigned_abs result ≤ b_at array.now 0 }
{
    let k = i32::from(array.valency());
    steps as i32 - k
}

/// Appends the row of this base, where there is one, to those of all bases below it.
fn push_row(array: &Array, b: i32, rows: &mut Vec<ClassicalRow>) -> Result<(), AllocError>
    requires some { 2 ≤ diameter array.now }
    requires small { unsigned_abs b ≤ b_at array.now 0 }
    requires below { AreRowsBelow array.now b rows.old.items }
    ensures { OnOk result (AreRowsBelow array.now (b +ℤ pos 1) rows.new.items) }
{
    if let Some(row) = row_at(array, b) {
        rows.push(row)?;
    }
    Ok(())
}

/// The row of this base, where there is one.
fn row_at(array: &Array, b: i32) -> Option<ClassicalRow>
    requires some { 2 ≤ diameter array.now }
    requires small { unsigned_abs b ≤ b_at array.now 0 }
    ensures { MatchOption result (NoRow array.now b) (IsTheRow array.now b) }
{
    if b == 0 || b == -1 {
        return None;
    }
    tried_row(array, b)
}

/// The row of a base that is tried, where there is one.
fn tried_row(array: &Array, b: i32) -> Option<ClassicalRow>
    requires some { 2 ≤ diameter array.now }
    requires tried { IsTried array.now b }
    ensures { MatchOption result (NoRow array.now b) (IsTheRow array.now b) }
{
    array.known_valid();
    match parameters_at(array, b) {
        Ok(Some(found)) => Some(ClassicalRow::Holds {
            b,
            alpha: found.alpha,
            beta: found.beta,
        }),
        Ok(None) => None,
        Err(Wide) => Some(ClassicalRow::Wide { b }),
    }
}
