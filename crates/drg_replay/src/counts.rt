//! What the lines `k` and `p` state.
ghost use Rattle.std.specs.Prelude.{◌≡◌, ◌<◌, ◌+◌, [], length, Some, IfOk, OnOk, OnErr, replicate};
ghost use Rattle.drg_array.specs.Entries.{diameter};
ghost use Rattle.drg_replay.specs.Rows.{rows_at as the_rows_at, row_stands as the_row_stands};
ghost use Rattle.drg_replay.specs.Systems.{number as the_number};
ghost use Rattle.drg_replay.specs.Lines.{counts_at_start, with_row};

use crate::rows::{entry, row_stands};
use drg_array::Array;
use drg_derivation::NumberList;
use std::alloc::{AllocError, Global};
use std::marker::Model;

/// The rows of intersection numbers with one upper index, from row 1 on.
#[derive(Debug, Drop)]
pub struct Rows {
    rows: Vec<NumberList>,
}

impl Model for Rows {
    ghost use Rattle.std.specs.Prelude.{List, ℤ};

    ghost Value = { List (List ℤ) };

    ghost view = { λ r. r.rows.items };
}

/// The sizes, and the rows of each upper index.
#[derive(Debug, Drop)]
pub struct Counts {
    sizes: Option<NumberList>,
    rows: Vec<Rows>,
}

impl Model for Counts {
    ghost use Rattle.drg_replay.specs.Known.{CountContent};

    ghost Value = { CountContent };

    ghost view = { λ c. record { sizes = c.sizes; rows = c.rows.items } };
}

/// No rows, for each upper index from 0 to d.
fn no_rows(alloc: Global, array: &Array) -> Result<Vec<Rows>, AllocError>
    ensures { IfOk result (λ rows. rows.items ≡ replicate (diameter array.now + 1) []) }
{
    let mut rows = Vec::new(alloc);
    'indices: for _h in 0..array.d() + 1 {
        rows.push(Rows {
            rows: Vec::new(alloc),
        })?;
    }
    Ok(rows)
}

impl Counts {
    /// Before the first line.
    pub fn new(alloc: Global, array: &Array) -> Result<Counts, AllocError>
        ensures { IfOk result (λ counts. counts ≡ counts_at_start array.now) }
    {
        Ok(Counts {
            sizes: None,
            rows: no_rows(alloc, array)?,
        })
    }

    /// The numbers of the `k` line.
    pub fn sizes(&self) -> &Option<NumberList>
        ensures { result.now ≡ self.now.sizes }
    {
        &self.sizes
    }

    /// The rows of an upper index, from row 1 on.
    pub fn rows_at(&self, h: usize) -> &[NumberList]
        requires { h < length self.now.rows }
        ensures { result.now ≡ the_rows_at self.now.rows h }
    {
        &self.rows[h].rows
    }

    /// `p^h_ij` as the rows state it, and 0 where none does.
    pub fn number(&self, h: usize, i: usize, j: usize) -> i128
        ensures { result ≡ the_number self.now.rows h i j }
    {
        if h < self.rows.len() {
            entry(h, &self.rows[h].rows, i, j)
        } else {
            entry(h, &[], i, j)
        }
    }

    /// Whether row i of h stands.
    pub fn row_stands(&self, h: usize, i: usize) -> bool
        ensures { result ≡ the_row_stands (the_rows_at self.now.rows h) i }
    {
        if h < self.rows.len() {
            row_stands(&self.rows[h].rows, i)
        } else {
            row_stands(&[], i)
        }
    }

    /// Keeps the numbers of a `k` line.
    pub fn keep_sizes(&mut self, sizes: NumberList)
        ensures { self.new ≡ record self.old { sizes = Some sizes } }
    {
        self.sizes = Some(sizes);
    }

    /// Appends a row of an upper index.
    pub fn keep_row(&mut self, h: usize, row: NumberList) -> Result<(), AllocError>
        requires { h < length self.old.rows }
        ensures ok { OnOk result (self.new ≡ with_row self.old h row) }
        ensures err { OnErr result (self.new ≡ self.old) }
    {
        self.rows[h].rows.push(row)?;
        Ok(())
    }
}
