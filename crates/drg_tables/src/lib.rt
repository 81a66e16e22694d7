//! Tables of arrays: rows of a name and an array, and which arrays of a list are distinct.
//!
//! [`read_rows`] reads records of comma-separated values with `csv`. It takes exactly the rows of
//! `specs/Rows.antt`, two fields each, the second a text of an array; of every other table it names
//! the first record that is no row, and the place of its fault.
//!
//! [`distinct`] and [`distinct_arrays`] list each array once, in the order in which a list has them
//! first, with the place among them of each array of the list (`specs/Distinct.antt`). So work on
//! the arrays of a table is done once for each, and found again for each row without a search.
#![tactic(auto)]

mod fault;
mod laws;
mod listing;
mod reading;
mod row;
mod writing;

pub use fault::TableReadFault;
pub use laws::{distinct_law, row_law};
pub use listing::{DistinctArrays, distinct, distinct_arrays};
pub use reading::read_rows;
pub use row::{Row, RowName};
pub use writing::render_rows;

#[cfg(test)]
mod tests;
