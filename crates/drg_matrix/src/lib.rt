//! Square tables over an exact field, and the equations of frames and Krein parameters.
//!
//! A `Table` has from 1 to 17 rows and as many columns, of values over one root. The product
//! of two tables is exact, or names the first cell with a work number above `2^127 - 1`. The functions
//! without code promise laws for the values of every exact field: a cell of a product is a sum of
//! products, a right inverse of a table is a left one, and a frame of an array has at most one family
//! of Krein parameters.
//!
//! `specs/Table.antt` says what the cells, rows and columns of a table are, and `specs/Product.antt`
//! what a product and its faults are. Frames of an array are defined in `specs/Frame.antt`, and their
//! Krein parameters in `specs/Krein.antt`. The laws are stated in `specs/Laws.antt`, and a small case
//! by hand in `specs/Examples.antt`.
#![tactic(auto)]

mod fault;
mod laws;
mod product;
mod table;
#[cfg(test)]
mod tests;

pub use fault::TableFault;
pub use laws::{example_law, krein_law, right_inverse_is_left, table_law};
pub use table::Table;
