//! The JSON form of a verdict.
//!
//! [`render_json`] gives the report on an array with a verdict as one JSON object and a line feed. Its
//! keys ascend, and so do those of each object inside. The entries of an array and the indices are JSON
//! numbers; every other number is a text, as it stands in the lines of a report, so that no reader
//! rounds it.
//!
//! The object of each verdict is defined in `specs/Reports.antt`, its tables in `specs/Tables.antt`, its
//! certificate in `specs/Certificates.antt`, and the pieces of all of them in `specs/Pieces.antt`. The
//! text of an object is that of `serde_json`.
#![tactic(auto)]

mod certificate;
mod krein;
mod numbers;
mod pieces;
mod report;
mod tables;
mod words;

pub use report::render_json;

#[cfg(test)]
mod tests;
