//! Judges an intersection array: runs the tests in their order, and gives the verdict with the
//! derivation of the first claim that fails, or with the numbers of an array that passes.
//!
//! The tests that are built and their conditions stand in `specs/Conditions.antt`, which of them
//! run in `specs/Selections.antt`, why one can't be decided in `specs/Causes.antt`, and what it is
//! for a verdict to be right in `specs/Verdicts.antt`. Which lines a derivation has is said in
//! `drg_evidence`. `specs/Laws.antt` has the laws: a right verdict decides where no number is too
//! wide and one quadratic field holds the eigenvalues, says so where this isn't so, and two right
//! verdicts on an array have one text. That a derivation with these lines is accepted by the
//! replayer is proved, and not looked at when the program runs.
#![tactic(auto)]

mod course;
mod judging;
mod laws;
mod spectra;

pub use judging::judge;
pub use laws::{
    acceptance_law, built_law, completeness_law, one_report_law, refused_law, text_law,
    wide_frame_law, wide_law,
};

#[cfg(test)]
mod tests;
