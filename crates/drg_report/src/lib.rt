//! Verdicts on an intersection array, and their one text.
//!
//! A [`Verdict`] says what the tests that ran found: a failing claim with its derivation, numbers
//! that are too wide to be computed, eigenvalues that no one quadratic field holds, with the
//! certificate, or a survivor with its numbers, the tables of its eigenvalues, and its P- and
//! Q-polynomial orderings. [`render`] gives
//! the text of its report, [`verdict_words`] what it says in a few words, and
//! [`write_claim_with_class`] those of a claim, which stand in other answers too. The words are
//! defined in `specs/Words.antt`, the texts in `specs/Texts.antt`, with the lines of certificates in
//! `specs/Certificates.antt`, those of tables in `specs/SpectralTexts.antt`, those of Krein
//! parameters in `specs/KreinTexts.antt` and those of orderings in `specs/OrderingTexts.antt`, and
//! `specs/Laws.antt` says what a text tells of its verdict. Whether a verdict is right isn't said
//! here.
#![tactic(auto)]

mod certificate;
mod krein;
mod laws;
mod orderings;
mod report;
mod tables;
mod verdict;
mod words;

pub use laws::kind_law;
pub use report::render;
pub use verdict::{
    Cause, Infeasible, PassedTests, Pending, PendingTests, RefusedSpectrum, Spectra,
    SpectralTables, Survivor, Undecided, Verdict,
};
pub use words::{verdict_words, write_claim_with_class};

#[cfg(test)]
mod tests;
