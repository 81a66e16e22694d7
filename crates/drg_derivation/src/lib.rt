//! Derivations: the lines that show why an intersection array fails a claim, and their one text.
//!
//! A [`Derivation`] is an array, a [`drg_array::Claim`] and evidence [`Line`]s. It always has a
//! text, and [`Derivation::write_text`] appends it. [`read`] reads a derivation back, exactly where
//! the bytes begin with its text, and else names the first line that isn't one of its place.
//! [`LineReader`] hands out the same lines over lent bytes, without taking memory, and refuses the
//! same line; both rest on [`line_at`], which reads one line at its [`Place`].
//!
//! The grammar of texts stands in `specs/Text.antt`, that of lines in `specs/Words.antt` and
//! `specs/Lines.antt`, that of numbers in `specs/Integers.antt`. Where a text is refused stands in
//! `specs/Places.antt`, and the laws of texts in `specs/Laws.antt`. Whether a line is met by those
//! before it isn't looked at here.
#![tactic(auto)]

mod context;
mod derivation;
mod evidence;
mod fault;
mod header;
mod integers;
mod kind;
mod laws;
mod line;
mod number_list;
mod place;
mod reader;
mod reading;
mod split;
mod view;
mod word;
mod word_at;
mod write;
mod written;

pub use context::Context;
pub use derivation::Derivation;
pub use evidence::EvidenceView;
pub use fault::DerivationFault;
pub use integers::LineNumbers;
pub use kind::{Kind, Shape, Tail};
pub use laws::{line_reader_law, no_prefix_law, one_derivation_law, one_text_law, refusal_law};
pub use line::Line;
pub use number_list::NumberList;
pub use place::{Place, line_at};
pub use reader::LineReader;
pub use reading::read;
pub use view::LineView;

#[cfg(test)]
mod tests;
