//! The words of a command.
//!
//! [`read`] tells which [`Command`] the words after the program's name are, with its tests, its numbers
//! and its file. It answers a command exactly where the words are one, by the grammar of
//! `specs/Grammar.antt` with the names and values of `specs/Commands.antt`: options and positional words
//! in any order, a value in the next word or after `=` in the same one, each option at most once, and
//! after `--` positional words alone. There is no help, no version, no short option and no shortened
//! name. The words are taken apart by `clap`, which `specs/Matches.antt` tells the same commands.
//!
//! A command is one variant of `Command`, with its case in each definition of `specs/Commands.antt`.
#![tactic(auto)]

mod command;
mod fault;
mod laws;
mod program;
mod reading;
mod values;

pub use command::{Command, FileName};
pub use fault::WordsFault;
pub use laws::words_law;
pub use reading::read;

#[cfg(test)]
mod tests;
