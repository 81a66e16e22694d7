//! From words to the command that they are.

ghost use Rattle.std.specs.Prelude.{◌≡◌, IfOk, IfErr, IfSome, IfNone, Some, true, false};
ghost use Rattle.std.specs.Prelude.{◌<◌, ℕ, List, codes, decimal, option_map};
ghost use Rattle.clap.specs.Words.{first_of, found_of, one_of, rows_of};
ghost use Rattle.drg_words.specs.Commands.{AreWordsOf, IsBetween, IsCommand, IsNumber};
ghost use Rattle.drg_words.specs.Commands.{census_grammar, check_grammar};
ghost use Rattle.drg_words.specs.Commands.{file_grammar, sample_grammar, table_grammar, words_of};
ghost use Rattle.drg_words.specs.Matches.{Reads, ReadsNamed, ReadsNone, ReadsNoneNamed, SaysCensus};
ghost use Rattle.drg_words.specs.Matches.{SaysCheck, SaysClassical, SaysGraph, SaysReplay};
ghost use Rattle.drg_words.specs.Matches.{SaysSample, SaysTable};
ghost use Rattle.drg_words.specs.declared.command.Command.TheVariants.{Census};

use crate::command::{Command, FileName};
use crate::fault::WordsFault;
use crate::program::program;
use crate::values::{budget_of, number_between, tests_of};
use clap::ArgMatches;
use clap::error::ErrorKind;
use std::alloc::Global;

/// The command of these words, which are those after the program's name.
///
/// The answer is `Usage` where they are no command. Where there isn't enough memory to take the words
/// apart, it is `Memory`, whatever they are.
pub fn read<'a>(alloc: Global, words: &'a [String]) -> Result<Command<'a>, WordsFault>
    ensures command { IfOk result (λ command. AreWordsOf command (words_of words.now)) }
    ensures usage { IfErr result (λ fault. fault ≡ WordsFault.Usage
        → IsCommand (words_of words.now) → ⊥) }
{
    let program = program(alloc)?;
    match program.try_get_matches_from(words) {
        Ok(matches) => match matches.subcommand() {
            Some((name, matches)) => command_of(name, matches).ok_or(WordsFault::Usage),
            None => Err(WordsFault::Usage),
        },
        Err(error) => Err(match error.kind() {
            ErrorKind::OutOfMemory => WordsFault::Memory,
            _ => WordsFault::Usage,
        }),
    }
}

/// The command of this name with the values of these matches.
fn command_of<'a>(name: &str, matches: &ArgMatches<'a>) -> Option<Command<'a>>
    ensures some { IfSome result (ReadsNamed name.now (rows_of (found_of matches.now))) }
    ensures none { IfNone result (ReadsNoneNamed name.now (rows_of (found_of matches.now))) }
{
    match name {
        "check" => check_of(matches),
        "replay" => replay_of(matches),
        "table" => table_of(matches),
        "sample" => sample_of(matches),
        "graph" => graph_of(matches),
        "census" => census_of(matches),
        "classical" => classical_of(matches),
        _ => None,
    }
}

fn check_of<'a>(matches: &ArgMatches<'a>) -> Option<Command<'a>>
    ensures some { IfSome result (Reads check_grammar (rows_of (found_of matches.now)) SaysCheck) }
    ensures none { IfNone result
        (ReadsNone check_grammar (rows_of (found_of matches.now)) SaysCheck) }
{
    let list = text_of(matches, "tests");
    let digits = text_of(matches, "budget");
    let tests = tests_of(list)?;
    let budget = budget_of(digits)?;
    let json = has_flag(matches, "json");
    let file = file_of(matches)?;
    Some(Command::Check {
        tests,
        budget,
        json,
        file,
    })
}

fn replay_of<'a>(matches: &ArgMatches<'a>) -> Option<Command<'a>>
    ensures some { IfSome result (Reads file_grammar (rows_of (found_of matches.now)) SaysReplay) }
    ensures none { IfNone result
        (ReadsNone file_grammar (rows_of (found_of matches.now)) SaysReplay) }
{
    let file = file_of(matches)?;
    Some(Command::Replay { file })
}

fn table_of<'a>(matches: &ArgMatches<'a>) -> Option<Command<'a>>
    ensures some { IfSome result (Reads table_grammar (rows_of (found_of matches.now)) SaysTable) }
    ensures none { IfNone result
        (ReadsNone table_grammar (rows_of (found_of matches.now)) SaysTable) }
{
    let list = text_of(matches, "tests");
    let digits = text_of(matches, "budget");
    let tests = tests_of(list)?;
    let budget = budget_of(digits)?;
    let file = file_of(matches)?;
    Some(Command::Table {
        tests,
        budget,
        file,
    })
}

fn sample_of<'a>(matches: &ArgMatches<'a>) -> Option<Command<'a>>
    ensures some { IfSome result
        (Reads sample_grammar (rows_of (found_of matches.now)) SaysSample) }
    ensures none { IfNone result
        (ReadsNone sample_grammar (rows_of (found_of matches.now)) SaysSample) }
{
    let seed = number_in(matches, "SEED", 0, 2_147_483_647)?;
    let count = number_in(matches, "COUNT", 0, 100_000)?;
    Some(Command::Sample { seed, count })
}

fn graph_of<'a>(matches: &ArgMatches<'a>) -> Option<Command<'a>>
    ensures some { IfSome result (Reads file_grammar (rows_of (found_of matches.now)) SaysGraph) }
    ensures none { IfNone result
        (ReadsNone file_grammar (rows_of (found_of matches.now)) SaysGraph) }
{
    let file = file_of(matches)?;
    Some(Command::Graph { file })
}

fn census_of<'a>(matches: &ArgMatches<'a>) -> Option<Command<'a>>
    ensures some { IfSome result
        (Reads census_grammar (rows_of (found_of matches.now)) SaysCensus) }
    ensures none { IfNone result
        (ReadsNone census_grammar (rows_of (found_of matches.now)) SaysCensus) }
{
    let d = number_in(matches, "D", 1, 4)?;
    let k = number_in(matches, "K", 1, 32)?;
    let n = number_in(matches, "N", 2, 2_000)?;
    Some(census(d, k, n))
}

fn classical_of<'a>(matches: &ArgMatches<'a>) -> Option<Command<'a>>
    ensures some { IfSome result
        (Reads file_grammar (rows_of (found_of matches.now)) SaysClassical) }
    ensures none { IfNone result
        (ReadsNone file_grammar (rows_of (found_of matches.now)) SaysClassical) }
{
    let file = file_of(matches)?;
    Some(Command::Classical { file })
}

/// The census of these numbers.
fn census<'a>(d: u32, k: u32, n: u32) -> Command<'a>
    requires { (d < 256) × (k < 65536) }
    ensures { result ≡ Census d k n }
{
    Command::Census {
        d: d as u8,
        k: k as u16,
        n,
    }
}

/// The positional word of this name, where it is a number in this range.
fn number_in(matches: &ArgMatches<'_>, name: &str, least: u32, most: u32) -> Option<u32>
    ensures some { IfSome result (λ n. (word : List ℕ)
        × (Some word ≡ first_of name.now (rows_of (found_of matches.now)))
        × IsNumber least most word n) }
    ensures none { IfNone result ((n : ℕ) → first_of name.now (rows_of (found_of matches.now))
        ≡ Some (decimal n) → IsBetween least most n → ⊥) }
{
    let word = text_of(matches, name)?;
    number_between(word, least, most)
}

/// The file that the words name.
fn file_of<'a>(matches: &ArgMatches<'a>) -> Option<FileName<'a>>
    ensures { result ≡ first_of (codes "FILE") (rows_of (found_of matches.now)) }
{
    let name = text_of(matches, "FILE")?;
    Some(FileName::new(name))
}

/// The value of the option or the positional word of this name, where it was given.
fn text_of<'a>(matches: &ArgMatches<'a>, name: &str) -> Option<&'a str>
    ensures { option_map (λ text. text.now) result
        ≡ first_of name.now (rows_of (found_of matches.now)) }
{
    matches.get_str(name)
}

/// Whether the flag of this name was given.
fn has_flag(matches: &ArgMatches<'_>, name: &str) -> bool
    ensures given { one_of name.now (rows_of (found_of matches.now)) ≡ Some (codes "true")
        → result ≡ true }
    ensures absent { one_of name.now (rows_of (found_of matches.now)) ≡ Some (codes "false")
        → result ≡ false }
{
    matches.get_flag(name)
}
