//! The commands, as `clap` is told them.

ghost use Rattle.std.specs.Prelude.{◌≡◌, IfOk, codes};
ghost use Rattle.clap.specs.Words.{app_of};
ghost use Rattle.drg_words.specs.Matches.{IsArg, IsSub, bare, census_shape, check_shape, drg_app, file_shape};
ghost use Rattle.drg_words.specs.Matches.{flag_rule, option_rule, sample_shape, table_shape, word_rule};

use clap::{Arg, ArgAction, Command};
use std::alloc::{AllocError, Global};

/// The program with its commands.
pub(crate) fn program<'a>(alloc: Global) -> Result<Command<'a>, AllocError>
    ensures { IfOk result (λ command. app_of command ≡ drg_app) }
{
    bare(alloc)
        .subcommand(check(alloc)?)?
        .subcommand(replay(alloc)?)?
        .subcommand(table(alloc)?)?
        .subcommand(sample(alloc)?)?
        .subcommand(graph(alloc)?)?
        .subcommand(census(alloc)?)?
        .subcommand(classical(alloc)?)
}

/// The program without its commands.
fn bare<'a>(alloc: Global) -> Command<'a>
    ensures { app_of result ≡ bare }
{
    Command::new(alloc, "drg")
        .no_binary_name(true)
        .disable_help_flag(true)
        .disable_help_subcommand(true)
        .disable_version_flag(true)
        .subcommand_required(true)
}

fn check<'a>(alloc: Global) -> Result<Command<'a>, AllocError>
    ensures { IfOk result (λ command. IsSub command check_shape) }
{
    Command::new(alloc, "check")
        .arg(option(alloc, "tests"))?
        .arg(option(alloc, "budget"))?
        .arg(flag(alloc, "json"))?
        .arg(word(alloc, "FILE"))
}

fn table<'a>(alloc: Global) -> Result<Command<'a>, AllocError>
    ensures { IfOk result (λ command. IsSub command table_shape) }
{
    Command::new(alloc, "table")
        .arg(option(alloc, "tests"))?
        .arg(option(alloc, "budget"))?
        .arg(word(alloc, "FILE"))
}

fn sample<'a>(alloc: Global) -> Result<Command<'a>, AllocError>
    ensures { IfOk result (λ command. IsSub command sample_shape) }
{
    Command::new(alloc, "sample")
        .arg(word(alloc, "SEED"))?
        .arg(word(alloc, "COUNT"))
}

fn census<'a>(alloc: Global) -> Result<Command<'a>, AllocError>
    ensures { IfOk result (λ command. IsSub command census_shape) }
{
    Command::new(alloc, "census")
        .arg(word(alloc, "D"))?
        .arg(word(alloc, "K"))?
        .arg(word(alloc, "N"))
}

fn replay<'a>(alloc: Global) -> Result<Command<'a>, AllocError>
    ensures { IfOk result (λ command. IsSub command (file_shape (codes "replay"))) }
{
    on_file(alloc, "replay")
}

fn graph<'a>(alloc: Global) -> Result<Command<'a>, AllocError>
    ensures { IfOk result (λ command. IsSub command (file_shape (codes "graph"))) }
{
    on_file(alloc, "graph")
}

fn classical<'a>(alloc: Global) -> Result<Command<'a>, AllocError>
    ensures { IfOk result (λ command. IsSub command (file_shape (codes "classical"))) }
{
    on_file(alloc, "classical")
}

/// A command that takes a file and nothing else.
fn on_file<'a>(alloc: Global, name: &'a str) -> Result<Command<'a>, AllocError>
    ensures { IfOk result (λ command. IsSub command (file_shape name.now)) }
{
    Command::new(alloc, name).arg(word(alloc, "FILE"))
}

/// An option with a value.
fn option<'a>(alloc: Global, name: &'a str) -> Arg<'a>
    ensures { IsArg result (option_rule name.now) }
{
    Arg::new(alloc, name).long(name).action(ArgAction::Set)
}

fn flag<'a>(alloc: Global, name: &'a str) -> Arg<'a>
    ensures { IsArg result (flag_rule name.now) }
{
    Arg::new(alloc, name).long(name).action(ArgAction::SetTrue)
}

/// A positional word.
fn word<'a>(alloc: Global, name: &'a str) -> Arg<'a>
    ensures { IsArg result (word_rule name.now) }
{
    Arg::new(alloc, name).required(true).action(ArgAction::Set)
}
