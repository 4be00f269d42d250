//! The program's commands for `clap`, and its parse of the words.
ghost use Rattle.std.specs.Prelude.{◌≡◌, Some, codes, false, true, IfOk, IfErr, ◌++◌, map, None};
ghost use Rattle.std.specs.Prelude.{string_bytes, []};
ghost use Rattle.clap.specs.Words.{app_of, kind_of, rule_of, with_subcommand};
ghost use Rattle.coinst_words.specs.Program.{app_of_usages, bare_app, flag_rule, shape_of_usage};
ghost use Rattle.coinst_words.specs.{Program.{valued_rule, words_rule, IsCommand}, Jobs.{usages}};
ghost use Rattle.coinst_words.specs.{Usage.{said_of}, Parsed.{Enters}, Refusals.{OnNotACommand}};

use crate::error::WordError;
use crate::jobs::USAGES;
use clap::error::ErrorKind;
use clap::{Arg, ArgAction, ArgMatches, Command, Error};
use std::alloc::{AllocError, Global};

// An option with no value.
fn flag<'a>(alloc: Global, name: &'a str) -> Arg<'a>
    ensures rule { rule_of result ≡ flag_rule name.entry.now }
    ensures local { result.global ≡ false }
{
    Arg::new(alloc, name).long(name).action(ArgAction::SetTrue)
}

// An option with a value.
fn valued<'a>(alloc: Global, name: &'a str) -> Arg<'a>
    ensures rule { rule_of result ≡ valued_rule name.entry.now }
    ensures local { result.global ≡ false }
{
    Arg::new(alloc, name).long(name).action(ArgAction::Set)
}

// The words that are no options.
fn ordinary<'a>(alloc: Global) -> Arg<'a>
    ensures rule { rule_of result ≡ words_rule }
    ensures local { result.global ≡ false }
{
    Arg::new(alloc, "words").action(ArgAction::Append)
}

// A command with these options.
fn command<'a>(
    alloc: Global,
    name: &'a str,
    flags: &[&'a str],
    with_value: &[&'a str],
) -> Result<Command<'a>, AllocError>
    ensures { IfOk result
        (IsCommand name.entry.now (map (λ s. s.now) flags.now) (map (λ s. s.now) with_value.now)) }
{
    let mut command = Command::new(alloc, name);
    for option in flags {
        command = command.arg(flag(alloc, option))?;
    }
    for option in with_value {
        command = command.arg(valued(alloc, option))?;
    }
    command.arg(ordinary(alloc))
}

// The program with one more command, which has these options.
fn add_command<'a>(
    alloc: Global,
    program: Command<'a>,
    name: &'a str,
    flags: &[&'a str],
    with_value: &[&'a str],
) -> Result<Command<'a>, AllocError>
    ensures { IfOk result (λ c. app_of c
        ≡ with_subcommand (app_of program.entry) (shape_of_usage (record {
          name = name.entry.now;
          flags = map (λ s. s.now) flags.now;
          valued = map (λ s. s.now) with_value.now;
        }))) }
{
    program.subcommand(command(alloc, name, flags, with_value)?)
}

// The program, without its commands; help and version forms are off.
fn bare_program<'a>(alloc: Global) -> Command<'a>
    ensures app { app_of result ≡ bare_app [] }
{
    Command::new(alloc, "coinst")
        .no_binary_name(true)
        .disable_help_flag(true)
        .disable_help_subcommand(true)
        .disable_version_flag(true)
        .subcommand_required(true)
}

// The program, with its commands.
fn program<'a>(alloc: Global) -> Result<Command<'a>, AllocError>
    ensures { IfOk result (λ c. app_of c ≡ app_of_usages usages) }
{
    let mut program = bare_program(alloc);
    for (name, flags, valued) in USAGES {
        program = add_command(alloc, program, name, flags, valued)?;
    }
    Ok(program)
}

// Tells want of memory apart from words that are refused.
fn refusal(error: &Error) -> WordError
    ensures { OnNotACommand (kind_of error.now ≡ ErrorKind.OutOfMemory → ⊥) result }
{
    if error.kind() == ErrorKind::OutOfMemory {
        WordError::Memory
    } else {
        WordError::NotACommand
    }
}

/// The command that the words name, and what they say.
pub(crate) fn parse<'a>(alloc: Global, words: &'a [String]) -> Result<ArgMatches<'a>, WordError>
    ensures said { IfOk result (Enters (said_of usages (map string_bytes words.entry.now))) }
    ensures refusal { IfErr result (OnNotACommand (said_of usages (map string_bytes words.entry.now)
        ≡ None)) }
{
    match program(alloc)?.try_get_matches_from(words) {
        Ok(matches) => Ok(matches),
        Err(error) => Err(refusal(&error)),
    }
}
