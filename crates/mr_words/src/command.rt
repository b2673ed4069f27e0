//! The command of the crate `clap` for a syntax, and the parse by it.
//!
//! The command has the syntax's places, each required, then its options with a value, then its flags; its help
//! flag is switched off, and it has no value parser: what the texts mean is read from the matches.

ghost use Rattle.std.specs.Prelude.{◌≡◌, IfOk, List, map, false, string_bytes};
ghost use Rattle.clap.specs.Words.{app_of, rule_of};
ghost use Rattle.mr_words.specs.Clap.{IsCommandOf, app_for, with_rules, new_flag, new_place, new_valued};
ghost use Rattle.mr_words.specs.Grammar.{Syntax, Text};
ghost use Rattle.mr_words.specs.Reads.{ParsesBy};

use crate::errors::WordsError;
use clap::error::ErrorKind;
use clap::{Arg, ArgAction, ArgMatches, Command};
use std::alloc::{AllocError, Global};

/// A place that is wanted.
pub fn place<'a>(alloc: Global, name: &'a str) -> Arg<'a>
    ensures rule { rule_of result ≡ new_place name.entry.now }
    ensures own { result.global ≡ false }
{
    Arg::new(alloc, name).required(true).action(ArgAction::Set)
}

/// An option `--name` with a value.
pub fn valued<'a>(alloc: Global, name: &'a str) -> Arg<'a>
    ensures rule { rule_of result ≡ new_valued name.entry.now }
    ensures own { result.global ≡ false }
{
    Arg::new(alloc, name).long(name).action(ArgAction::Set)
}

/// An option `--name` without a value.
pub fn flag<'a>(alloc: Global, name: &'a str) -> Arg<'a>
    ensures rule { rule_of result ≡ new_flag name.entry.now }
    ensures own { result.global ≡ false }
{
    Arg::new(alloc, name).long(name).action(ArgAction::SetTrue)
}

/// The command of a syntax, by the names of its places, of its options with a value and of its flags.
pub fn command_for<'a>(
    alloc: Global,
    title: &'a str,
    places: &[&'a str],
    valued: &[&'a str],
    flags: &[&'a str],
) -> Result<Command<'a>, AllocError>
    ensures { IfOk result (λ command. app_of command ≡ app_for title.entry.now
        (record {
          places = map (λ name. name.now) places.now;
          valued = map (λ name. name.now) valued.now;
          flags = map (λ name. name.now) flags.now;
        })) }
{
    let bare = Command::new(alloc, title).disable_help_flag(true);
    let with_places = add_places(alloc, bare, places)?;
    let with_valued = add_valued(alloc, with_places, valued)?;
    add_flags(alloc, with_valued, flags)
}

fn add_places<'a>(
    alloc: Global,
    command: Command<'a>,
    names: &[&'a str],
) -> Result<Command<'a>, AllocError>
    ensures { IfOk result (λ r. app_of r
        ≡ with_rules (app_of command.entry) (map (λ name. new_place name.now) names.now)) }
{
    let mut command = command;
    for name in names {
        command = command.arg(place(alloc, name))?;
    }
    Ok(command)
}

fn add_valued<'a>(
    alloc: Global,
    command: Command<'a>,
    names: &[&'a str],
) -> Result<Command<'a>, AllocError>
    ensures { IfOk result (λ r. app_of r
        ≡ with_rules (app_of command.entry) (map (λ name. new_valued name.now) names.now)) }
{
    let mut command = command;
    for name in names {
        command = command.arg(valued(alloc, name))?;
    }
    Ok(command)
}

fn add_flags<'a>(
    alloc: Global,
    command: Command<'a>,
    names: &[&'a str],
) -> Result<Command<'a>, AllocError>
    ensures { IfOk result (λ r. app_of r
        ≡ with_rules (app_of command.entry) (map (λ name. new_flag name.now) names.now)) }
{
    let mut command = command;
    for name in names {
        command = command.arg(flag(alloc, name))?;
    }
    Ok(command)
}

/// The matches of the words, the first of which is the command's own name and is not read.
///
/// For each syntax whose command this is, `Ok` has just what the grammar gives, and `Usage` comes exactly where
/// the grammar refuses the words. `Memory` is want of memory.
pub fn parse<'a>(command: Command<'a>, words: &'a [String]) -> Result<ArgMatches<'a>, WordsError>
    ensures { (title : Text) (s : Syntax) → IsCommandOf title s (app_of command.entry)
        → ParsesBy s (map string_bytes words.entry.now) result }
{
    match command.try_get_matches_from(words) {
        Ok(matches) => Ok(matches),
        Err(error) => match error.kind() {
            ErrorKind::OutOfMemory => Err(WordsError::Memory),
            _ => Err(WordsError::Usage),
        },
    }
}
