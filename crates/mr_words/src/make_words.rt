//! The words of `make rdp P` and `make evenodd P`.

ghost use Rattle.std.specs.Prelude.{◌≡◌, ◌==◌, true, IfOk, codes, drop, map, string_bytes};
ghost use Rattle.std.specs.List.{list_any};
ghost use Rattle.clap.specs.Words.{app_of, first_value, found_of};
ghost use Rattle.mr_words.specs.Clap.{app_for};
ghost use Rattle.mr_words.specs.Make.{make_from, make_of, make_syntax};
ghost use Rattle.mr_words.specs.Reads.{Reads};
ghost use Rattle.mr_words.specs.Texts.{primes_of};

use crate::code::Code;
use crate::command::{command_for, parse};
use crate::errors::WordsError;
use crate::values::{code, prime};
use clap::{ArgMatches, Command};
use std::alloc::{AllocError, Global};

/// What the words of `make` ask.
#[derive(Clone, Copy, Debug, Drop, PartialEq, Eq)]
pub struct MakeWords {
    /// The code.
    pub code: Code,
    /// Its prime: 3, 5 or 7, or 11 for `rdp`.
    pub prime: u32,
}

/// Reads the words of `make`, of which the first is `make` itself and is not looked at.
pub fn read_make(alloc: Global, words: &[String]) -> Result<MakeWords, WordsError>
    ensures reads { Reads (make_of (drop 1 (map string_bytes words.now))) result }
    ensures listed { IfOk result (λ words.
        list_any (λ p. p == words.prime) (primes_of words.code) ≡ true) }
{
    let command = make_command(alloc)?;
    let matches = parse(command, words)?;
    make_values(&matches)
}

fn make_values(matches: &ArgMatches) -> Result<MakeWords, WordsError>
    ensures reads { Reads (make_from (first_value (found_of matches.now))) result }
    ensures listed { IfOk result (λ words.
        list_any (λ p. p == words.prime) (primes_of words.code) ≡ true) }
{
    let code = code(matches, "code")?;
    let prime = prime(matches, "prime", code)?;
    Ok(MakeWords { code, prime })
}

fn make_command<'a>(alloc: Global) -> Result<Command<'a>, AllocError>
    ensures { IfOk result (λ command. app_of command ≡ app_for (codes "make") make_syntax) }
{
    let places = ["code", "prime"];
    command_for(alloc, "make", &places, &[], &[])
}
