//! Readers of the values that the matches of a command have, one for each kind of value.

ghost use Rattle.std.specs.Prelude.{◌≡◌, ◌==◌, ◌≤◌, true, codes, chars, IfOk};
ghost use Rattle.std.specs.List.{list_any};
ghost use Rattle.clap.specs.Words.{first_value, found_of};
ghost use Rattle.mr_words.specs.Reads.{Reads, is_set};
ghost use Rattle.mr_words.specs.Texts.{budget_of, code_of, file_of, file_or_none, IsWorkers, lost_of, number_between, number_in, number_or, prime_of, primes_of, workers_of};

use crate::code::Code;
use crate::errors::WordsError;
use crate::limits::{BUDGET_LIMIT, DEFAULT_BUDGET, DEFAULT_WORKERS, WORKER_LIMIT};
use crate::lost::is_lost;
use clap::ArgMatches;
use mr_io::Text;
use mr_text::read_number;
use std::alloc::{AllocError, Global};

// A copy of the text.
fn text_of(alloc: Global, text: &str) -> Result<Text, AllocError>
    ensures { IfOk result (λ copied. copied ≡ chars text.now) }
{
    Ok(Text::of(String::from_str(alloc, text)?))
}

/// The file's name, by its characters: `Usage` where it is not given or empty.
pub fn file(alloc: Global, matches: &ArgMatches, name: &str) -> Result<Text, WordsError>
    ensures { Reads (file_of (first_value (found_of matches.now) name.now)) result }
{
    match matches.get_str(name) {
        Some(text) if !text.is_empty() => Ok(text_of(alloc, text)?),
        _ => Err(WordsError::Usage),
    }
}

/// The file's name where one is given, by its characters: `Usage` where it is empty.
pub fn optional_file(
    alloc: Global,
    matches: &ArgMatches,
    name: &str,
) -> Result<Option<Text>, WordsError>
    ensures { Reads (file_or_none (first_value (found_of matches.now) name.now)) result }
{
    match matches.get_str(name) {
        None => Ok(None),
        Some(text) if !text.is_empty() => Ok(Some(text_of(alloc, text)?)),
        _ => Err(WordsError::Usage),
    }
}

/// The LOST word: `Usage` where it is not given, or neither `none` nor numbers upwards, joined by commas.
pub fn lost(alloc: Global, matches: &ArgMatches, name: &str) -> Result<Text, WordsError>
    ensures { Reads (lost_of (first_value (found_of matches.now) name.now)) result }
{
    match matches.get_str(name) {
        Some(text) if is_lost(text) => Ok(text_of(alloc, text)?),
        _ => Err(WordsError::Usage),
    }
}

/// The number: `Usage` where it is not given or no number.
pub fn number(matches: &ArgMatches, name: &str) -> Result<u32, WordsError>
    ensures { Reads (number_in (first_value (found_of matches.now) name.now)) result }
{
    match matches.get_str(name) {
        Some(text) => read_number(text.as_bytes()).ok_or(WordsError::Usage),
        None => Err(WordsError::Usage),
    }
}

fn number_between(text: &str, low: u32, high: u32) -> Result<u32, WordsError>
    ensures reads { Reads (number_between low high text.now) result }
    ensures range { IfOk result (λ number. (low ≤ number) × (number ≤ high)) }
{
    match read_number(text.as_bytes()) {
        Some(number) if low <= number && number <= high => Ok(number),
        _ => Err(WordsError::Usage),
    }
}

/// The number of the option, or `default` where it is not given: `Usage` where it is no number from `low` to
/// `high`.
pub fn number_or(
    matches: &ArgMatches,
    name: &str,
    default: u32,
    low: u32,
    high: u32,
) -> Result<u32, WordsError>
    ensures reads { Reads (number_or default low high (first_value (found_of matches.now) name.now)) result }
    ensures range { low ≤ default → default ≤ high
        → IfOk result (λ number. (low ≤ number) × (number ≤ high)) }
{
    match matches.get_str(name) {
        None => Ok(default),
        Some(text) => number_between(text, low, high),
    }
}

/// The number of workers, of `--workers`: 1 to 64, and 4 where it is not given.
pub fn workers(matches: &ArgMatches) -> Result<u32, WordsError>
    ensures reads { Reads (workers_of (first_value (found_of matches.now) (codes "workers"))) result }
    ensures range { IfOk result IsWorkers }
{
    number_or(matches, "workers", DEFAULT_WORKERS, 1, WORKER_LIMIT)
}

/// The budget, of `--budget`: 0 to 33,554,432, and 4,194,304 where it is not given.
pub fn budget(matches: &ArgMatches) -> Result<u32, WordsError>
    ensures { Reads (budget_of (first_value (found_of matches.now) (codes "budget"))) result }
{
    number_or(matches, "budget", DEFAULT_BUDGET, 0, BUDGET_LIMIT)
}

/// Whether the flag is given.
pub fn is_set(matches: &ArgMatches, name: &str) -> bool
    ensures { result ≡ is_set (first_value (found_of matches.now) name.now) }
{
    match matches.get_str(name) {
        Some(text) => text == "true",
        None => false,
    }
}

/// The code of a maker: `rdp` or `evenodd`, and `Usage` for every other text.
pub fn code(matches: &ArgMatches, name: &str) -> Result<Code, WordsError>
    ensures { Reads (code_of (first_value (found_of matches.now) name.now)) result }
{
    match matches.get_str(name) {
        Some("rdp") => Ok(Code::Rdp),
        Some("evenodd") => Ok(Code::Evenodd),
        _ => Err(WordsError::Usage),
    }
}

/// Whether the code has a matrix of this prime: 3, 5 and 7, and 11 for `rdp` alone.
pub fn has_prime(code: Code, prime: u32) -> bool
    ensures { result ≡ list_any (λ p. p == prime) (primes_of code) }
{
    match code {
        Code::Rdp => matches!(prime, 3 | 5 | 7 | 11),
        Code::Evenodd => matches!(prime, 3 | 5 | 7),
    }
}

/// The prime of the code: `Usage` where it is no number of which the code has a matrix.
pub fn prime(matches: &ArgMatches, name: &str, code: Code) -> Result<u32, WordsError>
    ensures reads { Reads (prime_of code (first_value (found_of matches.now) name.now)) result }
    ensures listed { IfOk result (λ read. list_any (λ p. p == read) (primes_of code) ≡ true) }
{
    match matches.get_str(name) {
        Some(text) => match read_number(text.as_bytes()) {
            Some(prime) if has_prime(code, prime) => Ok(prime),
            _ => Err(WordsError::Usage),
        },
        None => Err(WordsError::Usage),
    }
}
