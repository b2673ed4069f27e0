//! The words of `sectors MATRIX IMAGE LOST BAD [--budget C]`.

ghost use Rattle.std.specs.Prelude.{◌≡◌, IfOk, codes, drop, map, string_bytes};
ghost use Rattle.clap.specs.Words.{app_of, first_value, found_of};
ghost use Rattle.mr_words.specs.Clap.{app_for};
ghost use Rattle.mr_words.specs.Reads.{Reads};
ghost use Rattle.mr_words.specs.Sectors.{sectors_from, sectors_syntax, sectors_words_of};

use crate::command::{command_for, parse};
use crate::errors::WordsError;
use crate::values::{budget, file, lost};
use clap::{ArgMatches, Command};
use mr_io::Text;
use std::alloc::{AllocError, Global};

/// What the words of `sectors` ask.
#[derive(Debug, Drop)]
pub struct SectorsWords {
    /// The name of the matrix file.
    pub matrix: Text,
    /// The name of the image file.
    pub image: Text,
    /// The LOST word.
    pub lost: Text,
    /// The name of the file that lists the symbols that cannot be read.
    pub bad: Text,
    /// The budget of each plan, 0 to 33,554,432.
    pub budget: u32,
}

/// Reads the words of `sectors`, of which the first is `sectors` itself and is not looked at.
pub fn read_sectors_words(alloc: Global, words: &[String]) -> Result<SectorsWords, WordsError>
    ensures { Reads (sectors_words_of (drop 1 (map string_bytes words.now))) result }
{
    let command = sectors_command(alloc)?;
    let matches = parse(command, words)?;
    sectors_values(alloc, &matches)
}

fn sectors_values(alloc: Global, matches: &ArgMatches) -> Result<SectorsWords, WordsError>
    ensures { Reads (sectors_from (first_value (found_of matches.now))) result }
{
    let matrix = file(alloc, matches, "matrix")?;
    let image = file(alloc, matches, "image")?;
    let lost = lost(alloc, matches, "lost")?;
    let bad = file(alloc, matches, "bad")?;
    let budget = budget(matches)?;
    Ok(SectorsWords {
        matrix,
        image,
        lost,
        bad,
        budget,
    })
}

fn sectors_command<'a>(alloc: Global) -> Result<Command<'a>, AllocError>
    ensures { IfOk result (λ command. app_of command ≡ app_for (codes "sectors") sectors_syntax) }
{
    let places = ["matrix", "image", "lost", "bad"];
    let valued = ["budget"];
    command_for(alloc, "sectors", &places, &valued, &[])
}
