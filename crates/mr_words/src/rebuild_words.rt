//! The words of `rebuild MATRIX IMAGE LOST [--workers W] [--budget C] [--plan FILE] [--live]`.

ghost use Rattle.std.specs.Prelude.{◌≡◌, IfOk, codes, drop, map, string_bytes};
ghost use Rattle.clap.specs.Words.{app_of, first_value, found_of};
ghost use Rattle.mr_words.specs.Clap.{app_for};
ghost use Rattle.mr_words.specs.Reads.{Reads};
ghost use Rattle.mr_words.specs.Rebuild.{rebuild_from, rebuild_of, rebuild_syntax};
ghost use Rattle.mr_words.specs.Texts.{IsWorkers};

use crate::command::{command_for, parse};
use crate::errors::WordsError;
use crate::values::{budget, file, is_set, lost, optional_file, workers};
use clap::{ArgMatches, Command};
use mr_io::Text;
use std::alloc::{AllocError, Global};

/// What the words of `rebuild` ask.
#[derive(Debug, Drop)]
pub struct RebuildWords {
    /// The name of the matrix file.
    pub matrix: Text,
    /// The name of the image file.
    pub image: Text,
    /// The LOST word.
    pub lost: Text,
    /// The number of workers, 1 to 64.
    pub workers: u32,
    /// The budget, 0 to 33,554,432.
    pub budget: u32,
    /// The name of the plan file, where one is given.
    pub plan: Option<Text>,
    /// Whether the reads are served while the image is mended.
    pub live: bool,
}

/// Reads the words of `rebuild`, of which the first is `rebuild` itself and is not looked at.
pub fn read_rebuild(alloc: Global, words: &[String]) -> Result<RebuildWords, WordsError>
    ensures reads { Reads (rebuild_of (drop 1 (map string_bytes words.now))) result }
    ensures workers { IfOk result (λ words. IsWorkers words.workers) }
{
    let command = rebuild_command(alloc)?;
    let matches = parse(command, words)?;
    rebuild_values(alloc, &matches)
}

fn rebuild_values(alloc: Global, matches: &ArgMatches) -> Result<RebuildWords, WordsError>
    ensures reads { Reads (rebuild_from (first_value (found_of matches.now))) result }
    ensures workers { IfOk result (λ words. IsWorkers words.workers) }
{
    let matrix = file(alloc, matches, "matrix")?;
    let image = file(alloc, matches, "image")?;
    let lost = lost(alloc, matches, "lost")?;
    let workers = workers(matches)?;
    let budget = budget(matches)?;
    let plan = optional_file(alloc, matches, "plan")?;
    let live = is_set(matches, "live");
    Ok(RebuildWords {
        matrix,
        image,
        lost,
        workers,
        budget,
        plan,
        live,
    })
}

fn rebuild_command<'a>(alloc: Global) -> Result<Command<'a>, AllocError>
    ensures { IfOk result (λ command. app_of command ≡ app_for (codes "rebuild") rebuild_syntax) }
{
    let places = ["matrix", "image", "lost"];
    let valued = ["workers", "budget", "plan"];
    command_for(alloc, "rebuild", &places, &valued, &["live"])
}
