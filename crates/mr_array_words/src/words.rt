//! The words behind the program's name.

ghost use Rattle.std.specs.Prelude.{drop, map, string_bytes};
ghost use Rattle.mr_array_words.specs.Reads.{ReadsAs};
ghost use Rattle.mr_array_words.specs.Words.{array_asked, array_words_of, command_asked};

use crate::gather_words::{GatherWords, read_gather};
use crate::scatter_words::{ScatterWords, read_scatter};
use mr_words::WordsError;
use std::alloc::Global;

/// What the words ask, by the command.
#[derive(Debug, Drop)]
pub enum ArrayWords {
    /// An image is gathered from device files.
    Gather(GatherWords),
    /// An image is scattered to device files.
    Scatter(ScatterWords),
}

/// Reads the words, of which the first is the program's name and is not looked at. `Usage` comes exactly where they
/// are not in the grammar.
#[tactic(auto, unfolding(crate::specs::Words::array_words_of))]
pub fn read_array_words(alloc: Global, words: &[String]) -> Result<ArrayWords, WordsError>
    ensures reads { ReadsAs array_asked (array_words_of (drop 1 (map string_bytes words.now))) result }
{
    match words {
        [_program, rest @ ..] => read_command(alloc, rest),
        [] => Err(WordsError::Usage),
    }
}

#[tactic(auto, unfolding(crate::specs::Words::array_words_of))]
fn read_command(alloc: Global, words: &[String]) -> Result<ArrayWords, WordsError>
    ensures { ReadsAs array_asked (array_words_of (map string_bytes words.now)) result }
{
    match words {
        [command, ..] => read_named(alloc, command.as_str(), words),
        [] => Err(WordsError::Usage),
    }
}

/// Reads the words, of which the first is the command.
fn read_named(alloc: Global, command: &str, words: &[String]) -> Result<ArrayWords, WordsError>
    ensures { ReadsAs array_asked (command_asked command.now (drop 1 (map string_bytes words.now))) result }
{
    match command {
        "gather" => Ok(ArrayWords::Gather(read_gather(alloc, words)?)),
        "scatter" => Ok(ArrayWords::Scatter(read_scatter(alloc, words)?)),
        _ => Err(WordsError::Usage),
    }
}
