//! The words of the command line.

ghost use Rattle.std.specs.Prelude.{◌≡◌, map, string_bytes, IfOk};
ghost use Rattle.mr_words.specs.Reads.{Reads};
ghost use Rattle.mr_steps.specs.Requests.{IsRequest, check_request_of, command_request, convert_request_of, drill_request_of, encode_request_of, make_request_of, plan_request_of, rebuild_request_of, request_of, scrub_request_of, sectors_request_of};

use crate::request::Request;
use mr_words::{
    ImageWords, WordsError, read_check, read_drill, read_encode, read_image_words, read_make,
    read_plan, read_rebuild, read_sectors_words,
};
use std::alloc::Global;

/// Reads the words after the program's name. `Usage` comes exactly where they are not in the
/// grammar.
#[tactic(auto, unfolding(crate::specs::Requests::request_of))]
pub fn read_words(alloc: Global, words: &[String]) -> Result<Request, WordsError>
    ensures reads { Reads (request_of (map string_bytes words.now)) result }
    ensures makes { IfOk result IsRequest }
{
    match words {
        [command, ..] => read_command(alloc, command.as_str(), words),
        [] => Err(WordsError::Usage),
    }
}

/// Reads the words, of which the first is the command.
fn read_command(alloc: Global, command: &str, words: &[String]) -> Result<Request, WordsError>
    ensures reads { Reads (command_request command.now (map string_bytes words.now)) result }
    ensures makes { IfOk result IsRequest }
{
    match command {
        "plan" => read_plan_request(alloc, words),
        "check" => read_check_request(alloc, words),
        "make" => read_make_request(alloc, words),
        "encode" => read_encode_request(alloc, words),
        "rebuild" => read_rebuild_request(alloc, words),
        "convert" => read_convert_request(alloc, words),
        "scrub" => read_scrub_request(alloc, words),
        "sectors" => read_sectors_request(alloc, words),
        "drill" => read_drill_request(alloc, words),
        _ => Err(WordsError::Usage),
    }
}

fn read_plan_request(alloc: Global, words: &[String]) -> Result<Request, WordsError>
    ensures reads { Reads (plan_request_of (map string_bytes words.now)) result }
    ensures makes { IfOk result IsRequest }
{
    match read_plan(alloc, words) {
        Ok(words) => Ok(Request::from(words)),
        Err(error) => Err(error),
    }
}

fn read_make_request(alloc: Global, words: &[String]) -> Result<Request, WordsError>
    ensures reads { Reads (make_request_of (map string_bytes words.now)) result }
    ensures makes { IfOk result IsRequest }
{
    match read_make(alloc, words) {
        Ok(words) => Ok(Request::from(words)),
        Err(error) => Err(error),
    }
}

fn read_check_request(alloc: Global, words: &[String]) -> Result<Request, WordsError>
    ensures reads { Reads (check_request_of (map string_bytes words.now)) result }
    ensures makes { IfOk result IsRequest }
{
    match read_check(alloc, words) {
        Ok(words) => Ok(Request::from(words)),
        Err(error) => Err(error),
    }
}

fn read_encode_request(alloc: Global, words: &[String]) -> Result<Request, WordsError>
    ensures reads { Reads (encode_request_of (map string_bytes words.now)) result }
    ensures makes { IfOk result IsRequest }
{
    match read_encode(alloc, words) {
        Ok(words) => Ok(Request::from(words)),
        Err(error) => Err(error),
    }
}

fn read_rebuild_request(alloc: Global, words: &[String]) -> Result<Request, WordsError>
    ensures reads { Reads (rebuild_request_of (map string_bytes words.now)) result }
    ensures makes { IfOk result IsRequest }
{
    match read_rebuild(alloc, words) {
        Ok(words) => Ok(Request::from(words)),
        Err(error) => Err(error),
    }
}

fn read_convert_request(alloc: Global, words: &[String]) -> Result<Request, WordsError>
    ensures reads { Reads (convert_request_of (map string_bytes words.now)) result }
    ensures makes { IfOk result IsRequest }
{
    match read_image_words(alloc, "convert", words) {
        Ok(ImageWords { matrix, image }) => Ok(Request::Convert { matrix, image }),
        Err(error) => Err(error),
    }
}

fn read_scrub_request(alloc: Global, words: &[String]) -> Result<Request, WordsError>
    ensures reads { Reads (scrub_request_of (map string_bytes words.now)) result }
    ensures makes { IfOk result IsRequest }
{
    match read_image_words(alloc, "scrub", words) {
        Ok(ImageWords { matrix, image }) => Ok(Request::Scrub { matrix, image }),
        Err(error) => Err(error),
    }
}

fn read_sectors_request(alloc: Global, words: &[String]) -> Result<Request, WordsError>
    ensures reads { Reads (sectors_request_of (map string_bytes words.now)) result }
    ensures makes { IfOk result IsRequest }
{
    match read_sectors_words(alloc, words) {
        Ok(words) => Ok(Request::from(words)),
        Err(error) => Err(error),
    }
}

fn read_drill_request(alloc: Global, words: &[String]) -> Result<Request, WordsError>
    ensures reads { Reads (drill_request_of (map string_bytes words.now)) result }
    ensures makes { IfOk result IsRequest }
{
    match read_drill(alloc, words) {
        Ok(words) => Ok(Request::from(words)),
        Err(error) => Err(error),
    }
}
