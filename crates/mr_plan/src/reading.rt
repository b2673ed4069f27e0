//! The reading of a plan from its text.

ghost use Rattle.std.specs.Prelude.{◌≡◌, ◌+◌, ◌≤◌, ◌<◌, ◌∷◌, [], List, ℕ, length, codes, Some, Ok, Err, IfOk, IfErr, IfNone, IfSome, MatchResult, option_copied};
ghost use Rattle.std.specs.Str.{bytes_eq};
ghost use Rattle.mr_plan.specs.Plans.{PlanParts, IsPlan, AreUpward};
ghost use Rattle.mr_plan.specs.PlanText.{plan_text, IsPlanText};
ghost use Rattle.mr_text.specs.Lines.{pieces, IsFirstBadLine};
ghost use Rattle.mr_plan.specs.Readings.{words_of, symbol_of, set_of_words, set_after, kind_of, set_of, recipe_of, next_line, read_recipes, read_plan};

use crate::errors::PlanLine;
use crate::kinds::Kind;
use crate::plans::Plan;
use crate::recipes::Recipe;
use arrayvec::ArrayVec;
use mr_bits::{MOST_SYMBOLS, Mask};
use mr_text::{read_number, split_at_byte};

impl Plan {
    /// The plan of which `bytes` are the text, or else the first line that is not of its form: the lines before it begin
    /// the text of a plan, and with it they begin none.
    ///
    /// So a text that ends before `end`, or in the middle of a line, is refused at the line that is missing or has no
    /// line feed, and bytes behind `end` at the line behind it. Takes no memory.
    pub fn read(bytes: &[u8]) -> Result<Plan, PlanLine>
        ensures value { result ≡ read_plan bytes.now }
        ensures first_bad { IfErr result (λ fault. IsFirstBadLine IsPlanText fault.line bytes.now) }
        ensures spelled { IfOk result (λ plan. bytes.now ≡ plan_text plan) }
        ensures read { (plan : PlanParts) → IsPlan plan → bytes.now ≡ plan_text plan
            → result ≡ Ok plan }
    {
        read_lines(bytes)
    }
}

/// Line 1, line 2, and the recipes.
fn read_lines(bytes: &[u8]) -> Result<Plan, PlanLine>
    ensures { result ≡ read_plan bytes.now }
{
    let (head, rest) = ended_line(bytes, 1)?;
    let kind = read_kind(head).ok_or(PlanLine { line: 1 })?;
    let (text, rest) = ended_line(rest, 2)?;
    let set = read_set(text).ok_or(PlanLine { line: 2 })?;
    let recipes = recipe_lines(rest)?;
    Ok(Plan::of_parts(kind, set, recipes))
}

/// The recipes from line 3 on, up to the line `end`.
fn recipe_lines(bytes: &[u8]) -> Result<ArrayVec<Recipe, MOST_SYMBOLS>, PlanLine>
    ensures { MatchResult result
        (λ recipes. read_recipes 3 0 (pieces 10 bytes.now) ≡ Ok recipes.items)
        (λ e. read_recipes 3 0 (pieces 10 bytes.now) ≡ Err e) }
{
    let mut recipes = ArrayVec::new();
    let mut least = 0;
    let mut line = 3;
    let mut rest = bytes;
    loop {
        let (text, left) = ended_line(rest, line)?;
        if is_end(text) {
            return if left.is_empty() {
                Ok(recipes)
            } else {
                Err(PlanLine { line: line + 1 })
            };
        }
        let recipe = read_recipe(text, least).ok_or(PlanLine { line })?;
        recipes.push(recipe);
        least = recipe.symbol() + 1;
        line += 1;
        rest = left;
    }
}

/// The first line, which has this number, and what is behind it.
fn ended_line(bytes: &[u8], line: u32) -> Result<(&[u8], &[u8]), PlanLine>
    ensures value { MatchResult result
        (λ parts. next_line line (pieces 10 bytes.now) ≡ Ok (parts.0.now, pieces 10 parts.1.now))
        (λ e. next_line line (pieces 10 bytes.now) ≡ Err e) }
    ensures shorter { IfOk result (λ parts. length parts.1.now < length bytes.now) }
{
    split_at_byte(bytes, b'\n').ok_or(PlanLine { line })
}

/// Whether a line is the last one.
fn is_end(line: &[u8]) -> bool
    ensures { result ≡ bytes_eq line.now (codes "end") }
{
    line == b"end".as_slice()
}

/// The kind that a first line names.
#[tactic(auto, unfolding(crate::specs::Readings::kind_of))]
fn read_kind(line: &[u8]) -> Option<Kind>
    ensures { result ≡ kind_of line.now }
{
    if line == b"plan 1 least".as_slice() {
        Some(Kind::Least)
    } else if line == b"plan 1 spent".as_slice() {
        Some(Kind::Spent)
    } else if line == b"plan 1 given".as_slice() {
        Some(Kind::Given)
    } else {
        None
    }
}

/// The set that a set line names.
fn read_set(line: &[u8]) -> Option<Mask>
    ensures { result ≡ set_of line.now }
{
    read_set_after(b"set", Some(line))
}

/// The recipe that a line names, of a symbol from `least` on.
fn read_recipe(line: &[u8], least: u8) -> Option<Recipe>
    ensures value { result ≡ recipe_of least line.now }
    ensures in_range { IfSome result (λ recipe. (least ≤ recipe.symbol) × (recipe.symbol < MOST_SYMBOLS)) }
{
    let (first, words) = first_word(line);
    let symbol = read_symbol(first, least)?;
    let sources = read_set_after(b"=", words)?;
    Some(Recipe::new(symbol, sources))
}

/// The set that words name behind the word `first`.
fn read_set_after(first: &[u8], words: Option<&[u8]>) -> Option<Mask>
    ensures { result ≡ set_after first.now (words_of (option_copied words.entry)) }
{
    let (word, rest) = first_word(words?);
    if word != first {
        return None;
    }
    read_members(rest)
}

/// The set of the symbols that words are, strictly upwards.
fn read_members(words: Option<&[u8]>) -> Option<Mask>
    ensures { result ≡ set_of_words 0 (words_of (option_copied words.entry)) }
{
    let mut set = Mask::EMPTY;
    let mut least = 0;
    let mut left = words;
    while let Some(text) = left {
        let (word, rest) = first_word(text);
        let symbol = read_symbol(word, least)?;
        set = set.with(symbol);
        least = symbol + 1;
        left = rest;
    }
    Some(set)
}

/// The number of a symbol, from `least` to 127.
#[tactic(auto, unfolding(crate::specs::Readings::symbol_of))]
fn read_symbol(word: &[u8], least: u8) -> Option<u8>
    ensures value { result ≡ symbol_of least word.now }
    ensures in_range { IfSome result (λ symbol. (least ≤ symbol) × (symbol < MOST_SYMBOLS)) }
{
    match read_number(word) {
        Some(number) if u32::from(least) <= number && number < MOST_SYMBOLS as u32 => Some(
            number as u8,
        ),
        _ => None,
    }
}

/// The first word, and the words behind it, if there are any.
fn first_word(words: &[u8]) -> (&[u8], Option<&[u8]>)
    ensures cut { pieces 32 words.now ≡ result.0.now ∷ words_of (option_copied result.1) }
    ensures shorter { IfSome result.1 (λ rest. length rest.now < length words.now) }
{
    match split_at_byte(words, b' ') {
        Some((word, rest)) => (word, Some(rest)),
        None => (words, None),
    }
}
