//! Which word of arguments that ask for nothing does not read, and what is wanted in its place.

ghost use Rattle.std.specs.Prelude.{◌≡◌, IfOk, OnOk, Some, map, option_map, string_bytes};
ghost use Rattle.std.specs.Result.{result_map_both};
ghost use Rattle.otel_trace_run.specs.WrongWords.{pass_asked, pass_choices, pass_columns, pass_help, pass_mode};
ghost use Rattle.otel_trace_run.specs.WrongWords.{pass_nothing, pass_number, pass_one, pass_processor, pass_view};
ghost use Rattle.opentelemetry.specs.Text.{TextGrows};
ghost use Rattle.otel_trace_run.specs.WrongWords.{pass_words, plain_wrong, refusal_in, refusal_text, wanted_after};
ghost use Rattle.otel_trace_run.specs.WrongWords.{wanted_line, wanted_text, word as wrong_word, word_line};
ghost use Rattle.otel_trace_run.specs.WrongWords.{wrong_text};

use crate::asked_view::{form_of, narrow};
use crate::mode::{columns_of, encoding_of};
use crate::pages::{is_help, is_version, page_of_mode, usage_for};
use otel_picture::choice::EVERY;
use otel_trace_lines::fields::parse_decimal;
use std::alloc::{AllocError, Global};
use std::fmt::Write;

/// What is wanted where a word does not read, or where there is none.
#[derive(Clone, Copy, Debug, PartialEq, Eq)]
pub enum Wanted {
    Mode,
    Seed,
    Processor,
    Number,
    Columns,
    Form,
    Choice,
    TraceId,
    Nothing,
}

/// What is wrong with arguments: a word that does not read, or their end; and what is wanted there.
#[derive(Clone, Copy, Debug, PartialEq, Eq)]
pub enum Wrong<'w> {
    Word(&'w str, Wanted),
    End(Wanted),
}

/// What is said of arguments that ask for nothing: the usage of their mode, and what is wrong with them, if more than
/// the usage is said of that mode.
#[derive(Clone, Copy, Debug, PartialEq, Eq)]
pub struct Refusal<'w> {
    pub usage: &'static str,
    pub wrong: Option<Wrong<'w>>,
}

pub const MODE: &str = "a mode: trace, steps, otlp, picture, svg, view, help or version";

pub const SEED: &str = "SEED, a whole number below 2^64";

pub const PROCESSOR: &str = "simple, or batch Q B";

pub const NUMBER: &str = "a whole number below 2^64";

pub const COLUMNS: &str = "COLUMNS, from 20 to 400";

pub const FORM: &str = "COLUMNS, from 20 to 400, svg, json or html";

pub const CHOICE: &str = "--errors, --slowest N, --trace ID or --attributes";

pub const ID: &str = "an ID of 32 digits 0-9 a-f";

pub const NOTHING: &str = "no more words";

/// What is said of arguments that ask for nothing.
pub(crate) fn refusal_of(words: &[String]) -> Refusal<'_>
    ensures { refusal_text result ≡ refusal_in (map string_bytes words.now) }
{
    let usage = usage_for(words);
    let wrong = pass_words(words).err();
    Refusal { usage, wrong }
}

/// The text of that.
pub(crate) fn text_of(alloc: Global, refusal: Refusal<'_>) -> Result<String, AllocError>
    ensures { IfOk result (λ text. string_bytes text ≡ refusal_text refusal.entry) }
{
    let mut text = String::from_str(alloc, refusal.usage)?;
    push_wrong(&mut text, refusal.wrong)?;
    Ok(text)
}

/// Appends what is wrong, if anything is.
#[tactic(auto, using(std::proofs::lemmas::List::append_assoc))]
fn push_wrong(text: &mut String, wrong: Option<Wrong<'_>>) -> Result<(), AllocError>
    ensures { OnOk result (TextGrows text.old (wrong_text (option_map plain_wrong wrong.entry)) text.new) }
{
    match wrong {
        None => Ok(()),
        Some(Wrong::Word(word, wanted)) => push_word(text, word, wanted),
        Some(Wrong::End(wanted)) => push_wanted(text, wanted),
    }
}

/// Appends the word that does not read, and what is wanted.
#[tactic(auto, using(std::proofs::lemmas::List::append_assoc))]
fn push_word(text: &mut String, word: &str, wanted: Wanted) -> Result<(), AllocError>
    ensures { OnOk result (TextGrows text.old (wrong_text (Some (wrong_word word.now wanted))) text.new) }
{
    push_word_line(text, word)?;
    push_wanted(text, wanted)
}

/// Appends the line of that word.
#[tactic(auto, unfolding(crate::specs::WrongWords::word_line))]
fn push_word_line(text: &mut String, word: &str) -> Result<(), AllocError>
    ensures { OnOk result (TextGrows text.old (word_line word.now) text.new) }
{
    write!(text, "cannot read the word: {word}\n")
}

/// Appends what is wanted.
#[tactic(auto, unfolding(crate::specs::WrongWords::wanted_line))]
fn push_wanted(text: &mut String, wanted: Wanted) -> Result<(), AllocError>
    ensures { OnOk result (TextGrows text.old (wanted_line wanted) text.new) }
{
    let wants = wanted_text(wanted);
    write!(text, "wanted: {wants}\n")
}

/// What is wanted, in words.
fn wanted_text(wanted: Wanted) -> &'static str
    ensures { result.now ≡ wanted_text wanted }
{
    match wanted {
        Wanted::Mode => MODE,
        Wanted::Seed => SEED,
        Wanted::Processor => PROCESSOR,
        Wanted::Number => NUMBER,
        Wanted::Columns => COLUMNS,
        Wanted::Form => FORM,
        Wanted::Choice => CHOICE,
        Wanted::TraceId => ID,
        Wanted::Nothing => NOTHING,
    }
}

/// What is wrong with all words, if anything is. Of the modes whose usage is fixed nothing is said.
#[tactic(auto, unfolding(crate::specs::WrongWords::pass_words))]
fn pass_words(words: &[String]) -> Result<(), Wrong<'_>>
    ensures { result_map_both (λ _. tt) plain_wrong result ≡ pass_words (map string_bytes words.now) }
{
    let Some((word, after)) = words.split_first() else {
        return Err(Wrong::End(Wanted::Mode));
    };
    let word = word.as_str();
    if is_help(word) {
        pass_help(after)
    } else if is_version(word) {
        pass_nothing(after)
    } else if word == "trace" || word == "steps" {
        Ok(())
    } else {
        pass_mode(word, after)
    }
}

/// What is wrong with the words after that of a mode.
#[tactic(auto, unfolding(crate::specs::WrongWords::pass_mode))]
fn pass_mode<'w>(word: &'w str, after: &'w [String]) -> Result<(), Wrong<'w>>
    ensures { result_map_both (λ _. tt) plain_wrong result ≡ pass_mode word.now (map string_bytes after.now) }
{
    if word == "otlp" {
        let (_, words) = encoding_of(after);
        pass_one(pass_asked(words)?)
    } else if word == "picture" {
        pass_columns(pass_asked(after)?)
    } else if word == "svg" {
        pass_nothing(pass_asked(after)?)
    } else if word == "view" {
        pass_view(after)
    } else {
        Err(Wrong::Word(word, Wanted::Mode))
    }
}

/// No word is wanted.
fn pass_nothing(words: &[String]) -> Result<(), Wrong<'_>>
    ensures { result_map_both (λ _. tt) plain_wrong result ≡ pass_nothing (map string_bytes words.now) }
{
    match words.split_first() {
        None => Ok(()),
        Some((word, _)) => Err(Wrong::Word(word.as_str(), Wanted::Nothing)),
    }
}

/// One word at most is wanted, whatever it is.
fn pass_one(words: &[String]) -> Result<(), Wrong<'_>>
    ensures { result_map_both (λ _. tt) plain_wrong result ≡ pass_one (map string_bytes words.now) }
{
    match words.split_first() {
        None => Ok(()),
        Some((_, after)) => pass_nothing(after),
    }
}

/// Columns are wanted, or nothing.
fn pass_columns(words: &[String]) -> Result<(), Wrong<'_>>
    ensures { result_map_both (λ _. tt) plain_wrong result ≡ pass_columns (map string_bytes words.now) }
{
    let Some((word, after)) = words.split_first() else {
        return Ok(());
    };
    if columns_of(word.as_str()).is_none() {
        return Err(Wrong::Word(word.as_str(), Wanted::Columns));
    }
    pass_nothing(after)
}

/// The word of a mode is wanted, or nothing.
fn pass_help(words: &[String]) -> Result<(), Wrong<'_>>
    ensures { result_map_both (λ _. tt) plain_wrong result ≡ pass_help (map string_bytes words.now) }
{
    let Some((word, after)) = words.split_first() else {
        return Ok(());
    };
    if page_of_mode(word.as_str()).is_none() {
        return Err(Wrong::Word(word.as_str(), Wanted::Mode));
    }
    pass_nothing(after)
}

/// `SEED` and a processor are wanted; the words after them.
fn pass_asked(words: &[String]) -> Result<&[String], Wrong<'_>>
    ensures { result_map_both (λ rest. map string_bytes rest.now) plain_wrong result
        ≡ pass_asked (map string_bytes words.now) }
{
    pass_processor(pass_number(words, Wanted::Seed)?)
}

/// A processor is wanted; the words after it.
fn pass_processor(words: &[String]) -> Result<&[String], Wrong<'_>>
    ensures { result_map_both (λ rest. map string_bytes rest.now) plain_wrong result
        ≡ pass_processor (map string_bytes words.now) }
{
    let Some((word, after)) = words.split_first() else {
        return Err(Wrong::End(Wanted::Processor));
    };
    let word = word.as_str();
    if word == "simple" {
        Ok(after)
    } else if word == "batch" {
        pass_number(pass_number(after, Wanted::Number)?, Wanted::Number)
    } else {
        Err(Wrong::Word(word, Wanted::Processor))
    }
}

/// A number is wanted; the words after it.
fn pass_number(words: &[String], wanted: Wanted) -> Result<&[String], Wrong<'_>>
    ensures { result_map_both (λ rest. map string_bytes rest.now) plain_wrong result
        ≡ pass_number wanted (map string_bytes words.now) }
{
    let Some((word, after)) = words.split_first() else {
        return Err(Wrong::End(wanted));
    };
    if parse_decimal(word.as_str()).is_none() {
        return Err(Wrong::Word(word.as_str(), wanted));
    }
    Ok(after)
}

/// A form is wanted, and then words that choose among traces.
fn pass_view(words: &[String]) -> Result<(), Wrong<'_>>
    ensures { result_map_both (λ _. tt) plain_wrong result ≡ pass_view (map string_bytes words.now) }
{
    let Some((word, after)) = words.split_first() else {
        return Ok(());
    };
    let word = word.as_str();
    if word.starts_with('-') {
        return pass_choices(words);
    }
    if form_of(word).is_none() {
        return Err(Wrong::Word(word, Wanted::Form));
    }
    pass_choices(after)
}

/// Words are wanted that choose among traces, or nothing.
fn pass_choices(words: &[String]) -> Result<(), Wrong<'_>>
    ensures { result_map_both (λ _. tt) plain_wrong result ≡ pass_choices (map string_bytes words.now) }
{
    let Some((word, after)) = words.split_first() else {
        return Ok(());
    };
    let word = word.as_str();
    if word == "--errors" || word == "--attributes" {
        return pass_choices(after);
    }
    let Some(wanted) = wanted_after(word) else {
        return Err(Wrong::Word(word, Wanted::Choice));
    };
    let Some((value, rest)) = after.split_first() else {
        return Err(Wrong::End(wanted));
    };
    if narrow(word, value.as_str(), EVERY).is_none() {
        return Err(Wrong::Word(value.as_str(), wanted));
    }
    pass_choices(rest)
}

/// What is wanted after a word that chooses by a value; none where it is another word.
#[tactic(auto, unfolding(crate::specs::WrongWords::wanted_after))]
fn wanted_after(word: &str) -> Option<Wanted>
    ensures { result ≡ wanted_after word.now }
{
    if word == "--slowest" {
        Some(Wanted::Number)
    } else if word == "--trace" {
        Some(Wanted::TraceId)
    } else {
        None
    }
}
