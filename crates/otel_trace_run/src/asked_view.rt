//! Views of traces, and how the program's arguments ask for one.

ghost use Rattle.std.specs.Prelude.{◌≡◌, map, string_bytes};
ghost use Rattle.otel_trace_run.specs.AskedViews.{chosen, flagged, form_in, narrowed, view_in, viewed};
ghost use Rattle.otel_trace_run.specs.Words.{trace_id_in};

use crate::mode::columns_of;
use crate::picture::PictureForm;
use opentelemetry::TraceId;
use otel_picture::choice::{Choice, EVERY};
use otel_picture::layout::COLUMNS;
use otel_trace_lines::fields::parse_decimal;

/// What is written of traces, and of which.
#[derive(Clone, Copy, Debug, PartialEq, Eq)]
pub struct View {
    pub form: ViewForm,
    pub choice: Choice,
}

/// What is written of traces.
#[derive(Clone, Copy, Debug, PartialEq, Eq)]
pub enum ViewForm {
    Picture(PictureForm),
    /// A line of JSON a trace.
    Summary,
    /// One HTML file.
    Html,
}

/// The form where no word names one.
const PLAIN_FORM: ViewForm = ViewForm::Picture(PictureForm::Text { columns: COLUMNS });

/// The view that the words after `view` ask for; none where they ask for none.
pub(crate) fn view_of(words: &[String]) -> Option<View>
    ensures { result ≡ view_in (map string_bytes words.now) }
{
    let Some((word, after)) = words.split_first() else {
        return viewed(PLAIN_FORM, words);
    };
    if word.as_str().starts_with('-') {
        return viewed(PLAIN_FORM, words);
    }
    viewed(form_of(word.as_str())?, after)
}

/// A view in this form of what these words choose.
fn viewed(form: ViewForm, words: &[String]) -> Option<View>
    ensures { result ≡ viewed form (map string_bytes words.now) }
{
    let choice = choose(words, EVERY)?;
    Some(View { form, choice })
}

/// The form that a word names: `svg`, `json`, `html`, or a number of columns; none where it names none.
#[tactic(auto, unfolding(crate::specs::AskedViews::form_in))]
pub(crate) fn form_of(word: &str) -> Option<ViewForm>
    ensures { result ≡ form_in word.now }
{
    if word == "svg" {
        Some(ViewForm::Picture(PictureForm::Svg))
    } else if word == "json" {
        Some(ViewForm::Summary)
    } else if word == "html" {
        Some(ViewForm::Html)
    } else {
        let columns = columns_of(word)?;
        Some(ViewForm::Picture(PictureForm::Text { columns }))
    }
}

/// What words choose, after what was chosen before them; none where they choose nothing.
fn choose(words: &[String], begun: Choice) -> Option<Choice>
    ensures { result ≡ chosen (map string_bytes words.now) begun }
{
    let Some((word, after)) = words.split_first() else {
        return Some(begun);
    };
    if let Some(choice) = flagged(word.as_str(), begun) {
        return choose(after, choice);
    }
    let (value, rest) = after.split_first()?;
    choose(rest, narrow(word.as_str(), value.as_str(), begun)?)
}

/// A choice with what a word adds by itself; none where it adds nothing so.
#[tactic(auto, unfolding(crate::specs::AskedViews::flagged))]
fn flagged(word: &str, begun: Choice) -> Option<Choice>
    ensures { result ≡ flagged word.now begun }
{
    if word == "--errors" {
        Some(Choice {
            errors_only: true,
            ..begun
        })
    } else if word == "--attributes" {
        Some(Choice {
            attributes: true,
            ..begun
        })
    } else {
        None
    }
}

/// A choice with what a word and the one after it add; none where they add nothing.
#[tactic(auto, unfolding(crate::specs::AskedViews::narrowed))]
pub(crate) fn narrow(word: &str, value: &str, begun: Choice) -> Option<Choice>
    ensures { result ≡ narrowed word.now value.now begun }
{
    if word == "--slowest" {
        let count = parse_decimal(value)? as usize;
        Some(Choice {
            slowest: Some(count),
            ..begun
        })
    } else if word == "--trace" {
        let id = trace_id_of(value)?;
        Some(Choice {
            trace_id: Some(id),
            ..begun
        })
    } else {
        None
    }
}

/// The id that 32 digits 0-9 a-f write.
fn trace_id_of(text: &str) -> Option<TraceId>
    ensures { result ≡ trace_id_in text.now }
{
    match TraceId::from_hex(text) {
        Ok(id) => Some(id),
        Err(_) => None,
    }
}
