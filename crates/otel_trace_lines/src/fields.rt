//! The parts of a line: fields, each ended by a space, numbers, and the line itself.

ghost use Rattle.std.specs.Prelude.{◌≡◌, ◌≢◌, ℕ, ◌<◌, All, List, slice_index, take, [], ◌∷◌, ◌++◌, length, Option, IfOk, IsOk, IsTrue, ◌↔◌, MatchOption, is_some, true};
ghost use Rattle.std.specs.Float.{binary64};
ghost use Rattle.std.specs.Float.Parse.{parse_float};
ghost use Rattle.std.specs.Option.{option_map};
ghost use Rattle.std.specs.Str.Lines.{lines as lines_of, strip_carriage_return};
ghost use Rattle.otel_trace_lines.specs.Dialects.{MayHave};
ghost use Rattle.otel_trace_lines.specs.Found.{Finds, SpellsStatus, StatusGives};
ghost use Rattle.otel_trace_lines.specs.Lines.{IsField, IsOfForm, field, instant, rest_of_line, start_form, time};
ghost use Rattle.otel_trace_lines.specs.Numbers.{decimal_in, integer_in, kind_in, truth_in};

use crate::dialect::Dialect;
use opentelemetry::Moment;
use opentelemetry::trace::{SpanKind, Status};
use otel_lines::first_line_feed;
use std::alloc::{AllocError, Global};

/// Two fields and what stands after the space that ends the second; none where there are not so many.
pub(crate) fn two_fields_and_rest(text: &str) -> Option<(&str, &str, &str)>
    ensures { Finds {X = List ℕ × List ℕ × List ℕ}
        (λ parts. IsOfForm text.now (field parts.0 (field parts.1 (rest_of_line parts.2))))
        (option_map (λ parts. (parts.0.now, parts.1.now, parts.2.now)) result) }
{
    let (first, after) = first_field(text)?;
    let (second, rest) = first_field(after)?;
    Some((first, second, rest))
}

/// Three fields and what stands after the space that ends the third; none where there are not so many.
pub(crate) fn three_fields_and_rest(text: &str) -> Option<(&str, &str, &str, &str)>
    ensures { Finds {X = List ℕ × List ℕ × List ℕ × List ℕ}
        (λ parts. IsOfForm text.now (field parts.0 (field parts.1 (field parts.2 (rest_of_line parts.3)))))
        (option_map (λ parts. (parts.0.now, parts.1.now, parts.2.now, parts.3.now)) result) }
{
    let (first, after) = first_field(text)?;
    let (second, third, rest) = two_fields_and_rest(after)?;
    Some((first, second, third, rest))
}

/// A field and the moment after it; none where anything else stands there.
pub(crate) fn field_and_moment(text: &str) -> Option<(&str, Moment)>
    ensures { Finds {X = List ℕ × ℕ}
        (λ parts. IsOfForm text.now (field parts.0 (time parts.1)))
        (option_map (λ parts. (parts.0.now, parts.1.0)) result) }
{
    let (first, digits) = first_field(text)?;
    let moment = moment_of(digits)?;
    Some((first, moment))
}

/// A moment and what stands after the space that ends it; none where anything else stands there.
pub(crate) fn moment_and_rest(text: &str) -> Option<(Moment, &str)>
    ensures { Finds {X = ℕ × List ℕ}
        (λ parts. IsOfForm text.now (instant parts.0 (rest_of_line parts.1)))
        (option_map (λ parts. (parts.0.0, parts.1.now)) result) }
{
    let (digits, rest) = first_field(text)?;
    let moment = moment_of(digits)?;
    Some((moment, rest))
}

/// A moment, and in the extended grammar maybe the word of a kind after a space; none where anything else stands there.
pub(crate) fn moment_and_kind(dialect: Dialect, text: &str) -> Option<(Moment, Option<SpanKind>)>
    ensures { Finds {X = ℕ × Option SpanKind}
        (λ parts. IsOfForm text.now (start_form parts.0 parts.1) × MayHave dialect (is_some parts.1))
        (option_map (λ parts. (parts.0.0, parts.1)) result) }
{
    let Some((moment, word)) = moment_and_rest(text) else {
        return Some((moment_of(text)?, None));
    };
    match dialect {
        Dialect::Plain => None,
        Dialect::Extended => Some((moment, Some(kind_of(word)?))),
    }
}

/// The kind whose word a text is; none where it is no such word.
#[tactic(auto, unfolding(crate::specs::Numbers::kind_in))]
fn kind_of(word: &str) -> Option<SpanKind>
    ensures { result ≡ kind_in word.now }
{
    match word {
        "internal" => Some(SpanKind::Internal),
        "server" => Some(SpanKind::Server),
        "client" => Some(SpanKind::Client),
        "producer" => Some(SpanKind::Producer),
        "consumer" => Some(SpanKind::Consumer),
        _ => None,
    }
}

/// What only the extended grammar has after an event's name: a moment, a key, and the rest as a value; none where
/// anything else stands there, and in the plain grammar.
pub(crate) fn moment_and_attribute(dialect: Dialect, text: &str) -> Option<(Moment, &str, &str)>
    ensures { Finds {X = ℕ × List ℕ × List ℕ}
        (λ parts. IsOfForm text.now (instant parts.0 (field parts.1 (rest_of_line parts.2))) × MayHave dialect true)
        (option_map (λ parts. (parts.0.0, parts.1.now, parts.2.now)) result) }
{
    match dialect {
        Dialect::Plain => None,
        Dialect::Extended => {
            let (moment, rest) = moment_and_rest(text)?;
            let (key, value) = first_field(rest)?;
            Some((moment, key, value))
        }
    }
}

/// The status that a text spells: `ok`, or `error`, a space and the description, maybe empty or with spaces in it.
pub(crate) fn read_status(alloc: Global, text: &str) -> Result<Option<Status>, AllocError>
    ensures found { IfOk result (StatusGives text.now) }
    ensures free { ¬ SpellsStatus text.now → IsOk result }
{
    if text == "ok" {
        return Ok(Some(Status::Ok));
    }
    let Some((word, description)) = first_field(text) else {
        return Ok(None);
    };
    if word != "error" {
        return Ok(None);
    }
    Ok(Some(Status::Error {
        description: String::from_str(alloc, description)?,
    }))
}

/// Whether a text is one field: not empty, and without a space.
pub(crate) fn is_field(text: &str) -> bool
    ensures { IsTrue result ↔ IsField text.now }
{
    !text.is_empty() && text.as_bytes().iter().all(|byte| *byte != b' ')
}

/// The first field of a text and what stands after the space that ends it; none where no field ends in a space.
pub fn first_field(text: &str) -> Option<(&str, &str)>
    ensures { MatchOption result
        ((front rest : List ℕ) → IsField front → text.now ≡ front ++ 32 ∷ rest → ⊥)
        (λ parts. IsField parts.0.now × (text.now ≡ parts.0.now ++ 32 ∷ parts.1.now)) }
{
    let (field, rest) = split_at_space(text)?;
    if field.is_empty() {
        return None;
    }
    Some((field, rest))
}

/// A text up to its first space, and what stands after that; none where there is no space. Inlined into the reading of a
/// line it would take more.
#[inline(never)]
fn split_at_space(text: &str) -> Option<(&str, &str)>
    ensures { MatchOption result
        (All (λ b. b ≢ 32) text.now)
        (λ parts. All (λ b. b ≢ 32) parts.0.now × (text.now ≡ parts.0.now ++ 32 ∷ parts.1.now)) }
{
    let end = first_space(text.as_bytes())?;
    Some((&text[..end], &text[end + 1..]))
}

/// Where the first space stands; none where there is no space.
fn first_space(text: &[u8]) -> Option<usize>
    ensures { MatchOption result
        (All (λ b. b ≢ 32) text.now)
        (λ end. (end < length text.now) × (slice_index text.now end ≡ 32) × All (λ b. b ≢ 32) (take end text.now)) }
{
    for (i, byte) in text.iter().enumerate() {
        if *byte == b' ' {
            return Some(i);
        }
    }
    None
}

/// The moment that digits write; none where it is out of range, or where anything but digits stands there.
pub(crate) fn moment_of(digits: &str) -> Option<Moment>
    ensures { option_map (λ moment. moment.0) result ≡ decimal_in digits.now }
{
    let nanoseconds = parse_decimal(digits)?;
    Some(Moment(nanoseconds))
}

/// The number of 64 bits that digits write; none where it is out of range, or where anything but digits stands there.
pub fn parse_decimal(digits: &str) -> Option<u64>
    ensures { result ≡ decimal_in digits.now }
{
    if digits.starts_with('+') {
        return None;
    }
    digits.parse::<u64>().ok()
}

/// The integer of 64 bits with a sign that digits write, maybe after a minus; none where it is out of range, or where
/// anything else stands there.
pub(crate) fn parse_integer(digits: &str) -> Option<i64>
    ensures { result ≡ integer_in digits.now }
{
    if digits.starts_with('+') {
        return None;
    }
    digits.parse::<i64>().ok()
}

/// The truth value that a text is; none where it is neither.
#[tactic(auto, unfolding(crate::specs::Numbers::truth_in))]
pub(crate) fn truth_of(text: &str) -> Option<bool>
    ensures { result ≡ truth_in text.now }
{
    match text {
        "true" => Some(true),
        "false" => Some(false),
        _ => None,
    }
}

/// The float nearest to the number that a text writes, which may be `inf` or `nan`; none where it writes none.
pub(crate) fn parse_float(text: &str) -> Option<f64>
    ensures { result ≡ parse_float binary64 text.now }
{
    text.parse::<f64>().ok()
}

/// The first line of a text, without what ends it, and the text after it; none where the text is empty.
pub fn first_line(text: &[u8]) -> Option<(&[u8], &[u8])>
    ensures { MatchOption result
        (lines_of text.now ≡ [])
        (λ parts. (lines_of text.now ≡ parts.0.now ∷ lines_of parts.1.now) × (length parts.1.now < length text.now)) }
{
    if text.is_empty() {
        return None;
    }
    match first_line_feed(text) {
        None => Some((text, &[])),
        Some(end) => Some((without_carriage_return(&text[..end]), &text[end + 1..])),
    }
}

/// A line without the one carriage return at its end, if it has one.
fn without_carriage_return(line: &[u8]) -> &[u8]
    ensures { result.now ≡ strip_carriage_return line.now }
{
    match line {
        [front @ .., b'\r'] => front,
        _ => line,
    }
}
