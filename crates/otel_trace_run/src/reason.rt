//! Why a line reads as no command of the extended grammar, for whoever wrote it. The modes `trace` and `steps`, whose
//! texts are fixed, do not say it.

ghost use Rattle.std.specs.Prelude.{◌≡◌, ◌⊎◌, ◌<◌, IfNone, IfSome, None, length};
ghost use Rattle.std.specs.Str.Lines.{lines};
ghost use Rattle.otel_trace_lines.specs.Numbers.{decimal_in};
ghost use Rattle.otel_trace_run.specs.Reasons.{Explains, ExplainsAfter, ExplainsFields, ExplainsMoment, ExplainsRest};
ghost use Rattle.otel_trace_run.specs.Reasons.{ExplainsWord, IsLineAt, IsReasonAt, reason_text};
ghost use Rattle.otel_trace_run.specs.declared.reason.Reason.TheVariants as reasons;

use otel_trace_lines::fields::{first_field, first_line, parse_decimal};

/// Why a line reads as no command.
#[derive(Clone, Copy, Debug, PartialEq, Eq)]
pub enum Reason {
    NotUtf8,
    /// Its first word is none that a command with fields has.
    NoCommand,
    /// It begins with the word of a command, and what that wants does not stand after it.
    Start,
    Child,
    Remote,
    Attr,
    Event,
    Status,
    Inject,
    End,
    Run,
    Int,
    Bool,
    Float,
    Link,
    Exception,
    Forget,
    /// Its last field is to be a number.
    Number,
    FieldTooMany,
    SpaceTooMany,
}

/// The text of a reason.
pub(crate) fn text_of(reason: Reason) -> &'static str
    ensures { result.now ≡ reason_text reason }
{
    match reason {
        Reason::NotUtf8 => "its bytes are not UTF-8",
        Reason::NoCommand => "no command has this word",
        Reason::Start =>
            "start wants a span, a name, a moment, and maybe internal, server, client, producer or consumer",
        Reason::Child =>
            "child wants a span, a parent, a name, a moment, and maybe internal, server, client, producer or consumer",
        Reason::Remote =>
            "remote wants a span, a traceparent, a name, a moment, and maybe internal, server, client, \
            producer or consumer",
        Reason::Attr => "attr wants a span, a key and a value",
        Reason::Event => "event wants a span, a name, a moment, and maybe a key and a value",
        Reason::Status => "status wants a span, and ok, or error and a text",
        Reason::Inject => "inject wants a span",
        Reason::End => "end wants a span and a moment",
        Reason::Run => "run wants a moment",
        Reason::Int => "int wants a span, a key and an integer of 64 bits",
        Reason::Bool => "bool wants a span, a key, and true or false",
        Reason::Float =>
            "float wants a span, a key and a number, maybe with a point and an exponent",
        Reason::Link => "link wants a span, and the span that it points to",
        Reason::Exception => "exception wants a span, a type, a moment and a text",
        Reason::Forget => "forget wants a span",
        Reason::Number => "a moment is digits alone, at most 18446744073709551615",
        Reason::FieldTooMany => "a field too many",
        Reason::SpaceTooMany => "a space too many",
    }
}

/// Why a line reads as no command.
pub(crate) fn reason_of(line: &[u8]) -> Reason
    ensures { Explains line.now result }
{
    let Ok(text) = str::from_utf8(line) else {
        return Reason::NotUtf8;
    };
    match first_field(text) {
        Some((word, fields)) => reason_after(word, fields),
        None if text.starts_with(' ') => Reason::SpaceTooMany,
        None => reason_of_word(text),
    }
}

/// Why the line of this number reads as no command, from 1 and with empty lines counted; none where there is no such
/// line.
pub(crate) fn reason_at(text: &[u8], number: u64) -> Option<Reason>
    ensures some { IfSome result (IsReasonAt text.now number) }
    ensures none { IfNone result ((number ≡ 0) ⊎ (length (lines text.now) < number)) }
{
    let line = line_at(text, number)?;
    Some(reason_of(line))
}

/// The line of this number, from 1; none where there is no such line.
fn line_at(text: &[u8], number: u64) -> Option<&[u8]>
    ensures some { IfSome result (λ line. IsLineAt text.now number line.now) }
    ensures none { IfNone result ((number ≡ 0) ⊎ (length (lines text.now) < number)) }
{
    let mut rest = text;
    let mut left = number;
    while let Some((line, after)) = first_line(rest) {
        if left == 1 {
            return Some(line);
        }
        left = left.checked_sub(1)?;
        rest = after;
    }
    None
}

/// Why what begins with a word reads as no command, as far as the word says it.
fn reason_of_word(word: &str) -> Reason
    ensures { ExplainsWord word.now result }
{
    match word {
        "start" => Reason::Start,
        "child" => Reason::Child,
        "remote" => Reason::Remote,
        "attr" => Reason::Attr,
        "event" => Reason::Event,
        "status" => Reason::Status,
        "inject" => Reason::Inject,
        "end" => Reason::End,
        "run" => Reason::Run,
        "int" => Reason::Int,
        "bool" => Reason::Bool,
        "float" => Reason::Float,
        "link" => Reason::Link,
        "exception" => Reason::Exception,
        "forget" => Reason::Forget,
        "flush" | "shutdown" => Reason::FieldTooMany,
        _ => Reason::NoCommand,
    }
}

/// Why a word and the fields after its space read as no command.
fn reason_after(word: &str, fields: &str) -> Reason
    ensures { ExplainsAfter word.now fields.now result }
{
    let wants = reason_of_word(word);
    match wants {
        Reason::Run => reason_before_moment(fields, 0, wants),
        Reason::End => reason_before_moment(fields, 1, wants),
        Reason::Start | Reason::Event => reason_before_moment_and_more(fields, 2, wants),
        Reason::Child | Reason::Remote => reason_before_moment_and_more(fields, 3, wants),
        Reason::Inject | Reason::Forget | Reason::FieldTooMany => reason_of_last(fields, wants),
        Reason::Status | Reason::Link => reason_before_text(fields, 1, wants),
        Reason::Attr | Reason::Int | Reason::Bool | Reason::Float => {
            reason_before_text(fields, 2, wants)
        }
        Reason::Exception => reason_before_text(fields, 3, wants),
        _ => Reason::NoCommand,
    }
}

/// What is wrong where so many fields are wanted, and a moment after them.
fn reason_before_moment(fields: &str, count: usize, wants: Reason) -> Reason
    ensures { ExplainsMoment count fields.now wants result }
{
    let mut rest = fields;
    for passed in 0..count {
        match first_field(rest) {
            Some((_, after)) => rest = after,
            None => return reason_of_gap(rest, wants),
        }
    }
    reason_of_moment(rest, wants)
}

/// What is wrong where so many fields are wanted, a moment after them, and maybe more.
fn reason_before_moment_and_more(fields: &str, count: usize, wants: Reason) -> Reason
    ensures { ExplainsMoment count fields.now wants result }
{
    match reason_before_moment(fields, count, wants) {
        Reason::FieldTooMany => wants,
        reason => reason,
    }
}

/// What is wrong where so many fields are wanted, and a text after them.
fn reason_before_text(fields: &str, count: usize, wants: Reason) -> Reason
    ensures { ExplainsFields fields.now wants result }
{
    let mut rest = fields;
    for _ in 0..count {
        match first_field(rest) {
            Some((_, after)) => rest = after,
            None => return reason_of_gap(rest, wants),
        }
    }
    wants
}

/// What is wrong where a field is wanted and none ends in a space.
fn reason_of_gap(rest: &str, wants: Reason) -> Reason
    ensures { (result ≡ wants) ⊎ ExplainsRest rest.now result }
{
    if rest.starts_with(' ') {
        return Reason::SpaceTooMany;
    }
    wants
}

/// What is wrong where a moment is wanted.
fn reason_of_moment(rest: &str, wants: Reason) -> Reason
    ensures { (result ≡ wants) ⊎ (ExplainsRest rest.now result
        ⊎ ((result ≡ reasons.Number) × (decimal_in rest.now ≡ None))) }
{
    if rest.is_empty() || parse_decimal(rest).is_some() {
        return wants;
    }
    reason_of_last(rest, Reason::Number)
}

/// What is wrong where a last field is wanted.
fn reason_of_last(rest: &str, wants: Reason) -> Reason
    ensures { (result ≡ wants) ⊎ ExplainsRest rest.now result }
{
    match first_field(rest) {
        Some((_, after)) if after.is_empty() || after.starts_with(' ') => Reason::SpaceTooMany,
        Some(_) => Reason::FieldTooMany,
        None => reason_of_gap(rest, wants),
    }
}
