//! A baggage written as a header, in a text that takes its room at once.

ghost use Rattle.std.specs.Prelude.{◌≡◌, ◌-◌, ◌^◌, ◌≤◌, ◌∷◌, [], All, IfOk, OnOk, length, min, string_bytes};
ghost use Rattle.opentelemetry.specs.Baggage.{entry_of};
ghost use Rattle.opentelemetry.specs.Text.{TextGrows};
ghost use Rattle.otel_propagation.specs.BaggageHeader.{after_semicolon, escaped, header_of, member_of, HasTexts};

use crate::propagation::pieces::push_unless_first;
use opentelemetry::baggage::Baggage;
use percent_encoding::{AsciiSet, CONTROLS, ascii_set, utf8_percent_encode};
use std::alloc::{AllocError, Global};

/// What names and values have percent-encoded, beside all that is not ASCII: controls, spaces, double quotes, percent
/// signs, and what parts members.
pub const ESCAPED: AsciiSet = ascii_set!(
    CONTROLS
        .add(b' ')
        .add(b'"')
        .add(b'%')
        .add(b',')
        .add(b';')
        .add(b'=')
);

/// The header of a baggage.
pub fn header_of(alloc: Global, baggage: &Baggage) -> Result<String, AllocError>
    ensures header { IfOk result (λ header. string_bytes header ≡ header_of baggage.now) }
    ensures texts { OnOk result (All HasTexts baggage.now) }
{
    let mut header = String::with_capacity(alloc, header_len(baggage))?;
    'entries: for (name, (value, metadata)) in baggage.iter() {
        let is_first = header.is_empty();
        push_unless_first(&mut header, is_first, ",")?;
        push_member(&mut header, name, value, metadata.as_str())?;
    }
    Ok(header)
}

/// How long the header of a baggage is: as its members, and a comma between two.
fn header_len(baggage: &Baggage) -> usize
    ensures { result ≡ min (length (header_of baggage.now)) (2 ^ 64 - 1) }
{
    let mut len = baggage.len().saturating_sub(1);
    'entries: for (name, (value, metadata)) in baggage.iter() {
        len = len.saturating_add(member_len(name, value, metadata.as_str()));
    }
    len
}

/// Writes the member of an entry.
fn push_member(
    header: &mut String,
    name: &str,
    value: &str,
    metadata: &str,
) -> Result<(), AllocError>
    ensures text { OnOk result
        (TextGrows header.old (member_of (entry_of name.now value.now metadata.now)) header.new) }
    ensures texts { HasTexts (entry_of name.now value.now metadata.now) }
{
    push_escaped(header, name)?;
    header.push_str("=")?;
    push_escaped(header, value)?;
    push_metadata(header, metadata.trim())
}

/// Writes a name or a value.
fn push_escaped(header: &mut String, text: &str) -> Result<(), AllocError>
    ensures { OnOk result (TextGrows header.old (escaped text.now) header.new) }
{
    utf8_percent_encode(text.trim(), ESCAPED).append_to(header)
}

/// Writes metadata after a semicolon, unless it is empty.
fn push_metadata(header: &mut String, metadata: &str) -> Result<(), AllocError>
    ensures { OnOk result (TextGrows header.old (after_semicolon metadata.now) header.new) }
{
    if metadata.is_empty() {
        return Ok(());
    }
    header.push_str(";")?;
    header.push_str(metadata)
}

/// How long the member of an entry is.
fn member_len(name: &str, value: &str, metadata: &str) -> usize
    ensures { result ≡ min (length (member_of (entry_of name.now value.now metadata.now))) (2 ^ 64 - 1) }
{
    escaped_len(name)
        .saturating_add(1)
        .saturating_add(escaped_len(value))
        .saturating_add(metadata_len(metadata.trim()))
}

/// How long a name or a value is when it is written: each escape is two bytes longer than what it stands for.
fn escaped_len(text: &str) -> usize
    ensures { result ≡ min (length (escaped text.now)) (2 ^ 64 - 1) }
{
    let text = text.trim();
    let escapes = text
        .as_bytes()
        .iter()
        .filter(|byte| ESCAPED.should_percent_encode(**byte))
        .count();
    text.len().saturating_add(escapes.saturating_mul(2))
}

/// How long metadata is when it is written.
fn metadata_len(metadata: &str) -> usize
    ensures { result ≡ min (length (after_semicolon metadata.now)) (2 ^ 64 - 1) }
{
    if metadata.is_empty() {
        return 0;
    }
    metadata.len().saturating_add(1)
}
