//! The pairs of a baggage header, `key=value` or a key alone, which members and properties begin with: how they are
//! read, and how properties are written. Reading a pair takes no memory.

ghost use Rattle.std.specs.Prelude.{◌≡◌, ◌&&◌, is_none, is_some, IfOk, OnOk};
ghost use Rattle.std.specs.List.{filter_map, list_all};
ghost use Rattle.std.specs.Option.{option_map};
ghost use Rattle.opentelemetry.specs.Members.{pieces_at, semicolon};
ghost use Rattle.opentelemetry.specs.Text.{TextGrows};
ghost use Rattle.otel_propagation.specs.BaggagePieces.{next_property};
ghost use Rattle.otel_propagation.specs.StrictGrammar.{is_octet, is_token, is_token_byte, are_octets};
ghost use Rattle.otel_propagation.specs.StrictBaggage.{are_properties, checked_key, checked_pair, plain_pair};
ghost use Rattle.otel_propagation.specs.StrictBaggage.{properties_onto, spelled_pair};
ghost use Rattle.otel_propagation.specs.StrictBaggage.{strict_pair, strict_property};

use crate::propagation::pieces::push_unless_first;
use opentelemetry::propagation::blanks::trim_blanks;
use std::alloc::AllocError;

#[tactic(auto, unfolding(crate::specs::StrictGrammar::is_token_byte))]
fn is_token_byte(byte: u8) -> bool
    ensures { result ≡ is_token_byte byte }
{
    (b'0' <= byte && byte <= b'9')
        || (b'A' <= byte && byte <= b'Z')
        || (b'^' <= byte && byte <= b'z')
        || byte == b'!'
        || (b'#' <= byte && byte <= b'\'')
        || (b'*' <= byte && byte <= b'+')
        || (b'-' <= byte && byte <= b'.')
        || byte == b'|'
        || byte == b'~'
}

#[tactic(auto, unfolding(crate::specs::StrictGrammar::is_octet))]
fn is_octet(byte: u8) -> bool
    ensures { result ≡ is_octet byte }
{
    byte == b'!'
        || (b'#' <= byte && byte <= b'+')
        || (b'-' <= byte && byte <= b':')
        || (b'<' <= byte && byte <= b'[')
        || (b']' <= byte && byte <= b'~')
}

fn are_token_bytes(bytes: &[u8]) -> bool
    ensures { result ≡ list_all is_token_byte bytes.now }
{
    bytes.iter().all(|byte| is_token_byte(*byte))
}

/// Whether a text is a token.
pub fn is_token(text: &str) -> bool
    ensures { result ≡ is_token text.now }
{
    !text.is_empty() && are_token_bytes(text.as_bytes())
}

/// Whether a text is of baggage octets.
fn are_octets(text: &str) -> bool
    ensures { result ≡ are_octets text.now }
{
    text.as_bytes().iter().all(|byte| is_octet(*byte))
}

/// A key alone, where it is a token.
fn checked_key(key: &str) -> Option<(&str, Option<&str>)>
    ensures { option_map plain_pair result ≡ checked_key key.now }
{
    if is_token(key) {
        Some((key, None))
    } else {
        None
    }
}

/// A key with a value, where the one is a token and the other of octets.
fn checked_pair<'a>(key: &'a str, value: &'a str) -> Option<(&'a str, Option<&'a str>)>
    ensures { option_map plain_pair result ≡ checked_pair key.now value.now }
{
    if is_token(key) && are_octets(value) {
        Some((key, Some(value)))
    } else {
        None
    }
}

/// The pair that a text says, without the optional white space; none where it breaks the grammar.
pub fn read_pair(text: &str) -> Option<(&str, Option<&str>)>
    ensures { option_map plain_pair result ≡ strict_pair text.now }
{
    match text.split_once('=') {
        Some((key, value)) => checked_pair(trim_blanks(key), trim_blanks(value)),
        None => checked_key(trim_blanks(text)),
    }
}

fn is_property(text: &str) -> bool
    ensures { result ≡ is_some (strict_pair text.now) }
{
    read_pair(text).is_some()
}

/// Whether what stands between semicolons are properties.
pub fn are_properties(properties: &str) -> bool
    ensures { result ≡ are_properties (pieces_at semicolon properties.now) }
{
    properties.split(';').all(|property| is_property(property))
}

/// Writes those of the properties that are of the grammar, each after a semicolon; not so the first of all.
pub fn push_properties(
    text: &mut String,
    properties: &str,
    is_first: bool,
) -> Result<(), AllocError>
    ensures { OnOk result (TextGrows text.old
        (properties_onto is_first (filter_map strict_property (pieces_at semicolon properties.now))) text.new) }
{
    let mut is_first = is_first;
    'properties: for property in properties.split(';') {
        is_first = push_property(text, property, is_first)?;
    }
    Ok(())
}

/// Writes a property that is of the grammar. Answers whether the next one is the first still.
fn push_property(text: &mut String, property: &str, is_first: bool) -> Result<bool, AllocError>
    ensures text { OnOk result (TextGrows text.old (next_property is_first (strict_property property.now)) text.new) }
    ensures first { IfOk result (λ still. still ≡ (is_first && is_none (strict_property property.now))) }
{
    let Some((key, value)) = read_pair(property) else {
        return Ok(is_first);
    };
    push_unless_first(text, is_first, ";")?;
    push_pair(text, key, value)?;
    Ok(false)
}

/// Writes a key, and a value after an equals sign if there is one.
fn push_pair(text: &mut String, key: &str, value: Option<&str>) -> Result<(), AllocError>
    ensures { OnOk result (TextGrows text.old (spelled_pair (plain_pair (key.entry, value.entry))) text.new) }
{
    text.push_str(key)?;
    let Some(value) = value else {
        return Ok(());
    };
    text.push_str("=")?;
    text.push_str(value)
}
