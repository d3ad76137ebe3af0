//! The text that the fields of a name say.

ghost use Rattle.std.specs.Prelude.{◌≡◌, option_copied, option_map, string_bytes, IfOk, OnOk, ◌<◌, length};
ghost use Rattle.http_header.specs.FieldValue.{is_visible_text};
ghost use Rattle.http_header.specs.HeaderMap.{get_all};
ghost use Rattle.http_header.specs.Token.{is_visible_or_blank};
ghost use Rattle.otel_http.specs.Fields.{is_field_content, is_no_blank, joined_text, repeated_text};

use http_header::{HeaderMap, HeaderName};
use std::alloc::{AllocError, Global};

/// The header of which one field at most counts.
pub(crate) const TRACEPARENT: &str = "traceparent";

fn is_visible_or_blank(byte: u8) -> bool
    ensures { result ≡ is_visible_or_blank byte }
{
    byte == b'\t' || (byte >= 32 && byte < 127)
}

fn is_no_blank(byte: Option<&u8>) -> bool
    ensures { result ≡ is_no_blank (option_copied byte.entry) }
{
    match byte {
        Some(byte) => !(*byte == b' ' || *byte == b'\t'),
        None => true,
    }
}

/// Whether bytes are visible ASCII and blanks.
fn is_visible_text(bytes: &[u8]) -> bool
    ensures { result ≡ is_visible_text bytes.now }
{
    bytes.iter().all(|byte| is_visible_or_blank(*byte))
}

/// Whether a text may be a field value as it is: visible ASCII and blanks, none of which stands at an end.
pub(crate) fn is_field_content(text: &str) -> bool
    ensures { result ≡ is_field_content text.now }
{
    let bytes = text.as_bytes();
    if is_no_blank(bytes.first()) && is_no_blank(bytes.last()) {
        is_visible_text(bytes)
    } else {
        false
    }
}

/// What the fields of a name say that has several of them.
pub(crate) fn repeated_text(
    alloc: Global,
    headers: &HeaderMap,
    name: &HeaderName,
) -> Result<Option<String>, AllocError>
    ensures { IfOk result (λ text. option_map (λ t. string_bytes t) text
        ≡ repeated_text name.now (get_all headers.now name.now)) }
{
    if name.eq_str(TRACEPARENT) {
        return Ok(None);
    }
    joined_text(alloc, headers, name)
}

/// The values of a name, joined by commas.
fn joined_text(
    alloc: Global,
    headers: &HeaderMap,
    name: &HeaderName,
) -> Result<Option<String>, AllocError>
    ensures { IfOk result (λ text. option_map (λ t. string_bytes t) text
        ≡ joined_text (get_all headers.now name.now)) }
{
    let mut text = String::new(alloc);
    let mut is_first = true;
    for value in headers.get_all(name) {
        let Ok(value) = value.to_str() else {
            return Ok(None);
        };
        if !is_first {
            text.push_str(",")?;
        }
        text.push_str(value)?;
        is_first = false;
    }
    Ok(Some(text))
}
