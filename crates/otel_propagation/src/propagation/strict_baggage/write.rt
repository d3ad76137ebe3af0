//! A baggage written as a header of the grammar.

ghost use Rattle.std.specs.Prelude.{◌≡◌, ◌==◌, [], false, IfOk, IsOk, OnOk, length, string_bytes};
ghost use Rattle.opentelemetry.specs.Baggage.{entry_of};
ghost use Rattle.opentelemetry.specs.Text.{TextGrows};
ghost use Rattle.otel_propagation.specs.StrictGrammar.{is_token};
ghost use Rattle.otel_propagation.specs.StrictBaggage.{next_written, spelled_member, strict_header_of, written_entry};

use super::pairs::{is_token, push_properties};
use crate::propagation::pieces::push_unless_first;
use opentelemetry::baggage::Baggage;
use percent_encoding::{AsciiSet, CONTROLS, ascii_set, utf8_percent_encode};
use std::alloc::{AllocError, Global};

/// What a value has percent-encoded, beside all that is not ASCII: what is no baggage octet.
pub const NO_OCTETS: AsciiSet = ascii_set!(
    CONTROLS.add(b' ').add(b'"').add(b',').add(b';').add(b'\\')
);

/// The header of a baggage. Where nothing is left to write it is empty, and takes no memory.
pub fn header_of(alloc: Global, baggage: &Baggage) -> Result<String, AllocError>
    ensures header { IfOk result (λ header. string_bytes header ≡ strict_header_of baggage.now) }
    ensures free { strict_header_of baggage.now ≡ [] → IsOk result }
{
    let mut header = String::new(alloc);
    'entries: for (name, (value, metadata)) in baggage.iter() {
        push_entry(&mut header, name, value, metadata.as_str())?;
    }
    Ok(header)
}

/// Writes the member of an entry whose name is a token, after a comma unless it is the first.
fn push_entry(
    header: &mut String,
    name: &str,
    value: &str,
    metadata: &str,
) -> Result<(), AllocError>
    ensures text { OnOk result (TextGrows header.old
        (next_written (length (string_bytes header.old) == 0) (entry_of name.now value.now metadata.now)) header.new) }
    ensures free { is_token name.now ≡ false → IsOk result }
{
    if !is_token(name) {
        return Ok(());
    }
    let is_first = header.is_empty();
    push_unless_first(header, is_first, ",")?;
    push_member(header, name, value, metadata)
}

/// Writes the member of an entry.
fn push_member(
    header: &mut String,
    name: &str,
    value: &str,
    metadata: &str,
) -> Result<(), AllocError>
    ensures { OnOk result (TextGrows header.old
        (spelled_member (written_entry (entry_of name.now value.now metadata.now))) header.new) }
{
    header.push_str(name)?;
    header.push_str("=")?;
    utf8_percent_encode(value, NO_OCTETS).append_to(header)?;
    push_properties(header, metadata, false)
}
