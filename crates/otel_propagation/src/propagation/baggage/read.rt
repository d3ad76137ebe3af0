//! The entry of a member: its name, its value and its properties, percent-decoded.

ghost use Rattle.std.specs.Prelude.{◌≡◌, ◌∷◌, [], List, ℕ, MatchOption};
ghost use Rattle.std.specs.Prelude.{IfOk, IsOk, OnOk, option_map, string_bytes, is_none, ◌&&◌};
ghost use Rattle.std.specs.Cow.{cow_str_bytes};
ghost use Rattle.std.specs.Str.{trim};
ghost use Rattle.opentelemetry.specs.Members.{HasNo, equals_sign, pieces_at};
ghost use Rattle.otel_propagation.specs.BaggageHeader.{metadata_of, paired_entry, said_by};
ghost use Rattle.otel_propagation.specs.BaggagePieces.{entry_with, next_property, properties_after};
ghost use Rattle.opentelemetry.specs.Text.{TextGrows};

use super::BaggagePropagator;
use crate::propagation::members::{ReadsMembers, split_properties};
use crate::propagation::pieces::push_unless_first;
use opentelemetry::baggage::{BaggageMetadata, KeyValueMetadata};
use percent_encoding::{DecodeError, percent_decode_str};
use std::alloc::{AllocError, Global};
use std::borrow::CowStr;

impl ReadsMembers for BaggagePropagator {
    ghost use Rattle.otel_propagation.specs.BaggageHeader.{entry_of_member};

    ghost says = { entry_of_member };

    fn read_member(
        &self,
        alloc: Global,
        member: &str,
    ) -> Result<Option<KeyValueMetadata>, AllocError> {
        let (pair, properties) = split_properties(member);
        let Some((name, value)) = read_pair(alloc, pair)? else {
            return Ok(None);
        };
        let metadata = BaggageMetadata::new(read_metadata(alloc, properties)?);
        Ok(Some(KeyValueMetadata::new(name, value, metadata)))
    }
}

/// The name and the value of a pair; none where there is no equals sign, one is not UTF-8, or the name is empty.
fn read_pair(alloc: Global, pair: &str) -> Result<Option<(String, String)>, AllocError>
    ensures read { IfOk result (λ read. (metadata : List ℕ) → option_map (λ both. entry_with metadata both) read
        ≡ paired_entry (pieces_at equals_sign pair.now) metadata) }
    ensures free { HasNo equals_sign pair.now → IsOk result }
{
    let Some((name, value)) = split_pair(pair) else {
        return Ok(None);
    };
    let Some(name) = read_text(alloc, name)? else {
        return Ok(None);
    };
    if name.is_empty() {
        return Ok(None);
    }
    let Some(value) = read_text(alloc, value)? else {
        return Ok(None);
    };
    Ok(Some((name, value)))
}

/// What stands before the first equals sign of a pair, and what stands after it up to the next one.
fn split_pair(pair: &str) -> Option<(&str, &str)>
    ensures { MatchOption result
        (pieces_at equals_sign pair.now ≡ pair.now ∷ [])
        (λ both. (more : List (List ℕ))
        × (pieces_at equals_sign pair.now ≡ both.0.now ∷ both.1.now ∷ more)) }
{
    let (name, after) = pair.split_once('=')?;
    match after.split_once('=') {
        Some((value, _)) => Some((name, value)),
        None => Some((name, after)),
    }
}

/// The metadata of a member's properties. Its room is taken at once, and none where there are no properties.
fn read_metadata(alloc: Global, properties: Option<&str>) -> Result<String, AllocError>
    ensures { IfOk result (λ metadata. string_bytes metadata ≡ metadata_of (properties_after properties.entry)) }
{
    let Some(properties) = properties else {
        return Ok(String::new(alloc));
    };
    let mut metadata = String::with_capacity(alloc, properties.len())?;
    let mut is_first = true;
    'properties: for property in properties.split(';') {
        is_first = push_property(&mut metadata, alloc, property, is_first)?;
    }
    Ok(metadata)
}

/// Puts what a property says after the others, unless it is not UTF-8. Answers whether the next one is the first
/// still.
fn push_property(
    metadata: &mut String,
    alloc: Global,
    property: &str,
    is_first: bool,
) -> Result<bool, AllocError>
    ensures text { OnOk result (TextGrows metadata.old (next_property is_first (said_by property.now)) metadata.new) }
    ensures first { IfOk result (λ still. still ≡ (is_first && is_none (said_by property.now))) }
{
    let Some(said) = decoded(alloc, property)? else {
        return Ok(is_first);
    };
    push_unless_first(metadata, is_first, ";")?;
    metadata.push_str(said.as_str().trim())?;
    Ok(false)
}

/// What a name or a value says; none where it is not UTF-8.
fn read_text(alloc: Global, text: &str) -> Result<Option<String>, AllocError>
    ensures { IfOk result (λ said. option_map string_bytes said ≡ said_by text.now) }
{
    match decoded(alloc, text)? {
        Some(said) => Ok(Some(trimmed(alloc, said)?)),
        None => Ok(None),
    }
}

/// A text percent-decoded, which takes memory where it has escapes alone; none where it is not UTF-8 then.
fn decoded(alloc: Global, text: &str) -> Result<Option<CowStr<'_, Global>>, AllocError>
    ensures { IfOk result (λ said. option_map (λ s. trim (cow_str_bytes s)) said ≡ said_by text.now) }
{
    match percent_decode_str(text).decode_utf8(alloc) {
        Ok(said) => Ok(Some(said)),
        Err(DecodeError::Utf8(_)) => Ok(None),
        Err(DecodeError::OutOfMemory) => Err(AllocError),
    }
}

/// A text without the white space around it. One that is owned and has none around it is moved.
fn trimmed(alloc: Global, text: CowStr<'_, Global>) -> Result<String, AllocError>
    ensures { IfOk result (λ rest. string_bytes rest ≡ trim (cow_str_bytes text.entry)) }
{
    match text {
        CowStr::Borrowed(text) => String::from_str(alloc, text.trim()),
        CowStr::Owned(text) => {
            if text.trim().len() == text.len() {
                return Ok(text);
            }
            String::from_str(alloc, text.trim())
        }
    }
}
