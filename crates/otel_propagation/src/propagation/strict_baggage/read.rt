//! The entry of a member by the grammar: its key, its value and its properties.

ghost use Rattle.std.specs.Prelude.{◌≡◌, IfOk, string_bytes};
ghost use Rattle.std.specs.Option.{option_map};
ghost use Rattle.otel_propagation.specs.BaggagePieces.{properties_after};
ghost use Rattle.otel_propagation.specs.StrictBaggage.{checked_metadata};

use super::StrictBaggagePropagator;
use super::pairs::{are_properties, push_properties, read_pair};
use crate::propagation::members::{ReadsMembers, split_properties};
use opentelemetry::baggage::{BaggageMetadata, KeyValueMetadata};
use std::alloc::{AllocError, Global};

impl ReadsMembers for StrictBaggagePropagator {
    ghost use Rattle.otel_propagation.specs.StrictBaggage.{strict_entry_of_member};

    ghost says = { strict_entry_of_member };

    fn read_member(
        &self,
        alloc: Global,
        member: &str,
    ) -> Result<Option<KeyValueMetadata>, AllocError> {
        let (pair, properties) = split_properties(member);
        let Some((key, value)) = read_pair(pair) else {
            return Ok(None);
        };
        let Some(value) = value else {
            return Ok(None);
        };
        let Some(metadata) = read_properties(alloc, properties)? else {
            return Ok(None);
        };
        let key = String::from_str(alloc, key)?;
        let value = String::from_str(alloc, value)?;
        Ok(Some(KeyValueMetadata::new(key, value, BaggageMetadata::new(metadata))))
    }
}

/// The metadata of a member's properties; none where one breaks the grammar.
fn read_properties(alloc: Global, properties: Option<&str>) -> Result<Option<String>, AllocError>
    ensures { IfOk result (λ metadata. option_map string_bytes metadata
        ≡ checked_metadata (properties_after properties.entry)) }
{
    let mut metadata = String::new(alloc);
    let Some(properties) = properties else {
        return Ok(Some(metadata));
    };
    if !are_properties(properties) {
        return Ok(None);
    }
    push_properties(&mut metadata, properties, true)?;
    Ok(Some(metadata))
}
