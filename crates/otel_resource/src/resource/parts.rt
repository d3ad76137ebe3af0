//! What a resource says, and how two such descriptions become one.

ghost use Rattle.std.specs.Prelude.{◌≡◌, ◌↔◌, map, IfOk, IsTrue, string_bytes};
ghost use Rattle.std.specs.Option.{option_map};
ghost use Rattle.std.specs.FinMap as fin;
ghost use Rattle.opentelemetry.specs.PlainValues.{plain_value};
ghost use Rattle.otel_resource.specs.Resource as meaning;
ghost use Rattle.otel_resource.specs.Resource.{by_key};

use super::Resource;
use super::attributes::{put_all, put_pairs, same_by_key};
use opentelemetry::{Key, KeyValue, Value};
use std::alloc::{AllocError, Global};
use std::collections::{BTreeMap, btree_map};
use std::marker::Model;

/// What a resource says, which its clones share.
#[derive(Debug, Drop)]
pub(super) struct ResourceParts {
    pub(super) attributes: BTreeMap<Key, Value>,
    // Empty: no schema is known.
    pub(super) schema_url: String,
}

impl Model for ResourceParts {
    ghost use Rattle.otel_resource.specs.Resource.{PlainResource, by_key};
    ghost use Rattle.otel_resource.specs.ResourceCode.{resource_code};
    ghost use Rattle.std.specs.Prelude.{string_bytes};

    ghost Value = { PlainResource };

    ghost coded = { resource_code };

    ghost view = { λ parts. record {
      attributes = by_key parts.attributes;
      schema_url = string_bytes parts.schema_url;
    } };
}

impl Clone for ResourceParts {
    ghost use Rattle.std.specs.Prelude.{◌≡◌};

    ghost is_clone = { λ parts copy. copy ≡ parts };

    fn clone(&self) -> Result<ResourceParts, AllocError> {
        Ok(ResourceParts {
            attributes: self.attributes.clone()?,
            schema_url: self.schema_url.clone()?,
        })
    }
}

impl ResourceParts {
    pub(super) fn of_attributes(alloc: Global, attributes: BTreeMap<Key, Value>) -> ResourceParts
        ensures { result ≡ meaning.of_attributes (by_key attributes) }
    {
        ResourceParts {
            attributes,
            schema_url: String::new(alloc),
        }
    }

    pub(super) fn says_same(&self, other: &ResourceParts) -> bool
        ensures { IsTrue result ↔ (self.now ≡ other.now) }
    {
        same_by_key(&self.attributes, &other.attributes) && self.schema_url == other.schema_url
    }

    pub(super) fn says_nothing(&self) -> bool
        ensures { IsTrue result ↔ (self.now ≡ meaning.empty_resource) }
    {
        self.schema_url.is_empty() && self.len() == 0
    }

    pub(super) fn len(&self) -> usize
        ensures { result ≡ fin.len self.now.attributes }
    {
        self.attributes.len()
    }

    pub(super) fn get(&self, key: &Key) -> Option<&Value>
        ensures { option_map (λ value. plain_value value.now) result ≡ fin.get self.now.attributes key.now }
    {
        self.attributes.get(key)
    }

    pub(super) fn iter(&self) -> btree_map::Iter<'_, Key, Value>
        ensures { map (λ e. (e.0, plain_value e.1)) result ≡ fin.entries self.now.attributes }
    {
        self.attributes.iter()
    }

    /// Merges the pairs over these.
    pub(super) fn with_pairs(self, pairs: Vec<KeyValue>) -> Result<ResourceParts, AllocError>
        ensures { IfOk result (λ parts. parts ≡ meaning.with_pairs self pairs.items) }
    {
        Ok(ResourceParts {
            attributes: put_pairs(self.attributes, pairs)?,
            schema_url: self.schema_url,
        })
    }

    /// Merges the attributes of a resource over these; its schema is lost.
    pub(super) fn with_attributes_of(
        self,
        alloc: Global,
        seen: Resource,
    ) -> Result<ResourceParts, AllocError>
        ensures { IfOk result (λ parts. parts ≡ meaning.merge self (meaning.of_attributes seen.attributes)) }
    {
        let seen = seen.into_parts(alloc)?;
        Ok(ResourceParts {
            attributes: put_all(self.attributes, seen.attributes)?,
            schema_url: self.schema_url,
        })
    }

    /// Merges the right parts over these.
    pub(super) fn merge(
        self,
        alloc: Global,
        right: ResourceParts,
    ) -> Result<ResourceParts, AllocError>
        ensures { IfOk result (λ parts. parts ≡ meaning.merge self right) }
    {
        Ok(ResourceParts {
            attributes: put_all(self.attributes, right.attributes)?,
            schema_url: merged_schema(alloc, self.schema_url, right.schema_url),
        })
    }
}

/// One empty schema gives the other, equal ones stay, and different ones give the empty one.
fn merged_schema(alloc: Global, left: String, right: String) -> String
    ensures { string_bytes result ≡ meaning.merged_schema (string_bytes left) (string_bytes right) }
{
    if left.is_empty() {
        right
    } else if right.is_empty() || left == right {
        left
    } else {
        String::new(alloc)
    }
}
