//! Who produces telemetry: the attributes of a service, its process and its SDK, under an optional schema
//! (OpenTelemetry specification, "Resource SDK"). A resource never changes; a builder merges descriptions into one.

ghost use Rattle.std.specs.Prelude.{◌≡◌, ◌≢◌, ◌↔◌, [], IfOk, IfSome, IsOk, IsTrue};
ghost use Rattle.std.specs.Option.{option_map};
ghost use Rattle.std.specs.FinMap as fin;
ghost use Rattle.opentelemetry.specs.PlainValues.{plain_value};
ghost use Rattle.otel_resource.specs.Resource as meaning;
ghost use Rattle.otel_resource.specs.Resource.{NeedsNoMemory, by_key};

mod attributes;
mod builder;
mod detector;
mod env;
mod iter;
mod parts;
mod telemetry;

pub use builder::ResourceBuilder;
pub use detector::ResourceDetector;
pub use env::{EnvResourceDetector, ResourceStrings, SdkProvidedResourceDetector};
pub use iter::Iter;
use opentelemetry::{Key, Value};
use parts::ResourceParts;
use std::alloc::{AllocError, Global};
use std::collections::BTreeMap;
use std::marker::Model;
use std::sync::Arc;
pub use telemetry::TelemetryResourceDetector;

const SERVICE_NAME: &str = "service.name";

/// A description of who produces telemetry. Clones share one copy, so that a clone is a count.
#[derive(Debug, Drop)]
pub struct Resource {
    // None: it says nothing.
    parts: Option<Arc<ResourceParts>>,
}

impl Model for Resource {
    ghost use Rattle.otel_resource.specs.Resource.{PlainResource, shared_resource};
    ghost use Rattle.otel_resource.specs.ResourceCode.{resource_code};

    ghost Value = { PlainResource };

    ghost coded = { resource_code };

    ghost view = { λ resource. shared_resource resource.parts };
}

impl Resource {
    /// The resource that says nothing.
    pub(crate) fn empty() -> Resource
        ensures { result ≡ meaning.empty_resource }
    {
        Resource { parts: None }
    }

    /// The schema that the attributes follow, if one is known.
    pub fn schema_url(&self) -> Option<&str>
        ensures text { option_map (λ s. s.now) result ≡ meaning.non_empty self.now.schema_url }
        ensures known { IfSome result (λ s. s.now ≢ []) }
    {
        let parts: &ResourceParts = self.parts.as_ref()?;
        if parts.schema_url.is_empty() {
            None
        } else {
            Some(parts.schema_url.as_str())
        }
    }

    /// How many attributes there are.
    pub fn len(&self) -> usize
        ensures { result ≡ fin.len self.now.attributes }
    {
        match &self.parts {
            Some(shared) => shared.len(),
            None => 0,
        }
    }

    /// Whether there is no attribute.
    pub fn is_empty(&self) -> bool
        ensures { IsTrue result ↔ (self.now.attributes ≡ fin.empty) }
    {
        self.len() == 0
    }

    /// The attributes, each once, in the order of their keys.
    pub fn iter(&self) -> Iter<'_>
        ensures { result ≡ fin.entries self.now.attributes }
    {
        match &self.parts {
            Some(shared) => Iter {
                pairs: Some(shared.iter()),
            },
            None => Iter { pairs: None },
        }
    }

    /// The other resource over this one: where both have a key, the other's value counts. This one keeps what it says,
    /// so that where both say something it is copied.
    pub fn merge(&self, alloc: Global, other: Resource) -> Result<Resource, AllocError>
        ensures ok { IfOk result (λ merged. merged ≡ meaning.merge self.now other) }
        ensures free { self.now ≡ meaning.empty_resource → IsOk result }
    {
        if self.says_nothing() {
            return Ok(other);
        }
        if other.says_nothing() {
            return self.clone();
        }
        let left = self.clone()?.into_parts(alloc)?;
        let right = other.into_parts(alloc)?;
        Resource::of_parts(alloc, left.merge(alloc, right)?)
    }

    fn says_nothing(&self) -> bool
        ensures { IsTrue result ↔ (self.now ≡ meaning.empty_resource) }
    {
        match &self.parts {
            Some(shared) => shared.says_nothing(),
            None => true,
        }
    }

    /// A copy of the key's value. An absent one, a truth and a number need no memory.
    pub fn get(&self, key: &Key) -> Result<Option<Value>, AllocError>
        ensures value { IfOk result (λ found. option_map plain_value found ≡ fin.get self.now.attributes key.now) }
        ensures free { NeedsNoMemory (fin.get self.now.attributes key.now) → IsOk result }
    {
        self.get_ref(key).cloned()
    }

    /// The key's value.
    pub fn get_ref(&self, key: &Key) -> Option<&Value>
        ensures { option_map (λ value. plain_value value.now) result ≡ fin.get self.now.attributes key.now }
    {
        match &self.parts {
            Some(shared) => shared.get(key),
            None => None,
        }
    }

    /// One that says nothing needs no memory.
    fn of_parts(alloc: Global, parts: ResourceParts) -> Result<Resource, AllocError>
        ensures ok { IfOk result (λ resource. resource ≡ parts) }
        ensures free { parts ≡ meaning.empty_resource → IsOk result }
    {
        if parts.says_nothing() {
            return Ok(Resource::empty());
        }
        Ok(Resource {
            parts: Some(Arc::new(alloc, parts)?),
        })
    }

    /// A resource with these attributes and no schema.
    fn of_attributes(
        alloc: Global,
        attributes: BTreeMap<Key, Value>,
    ) -> Result<Resource, AllocError>
        ensures ok { IfOk result (λ resource. resource ≡ meaning.of_attributes (by_key attributes)) }
        ensures free { by_key attributes ≡ fin.empty → IsOk result }
    {
        Resource::of_parts(alloc, ResourceParts::of_attributes(alloc, attributes))
    }

    /// What it says, as a value of its own: moved where nobody shares it, and else copied.
    fn into_parts(self, alloc: Global) -> Result<ResourceParts, AllocError>
        ensures { IfOk result (λ parts. parts ≡ self) }
    {
        match self.parts {
            Some(shared) => Arc::unwrap_or_clone(shared),
            None => Ok(ResourceParts::of_attributes(alloc, BTreeMap::new(alloc))),
        }
    }
}

impl Clone for Resource {
    ghost use Rattle.std.specs.Prelude.{◌≡◌};
    ghost use Rattle.otel_resource.specs.Resource.{empty_resource};

    ghost is_clone = { λ resource copy. copy ≡ resource };

    ghost is_infallible = { λ resource. resource ≡ empty_resource };

    fn clone(&self) -> Result<Resource, AllocError> {
        match &self.parts {
            Some(shared) if !shared.says_nothing() => Ok(Resource {
                parts: Some(shared.clone()?),
            }),
            _ => Ok(Resource::empty()),
        }
    }
}

impl PartialEq for Resource {
    ghost use Rattle.otel_resource.specs.SameResource.{same_description, same_description_decides};
    ghost use Rattle.opentelemetry.specs.Same.{partial_equivalence_from_decides};

    ghost eq = { same_description };

    ghost laws = { partial_equivalence_from_decides same_description same_description_decides };

    fn eq(&self, other: &Resource) -> bool {
        match (&self.parts, &other.parts) {
            (Some(shared), Some(other)) => shared.says_same(other),
            (Some(shared), None) => shared.says_nothing(),
            (None, Some(other)) => other.says_nothing(),
            (None, None) => true,
        }
    }
}

impl Eq for Resource {
    ghost use Rattle.otel_resource.specs.SameResource.{same_description, same_description_decides};
    ghost use Rattle.opentelemetry.specs.Same.{equivalence_from_decides};

    ghost laws = { equivalence_from_decides same_description same_description_decides };
}
