//! A resource in the making. Where two descriptions have a key, the one merged last has the word.

ghost use Rattle.std.specs.Prelude.{◌≡◌, All, List, [], ◌∷◌, IfOk, IsOk, string_bytes};
ghost use Rattle.std.specs.List.{AllZip};
ghost use Rattle.std.specs.FinMap as fin;
ghost use Rattle.opentelemetry.specs.PlainValues.{plain_value};
ghost use Rattle.otel_resource.specs.Resource as meaning;
ghost use Rattle.otel_resource.specs.Resource.{PlainResource};
ghost use Rattle.otel_resource.specs.DetectedResource.{IsDetected, SeesNothing};

use super::attributes::{put, put_pairs};
use super::env::detected_attributes;
use super::parts::ResourceParts;
use super::{Resource, ResourceDetector, ResourceStrings, SERVICE_NAME};
use opentelemetry::{Key, KeyValue, Value};
use std::alloc::{AllocError, Global};
use std::collections::BTreeMap;
use std::marker::Model;

/// A resource in the making: descriptions are merged into it, one after another.
#[derive(Debug, Drop)]
pub struct ResourceBuilder {
    resource: Resource,
    alloc: Global,
}

impl Model for ResourceBuilder {
    ghost use Rattle.otel_resource.specs.Resource.{PlainResource};
    ghost use Rattle.otel_resource.specs.ResourceCode.{resource_code};

    ghost Value = { PlainResource };

    ghost coded = { resource_code };

    ghost view = { λ builder. builder.resource };
}

impl Resource {
    /// Begins with what the SDK's own detectors find in the strings: the name of the service, this SDK, and the
    /// attributes of the attributes string, later ones winning.
    pub fn builder(alloc: Global, strings: &ResourceStrings) -> Result<ResourceBuilder, AllocError>
        ensures { IfOk result (λ built. IsDetected strings.now built) }
    {
        let attributes = detected_attributes(alloc, strings)?;
        ResourceBuilder::of_parts(alloc, ResourceParts::of_attributes(alloc, attributes))
    }

    /// Begins with a resource that says nothing.
    pub fn builder_empty(alloc: Global) -> ResourceBuilder
        ensures { result ≡ meaning.empty_resource }
    {
        ResourceBuilder {
            resource: Resource::empty(),
            alloc,
        }
    }
}

impl ResourceBuilder {
    /// Merges attributes over the builder's. Of a key that stands twice among them the last value counts.
    pub fn with_attributes(self, attributes: Vec<KeyValue>) -> Result<ResourceBuilder, AllocError>
        ensures ok { IfOk result (λ built. built ≡ meaning.with_pairs self attributes.items) }
        ensures free { attributes.items ≡ [] → IsOk result }
    {
        if attributes.is_empty() {
            return Ok(self);
        }
        let ResourceBuilder { resource, alloc } = self;
        let parts = resource.into_parts(alloc)?.with_pairs(attributes)?;
        ResourceBuilder::of_parts(alloc, parts)
    }

    /// Merges one attribute over the builder's.
    pub fn with_attribute(self, attribute: KeyValue) -> Result<ResourceBuilder, AllocError>
        ensures { IfOk result (λ built. built ≡ meaning.with_pairs self (attribute ∷ [])) }
    {
        let ResourceBuilder { resource, alloc } = self;
        let KeyValue { key, value } = attribute;
        let mut parts = resource.into_parts(alloc)?;
        put(&mut parts.attributes, key, value)?;
        ResourceBuilder::of_parts(alloc, parts)
    }

    /// Merges the attribute `service.name` over the builder's.
    pub fn with_service_name(self, name: Value) -> Result<ResourceBuilder, AllocError>
        ensures { IfOk result (λ built. built ≡ meaning.merge self (meaning.service_named (plain_value name))) }
    {
        self.with_attribute(KeyValue::new(Key::from_static_str(SERVICE_NAME), name))
    }

    /// Merges the builder over these attributes and this schema. An empty schema text is none.
    pub fn with_schema_url(
        self,
        attributes: Vec<KeyValue>,
        schema_url: String,
    ) -> Result<ResourceBuilder, AllocError>
        ensures ok { IfOk result (λ built.
            built ≡ meaning.merge (meaning.of_pairs attributes.items (string_bytes schema_url)) self) }
        ensures free { attributes.items ≡ [] → string_bytes schema_url ≡ [] → IsOk result }
    {
        if attributes.is_empty() && schema_url.is_empty() {
            return Ok(self);
        }
        let ResourceBuilder { resource, alloc } = self;
        let given = ResourceParts {
            attributes: put_pairs(BTreeMap::new(alloc), attributes)?,
            schema_url,
        };
        let parts = given.merge(alloc, resource.into_parts(alloc)?)?;
        ResourceBuilder::of_parts(alloc, parts)
    }

    /// Merges the attributes of the detected resource over the builder's. Its schema is lost. `AllocError` where the
    /// detector or the merge finds no memory; the merge of a resource without attributes needs none.
    pub fn with_detector(
        self,
        detector: Box<dyn ResourceDetector>,
    ) -> Result<ResourceBuilder, AllocError>
        ensures ok { IfOk result (λ built. (seen : PlainResource)
            × ⟦<Box<dyn ResourceDetector> as ResourceDetector>⟧.detects detector seen
            × (built ≡ meaning.merge self (meaning.of_attributes seen.attributes))) }
        ensures free { SeesNothing ⟦<Box<dyn ResourceDetector> as ResourceDetector>⟧ detector → IsOk result }
    {
        let seen = detector.detect()?;
        self.with_seen(seen)
    }

    /// Merges the attributes of the detected resources over the builder's, later ones winning. Their schemas are
    /// lost. `AllocError` as for each detector by itself.
    pub fn with_detectors(
        self,
        detectors: &[Box<dyn ResourceDetector>],
    ) -> Result<ResourceBuilder, AllocError>
        ensures ok { IfOk result (λ built. (seen : List PlainResource)
            × AllZip ⟦<Box<dyn ResourceDetector> as ResourceDetector>⟧.detects detectors.now seen
            × (built ≡ meaning.merge self (meaning.of_attributes (meaning.all_attributes seen)))) }
        ensures free { All (SeesNothing ⟦<Box<dyn ResourceDetector> as ResourceDetector>⟧) detectors.now
            → IsOk result }
    {
        with_detected(self, detectors)
    }

    /// The resource.
    pub fn build(self) -> Resource
        ensures { result ≡ self }
    {
        self.resource
    }

    /// Merges the attributes of a resource over the builder's.
    fn with_seen(self, seen: Resource) -> Result<ResourceBuilder, AllocError>
        ensures ok { IfOk result (λ built. built ≡ meaning.merge self (meaning.of_attributes seen.attributes)) }
        ensures free { seen.attributes ≡ fin.empty → IsOk result }
    {
        if seen.is_empty() {
            return Ok(self);
        }
        let ResourceBuilder { resource, alloc } = self;
        let parts = resource.into_parts(alloc)?.with_attributes_of(alloc, seen)?;
        ResourceBuilder::of_parts(alloc, parts)
    }

    fn of_parts(alloc: Global, parts: ResourceParts) -> Result<ResourceBuilder, AllocError>
        ensures { IfOk result (λ built. built ≡ parts) }
    {
        let resource = Resource::of_parts(alloc, parts)?;
        Ok(ResourceBuilder { resource, alloc })
    }
}

fn with_detected<D: ResourceDetector>(
    mut builder: ResourceBuilder,
    detectors: &[D],
) -> Result<ResourceBuilder, AllocError>
    ensures ok { IfOk result (λ built. (seen : List PlainResource) × AllZip D.detects detectors.now seen
        × (built ≡ meaning.merge builder (meaning.of_attributes (meaning.all_attributes seen)))) }
    ensures free { All (SeesNothing D.ResourceDetector) detectors.now → IsOk result }
{
    for detector in detectors {
        let seen = detector.detect()?;
        builder = builder.with_seen(seen)?;
    }
    Ok(builder)
}
