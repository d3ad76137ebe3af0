//! Detectors that read what configuration handed in: the string of attributes, and the name of the service.
//! (OpenTelemetry specification, "Specifying resource information via an environment variable" and
//! "SDK-provided resource attributes").

ghost use Rattle.std.specs.Prelude.{◌≡◌, None, [], ◌∷◌, List, IfOk, OnOk, OnErr, IsOk, option_and_then, string_bytes};
ghost use Rattle.std.specs.Option.{option_map};
ghost use Rattle.std.specs.FinMap as fin;
ghost use Rattle.opentelemetry.specs.Plain.{PlainKeyValue};
ghost use Rattle.opentelemetry.specs.PlainValues.{plain_value};
ghost use Rattle.otel_resource.specs.AttributesString.{IsMember, IsAttributesString};
ghost use Rattle.otel_resource.specs.DetectedResource as detected;
ghost use Rattle.otel_resource.specs.DetectedResource.{ReadsAs, GivesNoAttribute};
ghost use Rattle.otel_resource.specs.Resource.{PlainResource, non_empty, service_name_key};
ghost use Rattle.otel_resource.specs.Resource.{by_key, union, attributes_of, of_attributes};

use super::attributes::{put, put_text};
use super::telemetry::put_telemetry;
use super::{Resource, ResourceDetector, SERVICE_NAME};
use opentelemetry::{Key, Value};
use std::alloc::{AllocError, Global};
use std::collections::BTreeMap;
use std::marker::Model;

/// Stands in front of the name of a program, where nobody named its service.
const UNKNOWN_SERVICE_OF: &str = "unknown_service:";

/// The strings from which a resource is found out. An absent string is one that nobody set.
#[derive(Clone, Debug, Default, Drop)]
pub struct ResourceStrings {
    /// Attributes as `key=value,key=value`, usually of `OTEL_RESOURCE_ATTRIBUTES`.
    pub attributes: Option<String>,
    /// The name of the service, usually of `OTEL_SERVICE_NAME`.
    pub service_name: Option<String>,
    /// The name of the program, for a service that nobody named.
    pub program_name: Option<String>,
}

impl Model for ResourceStrings {
    ghost use Rattle.std.specs.Prelude.{string_bytes};
    ghost use Rattle.std.specs.Option.{option_map};
    ghost use Rattle.otel_resource.specs.DetectedResource.{PlainResourceStrings};

    ghost Value = { PlainResourceStrings };

    ghost view = { λ s. record {
      attributes = option_map string_bytes s.attributes;
      service_name = option_map string_bytes s.service_name;
      program_name = option_map string_bytes s.program_name;
    } };
}

/// Reads the attributes string.
#[derive(Debug, Default, Drop)]
pub struct EnvResourceDetector {
    attributes: Option<String>,
}

impl Model for EnvResourceDetector {
    ghost use Rattle.std.specs.Prelude.{ℕ, List, Option, string_bytes};
    ghost use Rattle.std.specs.Option.{option_map};

    ghost Value = { Option (List ℕ) };

    ghost view = { λ detector. option_map string_bytes detector.attributes };
}

impl EnvResourceDetector {
    /// Keeps a copy of the attributes string. `AllocError` where there is no memory for it.
    pub fn new(strings: &ResourceStrings) -> Result<EnvResourceDetector, AllocError>
        ensures ok { IfOk result (λ detector. detector ≡ strings.now.attributes) }
        ensures free { strings.now.attributes ≡ None → IsOk result }
    {
        Ok(EnvResourceDetector {
            attributes: strings.attributes.clone()?,
        })
    }
}

impl ResourceDetector for EnvResourceDetector {
    ghost use Rattle.otel_resource.specs.DetectedResource.{IsEnvResource, GivesNoAttribute};

    ghost detects = { IsEnvResource };

    ghost is_infallible = { GivesNoAttribute };

    fn detect(&self) -> Result<Resource, AllocError> {
        match &self.attributes {
            Some(text) => {
                let alloc = *text.allocator();
                let attributes = put_members(BTreeMap::new(alloc), alloc, text.as_str())?;
                Resource::of_attributes(alloc, attributes)
            }
            None => Ok(Resource::empty()),
        }
    }
}

/// Finds the name of the service: the service's own string, else the attributes string's `service.name`, else
/// `unknown_service` and the name of the program.
#[derive(Debug, Drop)]
pub struct SdkProvidedResourceDetector {
    strings: ResourceStrings,
    alloc: Global,
}

impl Model for SdkProvidedResourceDetector {
    ghost use Rattle.otel_resource.specs.DetectedResource.{PlainResourceStrings};

    ghost Value = { PlainResourceStrings };

    ghost view = { λ detector. detector.strings };
}

impl SdkProvidedResourceDetector {
    /// Keeps a copy of the strings. `AllocError` where there is no memory for them.
    pub fn new(
        alloc: Global,
        strings: &ResourceStrings,
    ) -> Result<SdkProvidedResourceDetector, AllocError>
        ensures ok { IfOk result (λ detector. detector ≡ strings.now) }
        ensures free { strings.now ≡ detected.no_strings → IsOk result }
    {
        Ok(SdkProvidedResourceDetector {
            strings: strings.clone()?,
            alloc,
        })
    }
}

impl ResourceDetector for SdkProvidedResourceDetector {
    ghost use Rattle.otel_resource.specs.DetectedResource.{IsSdkResource};

    ghost detects = { IsSdkResource };

    fn detect(&self) -> Result<Resource, AllocError> {
        let name = service_name(self.alloc, &self.strings)?;
        let named = Resource::builder_empty(self.alloc).with_service_name(name)?;
        Ok(named.build())
    }
}

// The name of the service, this SDK and the pairs of the attributes string, later ones winning: a name that the string
// gives comes over the one that is put first, and so the string is read once.
pub(super) fn detected_attributes(
    alloc: Global,
    strings: &ResourceStrings,
) -> Result<BTreeMap<Key, Value>, AllocError>
    ensures { IfOk result (λ all. detected.IsDetected strings.now (of_attributes (by_key all))) }
{
    let mut attributes = BTreeMap::new(alloc);
    let name = name_besides_attributes(alloc, strings)?;
    put(&mut attributes, Key::from_static_str(SERVICE_NAME), name)?;
    put_telemetry(&mut attributes, alloc)?;
    put_string(attributes, alloc, &strings.attributes)
}

/// The attributes string is read only where the service's own string does not name it.
fn service_name(alloc: Global, strings: &ResourceStrings) -> Result<Value, AllocError>
    ensures { IfOk result (λ name. (env : PlainResource) × detected.IsEnvResource strings.now.attributes env
        × (plain_value name ≡ detected.name_over strings.now env)) }
{
    match own_name(strings) {
        Some(name) => Ok(Value::String(String::from_str(alloc, name)?)),
        None => match name_in(alloc, &strings.attributes)? {
            Some(name) => Ok(name),
            None => unknown_service(alloc, &strings.program_name),
        },
    }
}

/// The name of the service where the attributes have none.
fn name_besides_attributes(alloc: Global, strings: &ResourceStrings) -> Result<Value, AllocError>
    ensures { IfOk result (λ name.
        plain_value name ≡ detected.name_of_service strings.now.service_name None strings.now.program_name) }
{
    match own_name(strings) {
        Some(name) => Ok(Value::String(String::from_str(alloc, name)?)),
        None => unknown_service(alloc, &strings.program_name),
    }
}

/// The service's own string, if it is set and not empty.
fn own_name(strings: &ResourceStrings) -> Option<&str>
    ensures { option_map (λ s. s.now) result ≡ option_and_then non_empty strings.now.service_name }
{
    match &strings.service_name {
        Some(name) if !name.is_empty() => Some(name.as_str()),
        _ => None,
    }
}

/// The name of the service that the attributes string has.
fn name_in(alloc: Global, given: &Option<String>) -> Result<Option<Value>, AllocError>
    ensures { IfOk result (λ found. (pairs : List PlainKeyValue) × ReadsAs (option_map string_bytes given.now) pairs
        × (option_map plain_value found ≡ fin.get (attributes_of pairs) service_name_key)) }
{
    let mut attributes = put_string(BTreeMap::new(alloc), alloc, given)?;
    let key = Key::from_static_str(SERVICE_NAME);
    Ok(attributes.remove(&key))
}

fn unknown_service(alloc: Global, program_name: &Option<String>) -> Result<Value, AllocError>
    ensures { IfOk result (λ name.
        plain_value name ≡ detected.unknown_service (option_map string_bytes program_name.now)) }
{
    match program_name {
        Some(program) => {
            let mut name = String::with_capacity(alloc, UNKNOWN_SERVICE_OF.len() + program.len())?;
            name.push_str(UNKNOWN_SERVICE_OF)?;
            name.push_str(program.as_str())?;
            Ok(Value::String(name))
        }
        None => Ok(Value::String(String::from_str(alloc, "unknown_service")?)),
    }
}

/// The pairs of an attributes string, if there is one, over the attributes.
fn put_string(
    attributes: BTreeMap<Key, Value>,
    alloc: Global,
    given: &Option<String>,
) -> Result<BTreeMap<Key, Value>, AllocError>
    ensures { IfOk result (λ all. (pairs : List PlainKeyValue) × ReadsAs (option_map string_bytes given.now) pairs
        × (by_key all ≡ union (by_key attributes) (attributes_of pairs))) }
{
    match given {
        Some(text) => put_members(attributes, alloc, text.as_str()),
        None => Ok(attributes),
    }
}

/// The pairs of an attributes string over the attributes, member by member.
fn put_members(
    mut attributes: BTreeMap<Key, Value>,
    alloc: Global,
    text: &str,
) -> Result<BTreeMap<Key, Value>, AllocError>
    ensures ok { IfOk result (λ all. (pairs : List PlainKeyValue) × IsAttributesString text.now pairs
        × (by_key all ≡ union (by_key attributes) (attributes_of pairs))) }
    ensures free { IsAttributesString text.now [] → IsOk result }
{
    let mut rest = text;
    'members: while let Some((member, more)) = rest.split_once(',') {
        put_pair_of(&mut attributes, alloc, member)?;
        rest = more;
    }
    put_pair_of(&mut attributes, alloc, rest)?;
    Ok(attributes)
}

fn put_pair_of(
    attributes: &mut BTreeMap<Key, Value>,
    alloc: Global,
    member: &str,
) -> Result<(), AllocError>
    ensures ok { OnOk result ((found : List PlainKeyValue) × IsMember member.now found
        × (by_key attributes.new ≡ union (by_key attributes.old) (attributes_of found))) }
    ensures err { OnErr result ((pair : PlainKeyValue) × IsMember member.now (pair ∷ [])) }
{
    match member.split_once('=') {
        Some((key, value)) => put_text(attributes, alloc, key.trim(), value.trim()),
        None => Ok(()),
    }
}
