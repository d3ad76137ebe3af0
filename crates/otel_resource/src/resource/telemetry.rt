//! The detector of this SDK itself (OpenTelemetry semantic conventions, "Telemetry SDK").

ghost use Rattle.std.specs.Prelude.{◌≡◌, OnOk};
ghost use Rattle.std.specs.FinMap as fin;
ghost use Rattle.opentelemetry.specs.Plain.{text};
ghost use Rattle.otel_resource.specs.Resource.{by_key, union, attributes_of};
ghost use Rattle.otel_resource.specs.DetectedResource.{telemetry_pairs};

use super::attributes::put;
use super::{Resource, ResourceDetector};
use opentelemetry::{Key, Value};
use std::alloc::{AllocError, Global};
use std::collections::BTreeMap;

/// Says which SDK makes the telemetry: its name, its language and its version.
#[derive(Debug, Drop)]
pub struct TelemetryResourceDetector {
    alloc: Global,
}

impl TelemetryResourceDetector {
    /// A detector of `telemetry.sdk.name`, `telemetry.sdk.language` and `telemetry.sdk.version`.
    pub fn new(alloc: Global) -> TelemetryResourceDetector {
        TelemetryResourceDetector { alloc }
    }
}

impl ResourceDetector for TelemetryResourceDetector {
    ghost use Rattle.std.specs.Prelude.{◌≡◌};
    ghost use Rattle.otel_resource.specs.DetectedResource.{telemetry_resource};

    ghost detects = { λ _ resource. resource ≡ telemetry_resource };

    fn detect(&self) -> Result<Resource, AllocError> {
        let mut attributes = BTreeMap::new(self.alloc);
        put_telemetry(&mut attributes, self.alloc)?;
        Resource::of_attributes(self.alloc, attributes)
    }
}

// Puts this SDK's name, language and version over the attributes.
pub(super) fn put_telemetry(
    attributes: &mut BTreeMap<Key, Value>,
    alloc: Global,
) -> Result<(), AllocError>
    ensures { OnOk result (by_key attributes.new ≡ union (by_key attributes.old) (attributes_of telemetry_pairs)) }
{
    put_constant(attributes, alloc, "telemetry.sdk.name", "opentelemetry")?;
    put_constant(attributes, alloc, "telemetry.sdk.language", "rust")?;
    put_constant(attributes, alloc, "telemetry.sdk.version", "0.33.0")?;
    Ok(())
}

/// A text for a key that is a constant.
fn put_constant(
    attributes: &mut BTreeMap<Key, Value>,
    alloc: Global,
    key: &'static str,
    value: &str,
) -> Result<(), AllocError>
    ensures { OnOk result (by_key attributes.new ≡ fin.insert (by_key attributes.old) key.now (text value.now)) }
{
    let value = Value::String(String::from_str(alloc, value)?);
    put(attributes, Key::from_static_str(key), value)
}
