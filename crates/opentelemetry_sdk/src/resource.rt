//! What produces the spans: its attributes, and the detectors that find them.

pub use otel_resource::resource::{
    EnvResourceDetector, Iter, Resource, ResourceBuilder, ResourceDetector, ResourceStrings,
    SdkProvidedResourceDetector, TelemetryResourceDetector,
};
