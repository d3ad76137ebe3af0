//! How calls fail.

pub use otel_export::error::{ExportError, OTelSdkError, OTelSdkResult};
