//! What stands for an exporter of the caller's own where there is none, so that a type over one can be named.

ghost use Rattle.std.specs.Prelude.{None};

use crate::error::OTelSdkResult;
use crate::trace::{SpanData, SpanExporter};
use otel_resource::resource::Resource;
use std::time::Duration;

/// What stands for an exporter of the caller's own, of which there is none: it takes each batch and forgets it.
#[derive(Drop)]
pub struct NoExporter;

impl SpanExporter for NoExporter {
    ghost told = { λ _. None };

    fn export(&mut self, _batch: Vec<SpanData>) -> OTelSdkResult {
        Ok(())
    }

    fn shutdown_with_timeout(&mut self, _timeout: Duration) -> OTelSdkResult {
        Ok(())
    }

    fn set_resource(&mut self, _resource: &Resource) {}
}
