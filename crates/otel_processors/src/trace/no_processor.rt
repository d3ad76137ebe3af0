//! What stands for a processor of the caller's own where there is none, so that a type over one can be named.

use opentelemetry::Context;
use otel_export::error::OTelSdkResult;
use otel_export::trace::SpanData;
use otel_pipeline::trace::{Span, SpanProcessor};
use otel_resource::resource::Resource;
use std::alloc::AllocError;
use std::time::Duration;

/// What stands for a processor of the caller's own, of which there is none: it forgets what it is given. It holds no
/// spans, since the borrow checker covers no pipeline of two kinds of processors that do.
#[derive(Drop)]
pub struct NoProcessor;

impl SpanProcessor for NoProcessor {
    fn on_start(&mut self, _span: &mut Span, _cx: &Context) {}

    fn on_end(&mut self, _span: SpanData) -> Result<(), AllocError> {
        Ok(())
    }

    fn force_flush(&mut self) -> OTelSdkResult {
        Ok(())
    }

    fn shutdown_with_timeout(&mut self, _timeout: Duration) -> OTelSdkResult {
        Ok(())
    }

    fn set_resource(&mut self, _resource: &Resource) -> Result<(), AllocError> {
        Ok(())
    }
}
