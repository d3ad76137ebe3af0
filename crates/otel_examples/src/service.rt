//! A whole service, which docs/USING.md names. Each request goes on with the trace of its caller, asks a backend within
//! that, and tells the backend of the trace; what is due is exported after each request, and all that waits at the end.

use opentelemetry::InstrumentationScope;
use opentelemetry::propagation::MapCarrier;
use opentelemetry::trace::SpanKind;
use opentelemetry_sdk::error::OTelSdkError;
use opentelemetry_sdk::propagation::TraceContextPropagator;
use opentelemetry_sdk::trace::{
    CloseReport, ConfigStrings, CountsLeftSpans, FromExporter, IdSource, Now, ProviderOf, Sampler,
    Scope, Timed, Tracing,
};
use std::alloc::{AllocError, Global};

/// A backend that takes headers.
pub trait Backend {
    fn call(&mut self, headers: &MapCarrier) -> Result<(), AllocError>;
}

/// Answers a request in a span whose parent is the one that its headers name.
pub fn answer<S: Scope, B: Backend>(
    scope: &mut S,
    headers: &MapCarrier,
    backend: &mut B,
) -> Result<(), AllocError> {
    scope.continue_from(headers, ("GET /cart", SpanKind::Server), |scope| {
        scope.set_attribute("http.route", "/cart")?;
        load_cart(scope, backend)
    })
}

/// Asks the backend, in a span within that of the request.
fn load_cart<S: Scope, B: Backend>(scope: &mut S, backend: &mut B) -> Result<(), AllocError> {
    scope.in_span(("load cart", SpanKind::Client), |scope| {
        let mut headers = MapCarrier::new(scope.alloc());
        scope.inject(&mut headers)?;
        backend.call(&headers)
    })
}

/// Answers requests with these headers, in a scope over an eager batch processor that has this exporter, by the default
/// configuration. A request that fails does not keep it from the others. The seed is fixed here; `otel_host` gives a true
/// one, and a clock.
pub fn serve<P: FromExporter + Timed + CountsLeftSpans, C: Now + Drop, B: Backend>(
    alloc: Global,
    exporter: P::Exporter,
    requests: &[MapCarrier],
    clock: C,
    backend: &mut B,
) -> Result<CloseReport, OTelSdkError> {
    let library = library(alloc).map_err(no_memory)?;
    let builder = ProviderOf::<P, Sampler, IdSource>::builder(alloc, &ConfigStrings::default(), 0);
    let builder = builder
        .map_err(no_memory)?
        .with_eager_batch_exporter(exporter);
    let provider = builder.map_err(no_memory)?.build().map_err(no_memory)?;
    let propagator = TraceContextPropagator::new();
    let mut scope = Tracing::new(alloc, provider, library, clock, propagator);
    // Nothing between here and `close` returns early.
    for headers in requests {
        let _answered = answer(&mut scope, headers, backend);
        // What is due by now is exported; where that fails the service goes on.
        let _exported = scope.run_due();
    }
    let flushed = scope.force_flush();
    let closed = scope.close();
    flushed?;
    Ok(closed.report)
}

/// Whose spans these are.
fn library(alloc: Global) -> Result<InstrumentationScope, AllocError> {
    InstrumentationScope::builder(alloc, String::from_str(alloc, "shop")?).build()
}

/// Out of memory, as the SDK calls it.
fn no_memory<E: Drop>(_error: E) -> OTelSdkError {
    OTelSdkError::OutOfMemory
}
