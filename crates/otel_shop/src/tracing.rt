//! Shops that are traced, each at a provider of its own, and what is served by them.

use crate::no_backend::NoBackend;
use crate::serving::serve_shop;
use crate::shop::Shop;
use http_server::{Connection, Service};
use opentelemetry::InstrumentationScope;
use opentelemetry_sdk::error::OTelSdkResult;
use opentelemetry_sdk::propagation::{
    CompositePropagator, StrictBaggagePropagator, TraceContextPropagator,
};
use opentelemetry_sdk::trace::{
    CloseReport, Closed, ConfigStrings, CountsLeftSpans, FromExporter, IdSourceOf, Now, ProviderOf,
    RandomIdGenerator, SamplerOf, Tracing,
};
use otel_http::Traced;
use otel_pipeline::trace::provider_builder::config_from_strings;
use otel_probability::ConsistentProbabilityBased;
use std::alloc::{AllocError, AllocFailed, Global};
use std::io;
use std::io::{Read, Write};

/// The name of the library whose spans they are.
const LIBRARY: &str = "otel_shop";

/// The fields by which a trace and its baggage travel.
const FIELDS: &[&str] = &["traceparent", "tracestate", "baggage"];

/// Below which bound the slow page counts primes.
const BOUND: u32 = 10_000;

/// The samplers of the SDK, and one that strings do not name. No part of a provider is boxed, so that all of it is
/// known when the program is built.
type ShopSampler = SamplerOf<ConsistentProbabilityBased>;

type ShopIds = IdSourceOf<RandomIdGenerator>;

type Provider<P> = ProviderOf<P, ShopSampler, ShopIds>;

/// Headers are read and written as W3C has them.
type ShopPropagator = CompositePropagator<TraceContextPropagator, StrictBaggagePropagator>;

type Scoped<P, C> = Tracing<P, ShopSampler, ShopIds, C, ShopPropagator>;

/// A shop over a backend, whose requests are traced.
type TracedShop<B, P, C> = Traced<Shop<B>, Scoped<P, C>>;

/// What a provider is made by.
#[derive(Drop)]
pub struct Settings {
    pub strings: ConfigStrings,
    pub shop_seed: u64,
    pub backend_seed: u64,
    /// Whether no span is to record.
    pub is_disabled: bool,
}

/// What became of the spans of a shop.
#[derive(Debug, Drop)]
pub struct SpanReport {
    pub flushed: OTelSdkResult,
    pub closed: CloseReport,
    /// How many exports at ends of spans failed.
    pub failed_exports: u128,
    /// How many spans found the queue full.
    pub dropped: u128,
    /// How many spans were not made or not ended, since there was no memory.
    pub lost: u64,
    /// How many spans of requests lack what they are told of the response, since there was no memory.
    pub unfinished: u64,
}

/// What became of a connection, and of the spans of the shop that served it.
#[derive(Debug, Drop)]
pub struct Served {
    pub connection: io::Result<()>,
    pub spans: SpanReport,
}

/// What a shop is made of: its exporter, the seed of its ids, and a clock.
#[derive(Drop)]
pub struct Parts<E, C> {
    pub exporter: E,
    pub seed: u64,
    pub clock: C,
}

/// Serves the requests of a connection by a shop whose backend is another one in the same process, and closes both.
/// Answers what became of the backend's spans too, and `AllocError` where there was no memory to begin.
pub fn serve_traced<P: FromExporter + CountsLeftSpans, C: Now + Drop, R: Read, W: Write>(
    alloc: Global,
    settings: &Settings,
    shop_parts: Parts<P::Exporter, C>,
    backend_parts: Parts<P::Exporter, C>,
    connection: &mut Connection,
    reader: &mut R,
    writer: &mut W,
) -> Result<(Served, SpanReport), AllocError> {
    let backend = traced_shop::<NoBackend, P, C>(alloc, NoBackend, settings, backend_parts)?;
    let (backend, served) = serve_over::<TracedShop<NoBackend, P, C>, P, C, R, W>(
        alloc, backend, settings, shop_parts, connection, reader, writer,
    );
    let (_nobody, backend_spans) = close(backend);
    Ok((served?, backend_spans))
}

/// Serves the requests of a connection by a shop over a backend, and closes the shop. Answers the backend too.
fn serve_over<B: Service, P: FromExporter + CountsLeftSpans, C: Now + Drop, R: Read, W: Write>(
    alloc: Global,
    backend: B,
    settings: &Settings,
    parts: Parts<P::Exporter, C>,
    connection: &mut Connection,
    reader: &mut R,
    writer: &mut W,
) -> (B, Result<Served, AllocError>) {
    match traced_shop::<B, P, C>(alloc, backend, settings, parts) {
        Ok(mut shop) => {
            let outcome = serve_shop(connection, &mut shop, reader, writer);
            let (backend, spans) = close(shop);
            (
                backend,
                Ok(Served {
                    connection: outcome,
                    spans,
                }),
            )
        }
        Err(failed) => (failed.value, Err(AllocError)),
    }
}

/// A shop over a backend, which comes back where there is no memory.
fn traced_shop<B, P: FromExporter, C: Now + Drop>(
    alloc: Global,
    backend: B,
    settings: &Settings,
    parts: Parts<P::Exporter, C>,
) -> Result<TracedShop<B, P, C>, AllocFailed<B>> {
    let Ok(scope) = scope_over::<P, C>(alloc, settings, parts) else {
        return Err(AllocFailed { value: backend });
    };
    let shop = Shop {
        backend,
        bound: BOUND,
    };
    Ok(Traced::new(shop, scope))
}

/// A scope over a provider of its own.
fn scope_over<P: FromExporter, C: Now + Drop>(
    alloc: Global,
    settings: &Settings,
    parts: Parts<P::Exporter, C>,
) -> Result<Scoped<P, C>, AllocError> {
    let Parts {
        exporter,
        seed,
        clock,
    } = parts;
    let name = String::from_str(alloc, LIBRARY)?;
    let library = InstrumentationScope::builder(alloc, name).build()?;
    let propagator = w3c_propagator();
    let provider = provider_with::<P>(alloc, settings, seed, exporter)?;
    Ok(Tracing::new(alloc, provider, library, clock, propagator))
}

/// The propagator of a trace, and then that of its baggage by the strict grammar.
fn w3c_propagator() -> ShopPropagator {
    let trace = TraceContextPropagator::new();
    match ShopPropagator::new(trace, StrictBaggagePropagator::new(), FIELDS) {
        Ok(both) => both,
        Err(_) => unreachable!(),
    }
}

/// A provider with an eager batch processor over this exporter.
fn provider_with<P: FromExporter>(
    alloc: Global,
    settings: &Settings,
    seed: u64,
    exporter: P::Exporter,
) -> Result<Provider<P>, AllocError> {
    let config = config_from_strings(alloc, &settings.strings, seed)?;
    let batch_strings = settings.strings.batch.clone()?;
    let provider = Provider::<P>::builder_with_config(
        alloc,
        config,
        batch_strings,
        settings.is_disabled,
    ).with_eager_batch_exporter(exporter)?
        .build()?;
    Ok(provider)
}

/// Exports what waits and closes the scope of a shop. Answers the backend too.
fn close<B, P: CountsLeftSpans, C: Now + Drop>(traced: TracedShop<B, P, C>) -> (B, SpanReport) {
    let unfinished = traced.unfinished();
    let (shop, mut scope) = traced.into_parts();
    let Shop { backend, bound: _ } = shop;
    let flushed = scope.force_flush();
    let failed_exports = scope.provider.failed_exports();
    let dropped = scope.provider.dropped_count();
    let Closed {
        report,
        lost,
        tracer: _,
        clock: _,
        propagator: _,
    } = scope.close();
    (
        backend,
        SpanReport {
            flushed,
            closed: report,
            failed_exports,
            dropped,
            lost,
            unfinished,
        },
    )
}
