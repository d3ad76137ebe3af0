//! The provider: it holds the processors of the spans that are started under it, the sampler, the ids and the limits,
//! and shuts the processors down (OpenTelemetry specification, "Tracer Provider"). It is handed in wherever a span
//! starts or ends, and must be spent by `close`.

ghost use Rattle.std.specs.Prelude.{◌≡◌, ◌-◌, ◌≤◌, ◌↔◌, [], length, map, replicate, false, true, Ok, IfErr, IfOk, IsOk, IsErrOf, string_bytes, sum_by};
ghost use Rattle.std.specs.Bool.{OnTrue, OnFalse};
ghost use Rattle.std.specs.Duration.{as_nanos};
ghost use Rattle.opentelemetry.specs.Plain.{scope_named};
ghost use Rattle.otel_export.specs.ExporterCalls.{IsInternalFailure};
ghost use Rattle.otel_pipeline.specs.Deliveries.{EachFollows};
ghost use Rattle.otel_pipeline.specs.Each.{AsksAll};
ghost use Rattle.otel_pipeline.specs.Ending.{TakesAndTells};
ghost use Rattle.otel_pipeline.specs.Provider.{Flushes, ReportsLeft, RunsDue, ShutsDown, shut_answer};
ghost use Rattle.otel_pipeline.specs.ProviderBuilder.{disabled_provider, open_provider};
ghost use Rattle.otel_pipeline.specs.StartRequest.{start_moment};
ghost use Rattle.otel_pipeline.specs.Starting.{DrawsIds, PassesThrough};
ghost use Rattle.otel_pipeline.specs.SpanHistory.{IsEdited, ended_at};

use crate::trace::each_processor::{
    copies_of, dropped_by, end_each, failed_by, flush_each, left_open_by, run_each, shutdown_each,
    start_each, stranded_by,
};
use crate::trace::{
    CloseReport, CountsLeftSpans, SdkTracer, Span, SpanBlock, SpanProcessor, Timed,
};
use opentelemetry::trace::SpanBuilder;
use opentelemetry::{Context, InstrumentationScope, Moment, SpanId, TraceId};
use otel_export::error::{OTelSdkError, OTelSdkResult};
use otel_export::trace::SpanData;
use otel_sampling::trace::{ConfigOf, GivesIds, SpanLimits};
use std::alloc::{AllocError, Global};
use std::marker::Model;
use std::time::Duration;

/// A provider over processors, a sampler and a generator of ids of any one kind each.
pub struct ProviderOf<P, S, G> {
    pub(crate) processors: Vec<P>,
    sampler: S,
    id_generator: G,
    span_limits: SpanLimits,
    is_shut: bool,
    // Such a provider has no processors.
    is_disabled: bool,
}

impl<P, S, G> Model for ProviderOf<P, S, G> {
    ghost use Rattle.otel_pipeline.specs.Provider.{ProviderState};

    ghost Value = { ProviderState P S G };

    ghost view = { λ a. record {
      processors = a.processors.items;
      sampler = a.sampler;
      id_generator = a.id_generator;
      span_limits = a.span_limits;
      is_shut = a.is_shut;
      is_disabled = a.is_disabled;
    } };
}

impl<P, S, G> ProviderOf<P, S, G> {
    /// The processors in the order in which they are asked.
    pub fn processors(&self) -> &[P]
        ensures { result.now ≡ self.now.processors }
    {
        &self.processors
    }

    /// A tracer for the library of this name. Its scope takes memory once, and each start shares it.
    pub fn tracer(&self, name: String) -> Result<SdkTracer, AllocError>
        ensures { IfOk result (λ tracer. tracer ≡ scope_named (string_bytes name)) }
    {
        let scope = InstrumentationScope::builder(self.allocator(), name).build()?;
        Ok(self.tracer_with_scope(scope))
    }

    /// A tracer for this library.
    pub fn tracer_with_scope(&self, scope: InstrumentationScope) -> SdkTracer
        ensures { result ≡ scope }
    {
        SdkTracer::new(scope)
    }

    pub(crate) fn allocator(&self) -> Global {
        *self.processors.allocator()
    }

    pub(crate) fn is_shut(&self) -> bool
        ensures { result ≡ self.now.is_shut }
    {
        self.is_shut
    }

    pub(crate) fn is_disabled(&self) -> bool
        ensures { result ≡ self.now.is_disabled }
    {
        self.is_disabled
    }

    pub(crate) fn sampler(&self) -> &S
        ensures { result.now ≡ self.now.sampler }
    {
        &self.sampler
    }

    pub(crate) fn span_limits(&self) -> SpanLimits
        ensures { result ≡ self.now.span_limits }
    {
        self.span_limits
    }

    /// The copies of what an ending span recorded: one for each processor but the last, which gets the original.
    pub(crate) fn copies_for_end(
        &self,
        recorded: &SpanData,
        timestamp: Moment,
    ) -> Result<Vec<SpanData>, AllocError>
        ensures copies { IfOk result (λ copies. copies.items
            ≡ replicate (length self.now.processors - 1) (ended_at timestamp.0 recorded.now)) }
        ensures one { length self.now.processors ≤ 1 → IsOk result }
    {
        let count = self.processors.len().saturating_sub(1);
        if count == 0 {
            return Ok(Vec::new(self.allocator()));
        }
        copies_of(self.allocator(), recorded, timestamp, count)
    }
}

impl<P, S, G> ProviderOf<P, S, G> {
    ghost use Rattle.std.specs.Borrow.{LendsIf, sem};
    ghost use Rattle.std.specs.List.{IsItemAtMut};
    ghost use Rattle.std.specs.Prelude.{slice_set};
    ghost use Rattle.otel_pipeline.specs.contracts.trace.provider.ProviderOf.{the_row};

    /// The first processor, to be changed where it is: its exporter in memory may have its batches taken, say.
    pub fn first_processor_mut(&mut self) -> Option<&mut P>
        ensures* writes_back { sem 𝓛 (LendsIf (the_row P.row S.row G.row) P.row self.entry result
            (λ first. record self.old { processors = slice_set self.old.processors 0 first }) self.old) }
        ensures value { IsItemAtMut self.old.processors 0 result }
    {
        self.processors.first_mut()
    }
}

impl<P, S, G: GivesIds> ProviderOf<P, S, G> {
    /// The ids of a span that is to start in a context. The span id is drawn first; a trace id is drawn only where no
    /// span is active, and the source is told the moment at which the span starts.
    pub(crate) fn draw_ids(
        &mut self,
        cx: &Context,
        builder: &SpanBuilder,
        now: Moment,
    ) -> (TraceId, SpanId)
        ensures draws { DrawsIds G.GivesIds cx.now.span_context (start_moment builder.now now.0)
            self.old.id_generator result.0 result.1 self.new.id_generator }
        ensures rest { self.new ≡ record self.old { id_generator = self.new.id_generator } }
    {
        let span_id = self.id_generator.next_span_id();
        let trace_id = if cx.has_active_span() {
            cx.span_context().trace_id()
        } else {
            let start = builder.start_time.unwrap_or(now);
            self.id_generator.trace_id_at(start)
        };
        (trace_id, span_id)
    }
}

impl<P: SpanProcessor, S: Drop, G: Drop> ProviderOf<P, S, G> {
    /// A span has started: each processor is told in its turn.
    pub(crate) fn tell_start(&mut self, span: &mut Span, cx: &Context)
        ensures edits { IsEdited span.old span.new }
        ensures told { map P.told self.new.processors ≡ map P.told self.old.processors }
        ensures gives { PassesThrough P.SpanProcessor cx.now span.old self.old.processors self.new.processors span.new }
        ensures rest { self.new ≡ record self.old { processors = self.new.processors } }
    {
        start_each(&mut self.processors, span, cx);
    }

    /// Room for the data of a span that is to start: what the last processor gives back, or none.
    #[inline(always)]
    pub(crate) fn take_room(&mut self) -> Vec<SpanData>
        ensures room { result.items ≡ [] }
        ensures same { self.new ≡ self.old }
    {
        let alloc = self.allocator();
        let Some(last) = self.processors.len().checked_sub(1) else {
            return Vec::new(alloc);
        };
        self.processors[last]
            .take_emptied()
            .unwrap_or(Vec::new(alloc))
    }

    /// A span has ended: each processor gets its copy, the last one the original. The answer is how many refused.
    pub(crate) fn deliver(&mut self, copies: Vec<SpanData>, original: SpanBlock) -> usize
        requires { copies.items ≡ replicate (length self.old.processors - 1) original }
        ensures asked { AsksAll (TakesAndTells P.SpanProcessor original) self.old.processors self.new.processors
            result }
        ensures rest { self.new ≡ record self.old { processors = self.new.processors } }
    {
        end_each(&mut self.processors, copies, original)
    }

    /// Asks every processor to export what waits, also after one failed, and also where the provider is shut; a test
    /// shows that they are asked first to last. The answer is the error of the first processor that failed, Ok where
    /// none did (OpenTelemetry specification, "ForceFlush"); no memory is taken for it.
    pub fn force_flush(&mut self) -> OTelSdkResult
        ensures flushes { Flushes P.SpanProcessor self.old result self.new }

        // No span is delivered.
        ensures told { EachFollows P.SpanProcessor [] self.old.processors self.new.processors }
    {
        flush_each(&mut self.processors)
    }

    /// Shuts every processor down, also after one failed; a test shows that they are asked first to last. A second
    /// shutdown answers `AlreadyShutdown` and asks none; failures of processors are an `InternalFailure` that counts
    /// them. Where the SDK is disabled each shutdown is Ok.
    pub fn shutdown_with_timeout(&mut self, timeout: Duration) -> OTelSdkResult
        ensures again { OnTrue self.old.is_shut
            ((result ≡ shut_answer self.old.is_disabled self.old.processors) × (self.new ≡ self.old)) }
        ensures first { OnFalse self.old.is_shut
            (ShutsDown P.SpanProcessor self.old (as_nanos timeout) result self.new) }

        // No span is delivered.
        ensures told { EachFollows P.SpanProcessor [] self.old.processors self.new.processors }
    {
        if self.is_shut {
            return self.shut_answer();
        }
        self.is_shut = true;
        let failed = shutdown_each(&mut self.processors, timeout);
        failure_answer(self.allocator(), "Shutdown errors", failed)
    }

    /// The same with 5 seconds.
    pub fn shutdown(&mut self) -> OTelSdkResult
        ensures again { OnTrue self.old.is_shut
            ((result ≡ shut_answer self.old.is_disabled self.old.processors) × (self.new ≡ self.old)) }
        ensures first { OnFalse self.old.is_shut (ShutsDown P.SpanProcessor self.old 5_000_000_000 result self.new) }
        ensures told { EachFollows P.SpanProcessor [] self.old.processors self.new.processors }
    {
        self.shutdown_with_timeout(Duration::from_secs(5))
    }

    /// What a shutdown answers where the provider is shut.
    fn shut_answer(&self) -> OTelSdkResult
        ensures { result ≡ shut_answer self.now.is_disabled self.now.processors }
    {
        if self.is_disabled && self.processors.is_empty() {
            return Ok(());
        }
        Err(OTelSdkError::AlreadyShutdown)
    }
}

impl<P: CountsLeftSpans, S: Drop, G: Drop> ProviderOf<P, S, G> {
    /// Spends the provider. Where it is still open it is shut down. The report has the answer of the shutdown and how many
    /// spans are left in the queues of the processors.
    pub fn close(mut self) -> CloseReport
        ensures shut { OnTrue self.is_shut ((result.result ≡ Ok tt)
            × ReportsLeft P.CountsLeftSpans.own self.processors result) }
        ensures open { OnFalse self.is_shut ((after : _)
            × ShutsDown P.SpanProcessor self 5_000_000_000 result.result after
            × ReportsLeft P.CountsLeftSpans.own after.processors result) }
    {
        if self.is_shut {
            return self.report(Ok(()));
        }
        let answer = self.shutdown();
        self.report(answer)
    }

    /// Spends the provider, and reports this answer and what the processors leave.
    fn report(self, answer: OTelSdkResult) -> CloseReport
        ensures answer { result.result ≡ answer }
        ensures left { ReportsLeft P.CountsLeftSpans.own self.processors result }
    {
        let ProviderOf {
            processors,
            sampler: _,
            id_generator: _,
            span_limits: _,
            is_shut: _,
            is_disabled: _,
        } = self;
        CloseReport {
            result: answer,
            stranded: stranded_by(&processors),
            left_open: left_open_by(&processors),
        }
    }
}

impl<P: CountsLeftSpans, S, G> ProviderOf<P, S, G> {
    /// How many spans the processors dropped because their queues were full, those of all processors together.
    pub fn dropped_count(&self) -> u128
        ensures { result ≡ sum_by P.CountsLeftSpans.dropped_over self.now.processors }
    {
        dropped_by(&self.processors)
    }

    /// How many exports at ends of spans failed, those of all processors together. The ends answered Ok.
    pub fn failed_exports(&self) -> u128
        ensures { result ≡ sum_by P.CountsLeftSpans.failed_over self.now.processors }
    {
        failed_by(&self.processors)
    }
}

impl<P: Timed, S: Drop, G: Drop> ProviderOf<P, S, G> {
    /// Tells every processor the time, also after one failed, and also where the provider is shut, so that each does what
    /// is due: a batch processor drains its queue, and no other kind does anything. Failures are an `InternalFailure`
    /// that counts them. Whoever runs the provider calls it now and then, with later and later moments.
    pub fn run_processors(&mut self, now: Moment) -> OTelSdkResult
        ensures runs { RunsDue P.SpanProcessor P.Timed.own now.0 self.old result self.new }

        // No span is delivered.
        ensures told { EachFollows P.SpanProcessor [] self.old.processors self.new.processors }
    {
        let failed = run_each(&mut self.processors, now);
        failure_answer(self.allocator(), "run errors", failed)
    }
}

/// An open provider over these processors; it calls none of them. The resource of the configuration is for whoever makes
/// the processors.
pub fn provider_over<P, S, G>(processors: Vec<P>, config: ConfigOf<S, G>) -> ProviderOf<P, S, G>
    ensures { result ≡ open_provider processors.items config }
{
    ProviderOf {
        processors,
        sampler: config.sampler,
        id_generator: config.id_generator,
        span_limits: config.span_limits,
        is_shut: false,
        is_disabled: false,
    }
}

/// A provider that records nothing, and has no processors.
pub(crate) fn provider_of_none<P, S, G>(
    alloc: Global,
    config: ConfigOf<S, G>,
) -> ProviderOf<P, S, G>
    ensures { result ≡ disabled_provider config }
{
    let mut provider = provider_over(Vec::new(alloc), config);
    provider.is_shut = true;
    provider.is_disabled = true;
    provider
}

/// What is answered where so many processors failed. The reason stays empty where there is no memory for it.
fn failure_answer(alloc: Global, what: &str, failed: usize) -> OTelSdkResult
    ensures ok { IsOk result ↔ (failed ≡ 0) }
    ensures err { IfErr result IsInternalFailure }
{
    if failed == 0 {
        return Ok(());
    }
    let reason = match format!(in alloc; "{what}: {failed}") {
        Ok(reason) => reason,
        Err(_) => String::new(alloc),
    };
    Err(OTelSdkError::InternalFailure(reason))
}
