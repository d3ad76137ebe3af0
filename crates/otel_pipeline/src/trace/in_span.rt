//! Work inside a span: the span starts, the work is done, and the span ends, whatever the work answers.

ghost use Rattle.std.specs.Prelude.{◌≡◌, ◌⊎◌, IfErr, IfOk, IsOk, Ok, OnErr, string_bytes};
ghost use Rattle.otel_pipeline.specs.Ending.{EndIsInfallible};
ghost use Rattle.otel_pipeline.specs.InSpan.{DrawsNow, EndsOrDrops, WorksAndEnds, WorksInSpan, active_in, beginning};
ghost use Rattle.otel_pipeline.specs.InSpan.{child_request, clocked};
ghost use Rattle.otel_pipeline.specs.Starting.{AnswersStart, DrawsAtMost, RefusesStart, StartIsInfallible};
ghost use Rattle.otel_pipeline.specs.StartRequest.{start_request};

use crate::trace::{Now, ProviderOf, SdkTracer, Span, SpanProcessor};
use opentelemetry::trace::SpanBuilder;
use opentelemetry::{Context, Moment};
use otel_sampling::trace::{GivesIds, ShouldSample};
use std::alloc::{AllocError, AllocFailed};

/// What holds the span that work is handed: a `Span`. `in_span` speaks of any such type, since the borrow checker's proof
/// does not cover a closure over a `Span` by name, which has constant keys in it.
pub trait HoldsSpan {
    ghost use Rattle.otel_pipeline.specs.SpanHistory.{PlainSpan};

    ghost held_span: { Self → PlainSpan };

    fn hold(span: Span) -> Self
        ensures { held_span result ≡ span };

    fn release(self) -> Span
        ensures { result ≡ held_span self };
}

impl HoldsSpan for Span {
    ghost held_span = { λ span. span };

    fn hold(span: Span) -> Span {
        span
    }

    fn release(self) -> Span {
        self
    }
}

/// What a span begins with: a builder, or a name alone.
pub trait BeginsSpan {
    ghost use Rattle.opentelemetry.specs.PlainSpanBuilder.{PlainSpanBuilder};

    ghost begins: { Self → PlainSpanBuilder };

    fn into_builder(self) -> SpanBuilder
        ensures { result ≡ begins self };
}

impl BeginsSpan for SpanBuilder {
    ghost begins = { λ builder. builder };

    fn into_builder(self) -> SpanBuilder {
        self
    }
}

impl BeginsSpan for String {
    ghost use Rattle.std.specs.Prelude.{string_bytes};
    ghost use Rattle.opentelemetry.specs.PlainSpanBuilder.{named_builder};

    ghost begins = { λ name. named_builder (string_bytes name) };

    fn into_builder(self) -> SpanBuilder {
        SpanBuilder::from_name(self)
    }
}

/// What came of work in a span.
#[derive(Debug, Drop)]
pub struct InSpan<T> {
    /// What the work answered.
    pub answer: T,
    /// How many processors refused the span; `AllocError` where there was no memory to hand it to them. Then none of
    /// them has it.
    pub ended: Result<usize, AllocError>,
}

/// Starts spans (OpenTelemetry API, "Tracer"): what `SdkTracer` does, for code that is generic in its tracer.
pub trait Tracer {
    ghost use Rattle.opentelemetry.specs.Plain.{PlainScope};

    /// The scope of the spans.
    ghost scope: { Self → PlainScope };

    /// As `SdkTracer::build_with_context`.
    fn build_with_context<P: SpanProcessor, S: ShouldSample, G: GivesIds>(
        &self,
        builder: SpanBuilder,
        cx: &Context,
        provider: &mut ProviderOf<P, S, G>,
        now: Moment,
    ) -> Result<Span, AllocError>
        ensures answers { AnswersStart P.SpanProcessor S.ShouldSample G.GivesIds provider.old
            (start_request (scope self.now) builder cx.now now.0) result provider.new }
        ensures free { StartIsInfallible S.ShouldSample provider.old
            (start_request (scope self.now) builder cx.now now.0) → IsOk result };

    /// As `SdkTracer::start_inside`.
    fn start_inside<P: SpanProcessor, S: ShouldSample, G: GivesIds>(
        &self,
        builder: SpanBuilder,
        cx: &Context,
        provider: &mut ProviderOf<P, S, G>,
        now: Moment,
    ) -> Result<(Span, Context), AllocError>
        ensures ok { IfOk result (λ started. AnswersStart P.SpanProcessor S.ShouldSample G.GivesIds provider.old
            (start_request (scope self.now) builder cx.now now.0) (Ok started.0) provider.new
            × (started.1 ≡ active_in cx.now started.0)) }
        ensures err { OnErr result (DrawsAtMost G.GivesIds provider.old
            (start_request (scope self.now) builder cx.now now.0) provider.new) };

    /// Starts a span, hands it to the work beside a context in which it is active, and ends it once the work has
    /// answered, also where that is an error. The context has all that was in the other one, its baggage too. The work
    /// starts the spans inside in that context, at the provider and by the clock that it is handed. The clock is read
    /// before the work and after it. Where there is no memory for the span and its context the work is not done and comes
    /// back: no processor was told of the span, and ids were drawn at most.
    ///
    /// The work is a closure `|span: &mut Span, cx, provider, clock| ..`. Where it captures references, the function
    /// around it is generic in its tracer.
    fn in_span<
        P: SpanProcessor,
        S: ShouldSample,
        G: GivesIds,
        C: Now,
        X: HoldsSpan,
        B: BeginsSpan,
        F,
        T,
    >(
        &self,
        begun: B,
        cx: &Context,
        provider: &mut ProviderOf<P, S, G>,
        clock: &mut C,
        work: F,
    ) -> Result<InSpan<T>, AllocFailed<F>>
    where
        F: FnOnce(&mut X, &Context, &mut ProviderOf<P, S, G>, &mut C) -> T,
        requires { F.IsAlwaysCallable work }
        ensures ok { IfOk result (λ done. WorksInSpan P.SpanProcessor C.tells X.held_span F.FnOnce
            S.ShouldSample G.GivesIds (beginning (scope self.now) (B.begins begun) cx.now provider.old clock.old) work
            done (clocked provider.new clock.new)) }
        ensures err { IfErr result (λ failed. (failed.value ≡ work) × DrawsNow G.GivesIds C.tells
            (beginning (scope self.now) (B.begins begun) cx.now provider.old clock.old)
            (clocked provider.new clock.new)) }
    {
        let now = clock.now();
        match self.start_inside(begun.into_builder(), cx, provider, now) {
            Ok((span, inside)) => {
                let done = work_and_end(span, &inside, provider, clock, work);
                drop(inside);
                Ok(done)
            }
            Err(_) => Err(AllocFailed { value: work }),
        }
    }
}

impl Tracer for SdkTracer {
    ghost scope = { λ tracer. tracer };

    fn build_with_context<P: SpanProcessor, S: ShouldSample, G: GivesIds>(
        &self,
        builder: SpanBuilder,
        cx: &Context,
        provider: &mut ProviderOf<P, S, G>,
        now: Moment,
    ) -> Result<Span, AllocError> {
        SdkTracer::build_with_context(self, builder, cx, provider, now)
    }

    fn start_inside<P: SpanProcessor, S: ShouldSample, G: GivesIds>(
        &self,
        builder: SpanBuilder,
        cx: &Context,
        provider: &mut ProviderOf<P, S, G>,
        now: Moment,
    ) -> Result<(Span, Context), AllocError> {
        SdkTracer::start_inside(self, builder, cx, provider, now)
    }
}

impl SdkTracer {
    /// Starts a span of this name as a child of another one, in a context with all else that this one has, its baggage
    /// too. All else is as with `build_with_context`.
    pub fn start_child<P: SpanProcessor, S: ShouldSample, G: GivesIds>(
        &self,
        name: String,
        parent: &Span,
        cx: &Context,
        provider: &mut ProviderOf<P, S, G>,
        now: Moment,
    ) -> Result<Span, AllocError>
        ensures ok { IfOk result (λ span. AnswersStart P.SpanProcessor S.ShouldSample G.GivesIds provider.old
            (child_request self.now (string_bytes name) parent.now cx.now now.0) (Ok span) provider.new) }
        ensures err { OnErr result ((provider.new ≡ provider.old)
            ⊎ RefusesStart S.ShouldSample G.GivesIds provider.old
            (child_request self.now (string_bytes name) parent.now cx.now now.0) provider.new) }
    {
        let inside = context_inside(cx, parent)?;
        self.start_with_context(name, &inside, provider, now)
    }
}

/// The context in which this span is active, with all else that is in this one.
pub fn context_inside(cx: &Context, span: &Span) -> Result<Context, AllocError>
    ensures { IfOk result (λ inside. inside ≡ active_in cx.now span.now) }
{
    cx.with_span_context(span.span_context().clone()?)
}

/// Does the work with this span, in this context, and ends the span.
fn work_and_end<P: SpanProcessor, S: Drop, G: Drop, C: Now, X: HoldsSpan, F, T>(
    span: Span,
    inside: &Context,
    provider: &mut ProviderOf<P, S, G>,
    clock: &mut C,
    work: F,
) -> InSpan<T>
where
    F: FnOnce(&mut X, &Context, &mut ProviderOf<P, S, G>, &mut C) -> T,
    requires { F.IsAlwaysCallable work }
    ensures { WorksAndEnds P.SpanProcessor C.tells X.held_span F.FnOnce span inside.now
        (clocked provider.old clock.old) work result (clocked provider.new clock.new) }
{
    let mut held = X::hold(span);
    let answer = work(&mut held, inside, provider, clock);
    let ended = end_or_drop(held.release(), provider, clock.now());
    InSpan { answer, ended }
}

/// Ends a span at this moment, and answers how many processors refused it. Where there is no memory to hand it to its
/// processors it is dropped.
pub fn end_or_drop<P: SpanProcessor, S: Drop, G: Drop>(
    span: Span,
    provider: &mut ProviderOf<P, S, G>,
    end: Moment,
) -> Result<usize, AllocError>
    ensures ends { EndsOrDrops P.SpanProcessor provider.old span end.0 result provider.new }
    ensures free { EndIsInfallible span provider.old → IsOk result }
{
    match span.finish(provider, end) {
        Ok(refused) => Ok(refused),
        Err(failed) => {
            failed.value.abandon();
            Err(AllocError)
        }
    }
}
