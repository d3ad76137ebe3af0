//! A scope over a provider.

ghost use Rattle.std.specs.Prelude.{◌≡◌, ◌⊎◌};
ghost use Rattle.otel_export.specs.StoredBatches.{one_more};
ghost use Rattle.otel_scope.specs.Currents.{IsBeside, at_root, settled};
ghost use Rattle.otel_scope.specs.Tracings.{Closes, Ends, FlushesHere, Loses, RunsHere, Starts, counted};

use crate::{Current, HoldsSpans};
use opentelemetry::propagation::{Extractor, Injector, TextMapPropagator};
use opentelemetry::trace::{SpanBuilder, Status};
use opentelemetry::{Context, InstrumentationScope, Moment};
use otel_export::error::OTelSdkResult;
use otel_pipeline::trace::{
    CloseReport, CountsLeftSpans, Exception, Now, ProviderOf, SdkTracer, Span, SpanEdit,
    SpanProcessor, Timed, end_or_drop,
};
use otel_sampling::trace::{GivesIds, ShouldSample};
use std::alloc::{AllocError, Global};
use std::mem;

/// All that tracing needs: a provider, a tracer of it, a clock, a propagator, and where texts lie in memory.
pub struct Tracing<P, S, G, C, T> {
    pub provider: ProviderOf<P, S, G>,
    pub tracer: SdkTracer,
    pub clock: C,
    pub propagator: T,
    alloc: Global,
    current: Current,
    lost: u64,
}

/// How a `Tracing` closed, and the parts of it that are left.
#[derive(Drop)]
pub struct Closed<C, T> {
    /// What the provider reports of its close.
    pub report: CloseReport,
    /// How many spans were lost, as `Tracing::lost` says.
    pub lost: u64,
    pub tracer: SdkTracer,
    pub clock: C,
    pub propagator: T,
}

impl<P, S, G, C, T> Tracing<P, S, G, C, T> {
    /// A scope in which no span is current, whose spans are those of this library.
    pub fn new(
        alloc: Global,
        provider: ProviderOf<P, S, G>,
        library: InstrumentationScope,
        clock: C,
        propagator: T,
    ) -> Tracing<P, S, G, C, T>
        ensures { result ≡ record {
          provider = provider;
          tracer = library;
          clock = clock;
          propagator = propagator;
          alloc = alloc;
          current = at_root;
          lost = 0;
        } }
    {
        let tracer = provider.tracer_with_scope(library);
        Tracing {
            provider,
            tracer,
            clock,
            propagator,
            alloc,
            current: Current::root(),
            lost: 0,
        }
    }

    /// How many spans were lost: those for which there was no memory at their start or at their end, and those that some
    /// processor refused. It stays at 2^64 - 1.
    pub fn lost(&self) -> u64
        ensures { result ≡ self.now.lost }
    {
        self.lost
    }

    /// Counts one more lost span, where one was.
    fn count(&mut self, ended: Result<usize, AllocError>)
        ensures { self.new ≡ record self.old { lost = counted ended self.old.lost } }
    {
        match ended {
            Ok(0) => {}
            _ => self.lost = self.lost.saturating_add(1),
        }
    }

    /// Counts one more lost span, and says where work without it is.
    fn lose(&mut self) -> Current
        ensures beside { IsBeside self.old.current result }
        ensures counts { self.new ≡ record self.old { lost = one_more self.old.lost } }
    {
        self.lost = self.lost.saturating_add(1);
        self.current.beside()
    }
}

impl<P: SpanProcessor, S: Drop, G: Drop, C, T> Tracing<P, S, G, C, T> {
    /// Asks every processor to export what waits, as `ProviderOf::force_flush` does.
    pub fn force_flush(&mut self) -> OTelSdkResult
        ensures { FlushesHere P.SpanProcessor self.old result self.new }
    {
        self.provider.force_flush()
    }
}

impl<P: Timed, S: Drop, G: Drop, C: Now, T> Tracing<P, S, G, C, T> {
    /// Has every processor do what is due now, as `ProviderOf::run_processors` does. Whoever runs the program calls it
    /// now and then, between spans.
    pub fn run_due(&mut self) -> OTelSdkResult
        ensures { RunsHere P.SpanProcessor P.Timed.own C.tells self.old result self.new }
    {
        let now = self.clock.now();
        self.provider.run_processors(now)
    }
}

impl<
    P: CountsLeftSpans,
    S: ShouldSample + Drop,
    G: GivesIds + Drop,
    C: Now,
    T: TextMapPropagator,
> Tracing<P, S, G, C, T> {
    /// Closes the provider, and gives back its report and the other parts. A span that is still current, which only code
    /// that calls `enter` itself can leave, ends before.
    pub fn close(mut self) -> Closed<C, T>
        ensures { Closes P.SpanProcessor P.CountsLeftSpans.own C.tells self result }
    {
        self.leave(Current::root(), false);
        let Tracing {
            provider,
            tracer,
            clock,
            propagator,
            alloc: _,
            current,
            lost,
        } = self;
        current.give_up();
        Closed {
            report: provider.close(),
            lost,
            tracer,
            clock,
            propagator,
        }
    }
}

impl<P: SpanProcessor, S: ShouldSample, G: GivesIds, C: Now, T> Tracing<P, S, G, C, T> {
    /// Starts a span now, in the current context, and says where work in it is. Where there is no memory for it no processor
    /// was told of it.
    fn begin(&mut self, builder: SpanBuilder) -> Current
        ensures begins { Starts P.SpanProcessor S.ShouldSample G.GivesIds C.tells self.old builder
            (record self.new { current = result })
            ⊎ Loses G.GivesIds C.tells self.old builder (record self.new { current = result }) }
        ensures stays { self.new.current ≡ self.old.current }
    {
        let now = self.clock.now();
        let started = self
            .tracer
            .start_inside(builder, &self.current.cx, &mut self.provider, now);
        match started {
            Ok((span, cx)) => Current {
                span: Some(span),
                cx,
            },
            Err(_) => self.lose(),
        }
    }
}

impl<P: SpanProcessor, S: Drop, G: Drop, C: Now, T> Tracing<P, S, G, C, T> {
    /// Ends a span now, whose work may have failed.
    fn end(&mut self, mut span: Span, failed: bool)
        ensures { Ends P.SpanProcessor C.tells self.old (settled failed span) self.old.current self.new }
    {
        settle(self.alloc, &mut span, failed);
        let end = self.clock.now();
        let ended = end_or_drop(span, &mut self.provider, end);
        self.count(ended);
    }
}

impl<P: SpanProcessor, S: ShouldSample, G: GivesIds, C: Now, T: TextMapPropagator> HoldsSpans
    for Tracing<P, S, G, C, T> {
    ghost use Rattle.std.specs.Prelude.{◌≡◌};
    ghost use Rattle.otel_scope.specs.Tracings.{Enters, Leaves};

    ghost current = { λ scope. scope.current };

    ghost with_current = { λ scope here. record scope { current = here } };

    ghost tells = { λ old moment new. C.tells old.clock moment new.clock
        × (new ≡ record old { clock = new.clock }) };

    ghost enters = { Enters P.SpanProcessor S.ShouldSample G.GivesIds C.tells };

    ghost leaves = { Leaves P.SpanProcessor C.tells };

    ghost injects = { λ scope. T.inject_gives scope.propagator };

    ghost extracts = { λ scope. T.extract_gives scope.propagator };

    fn alloc(&self) -> Global {
        self.alloc
    }

    fn now(&mut self) -> Moment {
        self.clock.now()
    }

    fn current(&self) -> &Current {
        &self.current
    }

    fn replace_context(&mut self, cx: Context) -> Context {
        mem::replace(&mut self.current.cx, cx)
    }

    fn enter(&mut self, builder: Option<SpanBuilder>) -> Current {
        let inner = match builder {
            Some(builder) => self.begin(builder),
            None => self.lose(),
        };
        mem::replace(&mut self.current, inner)
    }

    fn leave(&mut self, outer: Current, failed: bool) {
        let Current { span, cx: _ } = mem::replace(&mut self.current, outer);
        if let Some(span) = span {
            self.end(span, failed);
        }
    }

    fn edit(&mut self, edit: SpanEdit) -> Result<(), AllocError> {
        match &mut self.current.span {
            Some(span) => span.edit(edit),
            None => Ok(()),
        }
    }

    fn add_exception(&mut self, exception: Exception, timestamp: Moment) -> Result<(), AllocError> {
        match &mut self.current.span {
            Some(span) => span.record_exception(self.alloc, exception, timestamp),
            None => Ok(()),
        }
    }

    fn inject_current<I: Injector>(&self, headers: &mut I) -> Result<(), AllocError> {
        self.propagator
            .inject_context(self.alloc, &self.current.cx, headers)
    }

    fn extract_here<X: Extractor>(&self, headers: &X) -> Result<Context, AllocError> {
        self.propagator
            .extract_with_context(self.alloc, &self.current.cx, headers)
    }
}

/// Where work in a span failed its status becomes an error of no description, which is the least of the errors: a status
/// that was set stays. It takes no memory.
fn settle(alloc: Global, span: &mut Span, failed: bool)
    ensures { span.new ≡ settled failed span.old }
{
    if failed {
        let description = String::new(alloc);
        let _set = span.set_status(Status::Error { description });
    }
}
