//! Commands carried out on the parts of a session, by what they do.

ghost use Rattle.std.specs.Prelude.{◌≡◌, [], IfOk, OnErr};
ghost use Rattle.opentelemetry.specs.PlainContexts.{root_cx};
ghost use Rattle.otel_trace_lines.specs.Commands.{plain_command};
ghost use Rattle.otel_pipeline.specs.Deliveries.{EachFollows};
ghost use Rattle.otel_trace_session.specs.Actions.{action_of, plain_call};
ghost use Rattle.otel_trace_session.specs.ProviderTurns.{CallGives, call_answer};
ghost use Rattle.otel_trace_session.specs.Stops.{RefusesOne};
ghost use Rattle.otel_trace_session.specs.Turn.{TurnsFromAny};
ghost use Rattle.otel_trace_session.specs.Turns.{IsCarriedOut};

use crate::actions::{Action, Origin, ProviderCall, action_of, event_with_attribute};
use crate::headers::remote_context;
use crate::open_spans::OpenSpans;
use opentelemetry::Context;
use otel_export::error::OTelSdkResult;
use otel_pipeline::trace::{KeepsBatches, ProviderOf, Provides, SdkTracer};
use otel_sampling::trace::{GivesIds, ShouldSample};
use otel_trace_lines::{Answer, Command};
use std::alloc::{AllocError, Global};

/// Carries one command out on the parts of a session; a lost batch is no error.
pub(crate) fn carry_out<P: KeepsBatches, S: ShouldSample, G: GivesIds>(
    alloc: Global,
    tracer: &SdkTracer,
    root: &Context,
    provider: &mut ProviderOf<P, S, G>,
    spans: &mut OpenSpans,
    command: Command,
) -> Result<Answer, AllocError>
    requires { root.now ≡ root_cx }
    ensures ok { IfOk result (λ answer. TurnsFromAny (IsCarriedOut ⟦<ProviderOf<P, S, G> as Provides>⟧.calls
        tracer.now (action_of (plain_command command))) provider.old spans.old answer provider.new spans.new) }
    ensures err { OnErr result (RefusesOne ⟦<ProviderOf<P, S, G> as Provides>⟧.calls provider.old spans.old (action_of
        (plain_command command)) provider.new spans.new) }
{
    match action_of(alloc, command) {
        Action::Start {
            origin,
            span,
            builder,
            moment,
        } => match origin {
            Origin::Root => spans.start_in(span, root, tracer, provider, builder, moment),
            Origin::Parent(parent) => {
                spans.start_child(span, parent.as_str(), tracer, provider, builder, moment)
            }
            Origin::Header(header) => {
                let cx = remote_context(alloc, header)?;
                spans.start_in(span, &cx, tracer, provider, builder, moment)
            }
        },
        Action::Edit { span, edit } => spans.edit(span.as_str(), edit),
        Action::Link { span, target } => spans.link(alloc, span.as_str(), target.as_str()),
        Action::Exception {
            span,
            exception,
            moment,
        } => spans.record(alloc, span.as_str(), exception, moment),
        Action::EventWithAttribute {
            span,
            name,
            moment,
            attribute,
        } => {
            let edit = event_with_attribute(alloc, name, moment, attribute)?;
            spans.edit(span.as_str(), edit)
        }
        Action::Inject { span } => spans.inject(alloc, span.as_str()),
        Action::End { span, moment } => spans.end(alloc, span.as_str(), provider, moment),
        Action::Forget { span } => Ok(spans.forget(span.as_str())),
        Action::Call(call) => Ok(answer_to_call(call_provider(provider, call))),
    }
}

/// Calls the provider.
fn call_provider<P: KeepsBatches, S: ShouldSample, G: GivesIds>(
    provider: &mut ProviderOf<P, S, G>,
    call: ProviderCall,
) -> OTelSdkResult
    ensures gives { CallGives ⟦<ProviderOf<P, S, G> as Provides>⟧.calls (plain_call call) provider.old result
        provider.new }
    ensures told { EachFollows P.SpanProcessor [] provider.old.processors provider.new.processors }
{
    match call {
        ProviderCall::Flush => provider.force_flush(),
        ProviderCall::Run(moment) => provider.run_processors(moment),
        ProviderCall::Shutdown => provider.shutdown(),
    }
}

/// What is said of a call of the provider.
fn answer_to_call(said: OTelSdkResult) -> Answer
    ensures { result ≡ call_answer said }
{
    match said {
        Ok(()) => Answer::Ok,
        Err(error) => Answer::Failed(error),
    }
}
