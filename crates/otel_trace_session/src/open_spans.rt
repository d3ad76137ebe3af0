//! The spans of a session by name. They must be spent: each is abandoned when the session closes.

ghost use Rattle.std.specs.Prelude.{◌≡◌, [], ◌++◌, IfOk, None, OnErr, codes, string_bytes};
ghost use Rattle.std.specs.Option.{option_copied, option_map};
ghost use Rattle.opentelemetry.specs.Plain.{scope_named};
ghost use Rattle.opentelemetry.specs.PlainContexts.{root_cx};
ghost use Rattle.otel_pipeline.specs.Exceptions.{exception_event};
ghost use Rattle.otel_pipeline.specs.SpanEdits.{add_event, new_link, plain_edit};
ghost use Rattle.otel_trace_session.specs.Headers.{child_cx};
ghost use Rattle.otel_trace_session.specs.OpenSpans.{
  AnswersInject,
  ChildMayStart,
  Describe,
  HaveHistories,
  Histories,
  MayStart,
  NamedSpans,
  SameSpans,
  by_name,
  edit_answer,
  edited_in,
  forget_answer,
  forgotten_in,
  identity_of,
  link_answer,
  linked_in,
  named,
  start_answer,
};
ghost use Rattle.otel_trace_session.specs.SpanTurns.{ChildTurn, EndTurn, StartTurn, start_in};
ghost use Rattle.otel_trace_session.specs.Turn.{TurnsFromAny};

use crate::ended_span::EndedSpan;
use crate::headers::{answer_with_headers, child_context};
use crate::span_answers::{answer_to_edit, answer_to_end, answer_to_forget, answer_to_late};
use crate::span_maps::{abandon_all, abandon_one, drop_identity, has_recording, keep_identity};
use opentelemetry::trace::{Link, SpanBuilder, SpanContext};
use opentelemetry::{Context, Moment};
use otel_pipeline::trace::{
    Exception, KeepsBatches, ProviderOf, Provides, SdkTracer, Span, SpanEdit, SpanProcessor,
};
use otel_sampling::trace::{GivesIds, ShouldSample};
use otel_trace_lines::{Answer, SpanIdentity};
use std::alloc::{AllocError, Global};
use std::collections::BTreeMap;
use std::collections::btree_map::Entry;
use std::marker::Model;

/// The name of the library whose spans a session makes.
const SCOPE_NAME: &str = "otel_trace";

/// The tracer under whose scope they start.
pub(crate) fn tracer_of<P, S, G>(
    alloc: Global,
    provider: &ProviderOf<P, S, G>,
) -> Result<SdkTracer, AllocError>
    ensures { IfOk result (λ tracer. tracer ≡ scope_named (codes "otel_trace")) }
{
    provider.tracer(String::from_str(alloc, SCOPE_NAME)?)
}

/// Spans by name: the open ones, and of those that are over who they were. Under a name that has an open span the other
/// map says nothing.
pub(crate) struct OpenSpans {
    running: BTreeMap<String, Span>,
    finished: BTreeMap<String, EndedSpan>,
}

impl Model for OpenSpans {
    ghost use Rattle.otel_trace_session.specs.OpenSpans.{HaveHistories, NamedSpans, held_spans};

    ghost Value = { NamedSpans };

    ghost view = { λ a. held_spans a.running.entries a.finished.entries };

    ghost invariant = { λ a. HaveHistories (held_spans a.running.entries a.finished.entries) };
}

impl OpenSpans {
    pub(crate) fn new(alloc: Global) -> OpenSpans
        ensures { result ≡ [] }
    {
        OpenSpans {
            running: BTreeMap::new(alloc),
            finished: BTreeMap::new(alloc),
        }
    }

    /// Each span has a history. It does nothing.
    pub(crate) fn have_histories(&self)
        ensures { HaveHistories self.now }
    {
        let _running = &self.running;
    }

    /// Starts a span under a name in a context. The name's place in the map comes first, so that a start that is
    /// refused asked no processor.
    pub(crate) fn start_in<P: KeepsBatches, S: ShouldSample, G: GivesIds>(
        &mut self,
        span: String,
        cx: &Context,
        tracer: &SdkTracer,
        provider: &mut ProviderOf<P, S, G>,
        builder: SpanBuilder,
        now: Moment,
    ) -> Result<Answer, AllocError>
        ensures ok { IfOk result (λ answer. TurnsFromAny (StartTurn ⟦<ProviderOf<P, S, G> as Provides>⟧.calls
            (start_in tracer.now cx.now (string_bytes span) builder now.0)) provider.old self.old answer provider.new
            self.new) }
        ensures asks { OnErr result (MayStart ⟦<ProviderOf<P, S, G> as Provides>⟧.calls provider.old cx.now builder
            now.0 (named self.old (string_bytes span)) provider.new) }
        ensures err { OnErr result (SameSpans self.old self.new) }
    {
        if self.finished.contains_key(span.as_str()) {
            return Ok(Answer::SpanExists);
        }
        start_under(&mut self.running, span, cx, tracer, provider, builder, now)
    }

    /// Starts a span under a name, as a child of the span of another name.
    pub(crate) fn start_child<P: KeepsBatches, S: ShouldSample, G: GivesIds>(
        &mut self,
        span: String,
        parent: &str,
        tracer: &SdkTracer,
        provider: &mut ProviderOf<P, S, G>,
        builder: SpanBuilder,
        now: Moment,
    ) -> Result<Answer, AllocError>
        ensures ok { IfOk result (λ answer. TurnsFromAny (λ turn. ChildTurn ⟦<ProviderOf<P, S, G> as Provides>⟧.calls
            (start_in tracer.now root_cx (string_bytes span) builder now.0)
            (turn.before.histories parent.now) turn) provider.old self.old answer provider.new self.new) }
        ensures asks { OnErr result (ChildMayStart ⟦<ProviderOf<P, S, G> as Provides>⟧.calls provider.old (named
            self.old parent.now) builder now.0 (named self.old (string_bytes span)) provider.new) }
        ensures err { OnErr result (SameSpans self.old self.new) }
    {
        let Some(cx) = self.context_of(parent)? else {
            return Ok(Answer::NoSuchSpan);
        };
        self.start_in(span, &cx, tracer, provider, builder, now)
    }

    /// The context in which the span of a name is active.
    fn context_of(&self, span: &str) -> Result<Option<Context>, AllocError>
        ensures { IfOk result (λ cx. cx
            ≡ option_map (λ found. child_cx found.span_context) (named self.now span.now)) }
    {
        let Some(found) = self.find(span) else {
            return Ok(None);
        };
        Ok(Some(child_context(found)?))
    }

    /// Who the span of a name is, open or over.
    fn find(&self, span: &str) -> Option<&SpanContext>
        ensures { option_copied result ≡ option_map (λ found. found.span_context) (named self.now span.now) }
    {
        if let Some(found) = self.running.get(span) {
            return Some(found.span_context());
        }
        match self.finished.get(span) {
            Some(ended) => Some(ended.span_context()),
            None => None,
        }
    }

    /// What is said of the headers of the span of a name.
    pub(crate) fn inject(&self, alloc: Global, span: &str) -> Result<Answer, AllocError>
        ensures { IfOk result (λ answer. (histories : Histories) → Describe histories self.now
            → AnswersInject (histories span.now) answer) }
    {
        let Some(cx) = self.context_of(span)? else {
            return Ok(Answer::NoSuchSpan);
        };
        answer_with_headers(alloc, &cx)
    }

    /// Edits the span of a name.
    pub(crate) fn edit(&mut self, span: &str, edit: SpanEdit) -> Result<Answer, AllocError>
        ensures ok { IfOk result (λ answer. (histories : Histories) → Describe histories self.old
            → (answer ≡ edit_answer (histories span.now))
            × Describe (edited_in histories span.now (plain_edit edit)) self.new) }
        ensures err { OnErr result (SameSpans self.old self.new) }
    {
        let Some(found) = self.running.get_mut(span) else {
            return Ok(answer_to_late(&self.finished, span));
        };
        let is_recording = found.is_recording();
        found.edit(edit)?;
        Ok(answer_to_edit(is_recording))
    }

    /// Records an error that the span of a name met at a moment.
    pub(crate) fn record(
        &mut self,
        alloc: Global,
        span: &str,
        exception: Exception,
        moment: Moment,
    ) -> Result<Answer, AllocError>
        ensures ok { IfOk result (λ answer. (histories : Histories) → Describe histories self.old
            → (answer ≡ edit_answer (histories span.now))
            × Describe (edited_in histories span.now (add_event (exception_event exception moment.0))) self.new) }
        ensures err { OnErr result (SameSpans self.old self.new) }
    {
        let Some(found) = self.running.get_mut(span) else {
            return Ok(answer_to_late(&self.finished, span));
        };
        let is_recording = found.is_recording();
        found.record_exception(alloc, exception, moment)?;
        Ok(answer_to_edit(is_recording))
    }

    /// Adds a link to the span of a name, which points to that of another name, open or ended.
    pub(crate) fn link(
        &mut self,
        alloc: Global,
        span: &str,
        target: &str,
    ) -> Result<Answer, AllocError>
        ensures ok { IfOk result (λ answer. (histories : Histories) → Describe histories self.old
            → (answer ≡ link_answer (histories target.now) (histories span.now))
            × Describe (linked_in histories span.now target.now) self.new) }
        ensures err { OnErr result (SameSpans self.old self.new) }
    {
        let Some(link) = self.link_to(alloc, target)? else {
            return Ok(Answer::NoSuchSpan);
        };
        self.edit(span, SpanEdit::AddLink(link))
    }

    /// The link to the span of a name, without attributes.
    fn link_to(&self, alloc: Global, target: &str) -> Result<Option<Link>, AllocError>
        ensures { IfOk result (λ link. link
            ≡ option_map (λ found. new_link found.span_context []) (named self.now target.now)) }
    {
        let Some(found) = self.find(target) else {
            return Ok(None);
        };
        Ok(Some(Link::new(found.clone()?, Vec::new(alloc), 0)))
    }

    /// Ends the span of a name. Who it was is kept first, so that an end that is refused changed nothing.
    pub(crate) fn end<P: SpanProcessor, S: Drop, G: Drop>(
        &mut self,
        alloc: Global,
        span: &str,
        provider: &mut ProviderOf<P, S, G>,
        moment: Moment,
    ) -> Result<Answer, AllocError>
        ensures ok { IfOk result (λ answer. TurnsFromAny (λ turn. EndTurn P.SpanProcessor span.now moment.0
            (turn.before.histories span.now) turn) provider.old self.old answer provider.new self.new) }
        ensures err { OnErr result (SameSpans self.old self.new × (provider.new ≡ provider.old)) }
    {
        let Some(found) = self.running.get_mut(span) else {
            return Ok(answer_to_late(&self.finished, span));
        };
        let is_recording = found.is_recording();
        keep_identity(alloc, &mut self.finished, span, found)?;
        let refused = found.end_with_timestamp(provider, moment)?;
        let _was_open = abandon_one(&mut self.running, span);
        Ok(answer_to_end(is_recording, refused))
    }

    /// Gives up the name of a span that is over: nothing is kept of it.
    pub(crate) fn forget(&mut self, span: &str) -> Answer
        ensures { (histories : Histories) → Describe histories self.old
            → (result ≡ forget_answer (histories span.now))
            × Describe (forgotten_in histories span.now) self.new }
    {
        if has_recording(&self.running, span) {
            return Answer::StillOpen;
        }
        let was_open = abandon_one(&mut self.running, span);
        let was_over = drop_identity(&mut self.finished, span);
        answer_to_forget(was_open, was_over)
    }

    /// Spends them: each open span is abandoned.
    pub(crate) fn abandon(self) {
        let OpenSpans {
            running,
            finished: _,
        } = self;
        abandon_all(running);
    }
}

/// Starts a span under a name of a map, in a context. The name's place comes first. It is a start also among the rest
/// of a session's spans, where none of them has the name.
fn start_under<P: KeepsBatches, S: ShouldSample, G: GivesIds>(
    spans: &mut BTreeMap<String, Span>,
    span: String,
    cx: &Context,
    tracer: &SdkTracer,
    provider: &mut ProviderOf<P, S, G>,
    builder: SpanBuilder,
    now: Moment,
) -> Result<Answer, AllocError>
    ensures ok { IfOk result (λ answer. (rest : NamedSpans) → named rest (string_bytes span) ≡ None → TurnsFromAny
        (StartTurn ⟦<ProviderOf<P, S, G> as Provides>⟧.calls (start_in tracer.now cx.now (string_bytes span) builder
        now.0)) provider.old (by_name spans.old.entries ++ rest) answer provider.new (by_name spans.new.entries ++
        rest)) }
    ensures asks { OnErr result (MayStart ⟦<ProviderOf<P, S, G> as Provides>⟧.calls provider.old cx.now builder now.0
        (named (by_name spans.old.entries) (string_bytes span)) provider.new) }
    ensures err { OnErr result (SameSpans (by_name spans.old.entries) (by_name spans.new.entries)) }
{
    match spans.entry(span)? {
        Entry::Vacant(place) => match tracer.build_with_context(builder, cx, provider, now) {
            Ok(started) => {
                let answer = answer_to_start(&started);
                place.insert(started);
                Ok(answer)
            }
            Err(error) => {
                // Its refusal leaves the map as it was.
                Entry::Vacant(place).or_try_insert_with(|| Err(error))?;
                unreachable!()
            }
        },
        Entry::Occupied(taken) => {
            // The span that is there stays.
            let _there = taken.into_mut();
            Ok(Answer::SpanExists)
        }
    }
}

/// What is said of the start of a span.
fn answer_to_start(span: &Span) -> Answer
    ensures { result ≡ start_answer span.now }
{
    if span.is_recording() {
        Answer::Started(identity(span))
    } else {
        Answer::Dropped(identity(span))
    }
}

fn identity(span: &Span) -> SpanIdentity
    ensures { result ≡ identity_of span.now }
{
    let context = span.span_context();
    SpanIdentity {
        trace_id: context.trace_id(),
        span_id: context.span_id(),
        trace_flags: context.trace_flags(),
    }
}
