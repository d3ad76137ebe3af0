//! A span: one operation within a trace. It records until its end; its end delivers what it recorded to the processors
//! of its provider. A span must be spent, so that none is forgotten.

ghost use Rattle.std.specs.Prelude.{◌≡◌, ◌≢◌, ◌≤◌, ◌⊎◌, [], length, map, List, OnOk, OnErr, IfErr, IfOk, IfSome, IsOk, IsNone, Some, is_some, string_bytes};
ghost use Rattle.std.specs.List.Sorted.{IsPermutation};
ghost use Rattle.opentelemetry.specs.Order.{greatest_status};
ghost use Rattle.opentelemetry.specs.Plain.{PlainStatus, unset};
ghost use Rattle.opentelemetry.specs.PlainValues.{plain_status};
ghost use Rattle.otel_pipeline.specs.EndAnswers.{AnswersEnd};
ghost use Rattle.otel_pipeline.specs.Ending.{EndIsInfallible, Ends};
ghost use Rattle.otel_pipeline.specs.SpanEdits.{new_event, new_link, plain_edit};
ghost use Rattle.otel_pipeline.specs.SpanHistory as history;
ghost use Rattle.otel_pipeline.specs.declared.trace.span.SpanEndError.TheVariants as errors;

use super::span_edit;
use crate::trace::{ProviderOf, Recorded, SpanBlock, SpanEdit, SpanProcessor};
use opentelemetry::trace::{Event, Link, SpanContext, Status};
use opentelemetry::{KeyValue, Moment};
use otel_export::trace::SpanData;
use otel_sampling::trace::SpanLimits;
use std::alloc::{AllocError, AllocFailed, Global};
use std::marker::Model;
use thiserror::Error;

/// Why the end of a span did not reach each processor.
#[derive(Clone, Copy, Debug, PartialEq, Eq, Error)]
pub enum SpanEndError {
    /// There was no memory to hand the span to its processors: none of them has it.
    #[error("no memory to hand the span to its processors")]
    OutOfMemory,
    /// So many processors had no memory for the span. The others have it.
    #[error("{0} processors did not take the span")]
    Refused(usize),
}

/// A span that somebody holds. `finish` ends and spends it; `end_with_timestamp` ends it and leaves it to be asked who
/// it was; `abandon` spends it without delivering anything.
pub struct Span {
    span_context: SpanContext,
    recorded: Recorded,
    span_limits: SpanLimits,
}

impl Model for Span {
    ghost use Rattle.otel_pipeline.specs.SpanHistory.{PlainSpan, HasHistory};

    ghost Value = { PlainSpan };

    ghost view = { λ a. record { span_context = a.span_context; limits = a.span_limits; recorded = a.recorded } };

    ghost invariant = { λ a. HasHistory (record {
      span_context = a.span_context;
      limits = a.span_limits;
      recorded = a.recorded;
    }) };
}

impl Span {
    /// The span that records this data.
    pub(crate) fn recording(
        span_context: SpanContext,
        recorded: Recorded,
        span_limits: SpanLimits,
    ) -> Span
        requires { history.HasHistory (history.plain_span span_context span_limits recorded) }
        ensures { result ≡ history.plain_span span_context span_limits recorded }
    {
        Span {
            span_context,
            recorded,
            span_limits,
        }
    }

    /// A span that records nothing.
    pub(crate) fn not_recording(
        alloc: Global,
        span_context: SpanContext,
        span_limits: SpanLimits,
    ) -> Span
        ensures { result ≡ history.not_recording span_context span_limits }
    {
        Span {
            span_context,
            recorded: Recorded::none(alloc),
            span_limits,
        }
    }

    /// Who the span is, also after its end.
    pub fn span_context(&self) -> &SpanContext
        ensures { result.now ≡ self.now.span_context }
    {
        &self.span_context
    }

    /// Whether edits still reach the span.
    pub fn is_recording(&self) -> bool
        ensures { result ≡ is_some self.now.recorded }
    {
        self.recorded.is_some()
    }

    /// Whether an event would not be kept, but counted at most.
    pub(crate) fn keeps_no_event(&self) -> bool
        ensures { result ≡ history.keeps_no_event self.now.limits self.now.recorded }
    {
        match self.recorded.get() {
            Some(recorded) => {
                self.span_limits.max_events_per_span as usize <= recorded.events.events.len()
            }
            None => true,
        }
    }

    /// Wherever a span comes from, it is what a start and edits made, or over. It does nothing.
    pub(crate) fn has_history(&self)
        ensures { history.HasHistory self.now }
    {
        let _recorded = &self.recorded;
    }

    /// Makes an edit. Nothing happens where the span is not recording.
    pub fn edit(&mut self, edit: SpanEdit) -> Result<(), AllocError>
        ensures ok { OnOk result (self.new ≡ history.edited (plain_edit edit) self.old) }
        ensures err { OnErr result (self.new ≡ self.old) }
        ensures edits { history.IsEdited self.old self.new }
        ensures free { IsNone self.old.recorded → IsOk result }
        ensures full { IfSome self.old.recorded
            (λ recorded. history.KeepsNoMore self.old.limits (plain_edit edit) recorded → IsOk result) }
    {
        edit.apply(&mut self.recorded, self.span_limits)
    }

    /// Sets an attribute after those that are there, also where its key is among them. Over the limit it is only
    /// counted, which takes no memory. Nothing happens where the span is not recording (OpenTelemetry specification,
    /// "Set Attributes").
    #[inline(always)]
    pub fn set_attribute(&mut self, attribute: KeyValue) -> Result<(), AllocError>
        ensures ok { OnOk result (self.new ≡ history.edited (history.set_attribute attribute) self.old) }
        ensures err { OnErr result (self.new ≡ self.old) }
        ensures edits { history.IsEdited self.old self.new }
        ensures free { IsNone self.old.recorded → IsOk result }
        ensures full { IfSome self.old.recorded
            (λ recorded. self.old.limits.max_attributes_per_span ≤ length recorded.attributes → IsOk result) }
    {
        // Out of line is only what a span that records does.
        if !self.is_recording() {
            return Ok(());
        }
        span_edit::set_attribute(&mut self.recorded, &self.span_limits, attribute)
    }

    /// Sets attributes in their order, each as `set_attribute` does. Where there is no memory none is set; an empty list
    /// needs none.
    pub fn set_attributes(&mut self, attributes: Vec<KeyValue>) -> Result<(), AllocError>
        ensures ok { OnOk result
            (self.new ≡ history.after (map history.set_attribute attributes.items) self.old) }
        ensures err { OnErr result (self.new ≡ self.old) }
        ensures edits { history.IsEdited self.old self.new }
        ensures free { IsNone self.old.recorded ⊎ (attributes.items ≡ []) → IsOk result }
        ensures full { IfSome self.old.recorded
            (λ recorded. self.old.limits.max_attributes_per_span ≤ length recorded.attributes → IsOk result) }
    {
        span_edit::set_attributes(&mut self.recorded, &self.span_limits, attributes)
    }

    /// Adds an event that happened at this moment. Its attributes are cut at their own limit; over the limit of events
    /// it is only counted (OpenTelemetry specification, "Add Events").
    pub fn add_event_with_timestamp(
        &mut self,
        name: String,
        timestamp: Moment,
        attributes: Vec<KeyValue>,
    ) -> Result<(), AllocError>
        ensures ok { OnOk result (self.new ≡ history.edited
            (history.add_event (new_event (string_bytes name) timestamp.0 attributes.items)) self.old) }
        ensures err { OnErr result (self.new ≡ self.old) }
        ensures edits { history.IsEdited self.old self.new }
        ensures free { IsNone self.old.recorded → IsOk result }
        ensures full { IfSome self.old.recorded
            (λ recorded. self.old.limits.max_events_per_span ≤ length recorded.events.events → IsOk result) }
    {
        let event = Event::new(name, timestamp, attributes, 0);
        span_edit::add_event(&mut self.recorded, self.span_limits, event)
    }

    /// Points to another span. The attributes of the link are cut at their own limit; over the limit of links it is
    /// only counted (OpenTelemetry specification, "Add Link").
    pub fn add_link(
        &mut self,
        span_context: SpanContext,
        attributes: Vec<KeyValue>,
    ) -> Result<(), AllocError>
        ensures ok { OnOk result (self.new ≡ history.edited
            (history.add_link (new_link span_context attributes.items)) self.old) }
        ensures err { OnErr result (self.new ≡ self.old) }
        ensures edits { history.IsEdited self.old self.new }
        ensures free { IsNone self.old.recorded → IsOk result }
        ensures full { IfSome self.old.recorded
            (λ recorded. self.old.limits.max_links_per_span ≤ length recorded.links.links → IsOk result) }
    {
        let link = Link::new(span_context, attributes, 0);
        span_edit::add_link(&mut self.recorded, self.span_limits, link)
    }

    /// Says how the operation went; the greatest status stays, in whatever order they come. It takes no memory
    /// (OpenTelemetry specification, "Set Status").
    pub fn set_status(&mut self, status: Status) -> Result<(), AllocError>
        ensures ok { OnOk result (self.new ≡ history.edited (history.set_status (plain_status status)) self.old) }
        ensures err { OnErr result (self.new ≡ self.old) }
        ensures edits { history.IsEdited self.old self.new }
        ensures free { IsOk result }
    {
        self.edit(SpanEdit::SetStatus(status))
    }

    /// Gives the span another name in place of the one that it has. It takes no memory (OpenTelemetry specification,
    /// "UpdateName").
    pub fn update_name(&mut self, name: String) -> Result<(), AllocError>
        ensures ok { OnOk result (self.new ≡ history.edited (history.update_name (string_bytes name)) self.old) }
        ensures err { OnErr result (self.new ≡ self.old) }
        ensures edits { history.IsEdited self.old self.new }
        ensures free { IsOk result }
    {
        self.edit(SpanEdit::UpdateName(name))
    }

    /// What would be exported if the span ended when it started: a copy of what it has recorded; none where it is not
    /// recording.
    pub fn exported_data(&self) -> Result<Option<SpanData>, AllocError>
        ensures now { IfOk result (λ found. found ≡ self.now.recorded) }
        ensures free { IsNone self.now.recorded → IsOk result }
        ensures history { history.HasHistory self.now }

        // Whole lists, each cut once, whatever order the edits came in.
        ensures whole { (start : history.SpanStart) (edits : List history.Edit)
            → self.now ≡ history.after edits (history.recording start [])
            → IfOk result (λ found. found ≡ Some (history.data_of start edits start.start_time)) }

        // The status is the same for every order in which statuses were set.
        ensures any_order { (start : history.SpanStart) (edits : List history.Edit) (statuses : List PlainStatus)
            → self.now ≡ history.after edits (history.recording start [])
            → IsPermutation (history.statuses_set edits) statuses
            → IfOk result (λ found. IfSome found (λ span. span.status ≡ greatest_status unset statuses)) }
    {
        match self.recorded.get() {
            Some(recorded) => Ok(Some(recorded.clone()?)),
            None => Ok(None),
        }
    }

    /// Drops what was recorded; no edit reaches the span any more.
    fn stop(&mut self)
        ensures { self.new ≡ history.ended self.old }
    {
        self.recorded.clear();
    }

    /// What was recorded; no edit reaches the span any more.
    fn take_recorded(&mut self, alloc: Global) -> Option<SpanBlock>
        ensures recorded { result ≡ self.old.recorded }
        ensures ended { self.new ≡ history.ended self.old }
    {
        self.recorded.take(alloc)
    }

    /// Ends the span at this moment: each processor of the provider is given what the span recorded, also after one
    /// refused it; a test shows that they are asked first to last. The answer is how many refused when memory runs out.
    /// On an error, which comes before any processor is asked, span and processors are unchanged; the last processor
    /// gets the original, and with one processor nothing is copied. A span that is not recording, or whose provider is
    /// shut, ends with 0. What follows of an end is in `laws`: what is delivered is the data of the span's history, each
    /// processor follows it, and a second end asks nobody.
    pub fn end_with_timestamp<P: SpanProcessor, S: Drop, G: Drop>(
        &mut self,
        provider: &mut ProviderOf<P, S, G>,
        timestamp: Moment,
    ) -> Result<usize, AllocError>
        ensures ok { IfOk result (λ refused.
            Ends P.SpanProcessor provider.old self.old timestamp.0 refused provider.new) }
        ensures ended { OnOk result (self.new ≡ history.ended self.old) }
        ensures err { OnErr result ((self.new ≡ self.old) × (provider.new ≡ provider.old)) }
        ensures free { EndIsInfallible self.old provider.old → IsOk result }
    {
        let Some(recorded) = self.recorded.get() else {
            return Ok(0);
        };
        if provider.is_shut() {
            self.stop();
            return Ok(0);
        }
        let copies = provider.copies_for_end(recorded, timestamp)?;
        let Some(mut block) = self.take_recorded(provider.allocator()) else {
            unreachable!();
        };
        block.end_at(timestamp);
        Ok(provider.deliver(copies, block))
    }

    /// Ends the span as `end_with_timestamp` does, and spends it. Where there is no memory for the copies it comes back
    /// as it was, and no processor has been given anything.
    #[inline(always)]
    pub fn finish<P: SpanProcessor, S: Drop, G: Drop>(
        mut self,
        provider: &mut ProviderOf<P, S, G>,
        timestamp: Moment,
    ) -> Result<usize, AllocFailed<Span>>
        ensures ok { IfOk result (λ refused.
            Ends P.SpanProcessor provider.old self timestamp.0 refused provider.new) }
        ensures err { IfErr result (λ failed. (failed.value ≡ self) × (provider.new ≡ provider.old)) }
        ensures free { EndIsInfallible self provider.old → IsOk result }
    {
        match self.end_with_timestamp(provider, timestamp) {
            Ok(refused) => {
                // `abandon` would move the span once more.
                let Span {
                    span_context: _,
                    recorded: _,
                    span_limits: _,
                } = self;
                Ok(refused)
            }
            Err(_) => Err(AllocFailed { value: self }),
        }
    }

    /// Ends and spends the span as `finish` does, for a caller that wants an error where a processor did not take it. Where
    /// there is no memory for the copies the span is dropped, and no processor has been given anything.
    pub fn finish_or_error<P: SpanProcessor, S: Drop, G: Drop>(
        self,
        provider: &mut ProviderOf<P, S, G>,
        timestamp: Moment,
    ) -> Result<(), SpanEndError>
        ensures answers { AnswersEnd P.SpanProcessor provider.old self timestamp.0 result provider.new }
        ensures free { EndIsInfallible self provider.old → IfErr result (λ error. error ≢ errors.OutOfMemory) }
    {
        match self.finish(provider, timestamp) {
            Ok(0) => Ok(()),
            Ok(refused) => Err(SpanEndError::Refused(refused)),
            Err(failed) => {
                failed.value.abandon();
                Err(SpanEndError::OutOfMemory)
            }
        }
    }

    /// Spends the span; nothing is delivered.
    #[inline(always)]
    pub fn abandon(self) {
        let Span {
            span_context: _,
            recorded: _,
            span_limits: _,
        } = self;
    }
}
