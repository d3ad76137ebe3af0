//! The calls that are handed their attributes, in place of those that were gathered, which stay. Threads and signal
//! handlers that share a pipeline cannot take one another's so.

ghost use Rattle.std.specs.Prelude.{◌≡◌, ◌∷◌, [], IfOk, OnErr, OnOk, map};
ghost use Rattle.opentelemetry.specs.declared.trace.span_kind.SpanKind.{SpanKind as TheKinds};
ghost use Rattle.otel_pipeline.specs.SpanEdits.{new_event};
ghost use Rattle.otel_pipeline.specs.SpanHistory.{add_event, set_attribute};
ghost use Rattle.otel_embed.specs.Headers.{IsContextOf, plain_headers};
ghost use Rattle.otel_embed.specs.HostValues.{AreAttributesOf, IsKind};
ghost use Rattle.otel_embed.specs.Pipelines.{EditsSpan, InPlaceOfGathered, LinksTo, LinksToRemote, Stays, taken};
ghost use Rattle.otel_embed.specs.Starts.{IsContextUnder, RefusesBeside, StartsIn, asked_start};

use crate::error::PipelineError;
use crate::host_attribute::{HostAttribute, attributes_of};
use crate::host_headers::HostHeaders;
use crate::pipeline_of::PipelineOf;
use opentelemetry::{KeyValue, Moment};
use otel_pipeline::trace::{KeepsBatches, Provides};
use otel_sampling::trace::{GivesIds, ShouldSample};

impl<P: KeepsBatches, S: ShouldSample, G: GivesIds> PipelineOf<P, S, G> {
    /// Puts attributes in the place of those that were gathered, and answers these.
    fn give(&mut self, attributes: &[HostAttribute<'_>]) -> Result<Vec<KeyValue>, PipelineError>
        ensures ok { IfOk result (λ gathered. (gathered.items ≡ self.old.gathered)
            × AreAttributesOf attributes.now self.new.gathered
            × (self.new ≡ record self.old { gathered = self.new.gathered })) }
        ensures err { OnErr result (self.new ≡ self.old) }
    {
        let mut given = attributes_of(self.alloc, attributes)?;
        self.swap_gathered(&mut given);
        Ok(given)
    }

    /// Starts a span as `start` does, with these attributes.
    pub fn start_with(
        &mut self,
        tracer: u64,
        parent: u64,
        kind: u32,
        name: &[u8],
        moment: Moment,
        attributes: &[HostAttribute<'_>],
    ) -> Result<u64, PipelineError>
        ensures ok { IfOk result (λ key. (asked : TheKinds) × IsKind kind asked
            × InPlaceOfGathered (AreAttributesOf attributes.now) (λ p q.
            StartsIn ⟦<PipelineOf<P, S, G> as Provides>⟧.calls (IsContextUnder p.spans parent) p
            (asked_start tracer asked moment.0 name.now) key q) self.old self.new) }
        ensures err { OnErr result
            (RefusesBeside ⟦<PipelineOf<P, S, G> as Provides>⟧.calls self.old self.new) }
    {
        let mut gathered = self.give(attributes)?;
        let started = self.start(tracer, parent, kind, name, moment);
        self.swap_gathered(&mut gathered);
        started
    }

    /// Starts a span as `start_remote` does, with these attributes.
    pub fn start_remote_with(
        &mut self,
        tracer: u64,
        headers: HostHeaders<'_>,
        kind: u32,
        name: &[u8],
        moment: Moment,
        attributes: &[HostAttribute<'_>],
    ) -> Result<u64, PipelineError>
        ensures ok { IfOk result (λ key. (asked : TheKinds) × IsKind kind asked
            × InPlaceOfGathered (AreAttributesOf attributes.now) (λ p q.
            StartsIn ⟦<PipelineOf<P, S, G> as Provides>⟧.calls (IsContextOf (plain_headers headers.entry)) p
            (asked_start tracer asked moment.0 name.now) key q) self.old self.new) }
        ensures err { OnErr result
            (RefusesBeside ⟦<PipelineOf<P, S, G> as Provides>⟧.calls self.old self.new) }
    {
        let mut gathered = self.give(attributes)?;
        let started = self.start_remote(tracer, headers, kind, name, moment);
        self.swap_gathered(&mut gathered);
        started
    }

    /// Sets these attributes.
    pub fn set_attributes_with(
        &mut self,
        span: u64,
        attributes: &[HostAttribute<'_>],
    ) -> Result<(), PipelineError>
        ensures ok { OnOk result (InPlaceOfGathered (AreAttributesOf attributes.now)
            (λ p q. EditsSpan (taken p) span (map set_attribute p.gathered) q) self.old self.new) }
        ensures err { OnErr result (Stays self.old self.new) }
    {
        let mut gathered = self.give(attributes)?;
        let set = self.set_attributes(span);
        self.swap_gathered(&mut gathered);
        set
    }

    /// Adds an event with these attributes.
    pub fn add_event_with(
        &mut self,
        span: u64,
        name: &[u8],
        moment: Moment,
        attributes: &[HostAttribute<'_>],
    ) -> Result<(), PipelineError>
        ensures ok { OnOk result (InPlaceOfGathered (AreAttributesOf attributes.now) (λ p q.
            EditsSpan (taken p) span (add_event (new_event name.now moment.0 p.gathered) ∷ []) q)
            self.old self.new) }
        ensures err { OnErr result (Stays self.old self.new) }
    {
        let mut gathered = self.give(attributes)?;
        let added = self.add_event(span, name, moment);
        self.swap_gathered(&mut gathered);
        added
    }

    /// Adds a link to another open span, with these attributes.
    pub fn add_link_with(
        &mut self,
        span: u64,
        linked: u64,
        attributes: &[HostAttribute<'_>],
    ) -> Result<(), PipelineError>
        ensures ok { OnOk result (InPlaceOfGathered (AreAttributesOf attributes.now)
            (λ p q. LinksTo p span linked q) self.old self.new) }
        ensures err { OnErr result (Stays self.old self.new) }
    {
        let mut gathered = self.give(attributes)?;
        let added = self.add_link(span, linked);
        self.swap_gathered(&mut gathered);
        added
    }

    /// Adds a link to the span of another process, with these attributes.
    pub fn add_remote_link_with(
        &mut self,
        span: u64,
        headers: HostHeaders<'_>,
        attributes: &[HostAttribute<'_>],
    ) -> Result<(), PipelineError>
        ensures ok { OnOk result (InPlaceOfGathered (AreAttributesOf attributes.now)
            (λ p q. LinksToRemote p span (plain_headers headers.entry) q) self.old self.new) }
        ensures err { OnErr result (Stays self.old self.new) }
    {
        let mut gathered = self.give(attributes)?;
        let added = self.add_remote_link(span, headers);
        self.swap_gathered(&mut gathered);
        added
    }
}
