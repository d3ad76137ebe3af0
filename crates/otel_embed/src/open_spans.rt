//! The open spans by their keys. A key is a number from 1 on, names one span, and is not used again.

ghost use Rattle.std.specs.Prelude.{◌≡◌, ◌<◌, [], IfErr, IfOk, IsOk, OnErr, OnOk, None, Some, length, vec_capacity};
ghost use Rattle.otel_embed.specs.Keys.{Closes, EditsAt, IsRefusedAt, OpenedSpan, SameSpans, span_at};
ghost use Rattle.otel_pipeline.specs.Ending.{EndIsInfallible, Ends};
ghost use Rattle.otel_embed.specs.Flows.{MayStart};
ghost use Rattle.otel_embed.specs.KeyedSpans.{StartsAt, StartsUnder};
ghost use Rattle.otel_pipeline.specs.StartRequest.{start_request};

use crate::changes_span::ChangesSpan;
use crate::error::PipelineError;
use crate::held_span::{HeldSpan, empty_block};
use crate::open_span::OpenSpan;
use opentelemetry::trace::SpanBuilder;
use opentelemetry::{Context, Moment};
use otel_pipeline::trace::{ProviderOf, SdkTracer, SpanProcessor};
use otel_sampling::trace::{GivesIds, ShouldSample};
use std::alloc::Global;
use std::collections::BTreeMap;
use std::collections::btree_map::Entry;
use std::marker::Model;

/// Spans by their keys.
#[derive(Drop)]
pub(crate) struct OpenSpans {
    spans: BTreeMap<u64, HeldSpan>,
    next_key: u64,
    alloc: Global,
}

impl Model for OpenSpans {
    ghost use Rattle.otel_embed.specs.Keys.{KeysAreNew, OpenedSpans};

    ghost Value = { OpenedSpans };

    ghost view = { λ a. record { entries = a.spans.entries; next_key = a.next_key } };

    ghost invariant = { λ a. KeysAreNew (record { entries = a.spans.entries; next_key = a.next_key }) };
}

impl OpenSpans {
    pub(crate) fn new(alloc: Global) -> OpenSpans
        ensures { result ≡ record { entries = []; next_key = 1 } }
    {
        OpenSpans {
            spans: BTreeMap::new(alloc),
            next_key: 1,
            alloc,
        }
    }

    /// Gives spans of which none is open the keys that come after those of others.
    pub(crate) fn go_on_after(&mut self, others: &OpenSpans)
        ensures { self.new ≡ record { entries = []; next_key = others.now.next_key } }
    {
        self.spans.clear();
        self.next_key = others.next_key;
    }

    /// How many spans are open.
    pub(crate) fn len(&self) -> usize
        ensures { result ≡ length self.now.entries }
    {
        self.spans.len()
    }

    /// The span of a key.
    pub(crate) fn get(&self, key: u64) -> Result<&OpenSpan, PipelineError>
        ensures { IfOk result (λ found. span_at self.now key ≡ Some found.now) }
    {
        match self.spans.get(&key) {
            Some(found) => Ok(found.get()),
            None => Err(PipelineError::NoSuchSpan),
        }
    }

    /// Starts a span in a context, and answers its key. The place of the key comes first, so that a start that is
    /// refused has asked no processor.
    pub(crate) fn start<P: SpanProcessor, S: ShouldSample, G: GivesIds>(
        &mut self,
        builder: SpanBuilder,
        cx: Context,
        tracer: &SdkTracer,
        provider: &mut ProviderOf<P, S, G>,
        now: Moment,
    ) -> Result<u64, PipelineError>
        ensures ok { IfOk result (λ key. StartsAt P.SpanProcessor S.ShouldSample G.GivesIds provider.old self.old
            (start_request tracer.now builder cx now.0) key provider.new self.new) }
        ensures asks { OnErr result (MayStart S.ShouldSample G.GivesIds provider.old
            (start_request tracer.now builder cx now.0) provider.new) }
        ensures err { OnErr result (SameSpans self.old self.new) }
    {
        let key = self.next_key;
        let Some(next_key) = key.checked_add(1) else {
            drop(builder);
            drop(cx);
            return Err(PipelineError::OutOfMemory);
        };
        let block = match empty_block(self.alloc) {
            Ok(block) => block,
            Err(error) => {
                drop(builder);
                drop(cx);
                return Err(PipelineError::from(error));
            }
        };
        start_under(
            &mut self.spans,
            key,
            block,
            builder,
            cx,
            tracer,
            provider,
            now,
        )?;
        self.next_key = next_key;
        Ok(key)
    }

    /// Changes the span of a key.
    pub(crate) fn change<E: ChangesSpan>(
        &mut self,
        key: u64,
        change: E,
    ) -> Result<(), PipelineError>
        ensures ok { OnOk result (EditsAt self.old key (E.edits change) self.new) }
        ensures err { OnErr result (SameSpans self.old self.new) }
        ensures why { IfErr result (IsRefusedAt self.old key) }
        ensures free { (found : OpenedSpan) → span_at self.old key ≡ Some found → E.needs_none change found.span
            → IsOk result }
    {
        let Some(found) = self.spans.get_mut(&key) else {
            return Err(PipelineError::NoSuchSpan);
        };
        found.change(change)?;
        Ok(())
    }

    /// Ends the span of a key, which names none from then on. The answer is how many processors refused it.
    pub(crate) fn end<P: SpanProcessor, S: Drop, G: Drop>(
        &mut self,
        key: u64,
        provider: &mut ProviderOf<P, S, G>,
        moment: Moment,
    ) -> Result<usize, PipelineError>
        ensures ok { IfOk result (λ refused. (found : OpenedSpan)
            × Ends P.SpanProcessor provider.old found.span moment.0 refused provider.new
            × Closes self.old key found self.new) }
        ensures err { OnErr result (SameSpans self.old self.new × (provider.new ≡ provider.old)) }
        ensures why { IfErr result (IsRefusedAt self.old key) }
        ensures free { (found : OpenedSpan) → span_at self.old key ≡ Some found
            → EndIsInfallible found.span provider.old → IsOk result }
    {
        let Some(found) = self.spans.get_mut(&key) else {
            return Err(PipelineError::NoSuchSpan);
        };
        let refused = found.end(provider, moment)?;
        let _ended = self.spans.remove(&key);
        Ok(refused)
    }

    /// Abandons the span of a key: nothing is delivered.
    pub(crate) fn abandon(&mut self, key: u64) -> Result<(), PipelineError>
        ensures ok { OnOk result ((found : _) × Closes self.old key found self.new) }
        ensures err { OnErr result (SameSpans self.old self.new) }
        ensures why { IfErr result (λ error. (error ≡ PipelineError.NoSuchSpan) × (span_at self.old key ≡ None)) }
    {
        match self.spans.remove(&key) {
            Some(_abandoned) => Ok(()),
            None => Err(PipelineError::NoSuchSpan),
        }
    }
}

/// Starts a span under a key that is free, in a context, and puts it into a block.
fn start_under<P: SpanProcessor, S: ShouldSample, G: GivesIds>(
    spans: &mut BTreeMap<u64, HeldSpan>,
    key: u64,
    block: Vec<OpenSpan>,
    builder: SpanBuilder,
    cx: Context,
    tracer: &SdkTracer,
    provider: &mut ProviderOf<P, S, G>,
    now: Moment,
) -> Result<(), PipelineError>
    requires empty { block.items ≡ [] }
    requires room { 0 < vec_capacity block }
    ensures ok { OnOk result (StartsUnder P.SpanProcessor S.ShouldSample G.GivesIds provider.old
        (record { entries = spans.old.entries; next_key = key }) (start_request tracer.now builder cx now.0) key
        provider.new (record { entries = spans.new.entries; next_key = key })) }
    ensures asks { OnErr result (MayStart S.ShouldSample G.GivesIds provider.old
        (start_request tracer.now builder cx now.0) provider.new) }
    ensures err { OnErr result (SameSpans (record { entries = spans.old.entries; next_key = key })
        (record { entries = spans.new.entries; next_key = key })) }
{
    let entry = match spans.entry(key) {
        Ok(entry) => entry,
        Err(error) => {
            drop(builder);
            drop(cx);
            return Err(PipelineError::from(error));
        }
    };
    match entry {
        Entry::Vacant(place) => match tracer.build_with_context(builder, &cx, provider, now) {
            Ok(span) => {
                place.insert(HeldSpan::within(block, OpenSpan { span, cx }));
                Ok(())
            }
            Err(error) => {
                drop(cx);
                // Its refusal leaves the map as it was.
                Entry::Vacant(place).or_try_insert_with(|| Err(error))?;
                unreachable!()
            }
        },
        Entry::Occupied(taken) => {
            drop(builder);
            drop(cx);
            // The span that is there stays.
            let _there = taken.into_mut();
            Err(PipelineError::OutOfMemory)
        }
    }
}
