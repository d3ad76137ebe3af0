//! The first processor of a provider: the batches that its exporter keeps are what a session's replies show, and what
//! becomes the lines of a pipeline in memory.

ghost use Rattle.std.specs.Prelude.{◌≡◌, map};
ghost use Rattle.otel_pipeline.specs.FirstProcessor.{TakesShown, batches_of_first, losses_of_first, stored_of_first};

use crate::trace::{KeepsBatches, ProviderOf};
use otel_export::trace::SpanData;
use std::alloc::Global;

/// The batches that the first of these processors keeps.
pub fn kept_by_first<P: KeepsBatches>(processors: &[P]) -> &[Vec<SpanData>]
    ensures { map (λ batch. batch.items) result.now ≡ batches_of_first P.KeepsBatches.own processors.now }
{
    match processors.first() {
        Some(first) => first.batches(),
        None => &[],
    }
}

/// How many batches of the first of these processors found no memory or no room.
pub fn lost_by_first<P: KeepsBatches>(processors: &[P]) -> u64
    ensures { result ≡ losses_of_first P.KeepsBatches.own processors.now }
{
    match processors.first() {
        Some(first) => first.lost_batches(),
        None => 0,
    }
}

/// How many spans these batches had.
pub fn spans_lost_by_first<P: KeepsBatches>(processors: &[P]) -> u64
    ensures { result ≡ (stored_of_first P.KeepsBatches.own processors.now).lost_spans }
{
    match processors.first() {
        Some(first) => first.lost_spans(),
        None => 0,
    }
}

/// Hands out the batches that the first processor keeps. All else is as it was.
pub fn take_of_first<P: KeepsBatches, S, G>(
    alloc: Global,
    provider: &mut ProviderOf<P, S, G>,
) -> Vec<Vec<SpanData>>
    ensures taken { map (λ batch. batch.items) result.items
        ≡ batches_of_first P.KeepsBatches.own provider.old.processors }
    ensures takes { TakesShown P.SpanProcessor P.CountsLeftSpans.own P.KeepsBatches.own provider.old provider.new }
{
    match provider.first_processor_mut() {
        Some(first) => first.take_batches(alloc),
        None => Vec::new(alloc),
    }
}
