//! How many spans of a pipeline are where.

ghost use Rattle.std.specs.Prelude.{◌≡◌, IfOk, length, map, slice_get, sum_by};
ghost use Rattle.otel_embed.specs.Drains.{capped};
ghost use Rattle.std.specs.Option.{option_map_or};

use otel_export::trace::SpanData;
use otel_pipeline::trace::CountsLeftSpans;
use std::alloc::{AllocError, Global};

/// How many spans are where. What was dropped, refused or lost is counted from the beginning on.
#[derive(Clone, Copy, Debug, Default, PartialEq, Eq)]
pub struct Numbers {
    /// Started, and neither ended nor abandoned.
    pub open_spans: u64,
    /// Ended, and in the queue.
    pub waiting_spans: u64,
    /// Ended, and dropped since the queue was full.
    pub dropped_spans: u64,
    /// Ended, and refused by the processor when memory ran out.
    pub refused_spans: u64,
    /// Batches that were exported, and not kept: memory or room ran out.
    pub lost_batches: u64,
    /// The spans of these batches.
    pub lost_spans: u64,
    /// Exported and kept, and not handed out yet.
    pub undrained_spans: u64,
    /// What the lines take that were made and not handed out yet.
    pub undrained_bytes: u64,
}

/// How many spans wait in the first of these processors.
pub(crate) fn waiting_in<P: CountsLeftSpans>(processors: &[P]) -> u64
    ensures { result ≡ option_map_or P.open_over (slice_get processors.now 0) 0 }
{
    match processors.first() {
        Some(first) => first.left_open() as u64,
        None => 0,
    }
}

/// How many spans the first of these processors dropped.
pub(crate) fn dropped_in<P: CountsLeftSpans>(processors: &[P]) -> u64
    ensures { result ≡ option_map_or P.dropped_over (slice_get processors.now 0) 0 }
{
    match processors.first() {
        Some(first) => first.dropped_count(),
        None => 0,
    }
}

/// How many spans are in these batches. It stops at the greatest `u64`.
pub(crate) fn spans_in(batches: &[Vec<SpanData>]) -> u64
    ensures { result ≡ capped (sum_by length (map (λ batch. batch.items) batches.now)) }
{
    let mut count: u64 = 0;
    for batch in batches {
        count = count.saturating_add(batch.len() as u64);
    }
    count
}

/// How many spans each of these batches has.
pub(crate) fn sizes_of(alloc: Global, batches: &[Vec<SpanData>]) -> Result<Vec<u64>, AllocError>
    ensures { IfOk result (λ sizes. sizes.items ≡ map length (map (λ batch. batch.items) batches.now)) }
{
    let mut sizes = Vec::with_capacity(alloc, batches.len())?;
    for batch in batches {
        sizes.push(batch.len() as u64)?;
    }
    Ok(sizes)
}
