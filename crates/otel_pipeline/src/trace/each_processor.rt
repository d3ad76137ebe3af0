//! What a provider asks of its processors one after another, and what it counts over them.

ghost use Rattle.std.specs.Prelude.{◌≡◌, ◌-◌, ◌≤◌, length, map, replicate, vec_len, IfOk, IsOk, sum_by, unwrap_or};
ghost use Rattle.std.specs.Duration.{as_nanos};
ghost use Rattle.otel_export.specs.PlainSpanData.{PlainSpanData};
ghost use Rattle.otel_pipeline.specs.Each.{AsksAll, AsksFirst};
ghost use Rattle.otel_pipeline.specs.Ending.{TakesAndTells};
ghost use Rattle.otel_pipeline.specs.Provider.{FlushesProcessor, RunsProcessor, ShutsProcessor};
ghost use Rattle.otel_pipeline.specs.Starting.{PassesThrough};
ghost use Rattle.otel_pipeline.specs.SpanHistory.{IsEdited, ended_at};

use crate::trace::{CountsLeftSpans, Span, SpanBlock, SpanProcessor, Timed};
use opentelemetry::{Context, Moment};
use otel_export::error::OTelSdkResult;
use otel_export::trace::SpanData;
use std::alloc::{AllocError, Global};
use std::time::Duration;

/// So many copies of what a span recorded, which ended at this moment.
pub(crate) fn copies_of(
    alloc: Global,
    recorded: &SpanData,
    timestamp: Moment,
    count: usize,
) -> Result<Vec<SpanData>, AllocError>
    ensures copies { IfOk result (λ copies. copies.items ≡ replicate count (ended_at timestamp.0 recorded.now)) }
    ensures none { count ≡ 0 → IsOk result }
{
    let mut copies = Vec::new(alloc);
    copies.reserve(count)?;
    for _i in 0..count {
        let mut copy = recorded.clone()?;
        copy.end_time = timestamp;
        copies.push(copy)?;
    }
    Ok(copies)
}

/// Each is told that a span has started, and may edit it.
pub(crate) fn start_each<P: SpanProcessor>(processors: &mut [P], span: &mut Span, cx: &Context)
    ensures edits { IsEdited span.old span.new }
    ensures told { map P.told processors.new ≡ map P.told processors.old }
    ensures gives { PassesThrough P.SpanProcessor cx.now span.old processors.old processors.new span.new }
{
    for processor in processors.iter_mut() {
        processor.on_start(span, cx);
    }
}

/// Each but the last gets a copy of what an ended span recorded, the last one the original in its block. The answer is
/// how many refused.
pub(crate) fn end_each<P: SpanProcessor>(
    processors: &mut [P],
    copies: Vec<SpanData>,
    original: SpanBlock,
) -> usize
    requires { copies.items ≡ replicate (length processors.old - 1) original }
    ensures { AsksAll (TakesAndTells P.SpanProcessor original) processors.old processors.new result }
{
    let Some(last) = processors.len().checked_sub(1) else {
        return 0;
    };
    let refused = end_copies(&mut processors[..last], copies);
    match processors[last].on_end_block(original) {
        Ok(()) => refused,
        Err(_) => refused + 1,
    }
}

/// Each of these processors gets a copy, also after one refused. The answer is how many refused.
fn end_copies<P: SpanProcessor>(processors: &mut [P], mut copies: Vec<SpanData>) -> usize
    requires { vec_len copies ≡ length processors.old }
    ensures asked { (d : PlainSpanData) → copies.items ≡ replicate (length processors.old) d
        → AsksAll (TakesAndTells P.SpanProcessor d) processors.old processors.new result }
    ensures few { result ≤ length processors.old }
{
    let mut refused = 0;
    for processor in processors.iter_mut() {
        let copy = copies.pop().unwrap();
        if processor.on_end(copy).is_err() {
            refused += 1;
        }
    }
    refused
}

/// Each is asked to flush, also after one failed. The answer is the error of the first one that failed.
pub(crate) fn flush_each<P: SpanProcessor>(processors: &mut [P]) -> OTelSdkResult
    ensures { AsksFirst (FlushesProcessor P.SpanProcessor) processors.old processors.new result }
{
    let mut answer = Ok(());
    for processor in processors.iter_mut() {
        let flushed = processor.force_flush();
        answer = answer.and(flushed);
    }
    answer
}

/// Each is told the time, also after one failed. The answer is how many failed.
pub(crate) fn run_each<P: Timed>(processors: &mut [P], now: Moment) -> usize
    ensures { AsksAll (RunsProcessor P.SpanProcessor P.Timed.own now.0) processors.old processors.new result }
{
    let mut failed = 0;
    for processor in processors.iter_mut() {
        if processor.drain_due(now).is_err() {
            failed += 1;
        }
    }
    failed
}

/// Each is shut down, also after one failed. The answer is how many failed.
pub(crate) fn shutdown_each<P: SpanProcessor>(processors: &mut [P], timeout: Duration) -> usize
    ensures { AsksAll (ShutsProcessor P.SpanProcessor (as_nanos timeout)) processors.old processors.new result }
{
    let mut failed = 0;
    for processor in processors.iter_mut() {
        if processor.shutdown_with_timeout(timeout).is_err() {
            failed += 1;
        }
    }
    failed
}

/// How many spans those of these processors that closed left behind.
pub(crate) fn stranded_by<P: CountsLeftSpans>(processors: &[P]) -> u128
    ensures { result ≡ sum_by (λ p. unwrap_or (P.CountsLeftSpans.closed_over p) 0) processors.now }
{
    let mut count = 0;
    for processor in processors {
        let stranded = processor.stranded();
        count += stranded.unwrap_or(0) as u128;
    }
    count
}

/// How many spans wait in those of these processors that are open.
pub(crate) fn left_open_by<P: CountsLeftSpans>(processors: &[P]) -> u128
    ensures { result ≡ sum_by P.CountsLeftSpans.open_over processors.now }
{
    let mut count = 0;
    for processor in processors {
        count += processor.left_open() as u128;
    }
    count
}

/// How many spans these processors dropped.
pub(crate) fn dropped_by<P: CountsLeftSpans>(processors: &[P]) -> u128
    ensures { result ≡ sum_by P.CountsLeftSpans.dropped_over processors.now }
{
    let mut count = 0;
    for processor in processors {
        count += processor.dropped_count() as u128;
    }
    count
}

/// How many exports at ends of spans failed in these processors.
pub(crate) fn failed_by<P: CountsLeftSpans>(processors: &[P]) -> u128
    ensures { result ≡ sum_by P.CountsLeftSpans.failed_over processors.now }
{
    let mut count = 0;
    for processor in processors {
        count += processor.failed_exports() as u128;
    }
    count
}
