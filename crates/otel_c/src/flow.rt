//! What becomes of ended spans, and how many are where.

ghost use Rattle.std.specs.Prelude.{◌≡◌, ◌≢◌, ◌≤◌, ◌<◌, ◌⊎◌, IfOk, OnErr, length};
ghost use Rattle.otel_c.specs.Handles.{FlowsIfOpen, Holds, SaysWhetherFits, ShowsNumbers, Turns, TurnsIfOpen};
ghost use Rattle.otel_embed.specs.Flows.{flushed, ran, shut};
ghost use Rattle.otel_embed.specs.Drains.{CountsIn, DrainsAll, DrainsSome, FlowsBy};
ghost use Rattle.otel_embed.specs.declared.numbers.Numbers.{Numbers as TheNumbers};

use crate::handle::Handle;
use crate::status::{
    OTEL_BAD_ARGUMENT, OTEL_BUFFER_TOO_SMALL, OTEL_CLOSED, OTEL_OK, status_of, status_of_result,
};
use opentelemetry::Moment;
use otel_embed::pipeline::HostInside;
use otel_embed::{Numbers, PipelineError};
use otel_pipeline::trace::Provides;
use std::alloc::Global;
use std::mem::size_of;

/// How many spans are where, for C.
#[repr(C)]
#[derive(Clone, Copy)]
pub struct Counts {
    pub open_spans: u64,
    pub waiting_spans: u64,
    pub dropped_spans: u64,
    pub refused_spans: u64,
    pub lost_batches: u64,
    pub lost_spans: u64,
    pub undrained_spans: u64,
    pub undrained_bytes: u64,
}

fn counts_of(numbers: Numbers) -> Counts
    ensures { ShowsNumbers numbers result }
{
    Counts {
        open_spans: numbers.open_spans,
        waiting_spans: numbers.waiting_spans,
        dropped_spans: numbers.dropped_spans,
        refused_spans: numbers.refused_spans,
        lost_batches: numbers.lost_batches,
        lost_spans: numbers.lost_spans,
        undrained_spans: numbers.undrained_spans,
        undrained_bytes: numbers.undrained_bytes,
    }
}

/// Exports what waits in the queue, into the lines that `otel_drain` hands out.
#[unsafe(no_mangle)]
pub extern "C" fn otel_flush(alloc: Global, handle: &mut Handle) -> u32
    ensures { FlowsIfOpen result
        (λ done p q. FlowsBy ⟦<HostInside as Provides>⟧.calls flushed done p.inside q.inside)
        handle.old.held.pipeline handle.new.held.pipeline }
{
    let Some(mut pipeline) = handle.take(alloc) else {
        return OTEL_CLOSED;
    };
    let flushed = pipeline.inside.flush();
    handle.put(alloc, pipeline);
    status_of_result(flushed)
}

/// Exports what is due at this moment, which is not before that of an earlier call.
#[unsafe(no_mangle)]
pub extern "C" fn otel_run(alloc: Global, handle: &mut Handle, moment: u64) -> u32
    ensures { FlowsIfOpen result
        (λ done p q. FlowsBy ⟦<HostInside as Provides>⟧.calls (ran moment) done p.inside q.inside)
        handle.old.held.pipeline handle.new.held.pipeline }
{
    let Some(mut pipeline) = handle.take(alloc) else {
        return OTEL_CLOSED;
    };
    let ran = pipeline.inside.run_due(Moment(moment));
    handle.put(alloc, pipeline);
    status_of_result(ran)
}

/// Says what a drain answered, whose count is that of bytes.
fn drained(answer: Result<usize, PipelineError>, buffer: &[u8], lines_length: &mut usize) -> u32
    ensures ok { IfOk answer (λ count. (lines_length.new ≡ count)
        × (count ≤ length buffer.now → result ≡ 0) × (length buffer.now < count → result ≡ 8)) }
    ensures err { OnErr answer ((result ≢ 0) × (result ≢ 8) × (lines_length.new ≡ lines_length.old)) }
{
    match answer {
        Ok(count) => {
            *lines_length = count;
            if count > buffer.len() {
                OTEL_BUFFER_TOO_SMALL
            } else {
                OTEL_OK
            }
        }
        Err(error) => status_of(error),
    }
}

/// Hands out what was exported, whole lines of OTLP JSON, and forgets it. `OTEL_BUFFER_TOO_SMALL` where the buffer has
/// no room for all: then nothing is forgotten, the length is what they take, and the next call hands out the same.
#[unsafe(no_mangle)]
pub extern "C" fn otel_drain(
    alloc: Global,
    handle: &mut Handle,
    buffer: &mut [u8],
    lines_length: &mut usize,
) -> u32
    ensures ok { (result ≡ 0) ⊎ (result ≡ 8) → Turns (λ p q. DrainsAll ⟦<HostInside as Provides>⟧.calls
        p.inside buffer.old lines_length.new buffer.new q.inside)
        handle.old.held.pipeline handle.new.held.pipeline }
    ensures fits { SaysWhetherFits result (length buffer.old) lines_length.new }
    ensures stays { result ≢ 0 → result ≢ 8 → TurnsIfOpen (λ p q. q.inside ≡ p.inside)
        handle.old.held.pipeline handle.new.held.pipeline × (buffer.new ≡ buffer.old)
        × (lines_length.new ≡ lines_length.old) }
{
    let Some(mut pipeline) = handle.take(alloc) else {
        return OTEL_CLOSED;
    };
    let answer = pipeline.inside.drain(buffer);
    handle.put(alloc, pipeline);
    drained(answer, buffer, lines_length)
}

/// Hands out as many lines as the buffer has room for, the oldest first. `OTEL_BUFFER_TOO_SMALL` where it has none for
/// the first: then nothing is forgotten, and the length is what that takes.
#[unsafe(no_mangle)]
pub extern "C" fn otel_drain_some(
    alloc: Global,
    handle: &mut Handle,
    buffer: &mut [u8],
    lines_length: &mut usize,
) -> u32
    ensures ok { (result ≡ 0) ⊎ (result ≡ 8) → Turns (λ p q. DrainsSome ⟦<HostInside as Provides>⟧.calls
        p.inside buffer.old lines_length.new buffer.new q.inside)
        handle.old.held.pipeline handle.new.held.pipeline }
    ensures fits { SaysWhetherFits result (length buffer.old) lines_length.new }
    ensures stays { result ≢ 0 → result ≢ 8 → TurnsIfOpen (λ p q. q.inside ≡ p.inside)
        handle.old.held.pipeline handle.new.held.pipeline × (buffer.new ≡ buffer.old)
        × (lines_length.new ≡ lines_length.old) }
{
    let Some(mut pipeline) = handle.take(alloc) else {
        return OTEL_CLOSED;
    };
    let answer = pipeline.inside.drain_some(buffer);
    handle.put(alloc, pipeline);
    drained(answer, buffer, lines_length)
}

/// Says how many spans are where, from the opening on. `OTEL_BAD_ARGUMENT` where the caller's numbers are of another
/// size, as of another version.
#[unsafe(no_mangle)]
pub extern "C" fn otel_count(
    alloc: Global,
    handle: &mut Handle,
    numbers: &mut Counts,
    numbers_size: usize,
) -> u32
    ensures ok { result ≡ 0 → Holds (λ p. (counted : TheNumbers)
        × CountsIn ⟦<HostInside as Provides>⟧.calls p.inside counted × ShowsNumbers counted numbers.new)
        handle.old.held.pipeline }
    ensures bad { numbers_size ≢ 64 → (result ≡ 7) × (numbers.new ≡ numbers.old) }
    ensures stays { handle.new.held.pipeline ≡ handle.old.held.pipeline }
{
    if numbers_size != size_of::<Counts>() {
        return OTEL_BAD_ARGUMENT;
    }
    let Some(pipeline) = handle.take(alloc) else {
        return OTEL_CLOSED;
    };
    *numbers = counts_of(pipeline.inside.numbers());
    handle.put(alloc, pipeline);
    OTEL_OK
}

/// Exports what waits, and nothing afterwards. Lines can still be drained.
#[unsafe(no_mangle)]
pub extern "C" fn otel_shutdown(alloc: Global, handle: &mut Handle) -> u32
    ensures { FlowsIfOpen result
        (λ done p q. FlowsBy ⟦<HostInside as Provides>⟧.calls shut done p.inside q.inside)
        handle.old.held.pipeline handle.new.held.pipeline }
{
    let Some(mut pipeline) = handle.take(alloc) else {
        return OTEL_CLOSED;
    };
    let shut = pipeline.inside.shutdown();
    handle.put(alloc, pipeline);
    status_of_result(shut)
}
