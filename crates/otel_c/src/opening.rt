//! A pipeline's beginning and end.

ghost use Rattle.std.specs.Prelude.{◌≡◌, ◌≢◌, ◌↔◌, ◌⊎◌, None, false, string_bytes, true};
ghost use Rattle.otel_c.specs.Handles.{Answers, CopiesText, Holds, Turns};
ghost use Rattle.otel_embed.specs.HostValues.{host_scope};
ghost use Rattle.otel_embed.specs.Opening.{GoesOn, OpensBy};
ghost use Rattle.otel_embed.specs.SettingLines.{settings_of};
ghost use Rattle.otel_embed.specs.Pipelines.{AddsTracer};

use crate::handle::Handle;
use crate::status::{
    OTEL_ALREADY_OPEN, OTEL_CLOSED, OTEL_OK, OTEL_OUT_OF_MEMORY, status_of, status_of_result,
    write_number, write_text,
};
use otel_embed::Pipeline;
use otel_embed::pipeline::HostProcessor;
use otel_pipeline::trace::SpanProcessor;
use std::alloc::Global;

/// Opens a pipeline by settings, which are lines NAME=VALUE. The seed decides all ids. `OTEL_ALREADY_OPEN` where the
/// handle is open, `OTEL_NOT_UTF8` where the settings are not UTF-8.
#[unsafe(no_mangle)]
pub extern "C" fn otel_open(alloc: Global, handle: &mut Handle, settings: &[u8], seed: u64) -> u32
    ensures ok { result ≡ 0 → (handle.old.held.pipeline ≡ None) × Holds (λ p. OpensBy
        ⟦<HostProcessor as SpanProcessor>⟧ settings.now seed p.inside (string_bytes p.ignored))
        handle.new.held.pipeline }
    ensures settings { result ≡ 0 → Holds (λ p. p.settings ≡ settings_of settings.now) handle.new.held.pipeline }
    ensures refused { result ≢ 0 → handle.new.held.pipeline ≡ handle.old.held.pipeline }
{
    if handle.is_open {
        return OTEL_ALREADY_OPEN;
    }
    let pipeline = match Pipeline::open(alloc, settings, seed) {
        Ok(pipeline) => pipeline,
        Err(error) => return status_of(error),
    };
    match Box::new(alloc, pipeline) {
        Ok(pipeline) => {
            handle.put(alloc, pipeline);
            OTEL_OK
        }
        Err(_) => OTEL_OUT_OF_MEMORY,
    }
}

/// Writes the names of the settings that were ignored, each with a line feed after it.
#[unsafe(no_mangle)]
pub extern "C" fn otel_ignored_settings(
    alloc: Global,
    handle: &mut Handle,
    buffer: &mut [u8],
    text_length: &mut usize,
) -> u32
    ensures ok { (result ≡ 0) ⊎ (result ≡ 8) → Holds (λ p.
        CopiesText (string_bytes p.ignored) buffer.old result text_length.new buffer.new) handle.old.held.pipeline }
    ensures stays { handle.new.held.pipeline ≡ handle.old.held.pipeline }
    ensures refused { result ≢ 0 → buffer.new ≡ buffer.old }
{
    let Some(pipeline) = handle.take(alloc) else {
        return OTEL_CLOSED;
    };
    let status = write_text(pipeline.ignored_settings(), buffer, text_length);
    handle.put(alloc, pipeline);
    status
}

/// Makes a tracer for a library. An empty version or schema URL is none.
#[unsafe(no_mangle)]
pub extern "C" fn otel_tracer(
    alloc: Global,
    handle: &mut Handle,
    name: &[u8],
    version: &[u8],
    schema_url: &[u8],
    tracer: &mut u64,
) -> u32
    ensures ok { result ≡ 0 → Turns (λ p q. AddsTracer p.inside (host_scope name.now version.now schema_url.now)
        tracer.new q.inside) handle.old.held.pipeline handle.new.held.pipeline }
    ensures stays { result ≢ 0 → handle.new.held.pipeline ≡ handle.old.held.pipeline }
    ensures refused { result ≢ 0 → tracer.new ≡ tracer.old }
{
    let Some(mut pipeline) = handle.take(alloc) else {
        return OTEL_CLOSED;
    };
    let made = pipeline.inside.tracer(name, version, schema_url);
    handle.put(alloc, pipeline);
    write_number(made, tracer)
}

/// Goes on in the child of a fork, whose parent has what is open, waits or was exported: as a pipeline that was opened
/// with the same settings and this seed, with the same tracers, and with keys that were not used.
#[unsafe(no_mangle)]
pub extern "C" fn otel_after_fork(alloc: Global, handle: &mut Handle, seed: u64) -> u32
    ensures { Answers result (λ p q. GoesOn ⟦<HostProcessor as SpanProcessor>⟧ p.settings seed p.inside q.inside
        × (q.settings ≡ p.settings) × (q.ignored ≡ p.ignored)) (λ p q. q ≡ p)
        handle.old.held.pipeline handle.new.held.pipeline }
{
    let Some(mut pipeline) = handle.take(alloc) else {
        return OTEL_CLOSED;
    };
    let gone_on = pipeline.go_on(alloc, seed);
    handle.put(alloc, pipeline);
    status_of_result(gone_on)
}

/// Lets go of all that the handle owns; it may be opened again.
#[unsafe(no_mangle)]
pub extern "C" fn otel_close(alloc: Global, handle: &mut Handle) -> u32
    ensures closed { handle.new.held.pipeline ≡ None }
    ensures ok { (result ≡ 0) ↔ (handle.old.is_open ≡ true) }
{
    match handle.take(alloc) {
        Some(_pipeline) => OTEL_OK,
        None => OTEL_CLOSED,
    }
}
