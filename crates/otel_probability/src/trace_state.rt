//! The threshold and the randomness of a trace state (OpenTelemetry specification, "TraceState: Probability Sampling").
//! A `th` or an `rv` of another form than theirs is none.

ghost use Rattle.std.specs.Prelude.{◌≡◌, ◌∷◌, [], ◌<◌, true, false, string_bytes, IfOk, IfSome, IsOk, MatchOption};
ghost use Rattle.opentelemetry.specs.Tracestate.{is_value, without_key};
ghost use Rattle.otel_probability.specs.Entry.{entry_of, ot, randomness_in, rv_text, then_read, threshold_in};
ghost use Rattle.otel_probability.specs.Entry.{with_threshold, without_threshold};
ghost use Rattle.otel_probability.specs.Numbers.{every_number, randomness_of_text};

use crate::entry::{entry_with, entry_without, sub_value};
use crate::{Randomness, Threshold};
use opentelemetry::TraceId;
use opentelemetry::trace::{TraceState, TraceStateError};
use std::alloc::{AllocError, Global};

/// The threshold that a trace state has.
pub fn threshold_in(state: &TraceState) -> Option<Threshold>
    ensures value { result ≡ threshold_in state.now }
    ensures small { IfSome result (λ threshold. threshold < every_number) }
{
    Threshold::from_text(sub_value(entry_of(state), "th")?)
}

/// The randomness of a trace: that of `rv`, else that of the trace id.
pub fn randomness_in(state: &TraceState, trace_id: TraceId) -> Randomness
    ensures { result ≡ randomness_in state.now trace_id }
{
    match explicit_randomness(state) {
        Some(randomness) => randomness,
        None => Randomness::of_trace_id(trace_id),
    }
}

/// The randomness of `rv`.
fn explicit_randomness(state: &TraceState) -> Option<Randomness>
    ensures { result ≡ then_read (rv_text state.now) randomness_of_text }
{
    Randomness::from_text(sub_value(entry_of(state), "rv")?)
}

/// A copy with this threshold, its entry in front; without one where that keeps no span, or where the entry would be
/// longer than the 256 bytes of a value.
pub fn with_threshold(
    state: &TraceState,
    alloc: Global,
    threshold: Threshold,
) -> Result<TraceState, AllocError>
    ensures { IfOk result (λ new. new ≡ with_threshold threshold state.now) }
{
    if threshold.keeps_none() {
        return without_threshold(state, alloc);
    }
    let entry = entry_with(alloc, threshold, entry_of(state))?;
    match with_entry(state, alloc, entry)? {
        Some(new) => Ok(new),
        None => without_threshold(state, alloc),
    }
}

/// A copy without a threshold. Where it had none it shares all; that of the empty trace state takes no memory.
pub fn without_threshold(state: &TraceState, alloc: Global) -> Result<TraceState, AllocError>
    ensures value { IfOk result (λ new. new ≡ without_threshold state.now) }
    ensures free { state.now ≡ [] → IsOk result }
{
    let entry = entry_of(state);
    if sub_value(entry, "th").is_none() {
        return state.clone();
    }
    let others = entry_without(alloc, entry)?;
    if !others.is_empty() {
        if let Some(new) = with_entry(state, alloc, others)? {
            return Ok(new);
        }
    }
    without_entry(state, alloc)
}

/// The entry `ot`; the empty one where there is none.
fn entry_of(state: &TraceState) -> &str
    ensures { result.now ≡ entry_of state.now }
{
    match state.get("ot") {
        Some(entry) => entry,
        None => "",
    }
}

/// A copy with this entry in front; none where it is no value of a trace state.
fn with_entry(
    state: &TraceState,
    alloc: Global,
    entry: String,
) -> Result<Option<TraceState>, AllocError>
    ensures { IfOk result (λ answer. MatchOption answer
        (is_value (string_bytes entry) ≡ false)
        (λ new. (is_value (string_bytes entry) ≡ true)
        × (new ≡ (ot, string_bytes entry) ∷ without_key ot state.now))) }
{
    match state.insert(alloc, String::from_str(alloc, "ot")?, entry) {
        Ok(new) => Ok(Some(new)),
        Err(TraceStateError::Memory) => Err(AllocError),
        Err(_) => Ok(None),
    }
}

/// A copy without the entry.
fn without_entry(state: &TraceState, alloc: Global) -> Result<TraceState, AllocError>
    ensures { IfOk result (λ new. new ≡ without_key ot state.now) }
{
    match state.delete(alloc, "ot") {
        Ok(new) => Ok(new),
        Err(_) => Err(AllocError),
    }
}
