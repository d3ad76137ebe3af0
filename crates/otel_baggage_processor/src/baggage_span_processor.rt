//! A processor that sets entries of a context's baggage as attributes of each span that starts there, so that whoever
//! sees the span sees what was handed on. It is asked before those that export.

ghost use Rattle.std.specs.Prelude.{◌≡◌, OnErr, OnOk};
ghost use Rattle.otel_pipeline.specs.SpanHistory.{IsEdited, edited};
ghost use Rattle.otel_baggage_processor.specs.BaggageEdits.{MakesBeginning, SetsOrCounts, baggage_edits, entry_edit};

use crate::key_filter::KeyFilter;
use opentelemetry::baggage::Baggage;
use opentelemetry::{Context, Key, KeyValue, Value};
use otel_export::error::OTelSdkResult;
use otel_export::trace::SpanData;
use otel_pipeline::trace::{CountsLeftSpans, Span, SpanProcessor};
use otel_resource::resource::Resource;
use std::alloc::{AllocError, Global};
use std::marker::Model;
use std::time::Duration;

/// Sets the entries whose keys its filter takes, as texts and in the baggage's order. Where an entry finds no memory,
/// it and those after it are left out and counted.
#[derive(Drop)]
pub struct BaggageSpanProcessor<K> {
    keys: K,
    left_out: u64,
    alloc: Global,
}

impl<K> Model for BaggageSpanProcessor<K> {
    ghost use Rattle.otel_baggage_processor.specs.BaggageEdits.{BaggageProcessor};

    ghost Value = { BaggageProcessor K };

    ghost view = { λ a. record { keys = a.keys; left_out = a.left_out } };
}

impl<K> BaggageSpanProcessor<K> {
    /// A processor that copies the entries of these names from baggage to the attributes of each span that starts.
    pub fn new(alloc: Global, keys: K) -> BaggageSpanProcessor<K>
        ensures { result ≡ record { keys = keys; left_out = 0 } }
    {
        BaggageSpanProcessor {
            keys,
            left_out: 0,
            alloc,
        }
    }

    /// How many entries were left out when memory runs out. It stops at the greatest `u64`.
    pub fn left_out(&self) -> u64
        ensures { result ≡ self.now.left_out }
    {
        self.left_out
    }
}

/// Sets the entries that are taken. The answer is how many were left out, up to the greatest `u64`.
fn set_taken<K: KeyFilter>(alloc: Global, keys: &K, span: &mut Span, baggage: &Baggage) -> u64
    ensures { MakesBeginning (baggage_edits (K.takes keys.now) baggage.now) span.old span.new result }
{
    let mut left_out = 0;
    'entries: for (key, (value, _)) in baggage.iter() {
        if keys.takes(key) {
            left_out = set_or_count(alloc, span, key, value, left_out);
        }
    }
    left_out
}

/// Sets an entry, unless one was left out before. The answer is how many are left out now.
fn set_or_count(alloc: Global, span: &mut Span, key: &str, value: &str, left_out: u64) -> u64
    ensures { SetsOrCounts (entry_edit key.now value.now) left_out span.old span.new result }
{
    if left_out == 0 && set_entry(alloc, span, key, value).is_ok() {
        return 0;
    }
    left_out.saturating_add(1)
}

fn set_entry(alloc: Global, span: &mut Span, key: &str, value: &str) -> Result<(), AllocError>
    ensures ok { OnOk result (span.new ≡ edited (entry_edit key.now value.now) span.old) }
    ensures err { OnErr result (span.new ≡ span.old) }
{
    let key = Key::new(String::from_str(alloc, key)?);
    let value = Value::String(String::from_str(alloc, value)?);
    span.set_attribute(KeyValue::new(key, value))
}

impl<K: KeyFilter> SpanProcessor for BaggageSpanProcessor<K> {
    ghost use Rattle.std.specs.Prelude.{◌≡◌, Ok, true};
    ghost use Rattle.otel_pipeline.specs.ProcessorTelling.{silent};
    ghost use Rattle.otel_baggage_processor.specs.BaggageEdits.{SetsBaggage};

    ghost told = { λ _. record silent { takes_all = true } };

    ghost start_gives = { SetsBaggage K.takes };

    ghost end_gives = { λ p _ answer q. (answer ≡ Ok tt) × (q ≡ p) };

    ghost flush_gives = { λ p answer q. (answer ≡ Ok tt) × (q ≡ p) };

    ghost shutdown_gives = { λ p _ answer q. (answer ≡ Ok tt) × (q ≡ p) };

    ghost resource_gives = { λ p _ answer q. (answer ≡ Ok tt) × (q ≡ p) };

    fn on_start(&mut self, span: &mut Span, cx: &Context) {
        let left_out = set_taken(self.alloc, &self.keys, span, cx.baggage());
        self.left_out = self.left_out.saturating_add(left_out);
    }

    fn on_end(&mut self, _span: SpanData) -> Result<(), AllocError> {
        Ok(())
    }

    fn force_flush(&mut self) -> OTelSdkResult {
        Ok(())
    }

    fn shutdown_with_timeout(&mut self, _timeout: Duration) -> OTelSdkResult {
        Ok(())
    }

    fn set_resource(&mut self, _resource: &Resource) -> Result<(), AllocError> {
        Ok(())
    }
}

impl<K: KeyFilter> CountsLeftSpans for BaggageSpanProcessor<K> {
    ghost use Rattle.std.specs.Prelude.{false, true, refl};
    ghost use Rattle.otel_pipeline.specs.LeftSpans.{none_left};

    ghost leaves_told = { λ _. true };

    ghost tells_left = { λ _. none_left false };

    ghost tells_dropped = { λ _. refl };

    /// It has no queue.
    fn stranded(&self) -> Option<usize> {
        None
    }

    fn left_open(&self) -> usize {
        0
    }

    fn dropped_count(&self) -> u64 {
        0
    }

    fn failed_exports(&self) -> u64 {
        0
    }
}
