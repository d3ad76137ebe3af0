//! Each batch and each resource fits its types, which is what the laws of their JSON ask of them. Nothing needs to
//! call these functions: their contracts are laws of the value referred to. What is read shows its range.

ghost use Rattle.std.specs.Prelude.{◌^◌, ◌<◌, FitsSigned};
ghost use Rattle.std.specs.Int.{w64};
ghost use Rattle.std.specs.List.{AllByRecursion};
ghost use Rattle.opentelemetry.specs.PlainValues.{plain_array, plain_value};
ghost use Rattle.otel_otlp.specs.Fits.{AttributeFits, ContextFits, EventFits, FloatFits, LinkFits};
ghost use Rattle.otel_otlp.specs.Fits.{ResourceFits, SpanFits, ValueFits};

use opentelemetry::laws::span_contexts_fit;
use opentelemetry::trace::{Event, Link, SpanContext};
use opentelemetry::{Array, KeyValue, SpanId, TraceFlags, Value};
use otel_export::trace::SpanData;
use otel_resource::resource::Resource;

fn integers_fit(numbers: &[i64])
    ensures { AllByRecursion (FitsSigned w64) numbers.now }
{
    for number in numbers {
        let _number = *number;
    }
}

fn float_fits(number: f64)
    ensures { FloatFits number }
{
    let _number = number;
}

fn floats_fit(numbers: &[f64])
    ensures { AllByRecursion FloatFits numbers.now }
{
    for number in numbers {
        float_fits(*number);
    }
}

fn array_fits(array: &Array)
    ensures { ValueFits (plain_array array.now) }
{
    match array {
        Array::Bool(_) | Array::String(_) => {}
        Array::I64(numbers) => integers_fit(numbers),
        Array::F64(numbers) => floats_fit(numbers),
    }
}

fn value_fits(value: &Value)
    ensures { ValueFits (plain_value value.now) }
{
    match value {
        Value::Bool(_) | Value::String(_) => {}
        Value::I64(number) => {
            let _number = *number;
        }
        Value::Array(array) => array_fits(array),
        Value::F64(number) => float_fits(*number),
    }
}

fn attribute_fits(attribute: &KeyValue)
    ensures { AttributeFits attribute.now }
{
    value_fits(&attribute.value);
}

fn attributes_fit(attributes: &[KeyValue])
    ensures { AllByRecursion AttributeFits attributes.now }
{
    for attribute in attributes {
        attribute_fits(attribute);
    }
}

fn flags_fit(flags: TraceFlags)
    ensures { flags < 2 ^ 8 }
{
    let _byte = flags.to_u8();
}

fn span_id_fits(id: SpanId)
    ensures { id < 2 ^ 64 }
{
    let _bytes = id.to_bytes();
}

fn context_fits(context: &SpanContext)
    ensures { ContextFits context.now }
{
    span_contexts_fit(context);
    flags_fit(context.trace_flags());
}

fn event_fits(event: &Event)
    ensures { EventFits event.now }
{
    let _nanoseconds = event.timestamp.0;
    let _dropped = event.dropped_attributes_count;
    attributes_fit(&event.attributes);
}

fn events_fit(events: &[Event])
    ensures { AllByRecursion EventFits events.now }
{
    for event in events {
        event_fits(event);
    }
}

fn link_fits(link: &Link)
    ensures { LinkFits link.now }
{
    let _dropped = link.dropped_attributes_count;
    context_fits(&link.span_context);
    attributes_fit(&link.attributes);
}

fn links_fit(links: &[Link])
    ensures { AllByRecursion LinkFits links.now }
{
    for link in links {
        link_fits(link);
    }
}

fn span_fits(span: &SpanData)
    ensures { SpanFits span.now }
{
    let _start = span.start_time.0;
    let _end = span.end_time.0;
    let _dropped = span.dropped_attributes_count;
    let _dropped_events = span.events.dropped_count;
    let _dropped_links = span.links.dropped_count;
    context_fits(&span.span_context);
    span_id_fits(span.parent_span_id);
    attributes_fit(&span.attributes);
    events_fit(&span.events.events);
    links_fit(&span.links.links);
    attributes_fit(span.instrumentation_scope.attributes());
}

/// Each batch fits.
pub fn batch_fits(batch: &[SpanData])
    ensures { AllByRecursion SpanFits batch.now }
{
    for span in batch {
        span_fits(span);
    }
}

/// Each resource fits.
pub fn resource_fits(resource: &Resource)
    ensures { ResourceFits resource.now }
{
    for (_, value) in resource.iter() {
        value_fits(value);
    }
}
