//! The request of a batch: its resource, and its spans by the scopes that made them.

ghost use Rattle.std.specs.Prelude.{◌≡◌, ◌≤◌, ◌↔◌, [], ◌∷◌, ◌++◌, IfOk, IsTrue, OnErr, OnOk, drop, length, take};
ghost use Rattle.std.specs.Option.{option_copied};
ghost use Rattle.otel_otlp.specs.Otlp.{or_empty};
ghost use Rattle.otel_otlp.specs.ScopeRuns.{run_scope, scope_runs};
ghost use Rattle.otel_otlp_protobuf.specs.NamedRequest.{delimited_bytes, request_bytes};
ghost use Rattle.otel_otlp_protobuf.specs.NamedRequest.{request_members, resource_members};
ghost use Rattle.otel_otlp_protobuf.specs.NamedRequest.{resource_spans_members, run_members, scope_members};
ghost use Rattle.otel_otlp_protobuf.specs.NamedRequest.{scope_spans_members};
ghost use Rattle.otel_otlp_protobuf.specs.Said.{message_fields};
ghost use Rattle.otel_protobuf.specs.Progress.{TakesFields};
ghost use Rattle.otel_protobuf.specs.Wire.{repeated, unless_empty};
ghost use Rattle.otel_resource.specs.Resource.{non_empty};

use crate::message::{Message, nested, repeated};
use crate::value::Pair;
use crate::write::{Framing, write_message};
use opentelemetry::InstrumentationScope;
use otel_export::trace::SpanData;
use otel_protobuf::Sink;
use otel_resource::resource::Resource;
use std::alloc::{AllocError, Global};
use std::marker::Model;

/// A text that may be left out, and is empty then.
fn optional(sink: &mut Sink, number: u32, text: Option<&str>)
    ensures { TakesFields sink.old sink.new (unless_empty number (or_empty (option_copied text.entry))) }
{
    if let Some(text) = text {
        sink.bytes(number, text.as_bytes());
    }
}

impl Message for InstrumentationScope {
    ghost fields = { λ scope. message_fields (scope_members scope) };

    fn write(&self, alloc: Global, sink: &mut Sink) {
        repeated(sink, alloc, 3, self.attributes());
        optional(sink, 2, self.version());
        sink.bytes(1, self.name().as_bytes());
    }
}

/// Spans of one scope.
#[derive(Drop)]
struct ScopeSpans<'a> {
    scope: &'a InstrumentationScope,
    spans: &'a [SpanData],
}

impl Message for ScopeSpans<'_> {
    ghost fields = { λ run. message_fields (scope_spans_members run.scope.now run.spans.now) };

    fn write(&self, alloc: Global, sink: &mut Sink) {
        optional(sink, 3, self.scope.schema_url());
        repeated(sink, alloc, 2, self.spans);
        nested(sink, alloc, 1, self.scope);
    }
}

/// Whether two spans have one scope.
fn has_scope_of(span: &SpanData, other: &SpanData) -> bool
    ensures { IsTrue result ↔ (span.now.instrumentation_scope ≡ other.now.instrumentation_scope) }
{
    span.instrumentation_scope == other.instrumentation_scope
}

/// Where the last run of spans of one scope begins, which ends with this span after the others.
fn last_run(before: &[SpanData], last: &SpanData) -> usize
    ensures within { result ≤ length before.now }
    ensures run { scope_runs (before.now ++ last.now ∷ [])
        ≡ scope_runs (take result before.now) ++ (drop result before.now ++ last.now ∷ []) ∷ [] }
    ensures scope { run_scope (drop result before.now ++ last.now ∷ []) ≡ last.now.instrumentation_scope }
{
    let mut begin = before.len();
    while begin > 0 && has_scope_of(&before[begin - 1], last) {
        begin -= 1;
    }
    begin
}

/// The runs of spans of one scope each.
fn runs(sink: &mut Sink, alloc: Global, spans: &[SpanData])
    ensures { TakesFields sink.old sink.new
        (repeated 2 (λ run. message_fields (run_members run)) (scope_runs spans.now)) }
{
    let mut rest = spans;
    while let Some((last, before)) = rest.split_last() {
        let (others, spans) = rest.split_at(last_run(before, last));
        let scope = &last.instrumentation_scope;
        nested(sink, alloc, 2, &ScopeSpans { scope, spans });
        rest = others;
    }
}

/// A resource, and its attributes in a row: a resource itself is walked over from its front alone.
#[derive(Drop)]
struct RowOf<'a> {
    resource: &'a Resource,
    pairs: Vec<Pair<'a>>,
}

impl<'a> Model for RowOf<'a> {
    ghost use Rattle.std.specs.Prelude.{◌≡◌, map};
    ghost use Rattle.std.specs.FinMap.{entries};
    ghost use Rattle.otel_resource.specs.Resource.{PlainResource};
    ghost use Rattle.otel_resource.specs.ResourceCode.{resource_code};
    ghost use Rattle.opentelemetry.specs.PlainValues.{plain_value};

    ghost Value = { PlainResource };

    ghost coded = { resource_code };

    ghost view = { λ row. row.resource.now };

    ghost invariant = { λ row. map (λ pair. (pair.key.now, plain_value pair.value.now)) row.pairs.items
        ≡ entries row.resource.now.attributes };
}

impl<'a> RowOf<'a> {
    fn new(alloc: Global, resource: &'a Resource) -> Result<RowOf<'a>, AllocError>
        ensures { IfOk result (λ row. row ≡ resource.now) }
    {
        let mut pairs = Vec::new(alloc);
        for (key, value) in resource.iter() {
            pairs.push(Pair { key, value })?;
        }
        Ok(RowOf { resource, pairs })
    }

    fn schema_url(&self) -> Option<&str>
        ensures { option_copied result ≡ non_empty self.now.schema_url }
    {
        self.resource.schema_url()
    }
}

impl Message for RowOf<'_> {
    ghost fields = { λ resource. message_fields (resource_members resource) };

    fn write(&self, alloc: Global, sink: &mut Sink) {
        repeated(sink, alloc, 1, &self.pairs);
    }
}

/// Spans of one resource.
#[derive(Drop)]
struct ResourceSpans<'a> {
    row: RowOf<'a>,
    batch: &'a [SpanData],
}

impl Message for ResourceSpans<'_> {
    ghost fields = { λ spans. message_fields (resource_spans_members spans.row spans.batch.now) };

    fn write(&self, alloc: Global, sink: &mut Sink) {
        optional(sink, 3, self.row.schema_url());
        runs(sink, alloc, self.batch);
        nested(sink, alloc, 1, &self.row);
    }
}

/// The request of a batch.
#[derive(Drop)]
struct Request<'a> {
    spans: ResourceSpans<'a>,
}

impl Message for Request<'_> {
    ghost fields = { λ request. message_fields (request_members request.spans.row request.spans.batch.now) };

    fn write(&self, alloc: Global, sink: &mut Sink) {
        nested(sink, alloc, 1, &self.spans);
    }
}

/// Appends the request of a batch, of this resource, in the bytes of protobuf: an `ExportTraceServiceRequest`
/// (opentelemetry-proto 1.7). Its length is counted first, so that memory for it is asked for once, beside a row of the
/// resource's attributes. On an error nothing is appended.
pub fn write_request_protobuf(
    alloc: Global,
    out: &mut Vec<u8>,
    resource: &Resource,
    batch: &[SpanData],
) -> Result<(), AllocError>
    ensures ok { OnOk result (out.new.items ≡ out.old.items ++ request_bytes resource.now batch.now) }
    ensures err { OnErr result (out.new.items ≡ out.old.items) }
{
    let row = RowOf::new(alloc, resource)?;
    let spans = ResourceSpans { row, batch };
    write_message(alloc, out, Framing::Alone, &Request { spans })
}

/// Appends the same request after its length. On an error nothing is appended.
pub(crate) fn write_delimited(
    alloc: Global,
    out: &mut Vec<u8>,
    resource: &Resource,
    batch: &[SpanData],
) -> Result<(), AllocError>
    ensures ok { OnOk result (out.new.items ≡ out.old.items ++ delimited_bytes resource.now batch.now) }
    ensures err { OnErr result (out.new.items ≡ out.old.items) }
{
    let row = RowOf::new(alloc, resource)?;
    let spans = ResourceSpans { row, batch };
    write_message(alloc, out, Framing::AfterLength, &Request { spans })
}
