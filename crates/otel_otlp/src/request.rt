//! The request of a batch: its resource, and its spans by the scopes that made them.

ghost use Rattle.std.specs.Prelude.{◌≡◌, ◌++◌, ◌∷◌, [], OnErr, OnOk, Some};
ghost use Rattle.std.specs.FinMap.{entries};
ghost use Rattle.json.specs.Json.{document};
ghost use Rattle.json.specs.Tree.{json_tokens};
ghost use Rattle.otel_otlp.specs.Fields.{Adds, list_tokens};
ghost use Rattle.otel_otlp.specs.Otlp.{otlp_line, otlp_text, request, resource_json, resource_spans_json, run_json};
ghost use Rattle.otel_otlp.specs.Otlp.{scope_json};
ghost use Rattle.otel_otlp.specs.OtlpSpan.{span_json};
ghost use Rattle.otel_otlp.specs.OtlpValues.{pair_json};
ghost use Rattle.otel_otlp.specs.ScopeRuns.{run_scope, scope_runs};

use crate::parts::run_length;
use crate::tokens::RequestWriter;
use opentelemetry::InstrumentationScope;
use otel_export::trace::SpanData;
use otel_resource::resource::Resource;
use std::alloc::{AllocError, Global};
use std::mem;

impl RequestWriter {
    fn scope(&mut self, scope: &InstrumentationScope) -> Result<(), AllocError>
        ensures { Adds result self.old self.new (json_tokens (scope_json scope.now)) }
    {
        self.begin_object()?;
        self.text_field("name", scope.name())?;
        self.optional_field("version", scope.version())?;
        self.attributes(scope.attributes(), 0)?;
        self.end_object()
    }

    fn span_items(&mut self, alloc: Global, spans: &[SpanData]) -> Result<(), AllocError>
        ensures { Adds result self.old self.new (list_tokens span_json spans.now) }
    {
        for span in spans {
            self.span(alloc, span)?;
        }
        Ok(())
    }

    /// Spans of one scope.
    fn run(
        &mut self,
        alloc: Global,
        scope: &InstrumentationScope,
        spans: &[SpanData],
    ) -> Result<(), AllocError>
        requires { scope.now ≡ run_scope spans.now }
        ensures { Adds result self.old self.new (json_tokens (run_json spans.now)) }
    {
        self.begin_object()?;
        self.key("scope")?;
        self.scope(scope)?;
        self.key("spans")?;
        self.begin_array()?;
        self.span_items(alloc, spans)?;
        self.end_array()?;
        self.optional_field("schemaUrl", scope.schema_url())?;
        self.end_object()
    }

    fn runs(&mut self, alloc: Global, spans: &[SpanData]) -> Result<(), AllocError>
        ensures { Adds result self.old self.new (list_tokens run_json (scope_runs spans.now)) }
    {
        let mut rest = spans;
        while let Some((first, after)) = rest.split_first() {
            let count = run_length(first, after);
            self.run(alloc, &first.instrumentation_scope, &rest[..count + 1])?;
            rest = &after[count..];
        }
        Ok(())
    }

    fn pairs(&mut self, resource: &Resource) -> Result<(), AllocError>
        ensures { Adds result self.old self.new (list_tokens pair_json (entries resource.now.attributes)) }
    {
        for (key, value) in resource.iter() {
            self.pair(key, value)?;
        }
        Ok(())
    }

    fn resource(&mut self, resource: &Resource) -> Result<(), AllocError>
        ensures { Adds result self.old self.new (json_tokens (resource_json resource.now)) }
    {
        self.begin_object()?;
        self.key("attributes")?;
        self.begin_array()?;
        self.pairs(resource)?;
        self.end_array()?;
        self.number_field("droppedAttributesCount", 0)?;
        self.end_object()
    }

    fn resource_spans(
        &mut self,
        alloc: Global,
        resource: &Resource,
        batch: &[SpanData],
    ) -> Result<(), AllocError>
        ensures { Adds result self.old self.new (json_tokens (resource_spans_json resource.now batch.now)) }
    {
        self.begin_object()?;
        self.key("resource")?;
        self.resource(resource)?;
        self.key("scopeSpans")?;
        self.begin_array()?;
        self.runs(alloc, batch)?;
        self.end_array()?;
        self.optional_field("schemaUrl", resource.schema_url())?;
        self.end_object()
    }

    fn request(
        &mut self,
        alloc: Global,
        resource: &Resource,
        batch: &[SpanData],
    ) -> Result<(), AllocError>
        ensures { Adds result self.old self.new (json_tokens (request resource.now batch.now)) }
    {
        self.begin_object()?;
        self.key("resourceSpans")?;
        self.begin_array()?;
        self.resource_spans(alloc, resource, batch)?;
        self.end_array()?;
        self.end_object()
    }
}

/// Appends a line feed, or nothing.
fn end_line(out: &mut Vec<u8>) -> Result<(), AllocError>
    ensures ok { OnOk result (out.new.items ≡ out.old.items ++ 10 ∷ []) }
    ensures err { OnErr result (out.new.items ≡ out.old.items) }
{
    out.push(b'\n')?;
    Ok(())
}

/// Appends the line of a batch: its request, of this resource, in the JSON of the OpenTelemetry protocol, and a line
/// feed. On an error nothing is appended.
pub fn write_request(
    alloc: Global,
    out: &mut Vec<u8>,
    resource: &Resource,
    batch: &[SpanData],
) -> Result<(), AllocError>
    ensures ok { OnOk result (out.new.items ≡ out.old.items ++ otlp_line resource.now batch.now) }
    ensures reads_back { OnOk result
        (document (otlp_text resource.now batch.now) ≡ Some (request resource.now batch.now)) }
    ensures err { OnErr result (out.new.items ≡ out.old.items) }
{
    let begun = out.len();
    let bytes = mem::replace(out, Vec::new(alloc));
    let mut writer = RequestWriter::new(bytes);
    let written = writer.request(alloc, resource, batch);
    *out = writer.into_bytes();
    let ended = match written {
        Ok(()) => end_line(out),
        Err(error) => Err(error),
    };
    if ended.is_err() {
        out.truncate(begun);
    }
    ended
}
