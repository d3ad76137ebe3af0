//! The mode `otlp`: each batch that a session exports is a request of the OpenTelemetry protocol, as a line of its JSON
//! or in the bytes of protobuf after their length, and no reply is written.

ghost use Rattle.std.specs.Prelude.{◌≡◌, ◌++◌, [], IfOk, IsOk, OnErr, OnOk, map, string_bytes};
ghost use Rattle.otel_resource.specs.DetectedResource.{IsDetected};
ghost use Rattle.otel_trace_run.specs.OtlpRuns.{ExportsUnder, encoded, otlp_form};
ghost use Rattle.otel_trace_run.specs.Program.{strings_given};
ghost use Rattle.otel_trace_run.specs.Streams.{streams_of};

use crate::run_end::RunEnd;
use crate::trace_stream::trace_input;
use otel_export::trace::SpanData;
use otel_otlp::write_requests;
use otel_otlp_protobuf::{Encoding, write_delimited_requests};
use otel_pipeline::trace::{KeepsBatches, ProviderOf, Provides};
use otel_resource::resource::{Resource, ResourceStrings};
use otel_sampling::trace::{GivesIds, ShouldSample};
use otel_trace_lines::{Answer, Dialect, ReplyForm};
use std::alloc::{AllocError, Global};
use std::io::{Read, Write};
use std::marker::Model;

/// Replies as the requests of their batches, of one resource. Answers are not written.
#[derive(Drop)]
struct OtlpRequests {
    encoding: Encoding,
    resource: Resource,
    alloc: Global,
}

impl Model for OtlpRequests {
    ghost use Rattle.std.specs.Coded.{codes};
    ghost use Rattle.otel_resource.specs.ResourceCode.{resource_code};
    ghost use Rattle.otel_otlp_protobuf.specs.contracts.encoding.Encoding.{the_row};
    ghost use Rattle.otel_trace_run.specs.OtlpRuns.{Encoded};

    ghost Value = { Encoded };

    ghost coded = { Prim.hlevel (codes, the_row.coded, resource_code) };

    ghost view = { λ requests. record { encoding = requests.encoding; resource = requests.resource } };
}

impl OtlpRequests {
    /// Writes the requests of batches, or nothing where memory runs out.
    fn write(&self, output: &mut Vec<u8>, batches: &[Vec<SpanData>]) -> Result<(), AllocError>
        ensures ok { OnOk result (output.new.items ≡ output.old.items
            ++ encoded self.now (map (λ batch. batch.items) batches.now)) }
        ensures err { OnErr result (output.new.items ≡ output.old.items) }
        ensures free { encoded self.now (map (λ batch. batch.items) batches.now) ≡ [] → IsOk result }
    {
        match self.encoding {
            Encoding::Json => write_requests(self.alloc, output, &self.resource, batches),
            Encoding::Protobuf => {
                write_delimited_requests(self.alloc, output, &self.resource, batches)
            }
        }
    }
}

impl ReplyForm for OtlpRequests {
    ghost use Rattle.otel_trace_run.specs.OtlpRuns.{otlp_form};

    ghost form = { otlp_form };

    fn write_reply(
        &mut self,
        output: &mut Vec<u8>,
        exported: &[Vec<SpanData>],
        _answer: Answer,
    ) -> Result<(), AllocError> {
        self.write(output, exported)
    }

    fn write_rest(
        &mut self,
        output: &mut Vec<u8>,
        batches: &[Vec<SpanData>],
    ) -> Result<(), AllocError> {
        self.write(output, batches)
    }

    fn minds_drops(&self) -> bool {
        true
    }

    fn dialect(&self) -> Dialect {
        Dialect::Extended
    }
}

/// The strings that describe a resource: an attributes string, if one is given.
fn strings_of(given: &[String]) -> Result<ResourceStrings, AllocError>
    ensures { IfOk result (λ strings. strings ≡ strings_given (map string_bytes given.now)) }
{
    Ok(ResourceStrings {
        attributes: given.first().cloned()?,
        service_name: None,
        program_name: None,
    })
}

/// The SDK's own resource, with what an attributes string says, if one is given.
pub(crate) fn resource_of(alloc: Global, given: &[String]) -> Result<Resource, AllocError>
    ensures { IfOk result (λ resource. IsDetected (strings_given (map string_bytes given.now)) resource) }
{
    let strings = strings_of(given)?;
    let described = Resource::builder(alloc, &strings)?;
    Ok(described.build())
}

/// Carries out the lines of an input by one session under a provider, and writes the batches that it exports.
pub(crate) fn export_input<P: KeepsBatches, S: ShouldSample, G: GivesIds, R: Read, W: Write>(
    alloc: Global,
    provider: ProviderOf<P, S, G>,
    encoding: Encoding,
    resource: Resource,
    input: &mut R,
    output: &mut W,
) -> RunEnd
    ensures { ExportsUnder ⟦<ProviderOf<P, S, G> as Provides>⟧.calls
        (record { encoding = encoding; resource = resource }) provider
        (streams_of R.remaining input.old input.new W.contents output.old output.new) result }
{
    let mut requests = OtlpRequests {
        encoding,
        resource,
        alloc,
    };
    trace_input(alloc, provider, &mut requests, input, output)
}
