//! Batches as lines of the JSON of the OpenTelemetry protocol, and the exporter that writes them.

ghost use Rattle.std.specs.Prelude.{◌≡◌, ◌++◌, [], IsOk, OnErr, OnOk, map};
ghost use Rattle.otel_otlp.specs.Otlp.{otlp_lines};

use crate::request::write_request;
use otel_export::trace::SpanData;
use otel_lines::{BatchForm, LineExporter, write_batches};
use otel_resource::resource::Resource;
use std::alloc::{AllocError, Global};

/// The form of these lines, each as `write_request` writes it.
#[derive(Drop)]
pub struct OtlpJson {
    alloc: Global,
}

impl BatchForm for OtlpJson {
    ghost use Rattle.otel_otlp.specs.Otlp.{otlp_json};

    ghost form = { otlp_json };

    fn new(alloc: Global) -> OtlpJson {
        OtlpJson { alloc }
    }

    fn append(
        &mut self,
        out: &mut Vec<u8>,
        resource: &Resource,
        batch: &[SpanData],
    ) -> Result<(), AllocError> {
        write_request(self.alloc, out, resource, batch)
    }

    fn line_end(&self) -> Option<u8> {
        Some(b'\n')
    }
}

/// Writes each batch to a stream, as a line of the JSON of the OpenTelemetry protocol, and sends it on at once.
pub type OtlpJsonExporter<W> = LineExporter<OtlpJson, W>;

/// Appends the lines of batches, as `write_request` does one. On an error nothing is appended.
pub fn write_requests(
    alloc: Global,
    out: &mut Vec<u8>,
    resource: &Resource,
    batches: &[Vec<SpanData>],
) -> Result<(), AllocError>
    ensures ok { OnOk result
        (out.new.items ≡ out.old.items ++ otlp_lines resource.now (map (λ batch. batch.items) batches.now)) }
    ensures err { OnErr result (out.new.items ≡ out.old.items) }
    ensures free { batches.now ≡ [] → IsOk result }
{
    write_batches(&mut OtlpJson::new(alloc), out, resource, batches)
}
