//! Requests one after the other, each after its length, as a file holds them; and the exporter that writes them.

ghost use Rattle.std.specs.Prelude.{◌≡◌, ◌++◌, IsOk, OnErr, OnOk, [], map};
ghost use Rattle.otel_otlp_protobuf.specs.NamedRequest.{delimited_requests};

use crate::request::write_delimited;
use otel_export::trace::SpanData;
use otel_lines::{BatchForm, LineExporter, write_batches};
use otel_resource::resource::Resource;
use std::alloc::{AllocError, Global};

/// The form of such requests. After one that was cut off none can follow: whoever reads them could not tell where it
/// begins.
#[derive(Drop)]
pub struct OtlpDelimited {
    alloc: Global,
}

impl BatchForm for OtlpDelimited {
    ghost use Rattle.otel_otlp_protobuf.specs.NamedRequest.{otlp_delimited};

    ghost form = { otlp_delimited };

    fn new(alloc: Global) -> OtlpDelimited {
        OtlpDelimited { alloc }
    }

    fn append(
        &mut self,
        out: &mut Vec<u8>,
        resource: &Resource,
        batch: &[SpanData],
    ) -> Result<(), AllocError> {
        write_delimited(self.alloc, out, resource, batch)
    }

    fn line_end(&self) -> Option<u8> {
        None
    }
}

/// Writes each batch to a stream, as its request in protobuf after its length, and sends it on at once.
pub type OtlpDelimitedExporter<W> = LineExporter<OtlpDelimited, W>;

/// Appends the requests of batches, each after its length. On an error nothing is appended.
pub fn write_delimited_requests(
    alloc: Global,
    out: &mut Vec<u8>,
    resource: &Resource,
    batches: &[Vec<SpanData>],
) -> Result<(), AllocError>
    ensures ok { OnOk result (out.new.items
        ≡ out.old.items ++ delimited_requests resource.now (map (λ batch. batch.items) batches.now)) }
    ensures err { OnErr result (out.new.items ≡ out.old.items) }
    ensures free { batches.now ≡ [] → IsOk result }
{
    write_batches(&mut OtlpDelimited::new(alloc), out, resource, batches)
}
