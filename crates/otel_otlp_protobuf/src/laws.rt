//! The laws of requests. Nothing needs to call these functions: their contracts are the laws.

ghost use Rattle.std.specs.Prelude.{◌≡◌, List};
ghost use Rattle.otel_resource.specs.Resource.{PlainResource};
ghost use Rattle.otel_export.specs.PlainSpanData.{PlainSpanData};
ghost use Rattle.otel_otlp.specs.Fits.{RequestFits};
ghost use Rattle.otel_otlp.specs.Otlp.{request};
ghost use Rattle.otel_otlp.specs.Seen.{AreSeenAlike};
ghost use Rattle.otel_otlp_protobuf.specs.NamedRequest.{request_bytes, request_members};
ghost use Rattle.otel_otlp_protobuf.specs.Said.{message_fields, object_json};
ghost use Rattle.otel_protobuf.specs.Reading.{ReadsAs};
ghost use Rattle.otel_protobuf.specs.Wire.{fields_of};

use otel_export::trace::SpanData;
use otel_otlp::fits::{batch_fits, resource_fits};
use otel_otlp::laws::json_loses_nothing;
use otel_resource::resource::Resource;

/// JSON and protobuf say the same request: what is printed to bytes by the numbers of its members is, printed by their
/// names, the request of the JSON that `otel_otlp` writes.
pub fn both_say_the_same()
    ensures { (resource : PlainResource) (batch : List PlainSpanData)
        → object_json (request_members resource batch) ≡ request resource batch }
{}

/// The bytes of each batch read back as its request, by the grammar of the wire.
pub fn requests_read_back(resource: &Resource, batch: &[SpanData])
    ensures { ReadsAs (request_bytes resource.now batch.now)
        (fields_of (message_fields (request_members resource.now batch.now))) }
{
    resource_fits(resource);
    batch_fits(batch);
}

/// The bytes of a batch and its resource are of one request: two that have the same bytes have the same one, and so are
/// seen alike. The numbers of members tell them apart.
pub fn bytes_lose_nothing()
    ensures once { (these those : PlainResource) (batch other : List PlainSpanData) → RequestFits these batch
        → RequestFits those other → request_bytes these batch ≡ request_bytes those other
        → request these batch ≡ request those other }
    ensures seen { (these those : PlainResource) (batch other : List PlainSpanData) → RequestFits these batch
        → RequestFits those other → request_bytes these batch ≡ request_bytes those other
        → AreSeenAlike these those batch other }
{
    json_loses_nothing();
}
