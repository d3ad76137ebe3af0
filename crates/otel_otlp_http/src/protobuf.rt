//! The answer to a request in protobuf: an `ExportTraceServiceResponse`, of which the count of rejected spans is read.

ghost use Rattle.std.specs.Prelude.{◌≡◌};
ghost use Rattle.otel_protobuf.specs.Held.{raw_of};
ghost use Rattle.otel_otlp_http.specs.ProtobufSuccess.{count_after, partial_count, rejected_in, response_after};

use otel_protobuf::{Held, read_field};

/// The count after a field of an `ExportTracePartialSuccess`.
fn counted(before: u64, number: u64, held: Held<'_>) -> u64
    ensures { result ≡ count_after before (number, raw_of held.entry) }
{
    match held {
        Held::Number(count) if number == 1 => count,
        _ => before,
    }
}

/// The count after the fields of an `ExportTracePartialSuccess`.
fn partial_success(before: u64, bytes: &[u8]) -> Option<u64>
    ensures { result ≡ partial_count before bytes.now }
{
    let mut count = before;
    let mut rest = bytes;
    // Each field takes a byte at least.
    let mut more = bytes.len();
    'fields: while !rest.is_empty() {
        if more == 0 {
            return None;
        }
        more -= 1;
        let (number, held, after) = read_field(rest)?;
        count = counted(count, number, held);
        rest = after;
    }
    Some(count)
}

/// The count after a field of an `ExportTraceServiceResponse`.
fn response_field(before: u64, number: u64, held: Held<'_>) -> Option<u64>
    ensures { result ≡ response_after before (number, raw_of held.entry) }
{
    match held {
        Held::Sized(partial) if number == 1 => partial_success(before, partial),
        _ => Some(before),
    }
}

/// How many spans a response says were rejected, where it reads.
pub(crate) fn rejected_in_protobuf(bytes: &[u8]) -> Option<u64>
    ensures { result ≡ rejected_in bytes.now }
{
    let mut count = 0;
    let mut rest = bytes;
    // Each field takes a byte at least.
    let mut more = bytes.len();
    'fields: while !rest.is_empty() {
        if more == 0 {
            return None;
        }
        more -= 1;
        let (number, held, after) = read_field(rest)?;
        count = response_field(count, number, held)?;
        rest = after;
    }
    Some(count)
}
