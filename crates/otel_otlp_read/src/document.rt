//! A text that is one request.

ghost use Rattle.otel_otlp_read.specs.Inputs.{read_document};
ghost use Rattle.otel_otlp_read.specs.Reading.{Gives};

use crate::fault::{Fault, ReadError};
use crate::request::{ReadSpans, read_request};
use json::{Error, Scratch, Value};
use std::alloc::Global;

/// The spans of the request that a text of JSON is, and what of it does not read. An error is why it is no request, or
/// that memory ran out. The scratch is room for what JSON escapes; one serves for many texts.
#[tactic(auto, unfolding(crate::specs::Inputs::read_document))]
pub fn read_document(
    alloc: Global,
    text: &[u8],
    scratch: &mut Scratch,
) -> Result<ReadSpans, ReadError>
    ensures { Gives (λ read. read) result (read_document text.now) }
{
    match Value::from_slice(alloc, text, scratch) {
        Ok(request) => read_request(alloc, &request),
        Err(Error::Invalid) => Err(ReadError::Fault(Fault::NotJson)),
        Err(_) => Err(ReadError::OutOfMemory),
    }
}
