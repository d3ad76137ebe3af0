//! What an export answers.

ghost use Rattle.std.specs.Prelude.{◌≡◌, ◌≢◌, ◌↔◌, IfOk, IsOk, OnErr};
ghost use Rattle.otel_c.specs.Handles.{CopiesText, answer_status, error_status};

use otel_embed::PipelineError;

pub const OTEL_OK: u32 = 0;

/// The handle is not open.
pub const OTEL_CLOSED: u32 = 1;

pub const OTEL_ALREADY_OPEN: u32 = 2;

pub const OTEL_OUT_OF_MEMORY: u32 = 3;

/// No open span has this key.
pub const OTEL_NO_SUCH_SPAN: u32 = 4;

pub const OTEL_NO_SUCH_TRACER: u32 = 5;

/// A text is not UTF-8.
pub const OTEL_NOT_UTF8: u32 = 6;

/// A kind, a status code or a list of lengths is none, or headers name no span.
pub const OTEL_BAD_ARGUMENT: u32 = 7;

/// The buffer has too little room; the length says how much is wanted.
pub const OTEL_BUFFER_TOO_SMALL: u32 = 8;

/// What was to be exported was not, or the pipeline is shut down.
pub const OTEL_FAILED: u32 = 9;

/// The status of an error.
pub(crate) fn status_of(error: PipelineError) -> u32
    ensures number { result ≡ error_status error }
    ensures failed { result ≢ 0 }
    ensures is_no_length { result ≢ 8 }
{
    match error {
        PipelineError::OutOfMemory => OTEL_OUT_OF_MEMORY,
        PipelineError::NoSuchSpan => OTEL_NO_SUCH_SPAN,
        PipelineError::NoSuchTracer => OTEL_NO_SUCH_TRACER,
        PipelineError::NotUtf8 => OTEL_NOT_UTF8,
        PipelineError::BadArgument => OTEL_BAD_ARGUMENT,
        PipelineError::NotExported => OTEL_FAILED,
    }
}

/// The status of what a call answered.
pub(crate) fn status_of_result(answer: Result<(), PipelineError>) -> u32
    ensures number { result ≡ answer_status answer }
    ensures ok { IsOk answer ↔ (result ≡ 0) }
{
    match answer {
        Ok(()) => OTEL_OK,
        Err(error) => status_of(error),
    }
}

/// Writes a number where a call answered one, and says its status.
pub(crate) fn write_number(answer: Result<u64, PipelineError>, to: &mut u64) -> u32
    ensures ok { IfOk answer (λ number. (result ≡ 0) × (to.new ≡ number)) }
    ensures err { OnErr answer ((result ≢ 0) × (to.new ≡ to.old)) }
{
    match answer {
        Ok(number) => {
            *to = number;
            OTEL_OK
        }
        Err(error) => status_of(error),
    }
}

/// Copies a text into a buffer where that has room for it, and says its length.
pub(crate) fn write_text(text: &str, buffer: &mut [u8], text_length: &mut usize) -> u32
    ensures { CopiesText text.now buffer.old result text_length.new buffer.new }
{
    let bytes = text.as_bytes();
    *text_length = bytes.len();
    if bytes.len() > buffer.len() {
        return OTEL_BUFFER_TOO_SMALL;
    }
    buffer[..bytes.len()].copy_from_slice(bytes);
    OTEL_OK
}
