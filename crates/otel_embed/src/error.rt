//! Why a call of a pipeline did nothing.

use std::alloc::{AllocError, AllocFailed};
use thiserror::Error;

/// Why a call did nothing.
#[derive(Clone, Copy, Debug, PartialEq, Eq, Error)]
pub enum PipelineError {
    /// There was no memory, or no number was left for one more span.
    #[error("out of memory")]
    OutOfMemory,
    /// No open span has this key: it was never given, or its span has ended.
    #[error("no open span has this key")]
    NoSuchSpan,
    /// No tracer has this number.
    #[error("no tracer has this number")]
    NoSuchTracer,
    /// A text is not UTF-8.
    #[error("a text is not UTF-8")]
    NotUtf8,
    /// A kind, a status code or a list of lengths is none, or headers name no span.
    #[error("an argument means nothing")]
    BadArgument,
    /// A flush, a run or a shutdown failed, or the pipeline is shut down.
    #[error("not all was exported")]
    NotExported,
}

impl From<AllocError> for PipelineError {
    ghost use Rattle.std.specs.Prelude.{◌≡◌};
    ghost use Rattle.otel_embed.specs.declared.error.PipelineError.TheVariants as errors;

    ghost from_gives = { λ _ error. error ≡ errors.OutOfMemory };

    fn from(_error: AllocError) -> PipelineError {
        PipelineError::OutOfMemory
    }
}

impl<T: Drop> From<AllocFailed<T>> for PipelineError {
    ghost use Rattle.std.specs.Prelude.{◌≡◌};
    ghost use Rattle.otel_embed.specs.declared.error.PipelineError.TheVariants as errors;

    ghost from_gives = { λ _ error. error ≡ errors.OutOfMemory };

    fn from(_failed: AllocFailed<T>) -> PipelineError {
        PipelineError::OutOfMemory
    }
}
