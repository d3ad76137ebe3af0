//! What closing a session does to its provider, and what it answers.

ghost use Rattle.std.specs.Prelude.{◌≡◌, is_err, ◌||◌, if◌then◌else◌, true};
ghost use Rattle.otel_trace_session.specs.Closing.{or_no_memory};
ghost use Rattle.otel_trace_session.specs.ProviderTurns.{ShutsIfOpen};

use otel_export::error::{OTelSdkError, OTelSdkResult};
use otel_pipeline::trace::{ProviderOf, SpanProcessor};
use std::alloc::AllocError;

/// Shuts the provider down where it is open.
pub(crate) fn shut_down<P: SpanProcessor, S: Drop, G: Drop>(
    provider: &mut ProviderOf<P, S, G>,
) -> OTelSdkResult
    ensures shuts { ShutsIfOpen P.SpanProcessor provider.old result provider.new }
    ensures is_shut { provider.new.is_shut ≡ true }
{
    match provider.shutdown() {
        Err(OTelSdkError::AlreadyShutdown) => Ok(()),
        answer => answer,
    }
}

/// What closing answers: what the shutdown did, and where that is Ok, whether a batch or the text found no memory.
pub(crate) fn close_answer(
    shutdown: OTelSdkResult,
    has_lost: bool,
    written: Result<(), AllocError>,
) -> OTelSdkResult
    ensures { result ≡ (if has_lost || is_err written then or_no_memory shutdown else shutdown) }
{
    match shutdown {
        Ok(()) if has_lost || written.is_err() => Err(OTelSdkError::OutOfMemory),
        shutdown => shutdown,
    }
}
