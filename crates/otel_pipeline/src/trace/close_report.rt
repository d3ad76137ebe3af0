//! What closing a provider tells.

use otel_export::error::OTelSdkResult;

/// How a provider closed, and how many spans it left behind.
#[derive(Debug, Drop, PartialEq, Eq)]
pub struct CloseReport {
    /// The answer of the shutdown, or Ok where the provider was shut before.
    pub result: OTelSdkResult,
    /// How many spans waited in the processors that closed.
    pub stranded: u128,
    /// How many spans wait in the processors that are still open, because their shutdown was refused. A processor of the
    /// caller's own that stands in a box counts as one that leaves none, here and above: nothing is asked of it.
    pub left_open: u128,
}
