//! The propagator of B3, the headers of Zipkin: a single one, or many (OpenZipkin, "B3 Propagation"; OpenTelemetry
//! specification, "B3 Requirements"); and a sampler for callers that leave the decision open.

pub mod deferred;
pub mod encoding;
mod field;
pub mod laws;
pub mod propagator;
mod read;
pub mod sampling_state;
mod write;

pub use deferred::B3Deferred;
pub use encoding::B3Encoding;
pub use propagator::B3Propagator;
