//! The propagator of Jaeger's header `uber-trace-id` (Jaeger, "Client Libraries", "Propagation Format").

pub mod laws;
pub mod propagator;
mod read;

pub use propagator::JaegerPropagator;
