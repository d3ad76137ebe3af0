//! What travels between processes: each propagator writes a part of a context into headers and reads it back.

pub mod baggage;
pub mod composite;
pub mod composite_list;
pub mod configured;
pub mod custom;
mod members;
pub mod named;
mod pieces;
pub mod propagator_kinds;
pub mod strict_baggage;
pub mod trace_context;

pub use baggage::BaggagePropagator;
pub use composite::{CompositePropagator, FieldsError};
pub use composite_list::TextMapCompositePropagator;
pub use configured::{ConfiguredPropagators, built_in_propagators, configured_propagators};
pub use custom::{CustomPropagators, NoCustomPropagators, NoopTextMapPropagator};
pub use named::{NamedPropagator, named_propagators};
pub use propagator_kinds::PropagatorOf;
pub use strict_baggage::StrictBaggagePropagator;
pub use trace_context::TraceContextPropagator;
