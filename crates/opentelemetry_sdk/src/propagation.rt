//! What carries span contexts and baggages in headers.

pub use otel_propagation::propagation::{
    BaggagePropagator, CompositePropagator, ConfiguredPropagators, CustomPropagators, FieldsError,
    NamedPropagator, NoCustomPropagators, NoopTextMapPropagator, PropagatorOf,
    StrictBaggagePropagator, TextMapCompositePropagator, TraceContextPropagator,
    built_in_propagators, configured_propagators, named_propagators,
};
