//! A propagator of any kind that a list of propagators may have: one of the built-in ones, or one of the caller's own.

use super::{BaggagePropagator, StrictBaggagePropagator, TraceContextPropagator};
use opentelemetry::Context;
use opentelemetry::propagation::{Extractor, FieldIter, Injector, TextMapPropagator};
use std::alloc::{AllocError, Global};

/// A built-in propagator, or a custom one. Several custom ones are an enum of the caller's own.
#[derive(Debug, Drop)]
pub enum PropagatorOf<C> {
    TraceContext(TraceContextPropagator),
    Baggage(BaggagePropagator),
    StrictBaggage(StrictBaggagePropagator),
    Custom(C),
}

impl<C: TextMapPropagator> TextMapPropagator for PropagatorOf<C> {
    ghost use Rattle.otel_propagation.specs.PropagatorKinds.{InjectsByKind, ExtractsByKind, InfallibleByKind};
    ghost use Rattle.otel_propagation.specs.PropagatorKinds.{fields_by_kind};

    ghost inject_gives = { InjectsByKind C.inject_gives };

    ghost extract_gives = { ExtractsByKind C.extract_gives };

    ghost extract_is_infallible = { InfallibleByKind C.extract_is_infallible };

    ghost field_names = { fields_by_kind C.field_names };

    fn inject_context<I: Injector>(
        &self,
        alloc: Global,
        cx: &Context,
        injector: &mut I,
    ) -> Result<(), AllocError> {
        match self {
            PropagatorOf::TraceContext(built_in) => built_in.inject_context(alloc, cx, injector),
            PropagatorOf::Baggage(built_in) => built_in.inject_context(alloc, cx, injector),
            PropagatorOf::StrictBaggage(built_in) => built_in.inject_context(alloc, cx, injector),
            PropagatorOf::Custom(custom) => custom.inject_context(alloc, cx, injector),
        }
    }

    fn extract_with_context<X: Extractor>(
        &self,
        alloc: Global,
        cx: &Context,
        extractor: &X,
    ) -> Result<Context, AllocError> {
        match self {
            PropagatorOf::TraceContext(built_in) => {
                built_in.extract_with_context(alloc, cx, extractor)
            }
            PropagatorOf::Baggage(built_in) => built_in.extract_with_context(alloc, cx, extractor),
            PropagatorOf::StrictBaggage(built_in) => {
                built_in.extract_with_context(alloc, cx, extractor)
            }
            PropagatorOf::Custom(custom) => custom.extract_with_context(alloc, cx, extractor),
        }
    }

    fn fields(&self) -> FieldIter<'_> {
        match self {
            PropagatorOf::TraceContext(built_in) => built_in.fields(),
            PropagatorOf::Baggage(built_in) => built_in.fields(),
            PropagatorOf::StrictBaggage(built_in) => built_in.fields(),
            PropagatorOf::Custom(custom) => custom.fields(),
        }
    }
}
