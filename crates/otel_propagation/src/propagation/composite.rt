//! Two propagators as one, so that a program that speaks of one propagator can have several (OpenTelemetry
//! specification, "Composite Propagator"). More than two are nested.

ghost use Rattle.std.specs.Prelude.{◌≡◌, ◌≢◌, ◌≤◌, ◌++◌, List, ℕ, length, take, IfOk, OnErr, MatchOption};
ghost use Rattle.otel_propagation.specs.Composite.{joined, joined_onto, names_of, with_name};

use super::{BaggagePropagator, TraceContextPropagator};
use opentelemetry::Context;
use opentelemetry::propagation::{Extractor, FieldIter, Injector, TextMapPropagator};
use std::alloc::{AllocError, Global};
use thiserror::Error;

/// Why two propagators do not make one.
#[derive(Clone, Copy, Debug, PartialEq, Eq, Error)]
#[error("the fields are not those of the first propagator and then those of the second, each once")]
pub struct FieldsError;

/// Injects by the first propagator and then by the second, and extracts in the same order.
#[derive(Debug, Drop)]
pub struct CompositePropagator<A, B> {
    first: A,
    second: B,
    fields: &'static [&'static str],
}

impl<A: TextMapPropagator + Drop, B: TextMapPropagator + Drop> CompositePropagator<A, B> {
    /// Both as one, with these fields: those of the first one and after them those of the second one, each name once.
    /// Other fields are refused.
    pub fn new(
        first: A,
        second: B,
        fields: &'static [&'static str],
    ) -> Result<CompositePropagator<A, B>, FieldsError>
        ensures ok { IfOk result (λ both. (both.first ≡ first) × (both.second ≡ second)
            × (names_of both.fields.now ≡ joined (A.field_names first) (B.field_names second))) }
        ensures err { OnErr result (names_of fields.now ≢ joined (A.field_names first) (B.field_names second)) }
    {
        let Some(given) = names_added(fields, 0, first.fields()) else {
            return Err(FieldsError);
        };
        let Some(all) = names_added(fields, given, second.fields()) else {
            return Err(FieldsError);
        };
        if all != fields.len() {
            return Err(FieldsError);
        }
        Ok(CompositePropagator {
            first,
            second,
            fields,
        })
    }
}

impl Default for CompositePropagator<TraceContextPropagator, BaggagePropagator> {
    ghost use Rattle.std.specs.Prelude.{◌≡◌, [], ◌∷◌};
    ghost use Rattle.otel_propagation.specs.BaggageHeader.{baggage_field};
    ghost use Rattle.otel_propagation.specs.Composite.{names_of};
    ghost use Rattle.otel_propagation.specs.Traceparent.{traceparent_field, tracestate_field};

    ghost is_default = { λ both. names_of both.fields.now
        ≡ traceparent_field ∷ tracestate_field ∷ baggage_field ∷ [] };

    fn default() -> CompositePropagator<TraceContextPropagator, BaggagePropagator> {
        CompositePropagator {
            first: TraceContextPropagator,
            second: BaggagePropagator,
            fields: &["traceparent", "tracestate", "baggage"],
        }
    }
}

impl<A: TextMapPropagator, B: TextMapPropagator> TextMapPropagator for CompositePropagator<A, B> {
    ghost use Rattle.otel_propagation.specs.Composite.{names_of, InjectsBoth, ExtractsBoth, BothAreInfallible};

    ghost inject_gives = { λ both. InjectsBoth (A.inject_gives both.first) (B.inject_gives both.second) };

    ghost extract_gives = { λ both. ExtractsBoth (A.extract_gives both.first) (B.extract_gives both.second) };

    ghost extract_is_infallible = { λ both. BothAreInfallible (A.extract_gives both.first)
        (A.extract_is_infallible both.first) (B.extract_is_infallible both.second) };

    ghost field_names = { λ both. names_of both.fields.now };

    /// Where the second one finds no memory, all texts of the first one stand in the carrier: a refusal may leave more
    /// than the first text set.
    fn inject_context<I: Injector>(
        &self,
        alloc: Global,
        cx: &Context,
        injector: &mut I,
    ) -> Result<(), AllocError> {
        self.first.inject_context(alloc, cx, injector)?;
        self.second.inject_context(alloc, cx, injector)
    }

    fn extract_with_context<X: Extractor>(
        &self,
        alloc: Global,
        cx: &Context,
        extractor: &X,
    ) -> Result<Context, AllocError> {
        let cx = self.first.extract_with_context(alloc, cx, extractor)?;
        self.second.extract_with_context(alloc, &cx, extractor)
    }

    fn fields(&self) -> FieldIter<'_> {
        FieldIter::new(self.fields)
    }
}

// How many names of a list stand before what further ones add to its first `given` ones. None where they add what does
// not stand there.
fn names_added(list: &[&str], given: usize, names: FieldIter<'_>) -> Option<usize>
    requires { given ≤ length list.now }
    ensures { MatchOption result
        ((more : List (List ℕ)) → names_of list.now ≢ joined_onto (take given (names_of list.now)) names.entry ++ more)
        (λ count. (count ≤ length list.now)
        × (take count (names_of list.now) ≡ joined_onto (take given (names_of list.now)) names.entry)) }
{
    let mut count = given;
    for added in names {
        let Some(more) = name_added(list, count, added) else {
            return None;
        };
        count = more;
    }
    Some(count)
}

/// The same for one name.
fn name_added(list: &[&str], given: usize, name: &str) -> Option<usize>
    requires { given ≤ length list.now }
    ensures { MatchOption result
        ((more : List (List ℕ)) → names_of list.now ≢ with_name (take given (names_of list.now)) name.now ++ more)
        (λ count. (count ≤ length list.now)
        × (take count (names_of list.now) ≡ with_name (take given (names_of list.now)) name.now)) }
{
    if list[..given].contains(&name) {
        return Some(given);
    }
    let Some(next) = list.get(given) else {
        return None;
    };
    if *next == name { Some(given + 1) } else { None }
}
