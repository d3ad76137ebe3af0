//! Propagators that a caller adds to the built-in ones, each by a name.

ghost use Rattle.std.specs.Prelude.{◌≡◌, List, ℕ, Option};

use opentelemetry::Context;
use opentelemetry::propagation::{Extractor, FieldIter, Injector, TextMapPropagator};
use std::alloc::{AllocError, Global};

/// Custom propagators by their names. The names of built-in ones are not asked.
pub trait CustomPropagators {
    /// Several kinds of propagators are an enum.
    type Propagator: TextMapPropagator + Drop;

    ghost custom_named: { Self → List ℕ → Option Self.Propagator };

    /// The propagator of a name; `None` where it names no custom one.
    fn named(&self, name: &str) -> Option<Self::Propagator>
        ensures { result ≡ custom_named self.now name.now };
}

/// No custom propagators.
#[derive(Clone, Copy, Debug, Default)]
pub struct NoCustomPropagators;

impl CustomPropagators for NoCustomPropagators {
    ghost use Rattle.std.specs.Prelude.{None};

    type Propagator = NoopTextMapPropagator;

    ghost custom_named = { λ _ _. None };

    fn named(&self, _name: &str) -> Option<NoopTextMapPropagator> {
        None
    }
}

/// Writes and reads nothing.
#[derive(Clone, Copy, Debug, Default)]
pub struct NoopTextMapPropagator;

impl TextMapPropagator for NoopTextMapPropagator {
    ghost use Rattle.std.specs.Prelude.{◌≡◌, [], IsOk};
    ghost use Rattle.opentelemetry.specs.Carrier.{SameTexts};

    ghost inject_gives = { λ _ _ old result new. IsOk result × SameTexts old new };

    ghost extract_gives = { λ _ cx _ found. found ≡ cx };

    ghost field_names = { λ _. [] };

    fn inject_context<I: Injector>(
        &self,
        _alloc: Global,
        _cx: &Context,
        _injector: &mut I,
    ) -> Result<(), AllocError> {
        Ok(())
    }

    fn extract_with_context<X: Extractor>(
        &self,
        _alloc: Global,
        cx: &Context,
        _extractor: &X,
    ) -> Result<Context, AllocError> {
        cx.clone()
    }

    fn fields(&self) -> FieldIter<'_> {
        FieldIter::new(&[])
    }
}
