//! Any number of propagators as one, asked in their order (OpenTelemetry specification, "Composite Propagator"). They
//! are of one type; `PropagatorOf` is one that holds the built-in ones and others.

ghost use Rattle.std.specs.Prelude.{◌≡◌, [], IfOk, IsOk, OnOk};
ghost use Rattle.otel_propagation.specs.Composite.{joined_onto, names_of, with_name};
ghost use Rattle.otel_propagation.specs.CompositeList.{InjectsEach, ExtractsEach, EachIsInfallible, fields_onto};

use opentelemetry::Context;
use opentelemetry::propagation::{Extractor, FieldIter, Injector, TextMapPropagator};
use std::alloc::{AllocError, Global};

/// Injects by each propagator in turn until one is refused, and extracts in the same order.
#[derive(Debug, Drop)]
pub struct TextMapCompositePropagator<P> {
    propagators: Vec<P>,
    fields: Vec<&'static str>,
}

impl<P: TextMapPropagator + Drop> TextMapCompositePropagator<P> {
    /// All as one. Its fields are those of each in turn, each name once, at its first place; `AllocError` where there
    /// is no memory for the list of them.
    pub fn new(
        alloc: Global,
        propagators: Vec<P>,
    ) -> Result<TextMapCompositePropagator<P>, AllocError>
        ensures propagators { IfOk result (λ all. all.propagators ≡ propagators) }
        ensures fields { IfOk result (λ all. names_of all.fields.items
            ≡ fields_onto P.field_names [] propagators.items) }
    {
        let fields = fields_of(alloc, &propagators)?;
        Ok(TextMapCompositePropagator {
            propagators,
            fields,
        })
    }
}

impl<P: TextMapPropagator> TextMapPropagator for TextMapCompositePropagator<P> {
    ghost use Rattle.otel_propagation.specs.Composite.{names_of};
    ghost use Rattle.otel_propagation.specs.CompositeList.{InjectsEach, ExtractsEach, ListIsInfallible};

    ghost inject_gives = { λ all. InjectsEach P.inject_gives all.propagators.items };

    ghost extract_gives = { λ all. ExtractsEach P.extract_gives all.propagators.items };

    ghost extract_is_infallible = { λ all.
        ListIsInfallible P.extract_gives P.extract_is_infallible all.propagators.items };

    ghost field_names = { λ all. names_of all.fields.items };

    /// Where one finds no memory, all texts of those before it stand in the carrier.
    fn inject_context<I: Injector>(
        &self,
        alloc: Global,
        cx: &Context,
        injector: &mut I,
    ) -> Result<(), AllocError> {
        inject_each(&self.propagators, alloc, cx, injector)
    }

    /// No propagators give a copy of the context.
    fn extract_with_context<X: Extractor>(
        &self,
        alloc: Global,
        cx: &Context,
        extractor: &X,
    ) -> Result<Context, AllocError> {
        let Some((first, more)) = self.propagators.split_first() else {
            return cx.clone();
        };
        let found = first.extract_with_context(alloc, cx, extractor)?;
        extract_each(more, alloc, found, extractor)
    }

    fn fields(&self) -> FieldIter<'_> {
        FieldIter::new(&self.fields)
    }
}

fn inject_each<P: TextMapPropagator, I: Injector>(
    propagators: &[P],
    alloc: Global,
    cx: &Context,
    injector: &mut I,
) -> Result<(), AllocError>
    ensures { InjectsEach P.inject_gives propagators.now cx.now (I.texts injector.old) result (I.texts injector.new) }
{
    for propagator in propagators {
        propagator.inject_context(alloc, cx, injector)?;
    }
    Ok(())
}

fn extract_each<P: TextMapPropagator, X: Extractor>(
    propagators: &[P],
    alloc: Global,
    mut cx: Context,
    extractor: &X,
) -> Result<Context, AllocError>
    ensures gives { IfOk result (ExtractsEach P.extract_gives propagators.now cx (X.reads extractor.now)) }
    ensures infallible { EachIsInfallible P.extract_gives P.extract_is_infallible propagators.now cx
        (X.reads extractor.now) → IsOk result }
{
    for propagator in propagators {
        cx = propagator.extract_with_context(alloc, &cx, extractor)?;
    }
    Ok(cx)
}

/// The fields of each, each once, at its first place.
fn fields_of<P: TextMapPropagator>(
    alloc: Global,
    propagators: &[P],
) -> Result<Vec<&'static str>, AllocError>
    ensures { IfOk result (λ fields. names_of fields.items ≡ fields_onto P.field_names [] propagators.now) }
{
    let mut fields = Vec::new(alloc);
    for propagator in propagators {
        put_fields(&mut fields, propagator.fields())?;
    }
    Ok(fields)
}

/// Puts names after those of a list, each once.
fn put_fields(fields: &mut Vec<&'static str>, names: FieldIter<'_>) -> Result<(), AllocError>
    ensures { OnOk result (names_of fields.new.items ≡ joined_onto (names_of fields.old.items) names.entry) }
{
    for name in names {
        put_field(fields, name)?;
    }
    Ok(())
}

/// The same for one name.
fn put_field(fields: &mut Vec<&'static str>, name: &'static str) -> Result<(), AllocError>
    ensures { OnOk result (names_of fields.new.items ≡ with_name (names_of fields.old.items) name.now) }
{
    if fields.contains(&name) {
        return Ok(());
    }
    fields.push(name)?;
    Ok(())
}
