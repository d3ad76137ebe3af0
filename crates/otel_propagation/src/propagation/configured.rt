//! The propagators that a text names as one, with those of the caller among them.

ghost use Rattle.std.specs.Prelude.{◌≡◌, [], ◌∷◌, ◌++◌, IfOk, MatchResult, None, Some, filter_map, is_none, map};
ghost use Rattle.std.specs.Prelude.{string_bytes};
ghost use Rattle.std.specs.List.{filter};
ghost use Rattle.std.specs.Option.{option_copied};
ghost use Rattle.otel_propagation.specs.Composite.{names_of};
ghost use Rattle.otel_propagation.specs.CompositeList.{fields_onto};
ghost use Rattle.otel_propagation.specs.ConfiguredPropagators.{propagator_named};
ghost use Rattle.otel_propagation.specs.NamedPropagators.{HasItsKind, name_of, names_in, text_or_default};
ghost use Rattle.otel_propagation.specs.PropagatorKinds.{fields_by_kind};

use super::{
    BaggagePropagator, CustomPropagators, NamedPropagator, NoCustomPropagators,
    NoopTextMapPropagator, PropagatorOf, StrictBaggagePropagator, TextMapCompositePropagator,
    TraceContextPropagator, named_propagators,
};
use std::alloc::{AllocError, Global};

/// What a text configures. `C` is the type of custom propagators.
#[derive(Debug, Drop)]
pub struct ConfiguredPropagators<C> {
    /// The propagators that are named, each once, in the order of their names.
    pub propagator: TextMapCompositePropagator<PropagatorOf<C>>,
    /// The names of which no propagator is known, each once, in order.
    pub unknown: Vec<String>,
}

/// The propagators that `named_propagators` reads in a text, as one. Of names that are not built in, the custom ones are
/// asked: a caller that has none calls `built_in_propagators`.
pub fn configured_propagators<N: CustomPropagators>(
    alloc: Global,
    text: Option<&str>,
    custom: &N,
) -> Result<ConfiguredPropagators<N::Propagator>, AllocError>
    ensures named { IfOk result (λ configured. configured.propagator.propagators.items
        ≡ filter_map (propagator_named (N.custom_named custom.now))
        (names_in (text_or_default (option_copied text.entry)))) }
    ensures fields { IfOk result (λ configured. names_of configured.propagator.fields.items
        ≡ fields_onto (fields_by_kind N.Propagator.field_names) [] configured.propagator.propagators.items) }
    ensures unknown { IfOk result (λ configured. map string_bytes configured.unknown.items
        ≡ filter (λ name. is_none (propagator_named (N.custom_named custom.now) name))
        (names_in (text_or_default (option_copied text.entry)))) }
{
    let mut propagators = Vec::new(alloc);
    let mut unknown = Vec::new(alloc);
    for named in named_propagators(alloc, text)? {
        put_named(named, custom, &mut propagators, &mut unknown)?;
    }
    Ok(ConfiguredPropagators {
        propagator: TextMapCompositePropagator::new(alloc, propagators)?,
        unknown,
    })
}

/// The same where there are no custom ones: those that are built in, by their names.
pub fn built_in_propagators(
    alloc: Global,
    text: Option<&str>,
) -> Result<ConfiguredPropagators<NoopTextMapPropagator>, AllocError>
    ensures named { IfOk result (λ configured. configured.propagator.propagators.items
        ≡ filter_map (propagator_named (λ _. None)) (names_in (text_or_default (option_copied text.entry)))) }
    ensures unknown { IfOk result (λ configured. map string_bytes configured.unknown.items
        ≡ filter (λ name. is_none (propagator_named {C = NoopTextMapPropagator} (λ _. None) name))
        (names_in (text_or_default (option_copied text.entry)))) }
{
    configured_propagators(alloc, text, &NoCustomPropagators)
}

/// Puts the propagator of a name after those that are known, or the name after those of which no propagator is known.
fn put_named<N: CustomPropagators>(
    named: NamedPropagator,
    custom: &N,
    propagators: &mut Vec<PropagatorOf<N::Propagator>>,
    unknown: &mut Vec<String>,
) -> Result<(), AllocError>
    requires { HasItsKind named }
    ensures known { IfOk result (λ _. propagators.new.items
        ≡ propagators.old.items ++ filter_map (propagator_named (N.custom_named custom.now)) (name_of named ∷ [])) }
    ensures unknown { IfOk result (λ _. map string_bytes unknown.new.items ≡ map string_bytes unknown.old.items
        ++ filter (λ name. is_none (propagator_named (N.custom_named custom.now) name)) (name_of named ∷ [])) }
{
    match propagator_of(named, custom) {
        Ok(propagator) => propagators.push(propagator)?,
        Err(name) => unknown.push(name)?,
    }
    Ok(())
}

/// The propagator of a name, or the name where no propagator is known.
fn propagator_of<N: CustomPropagators>(
    named: NamedPropagator,
    custom: &N,
) -> Result<PropagatorOf<N::Propagator>, String>
    requires { HasItsKind named }
    ensures { MatchResult result
        (λ propagator. propagator_named (N.custom_named custom.now) (name_of named) ≡ Some propagator)
        (λ name. (propagator_named (N.custom_named custom.now) (name_of named) ≡ None)
        × (string_bytes name ≡ name_of named)) }
{
    match named {
        NamedPropagator::TraceContext => Ok(PropagatorOf::TraceContext(TraceContextPropagator)),
        NamedPropagator::Baggage => Ok(PropagatorOf::Baggage(BaggagePropagator)),
        NamedPropagator::StrictBaggage => Ok(PropagatorOf::StrictBaggage(StrictBaggagePropagator)),
        NamedPropagator::Unknown(name) => match custom.named(name.as_str()) {
            Some(propagator) => Ok(PropagatorOf::Custom(propagator)),
            None => Err(name),
        },
    }
}
