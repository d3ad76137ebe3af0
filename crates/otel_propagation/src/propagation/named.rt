//! The names of propagators in a text (OpenTelemetry specification, "General SDK Configuration", OTEL_PROPAGATORS).
//! Nothing here reads an environment: the application hands the text in.

ghost use Rattle.std.specs.Prelude.{◌≡◌, All, IfOk, OnOk, map, string_bytes};
ghost use Rattle.std.specs.List.{list_any};
ghost use Rattle.std.specs.Option.{option_copied};
ghost use Rattle.std.specs.Str.{bytes_eq};
ghost use Rattle.otel_propagation.specs.NamedPropagators.{HasItsKind, is_name, name_of, names_in, text_or_default};
ghost use Rattle.otel_propagation.specs.NamedPropagators.{with_name_where};

use std::alloc::{AllocError, Global};

/// What counts where nothing is configured.
const DEFAULT_PROPAGATORS: &str = "tracecontext,baggage";

/// A propagator that a text names.
#[derive(Debug, Drop)]
pub enum NamedPropagator {
    /// `tracecontext`
    TraceContext,
    /// `baggage`
    Baggage,
    /// `baggage-strict`, a name that is not the specification's.
    StrictBaggage,
    /// A name that is not built in.
    Unknown(String),
}

impl NamedPropagator {
    /// The propagator of a name.
    fn of(alloc: Global, name: &str) -> Result<NamedPropagator, AllocError>
        ensures name { IfOk result (λ named. name_of named ≡ name.now) }
        ensures kind { IfOk result HasItsKind }
    {
        Ok(match name {
            "tracecontext" => NamedPropagator::TraceContext,
            "baggage" => NamedPropagator::Baggage,
            "baggage-strict" => NamedPropagator::StrictBaggage,
            unknown => NamedPropagator::Unknown(String::from_str(alloc, unknown)?),
        })
    }

    /// The name in the text.
    pub fn name(&self) -> &str
        ensures { result.now ≡ name_of self.now }
    {
        match self {
            NamedPropagator::TraceContext => "tracecontext",
            NamedPropagator::Baggage => "baggage",
            NamedPropagator::StrictBaggage => "baggage-strict",
            NamedPropagator::Unknown(name) => name.as_str(),
        }
    }
}

/// The propagators of the names between commas, usually of `OTEL_PROPAGATORS`, in their order, each once. `none` adds
/// none. An absent or blank text counts as `tracecontext,baggage`.
pub fn named_propagators(
    alloc: Global,
    text: Option<&str>,
) -> Result<Vec<NamedPropagator>, AllocError>
    ensures names { IfOk result (λ named. map name_of named.items
        ≡ names_in (text_or_default (option_copied text.entry))) }
    ensures kinds { IfOk result (λ named. All HasItsKind named.items) }
{
    let mut named = Vec::new(alloc);
    'members: for member in text_or_default(text).split(',') {
        put_name(&mut named, alloc, member.trim())?;
    }
    Ok(named)
}

/// The text that counts.
fn text_or_default(text: Option<&str>) -> &str
    ensures { result.now ≡ text_or_default (option_copied text.entry) }
{
    match text {
        Some(text) if !text.trim().is_empty() => text,
        _ => DEFAULT_PROPAGATORS,
    }
}

/// Puts the propagator of a member after the others, unless it is there or the member names none.
fn put_name(named: &mut Vec<NamedPropagator>, alloc: Global, name: &str) -> Result<(), AllocError>
    ensures names { OnOk result (map name_of named.new.items
        ≡ with_name_where is_name (map name_of named.old.items) name.now) }
    ensures kinds { OnOk result (All HasItsKind named.old.items → All HasItsKind named.new.items) }
{
    if !is_name(name) {
        return Ok(());
    }
    if has_name(named, name) {
        return Ok(());
    }
    named.push(NamedPropagator::of(alloc, name)?)?;
    Ok(())
}

/// Whether a member names a propagator.
fn is_name(name: &str) -> bool
    ensures { result ≡ is_name name.now }
{
    !name.is_empty() && name != "none"
}

fn has_name(named: &[NamedPropagator], name: &str) -> bool
    ensures { result ≡ list_any (λ other. bytes_eq (name_of other) name.now) named.now }
{
    named.iter().any(|other| other.name() == name)
}
