//! How a context crosses a process border: a propagator writes it into a carrier as texts under names, and reads it
//! back (OpenTelemetry specification, "Propagators API"). A carrier is a finite map from names to texts, as the
//! headers of an HTTP request are. Names that differ in ASCII case alone may be one name or two, as the carrier has it.

ghost use Rattle.std.specs.Prelude.{◌≡◌, ℕ, List, OnOk, OnErr, IfOk, IsOk, IsSome, All, map, string_bytes};
ghost use Rattle.std.specs.Option.{option_copied};
ghost use Rattle.std.specs.Iterator.{YieldsFirstBy, item_count};
ghost use Rattle.opentelemetry.specs.Carrier.{Texts, Injection, SetsText, SameTexts, HasName};
ghost use Rattle.opentelemetry.specs.Plain.{PlainContext};

pub mod blanks;
pub mod map_carrier;

use crate::Context;
pub use map_carrier::MapCarrier;
use std::alloc::{AllocError, Global};
use std::marker::Model;

/// What a propagator writes into. `texts` is what the carrier has, by name.
pub trait Injector {
    ghost texts: { Self → Texts };

    /// Gives a name a text, in place of the one that it had. `AllocError` where there is no memory for it: then each
    /// name has the text that it had.
    ///
    /// A text may have any character in it. A carrier over real headers must refuse or drop control characters, CR and
    /// LF above all, by itself; `MapCarrier` does not.
    fn set(&mut self, key: &str, value: String) -> Result<(), AllocError>
        ensures ok { OnOk result (SetsText (texts self.old) (texts self.new) key.now (string_bytes value)) }
        ensures err { OnErr result (SameTexts (texts self.old) (texts self.new)) };
}

/// What a propagator reads. `reads` is what it reads, by name, and `names` are the names that it can read.
///
/// A carrier that is an `Injector` too gives back what was set where `reads` is `texts`.
pub trait Extractor {
    ghost reads: { Self → Texts };

    ghost names: { Self → List (List ℕ) };

    fn get(&self, key: &str) -> Option<&str>
        ensures { option_copied result ≡ reads self.now key.now };

    /// The names, each with a text. A name that can be read is one of them, in the same case or another.
    fn keys(&self, alloc: Global) -> Result<Vec<&str>, AllocError>
        ensures named { IfOk result (λ keys. map (λ key. key.now) keys.items ≡ names self.now) }
        ensures read { IfOk result (λ keys. All (λ key. IsSome (reads self.now key.now)) keys.items) }
        ensures complete { (name : List ℕ) → IsSome (reads self.now name) → HasName name (names self.now) };
}

/// Writes what of a context travels into a carrier, and reads it from one.
pub trait TextMapPropagator {
    /// An answer of `inject_context`: the context, what the carrier had, the answer, and what the carrier has then.
    ghost inject_gives: { Self → Injection } = { λ _ _ _ _ _. Unit {0} };

    ghost extract_gives: { Self → PlainContext → Texts → PlainContext → Type 0 } = { λ _ _ _ _. Unit {0} };

    /// The contexts and texts from which it extracts even where no memory is left.
    ghost extract_is_infallible: { Self → PlainContext → Texts → Type 0 } = { λ _ _ _. ⊥ };

    ghost field_names: { Self → List (List ℕ) };

    /// Sets the texts of the context in the carrier. `alloc` says where they lie. `AllocError` where there is no memory
    /// for a text, or the carrier finds none; texts that were set before stay.
    fn inject_context<I: Injector>(
        &self,
        alloc: Global,
        cx: &Context,
        injector: &mut I,
    ) -> Result<(), AllocError>
        ensures { inject_gives self.now cx.now (I.texts injector.old) result (I.texts injector.new) };

    /// The context with what the carrier's texts say in place of what it had. `alloc` says where that lies. A text that
    /// is not valid says nothing; `AllocError` says that memory ran out.
    fn extract_with_context<X: Extractor>(
        &self,
        alloc: Global,
        cx: &Context,
        extractor: &X,
    ) -> Result<Context, AllocError>
        ensures gives { IfOk result (λ found. extract_gives self.now cx.now (X.reads extractor.now) found) }
        ensures infallible { extract_is_infallible self.now cx.now (X.reads extractor.now) → IsOk result };

    /// The names under which the propagator sets and reads texts.
    fn fields(&self) -> FieldIter<'_>
        ensures { result ≡ field_names self.now };
}

/// The names of a propagator's fields, in turn.
#[derive(Debug, Drop)]
pub struct FieldIter<'a> {
    names: &'a [&'static str],
    given: usize,
}

impl<'a> Model for FieldIter<'a> {
    ghost use Rattle.std.specs.Prelude.{ℕ, List, map, drop, length, ◌≤◌};

    ghost Value = { List (List ℕ) };

    ghost view = { λ a. map (λ name. name.now) (drop a.given a.names.now) };

    ghost invariant = { λ a. a.given ≤ length a.names.now };
}

impl<'a> FieldIter<'a> {
    /// Yields these names, in order.
    pub fn new(names: &'a [&'static str]) -> FieldIter<'a>
        ensures { result ≡ map (λ name. name.now) names.now }
    {
        FieldIter { names, given: 0 }
    }
}

impl<'a> Iterator for FieldIter<'a> {
    type Item = &'static str;

    ghost next_gives = { YieldsFirstBy (λ name. name.now) (λ names. names) };

    ghost remaining = { item_count (λ names. names) };

    fn next(&mut self) -> Option<&'static str> {
        let name = self.names.get(self.given)?;
        self.given += 1;
        Some(*name)
    }
}
