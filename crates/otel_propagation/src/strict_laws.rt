//! The laws of strict baggage headers, over the definitions alone. Each function does nothing; its contract is the law,
//! for all values.

ghost use Rattle.std.specs.Prelude.{◌≡◌, ◌≢◌, ◌≤◌, ℕ, true, List, [], All, length};
ghost use Rattle.opentelemetry.specs.Baggage.{PlainBaggage, HasDistinctNames, IsWithinLimits};
ghost use Rattle.opentelemetry.specs.Carrier.{Texts};
ghost use Rattle.opentelemetry.specs.Plain.{PlainContext};
ghost use Rattle.otel_propagation.specs.BaggageHeader.{baggage_field, entries_of, header_of};
ghost use Rattle.otel_propagation.specs.BaggageHeader.{IsBaggage, IsSaidUnchanged};
ghost use Rattle.otel_propagation.specs.StrictGrammar.{without_blanks, IsBaggageHeader};
ghost use Rattle.otel_propagation.specs.StrictBaggage.{strict_entries_of, strict_header_of, written_entries};
ghost use Rattle.otel_propagation.specs.StrictBaggage.{ExtractsStrictBaggage, InjectsStrictBaggage};
ghost use Rattle.otel_propagation.specs.StrictLaws.{is_graphic, HasPlainToken};

/// What is written of a baggage, whatever stands in it, is a header of the grammar, which spells the entries that are
/// written; or nothing is left to write.
pub fn strict_headers_are_of_the_grammar()
    ensures { (es : PlainBaggage) → IsWithinLimits es → strict_header_of es ≢ []
        → IsBaggageHeader (strict_header_of es) (written_entries es) }
{}

/// Each byte of what is written is a graphic character of ASCII: no line break, no other control, no white space.
pub fn strict_headers_are_graphic()
    ensures { (es : PlainBaggage) → All (λ b. is_graphic b ≡ true) (strict_header_of es) }
{}

/// A header of the grammar with one entry a name, and at most 64 of them, reads as the entries that it spells.
pub fn strict_headers_are_read()
    ensures { (header : List ℕ) (es : PlainBaggage) → IsBaggageHeader header es → HasDistinctNames es
        → length es ≤ 64 → strict_entries_of header ≡ es }
{}

/// Of any header only what is of the grammar is read: it is written as it was read.
pub fn strict_entries_are_written_as_read()
    ensures { (header : List ℕ) → written_entries (strict_entries_of header) ≡ strict_entries_of header }
{}

/// Read and written back it is the same header, byte for byte and in order, without the optional white space.
pub fn strict_headers_are_passed_on()
    ensures { (header : List ℕ) (es : PlainBaggage) → IsBaggageHeader header es → HasDistinctNames es
        → length es ≤ 64 → strict_header_of (strict_entries_of header) ≡ without_blanks header }
{}

/// What a service extracts of such a header, if it is short enough to be read, and injects, is that header.
pub fn strict_headers_cross_services()
    ensures { (header : List ℕ) (es : PlainBaggage) (cx found : PlainContext) (texts old new : Texts)
        → IsBaggageHeader header es → HasDistinctNames es → length es ≤ 64 → length header ≤ 8192
        → texts baggage_field ≡ Some header → ExtractsStrictBaggage cx texts found
        → InjectsStrictBaggage found old (Ok tt) new → new baggage_field ≡ Some (without_blanks header) }
{}

/// What a `BaggagePropagator` writes of names that are tokens, without properties, a strict one passes on unchanged.
pub fn baggage_headers_pass_through_strict_ones()
    ensures same { (es : PlainBaggage) → IsBaggage es → All IsSaidUnchanged es → All HasPlainToken es
        → strict_header_of (strict_entries_of (header_of es)) ≡ header_of es }
    ensures back { (es : PlainBaggage) → IsBaggage es → All IsSaidUnchanged es → All HasPlainToken es
        → entries_of (strict_header_of (strict_entries_of (header_of es))) ≡ es }
{}
