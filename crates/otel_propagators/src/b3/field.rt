//! The names of the headers.

ghost use Rattle.std.specs.Prelude.{◌≡◌};
ghost use Rattle.otel_propagators.specs.B3Headers.{name_of};

/// A header of B3.
#[derive(Clone, Copy, Debug, PartialEq, Eq)]
pub enum Field {
    Single,
    TraceId,
    SpanId,
    Sampled,
    Flags,
}

impl Field {
    /// The header's name, in lower case.
    pub fn name(self) -> &'static str
        ensures { result.now ≡ name_of self }
    {
        match self {
            Field::Single => "b3",
            Field::TraceId => "x-b3-traceid",
            Field::SpanId => "x-b3-spanid",
            Field::Sampled => "x-b3-sampled",
            Field::Flags => "x-b3-flags",
        }
    }
}
