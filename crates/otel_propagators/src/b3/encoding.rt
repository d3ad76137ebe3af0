//! Which of the B3 headers a propagator writes.

ghost use Rattle.std.specs.Prelude.{◌≡◌};
ghost use Rattle.otel_propagators.specs.B3Headers.{fields_of};

use opentelemetry::propagation::FieldIter;

/// The headers that are written. Both kinds are read, whichever is written.
#[derive(Clone, Copy, Debug, PartialEq, Eq, Default)]
pub enum B3Encoding {
    /// `x-b3-traceid`, `x-b3-spanid`, and `x-b3-sampled` or `x-b3-flags`.
    MultipleHeader,
    /// `b3` alone.
    #[default]
    SingleHeader,
    /// `b3`, and the many after it.
    SingleAndMultiHeader,
}

impl B3Encoding {
    /// The names of the headers.
    pub fn fields(self) -> FieldIter<'static>
        ensures { result ≡ fields_of self }
    {
        match self {
            B3Encoding::MultipleHeader => FieldIter::new(&[
                "x-b3-traceid",
                "x-b3-spanid",
                "x-b3-sampled",
                "x-b3-flags",
            ]),
            B3Encoding::SingleHeader => FieldIter::new(&["b3"]),
            B3Encoding::SingleAndMultiHeader => FieldIter::new(&[
                "b3",
                "x-b3-traceid",
                "x-b3-spanid",
                "x-b3-sampled",
                "x-b3-flags",
            ]),
        }
    }
}
