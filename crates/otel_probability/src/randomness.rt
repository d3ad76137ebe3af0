//! The random number of a trace (OpenTelemetry specification, "TraceState: Probability Sampling", "Explicit
//! randomness" and "Random trace flag"), which every service compares with its threshold.

ghost use Rattle.std.specs.Prelude.{◌≡◌, ◌<◌};
ghost use Rattle.otel_probability.specs.Numbers.{every_number, randomness_of_id, randomness_of_text};

use opentelemetry::TraceId;
use opentelemetry::trace_context::number_from_hex;
use std::marker::Model;

/// A number of 56 bits.
#[derive(Clone, Copy, Debug, PartialEq, Eq)]
pub struct Randomness(u64);

impl Model for Randomness {
    ghost use Rattle.std.specs.Prelude.{ℕ, ◌<◌};
    ghost use Rattle.otel_probability.specs.Numbers.{every_number};

    ghost Value = { ℕ };

    ghost view = { λ randomness. randomness.0 };

    ghost inverse = { λ number. record { 0 = number } };

    ghost invariant = { λ randomness. randomness.0 < every_number };
}

impl Randomness {
    /// The last 56 bits of a trace id.
    pub fn of_trace_id(trace_id: TraceId) -> Randomness
        ensures { result ≡ randomness_of_id trace_id }
    {
        let [_, _, _, _, _, _, _, _, a, b, c, d, e, f, g, h] = trace_id.to_bytes();
        Randomness(u64::from_be_bytes([a, b, c, d, e, f, g, h]) % (1 << 56))
    }

    /// Reads the text of an `rv`: exactly 14 digits 0-9 a-f.
    pub fn from_text(text: &str) -> Option<Randomness>
        ensures { result ≡ randomness_of_text text.now }
    {
        let number = number_from_hex(text, 14)?;
        Some(Randomness(number as u64))
    }

    /// The number.
    pub fn to_u64(self) -> u64
        ensures value { result ≡ self }
        ensures bound { result < every_number }
    {
        self.0
    }
}
