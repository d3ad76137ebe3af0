//! The rejection threshold (OpenTelemetry specification, "TraceState: Probability Sampling", "Rejection threshold"):
//! of the 2^56 numbers that a trace may have as its randomness, how many are rejected.

ghost use Rattle.std.specs.Prelude.{◌≡◌, ◌<◌, ◌≤◌, ◌^◌, ◌↔◌, IfSome, IsTrue, OnOk};
ghost use Rattle.opentelemetry.specs.Hex.{hex_digit, hex_text};
ghost use Rattle.opentelemetry.specs.Text.{TextGrows};
ghost use Rattle.otel_probability.specs.Numbers.{every_number, keeps, short_hex, threshold_of_share, threshold_of_text};
ghost use Rattle.otel_probability.specs.Numbers.{threshold_text};

use crate::Randomness;
use opentelemetry::trace_context::number_from_hex;
use otel_sampling::trace::Ratio;
use std::alloc::AllocError;
use std::marker::Model;

/// How many digits a threshold has.
const DIGITS: usize = 14;

/// How many numbers are rejected, from the least one on. Zero rejects none, and 2^56 all.
#[derive(Clone, Copy, Debug, PartialEq, Eq)]
pub struct Threshold(u64);

impl Model for Threshold {
    ghost use Rattle.std.specs.Prelude.{ℕ, ◌≤◌};
    ghost use Rattle.otel_probability.specs.Numbers.{every_number};

    ghost Value = { ℕ };

    ghost view = { λ threshold. threshold.0 };

    ghost inverse = { λ number. record { 0 = number } };

    ghost invariant = { λ threshold. threshold.0 ≤ every_number };
}

impl Threshold {
    /// All spans are kept.
    pub const ALWAYS: Threshold = Threshold(0);

    /// No span is kept.
    pub const NEVER: Threshold = Threshold(1 << 56);

    /// The threshold of a share: it keeps so many of the 2^56 numbers as come nearest to the share, and half way
    /// between two whole numbers the greater one.
    pub fn of_share(share: Ratio) -> Threshold
        ensures { result ≡ threshold_of_share share }
    {
        let denominator = u128::from(share.denominator());
        let doubled = u128::from(share.numerator()) * (1 << 57) + denominator;
        let kept = doubled / (2 * denominator);
        if kept >= 1 << 56 {
            return Threshold::ALWAYS;
        }
        Threshold((1 << 56) - kept as u64)
    }

    /// Reads the text of a `th`: 1 to 14 digits 0-9 a-f, those left out at the end being zeros.
    pub fn from_text(text: &str) -> Option<Threshold>
        ensures value { result ≡ threshold_of_text text.now }
        ensures small { IfSome result (λ threshold. threshold < every_number) }
    {
        let count = text.len();
        if count == 0 || count > DIGITS {
            return None;
        }
        let front = number_from_hex(text, count)?;
        Some(Threshold(front as u64 * 16u64.pow((DIGITS - count) as u32)))
    }

    /// Whether a span of this randomness is kept.
    pub fn keeps(self, randomness: Randomness) -> bool
        ensures { result ≡ keeps self randomness }
    {
        self.0 <= randomness.to_u64()
    }

    /// Whether no span is kept.
    pub fn keeps_none(self) -> bool
        ensures { IsTrue result ↔ (self ≡ every_number) }
    {
        self.0 == 1 << 56
    }

    /// The number.
    pub fn to_u64(self) -> u64
        ensures value { result ≡ self }
        ensures bound { result ≤ every_number }
    {
        self.0
    }

    /// Puts the text of a `th` after others.
    pub(crate) fn push_text(self, text: &mut String) -> Result<(), AllocError>
        ensures { OnOk result (TextGrows text.old (threshold_text self) text.new) }
    {
        push_short_hex(text, DIGITS, self.0)
    }
}

/// Puts so many digits of a number after a text, without the zeros at their end, the first digit always.
fn push_short_hex(text: &mut String, count: usize, number: u64) -> Result<(), AllocError>
    ensures { OnOk result (TextGrows text.old (short_hex count number) text.new) }
{
    if count > 1 && number % 16 == 0 {
        return push_short_hex(text, count - 1, number / 16);
    }
    push_hex(text, count, number)
}

/// Puts so many digits of a number after a text.
fn push_hex(text: &mut String, count: usize, number: u64) -> Result<(), AllocError>
    ensures { OnOk result (TextGrows text.old (hex_text count number) text.new) }
{
    if count == 0 {
        return Ok(());
    }
    push_hex(text, count - 1, number / 16)?;
    text.push(digit(number % 16))
}

/// The digit of a number below 16.
fn digit(number: u64) -> char
    requires { number < 16 }
    ensures { result ≡ hex_digit number }
{
    if number < 10 {
        char::from(b'0' + number as u8)
    } else {
        char::from(b'a' + (number - 10) as u8)
    }
}
