//! Which share of all traces is sampled (OpenTelemetry specification, "TraceIdRatioBased"): an exact fraction, so that
//! every service that is configured with one text decides alike.

ghost use Rattle.std.specs.Prelude.{◌≡◌, ◌≢◌, ◌+◌, ◌*◌, ◌^◌, ◌<◌, ◌≤◌, ◌↔◌, IfOk, IfSome, IsOk, MatchOption, length};
ghost use Rattle.std.specs.Str.Parse.{AllDigits, digits_value_after};
ghost use Rattle.otel_sampling.specs.Ratio.{PlainRatio, IsDecimal, IsRatioText, WritesRatio, low_half, samples};

use opentelemetry::TraceId;
use std::marker::Model;
use thiserror::Error;

/// The most digits that a ratio's text has, so that any number of them fits 64 bits.
const MAX_DIGITS: usize = 19;

/// Why there is no such ratio.
#[derive(Clone, Copy, Debug, PartialEq, Eq, Error)]
pub enum RatioError {
    /// The denominator is zero.
    #[error("a ratio's denominator is zero")]
    ZeroDenominator,
}

/// A share of all traces, as a fraction whose denominator is not zero. One of 1 or more is all of them.
#[derive(Clone, Copy, Debug, PartialEq, Eq)]
pub struct Ratio {
    numerator: u64,
    denominator: u64,
}

impl Model for Ratio {
    ghost use Rattle.std.specs.Prelude.{◌<◌};
    ghost use Rattle.otel_sampling.specs.Ratio.{PlainRatio};

    ghost Value = { PlainRatio };

    ghost view = { λ r. record { numerator = r.numerator; denominator = r.denominator } };

    ghost inverse = { λ r. record { numerator = r.numerator; denominator = r.denominator } };

    ghost invariant = { λ r. 0 < r.denominator };
}

impl Ratio {
    /// All traces.
    pub(crate) const ALL: Ratio = Ratio {
        numerator: 1,
        denominator: 1,
    };

    /// So many of so many traces. It takes no memory; a denominator of zero is refused.
    pub fn new(numerator: u64, denominator: u64) -> Result<Ratio, RatioError>
        ensures ok { IfOk result (λ ratio. ratio ≡ record { numerator = numerator; denominator = denominator }) }
        ensures only { IsOk result ↔ (denominator ≢ 0) }
    {
        if denominator == 0 {
            return Err(RatioError::ZeroDenominator);
        }
        Ok(Ratio {
            numerator,
            denominator,
        })
    }

    /// Reads a decimal: an optional `+` or `-`, then digits with at most one point, 1 to 19 digits in all, and nothing
    /// else. After a `-` it is 0/1. `0.25` is 25/100.
    pub fn from_text(text: &str) -> Option<Ratio>
        ensures { MatchOption result
            ((ratio : PlainRatio) → IsRatioText text.now ratio → ⊥)
            (λ ratio. IsRatioText text.now ratio) }
    {
        if let Some(size) = text.strip_prefix('-') {
            decimal(size)?;
            return Some(Ratio {
                numerator: 0,
                denominator: 1,
            });
        }
        match text.strip_prefix('+') {
            Some(size) => decimal(size),
            None => decimal(text),
        }
    }

    /// The number above the line.
    pub fn numerator(&self) -> u64
        ensures { result ≡ self.now.numerator }
    {
        self.numerator
    }

    /// The number below the line, which is not zero.
    pub fn denominator(&self) -> u64
        ensures value { result ≡ self.now.denominator }
        ensures not_zero { 0 < result }
    {
        self.denominator
    }

    /// Whether a trace is among this share, by the low half of its id: one comparison, with no division.
    pub(crate) fn samples(&self, trace_id: TraceId) -> bool
        ensures { result ≡ samples self.now trace_id }
    {
        let place = u128::from(low_half(trace_id) / 2 + 1);
        place * u128::from(self.denominator) <= u128::from(self.numerator) * (1 << 63)
    }
}

/// The last 8 bytes of a trace id.
fn low_half(trace_id: TraceId) -> u64
    ensures { result ≡ low_half trace_id }
{
    let [_, _, _, _, _, _, _, _, a, b, c, d, e, f, g, h] = trace_id.to_bytes();
    u64::from_be_bytes([a, b, c, d, e, f, g, h])
}

/// The ratio that a decimal without a sign writes.
fn decimal(text: &str) -> Option<Ratio>
    ensures { MatchOption result
        ((ratio : PlainRatio) → IsDecimal text.now ratio → ⊥)
        (λ ratio. IsDecimal text.now ratio) }
{
    match text.split_once('.') {
        Some((whole, fraction)) => ratio_of(whole.as_bytes(), fraction.as_bytes()),
        None => ratio_of(text.as_bytes(), &[]),
    }
}

/// The ratio that the digits of a decimal write, those in front of its point and those after it.
fn ratio_of(whole: &[u8], fraction: &[u8]) -> Option<Ratio>
    ensures { MatchOption result
        ((ratio : PlainRatio) → WritesRatio whole.now fraction.now ratio → ⊥)
        (λ ratio. WritesRatio whole.now fraction.now ratio) }
{
    let count = whole.len() + fraction.len();
    if count == 0 || count > MAX_DIGITS {
        return None;
    }
    let front = number_after(0, whole)?;
    let numerator = number_after(front, fraction)?;
    Some(Ratio {
        numerator,
        denominator: 10u64.pow(fraction.len() as u32),
    })
}

/// The number that digits write after those of another number; none where a byte is no digit.
fn number_after(start: u64, digits: &[u8]) -> Option<u64>
    requires { (start + 1) * 10 ^ length digits.now ≤ 10 ^ 19 }
    ensures value { MatchOption result
        (AllDigits 10 digits.now → ⊥)
        (λ number. AllDigits 10 digits.now × (number ≡ digits_value_after 10 start digits.now)) }
    ensures fits { IfSome result (λ number. number + 1 ≤ (start + 1) * 10 ^ length digits.now) }
{
    let mut number = start;
    for digit in digits {
        match digit {
            b'0'..=b'9' => number = number * 10 + u64::from(*digit - b'0'),
            _ => return None,
        }
    }
    Some(number)
}
