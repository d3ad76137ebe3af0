//! The ids of traces and spans, and the flags that travel with them (W3C Trace Context, section 3.2.2). Each is a
//! number to contracts; an id is invalid exactly where it is zero.

ghost use Rattle.std.specs.Prelude.{◌≡◌, ℕ, ◌+◌, ◌*◌, ◌/◌, ◌%◌, ◌^◌, ◌<◌, ◌≤◌};
ghost use Rattle.std.specs.Prelude.{◌↔◌, if◌then◌else◌, IfSome, IfOk, IsSome, IsOk, IsTrue, Ok};
ghost use Rattle.std.specs.Int.{w64, w128, to_be_bytes};
ghost use Rattle.opentelemetry.specs.Hex.{hex_digit, hex_text, IsHexDigit, IsHexText};

use std::fmt;
use std::marker::Model;
use std::ops::BitAnd;
use thiserror::Error;

/// A text that is no id: it has another length than the id's text, or a byte that is no digit 0-9 a-f.
#[derive(Clone, Copy, Debug, PartialEq, Eq, Error)]
#[error("an id is written in exactly as many digits 0-9 a-f as it has half bytes")]
pub struct ParseIdError;

/// The number that a lower-case digit stands for.
fn digit_value(byte: u8) -> Option<u8>
    ensures value { IfSome result (λ d. (d < 16) × (byte ≡ hex_digit d)) }
    ensures only { IsSome result ↔ IsHexDigit byte }
{
    match byte {
        b'0'..=b'9' => Some(byte - b'0'),
        b'a'..=b'f' => Some(byte - b'a' + 10),
        _ => None,
    }
}

/// The number that a text of exactly `count` digits 0-9 a-f spells.
pub fn number_from_hex(text: &str, count: usize) -> Option<u128>
    requires { count ≤ 32 }
    ensures value { IfSome result (λ n. (n < 16 ^ count) × (text.now ≡ hex_text count n)) }
    ensures only { IsSome result ↔ IsHexText count text.now }
{
    let digits = text.as_bytes();
    if digits.len() != count {
        return None;
    }
    let mut number: u128 = 0;
    for digit in digits {
        match digit_value(*digit) {
            Some(value) => number = number * 16 + value as u128,
            None => return None,
        }
    }
    Some(number)
}

/// The id of a trace: 16 bytes, shared by all of its spans.
#[derive(Clone, Copy, Debug, PartialEq, Eq, PartialOrd, Ord, Hash)]
pub struct TraceId(u128);

impl Model for TraceId {
    ghost Value = { ℕ };

    ghost view = { λ id. id.0 };

    ghost inverse = { λ n. record { 0 = n } };
}

impl TraceId {
    /// The id of no trace.
    pub const INVALID: TraceId = TraceId(0);

    /// Reads the text that `Display` writes: exactly 32 digits 0-9 a-f. Zeros alone spell the invalid id.
    pub fn from_hex(text: &str) -> Result<TraceId, ParseIdError>
        ensures value { IfOk result (λ id. text.now ≡ hex_text 32 id) }
        ensures only { IsOk result ↔ IsHexText 32 text.now }
        ensures reads_back { (id : ℕ) → id < 16 ^ 32 → text.now ≡ hex_text 32 id → result ≡ Ok id }
    {
        match number_from_hex(text, 32) {
            Some(number) => Ok(TraceId(number)),
            None => Err(ParseIdError),
        }
    }

    /// The bytes, the high one first.
    pub fn to_bytes(self) -> [u8; 16]
        ensures { result ≡ to_be_bytes w128 self }
    {
        self.0.to_be_bytes()
    }
}

impl From<u128> for TraceId {
    ghost use Rattle.std.specs.Prelude.{◌≡◌};

    ghost from_gives = { λ n id. id ≡ n };

    fn from(number: u128) -> TraceId {
        TraceId(number)
    }
}

impl fmt::Display for TraceId {
    ghost use Rattle.std.specs.Prelude.{Some};
    ghost use Rattle.opentelemetry.specs.Hex.{hex_text};

    ghost output = { λ id. Some (hex_text 32 id) };

    fn fmt<W: fmt::Write>(&self, f: &mut fmt::Formatter<W>) -> fmt::Result {
        let high = (self.0 >> 64) as u64;
        let low = (self.0 & 0xffff_ffff_ffff_ffff) as u64;
        write!(f, "{high:016x}{low:016x}")
    }
}

/// The id of a span within its trace: 8 bytes.
#[derive(Clone, Copy, Debug, PartialEq, Eq, PartialOrd, Ord, Hash)]
pub struct SpanId(u64);

impl Model for SpanId {
    ghost Value = { ℕ };

    ghost view = { λ id. id.0 };

    ghost inverse = { λ n. record { 0 = n } };
}

impl SpanId {
    /// The id of no span.
    pub const INVALID: SpanId = SpanId(0);

    /// Reads the text that `Display` writes: exactly 16 digits 0-9 a-f. Zeros alone spell the invalid id.
    pub fn from_hex(text: &str) -> Result<SpanId, ParseIdError>
        ensures value { IfOk result (λ id. text.now ≡ hex_text 16 id) }
        ensures only { IsOk result ↔ IsHexText 16 text.now }
        ensures reads_back { (id : ℕ) → id < 16 ^ 16 → text.now ≡ hex_text 16 id → result ≡ Ok id }
    {
        match number_from_hex(text, 16) {
            Some(number) => Ok(SpanId(number as u64)),
            None => Err(ParseIdError),
        }
    }

    /// The bytes, the high one first.
    pub fn to_bytes(self) -> [u8; 8]
        ensures { result ≡ to_be_bytes w64 self }
    {
        self.0.to_be_bytes()
    }
}

impl From<u64> for SpanId {
    ghost use Rattle.std.specs.Prelude.{◌≡◌};

    ghost from_gives = { λ n id. id ≡ n };

    fn from(number: u64) -> SpanId {
        SpanId(number)
    }
}

impl fmt::Display for SpanId {
    ghost use Rattle.std.specs.Prelude.{Some};
    ghost use Rattle.opentelemetry.specs.Hex.{hex_text};

    ghost output = { λ id. Some (hex_text 16 id) };

    fn fmt<W: fmt::Write>(&self, f: &mut fmt::Formatter<W>) -> fmt::Result {
        let number = self.0;
        write!(f, "{number:016x}")
    }
}

/// The flags of a span context: bit 0 says that the span is sampled.
#[derive(Clone, Copy, Debug, PartialEq, Eq, Hash, Default)]
pub struct TraceFlags(u8);

impl Model for TraceFlags {
    ghost Value = { ℕ };

    ghost view = { λ flags. flags.0 };

    ghost inverse = { λ n. record { 0 = n } };
}

// The sampled bit alone.
const _: () = prove!(TraceFlags::SAMPLED.0 % 2 == 1);

const _: () = prove!(TraceFlags::SAMPLED.0 / 2 == 0);

impl TraceFlags {
    /// The flags of a sampled span, the other bits zero.
    pub const SAMPLED: TraceFlags = TraceFlags(1);

    /// Flags of these bits (W3C Trace Context 3.2.2.5).
    pub fn new(flags: u8) -> TraceFlags
        ensures { result ≡ flags }
    {
        TraceFlags(flags)
    }

    /// Whether the lowest bit is set.
    pub fn is_sampled(&self) -> bool
        ensures { IsTrue result ↔ (self.now % 2 ≡ 1) }
    {
        self.0 % 2 == 1
    }

    /// These flags with the sampled bit set or cleared.
    pub fn with_sampled(&self, sampled: bool) -> TraceFlags
        ensures { result ≡ 2 * (self.now / 2) + (if sampled then 1 else 0) }
    {
        TraceFlags(2 * (self.0 / 2) + if sampled { 1 } else { 0 })
    }

    /// All eight bits.
    pub fn to_u8(self) -> u8
        ensures { result ≡ self }
    {
        self.0
    }
}

impl BitAnd for TraceFlags {
    type Output = TraceFlags;

    ghost use Rattle.std.specs.Prelude.{◌≡◌, bit_and};

    ghost bitand_gives = { λ flags mask result. result ≡ bit_and flags mask };

    fn bitand(self, mask: TraceFlags) -> TraceFlags {
        TraceFlags(self.0 & mask.0)
    }
}

impl fmt::Display for TraceFlags {
    ghost use Rattle.std.specs.Prelude.{Some};
    ghost use Rattle.opentelemetry.specs.Hex.{hex_text};

    ghost output = { λ flags. Some (hex_text 2 flags) };

    fn fmt<W: fmt::Write>(&self, f: &mut fmt::Formatter<W>) -> fmt::Result {
        let number = self.0;
        write!(f, "{number:02x}")
    }
}
