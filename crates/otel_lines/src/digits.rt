//! Ids and moments as digits, with what parts them, in a buffer that is filled from its end: a text takes them in one
//! copy, and nothing is formatted. Digits are read from a table, two for each byte.

ghost use Rattle.std.specs.Prelude.{◌≡◌, ℕ, ◌+◌, ◌*◌, ◌<◌, ◌≤◌, List, [], ◌∷◌, ◌++◌, OnOk, length, drop};
ghost use Rattle.std.specs.Fmt.{decimal};
ghost use Rattle.opentelemetry.specs.Hex.{hex_text};
ghost use Rattle.opentelemetry.specs.Text.{TextGrows};
ghost use Rattle.otel_lines.specs.HexBytes.{byte_text, bytes_text};

use itoa::write_digits;
use opentelemetry::{SpanId, TraceFlags, TraceId};
use std::alloc::AllocError;
use std::marker::Model;
use std::str::from_utf8_unchecked;

/// How many bytes there is room for.
const ROOM: usize = 128;

/// The two digits of each byte.
static BYTES: [u8; 512] = *b"\
    000102030405060708090a0b0c0d0e0f101112131415161718191a1b1c1d1e1f\
    202122232425262728292a2b2c2d2e2f303132333435363738393a3b3c3d3e3f\
    404142434445464748494a4b4c4d4e4f505152535455565758595a5b5c5d5e5f\
    606162636465666768696a6b6c6d6e6f707172737475767778797a7b7c7d7e7f\
    808182838485868788898a8b8c8d8e8f909192939495969798999a9b9c9d9e9f\
    a0a1a2a3a4a5a6a7a8a9aaabacadaeafb0b1b2b3b4b5b6b7b8b9babbbcbdbebf\
    c0c1c2c3c4c5c6c7c8c9cacbcccdcecfd0d1d2d3d4d5d6d7d8d9dadbdcdddedf\
    e0e1e2e3e4e5e6e7e8e9eaebecedeeeff0f1f2f3f4f5f6f7f8f9fafbfcfdfeff";

/// A short text of ASCII that grows at its front.
#[derive(Drop)]
pub struct Digits {
    buffer: [u8; ROOM],
    // Where the text begins. It ends where the buffer does.
    begin: usize,
}

impl Model for Digits {
    ghost use Rattle.std.specs.Prelude.{◌≤◌, ℕ, List, drop, IsAscii};

    ghost Value = { List ℕ };

    ghost view = { λ digits. drop digits.begin digits.buffer };

    ghost invariant = { λ digits. (digits.begin ≤ 128) × IsAscii (drop digits.begin digits.buffer) };
}

impl Digits {
    #[inline(always)]
    pub fn new() -> Digits
        ensures { result ≡ [] }
    {
        Digits {
            buffer: [0; ROOM],
            begin: ROOM,
        }
    }

    /// Puts a byte in front.
    #[inline(always)]
    pub fn put(&mut self, byte: u8)
        requires { (byte < 128) × (length self.old < 128) }
        ensures front { self.new ≡ byte ∷ self.old }
        ensures length { length self.new ≡ 1 + length self.old }
    {
        self.begin -= 1;
        self.buffer[self.begin] = byte;
    }

    /// Puts the decimal digits of a number in front.
    #[inline(always)]
    pub fn put_decimal(&mut self, number: u64)
        requires { 20 + length self.old ≤ 128 }
        ensures front { self.new ≡ decimal number ++ self.old }
        ensures length { length self.new ≤ 20 + length self.old }
    {
        self.begin = write_digits(number, &mut self.buffer, self.begin);
    }

    /// Puts the id of a trace in front.
    #[inline(always)]
    pub fn put_trace_id(&mut self, id: TraceId)
        requires { 32 + length self.old ≤ 128 }
        ensures front { self.new ≡ hex_text 32 id ++ self.old }
        ensures length { length self.new ≡ 32 + length self.old }
    {
        self.put_bytes(&id.to_bytes());
    }

    /// Puts the id of a span in front.
    #[inline(always)]
    pub fn put_span_id(&mut self, id: SpanId)
        requires { 16 + length self.old ≤ 128 }
        ensures front { self.new ≡ hex_text 16 id ++ self.old }
        ensures length { length self.new ≡ 16 + length self.old }
    {
        self.put_bytes(&id.to_bytes());
    }

    /// Puts flags in front.
    #[inline(always)]
    pub fn put_flags(&mut self, flags: TraceFlags)
        requires { 2 + length self.old ≤ 128 }
        ensures front { self.new ≡ hex_text 2 flags ++ self.old }
        ensures length { length self.new ≡ 2 + length self.old }
    {
        self.put_bytes(&[flags.to_u8()]);
    }

    /// Puts the hexadecimal digits of bytes in front.
    #[inline(always)]
    fn put_bytes(&mut self, bytes: &[u8])
        requires { 2 * length bytes.now + length self.old ≤ 128 }
        ensures front { self.new ≡ bytes_text bytes.now ++ self.old }
        ensures length { length self.new ≡ 2 * length bytes.now + length self.old }
    {
        self.begin = write_bytes(bytes, &mut self.buffer, self.begin);
    }

    /// The text.
    #[inline(always)]
    pub fn as_str(&self) -> &str
        ensures { result.now ≡ self.now }
    {
        unsafe { from_utf8_unchecked(&self.buffer[self.begin..]) }
    }
}

/// Writes the hexadecimal digits of bytes so that they end at a place, and answers where they begin.
#[inline(always)]
fn write_bytes(bytes: &[u8], buffer: &mut [u8; ROOM], end: usize) -> usize
    requires { (2 * length bytes.now ≤ end) × (end ≤ 128) }
    ensures begin { result + 2 * length bytes.now ≡ end }
    ensures written { drop result buffer.new ≡ bytes_text bytes.now ++ drop end buffer.old }
{
    let mut at = end;
    let mut left = bytes.len();
    while left > 0 {
        left -= 1;
        at -= 2;
        write_byte(bytes[left], buffer, at);
    }
    at
}

/// Writes the two digits of a byte at a place.
#[inline(always)]
fn write_byte(byte: u8, buffer: &mut [u8; ROOM], at: usize)
    requires { at + 2 ≤ 128 }
    ensures { drop at buffer.new ≡ byte_text byte ++ drop (at + 2) buffer.old }
{
    let from = byte as usize * 2;
    buffer[at] = BYTES[from];
    buffer[at + 1] = BYTES[from + 1];
}

/// Puts the decimal digits of a number after a text. Most have one.
#[inline(always)]
pub fn push_decimal(text: &mut String, number: u64) -> Result<(), AllocError>
    ensures { OnOk result (TextGrows text.old (decimal number) text.new) }
{
    if number < 10 {
        return text.push(char::from(b'0' + number as u8));
    }
    let mut digits = Digits::new();
    digits.put_decimal(number);
    text.push_str(digits.as_str())
}
