//! The text of a float.

ghost use Rattle.std.specs.Prelude.{◌≡◌, ℕ, ◌+◌, ◌*◌, ◌^◌, ◌<◌, ◌≤◌, List, [], ◌++◌, length, take, Some, IsTrue, IsAscii};
ghost use Rattle.std.specs.Float.{binary64, float_is_finite};
ghost use Rattle.fast_float.specs.Parse.{parse_float};
ghost use Rattle.otel_float.specs.FloatText as spec;
ghost use Rattle.ryu.specs.Plain.{IsPlainNumber};

use crate::decimal::{INFINITY, leading_of};
use crate::layout::push_layout;
use crate::shortest::{kept_count, rounded, without_zeros};
use std::marker::Model;
use std::num::f64_to_bits_with_nan;
use std::str;

const ROOM: usize = 64;

const SIGN: u64 = 1 << 63;

/// The text of a float, at most 24 bytes that it holds itself.
pub struct FloatText {
    bytes: [u8; ROOM],
    len: usize,
    ghost within: { len ≤ 64 },
    ghost ascii: { IsAscii bytes },
}

impl Model for FloatText {
    ghost Value = { List ℕ };

    ghost view = { λ it. take it.len it.bytes };
}

impl Drop for FloatText {
    fn drop(self) {
        let FloatText { bytes: _, len: _ } = self;
    }
}

impl FloatText {
    /// Writes a float: `0.1`, `3.0`, `1e300`, `5e-324`, `-0.0`, and `NaN`, `inf` and `-inf` as Rust does.
    pub fn new(x: f64) -> FloatText
        ensures text { result ≡ spec.float_text x }
        ensures parses { parse_float binary64 result ≡ Some x }
        ensures number { IsTrue (float_is_finite x) → IsPlainNumber result }
        ensures short { length result ≤ 24 }
    {
        let bits = f64_to_bits_with_nan(x);
        let mut out = FloatText::empty();
        if bits % SIGN > INFINITY {
            out.push(b"NaN");
            return out;
        }
        if bits >= SIGN {
            out.push(b"-");
        }
        push_size(&mut out, bits % SIGN);
        out
    }

    /// The text, of ASCII alone.
    pub fn as_str(&self) -> &str
        ensures text { result.now ≡ self.now }
        ensures ascii { IsAscii result.now }
    {
        match str::from_utf8(&self.bytes[..self.len]) {
            Ok(text) => text,
            Err(_) => "",
        }
    }

    fn empty() -> FloatText
        ensures { result ≡ [] }
    {
        FloatText {
            bytes: [0; ROOM],
            len: 0,
        }
    }

    pub(crate) fn push(&mut self, more: &[u8])
        requires room { length self.old + length more.now ≤ 64 }
        requires ascii { IsAscii more.now }
        ensures text { self.new ≡ self.old ++ more.now }
        ensures len { length self.new ≡ length self.old + length more.now }
    {
        let end = self.len + more.len();
        self.bytes[self.len..end].copy_from_slice(more);
        self.len = end;
    }
}

fn push_finite(out: &mut FloatText, bits: u64)
    requires room { length out.old ≤ 1 }
    requires finite { (0 < bits) × (bits < 2047 * 2 ^ 52) }
    ensures { out.new ≡ out.old ++ spec.finite_text bits }
{
    let leading = leading_of(bits);
    let count = kept_count(bits, leading);
    let (digits, power) = without_zeros(
        rounded(bits, leading, count),
        leading.point.saturating_sub(count),
    );
    push_layout(out, digits, power)
}

fn push_size(out: &mut FloatText, bits: u64)
    requires room { length out.old ≤ 1 }
    requires number { bits ≤ 2047 * 2 ^ 52 }
    ensures { out.new ≡ out.old ++ spec.size_text bits }
{
    if bits == 0 {
        out.push(b"0.0")
    } else if bits < INFINITY {
        push_finite(out, bits)
    } else {
        out.push(b"inf")
    }
}
