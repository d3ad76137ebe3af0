//! The text form of a trace state (W3C Trace Context, section 3.3): which keys and values are well formed, and what
//! stands between the commas of a text. None of these calls takes memory.

ghost use Rattle.std.specs.Prelude.{◌≡◌, ◌<◌, [], ◌∷◌, List, Some, None, length, ◌==◌};
ghost use Rattle.std.specs.Prelude.{MatchOption, IfSome};
ghost use Rattle.std.specs.List.{filter, list_all, position_or_len, slice_split};
ghost use Rattle.opentelemetry.specs.Tracestate.{is_key_start, is_key_byte, is_key, is_value_byte, is_value};
ghost use Rattle.opentelemetry.specs.Tracestate.{ends_with_space, is_equals, pair_of, pair_fault};
ghost use Rattle.opentelemetry.specs.Tracestate.{first_fault, is_some_text, members};

use super::TraceStateError;
use crate::propagation::blanks::trim_blanks;

fn is_key_start(byte: u8) -> bool
    ensures { result ≡ is_key_start byte }
{
    (b'a' <= byte && byte <= b'z') || (b'0' <= byte && byte <= b'9')
}

fn is_key_byte(byte: u8) -> bool
    ensures { result ≡ is_key_byte byte }
{
    is_key_start(byte)
        || byte == b'_'
        || byte == b'-'
        || byte == b'*'
        || byte == b'/'
        || byte == b'@'
}

fn are_key_bytes(bytes: &[u8]) -> bool
    ensures { result ≡ list_all is_key_byte bytes.now }
{
    bytes.iter().all(|byte| is_key_byte(*byte))
}

/// Whether a text is a key: 1 to 256 bytes.
pub fn is_key(key: &str) -> bool
    ensures { result ≡ is_key key.now }
{
    let bytes = key.as_bytes();
    if bytes.is_empty() || bytes.len() > 256 {
        return false;
    }
    is_key_start(bytes[0]) && are_key_bytes(bytes)
}

fn is_value_byte(byte: u8) -> bool
    ensures { result ≡ is_value_byte byte }
{
    b' ' <= byte && byte <= b'~' && !(byte == b',' || byte == b'=')
}

fn are_value_bytes(bytes: &[u8]) -> bool
    ensures { result ≡ list_all is_value_byte bytes.now }
{
    bytes.iter().all(|byte| is_value_byte(*byte))
}

fn ends_with_space(bytes: &[u8]) -> bool
    ensures { result ≡ ends_with_space bytes.now }
{
    match bytes.last() {
        Some(last) => *last == b' ',
        None => false,
    }
}

/// Whether a text is a value: at most 256 bytes, no space at the end.
pub fn is_value(value: &str) -> bool
    ensures { result ≡ is_value value.now }
{
    let bytes = value.as_bytes();
    bytes.len() <= 256 && are_value_bytes(bytes) && !ends_with_space(bytes)
}

/// What is wrong with a pair, the key first.
pub fn pair_fault(key: &str, value: &str) -> Option<TraceStateError>
    ensures { result ≡ pair_fault (key.now, value.now) }
{
    if !is_key(key) {
        return Some(TraceStateError::Key);
    }
    if !is_value(value) {
        return Some(TraceStateError::Value);
    }
    None
}

/// The key and the value of a member, cut at its first equals sign.
pub fn split_member(member: &str) -> Option<(&str, &str)>
    ensures { MatchOption result
        (position_or_len is_equals member.now ≡ length member.now)
        (λ pair. (position_or_len is_equals member.now < length member.now)
        × ((pair.0.now, pair.1.now) ≡ pair_of member.now)) }
{
    member.split_once('=')
}

/// What is wrong with a trimmed piece; nothing where it is empty.
fn piece_fault(piece: &str) -> Option<TraceStateError>
    ensures { result ≡ first_fault (filter is_some_text (piece.now ∷ [])) }
{
    if piece.is_empty() {
        return None;
    }
    match split_member(piece) {
        Some((key, value)) => pair_fault(key, value),
        None => Some(TraceStateError::List),
    }
}

/// What stands before the first comma, and what stands after it, where there is one.
pub fn cut_at_comma(text: &str) -> (&str, Option<&str>)
    ensures pieces { MatchOption result.1
        (slice_split (λ b. b == 44) text.now ≡ result.0.now ∷ [])
        (λ rest. slice_split (λ b. b == 44) text.now ≡ result.0.now ∷ slice_split (λ b. b == 44) rest.now) }
    ensures shorter { IfSome result.1 (λ rest. length rest.now < length text.now) }
{
    match text.split_once(',') {
        Some((piece, rest)) => (piece, Some(rest)),
        None => (text, None),
    }
}

/// The first fault of the members of a text.
pub fn text_fault(text: &str) -> Option<TraceStateError>
    ensures { result ≡ first_fault (members text.now) }
{
    let mut rest = Some(text);
    'pieces: while let Some(left) = rest {
        let (piece, after) = cut_at_comma(left);
        if let Some(fault) = piece_fault(trim_blanks(piece)) {
            return Some(fault);
        }
        rest = after;
    }
    None
}
