//! A reason as it is shown: in the words of the other side, of which none drives a terminal. It takes no memory.

ghost use Rattle.std.specs.Prelude.{◌≡◌, ◌+◌, ◌/◌, ◌%◌, ◌<◌, ◌≤◌, ◌++◌, [], ◌∷◌};
ghost use Rattle.arrayvec.specs.ArrayString.{array_string_len};
ghost use Rattle.otel_otlp_http.specs.Reasons.{hex_digit, is_control, max_bytes, shown_char, shown_reason};

use arrayvec::ArrayString;

/// How many characters of a text are shown, at most.
const MAX_CHARS: usize = 200;

/// How many bytes they take, at most: each takes four, as it stands in UTF-8 or as `\x1b`.
const MAX_BYTES: usize = 800;

/// What the other side said, as it is shown.
pub(crate) type Reason = ArrayString<MAX_BYTES>;

/// Whether a character is a control character of the first or the second block.
fn is_control(c: char) -> bool
    ensures { result ≡ is_control c }
{
    let code = c as u32;
    code < 32 || code >= 127 && code < 160
}

/// A digit of base 16.
fn hex_digit(value: u32) -> char
    requires { value < 16 }
    ensures digit { result ≡ hex_digit value }
    ensures ascii { result < 128 }
{
    let digit = value as u8;
    if digit < 10 {
        char::from(b'0' + digit)
    } else {
        char::from(b'a' + (digit - 10))
    }
}

/// Appends a control character by its number.
fn push_control(out: &mut Reason, c: char)
    requires room { array_string_len out.old + 4 ≤ max_bytes }
    requires control { c < 256 }
    ensures text { out.new.bytes ≡ out.old.bytes ++ (92 ∷ 120 ∷ hex_digit (c / 16) ∷ hex_digit (c % 16) ∷ []) }
    ensures length { array_string_len out.new ≤ array_string_len out.old + 4 }
{
    let code = c as u32;
    out.push('\\');
    out.push('x');
    out.push(hex_digit(code / 16));
    out.push(hex_digit(code % 16));
}

/// Appends a character, a control character by its number.
fn push_shown_char(out: &mut Reason, c: char)
    requires { array_string_len out.old + 4 ≤ max_bytes }
    ensures text { out.new.bytes ≡ out.old.bytes ++ shown_char c }
    ensures length { array_string_len out.new ≤ array_string_len out.old + 4 }
{
    if is_control(c) {
        push_control(out, c);
    } else {
        let _pushed = out.try_push(c);
    }
}

/// A text as it is shown: so many characters of it, and each control character as `\x1b`.
pub(crate) fn shown(text: &str) -> Reason
    ensures { result.bytes ≡ shown_reason text.now }
{
    let mut out = Reason::new();
    for c in text.chars().take(MAX_CHARS) {
        push_shown_char(&mut out, c);
    }
    out
}
