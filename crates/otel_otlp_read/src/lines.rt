//! The lines of a text, which of them are blank, and its parts, which begin at lines that begin with a brace.

ghost use Rattle.std.specs.Prelude.{◌≡◌, ◌+◌, ◌<◌, ◌≤◌, ◌∷◌, IfSome, length, option_map};
ghost use Rattle.otel_otlp_read.specs.Cuts.{cuts, opens, parts, parts_after};
ghost use Rattle.otel_otlp_read.specs.Inputs.{is_blank, lines_after, text_lines};

use otel_lines::first_line_feed;

/// The first line of a text, and the text after its line feed; no text where it has none.
pub(crate) fn first_line(text: &[u8]) -> (&[u8], Option<&[u8]>)
    ensures cut { text_lines text.now ≡ result.0.now ∷ lines_after (option_map (λ t. t.now) result.1) }
    ensures shorter { IfSome result.1 (λ after. length after.now < length text.now) }
{
    match first_line_feed(text) {
        Some(end) => (&text[..end], Some(&text[end + 1..])),
        None => (text, None),
    }
}

/// Whether a line is white space alone.
pub(crate) fn is_blank(line: &[u8]) -> bool
    ensures { result ≡ is_blank line.now }
{
    for byte in line {
        if *byte != b' ' && *byte != b'\t' && *byte != b'\r' {
            return false;
        }
    }
    true
}

/// How many lines a text has.
pub(crate) fn line_count(text: &[u8]) -> u64
    ensures is { result ≡ length (text_lines text.now) }
    ensures few { result ≤ length text.now + 1 }
{
    let mut count: u64 = 0;
    let mut left = Some(text);
    while let Some(rest) = left {
        let (_, after) = first_line(rest);
        count += 1;
        left = after;
    }
    count
}

/// Whether a text begins with a brace.
fn opens(text: &[u8]) -> bool
    ensures { result ≡ opens text.now }
{
    match text {
        [first, ..] => *first == b'{',
        [] => false,
    }
}

/// Whether a text begins with a line feed, and a brace after it.
fn cuts(text: &[u8]) -> bool
    ensures { result ≡ cuts text.now }
{
    match text {
        [first, rest @ ..] => *first == b'\n' && opens(rest),
        [] => false,
    }
}

/// The first part of a text, and the text after its line feed; no text where it is the last.
pub(crate) fn first_part(text: &[u8]) -> (&[u8], Option<&[u8]>)
    ensures cut { parts text.now ≡ result.0.now ∷ parts_after (option_map (λ t. t.now) result.1) }
    ensures within { length result.0.now ≤ length text.now }
    ensures shorter { IfSome result.1 (λ after. length result.0.now + length after.now < length text.now) }
{
    for at in 0..text.len() {
        if cuts(&text[at..]) {
            return (&text[..at], Some(&text[at + 1..]));
        }
    }
    (text, None)
}
