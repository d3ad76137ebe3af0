//! The spaces and tabs that may stand around the parts of a header (RFC 9110, "OWS"). To cut them off takes no memory.

ghost use Rattle.std.specs.Prelude.{◌≡◌, ◌<◌, length, reverse, MatchOption};
ghost use Rattle.opentelemetry.specs.Tracestate.{trim_front, trimmed};

fn without_first_blank(text: &str) -> Option<&str>
    ensures { MatchOption result
        (trim_front text.now ≡ text.now)
        (λ rest. (trim_front text.now ≡ trim_front rest.now) × (length rest.now < length text.now)) }
{
    match text.strip_prefix(' ') {
        Some(rest) => Some(rest),
        None => text.strip_prefix('\t'),
    }
}

fn without_last_blank(text: &str) -> Option<&str>
    ensures { MatchOption result
        (trim_front (reverse text.now) ≡ reverse text.now)
        (λ rest. (trim_front (reverse text.now) ≡ trim_front (reverse rest.now))
        × (length rest.now < length text.now)) }
{
    match text.strip_suffix(' ') {
        Some(rest) => Some(rest),
        None => text.strip_suffix('\t'),
    }
}

/// A text without the spaces and tabs around it.
pub fn trim_blanks(text: &str) -> &str
    ensures { result.now ≡ trimmed text.now }
{
    let mut front = text;
    'front: while let Some(rest) = without_first_blank(front) {
        front = rest;
    }
    let mut back = front;
    'back: while let Some(rest) = without_last_blank(back) {
        back = rest;
    }
    back
}
