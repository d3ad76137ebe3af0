//! After how many seconds to try again, as an answer says (RFC 9110, section 10.2.3).

ghost use Rattle.std.specs.Prelude.{◌≡◌, All, length, map};
ghost use Rattle.httparse.specs.Spans.{IsHeaderWithin, header_bytes};
ghost use Rattle.otel_http_post.specs.RetryAfter.{retry_after_of};

use crate::count::read_count;
use http1::text::eq_ignore_case;
use httparse::spans::HeaderSpan;

/// What the first header of this name says.
pub(crate) fn retry_after(text: &[u8], headers: &[HeaderSpan]) -> Option<u64>
    requires { All (IsHeaderWithin (length text.now)) headers.now }
    ensures { result ≡ retry_after_of (map (header_bytes text.now) headers.now) }
{
    for header in headers {
        if eq_ignore_case(header.name.of(text), b"retry-after") {
            return read_count(header.value.of(text));
        }
    }
    None
}
