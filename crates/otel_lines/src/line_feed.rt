//! Where a line ends.

ghost use Rattle.std.specs.Prelude.{◌≡◌, ◌==◌, position};

use memchr::memchr;

/// Where the first line feed stands.
pub fn first_line_feed(text: &[u8]) -> Option<usize>
    ensures { result ≡ position (λ b. b == 10) text.now }
{
    memchr(b'\n', text)
}
