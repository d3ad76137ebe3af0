//! Counts in digits, as headers and bodies have them.

ghost use Rattle.std.specs.Prelude.{◌≡◌};
ghost use Rattle.otel_http_post.specs.Count.{count_in};

/// The number that these digits are, where it has at most 64 bits. There is no sign.
pub fn read_count(digits: &[u8]) -> Option<u64>
    ensures { result ≡ count_in digits.now }
{
    if digits.is_empty() {
        return None;
    }
    let mut n: u64 = 0;
    for b in digits {
        if !b.is_ascii_digit() {
            return None;
        }
        n = n.checked_mul(10)?.checked_add(u64::from(*b - b'0'))?;
    }
    Some(n)
}
