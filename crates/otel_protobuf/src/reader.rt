//! Reading a message field by field, by the wire alone.

ghost use Rattle.std.specs.Prelude.{◌≡◌, option_map};
ghost use Rattle.otel_protobuf.specs.Held.{raw_of, shown, shown_sized};
ghost use Rattle.otel_protobuf.specs.Reading.{read_64, read_field, read_raw, read_short, read_some};

/// How many bytes a number has at most.
const MAX_BYTES: u32 = 10;

/// What a field holds by the wire alone, which has one word for bytes, texts and messages.
#[derive(Clone, Copy)]
pub enum Held<'a> {
    /// By seven bits a byte.
    Number(u64),
    Eight(u64),
    Four(u32),
    Sized(&'a [u8]),
}

/// A number by seven bits a byte, of at most so many bytes and of 64 bits, and the bytes after it.
fn number(more: u32, bytes: &[u8]) -> Option<(u64, &[u8])>
    ensures { shown result ≡ read_short more bytes.now }
{
    if more == 0 {
        return None;
    }
    let [first, rest @ ..] = bytes else {
        return None;
    };
    if *first < 128 {
        return Some((u64::from(*first), rest));
    }
    let (high, after) = number(more - 1, rest)?;
    let whole = high.checked_mul(128)?.checked_add(u64::from(*first - 128))?;
    Some((whole, after))
}

/// So many bytes, and those after them.
fn some(count: u64, bytes: &[u8]) -> Option<(&[u8], &[u8])>
    ensures { shown_sized result ≡ read_some count bytes.now }
{
    if count > bytes.len() as u64 {
        return None;
    }
    let at = count as usize;
    Some((&bytes[..at], &bytes[at..]))
}

/// What a field of this wire type holds, and the bytes after it. The types of groups are not read.
fn value(kind: u64, bytes: &[u8]) -> Option<(Held<'_>, &[u8])>
    ensures { option_map (λ r. (raw_of r.0, r.1.now)) result ≡ read_raw read_64 kind bytes.now }
{
    match kind {
        0 => {
            let (count, rest) = number(MAX_BYTES, bytes)?;
            Some((Held::Number(count), rest))
        }
        1 => {
            let (digits, rest) = bytes.split_first_chunk::<8>()?;
            Some((Held::Eight(u64::from_le_bytes(*digits)), rest))
        }
        2 => {
            let (length, after) = number(MAX_BYTES, bytes)?;
            let (held, rest) = some(length, after)?;
            Some((Held::Sized(held), rest))
        }
        5 => {
            let (digits, rest) = bytes.split_first_chunk::<4>()?;
            Some((Held::Four(u32::from_le_bytes(*digits)), rest))
        }
        _ => None,
    }
}

/// The first field of a message: its number, what it holds, and the bytes after it. Nothing where it does not read.
pub fn read_field(bytes: &[u8]) -> Option<(u64, Held<'_>, &[u8])>
    ensures { option_map (λ r. ((r.0, raw_of r.1), r.2.now)) result ≡ read_field read_64 bytes.now }
{
    let (key, after) = number(MAX_BYTES, bytes)?;
    let (held, rest) = value(key % 8, after)?;
    Some((key / 8, held, rest))
}
