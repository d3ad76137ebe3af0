//! Where the point and the exponent of a decimal stand.

ghost use Rattle.std.specs.Prelude.{◌≡◌, ◌+◌, ◌*◌, ◌^◌, ◌<◌, ◌≤◌, ◌++◌, length, replicate, IsAscii};
ghost use Rattle.std.specs.Fmt.{decimal};
ghost use Rattle.otel_float.specs.FloatText as spec;

use crate::text::FloatText;
use itoa::Buffer;

fn push_zeros(out: &mut FloatText, count: usize)
    requires { length out.old + count ≤ 64 }
    ensures text { out.new ≡ out.old ++ replicate count 48 }
    ensures len { length out.new ≡ length out.old + count }
{
    for _turn in 0..count {
        out.push(b"0");
    }
}

fn push_with_exponent(out: &mut FloatText, digits: &[u8], end: usize)
    requires room { (length out.old ≤ 1) × (length digits.now ≤ 20) }
    requires ascii { IsAscii digits.now }
    requires end { end ≤ 4000 }
    ensures { out.new ≡ out.old ++ spec.with_exponent digits.now end }
{
    let (first, rest) = digits.split_at(digits.len().min(1));
    out.push(first);
    if digits.len() > 1 {
        out.push(b".");
        out.push(rest);
    }
    push_exponent(out, end)
}

fn push_exponent(out: &mut FloatText, end: usize)
    requires { length out.old ≤ 40 }
    ensures { out.new ≡ out.old ++ spec.exponent_text end }
{
    let mut size = Buffer::new();
    out.push(b"e");
    if end < 401 {
        out.push(b"-");
        return out.push(size.format((401 - end) as u64).as_bytes());
    }
    out.push(size.format((end - 401) as u64).as_bytes())
}

fn push_digits(out: &mut FloatText, digits: &[u8], power: usize)
    requires room { (length out.old ≤ 1) × (length digits.now ≤ 20) }
    requires ascii { IsAscii digits.now }
    requires power { power ≤ 2000 }
    ensures { out.new ≡ out.old ++ spec.layout digits.now power }
{
    let end = power + digits.len();
    if (end < 396) | (416 < end) {
        return push_with_exponent(out, digits, end);
    }
    if end < 401 {
        out.push(b"0.");
        push_zeros(out, 400 - end);
        return out.push(digits);
    }
    if power < 400 {
        let (whole, fraction) = digits.split_at(end - 400);
        out.push(whole);
        out.push(b".");
        return out.push(fraction);
    }
    out.push(digits);
    push_zeros(out, power - 400);
    out.push(b".0")
}

pub(crate) fn push_layout(out: &mut FloatText, digits: u64, power: usize)
    requires room { length out.old ≤ 1 }
    requires power { power ≤ 2000 }
    ensures { out.new ≡ out.old ++ spec.layout (decimal digits) power }
{
    let mut buffer = Buffer::new();
    push_digits(out, buffer.format(digits).as_bytes(), power)
}
