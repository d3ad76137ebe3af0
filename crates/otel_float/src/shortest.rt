//! How many digits of a float are kept: the fewest that read back.

ghost use Rattle.std.specs.Prelude.{◌≡◌, ◌+◌, ◌-◌, ◌*◌, ◌^◌, ◌<◌, ◌≤◌};
ghost use Rattle.otel_float.specs.FloatText as spec;
ghost use Rattle.otel_float.specs.Leading.{IsLeading};

use crate::decimal::{Leading, NORMAL};
use std::num::f64_to_bits_with_nan;

fn ten_to(count: usize) -> u64
    requires { count ≤ 17 }
    ensures value { result ≡ 10 ^ count }
    ensures some { 0 < result }
{
    let mut power = 1;
    for _turn in 0..count {
        power *= 10;
    }
    power
}

// The first `count` digits, rounded: half of the last one's unit goes to the even digit.
pub(crate) fn rounded(bits: u64, leading: Leading, count: usize) -> u64
    requires leading { IsLeading bits leading }
    requires few { (1 ≤ count) × (count ≤ 17) }
    ensures { result ≡ spec.rounded (spec.whole bits) count }
{
    let unit = ten_to(18 - count);
    let kept = leading.digits / unit;
    let rest = leading.digits % unit;
    if rest < unit / 2 {
        kept
    } else if rest > unit / 2 {
        kept + 1
    } else if leading.is_exact {
        kept + kept % 2
    } else {
        kept + 1
    }
}

fn reads_back(bits: u64, digits: u64, power: usize) -> bool
    requires { power ≤ 2000 }
    ensures { result ≡ spec.reads_back bits digits power }
{
    f64_to_bits_with_nan(fast_float::from_parts::<f64>(false, digits, power as i64 - 400)) == bits
}

fn least_count(bits: u64) -> usize
    ensures value { result ≡ spec.least_count bits }
    ensures few { (1 ≤ result) × (result ≤ 15) }
{
    if bits < NORMAL { 1 } else { 15 }
}

pub(crate) fn kept_count(bits: u64, leading: Leading) -> usize
    requires { IsLeading bits leading }
    ensures value { result ≡ spec.kept_count bits }
    ensures few { (1 ≤ result) × (result ≤ 17) }
{
    let least = least_count(bits);
    for count in least..17 {
        let digits = rounded(bits, leading, count);
        if reads_back(bits, digits, leading.point.saturating_sub(count)) {
            return count;
        }
    }
    17
}

pub(crate) fn without_zeros(digits: u64, power: usize) -> (u64, usize)
    requires { power ≤ 2000 }
    ensures digits { result.0 ≡ (spec.without_zeros 17 digits power).0 }
    ensures power { result.1 ≡ (spec.without_zeros 17 digits power).1 }
    ensures near { result.1 ≤ power + 17 }
{
    let mut left = digits;
    let mut at = power;
    for _turn in 0..17usize {
        if left % 10 != 0 {
            return (left, at);
        }
        left /= 10;
        at += 1;
    }
    (left, at)
}
