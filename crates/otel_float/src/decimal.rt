//! The first digits of the decimal that is a float. A float's bits are taken without the sign.

ghost use Rattle.std.specs.Prelude.{◌≡◌, ℕ, ◌+◌, ◌-◌, ◌*◌, ◌^◌, ◌<◌, ◌≤◌, replicate};
ghost use Rattle.otel_float.specs.FloatText.{digit_count};
ghost use Rattle.otel_float.specs.FloatText as float;
ghost use Rattle.otel_float.specs.Leading as spec;
ghost use Rattle.otel_float.specs.Leading.{IsLeading};
ghost use Rattle.otel_float.specs.Limbs.{AreInUse, AreLimbs, value_of};

use crate::limbs::{BASE, ROOM, is_zero, times_power};

pub(crate) const NORMAL: u64 = 1 << 52;

pub(crate) const INFINITY: u64 = 2047 << 52;

fn significand(bits: u64) -> u64
    ensures value { result ≡ float.significand bits }
    ensures small { result < 2 ^ 53 }
    ensures some { 0 < bits → 0 < result }
{
    if bits < NORMAL {
        bits
    } else {
        bits % NORMAL + NORMAL
    }
}

fn exponent(bits: u64) -> usize
    requires { bits < 2047 * 2 ^ 52 }
    ensures value { result ≡ float.exponent bits }
    ensures small { result ≤ 2045 }
{
    (bits / NORMAL).saturating_sub(1) as usize
}

// The least power of ten above a number, and its exponent.
fn above(number: u64) -> (usize, u64)
    requires { (0 < number) × (number < 10 ^ 9) }
    ensures power { result.1 ≡ 10 ^ result.0 }
    ensures above { number < result.1 }
    ensures least { result.1 ≤ number * 10 }
    ensures few { (1 ≤ result.0) × (result.0 ≤ 9) }
{
    let mut count = 1;
    let mut power = 10;
    'digits: while power <= number {
        count += 1;
        power *= 10;
    }
    (count, power)
}

// The first 18 digits of a number that is there times 10 ^ 18, whether it has no more, and how many it has.
fn first_digits(limbs: &[u32; ROOM], len: usize) -> (u64, bool, usize)
    requires limbs { AreLimbs limbs.now }
    requires in_use { AreInUse limbs.now len }
    ensures digits { (n : ℕ) → value_of limbs.now len ≡ n * 10 ^ 18 → result.0 ≡ spec.first_digits n }
    ensures exact { (n : ℕ) → value_of limbs.now len ≡ n * 10 ^ 18 → result.1 ≡ spec.is_exact n }
    ensures count { (n : ℕ) → value_of limbs.now len ≡ n * 10 ^ 18 → result.2 ≡ digit_count n }
    ensures small { result.0 < 10 ^ 18 }
    ensures few { result.2 ≤ 1134 }
{
    let top = u64::from(limbs[len - 1]);
    let rest = u64::from(limbs[len - 2]) * BASE + u64::from(limbs[len - 3]);
    let (count, power) = above(top);
    (
        top * (BASE * BASE / power) + rest / power,
        (rest % power == 0) & is_zero(&limbs[..len - 3]),
        9 * (len - 3) + count,
    )
}

// The significand times 10 ^ 18, over zeros. Answers how many limbs it has.
fn start(limbs: &mut [u32; ROOM], significand: u64) -> usize
    requires zeros { limbs.old ≡ replicate 128 0 }
    requires significand { (0 < significand) × (significand < 2 ^ 53) }
    ensures value { value_of limbs.new result ≡ significand * 10 ^ 18 }
    ensures limbs { AreLimbs limbs.new }
    ensures in_use { AreInUse limbs.new result }
    ensures len { result ≤ 4 }
{
    limbs[2] = (significand % BASE) as u32;
    if significand < BASE {
        return 3;
    }
    limbs[3] = (significand / BASE) as u32;
    4
}

/// The first 18 digits, whether there are no more, and the place of the point, plus 400.
#[derive(Clone, Copy)]
pub(crate) struct Leading {
    pub(crate) digits: u64,
    pub(crate) is_exact: bool,
    pub(crate) point: usize,
}

pub(crate) fn leading_of(bits: u64) -> Leading
    requires { (0 < bits) × (bits < 2047 * 2 ^ 52) }
    ensures { IsLeading bits result }
{
    let exponent = exponent(bits);
    let places = 1074usize.saturating_sub(exponent);
    let mut limbs = [0; ROOM];
    let len = start(&mut limbs, significand(bits));
    let doubled = times_power(&mut limbs, len, 2, 29, exponent.saturating_sub(1074));
    let whole = times_power(&mut limbs, doubled, 5, 12, places);
    let (digits, is_exact, count) = first_digits(&limbs, whole);
    Leading {
        digits,
        is_exact,
        point: (400 + count).saturating_sub(places),
    }
}
