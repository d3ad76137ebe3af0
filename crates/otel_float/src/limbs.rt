//! A whole number of up to 128 limbs, which is multiplied in place.

ghost use Rattle.std.specs.Prelude.{◌≡◌, ℕ, ◌+◌, ◌*◌, ◌/◌, ◌^◌, ◌<◌, ◌≤◌, ◌==◌, length};
ghost use Rattle.otel_float.specs.Limbs.{AreInUse, AreLimbs, limbs_value, value_of};

pub(crate) const ROOM: usize = 128;

pub(crate) const BASE: u64 = 1_000_000_000;

fn power(base: u64, count: usize) -> u64
    requires base { 1 < base }
    requires small { base ^ count ≤ 10 ^ 9 }
    ensures { result ≡ base ^ count }
{
    let mut power = 1;
    for _turn in 0..count {
        power *= base;
    }
    power
}

// Answers what does not fit in the limbs.
fn multiply(limbs: &mut [u32], factor: u64) -> u64
    requires limbs { AreLimbs limbs.old }
    requires factor { (0 < factor) × (factor ≤ 10 ^ 9) }
    ensures value { limbs_value limbs.new + 10 ^ (9 * length limbs.old) * result
        ≡ limbs_value limbs.old * factor }
    ensures limbs { AreLimbs limbs.new }
    ensures small { result < 10 ^ 9 }
{
    let mut carry = 0;
    for i in 0..limbs.len() {
        let product = u64::from(limbs[i]) * factor + carry;
        limbs[i] = (product % BASE) as u32;
        carry = product / BASE;
    }
    carry
}

// Multiplies the number in the first `len` limbs, and answers how many it has then.
fn times(limbs: &mut [u32; ROOM], len: usize, factor: u64) -> usize
    requires limbs { AreLimbs limbs.old }
    requires in_use { AreInUse limbs.old len }
    requires factor { (0 < factor) × (factor ≤ 10 ^ 9) }
    requires room { len < 128 }
    ensures value { value_of limbs.new result ≡ value_of limbs.old len * factor }
    ensures limbs { AreLimbs limbs.new }
    ensures in_use { AreInUse limbs.new result }
    ensures len { result ≤ len + 1 }
{
    let carry = multiply(&mut limbs[..len], factor);
    if carry == 0 {
        return len;
    }
    limbs[len] = carry as u32;
    len + 1
}

// `step` factors at a time.
pub(crate) fn times_power(
    limbs: &mut [u32; ROOM],
    len: usize,
    base: u64,
    step: usize,
    count: usize,
) -> usize
    requires limbs { AreLimbs limbs.old }
    requires in_use { AreInUse limbs.old len }
    requires base { (1 < base) × (0 < step) × (base ^ step ≤ 10 ^ 9) }
    requires room { len + count / step < 128 }
    ensures value { value_of limbs.new result ≡ value_of limbs.old len * base ^ count }
    ensures limbs { AreLimbs limbs.new }
    ensures in_use { AreInUse limbs.new result }
    ensures len { result ≤ len + count / step + 1 }
{
    if count == 0 {
        return len;
    }
    let chunk = power(base, step);
    let mut used = len;
    for _turn in 0..count / step {
        used = times(limbs, used, chunk);
    }
    times(limbs, used, power(base, count % step))
}

pub(crate) fn is_zero(limbs: &[u32]) -> bool
    ensures { result ≡ (limbs_value limbs.now == 0) }
{
    for limb in limbs {
        if *limb != 0 {
            return false;
        }
    }
    true
}
