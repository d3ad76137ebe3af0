//! Whether floats are the same: of zeros the sign counts, and there is one NaN. So equality is lawful, where that of Rust
//! is not.

ghost use Rattle.std.specs.Prelude.{◌≡◌};
ghost use Rattle.std.specs.Cmp.Lexicographic.{pointwise};
ghost use Rattle.opentelemetry.specs.Same.{same_float};

use std::num::f64_to_bits_with_nan;

pub(crate) fn same_float(this: f64, that: f64) -> bool
    ensures { result ≡ same_float this that }
{
    f64_to_bits_with_nan(this) == f64_to_bits_with_nan(that)
}

/// The same of two lists.
pub(crate) fn same_floats(these: &[f64], those: &[f64]) -> bool
    ensures { result ≡ pointwise same_float these.now those.now }
{
    if these.len() != those.len() {
        return false;
    }
    for place in 0..these.len() {
        if !same_float(these[place], those[place]) {
            return false;
        }
    }
    true
}
