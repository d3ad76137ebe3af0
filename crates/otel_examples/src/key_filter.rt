//! A filter of one's own in front of the processor that sets a baggage's entries as attributes: only entries with long
//! keys are set.
//!
//! `takes` says which keys it takes, so that a start under the processor promises as much.

use otel_baggage_processor::KeyFilter;

/// Takes the keys of at least so many bytes.
#[derive(Drop)]
pub struct LongKeys {
    pub min_len: usize,
}

impl KeyFilter for LongKeys {
    ghost use Rattle.std.specs.Prelude.{length, nat_lt, not};

    ghost takes = { λ filter key. not (nat_lt (length key) filter.min_len) };

    fn takes(&self, key: &str) -> bool {
        !(key.len() < self.min_len)
    }
}
