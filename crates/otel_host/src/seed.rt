//! A seed for the ids of spans and traces.

use std::hash::{BuildHasher, Hash, Hasher, RandomState};
use std::io::ErrorKind;
use std::random::RandomSource;
use std::time::Clock;
use thiserror::Error;

/// The system gave no random bytes. Holds what it says of that.
#[derive(Clone, Copy, Debug, PartialEq, Eq, Error)]
#[error("no random bytes: {0}")]
pub struct SeedError(pub ErrorKind);

/// A seed that no other process is likely to have: a hash, under random keys of the system, of what its clocks read; a
/// clock that cannot be read adds nothing. `SeedError` where the system gives no random bytes.
///
/// It is worth 64 bits, and is not for secrets: who sees ids of a generator that it seeds may tell the next ones. Each
/// process has to ask for its own. Under a fixed seed every process gives out the same trace ids, and what they trace
/// becomes one.
pub fn random_seed(rt: &(impl RandomSource + Clock)) -> Result<u64, SeedError> {
    match RandomState::new(rt) {
        Ok(keys) => {
            let mut hasher = keys.build_hasher();
            rt.since_1970().ok().hash(&mut hasher);
            rt.monotonic().ok().hash(&mut hasher);
            Ok(hasher.finish())
        }
        Err(error) => Err(SeedError(error.kind())),
    }
}
