//! The vendor data that travels with a span context (W3C Trace Context, section 3.3): pairs of a key and a value, in
//! order. Clones share one copy.

ghost use Rattle.std.specs.Prelude.{◌≡◌, ◌≢◌, ℕ, List, [], ◌∷◌, map, string_bytes, option_map};
ghost use Rattle.std.specs.Prelude.{MatchOption, MatchResult, IfOk, IfErr, OnOk, OnErr, IsOk, IsTrue, Err};
ghost use Rattle.std.specs.Prelude.{if◌then◌else◌};
ghost use Rattle.opentelemetry.specs.PlainValues.{plain_pair};
ghost use Rattle.opentelemetry.specs.Tracestate.{ArePairs, IsTracestate, first_fault, first_pair_fault, is_key};
ghost use Rattle.opentelemetry.specs.Tracestate.{members, pair_fault, tracestate_text, value_of_key, without_key};

mod grammar;
mod pairs;

use grammar::{is_key, pair_fault, text_fault};
use pairs::{
    first_pair_fault, header, put_in_front, read_members, value_of_key, with_pair, without_key,
};
use std::alloc::{AllocError, Global};
use std::marker::Model;
use std::sync::Arc;
use thiserror::Error;

/// Why a trace state was not made. A bad form is named before out of memory; of several bad members the first is
/// named, and of a bad pair the key.
#[derive(Clone, Copy, Debug, PartialEq, Eq, Error)]
pub enum TraceStateError {
    #[error("a key has 1 to 256 bytes of a-z, 0-9, `_`, `-`, `*`, `/` and `@`, the first a letter or a digit")]
    Key,
    #[error("a value has at most 256 bytes of printable ASCII but comma and equals sign, the last no space")]
    Value,
    #[error("a member is a key, an equals sign and a value")]
    List,
    #[error("no memory for a trace state")]
    Memory,
}

impl From<AllocError> for TraceStateError {
    ghost use Rattle.std.specs.Prelude.{◌≡◌};
    ghost use Rattle.opentelemetry.specs.declared.trace.trace_state.TraceStateError.TheVariants as faults;

    ghost from_gives = { λ _ error. error ≡ faults.Memory };

    fn from(_error: AllocError) -> TraceStateError {
        TraceStateError::Memory
    }
}

/// A list of pairs in the order of their header; `insert` puts a new one in front.
#[derive(Debug, Drop)]
pub struct TraceState {
    pairs: Option<Arc<Vec<(String, String)>>>,
}

impl Model for TraceState {
    ghost use Rattle.std.specs.Prelude.{ℕ, List};
    ghost use Rattle.opentelemetry.specs.PlainValues.{shared_pairs};
    ghost use Rattle.opentelemetry.specs.Tracestate.{ArePairs};

    ghost Value = { List (List ℕ × List ℕ) };

    ghost view = { λ state. shared_pairs state.pairs };

    ghost invariant = { λ state. ArePairs (shared_pairs state.pairs) };
}

impl TraceState {
    /// The empty trace state.
    pub fn new() -> TraceState
        ensures { result ≡ [] }
    {
        TraceState { pairs: None }
    }

    /// Reads the text of a header. Spaces and tabs around a member are left out, and so are empty members; a key may
    /// stand twice. A text with a bad member is refused for the first one, whether memory is there or not. A text
    /// without members takes no memory.
    pub fn from_str(alloc: Global, text: &str) -> Result<TraceState, TraceStateError>
        ensures value { IfOk result (λ state. IsTracestate text.now state) }
        ensures only { (pairs : List (List ℕ × List ℕ)) → IsTracestate text.now pairs
            → MatchResult result (λ state. state ≡ pairs) (λ fault. fault ≡ TraceStateError.Memory) }
        ensures fault { MatchOption (first_fault (members text.now))
            (IfErr result (λ fault. fault ≡ TraceStateError.Memory))
            (λ fault. result ≡ Err fault) }
        ensures free { members text.now ≡ [] → IsOk result }
    {
        if let Some(fault) = text_fault(text) {
            return Err(fault);
        }
        let pairs = read_members(alloc, text)?;
        Ok(shared(alloc, pairs)?)
    }

    /// Takes pairs as they come; a key may stand twice. The first bad pair is named, its key before its value. No pairs
    /// take no memory.
    pub fn from_key_value(
        alloc: Global,
        pairs: Vec<(String, String)>,
    ) -> Result<TraceState, TraceStateError>
        ensures value { IfOk result (λ state. state ≡ map plain_pair pairs.items) }
        ensures fault { MatchOption (first_pair_fault (map plain_pair pairs.items))
            (IfErr result (λ fault. fault ≡ TraceStateError.Memory))
            (λ fault. result ≡ Err fault) }
        ensures free { map plain_pair pairs.items ≡ [] → IsOk result }
    {
        if let Some(fault) = first_pair_fault(pairs.as_slice()) {
            return Err(fault);
        }
        Ok(shared(alloc, pairs)?)
    }

    /// The first value of a key.
    pub fn get(&self, key: &str) -> Option<&str>
        ensures { option_map (λ value. value.now) result ≡ value_of_key key.now self.now }
    {
        value_of_key(self.entries(), key)
    }

    /// A copy without the pairs of the key, and with the new pair in front.
    pub fn insert(
        &self,
        alloc: Global,
        key: String,
        value: String,
    ) -> Result<TraceState, TraceStateError>
        ensures value { IfOk result (λ state. state
            ≡ (string_bytes key, string_bytes value) ∷ without_key (string_bytes key) self.now) }
        ensures fault { MatchOption (pair_fault (string_bytes key, string_bytes value))
            (IfErr result (λ fault. fault ≡ TraceStateError.Memory))
            (λ fault. result ≡ Err fault) }
    {
        if let Some(fault) = pair_fault(key.as_str(), value.as_str()) {
            return Err(fault);
        }
        let pairs = with_pair(alloc, self.entries(), key, value)?;
        Ok(shared(alloc, pairs)?)
    }

    /// The same in the trace state itself, for many pairs one after another: where no clone shares its pairs, none of
    /// them is copied. After an error it is as it was.
    pub fn insert_in_place(
        &mut self,
        alloc: Global,
        key: String,
        value: String,
    ) -> Result<(), TraceStateError>
        ensures value { OnOk result (self.new
            ≡ (string_bytes key, string_bytes value) ∷ without_key (string_bytes key) self.old) }
        ensures kept { OnErr result (self.new ≡ self.old) }
        ensures fault { MatchOption (pair_fault (string_bytes key, string_bytes value))
            (IfErr result (λ fault. fault ≡ TraceStateError.Memory))
            (λ fault. result ≡ Err fault) }
    {
        if let Some(fault) = pair_fault(key.as_str(), value.as_str()) {
            return Err(fault);
        }
        if let Some(shared) = &mut self.pairs {
            if let Some(pairs) = Arc::get_mut(shared) {
                put_in_front(pairs, key, value)?;
                return Ok(());
            }
        }
        let pairs = with_pair(alloc, self.entries(), key, value)?;
        *self = shared(alloc, pairs)?;
        Ok(())
    }

    /// A copy without the pairs of the key, which has to be a key. Where no pair is left, this takes no memory.
    pub fn delete(&self, alloc: Global, key: &str) -> Result<TraceState, TraceStateError>
        ensures value { IfOk result (λ state. state ≡ without_key key.now self.now) }
        ensures fault { IfErr result (λ fault. fault
            ≡ (if is_key key.now then TraceStateError.Memory else TraceStateError.Key)) }
        ensures key { IsOk result → IsTrue (is_key key.now) }
        ensures free { IsTrue (is_key key.now) → without_key key.now self.now ≡ [] → IsOk result }
    {
        if !is_key(key) {
            return Err(TraceStateError::Key);
        }
        let pairs = without_key(alloc, self.entries(), key)?;
        Ok(shared(alloc, pairs)?)
    }

    /// The text of the header: the members `key=value`, joined by commas. The empty one takes no memory.
    pub fn header(&self, alloc: Global) -> Result<String, AllocError>
        ensures ok { IfOk result (λ text. string_bytes text ≡ tracestate_text self.now) }
        ensures reads_back { IsTracestate (tracestate_text self.now) self.now }
        ensures free { self.now ≡ [] → IsOk result }
    {
        header(alloc, self.entries())
    }

    /// The pairs, where they lie.
    pub(crate) fn entries(&self) -> &[(String, String)]
        ensures value { map (λ p. (string_bytes p.0, string_bytes p.1)) result.now ≡ self.now }
        ensures pairs { ArePairs self.now }
    {
        match &self.pairs {
            Some(pairs) => pairs.as_slice(),
            None => &[],
        }
    }
}

/// A trace state whose clones will share these pairs.
fn shared(alloc: Global, pairs: Vec<(String, String)>) -> Result<TraceState, AllocError>
    requires { ArePairs (map plain_pair pairs.items) }
    ensures ok { IfOk result (λ state. state ≡ map plain_pair pairs.items) }
    ensures err { OnErr result (map plain_pair pairs.items ≢ []) }
{
    if pairs.is_empty() {
        return Ok(TraceState::new());
    }
    Ok(TraceState {
        pairs: Some(Arc::new(alloc, pairs)?),
    })
}

impl Clone for TraceState {
    ghost use Rattle.std.specs.Prelude.{◌≡◌, []};

    ghost is_clone = { λ state copy. copy ≡ state };

    ghost is_infallible = { λ state. state ≡ [] };

    /// A clone of the empty trace state takes no memory.
    fn clone(&self) -> Result<TraceState, AllocError> {
        match &self.pairs {
            Some(pairs) if !pairs.is_empty() => Ok(TraceState {
                pairs: Some(pairs.clone()?),
            }),
            _ => Ok(TraceState::new()),
        }
    }
}

impl PartialEq for TraceState {
    ghost use Rattle.opentelemetry.specs.Same.{same_pairs, same_pairs_decides, partial_equivalence_from_decides};

    ghost eq = { same_pairs };

    ghost laws = { partial_equivalence_from_decides same_pairs same_pairs_decides };

    fn eq(&self, other: &TraceState) -> bool {
        self.entries() == other.entries()
    }
}

impl Eq for TraceState {
    ghost use Rattle.opentelemetry.specs.Same.{same_pairs, same_pairs_decides, equivalence_from_decides};

    ghost laws = { equivalence_from_decides same_pairs same_pairs_decides };
}
