//! Names with values that an application hands on from process to process (W3C Baggage). A baggage keeps its entries
//! in order of insertion, at most 64 of them and at most 8192 bytes of names, values and metadata together.

ghost use Rattle.std.specs.Prelude.{◌≡◌, [], ◌↔◌, length, IsTrue, IfNone, None, OnOk, OnErr, IfOk};
ghost use Rattle.std.specs.Prelude.{IsErrOf, string_bytes};
ghost use Rattle.std.specs.Option.{option_map, option_copied};
ghost use Rattle.opentelemetry.specs.Baggage.{entry_at, entry_of, found_at, handed_out, with_entry, without_entry};
ghost use Rattle.opentelemetry.specs.Baggage.{BreaksLimit, IsWithinLimits, HasDistinctNames, entries_or_none};

pub(crate) mod entries;
pub mod iter;

use entries::Entries;
pub use iter::Iter;
use std::alloc::{AllocError, Global};
use std::marker::Model;
use thiserror::Error;

/// Why an entry was not taken.
#[derive(Clone, Copy, Debug, PartialEq, Eq, Error)]
pub enum BaggageError {
    /// The name is empty, or the baggage would have too many entries or bytes.
    #[error("the baggage's limits do not allow this entry")]
    Limit,
    #[error("no memory for a baggage entry")]
    Memory,
}

impl From<AllocError> for BaggageError {
    ghost use Rattle.std.specs.Prelude.{◌≡◌};
    ghost use Rattle.opentelemetry.specs.declared.baggage.BaggageError.TheVariants.{Memory};

    ghost from_gives = { λ _ error. error ≡ Memory };

    fn from(_error: AllocError) -> BaggageError {
        BaggageError::Memory
    }
}

/// What is said of an entry besides its value: properties between semicolons.
#[derive(Debug, Drop)]
pub struct BaggageMetadata(String);

impl Model for BaggageMetadata {
    ghost use Rattle.std.specs.Prelude.{ℕ, List, string_bytes};

    ghost Value = { List ℕ };

    ghost view = { λ metadata. string_bytes metadata.0 };
}

impl BaggageMetadata {
    /// The properties of an entry as one text, which nothing here reads (W3C Baggage 3.3.1.3).
    pub fn new(text: String) -> BaggageMetadata
        ensures { result ≡ string_bytes text }
    {
        BaggageMetadata(text)
    }

    /// The text, empty where an entry has no metadata.
    pub fn as_str(&self) -> &str
        ensures { result.now ≡ self.now }
    {
        self.0.as_str()
    }
}

impl Clone for BaggageMetadata {
    ghost use Rattle.std.specs.Prelude.{◌≡◌};

    ghost is_clone = { λ metadata copy. copy ≡ metadata };

    fn clone(&self) -> Result<BaggageMetadata, AllocError> {
        Ok(BaggageMetadata(self.0.clone()?))
    }
}

impl PartialEq for BaggageMetadata {
    ghost use Rattle.opentelemetry.specs.Same.{same_text, same_text_decides, partial_equivalence_from_decides};

    ghost eq = { same_text };

    ghost laws = { partial_equivalence_from_decides same_text same_text_decides };

    fn eq(&self, other: &BaggageMetadata) -> bool {
        self.0 == other.0
    }
}

impl Eq for BaggageMetadata {
    ghost use Rattle.opentelemetry.specs.Same.{same_text, same_text_decides, equivalence_from_decides};

    ghost laws = { equivalence_from_decides same_text same_text_decides };
}

/// One entry of a baggage.
#[derive(Clone, Debug, Drop)]
pub struct KeyValueMetadata {
    pub key: String,
    pub value: String,
    pub metadata: BaggageMetadata,
}

impl Model for KeyValueMetadata {
    ghost use Rattle.std.specs.Prelude.{string_bytes};
    ghost use Rattle.opentelemetry.specs.Baggage.{PlainBaggageEntry};

    ghost Value = { PlainBaggageEntry };

    ghost view = { λ a. record { key = string_bytes a.key; value = string_bytes a.value; metadata = a.metadata } };
}

impl KeyValueMetadata {
    /// An entry with its metadata, which is empty where there is none.
    pub fn new(key: String, value: String, metadata: BaggageMetadata) -> KeyValueMetadata
        ensures { result ≡ record { key = string_bytes key; value = string_bytes value; metadata = metadata } }
    {
        KeyValueMetadata {
            key,
            value,
            metadata,
        }
    }
}

impl PartialEq for KeyValueMetadata {
    ghost use Rattle.opentelemetry.specs.Same.{partial_equivalence_from_decides};
    ghost use Rattle.opentelemetry.specs.SameParts.{same_entry, same_entry_decides};

    ghost eq = { same_entry };

    ghost laws = { partial_equivalence_from_decides same_entry same_entry_decides };

    fn eq(&self, other: &KeyValueMetadata) -> bool {
        self.key == other.key && self.value == other.value && self.metadata == other.metadata
    }
}

impl Eq for KeyValueMetadata {
    ghost use Rattle.opentelemetry.specs.Same.{equivalence_from_decides};
    ghost use Rattle.opentelemetry.specs.SameParts.{same_entry, same_entry_decides};

    ghost laws = { equivalence_from_decides same_entry same_entry_decides };
}

/// Entries in order of insertion, within the limits.
#[derive(Debug, Drop)]
pub struct Baggage {
    entries: Option<Entries>,
}

impl Model for Baggage {
    ghost use Rattle.opentelemetry.specs.Baggage.{PlainBaggage, entries_or_none};

    ghost Value = { PlainBaggage };

    ghost view = { λ baggage. entries_or_none baggage.entries };
}

impl Baggage {
    /// The empty baggage.
    pub fn new(alloc: Global) -> Baggage
        ensures { result ≡ [] }
    {
        Baggage {
            entries: Some(Entries::new(alloc)),
        }
    }

    /// The empty baggage, which takes an allocator from the first name that is put in.
    pub(crate) fn empty() -> Baggage
        ensures { result ≡ [] }
    {
        Baggage { entries: None }
    }

    /// Where the entries lie; `None` where there are none yet.
    pub(crate) fn allocator(&self) -> Option<Global>
        ensures { IfNone result (self.now ≡ []) }
    {
        match &self.entries {
            Some(entries) => Some(entries.allocator()),
            None => None,
        }
    }

    /// Puts a name with its value and no metadata, and gives back what it replaced. Only a new name takes memory.
    pub fn insert(
        &mut self,
        name: String,
        value: String,
    ) -> Result<Option<(String, BaggageMetadata)>, BaggageError>
        ensures ok { OnOk result
            (self.new ≡ with_entry self.old (entry_of (string_bytes name) (string_bytes value) [])) }
        ensures replaced { IfOk result (λ old. handed_out old ≡ found_at self.old (string_bytes name)) }
        ensures limit { IsErrOf result BaggageError.Limit
            ↔ BreaksLimit self.old (entry_of (string_bytes name) (string_bytes value) []) }
        ensures memory { IsErrOf result BaggageError.Memory → entry_at self.old (string_bytes name) ≡ None }
        ensures err { OnErr result (self.new ≡ self.old) }
    {
        let none = String::new(*name.allocator());
        self.insert_with_metadata(name, value, BaggageMetadata(none))
    }

    /// Puts a name with its value and metadata: in the place of the entry of that name, else last. Gives back what it
    /// replaced. `Limit` where a limit does not allow the entry, and only else `Memory`. Only a new name takes memory.
    pub fn insert_with_metadata(
        &mut self,
        name: String,
        value: String,
        metadata: BaggageMetadata,
    ) -> Result<Option<(String, BaggageMetadata)>, BaggageError>
        ensures ok { OnOk result
            (self.new ≡ with_entry self.old (entry_of (string_bytes name) (string_bytes value) metadata)) }
        ensures replaced { IfOk result (λ old. handed_out old ≡ found_at self.old (string_bytes name)) }
        ensures limit { IsErrOf result BaggageError.Limit
            ↔ BreaksLimit self.old (entry_of (string_bytes name) (string_bytes value) metadata) }
        ensures memory { IsErrOf result BaggageError.Memory → entry_at self.old (string_bytes name) ≡ None }
        ensures err { OnErr result (self.new ≡ self.old) }
    {
        match &mut self.entries {
            Some(kept) => kept.insert(name, value, metadata),
            None => {
                let mut kept = Entries::new(*name.allocator());
                let replaced = kept.insert(name, value, metadata)?;
                self.entries = Some(kept);
                Ok(replaced)
            }
        }
    }

    /// The value of a name; none where the baggage does not have it. Names are compared byte by byte.
    pub fn get(&self, name: &str) -> Option<&str>
        ensures { option_copied result ≡ option_map (λ entry. entry.value) (entry_at self.now name.now) }
    {
        match self.get_with_metadata(name) {
            Some((value, _)) => Some(value),
            None => None,
        }
    }

    /// The value of a name and its metadata; none where the baggage does not have it.
    pub fn get_with_metadata(&self, name: &str) -> Option<(&str, &BaggageMetadata)>
        ensures { option_map (λ pair. (pair.0.now, pair.1.now)) result ≡ found_at self.now name.now }
    {
        match &self.entries {
            Some(entries) => entries.get(name),
            None => None,
        }
    }

    /// Takes out the entry of a name. The others keep their order.
    pub fn remove(&mut self, name: &str) -> Option<(String, BaggageMetadata)>
        ensures left { self.new ≡ without_entry self.old name.now }
        ensures removed { handed_out result ≡ found_at self.old name.now }
    {
        match &mut self.entries {
            Some(kept) => kept.remove(name),
            None => None,
        }
    }

    /// How many entries there are, at most 64.
    pub fn len(&self) -> usize
        ensures len { result ≡ length self.now }
        ensures within { IsWithinLimits self.now }
        ensures distinct { HasDistinctNames self.now }
    {
        match &self.entries {
            Some(entries) => entries.len(),
            None => 0,
        }
    }

    /// The entries in their order.
    pub fn iter(&self) -> Iter<'_>
        ensures { result ≡ self.now }
    {
        match &self.entries {
            Some(entries) => Iter::new(Some(entries.iter())),
            None => Iter::new(None),
        }
    }

    /// Whether there is no entry.
    pub fn is_empty(&self) -> bool
        ensures { IsTrue result ↔ (self.now ≡ []) }
    {
        self.len() == 0
    }
}

impl Clone for Baggage {
    ghost use Rattle.std.specs.Prelude.{◌≡◌, []};

    ghost is_clone = { λ baggage copy. copy ≡ baggage };

    ghost is_infallible = { λ baggage. baggage ≡ [] };

    /// Copies the entries. A clone of the empty baggage takes no memory.
    fn clone(&self) -> Result<Baggage, AllocError> {
        Ok(Baggage {
            entries: self.entries.clone()?,
        })
    }
}

impl PartialEq for Baggage {
    ghost use Rattle.opentelemetry.specs.Same.{partial_equivalence_from_decides};
    ghost use Rattle.opentelemetry.specs.SameParts.{same_baggage, same_baggage_decides};

    ghost eq = { same_baggage };

    ghost laws = { partial_equivalence_from_decides same_baggage same_baggage_decides };

    fn eq(&self, other: &Baggage) -> bool {
        match (&self.entries, &other.entries) {
            (Some(these), Some(those)) => these == those,
            (Some(these), None) => these.len() == 0,
            (None, Some(those)) => those.len() == 0,
            (None, None) => true,
        }
    }
}

impl Eq for Baggage {
    ghost use Rattle.opentelemetry.specs.Same.{equivalence_from_decides};
    ghost use Rattle.opentelemetry.specs.SameParts.{same_baggage, same_baggage_decides};

    ghost laws = { equivalence_from_decides same_baggage same_baggage_decides };
}
