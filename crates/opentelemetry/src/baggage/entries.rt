//! The entries of a baggage in a map that keeps their order, and the number of bytes that they count for.

ghost use Rattle.std.specs.Prelude.{◌≡◌, ◌≢◌, [], ◌+◌, ◌-◌, ◌^◌, ◌<◌, ◌≤◌, ◌↔◌, ◌⊎◌, min, length, string_bytes, Some, None};
ghost use Rattle.std.specs.Prelude.{OnOk, OnErr, OnSome, IfNone, IfOk, IfSome, IsErrOf, IsNone, IsTrue};
ghost use Rattle.std.specs.Option.{option_map};
ghost use Rattle.opentelemetry.specs.Baggage.{entry_bytes, baggage_bytes, entry_at, entry_of, found_at, found_bytes};
ghost use Rattle.opentelemetry.specs.Baggage.{handed_out, with_entry, without_entry, plain_entries, BreaksLimit};
ghost use Rattle.opentelemetry.specs.Baggage.{IsWithinLimits, HasDistinctNames};
ghost use Rattle.opentelemetry.specs.SameParts.{same_baggage};

use super::{BaggageError, BaggageMetadata};
use indexmap::{IndexMap, map};
use std::alloc::{AllocError, Global};
use std::marker::Model;
use std::mem;

const MAX_ENTRIES: usize = 64;

const MAX_BYTES: usize = 8192;

/// How many entries the first one takes room for, so that a baggage of a few grows once.
const FIRST_ROOM: usize = 8;

/// Entries within the limits, by name.
#[derive(Debug, Drop)]
pub(crate) struct Entries {
    map: IndexMap<String, (String, BaggageMetadata)>,
    bytes: usize,
    alloc: Global,
}

impl Model for Entries {
    ghost use Rattle.std.specs.Prelude.{◌≡◌};
    ghost use Rattle.opentelemetry.specs.Baggage.{PlainBaggage, plain_entries, baggage_bytes, IsWithinLimits};

    ghost Value = { PlainBaggage };

    ghost view = { λ a. plain_entries a.map.entries };

    ghost invariant = { λ a. (a.bytes ≡ baggage_bytes (plain_entries a.map.entries))
        × IsWithinLimits (plain_entries a.map.entries) };
}

impl Entries {
    pub(crate) fn new(alloc: Global) -> Entries
        ensures { result ≡ [] }
    {
        Entries {
            map: IndexMap::new(alloc),
            bytes: 0,
            alloc,
        }
    }

    pub(crate) fn allocator(&self) -> Global {
        self.alloc
    }

    /// Puts an entry in the place of the one of its name, else last, and gives back what it replaced. `Limit` where a
    /// limit does not allow it, and only else `Memory`. Only a new name takes memory. The name is looked up once.
    pub(crate) fn insert(
        &mut self,
        name: String,
        value: String,
        metadata: BaggageMetadata,
    ) -> Result<Option<(String, BaggageMetadata)>, BaggageError>
        ensures ok { OnOk result
            (self.new ≡ with_entry self.old (entry_of (string_bytes name) (string_bytes value) metadata)) }
        ensures replaced { IfOk result (λ old. handed_out old ≡ found_at self.old (string_bytes name)) }
        ensures limit { IsErrOf result BaggageError.Limit
            ↔ BreaksLimit self.old (entry_of (string_bytes name) (string_bytes value) metadata) }
        ensures memory { IsErrOf result BaggageError.Memory → entry_at self.old (string_bytes name) ≡ None }
        ensures err { OnErr result (self.new ≡ self.old) }
    {
        if name.is_empty() {
            return Err(BaggageError::Limit);
        }
        let added = bytes_of(name.as_str(), value.as_str(), &metadata);
        if self.has_room(added) {
            let replaced = self.put(added, name, value, metadata)?;
            return Ok(replaced);
        }
        match self.replace(added, name.as_str(), value, metadata) {
            Some(replaced) => Ok(Some(replaced)),
            None => Err(BaggageError::Limit),
        }
    }

    /// Whether one more entry of so many bytes is within the limits, whatever its name.
    fn has_room(&self, added: usize) -> bool
        ensures { IsTrue result ↔ ((length self.now < 64) × (baggage_bytes self.now + added ≤ 8192)) }
    {
        added <= MAX_BYTES - self.bytes && self.map.len() < MAX_ENTRIES
    }

    /// Puts an entry of so many bytes, for which there is room.
    fn put(
        &mut self,
        added: usize,
        name: String,
        value: String,
        metadata: BaggageMetadata,
    ) -> Result<Option<(String, BaggageMetadata)>, AllocError>
        requires named { string_bytes name ≢ [] }
        requires counted { added ≡ entry_bytes (entry_of (string_bytes name) (string_bytes value) metadata) }
        requires few { length self.old < 64 }
        requires small { baggage_bytes self.old + added ≤ 8192 }
        ensures ok { OnOk result
            (self.new ≡ with_entry self.old (entry_of (string_bytes name) (string_bytes value) metadata)) }
        ensures replaced { IfOk result (λ old. handed_out old ≡ found_at self.old (string_bytes name)) }
        ensures err { OnErr result (self.new ≡ self.old) }
        ensures memory { OnErr result (entry_at self.old (string_bytes name) ≡ None) }
    {
        let name_len = name.len();
        let replaced = put_in(&mut self.map, name, value, metadata)?;
        self.bytes = self.bytes + added - bytes_handed_out(name_len, &replaced);
        Ok(replaced)
    }

    /// Puts an entry of so many bytes in the place of the one of its name; `None` where there is none, or where the
    /// limit of bytes does not allow it. Takes no memory.
    fn replace(
        &mut self,
        added: usize,
        name: &str,
        value: String,
        metadata: BaggageMetadata,
    ) -> Option<(String, BaggageMetadata)>
        requires named { name.now ≢ [] }
        requires counted { added ≡ min (entry_bytes (entry_of name.now (string_bytes value) metadata)) (2 ^ 64 - 1) }
        ensures ok { OnSome result
            (self.new ≡ with_entry self.old (entry_of name.now (string_bytes value) metadata)) }
        ensures replaced { IfSome result (λ old. handed_out (Some old) ≡ found_at self.old name.now) }
        ensures allowed { OnSome result (¬ (BreaksLimit self.old (entry_of name.now (string_bytes value) metadata))) }
        ensures refused { IsNone result ↔ ((entry_at self.old name.now ≡ None)
            ⊎ (8192 < baggage_bytes (with_entry self.old (entry_of name.now (string_bytes value) metadata)))) }
        ensures unchanged { IfNone result (self.new ≡ self.old) }
    {
        let (after, replaced) = replace_in(
            &mut self.map,
            self.bytes,
            added,
            name,
            value,
            metadata,
        )?;
        self.bytes = after;
        Some(replaced)
    }

    /// Takes out the entry of a name. The others keep their order.
    pub(crate) fn remove(&mut self, name: &str) -> Option<(String, BaggageMetadata)>
        ensures left { self.new ≡ without_entry self.old name.now }
        ensures removed { handed_out result ≡ found_at self.old name.now }
    {
        let removed = remove_in(&mut self.map, name);
        self.bytes -= bytes_handed_out(name.len(), &removed);
        removed
    }

    pub(crate) fn get(&self, name: &str) -> Option<(&str, &BaggageMetadata)>
        ensures { option_map (λ pair. (pair.0.now, pair.1.now)) result ≡ found_at self.now name.now }
    {
        get_in(&self.map, name)
    }

    pub(crate) fn iter(&self) -> map::Iter<'_, String, (String, BaggageMetadata)>
        ensures { plain_entries result ≡ self.now }
    {
        self.map.iter()
    }

    pub(crate) fn len(&self) -> usize
        ensures len { result ≡ length self.now }
        ensures within { IsWithinLimits self.now }
        ensures distinct { HasDistinctNames self.now }
    {
        self.map.len()
    }
}

impl Clone for Entries {
    ghost use Rattle.std.specs.Prelude.{◌≡◌, []};

    ghost is_clone = { λ entries copy. copy ≡ entries };

    ghost is_infallible = { λ entries. entries ≡ [] };

    fn clone(&self) -> Result<Entries, AllocError> {
        if self.map.is_empty() {
            return Ok(Entries::new(self.alloc));
        }
        Ok(Entries {
            map: copy_of(&self.map)?,
            bytes: self.bytes,
            alloc: self.alloc,
        })
    }
}

impl PartialEq for Entries {
    ghost use Rattle.opentelemetry.specs.Same.{partial_equivalence_from_decides};
    ghost use Rattle.opentelemetry.specs.SameParts.{same_baggage, same_baggage_decides};

    ghost eq = { same_baggage };

    ghost laws = { partial_equivalence_from_decides same_baggage same_baggage_decides };

    fn eq(&self, other: &Entries) -> bool {
        same_maps(&self.map, &other.map)
    }
}

impl Eq for Entries {
    ghost use Rattle.opentelemetry.specs.Same.{equivalence_from_decides};
    ghost use Rattle.opentelemetry.specs.SameParts.{same_baggage, same_baggage_decides};

    ghost laws = { equivalence_from_decides same_baggage same_baggage_decides };
}

/// Whether two maps have the same entries in the same order.
fn same_maps(
    these: &IndexMap<String, (String, BaggageMetadata)>,
    those: &IndexMap<String, (String, BaggageMetadata)>,
) -> bool
    ensures { result ≡ same_baggage (plain_entries these.now.entries) (plain_entries those.now.entries) }
{
    these.as_slice() == those.as_slice()
}

fn copy_of(
    map: &IndexMap<String, (String, BaggageMetadata)>,
) -> Result<IndexMap<String, (String, BaggageMetadata)>, AllocError>
    ensures { IfOk result (λ copy. plain_entries copy.entries ≡ plain_entries map.now.entries) }
{
    let copy = map.clone()?;
    Ok(copy)
}

fn get_in<'a>(
    map: &'a IndexMap<String, (String, BaggageMetadata)>,
    name: &str,
) -> Option<(&'a str, &'a BaggageMetadata)>
    ensures { option_map (λ pair. (pair.0.now, pair.1.now)) result
        ≡ found_at (plain_entries map.now.entries) name.now }
{
    match map.get(name) {
        Some(kept) => Some((kept.0.as_str(), &kept.1)),
        None => None,
    }
}

fn remove_in(
    map: &mut IndexMap<String, (String, BaggageMetadata)>,
    name: &str,
) -> Option<(String, BaggageMetadata)>
    ensures left { plain_entries map.new.entries ≡ without_entry (plain_entries map.old.entries) name.now }
    ensures removed { handed_out result ≡ found_at (plain_entries map.old.entries) name.now }
{
    map.shift_remove(name)
}

/// Makes room for the first entries, where there are none.
fn reserve_first(map: &mut IndexMap<String, (String, BaggageMetadata)>) -> Result<(), AllocError>
    ensures same { map.new.entries ≡ map.old.entries }
    ensures err { OnErr result (map.old.entries ≡ []) }
{
    if map.is_empty() {
        map.reserve(FIRST_ROOM)?;
    }
    Ok(())
}

/// Puts an entry in the place of the one of its name, else last. Only a new name takes memory.
fn put_in(
    map: &mut IndexMap<String, (String, BaggageMetadata)>,
    name: String,
    value: String,
    metadata: BaggageMetadata,
) -> Result<Option<(String, BaggageMetadata)>, AllocError>
    ensures ok { OnOk result (plain_entries map.new.entries
        ≡ with_entry (plain_entries map.old.entries) (entry_of (string_bytes name) (string_bytes value) metadata)) }
    ensures replaced { IfOk result (λ old.
        handed_out old ≡ found_at (plain_entries map.old.entries) (string_bytes name)) }
    ensures err { OnErr result (plain_entries map.new.entries ≡ plain_entries map.old.entries) }
    ensures memory { OnErr result (entry_at (plain_entries map.old.entries) (string_bytes name) ≡ None) }
{
    reserve_first(map)?;
    match map.insert(name, (value, metadata)) {
        Ok(old) => Ok(old),
        Err(_) => Err(AllocError),
    }
}

/// Puts an entry of `added` bytes in the place of the one of its name, and answers the bytes that all count for then
/// and what was replaced. `None` where there is none, or where the bytes would be over the limit.
fn replace_in(
    map: &mut IndexMap<String, (String, BaggageMetadata)>,
    bytes: usize,
    added: usize,
    name: &str,
    value: String,
    metadata: BaggageMetadata,
) -> Option<(usize, (String, BaggageMetadata))>
    requires counted { bytes ≡ baggage_bytes (plain_entries map.old.entries) }
    requires small { bytes ≤ 8192 }
    requires added { added ≡ min (entry_bytes (entry_of name.now (string_bytes value) metadata)) (2 ^ 64 - 1) }
    ensures ok { OnSome result (plain_entries map.new.entries
        ≡ with_entry (plain_entries map.old.entries) (entry_of name.now (string_bytes value) metadata)) }
    ensures counted { IfSome result (λ put. put.0 ≡ baggage_bytes
        (with_entry (plain_entries map.old.entries) (entry_of name.now (string_bytes value) metadata))) }
    ensures replaced { IfSome result (λ put.
        handed_out (Some put.1) ≡ found_at (plain_entries map.old.entries) name.now) }
    ensures refused { IsNone result ↔ ((entry_at (plain_entries map.old.entries) name.now ≡ None)
        ⊎ (8192 < baggage_bytes
        (with_entry (plain_entries map.old.entries) (entry_of name.now (string_bytes value) metadata)))) }
    ensures unchanged { IfNone result (plain_entries map.new.entries ≡ plain_entries map.old.entries) }
{
    let kept = map.get_mut(name)?;
    let before = name.len() + kept.0.len() + kept.1.as_str().len();
    let after = (bytes - before).saturating_add(added);
    if after > MAX_BYTES {
        return None;
    }
    Some((after, mem::replace(kept, (value, metadata))))
}

/// The bytes that an entry counted for which is handed out, with a name of this length; none where there was none.
fn bytes_handed_out(name_len: usize, given: &Option<(String, BaggageMetadata)>) -> usize
    requires { found_bytes name_len (handed_out given.now) ≤ 8192 }
    ensures { result ≡ found_bytes name_len (handed_out given.now) }
{
    match given {
        Some((value, metadata)) => name_len + value.len() + metadata.as_str().len(),
        None => 0,
    }
}

/// The bytes that an entry counts for, up to the greatest `usize`.
fn bytes_of(name: &str, value: &str, metadata: &BaggageMetadata) -> usize
    ensures { result ≡ min (entry_bytes (entry_of name.now value.now metadata.now)) (2 ^ 64 - 1) }
{
    name.len()
        .saturating_add(value.len())
        .saturating_add(metadata.as_str().len())
}
