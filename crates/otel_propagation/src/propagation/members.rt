//! The header `baggage` read into the baggage of a context: its members in turn, whichever way a member is read.

ghost use Rattle.std.specs.Prelude.{◌≡◌, ◌+◌, ◌<◌, ◌≤◌, ◌∷◌, [], ℕ, List, Option, None, length, unwrap_or};
ghost use Rattle.std.specs.Prelude.{IfOk, IfSome, IsOk, OnOk};
ghost use Rattle.std.specs.Option.{option_map_or};
ghost use Rattle.opentelemetry.specs.Baggage.{PlainBaggageEntry, baggage_bytes, with_entry, BreaksLimit};
ghost use Rattle.opentelemetry.specs.Members.{HasNo, equals_sign, pieces_at, semicolon};
ghost use Rattle.otel_propagation.specs.BaggageHeader.{BaggageIsInfallible, baggage_field, entries_said, read_short};
ghost use Rattle.otel_propagation.specs.BaggagePieces.{IsNamedWithin, properties_after};

use opentelemetry::Context;
use opentelemetry::baggage::{Baggage, BaggageError, KeyValueMetadata};
use opentelemetry::propagation::Extractor;
use std::alloc::{AllocError, Global};

pub(super) const BAGGAGE_HEADER: &str = "baggage";

/// The longest header that is read, in bytes (W3C Baggage, section 3.3.2).
const MAX_HEADER_BYTES: usize = 8192;

/// How many members of a header are looked at (W3C Baggage, section 3.3.2).
const MAX_MEMBERS: usize = 64;

/// A way to read a member of a header.
pub(super) trait ReadsMembers {
    /// The entry that a member says, if it reads.
    ghost says: { List ℕ → Option PlainBaggageEntry };

    /// The entry that a member says, which is no longer than it. Without an equals sign it says none, which takes no
    /// memory.
    fn read_member(
        &self,
        alloc: Global,
        member: &str,
    ) -> Result<Option<KeyValueMetadata>, AllocError>
        ensures read { IfOk result (λ entry. entry ≡ says member.now) }
        ensures within { IfOk result (λ entry. IfSome entry (λ e. IsNamedWithin (length member.now) e)) }
        ensures none { HasNo equals_sign member.now → IfOk result (λ entry. entry ≡ None) }
        ensures free { HasNo equals_sign member.now → IsOk result };
}

/// The context with the header's baggage. Without a header, or with one of more than 8192 bytes, it is as it was.
pub(super) fn extracted<M: ReadsMembers, X: Extractor>(
    reader: &M,
    alloc: Global,
    cx: &Context,
    extractor: &X,
) -> Result<Context, AllocError>
    ensures gives { IfOk result (λ found. found ≡ record cx.now {
      baggage =
          unwrap_or (read_short (entries_said M.says) (X.reads extractor.now baggage_field)) cx.now.baggage;
    }) }
    ensures infallible { BaggageIsInfallible cx.now (X.reads extractor.now) → IsOk result }
{
    match extractor.get(BAGGAGE_HEADER) {
        Some(header) if header.len() <= MAX_HEADER_BYTES => {
            cx.with_baggage(entries_of(reader, alloc, header)?)
        }
        _ => cx.clone(),
    }
}

/// The baggage of a header. One member is read at a time, and none after the last that counts is looked for.
fn entries_of<M: ReadsMembers>(
    reader: &M,
    alloc: Global,
    header: &str,
) -> Result<Baggage, AllocError>
    requires { length header.now ≤ 8192 }
    ensures read { IfOk result (λ baggage. baggage ≡ entries_said M.says header.now) }
    ensures none { HasNo equals_sign header.now → IfOk result (λ baggage. baggage ≡ []) }
    ensures free { HasNo equals_sign header.now → IsOk result }
{
    let mut baggage = Baggage::new(alloc);
    'members: for member in header.split(',').take(MAX_MEMBERS) {
        put_member(reader, &mut baggage, alloc, member)?;
    }
    Ok(baggage)
}

/// Puts what a member says, if it reads. There is room for it, so no limit forbids it.
fn put_member<M: ReadsMembers>(
    reader: &M,
    baggage: &mut Baggage,
    alloc: Global,
    member: &str,
) -> Result<(), AllocError>
    requires few { length baggage.old < 64 }
    requires small { baggage_bytes baggage.old + length member.now ≤ 8192 }
    ensures put { OnOk result (baggage.new
        ≡ option_map_or (λ entry. with_entry baggage.old entry) (M.says member.now) baggage.old) }
    ensures short { OnOk result (baggage_bytes baggage.new ≤ baggage_bytes baggage.old + length member.now) }
    ensures none { HasNo equals_sign member.now → OnOk result (baggage.new ≡ baggage.old) }
    ensures free { HasNo equals_sign member.now → IsOk result }
{
    match reader.read_member(alloc, member)? {
        Some(entry) => put(baggage, entry),
        None => Ok(()),
    }
}

/// Puts an entry that the limits allow.
fn put(baggage: &mut Baggage, entry: KeyValueMetadata) -> Result<(), AllocError>
    requires { ¬ (BreaksLimit baggage.old entry) }
    ensures { OnOk result (baggage.new ≡ with_entry baggage.old entry) }
{
    match baggage.insert_with_metadata(entry.key, entry.value, entry.metadata) {
        Ok(_replaced) => Ok(()),
        Err(BaggageError::Memory) => Err(AllocError),
        Err(BaggageError::Limit) => unreachable!(),
    }
}

/// What stands before the first semicolon of a member, and what stands after it.
pub(super) fn split_properties(member: &str) -> (&str, Option<&str>)
    ensures { pieces_at semicolon member.now ≡ result.0.now ∷ properties_after result.1 }
{
    match member.split_once(';') {
        Some((pair, properties)) => (pair, Some(properties)),
        None => (member, None),
    }
}
