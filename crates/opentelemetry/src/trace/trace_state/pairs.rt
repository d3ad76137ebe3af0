//! Lists of pairs: read from a text, tested, copied without a key, and written as a header.

ghost use Rattle.std.specs.Prelude.{◌≡◌, ◌≢◌, ◌-◌, ◌^◌, min, ◌∷◌, ◌++◌, [], Some, None};
ghost use Rattle.std.specs.Prelude.{length, map, string_bytes, vec_capacity, IfOk, OnOk, OnErr, option_map, ◌≤◌};
ghost use Rattle.std.specs.List.{filter};
ghost use Rattle.opentelemetry.specs.PlainValues.{plain_pair};
ghost use Rattle.opentelemetry.specs.Text.{TextGrows};
ghost use Rattle.opentelemetry.specs.Tracestate.{first_fault, first_pair_fault, is_some_text, members};
ghost use Rattle.opentelemetry.specs.Tracestate.{next_member_text, pair_of, tracestate_text, value_of_key};
ghost use Rattle.opentelemetry.specs.Tracestate.{without_key};

use super::TraceStateError;
use super::grammar::{cut_at_comma, pair_fault, split_member};
use crate::propagation::blanks::trim_blanks;
use std::alloc::{AllocError, Global};

/// The first fault of a list of pairs.
pub fn first_pair_fault(pairs: &[(String, String)]) -> Option<TraceStateError>
    ensures { result ≡ first_pair_fault (map plain_pair pairs.now) }
{
    'pairs: for (key, value) in pairs {
        if let Some(fault) = pair_fault(key.as_str(), value.as_str()) {
            return Some(fault);
        }
    }
    None
}

/// The first value of a key.
pub fn value_of_key<'a>(pairs: &'a [(String, String)], key: &str) -> Option<&'a str>
    ensures { option_map (λ value. value.now) result ≡ value_of_key key.now (map plain_pair pairs.now) }
{
    'pairs: for (name, value) in pairs {
        if name.as_str() == key {
            return Some(value.as_str());
        }
    }
    None
}

fn copied_pair(alloc: Global, key: &str, value: &str) -> Result<(String, String), AllocError>
    ensures { IfOk result (λ pair. plain_pair pair ≡ (key.now, value.now)) }
{
    Ok((
        String::from_str(alloc, key)?,
        String::from_str(alloc, value)?,
    ))
}

/// Puts the pair of a trimmed piece after the others; an empty piece has none, and takes no memory.
fn push_piece(
    pairs: &mut Vec<(String, String)>,
    alloc: Global,
    piece: &str,
) -> Result<(), AllocError>
    requires { first_fault (filter is_some_text (piece.now ∷ [])) ≡ None }
    ensures ok { OnOk result (map plain_pair pairs.new.items
        ≡ map plain_pair pairs.old.items ++ map pair_of (filter is_some_text (piece.now ∷ []))) }
    ensures err { OnErr result (piece.now ≢ []) }
{
    match split_member(piece) {
        Some((key, value)) => {
            pairs.push(copied_pair(alloc, key, value)?)?;
            Ok(())
        }
        None => Ok(()),
    }
}

/// The pairs of a text without fault. A text without members takes no memory.
pub fn read_members(alloc: Global, text: &str) -> Result<Vec<(String, String)>, AllocError>
    requires { first_fault (members text.now) ≡ None }
    ensures ok { IfOk result (λ pairs. map plain_pair pairs.items ≡ map pair_of (members text.now)) }
    ensures err { OnErr result (members text.now ≢ []) }
{
    let mut pairs = Vec::new(alloc);
    let mut rest = Some(text);
    'pieces: while let Some(left) = rest {
        let (piece, after) = cut_at_comma(left);
        push_piece(&mut pairs, alloc, trim_blanks(piece))?;
        rest = after;
    }
    Ok(pairs)
}

/// Puts a copy of a pair after the others, unless it has the key, which takes no memory.
fn push_unless_key(
    pairs: &mut Vec<(String, String)>,
    alloc: Global,
    pair: &(String, String),
    key: &str,
) -> Result<(), AllocError>
    ensures ok { OnOk result (map plain_pair pairs.new.items
        ≡ map plain_pair pairs.old.items ++ without_key key.now (plain_pair pair.now ∷ [])) }
    ensures err { OnErr result (without_key key.now (plain_pair pair.now ∷ []) ≢ []) }
{
    if pair.0.as_str() == key {
        return Ok(());
    }
    pairs.push(copied_pair(alloc, pair.0.as_str(), pair.1.as_str())?)?;
    Ok(())
}

/// Puts copies of the pairs that have another key after those of a list.
fn push_others(
    list: &mut Vec<(String, String)>,
    alloc: Global,
    pairs: &[(String, String)],
    key: &str,
) -> Result<(), AllocError>
    ensures ok { OnOk result (map plain_pair list.new.items
        ≡ map plain_pair list.old.items ++ without_key key.now (map plain_pair pairs.now)) }
    ensures err { OnErr result (without_key key.now (map plain_pair pairs.now) ≢ []) }
{
    'pairs: for pair in pairs {
        push_unless_key(list, alloc, pair, key)?;
    }
    Ok(())
}

/// Copies of the pairs that have another key. Where there are none, this takes no memory.
pub fn without_key(
    alloc: Global,
    pairs: &[(String, String)],
    key: &str,
) -> Result<Vec<(String, String)>, AllocError>
    ensures ok { IfOk result (λ others.
        map plain_pair others.items ≡ without_key key.now (map plain_pair pairs.now)) }
    ensures err { OnErr result (without_key key.now (map plain_pair pairs.now) ≢ []) }
{
    let mut others = Vec::new(alloc);
    push_others(&mut others, alloc, pairs, key)?;
    Ok(others)
}

/// The new pair, and after it copies of the pairs that have another key.
pub fn with_pair(
    alloc: Global,
    pairs: &[(String, String)],
    key: String,
    value: String,
) -> Result<Vec<(String, String)>, AllocError>
    ensures { IfOk result (λ all. map plain_pair all.items
        ≡ (string_bytes key, string_bytes value) ∷ without_key (string_bytes key) (map plain_pair pairs.now)) }
{
    let mut all = Vec::with_capacity(alloc, pairs.len().saturating_add(1))?;
    // An empty pair holds the first place until the others have been compared with the key.
    all.push((String::new(alloc), String::new(alloc)))?;
    push_others(&mut all, alloc, pairs, key.as_str())?;
    all[0] = (key, value);
    Ok(all)
}

/// Leaves the pairs that have another key. They keep their room.
fn retain_others(pairs: &mut Vec<(String, String)>, key: &str)
    ensures others { map plain_pair pairs.new.items ≡ without_key key.now (map plain_pair pairs.old.items) }
    ensures fewer { length pairs.new.items ≤ length pairs.old.items }
    ensures room { vec_capacity pairs.new ≡ vec_capacity pairs.old }
{
    pairs.retain(|pair| pair.0.as_str() != key);
}

/// Puts a pair in front, in the list itself, and takes out those that have its key. After an error the list is as it was.
pub fn put_in_front(
    pairs: &mut Vec<(String, String)>,
    key: String,
    value: String,
) -> Result<(), AllocError>
    ensures ok { OnOk result (map plain_pair pairs.new.items
        ≡ (string_bytes key, string_bytes value) ∷ without_key (string_bytes key) (map plain_pair pairs.old.items)) }
    ensures err { OnErr result (pairs.new.items ≡ pairs.old.items) }
{
    pairs.reserve(1)?;
    retain_others(pairs, key.as_str());
    match pairs.insert(0, (key, value)) {
        Ok(()) => Ok(()),
        Err(_) => unreachable!(),
    }
}

/// How long a member is, with the comma in front where others stand before it.
fn next_member_len(index: usize, pair: &(String, String)) -> usize
    ensures { result ≡ min (length (next_member_text index (plain_pair pair.now))) (2 ^ 64 - 1) }
{
    let member = pair.0.len().saturating_add(1).saturating_add(pair.1.len());
    if index > 0 {
        return member.saturating_add(1);
    }
    member
}

/// How long the header of the pairs is.
fn header_len(pairs: &[(String, String)]) -> usize
    ensures { result ≡ min (length (tracestate_text (map plain_pair pairs.now))) (2 ^ 64 - 1) }
{
    let mut len: usize = 0;
    'pairs: for (i, pair) in pairs.iter().enumerate() {
        len = len.saturating_add(next_member_len(i, pair));
    }
    len
}

/// Writes a member, after a comma where others stand before it.
fn push_member(text: &mut String, index: usize, pair: &(String, String)) -> Result<(), AllocError>
    ensures { OnOk result (TextGrows text.old (next_member_text index (plain_pair pair.now)) text.new) }
{
    if index > 0 {
        text.push_str(",")?;
    }
    text.push_str(pair.0.as_str())?;
    text.push_str("=")?;
    text.push_str(pair.1.as_str())
}

/// The members of the pairs, joined by commas. Room for all is taken at once, and none where there are no pairs.
pub fn header(alloc: Global, pairs: &[(String, String)]) -> Result<String, AllocError>
    ensures ok { IfOk result (λ text. string_bytes text ≡ tracestate_text (map plain_pair pairs.now)) }
    ensures err { OnErr result (map plain_pair pairs.now ≢ []) }
{
    let mut text = String::with_capacity(alloc, header_len(pairs))?;
    'pairs: for (i, pair) in pairs.iter().enumerate() {
        push_member(&mut text, i, pair)?;
    }
    Ok(text)
}
