//! The text of the entry `ot` (OpenTelemetry specification, "TraceState Handling"): sub-keys `key:value` between
//! semicolons, read and written anew with another `th`.

ghost use Rattle.std.specs.Prelude.{◌≡◌, Some, None, if◌then◌else◌, option_map, string_bytes, IfOk, OnOk};
ghost use Rattle.std.specs.List.{after_first};
ghost use Rattle.otel_probability.specs.Entry.{entry_members, entry_text, entry_with, has_sub_key, is_colon};
ghost use Rattle.otel_probability.specs.Entry.{other_members, stays, sub_value};
ghost use Rattle.otel_probability.specs.Joining.{with_member, with_members};

use crate::Threshold;
use std::alloc::{AllocError, Global};

/// The value of a member that has this sub-key.
fn value_under<'a>(member: &'a str, name: &str) -> Option<&'a str>
    ensures { option_map (λ value. value.now) result
        ≡ (if has_sub_key name.now member.now then Some (after_first is_colon member.now) else None) }
{
    match member.split_once(':') {
        Some((key, value)) if key == name => Some(value),
        _ => None,
    }
}

/// The first value of a sub-key.
pub fn sub_value<'a>(entry: &'a str, name: &str) -> Option<&'a str>
    ensures { option_map (λ value. value.now) result ≡ sub_value name.now (entry_members entry.now) }
{
    for member in entry.split(';') {
        if let Some(value) = value_under(member, name) {
            return Some(value);
        }
    }
    None
}

/// Whether a member stays where the threshold is changed: any but `th`; an empty one is none.
fn stays(member: &str) -> bool
    ensures { result ≡ stays member.now }
{
    !member.is_empty() && value_under(member, "th").is_none()
}

/// Puts a member after others.
fn push_member(text: &mut String, member: &str) -> Result<(), AllocError>
    ensures { OnOk result (string_bytes text.new ≡ with_member (string_bytes text.old) member.now) }
{
    if !text.is_empty() {
        text.push_str(";")?;
    }
    text.push_str(member)
}

/// Puts the members of an entry that stay after others.
fn push_others(text: &mut String, entry: &str) -> Result<(), AllocError>
    ensures { OnOk result
        (string_bytes text.new ≡ with_members (string_bytes text.old) (other_members entry.now)) }
{
    for member in entry.split(';') {
        if stays(member) {
            push_member(text, member)?;
        }
    }
    Ok(())
}

/// The entry without a threshold.
pub fn entry_without(alloc: Global, entry: &str) -> Result<String, AllocError>
    ensures { IfOk result (λ text. string_bytes text ≡ entry_text (other_members entry.now)) }
{
    let mut text = String::new(alloc);
    push_others(&mut text, entry)?;
    Ok(text)
}

/// The entry with a threshold, in front of the members that stay.
pub fn entry_with(alloc: Global, threshold: Threshold, entry: &str) -> Result<String, AllocError>
    ensures { IfOk result (λ text. string_bytes text ≡ entry_with threshold entry.now) }
{
    let mut text = String::from_str(alloc, "th:")?;
    threshold.push_text(&mut text)?;
    push_others(&mut text, entry)?;
    Ok(text)
}
