//! Going over a baggage in its order.

ghost use Rattle.std.specs.Prelude.{◌≡◌, Some, None};
ghost use Rattle.std.specs.Iterator.{YieldsFirstBy, item_count};
ghost use Rattle.opentelemetry.specs.Baggage.{PlainBaggage, plain_item, left_entries, plain_entries};

use super::BaggageMetadata;
use indexmap::map;
use std::marker::Model;

/// The entries of a baggage: each a name, its value and its metadata.
#[derive(Drop)]
pub struct Iter<'a> {
    entries: Option<map::Iter<'a, String, (String, BaggageMetadata)>>,
}

impl<'a> Model for Iter<'a> {
    ghost use Rattle.opentelemetry.specs.Baggage.{PlainBaggage, left_entries};

    ghost Value = { PlainBaggage };

    ghost view = { λ a. left_entries a.entries };
}

impl<'a> Iter<'a> {
    pub(crate) fn new(entries: Option<map::Iter<'a, String, (String, BaggageMetadata)>>) -> Iter<'a>
        ensures { result ≡ left_entries entries.entry }
    {
        Iter { entries }
    }
}

impl<'a> Iterator for Iter<'a> {
    type Item = (&'a str, (&'a str, &'a BaggageMetadata));

    ghost next_gives = { YieldsFirstBy plain_item (λ entries. entries) };

    ghost remaining = { item_count (λ entries. entries) };

    fn next(&mut self) -> Option<(&'a str, (&'a str, &'a BaggageMetadata))> {
        match &mut self.entries {
            Some(entries) => next_of(entries),
            None => None,
        }
    }
}

fn next_of<'a>(
    entries: &mut map::Iter<'a, String, (String, BaggageMetadata)>,
) -> Option<(&'a str, (&'a str, &'a BaggageMetadata))>
    ensures { YieldsFirstBy plain_item (λ left. plain_entries left) entries.old result entries.new }
{
    match entries.next() {
        Some((name, kept)) => Some((name.as_str(), (kept.0.as_str(), &kept.1))),
        None => None,
    }
}
