//! A walk over the attributes of a resource.

use super::Resource;
use opentelemetry::{Key, Value};
use std::collections::btree_map;
use std::marker::Model;

/// The attributes of a resource that are left to walk over.
#[derive(Drop)]
pub struct Iter<'a> {
    // None: the resource says nothing.
    pub(super) pairs: Option<btree_map::Iter<'a, Key, Value>>,
}

impl<'a> Model for Iter<'a> {
    ghost use Rattle.std.specs.Prelude.{ℕ, List};
    ghost use Rattle.opentelemetry.specs.Plain.{PlainValue};
    ghost use Rattle.otel_resource.specs.Resource.{pairs_left};
    ghost use Rattle.std.specs.Coded.{coded_list, coded×, coded_ℕ};
    ghost use Rattle.otel_resource.specs.ResourceCode.{value_code};

    ghost Value = { List (List ℕ × PlainValue) };

    ghost coded = { coded_list (coded× (coded_list coded_ℕ) value_code) };

    ghost view = { λ it. pairs_left it.pairs };
}

impl<'a> Iterator for Iter<'a> {
    type Item = (&'a Key, &'a Value);

    ghost use Rattle.std.specs.Prelude.{length};
    ghost use Rattle.std.specs.Iterator.{at_most};
    ghost use Rattle.std.specs.Map.Iter.{TakesFirst};
    ghost use Rattle.otel_resource.specs.Resource.{shown_pair};

    ghost next_gives = { TakesFirst shown_pair };

    ghost remaining = { λ left. at_most (length left) };

    fn next(&mut self) -> Option<(&'a Key, &'a Value)> {
        match &mut self.pairs {
            Some(pairs) => pairs.next(),
            None => None,
        }
    }
}

impl<'a> IntoIterator for &'a Resource {
    type Item = (&'a Key, &'a Value);

    type IntoIter = Iter<'a>;

    ghost use Rattle.std.specs.Prelude.{◌≡◌};
    ghost use Rattle.std.specs.FinMap.{entries};

    ghost into_iter_gives = { λ resource it. it ≡ entries resource.now.attributes };

    fn into_iter(self) -> Iter<'a> {
        self.iter()
    }
}
