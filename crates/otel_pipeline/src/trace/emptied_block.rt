//! The block of a span that a processor is through with, until the next span takes it.

ghost use Rattle.std.specs.Prelude.{◌≡◌, [], IfSome};

use otel_export::trace::SpanData;
use std::marker::Model;

/// An emptied block, or none. It is there for its room alone: contracts see nothing of it, so that a processor that has
/// one is to them as if it had none.
#[derive(Debug, Drop)]
pub struct EmptiedBlock {
    list: Option<Vec<SpanData>>,
}

impl Model for EmptiedBlock {
    ghost use Rattle.std.specs.Prelude.{◌≡◌, [], IfSome};

    ghost Value = { Unit {0} };

    ghost view = { λ _. tt };

    ghost invariant = { λ a. IfSome a.list (λ list. list.items ≡ []) };
}

impl EmptiedBlock {
    /// None.
    pub fn none() -> EmptiedBlock {
        EmptiedBlock { list: None }
    }

    /// Empties this block, and keeps it in place of the one that it had.
    pub fn keep(&mut self, block: Vec<SpanData>) {
        let mut list = block;
        list.clear();
        self.list = Some(list);
    }

    /// Hands the block out.
    pub fn take(&mut self) -> Option<Vec<SpanData>>
        ensures { IfSome result (λ list. list.items ≡ []) }
    {
        self.list.take()
    }
}
