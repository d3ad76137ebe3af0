//! What a span has recorded, in a block of its own, so that the span itself moves lightly.

ghost use Rattle.std.specs.Prelude.{◌≡◌, [], Some, None, is_some, IfOk, option_copied};

use crate::trace::SpanBlock;
use otel_export::trace::SpanData;
use std::alloc::{AllocError, Global};
use std::marker::Model;
use std::mem;

/// The data of a span while it records. To contracts it is the data, where there is any.
#[derive(Drop)]
pub(crate) struct Recorded {
    // At most one.
    pub(super) data: Vec<SpanData>,
}

impl Model for Recorded {
    ghost use Rattle.std.specs.Prelude.{◌≤◌, Option, length, slice_get};
    ghost use Rattle.otel_export.specs.PlainSpanData.{PlainSpanData};

    ghost Value = { Option PlainSpanData };

    ghost view = { λ a. slice_get a.data.items 0 };

    ghost invariant = { λ a. length a.data.items ≤ 1 };
}

impl Recorded {
    /// Nothing.
    pub(crate) fn none(alloc: Global) -> Recorded
        ensures { result ≡ None }
    {
        Recorded {
            data: Vec::new(alloc),
        }
    }

    /// This data, in the room of this list, or where that has none in a block that is taken for it.
    #[inline(always)]
    pub(crate) fn new(room: Vec<SpanData>, span: SpanData) -> Result<Recorded, AllocError>
        requires { room.items ≡ [] }
        ensures { IfOk result (λ recorded. recorded ≡ Some span) }
    {
        let block = SpanBlock::within(room, span)?;
        Ok(Recorded {
            data: block.into_batch(),
        })
    }

    pub(crate) fn is_some(&self) -> bool
        ensures { result ≡ is_some self.now }
    {
        !self.data.is_empty()
    }

    pub(crate) fn get(&self) -> Option<&SpanData>
        ensures { option_copied result ≡ self.now }
    {
        self.data.first()
    }

    /// Takes the data out in its block, and leaves nothing.
    #[inline(always)]
    pub(crate) fn take(&mut self, alloc: Global) -> Option<SpanBlock>
        ensures taken { result ≡ self.old }
        ensures none { self.new ≡ None }
    {
        if self.data.is_empty() {
            return None;
        }
        let data = mem::replace(&mut self.data, Vec::new(alloc));
        Some(SpanBlock::of(data))
    }

    pub(crate) fn clear(&mut self)
        ensures { self.new ≡ None }
    {
        self.data.clear();
    }
}
