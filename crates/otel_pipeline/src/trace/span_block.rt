//! The data of a span in a block of its own: it moves lightly, and is a batch of one as it stands.

ghost use Rattle.std.specs.Prelude.{◌≡◌, ◌<◌, ◌∷◌, [], IfOk, length, vec_capacity, vec_len};
ghost use Rattle.otel_pipeline.specs.SpanHistory.{ended_at};

use opentelemetry::Moment;
use otel_export::trace::SpanData;
use std::alloc::{AllocError, Global};
use std::marker::Model;

/// The data of a span, in the block of memory in which it was recorded. To contracts it is the data.
#[derive(Drop)]
pub struct SpanBlock {
    // Exactly one.
    data: Vec<SpanData>,
}

impl Model for SpanBlock {
    ghost use Rattle.std.specs.Prelude.{◌≡◌, length};
    ghost use Rattle.otel_export.specs.PlainSpanData.{PlainSpanData};
    ghost use Rattle.otel_pipeline.specs.SpanBlock.{only_data};

    ghost Value = { PlainSpanData };

    ghost view = { λ a. only_data a.data.items };

    ghost invariant = { λ a. length a.data.items ≡ 1 };
}

impl SpanBlock {
    /// This data, in a block that is taken for it.
    #[inline(always)]
    pub fn new(alloc: Global, span: SpanData) -> Result<SpanBlock, AllocError>
        ensures { IfOk result (λ block. block ≡ span) }
    {
        SpanBlock::within(Vec::new(alloc), span)
    }

    /// This data, in the room of this list, or where that has none in a block that is taken for it.
    #[inline(always)]
    pub(crate) fn within(room: Vec<SpanData>, span: SpanData) -> Result<SpanBlock, AllocError>
        requires { room.items ≡ [] }
        ensures { IfOk result (λ block. block ≡ span) }
    {
        let mut data = with_room(room)?;
        data.push_reserved(span);
        Ok(SpanBlock { data })
    }

    /// The block that is this list.
    #[inline(always)]
    pub(crate) fn of(list: Vec<SpanData>) -> SpanBlock
        requires { length list.items ≡ 1 }
        ensures { list.items ≡ result ∷ [] }
    {
        SpanBlock { data: list }
    }

    /// The data.
    pub fn data(&self) -> &SpanData
        ensures { result.now ≡ self.now }
    {
        &self.data[0]
    }

    /// The span ended at this moment.
    pub(crate) fn end_at(&mut self, timestamp: Moment)
        ensures { self.new ≡ ended_at timestamp.0 self.old }
    {
        self.data[0].end_time = timestamp;
    }

    /// The data out of its block.
    #[inline(always)]
    pub fn into_data(self) -> SpanData
        ensures { result ≡ self }
    {
        self.into_parts().0
    }

    /// The data, and the block without it.
    #[inline(always)]
    pub fn into_parts(self) -> (SpanData, Vec<SpanData>)
        ensures data { result.0 ≡ self }
        ensures emptied { result.1.items ≡ [] }
    {
        let SpanBlock { mut data } = self;
        let span = data.pop().unwrap();
        (span, data)
    }

    /// The same as a batch of one.
    #[inline(always)]
    pub fn into_batch(self) -> Vec<SpanData>
        ensures { result.items ≡ self ∷ [] }
    {
        let SpanBlock { data } = self;
        data
    }
}

/// An empty list as it is, where it has room for a span, or else one that has.
fn with_room(list: Vec<SpanData>) -> Result<Vec<SpanData>, AllocError>
    requires { list.items ≡ [] }
    ensures items { IfOk result (λ list. list.items ≡ []) }
    ensures room { IfOk result (λ list. vec_len list < vec_capacity list) }
{
    if list.capacity() == 0 {
        Vec::with_capacity(*list.allocator(), 1)
    } else {
        Ok(list)
    }
}
