//! An open span in a block of its own, so that the map in which spans stand by their keys moves little.

ghost use Rattle.std.specs.Prelude.{◌≡◌, ◌<◌, [], IfOk, IsOk, OnErr, OnOk, vec_capacity};
ghost use Rattle.otel_pipeline.specs.Ending.{EndIsInfallible, Ends};
ghost use Rattle.otel_pipeline.specs.SpanHistory.{after};

use crate::changes_span::ChangesSpan;
use crate::open_span::OpenSpan;
use opentelemetry::Moment;
use otel_pipeline::trace::{ProviderOf, SpanProcessor};
use std::alloc::{AllocError, Global};
use std::marker::Model;

/// An open span in its block.
#[derive(Drop)]
pub(crate) struct HeldSpan {
    // Exactly one.
    block: Vec<OpenSpan>,
}

impl Model for HeldSpan {
    ghost use Rattle.std.specs.Prelude.{◌≡◌, length};
    ghost use Rattle.otel_embed.specs.Keys.{OpenedSpan, only_opened};

    ghost Value = { OpenedSpan };

    ghost view = { λ a. only_opened a.block.items };

    ghost invariant = { λ a. length a.block.items ≡ 1 };
}

/// A block for a span that is to start.
pub(crate) fn empty_block(alloc: Global) -> Result<Vec<OpenSpan>, AllocError>
    ensures { IfOk result (λ block. (block.items ≡ []) × (0 < vec_capacity block)) }
{
    Vec::with_capacity(alloc, 1)
}

impl HeldSpan {
    /// This span, in an empty block that has room for it.
    pub(crate) fn within(block: Vec<OpenSpan>, span: OpenSpan) -> HeldSpan
        requires empty { block.items ≡ [] }
        requires room { 0 < vec_capacity block }
        ensures { result ≡ span }
    {
        let mut block = block;
        block.push_reserved(span);
        HeldSpan { block }
    }

    /// The span.
    pub(crate) fn get(&self) -> &OpenSpan
        ensures { result.now ≡ self.now }
    {
        &self.block[0]
    }

    /// Makes a change of the span.
    pub(crate) fn change<E: ChangesSpan>(&mut self, change: E) -> Result<(), AllocError>
        ensures ok { OnOk result (self.new ≡ record self.old { span = after (E.edits change) self.old.span }) }
        ensures err { OnErr result (self.new ≡ self.old) }
        ensures free { E.needs_none change self.old.span → IsOk result }
    {
        self.block[0].change(change)
    }

    /// Ends the span. The answer is how many processors refused what it recorded.
    pub(crate) fn end<P: SpanProcessor, S: Drop, G: Drop>(
        &mut self,
        provider: &mut ProviderOf<P, S, G>,
        moment: Moment,
    ) -> Result<usize, AllocError>
        ensures ok { IfOk result (λ refused.
            Ends P.SpanProcessor provider.old self.old.span moment.0 refused provider.new) }
        ensures err { OnErr result ((self.new ≡ self.old) × (provider.new ≡ provider.old)) }
        ensures free { EndIsInfallible self.old.span provider.old → IsOk result }
    {
        self.block[0].end(provider, moment)
    }
}
