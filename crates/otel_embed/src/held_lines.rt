//! The lines of what was exported, until they are handed out: whole lines, each of a batch, the oldest first.

ghost use Rattle.std.specs.Prelude.{◌≡◌, ◌≢◌, ◌≤◌, ◌<◌, ◌+◌, ◌⊎◌, ℕ, [], OnErr, OnOk, Some, count_by, length, map, slice_get};
ghost use Rattle.std.specs.Prelude.{sum};
ghost use Rattle.otel_otlp.specs.Otlp.{otlp_lines};
ghost use Rattle.otel_embed.specs.Drains.{capped};
ghost use Rattle.otel_embed.specs.HeldLines.{AreWholeLines, HandsOutIfFits, is_line_feed, no_lines};

use crate::numbers::sizes_of;
use memchr::{memchr, memchr_iter, memrchr};
use otel_export::trace::SpanData;
use otel_otlp::write_requests;
use otel_resource::resource::Resource;
use std::alloc::{AllocError, Global};
use std::marker::Model;

/// Lines that were not handed out yet, and how many spans each has.
#[derive(Drop)]
pub(crate) struct HeldLines {
    bytes: Vec<u8>,
    // Where the lines begin that were not handed out. Those before have their room until all were.
    start: usize,
    spans: Vec<u64>,
    first: usize,
}

impl Model for HeldLines {
    ghost use Rattle.std.specs.Prelude.{◌≤◌, drop, length};
    ghost use Rattle.otel_embed.specs.HeldLines.{LinesHeld};

    ghost Value = { LinesHeld };

    ghost view = { λ a. record { bytes = drop a.start a.bytes.items; spans = drop a.first a.spans.items } };

    ghost invariant = { λ a. (a.start ≤ length a.bytes.items) × (a.first ≤ length a.spans.items) };
}

impl HeldLines {
    pub(crate) fn new(alloc: Global) -> HeldLines
        ensures { result ≡ no_lines }
    {
        HeldLines {
            bytes: Vec::new(alloc),
            start: 0,
            spans: Vec::new(alloc),
            first: 0,
        }
    }

    /// How many bytes the lines take.
    pub(crate) fn len(&self) -> usize
        ensures { result ≡ length self.now.bytes }
    {
        self.bytes.len() - self.start
    }

    /// How many spans they have. It stops at the greatest `u64`.
    pub(crate) fn span_count(&self) -> u64
        ensures { result ≡ capped (sum self.now.spans) }
    {
        let mut count: u64 = 0;
        for spans in &self.spans[self.first..] {
            count = count.saturating_add(*spans);
        }
        count
    }

    /// Makes lines of batches where none are held. On an error none are.
    pub(crate) fn fill(
        &mut self,
        alloc: Global,
        resource: &Resource,
        batches: &[Vec<SpanData>],
    ) -> Result<(), AllocError>
        requires { self.old.bytes ≡ [] }
        ensures ok { OnOk result (let them = map (λ batch. batch.items) batches.now in
            self.new ≡ record { bytes = otlp_lines resource.now them; spans = map length them }) }
        ensures err { OnErr result (self.new ≡ self.old) }
    {
        let sizes = sizes_of(alloc, batches)?;
        self.bytes.clear();
        self.start = 0;
        write_requests(alloc, &mut self.bytes, resource, batches)?;
        self.spans = sizes;
        self.first = 0;
        Ok(())
    }

    /// Hands out all lines, to the beginning of a buffer, where that has room for them. The answer is how many bytes
    /// they take.
    pub(crate) fn hand_all(&mut self, buffer: &mut [u8]) -> usize
        ensures room { length buffer.new ≡ length buffer.old }
        ensures all { result ≡ length self.old.bytes }
        ensures hands { HandsOutIfFits self.old result buffer.old buffer.new self.new }
    {
        let count = self.len();
        self.hand_out(count, buffer);
        count
    }

    /// Hands out as many whole lines as a buffer has room for, to its beginning. The answer is how many bytes they take;
    /// where the buffer has no room for the first, what that takes.
    pub(crate) fn hand_some(&mut self, buffer: &mut [u8]) -> usize
        ensures room { length buffer.new ≡ length buffer.old }
        ensures within { result ≤ length self.old.bytes }
        ensures some { AreWholeLines self.old.bytes (length buffer.old) result }
        ensures hands { HandsOutIfFits self.old result buffer.old buffer.new self.new }
    {
        let count = whole_lines(&self.bytes[self.start..], buffer.len());
        self.hand_out(count, buffer);
        count
    }

    /// Hands out so many bytes where a buffer has room for them.
    fn hand_out(&mut self, count: usize, buffer: &mut [u8])
        requires { count ≤ length self.old.bytes }
        ensures room { length buffer.new ≡ length buffer.old }
        ensures hands { HandsOutIfFits self.old count buffer.old buffer.new self.new }
    {
        if count <= buffer.len() {
            let handed = &self.bytes[self.start..self.start + count];
            buffer[..count].copy_from_slice(handed);
            let ended = line_feeds(handed);
            self.start += count;
            self.first = self.spans.len().min(self.first.saturating_add(ended));
        }
    }
}

/// How many lines end within these bytes.
fn line_feeds(bytes: &[u8]) -> usize
    ensures { result ≡ count_by is_line_feed bytes.now }
{
    let mut feeds = memchr_iter(b'\n', bytes);
    let mut count: usize = 0;
    while let Some(_feed) = feeds.next() {
        count += 1;
    }
    count
}

/// How many bytes as many whole lines take as there is room for, or else the first.
fn whole_lines(lines: &[u8], room: usize) -> usize
    ensures within { result ≤ length lines.now }
    ensures whole { AreWholeLines lines.now room result }
{
    match memrchr(b'\n', &lines[..room.min(lines.len())]) {
        Some(last) => last + 1,
        None => first_line(lines),
    }
}

/// How many bytes the first line takes.
fn first_line(lines: &[u8]) -> usize
    ensures within { result ≤ length lines.now }
    ensures whole { (result ≡ length lines.now)
        ⊎ ((last : ℕ) × (result ≡ last + 1) × (slice_get lines.now last ≡ Some 10)) }
    ensures first { (k : ℕ) → k + 1 < result → slice_get lines.now k ≢ Some 10 }
{
    match memchr(b'\n', lines) {
        Some(last) => last + 1,
        None => lines.len(),
    }
}
