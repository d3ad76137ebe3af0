//! `SpanQueue` and its methods. A clause sees a queue as its `items`, from the oldest to the newest, and its `capacity`.

ghost use Rattle.std.specs.Prelude.{◌≡◌, ◌^◌, ◌*◌, ◌-◌, ◌<◌, ◌≤◌, ◌==◌, ◌+◌, [], ◌∷◌, ◌++◌, length, take, drop, replicate};
ghost use Rattle.std.specs.Prelude.{vec_len, vec_capacity};
ghost use Rattle.std.specs.Prelude.{slice_get, option_copied, ◌↔◌, IsOk, IfOk, IfErr, OnOk};
ghost use Rattle.circular_buffer.specs.Buffer.{buffer};
ghost use Rattle.circular_buffer.specs.Places.{Wraps};
ghost use Rattle.otel_batch.specs.SpanQueue.{TakesAt};

use circular_buffer::HeapCircularBuffer;
use std::alloc::{AllocError, Global};
use std::marker::Model;

/// How many items a chunk can hold.
const CHUNK_LEN: usize = 64;

/// A queue of at most `limit` items, in a circle of chunks. The oldest items are in the head chunk and the newest in the
/// tail chunk; the chunks between them are full, and all others are empty.
#[derive(Drop)]
pub struct SpanQueue<T> {
    chunks: Vec<HeapCircularBuffer<T>>,
    // The places of the head chunk and of the tail chunk.
    head: usize,
    tail: usize,
    len: usize,
    limit: usize,
}

impl<T> Model for SpanQueue<T> {
    ghost use Rattle.circular_buffer.specs.Buffer.{Buffer, buffer, buffer_code};

    ghost Value = { Buffer T };

    ghost coded = { buffer_code T.code };

    ghost use Rattle.otel_batch.specs.SpanQueue.{circle, items_of, IsQueueTo};

    ghost view = { λ q. buffer (items_of (circle q.head q.chunks.items)) q.limit };

    ghost invariant = { λ q. IsQueueTo q.chunks.items q.head q.tail q.len q.limit };
}

/// The place that lies some steps after another one, in a circle of `count` places. It is out of line, since few puts
/// and takings go on to the next chunk.
#[inline(never)]
fn place_after(from: usize, steps: usize, count: usize) -> usize
    requires { (from < count) × (steps ≤ count) × (count < 2 ^ 63) }
    ensures { Wraps from steps count result }
{
    let place = from + steps;
    if place < count { place } else { place - count }
}

/// The place of the chunk with the oldest item: the head's, and where that is empty the one after it.
fn place_to_take<T>(chunks: &[HeapCircularBuffer<T>], head: usize) -> usize
    requires { (head < length chunks.now) × (length chunks.now < 2 ^ 63) }
    ensures { TakesAt chunks.now head result }
{
    if chunks[head].is_empty() {
        place_after(head, 1, chunks.len())
    } else {
        head
    }
}

/// Chunks that are all empty.
fn empty_chunks<T: Drop>(
    alloc: Global,
    count: usize,
) -> Result<Vec<HeapCircularBuffer<T>>, AllocError>
    ensures { IfOk result (λ chunks. chunks.items ≡ replicate count (buffer [] CHUNK_LEN)) }
{
    let mut chunks = Vec::with_capacity(alloc, count)?;
    for i in 0..count {
        chunks.push(HeapCircularBuffer::with_capacity(alloc, CHUNK_LEN)?)?;
    }
    Ok(chunks)
}

impl<T: Drop> SpanQueue<T> {
    /// Makes an empty queue of at most `limit` items, and takes all its memory. It fails where there is no memory for it.
    pub fn with_capacity(alloc: Global, limit: usize) -> Result<SpanQueue<T>, AllocError>
        ensures { IfOk result (λ b. b ≡ buffer [] limit) }
    {
        // Asked for at once, a queue that is too large is refused before the first chunk is made.
        let room: HeapCircularBuffer<T> = HeapCircularBuffer::with_capacity(alloc, limit)?;
        let limit = room.capacity();
        drop(room);
        Ok(SpanQueue {
            chunks: empty_chunks(alloc, limit / CHUNK_LEN + 2)?,
            head: 0,
            tail: 0,
            len: 0,
            limit,
        })
    }

    /// The number of items.
    pub fn len(&self) -> usize
        ensures len { result ≡ length self.now.items }
        ensures within { (result ≤ self.now.capacity) × (self.now.capacity < 2 ^ 63) }
    {
        self.len
    }

    /// The most items that the queue can hold.
    pub fn capacity(&self) -> usize
        ensures capacity { result ≡ self.now.capacity }
        ensures within { (length self.now.items ≤ result) × (result < 2 ^ 63) }
    {
        self.limit
    }

    /// Whether the queue holds no item.
    pub fn is_empty(&self) -> bool
        ensures { result ≡ (length self.now.items == 0) }
    {
        self.len() == 0
    }

    /// Whether the queue holds as many items as it can.
    pub fn is_full(&self) -> bool
        ensures { result ≡ (length self.now.items == self.now.capacity) }
    {
        self.len() == self.capacity()
    }

    /// The item at `index`, counted from the oldest, in constant time.
    pub fn get(&self, index: usize) -> Option<&T>
        ensures { option_copied result ≡ slice_get self.now.items index }
    {
        if index >= self.len {
            return None;
        }
        let in_head = self.chunks[self.head].len();
        if index < in_head {
            return self.chunks[self.head].get(index);
        }
        let rest = index - in_head;
        let place = place_after(self.head, rest / CHUNK_LEN + 1, self.chunks.len());
        self.chunks[place].get(rest % CHUNK_LEN)
    }

    /// Appends an item, or hands it back if the queue is full, in constant time.
    #[inline(always)]
    pub fn try_push_back(&mut self, item: T) -> Result<(), T>
        ensures variant { IsOk result ↔ (length self.old.items < self.old.capacity) }
        ensures ok { OnOk result (self.new ≡ buffer (self.old.items ++ item ∷ []) self.old.capacity) }
        ensures err { IfErr result (λ x. (x ≡ item) × (self.new ≡ self.old)) }
    {
        if self.len >= self.limit {
            return Err(item);
        }
        // A full tail chunk hands the item back, and the one after it becomes the tail.
        let item = match self.chunks[self.tail].try_push_back(item) {
            Ok(()) => {
                self.len += 1;
                return Ok(());
            }
            Err(item) => item,
        };
        let next = place_after(self.tail, 1, self.chunks.len());
        let Ok(()) = self.chunks[next].try_push_back(item) else {
            unreachable!();
        };
        self.tail = next;
        self.len += 1;
        Ok(())
    }

    /// Removes the oldest item and returns it, in constant time.
    #[inline(always)]
    pub fn pop_front(&mut self) -> Option<T>
        ensures value { result ≡ slice_get self.old.items 0 }
        ensures items { self.new ≡ buffer (drop 1 self.old.items) self.old.capacity }
    {
        if self.len == 0 {
            return None;
        }
        self.head = place_to_take(&self.chunks, self.head);
        self.len -= 1;
        let Some(item) = self.chunks[self.head].pop_front() else {
            unreachable!();
        };
        Some(item)
    }

    /// Moves so many of the oldest items, or all where there are fewer, after those of a list that has room for them.
    pub fn pop_into(&mut self, items: &mut Vec<T>, count: usize)
        requires { vec_len items.old + count ≤ vec_capacity items.old }
        ensures items { items.new.items ≡ items.old.items ++ take count self.old.items }
        ensures left { self.new ≡ buffer (drop count self.old.items) self.old.capacity }
        ensures len { vec_len items.new ≡ length items.new.items }
        ensures capacity { vec_capacity items.new ≡ vec_capacity items.old }
    {
        for _i in 0..count {
            let Some(item) = self.pop_front() else {
                return;
            };
            items.push_reserved(item);
        }
    }
}
