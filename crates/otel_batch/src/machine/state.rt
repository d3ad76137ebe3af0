//! What the state of a batch queue is made of: what each producer is at, what the worker is at, and the messages of the
//! control queue by which the worker learns what is asked of it.

use otel_export::error::OTelSdkResult;
use otel_export::trace::SpanData;
use otel_resource::resource::Resource;

/// What a producer asks of the worker, and waits for.
#[derive(Clone, Copy, Debug, PartialEq, Eq)]
pub enum Request {
    Flush,
    Shutdown,
}

/// Why the worker drains the queue.
#[derive(Clone, Copy, Debug, PartialEq, Eq)]
pub enum Why {
    /// A batch was full.
    Asked,
    Timer,
    /// This producer asked for a flush.
    Flush(usize),
    /// This producer asked for a shutdown.
    Shutdown(usize),
}

/// A message of the control queue.
#[derive(Debug, Drop)]
pub enum Message {
    Export,
    Flush(usize),
    Shutdown(usize),
    Resource(Resource),
}

/// What a producer is at.
#[derive(Debug, Drop)]
pub enum Slot {
    Idle,
    /// It holds a span that is counted, and the counter as it was then.
    Holding(SpanData, u128),
    /// Its span was refused, and is still counted.
    Refused,
    /// A batch is full, and the producer wants it exported.
    Asking,
    /// It may post its wish.
    Posting,
    /// Its wish found no room, and is to be taken back.
    Resetting,
    Waiting(Request),
    Answered(OTelSdkResult),
}

/// What the worker is at.
#[derive(Clone, Copy, Debug, PartialEq, Eq)]
pub enum Worker {
    Ready,
    /// It has seen the wish to export.
    Clearing,
    /// A drain is to start.
    Loading(Why),
    /// It fills its hand.
    Pulling,
    /// Its hand is a batch.
    Handing,
    /// So many spans were handed over, and are still counted.
    Subtracting(usize),
    Finishing,
    /// This producer's shutdown is to be completed.
    Closing(usize),
    Gone,
}
