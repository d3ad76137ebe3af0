//! What the producers and the worker of a batch queue do, one step at a time, and what each step answers. A producer
//! is one of the threads that end spans, and is named by its number, from 0.

use otel_export::error::{OTelSdkError, OTelSdkResult};
use otel_export::trace::SpanData;
use otel_resource::resource::Resource;

/// A step of a producer or of the worker.
#[derive(Debug, Drop)]
pub enum Step {
    /// The producer has an ended span, and counts it.
    Offer(usize, SpanData),
    /// It puts the span into the queue.
    Send(usize),
    /// It takes back the count of a span that was refused.
    Undo(usize),
    /// It wants the worker to export, since a batch is full.
    Ask(usize),
    /// It posts that wish to the control queue.
    Post(usize),
    /// It takes the wish back, since there was no room for it.
    Reset(usize),
    RequestFlush(usize),
    RequestShutdown(usize),
    /// It takes the answer to its request.
    Collect(usize),
    /// Somebody says what the spans to come are of.
    PostResource(Resource),
    /// The worker takes a message of the control queue.
    Take,
    /// The worker's timer has run out.
    Tick,
    /// The worker clears the wish to export.
    Clear,
    /// The worker starts a drain: it notes how many spans are accounted for.
    Load,
    /// The worker takes a span from the queue into its hand.
    Pull,
    /// The worker hands the batch in its hand to the exporter.
    HandOver,
    /// The worker no longer counts that batch.
    Subtract,
    /// The worker ends its drain.
    Finish,
    /// The worker ends its work.
    Close,
}

/// What a step did.
#[derive(Debug, Drop, PartialEq)]
pub enum Outcome {
    /// The span is not sampled.
    Skipped,
    /// The span is counted, and this is the counter.
    Counted(u128),
    Accepted,
    /// The queue has no room.
    Full,
    /// The machine is shut down.
    Closed,
    Undone,
    AlreadyAsked,
    MayPost,
    Posted,
    ResetDone,
    Requested,
    Collected(OTelSdkResult),
    /// The control queue is empty.
    Nothing,
    TookExport,
    TookFlush(usize),
    TookShutdown(usize),
    TookResource,
    Ticked,
    Cleared,
    /// A drain has started, with this target.
    Loaded(u128),
    /// No span waits.
    Empty,
    Pulled,
    /// There is no memory for a batch.
    NoMemory,
    /// So many spans were handed over, and the exporter answered this error, that of a failure without its text.
    HandedOver(usize, Option<OTelSdkError>),
    Subtracted,
    /// The drain has ended, with this error where nobody waits for it.
    Finished(Option<OTelSdkError>),
    /// The machine is shut down, and so many spans still wait.
    ShutDown(usize),
    /// The step is not enabled, or names no producer. Nothing changed.
    NotEnabled,
}
