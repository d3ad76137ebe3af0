//! The lines of the mode `steps`, read as steps of a batch queue. A line is a word alone, a word and a producer, or a
//! word, a producer and the name of a span.

ghost use Rattle.std.specs.Prelude.{◌≡◌, ◌≢◌, IfOk, IfSome, IsOk, IsTrue, ◌↔◌};
ghost use Rattle.otel_trace_lines.specs.Found.{Finds};
ghost use Rattle.otel_trace_lines.specs.Lines.{IsField};
ghost use Rattle.otel_trace_steps.specs.StepLines.{IsWord, ReadsOrder, SomeOffer, TakesFields, TakesName, TakesProducer, named_span};

use opentelemetry::trace::{SpanContext, SpanKind, Status, TraceState};
use opentelemetry::{InstrumentationScope, Moment, SpanId, TraceFlags, TraceId};
use otel_batch::machine::Step;
use otel_export::trace::{SpanData, SpanEvents, SpanLinks};
use otel_resource::resource::Resource;
use otel_trace_lines::fields::{first_field, parse_decimal};
use std::alloc::{AllocError, Global};

/// What a line asks for.
#[derive(Debug, Drop)]
pub enum Order {
    /// A step of the machine.
    Step(Step),
    /// What the machine's state is.
    State,
}

/// The order as which a line reads; none where it is a bad line. Fails only where memory runs out, which is wanted for
/// the span of an offer alone.
pub fn order_of(alloc: Global, line: &[u8]) -> Result<Option<Order>, AllocError>
    ensures found { IfOk result (Finds (ReadsOrder line.now)) }
    ensures free { ¬ SomeOffer (ReadsOrder line.now) → IsOk result }
{
    let Ok(text) = str::from_utf8(line) else {
        return Ok(None);
    };
    match first_field(text) {
        Some((word, fields)) => order_with_fields(alloc, word, fields),
        None => Ok(order_of_word(alloc, text)),
    }
}

/// The order of a word alone.
fn order_of_word(alloc: Global, word: &str) -> Option<Order>
    ensures { Finds (IsWord word.now) result }
{
    let step = match word {
        "state" => return Some(Order::State),
        "resource" => Step::PostResource(Resource::builder_empty(alloc).build()),
        "take" => Step::Take,
        "tick" => Step::Tick,
        "clear" => Step::Clear,
        "load" => Step::Load,
        "pull" => Step::Pull,
        "hand" => Step::HandOver,
        "subtract" => Step::Subtract,
        "finish" => Step::Finish,
        "close" => Step::Close,
        _ => return None,
    };
    Some(Order::Step(step))
}

/// The order of a word and the fields after it.
fn order_with_fields(alloc: Global, word: &str, fields: &str) -> Result<Option<Order>, AllocError>
    ensures found { IfOk result (Finds (TakesFields word.now fields.now)) }
    ensures free { ¬ SomeOffer (TakesFields word.now fields.now) → IsOk result }
{
    match first_field(fields) {
        Some((producer, name)) => offer_of(alloc, word, producer, name),
        None => Ok(order_of_producer(word, fields)),
    }
}

/// The order of a word and a producer.
fn order_of_producer(word: &str, digits: &str) -> Option<Order>
    ensures { Finds (TakesProducer word.now digits.now) result }
{
    let producer = parse_decimal(digits)? as usize;
    let step = match word {
        "send" => Step::Send(producer),
        "undo" => Step::Undo(producer),
        "ask" => Step::Ask(producer),
        "post" => Step::Post(producer),
        "reset" => Step::Reset(producer),
        "flush" => Step::RequestFlush(producer),
        "shutdown" => Step::RequestShutdown(producer),
        "collect" => Step::Collect(producer),
        _ => return None,
    };
    Some(Order::Step(step))
}

/// The order of a word, a producer and the name of a span.
fn offer_of(
    alloc: Global,
    word: &str,
    digits: &str,
    name: &str,
) -> Result<Option<Order>, AllocError>
    ensures found { IfOk result (Finds (TakesName word.now digits.now name.now)) }
    ensures free { ¬ SomeOffer (TakesName word.now digits.now name.now) → IsOk result }
{
    let flags = match word {
        "offer" => TraceFlags::SAMPLED,
        "offer-unsampled" => TraceFlags::new(0),
        _ => return Ok(None),
    };
    let Some(producer) = parse_decimal(digits) else {
        return Ok(None);
    };
    if name.is_empty() || name.contains(' ') {
        return Ok(None);
    }
    let span = span_named(alloc, name, flags)?;
    Ok(Some(Order::Step(Step::Offer(producer as usize, span))))
}

/// A span of this name and these flags, with nothing else.
fn span_named(alloc: Global, name: &str, flags: TraceFlags) -> Result<SpanData, AllocError>
    ensures { IfOk result (λ span. span ≡ named_span name.now flags) }
{
    Ok(SpanData {
        span_context: SpanContext::new(
            TraceId::INVALID,
            SpanId::INVALID,
            flags,
            false,
            TraceState::new(),
        ),
        parent_span_id: SpanId::INVALID,
        parent_span_is_remote: false,
        span_kind: SpanKind::Internal,
        name: String::from_str(alloc, name)?,
        start_time: Moment(0),
        end_time: Moment(0),
        attributes: Vec::new(alloc),
        dropped_attributes_count: 0,
        events: SpanEvents::new(alloc),
        links: SpanLinks::new(alloc),
        status: Status::Unset,
        instrumentation_scope: InstrumentationScope::builder(alloc, String::new(alloc)).build()?,
    })
}
