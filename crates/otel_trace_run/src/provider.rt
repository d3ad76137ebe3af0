//! The provider of the program's sessions: one processor over an exporter in memory, ids that come from a seed, and a
//! sampler that takes each root.

ghost use Rattle.std.specs.Prelude.{◌≡◌, IfOk};
ghost use Rattle.otel_trace_run.specs.Program.{IsProviderOf, SamplesRoots, processor_of};

use crate::mode::{Asked, AskedProcessor};
use opentelemetry_sdk::trace::{BatchSpanProcessor, ProcessorOf};
use otel_batch::trace::BatchConfigBuilder;
use otel_export::trace::{ExporterOf, InMemorySpanExporter, NoExporter};
use otel_pipeline::trace::provider::provider_over;
use otel_pipeline::trace::{ProviderOf, SimpleSpanProcessor, SpanProcessor};
use otel_processors::trace::NoProcessor;
use otel_resource::resource::Resource;
use otel_sampling::trace::{ConfigOf, NoSampler, RandomIdGenerator, SamplerOf, SpanLimits};
use std::alloc::{AllocError, Global};

/// What the program's processors export to.
type TraceExporter = ExporterOf<InMemorySpanExporter, NoExporter>;

/// What the program's provider holds.
pub type TraceProcessor = ProcessorOf<TraceExporter, NoProcessor>;

/// What the program's provider asks about each span.
pub type TraceSampler = SamplerOf<NoSampler>;

/// A provider as the program's is, over processors of any kind.
type ProviderOver<P> = ProviderOf<P, TraceSampler, RandomIdGenerator>;

/// The program's provider.
pub type TraceProvider = ProviderOver<TraceProcessor>;

/// The provider that is asked for. Where nobody reads how many spans a queue drops, its batch processor is eager.
pub(crate) fn make_provider(
    alloc: Global,
    asked: Asked,
    is_eager: bool,
) -> Result<TraceProvider, AllocError>
    ensures { IfOk result (IsProviderOf is_eager asked) }
{
    let processor = make_processor(alloc, asked.processor, is_eager)?;
    make_provider_over(alloc, asked.seed, processor)
}

/// A provider of one processor, that samples each root, and each child as its parent is.
fn make_provider_over<P: SpanProcessor>(
    alloc: Global,
    seed: u64,
    processor: P,
) -> Result<ProviderOver<P>, AllocError>
    ensures { IfOk result (SamplesRoots seed processor) }
{
    let mut processors = Vec::new(alloc);
    processors.push(processor)?;
    let config = ConfigOf {
        sampler: SamplerOf::ParentBased(Box::new(alloc, SamplerOf::AlwaysOn)?),
        id_generator: RandomIdGenerator::new(seed),
        span_limits: SpanLimits::default(),
        resource: Resource::builder_empty(alloc).build(),
    };
    Ok(provider_over(processors, config))
}

/// The processor that is asked for, over a new exporter in memory.
fn make_processor(
    alloc: Global,
    asked: AskedProcessor,
    is_eager: bool,
) -> Result<TraceProcessor, AllocError>
    ensures { IfOk result (λ processor. processor ≡ processor_of is_eager asked) }
{
    let exporter = ExporterOf::Memory(InMemorySpanExporter::new(alloc));
    match asked {
        AskedProcessor::Simple => Ok(ProcessorOf::Simple(SimpleSpanProcessor::new(
            alloc, exporter,
        ))),
        AskedProcessor::Batch { queue, batch } => {
            let config = BatchConfigBuilder::default()
                .with_max_queue_size(queue)
                .with_max_export_batch_size(batch)
                .build();
            let processor = if is_eager {
                BatchSpanProcessor::new_eager(alloc, exporter, config)?
            } else {
                BatchSpanProcessor::new(alloc, exporter, config)?
            };
            Ok(ProcessorOf::Batch(processor))
        }
    }
}
