//! The pipeline: configuration, ids, samplers, spans, processors, exporters and the provider.

pub use otel_batch::machine::BatchMachine;
pub use otel_batch::trace::{
    BatchConfig, BatchConfigBuilder, OTEL_BSP_EXPORT_TIMEOUT, OTEL_BSP_EXPORT_TIMEOUT_DEFAULT,
    OTEL_BSP_MAX_EXPORT_BATCH_SIZE, OTEL_BSP_MAX_EXPORT_BATCH_SIZE_DEFAULT,
    OTEL_BSP_MAX_QUEUE_SIZE, OTEL_BSP_MAX_QUEUE_SIZE_DEFAULT, OTEL_BSP_SCHEDULE_DELAY,
    OTEL_BSP_SCHEDULE_DELAY_DEFAULT,
};
pub use otel_export::trace::{
    ExporterBox, ExporterOf, InMemorySpanExporter, SpanData, SpanEvents, SpanExporter, SpanLinks,
    StoresBatches,
};
pub use otel_pipeline::trace::{
    BeginsSpan, CloseReport, CountsLeftSpans, EmptiedBlock, Exception, FromExporter, HoldsSpan,
    InSpan, KeepsBatches, Now, ProviderBuilderOf, ProviderOf, SdkTracer, SimpleSpanProcessor, Span,
    SpanBlock, SpanEdit, SpanEndError, SpanProcessor, Timed, Tracer,
};
pub use otel_processors::trace::{
    BatchSpanProcessor, BatchSpanProcessorBuilder, Processor, ProcessorOf,
};
pub use otel_sampling::trace::{
    BatchStrings, Config, ConfigOf, ConfigStrings, GivesIds, IdGenerator, IdSource, IdSourceOf,
    ParentBased, RandomIdGenerator, Ratio, RatioError, Replacement, Sampler, SamplerOf,
    SamplingDecision, SamplingResult, Setting, SettingFault, ShouldSample, SpanLimits,
    XrayIdGenerator,
};
pub use otel_scope::{Begins, Closed, Current, HoldsSpans, IntoValue, Scope, Tracing};

/// The provider of the SDK.
pub type SdkTracerProvider = ProviderOf<Processor, Sampler, IdSource>;

/// Makes a provider of the SDK.
pub type TracerProviderBuilder = ProviderBuilderOf<Processor, Sampler, IdSource>;
