//! How a batch processor is configured; and, given again from `otel_export`, what it exports and to whom.

pub mod batch_config;

pub use batch_config::{
    BatchConfig, BatchConfigBuilder, OTEL_BSP_EXPORT_TIMEOUT, OTEL_BSP_EXPORT_TIMEOUT_DEFAULT,
    OTEL_BSP_MAX_EXPORT_BATCH_SIZE, OTEL_BSP_MAX_EXPORT_BATCH_SIZE_DEFAULT,
    OTEL_BSP_MAX_QUEUE_SIZE, OTEL_BSP_MAX_QUEUE_SIZE_DEFAULT, OTEL_BSP_SCHEDULE_DELAY,
    OTEL_BSP_SCHEDULE_DELAY_DEFAULT,
};
pub use otel_export::trace::{
    ExporterBox, ExporterOf, InMemorySpanExporter, SpanData, SpanEvents, SpanExporter, SpanLinks,
};
