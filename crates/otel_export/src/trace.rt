//! What an exporter is handed, the interface of exporters, and the exporter that keeps its batches in memory.

pub mod events;
pub mod export;
pub mod exporter_box;
pub mod in_memory_exporter;
pub mod links;
pub mod no_exporter;
pub mod span_data;
pub mod stores_batches;

pub use events::SpanEvents;
pub use export::SpanExporter;
pub use exporter_box::{ExporterBox, ExporterOf};
pub use in_memory_exporter::InMemorySpanExporter;
pub use links::SpanLinks;
pub use no_exporter::NoExporter;
pub use span_data::SpanData;
pub use stores_batches::StoresBatches;
