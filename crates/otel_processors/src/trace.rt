//! The processor after a queue, and the kinds of processors.

pub mod batch_span_processor;
mod batch_worker;
pub mod no_processor;
pub mod processor;

pub use batch_span_processor::{BatchSpanProcessor, BatchSpanProcessorBuilder};
pub use no_processor::NoProcessor;
pub use processor::{Processor, ProcessorOf};
