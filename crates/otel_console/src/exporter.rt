//! The exporter that writes a line of text for each span.

use crate::span_text::push_spans;
use otel_export::trace::SpanData;
use otel_lines::{BatchForm, LineExporter};
use otel_resource::resource::Resource;
use std::alloc::{AllocError, Global};

/// The form of these lines, which do not show the resource.
#[derive(Drop)]
pub struct ConsoleLines {
    // Room for the text of a batch.
    text: String,
}

impl BatchForm for ConsoleLines {
    ghost use Rattle.otel_console.specs.SpanText.{console_lines};

    ghost form = { console_lines };

    fn new(alloc: Global) -> ConsoleLines {
        ConsoleLines {
            text: String::new(alloc),
        }
    }

    fn append(
        &mut self,
        out: &mut Vec<u8>,
        _resource: &Resource,
        batch: &[SpanData],
    ) -> Result<(), AllocError> {
        self.text.clear();
        push_spans(&mut self.text, batch)?;
        out.extend_from_slice(self.text.as_bytes())
    }

    fn line_end(&self) -> Option<u8> {
        Some(b'\n')
    }
}

/// Writes each span as a line of text, as the program `otel_trace` prints it, and sends a batch's lines on at once:
///
/// `span TRACE ID PARENT FLAGS START END NAME STATUS attrs [KEY=VALUE,..] N events [NAME@MOMENT,..] N links KEPT N`,
///
/// ids in hexadecimal, moments in nanoseconds since 1970, and after each list how many were not kept. Names and texts
/// are written as they are, so one with a line feed breaks its line. For a program that is tried out; collectors read
/// the lines of `OtlpJsonExporter`.
pub type ConsoleSpanExporter<W> = LineExporter<ConsoleLines, W>;
