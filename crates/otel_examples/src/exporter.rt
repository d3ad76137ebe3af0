//! An exporter of one's own: it writes a line for each span to anything that takes bytes.
//!
//! An exporter says what it tells, which here is nothing, and has `export`, `shutdown_with_timeout` and `set_resource`.
//! What the sink keeps back is sent on at the shutdown, and where a holder of the exporter calls `force_flush`, which
//! no processor of the SDK does. The lines do not name the resource. Among exporters of other kinds, this one is
//! `ExporterBox::Custom(Box::new(alloc, LineExporter::new(alloc, sink))?)`.

ghost use Rattle.std.specs.Prelude.{None};

use opentelemetry_sdk::Resource;
use opentelemetry_sdk::error::{OTelSdkError, OTelSdkResult};
use opentelemetry_sdk::trace::{SpanData, SpanExporter};
use std::alloc::Global;
use std::io::{self, Write};
use std::time::Duration;

/// Writes the name of each span, and when it started and ended.
#[derive(Drop)]
pub struct LineExporter<W> {
    sink: W,
    alloc: Global,
}

impl<W> LineExporter<W> {
    /// An exporter that writes to this stream.
    pub fn new(alloc: Global, sink: W) -> LineExporter<W> {
        LineExporter { sink, alloc }
    }

    /// The stream, to read what was written.
    pub fn sink(&self) -> &W {
        &self.sink
    }

    /// What is answered where the sink took a line, or did not.
    fn answer(&self, written: io::Result<()>) -> OTelSdkResult {
        written.map_err(|_| OTelSdkError::InternalFailure(String::new(self.alloc)))
    }
}

fn write_lines<W: Write>(sink: &mut W, batch: &[SpanData]) -> io::Result<()> {
    for span in batch {
        let (started, ended) = (span.start_time.0, span.end_time.0);
        writeln!(sink, "{} {started} {ended}", span.name)?;
    }
    Ok(())
}

impl<W: Write + Drop> SpanExporter for LineExporter<W> {
    ghost told = { λ _. None };

    /// The lines come in order, up to the first one that the sink refuses.
    fn export(&mut self, batch: Vec<SpanData>) -> OTelSdkResult {
        let written = write_lines(&mut self.sink, &batch);
        self.answer(written)
    }

    fn force_flush(&mut self) -> OTelSdkResult {
        let flushed = self.sink.flush();
        self.answer(flushed)
    }

    fn shutdown_with_timeout(&mut self, _timeout: Duration) -> OTelSdkResult {
        self.force_flush()
    }

    fn set_resource(&mut self, _resource: &Resource) {}
}
