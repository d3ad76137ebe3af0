//! The exporter that writes each batch to a stream.

ghost use Rattle.std.specs.Prelude.{◌≡◌, ◌∷◌, [], Some};
ghost use Rattle.otel_resource.specs.Resource.{empty_resource};
ghost use Rattle.otel_lines.specs.LineExporter.{HoldsBatches, new_exporter};

use crate::form::BatchForm;
use crate::writer::BatchWriter;
use otel_export::error::{OTelSdkError, OTelSdkResult};
use otel_export::history::History;
use otel_export::trace::{SpanData, SpanExporter};
use otel_resource::resource::Resource;
use std::alloc::Global;
use std::io::Write;
use std::marker::Model;
use std::time::Duration;

/// Writes each batch to a stream, in this form, and sends it on at once. After a line that its writer cut off, it goes
/// on in a new one; where the form is not of lines, it writes nothing more. It tells the batches that it has written,
/// until one was not; so long the stream holds their bytes, whole and in order, after what it held at first.
#[derive(Drop)]
pub struct LineExporter<F: BatchForm, W: Write> {
    // The writer as it was at first.
    begun: History<W>,
    stream: BatchWriter<F, W>,
    written: History<(Resource, Vec<SpanData>)>,
    has_failed: bool,
    // None: there was no memory for the last one.
    resource: Option<Resource>,
    is_shut: bool,
}

impl<F: BatchForm, W: Write> Model for LineExporter<F, W> {
    ghost use Rattle.std.specs.Coded.{codes};
    ghost use Rattle.std.specs.Prelude.{map};
    ghost use Rattle.otel_resource.specs.ResourceCode.{resource_code};
    ghost use Rattle.otel_export.specs.Telling.{told_unless};
    ghost use Rattle.otel_lines.specs.LineExporter.{HoldsBatches, StreamExporter};

    ghost Value = { StreamExporter W };

    ghost coded = { Prim.hlevel (codes, resource_code) };

    ghost view = { λ e. record {
      begun = e.begun.items;
      stream = e.stream;
      written = told_unless e.has_failed
          (map (λ pair. record { resource = pair.0; batch = pair.1.items }) e.written.items);
      resource = e.resource;
      is_shut = e.is_shut;
    } };

    ghost invariant = { λ e. HoldsBatches F.form W.contents e.begun.items e.stream (told_unless e.has_failed
        (map (λ pair. record { resource = pair.0; batch = pair.1.items }) e.written.items)) };
}

impl<F: BatchForm, W: Write + Drop> LineExporter<F, W> {
    /// Its spans are of the resource that says nothing, until it is given another.
    pub fn new(alloc: Global, writer: W) -> LineExporter<F, W>
        ensures { result ≡ new_exporter writer empty_resource }
    {
        let mut begun = History::new();
        begun.push(&writer);
        LineExporter {
            begun,
            stream: BatchWriter::new(alloc, writer),
            written: History::new(),
            has_failed: false,
            resource: Some(Resource::builder_empty(alloc).build()),
            is_shut: false,
        }
    }

    /// What it writes to. While the exporter tells, this holds what it held at first, and then the bytes of the batches
    /// told.
    pub fn writer(&self) -> &W
        ensures is { result.now ≡ self.now.stream.writer }
        ensures holds { HoldsBatches F.form W.contents self.now.begun self.now.stream self.now.written }
    {
        self.stream.writer()
    }
}

impl<F: BatchForm, W: Write + Drop> LineExporter<F, W> {
    ghost use Rattle.otel_export.specs.Telling.{Tells};
    ghost use Rattle.otel_lines.specs.LineExporter.{Exports, told_by};

    /// Writes a batch, as `export` does.
    fn write(&mut self, batch: &Vec<SpanData>) -> OTelSdkResult
        ensures told { Tells (told_by self.old) (batch.now.items ∷ []) (told_by self.new) }
        ensures gives { Exports F.form W.contents self.old batch.now.items result self.new }
    {
        if self.is_shut {
            self.has_failed = true;
            return Err(OTelSdkError::AlreadyShutdown);
        }
        let Some(resource) = &self.resource else {
            self.has_failed = true;
            return Err(OTelSdkError::OutOfMemory);
        };
        self.written.push_pair(resource, batch);
        let answer = self.stream.write(resource, batch);
        self.has_failed = self.has_failed || answer.is_err();
        answer
    }
}

impl<F: BatchForm, W: Write + Drop> SpanExporter for LineExporter<F, W> {
    ghost use Rattle.otel_lines.specs.LineExporter.{Exports, GoesUnder, Shuts, told_by};

    ghost told = { told_by };

    ghost export_gives = { Exports F.form W.contents };

    ghost shutdown_gives = { λ old _ answer new. Shuts old answer new };

    ghost resource_gives = { GoesUnder };

    /// `InternalFailure` names what failed of the stream, `OutOfMemory` says that nothing was written. After a shutdown
    /// it is `AlreadyShutdown`.
    fn export(&mut self, batch: Vec<SpanData>) -> OTelSdkResult {
        self.write(&batch)
    }

    fn export_from(&mut self, batch: &mut Vec<SpanData>) -> OTelSdkResult {
        let answer = self.write(batch);
        batch.clear();
        answer
    }

    fn shutdown_with_timeout(&mut self, _timeout: Duration) -> OTelSdkResult {
        if self.is_shut {
            return Err(OTelSdkError::AlreadyShutdown);
        }
        self.is_shut = true;
        Ok(())
    }

    /// Where there is no memory for a resource, nothing is written until it is given another.
    fn set_resource(&mut self, resource: &Resource) {
        self.resource = resource.clone().ok();
    }
}
