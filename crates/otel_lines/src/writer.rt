//! A stream of batches: what was cut off is noted, so that the next batch begins in a line of its own, or is refused.

ghost use Rattle.std.specs.Prelude.{◌≡◌, ◌++◌, OnOk, false};
ghost use Rattle.otel_export.specs.ExporterCalls.{IsInternalFailure};
ghost use Rattle.otel_lines.specs.LineStream.{Sends, WritesBatch, WritesBytes, line_end_bytes};

use crate::form::BatchForm;
use otel_export::error::{OTelSdkError, OTelSdkResult};
use otel_export::stream::write_whole;
use otel_export::trace::SpanData;
use otel_resource::resource::Resource;
use std::alloc::{AllocError, Global};
use std::io;
use std::io::Write;
use std::marker::Model;

/// A stream of batches in a form.
#[derive(Drop)]
pub(crate) struct BatchWriter<F, W> {
    form: F,
    writer: W,
    // Room for the bytes of a batch.
    bytes: Vec<u8>,
    is_cut: bool,
    alloc: Global,
}

impl<F, W> Model for BatchWriter<F, W> {
    ghost use Rattle.otel_lines.specs.LineStream.{LineStream};

    ghost Value = { LineStream W };

    ghost view = { λ s. record { writer = s.writer; is_cut = s.is_cut } };
}

impl<F: BatchForm, W: Write> BatchWriter<F, W> {
    pub(crate) fn new(alloc: Global, writer: W) -> BatchWriter<F, W>
        ensures { result ≡ record { writer = writer; is_cut = false } }
    {
        BatchWriter {
            form: F::new(alloc),
            writer,
            bytes: Vec::new(alloc),
            is_cut: false,
            alloc,
        }
    }

    pub(crate) fn writer(&self) -> &W
        ensures { result.now ≡ self.now.writer }
    {
        &self.writer
    }

    /// Writes a batch and sends it on.
    pub(crate) fn write(&mut self, resource: &Resource, batch: &[SpanData]) -> OTelSdkResult
        ensures { WritesBatch W.contents F.form resource.now self.old batch.now result self.new }
    {
        if !self.is_cut {
            return self.write_next(None, resource, batch);
        }
        match self.form.line_end() {
            Some(end) => self.write_next(Some(end), resource, batch),
            None => Err(cut_off(self.alloc)),
        }
    }

    /// The same after the end of a line, or without one.
    fn write_next(
        &mut self,
        end: Option<u8>,
        resource: &Resource,
        batch: &[SpanData],
    ) -> OTelSdkResult
        ensures { WritesBytes W.contents self.old (line_end_bytes end ++ F.form.bytes resource.now batch.now)
            result self.new }
    {
        if make_bytes(&mut self.form, &mut self.bytes, end, resource, batch).is_err() {
            return Err(OTelSdkError::OutOfMemory);
        }
        send(self.alloc, &mut self.writer, &self.bytes, &mut self.is_cut)
    }
}

/// Makes the bytes of a batch in this room, after the end of a line, or without one.
fn make_bytes<F: BatchForm>(
    form: &mut F,
    bytes: &mut Vec<u8>,
    end: Option<u8>,
    resource: &Resource,
    batch: &[SpanData],
) -> Result<(), AllocError>
    ensures { OnOk result (bytes.new.items ≡ line_end_bytes end ++ F.form.bytes resource.now batch.now) }
{
    bytes.clear();
    if let Some(end) = end {
        bytes.push(end)?;
    }
    form.append(bytes, resource, batch)
}

/// What is said of a stream that failed.
fn failure(alloc: Global, error: &io::Error) -> OTelSdkError
    ensures { IsInternalFailure result }
{
    let reason = format!(in alloc; "cannot write spans: {error}");
    OTelSdkError::InternalFailure(reason.unwrap_or(String::new(alloc)))
}

/// What is said of a stream that was cut off, and which no batch can follow.
fn cut_off(alloc: Global) -> OTelSdkError
    ensures { IsInternalFailure result }
{
    let reason = format!(in alloc; "cannot write spans: the batch before was cut off");
    OTelSdkError::InternalFailure(reason.unwrap_or(String::new(alloc)))
}

/// Writes bytes and sends them on, and notes whether they were cut off.
fn send<W: Write>(alloc: Global, writer: &mut W, bytes: &[u8], is_cut: &mut bool) -> OTelSdkResult
    ensures { Sends W.contents writer.old bytes.now result writer.new is_cut.new }
{
    match write_whole(writer, bytes) {
        Ok(()) => {
            *is_cut = false;
            Ok(())
        }
        Err(error) => {
            *is_cut = true;
            Err(failure(alloc, &error))
        }
    }
}
