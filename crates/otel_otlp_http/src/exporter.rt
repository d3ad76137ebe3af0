//! The exporter that posts each batch.

ghost use Rattle.std.specs.Prelude.{◌≡◌, ◌++◌, ◌∷◌, ◌<◌, [], if◌then◌else◌, map, true, vec_capacity, vec_len};
ghost use Rattle.otel_resource.specs.Resource.{empty_resource};
ghost use Rattle.otel_otlp_http.specs.Exporter.{new_exporter};
ghost use Rattle.otel_otlp_http.specs.Failures.{is_kept};

use crate::attempt::{Tried, attempt};
use crate::failure::ExportFailure;
use crate::reason::Reason;
use otel_export::error::{OTelSdkError, OTelSdkResult};
use otel_export::history::History;
use otel_export::trace::{SpanData, SpanExporter};
use otel_http_post::Endpoint;
use otel_otlp_protobuf::Encoding;
use otel_resource::resource::Resource;
use std::alloc::Global;
use std::io::{Read, Write};
use std::marker::Model;
use std::mem;
use std::time::Duration;

/// Sends each batch over a stream, as a post of the OpenTelemetry protocol, and reads the answer to it before it
/// returns. A batch that the other side asks for later, or that was never answered or sent whole, is kept where there
/// is room or memory for it: `take_unsent` gives it back, so that its host can export it again. One that was refused,
/// or taken in part, is not. After a stream that failed, or an answer that was not read whole, or one that closes the
/// connection, it is closed, and sends nothing until it is given another stream. It tells the batches that were taken,
/// until one was not.
///
/// What the other side says between two exports is read as the answer to the next one, but for a 408, which is none:
/// where a stream has something to read before an export, `reconnect` first.
#[derive(Drop)]
pub struct OtlpHttpExporter<S: Read + Write> {
    alloc: Global,
    endpoint: Endpoint,
    encoding: Encoding,
    stream: S,
    is_open: bool,
    taken: History<Vec<SpanData>>,
    has_failed: bool,
    unsent: Vec<Vec<SpanData>>,
    failure: Option<ExportFailure>,
    reason: Reason,
    // None: there was no memory for the last one.
    resource: Option<Resource>,
    is_shut: bool,
}

impl<S: Read + Write> Model for OtlpHttpExporter<S> {
    ghost use Rattle.std.specs.Coded.{codes};
    ghost use Rattle.std.specs.Prelude.{◌-◌, map, vec_capacity, vec_len};
    ghost use Rattle.otel_resource.specs.ResourceCode.{resource_code};
    ghost use Rattle.otel_export.specs.Telling.{told_unless};
    ghost use Rattle.otel_otlp_http.specs.Exporter.{HttpExporter};

    ghost Value = { HttpExporter S };

    ghost coded = { Prim.hlevel (codes, resource_code) };

    ghost view = { λ e. record {
      endpoint = e.endpoint;
      encoding = e.encoding;
      stream = e.stream;
      is_open = e.is_open;
      taken = told_unless e.has_failed (map (λ batch. batch.items) e.taken.items);
      unsent = map (λ batch. batch.items) e.unsent.items;
      room = vec_capacity e.unsent - vec_len e.unsent;
      failure = e.failure;
      reason = e.reason.bytes;
      resource = e.resource;
      is_shut = e.is_shut;
    } };
}

impl<S: Read + Write + Drop> OtlpHttpExporter<S> {
    /// It sends to this endpoint over this stream. Its spans are of the resource that says nothing, until it is given
    /// another.
    pub fn new(
        alloc: Global,
        endpoint: Endpoint,
        encoding: Encoding,
        stream: S,
    ) -> OtlpHttpExporter<S>
        ensures { result ≡ new_exporter endpoint encoding stream empty_resource }
    {
        OtlpHttpExporter {
            alloc,
            endpoint,
            encoding,
            stream,
            is_open: true,
            taken: History::new(),
            has_failed: false,
            unsent: Vec::new(alloc),
            failure: None,
            reason: Reason::new(),
            resource: Some(Resource::builder_empty(alloc).build()),
            is_shut: false,
        }
    }

    /// The stream.
    pub fn stream(&self) -> &S
        ensures { result.now ≡ self.now.stream }
    {
        &self.stream
    }

    /// Whether the next batch will be sent over the stream.
    pub fn is_open(&self) -> bool
        ensures { result ≡ self.now.is_open }
    {
        self.is_open
    }

    /// Why the last export that was tried has failed; nothing where it has not.
    pub fn last_failure(&self) -> Option<ExportFailure>
        ensures { result ≡ self.now.failure }
    {
        self.failure
    }

    /// What the other side said of that failure, in its own words: the message of the status in the body of its answer,
    /// or of its partial success. It is empty where nothing failed, where there is no such text in the encoding of the
    /// request, and where there was no memory to read JSON. It has 200 characters of the text at most, of which control
    /// characters are shown as `\x1b`.
    pub fn last_reason(&self) -> &str
        ensures { result.now ≡ self.now.reason }
    {
        self.reason.as_str()
    }

    /// Goes on over another stream, and gives back the one before.
    pub fn reconnect(&mut self, stream: S) -> S
        ensures before { result ≡ self.old.stream }
        ensures after { self.new ≡ record self.old { stream = stream; is_open = true } }
    {
        self.is_open = true;
        mem::replace(&mut self.stream, stream)
    }

    /// The batches that are kept, in order. They are kept no longer. What is not taken back is kept without a bound.
    pub fn take_unsent(&mut self) -> Vec<Vec<SpanData>>
        ensures taken { map (λ batch. batch.items) result.items ≡ self.old.unsent }
        ensures after { self.new ≡ record self.old { unsent = []; room = 0 } }
    {
        mem::replace(&mut self.unsent, Vec::new(self.alloc))
    }
}

/// Keeps a batch, for which there is room.
fn keep(unsent: &mut Vec<Vec<SpanData>>, batch: Vec<SpanData>)
    requires { vec_len unsent.old < vec_capacity unsent.old }
    ensures { unsent.new.items ≡ unsent.old.items ++ batch ∷ [] }
{
    unsent.push(batch).unwrap();
}

/// Keeps a batch where this failure says so.
fn settle(unsent: &mut Vec<Vec<SpanData>>, batch: Vec<SpanData>, failure: Option<ExportFailure>)
    requires { vec_len unsent.old < vec_capacity unsent.old }
    ensures { unsent.new.items ≡ (if is_kept failure then unsent.old.items ++ batch ∷ [] else unsent.old.items) }
{
    if let Some(failure) = failure
        && failure.keeps_batch()
    {
        keep(unsent, batch);
    }
}

impl<S: Read + Write + Drop> SpanExporter for OtlpHttpExporter<S> {
    ghost use Rattle.otel_otlp_http.specs.Exporter.{Exports, GoesUnder, Shuts, told_by};

    ghost told = { told_by };

    ghost export_gives = { Exports S.contents S.remaining };

    ghost shutdown_gives = { λ old _ answer new. Shuts old answer new };

    ghost resource_gives = { GoesUnder };

    /// `OutOfMemory` says that the batch was lost: there was no memory to keep it, so that it was not sent. After a
    /// shutdown it is `AlreadyShutdown`, and the batch is dropped. All else is `InternalFailure`, which `last_failure`
    /// tells apart: with the failure's text, and after it what `last_reason` says.
    fn export(&mut self, batch: Vec<SpanData>) -> OTelSdkResult {
        if self.is_shut {
            self.has_failed = true;
            return Err(OTelSdkError::AlreadyShutdown);
        }
        if self.unsent.reserve(1).is_err() {
            self.has_failed = true;
            self.failure = Some(ExportFailure::Lost);
            self.reason = Reason::new();
            return Err(OTelSdkError::OutOfMemory);
        }
        self.taken.push(&batch);
        let Tried { failure, reason } = attempt(
            self.alloc,
            &self.endpoint,
            self.encoding,
            &self.resource,
            &batch,
            &mut self.stream,
            &mut self.is_open,
        );
        self.failure = failure;
        self.reason = reason;
        settle(&mut self.unsent, batch, self.failure);
        match self.failure {
            None => Ok(()),
            Some(failure) => {
                self.has_failed = true;
                Err(failure.into_error(self.alloc, self.reason.as_str()))
            }
        }
    }

    /// The list goes with the batch, which may be kept.
    fn export_from(&mut self, batch: &mut Vec<SpanData>) -> OTelSdkResult {
        let none = Vec::new(self.alloc);
        self.export(mem::replace(batch, none))
    }

    fn shutdown_with_timeout(&mut self, _timeout: Duration) -> OTelSdkResult {
        if self.is_shut {
            return Err(OTelSdkError::AlreadyShutdown);
        }
        self.is_shut = true;
        Ok(())
    }

    /// Where there is no memory for a resource, nothing is sent until it is given another, and batches are kept.
    fn set_resource(&mut self, resource: &Resource) {
        self.resource = resource.clone().ok();
    }
}
