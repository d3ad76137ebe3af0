//! The form in which a session's lines are read and its replies are written, and the program's own: lines.

ghost use Rattle.std.specs.Prelude.{◌≡◌, ◌++◌, [], IsOk, OnErr, OnOk, map};
ghost use Rattle.otel_trace_lines.specs.ReplyForm.{Form, reply_lines_in};
ghost use Rattle.otel_trace_lines.specs.declared.dialect.Dialect.TheVariants as dialects;

use crate::dialect::Dialect;
use crate::reply::Answer;
use crate::reply_text::{write_batches, write_reply};
use otel_export::trace::SpanData;
use std::alloc::{AllocError, Global};
use std::marker::Model;

/// By which grammar lines are read, how replies are written, and what is left to write when a session closes. It may
/// hold room for their texts.
pub trait ReplyForm {
    /// It stays the same, whatever was written.
    ghost form: { Self → Form };

    /// Writes the reply of an answer, with these batches before it, or nothing where memory runs out.
    fn write_reply(
        &mut self,
        output: &mut Vec<u8>,
        exported: &[Vec<SpanData>],
        answer: Answer,
    ) -> Result<(), AllocError>
        ensures ok { OnOk result (output.new.items ≡ output.old.items ++ (form self.old).reply
            (record { exported = map (λ batch. batch.items) exported.now; answer = answer })) }
        ensures err { OnErr result (output.new.items ≡ output.old.items) }
        ensures form { form self.new ≡ form self.old };

    /// Writes the batches that no reply has shown, or nothing where memory runs out. Where nothing is to be written, no
    /// memory is wanted.
    fn write_rest(
        &mut self,
        output: &mut Vec<u8>,
        batches: &[Vec<SpanData>],
    ) -> Result<(), AllocError>
        ensures ok { OnOk result (output.new.items
            ≡ output.old.items ++ (form self.old).rest (map (λ batch. batch.items) batches.now)) }
        ensures err { OnErr result (output.new.items ≡ output.old.items) }
        ensures free { (form self.old).rest (map (λ batch. batch.items) batches.now) ≡ [] → IsOk result }
        ensures form { form self.new ≡ form self.old };

    /// Whether a run in this form fails where a queue was full and dropped a span.
    fn minds_drops(&self) -> bool
        ensures { result ≡ (form self.now).minds_drops };

    /// By which grammar lines are read.
    fn dialect(&self) -> Dialect
        ensures { result ≡ (form self.now).dialect };
}

/// Replies as lines: a line for each span that was exported, and then the answer's.
#[derive(Drop)]
pub struct ReplyLines {
    dialect: Dialect,
    // Room for their texts, one after another.
    text: String,
}

impl Model for ReplyLines {
    ghost use Rattle.otel_trace_lines.specs.declared.dialect.Dialect.{Dialect};

    ghost Value = { Dialect };

    ghost view = { λ lines. lines.dialect };
}

impl ReplyLines {
    /// Of the plain grammar.
    pub fn new(alloc: Global) -> ReplyLines
        ensures { result ≡ dialects.Plain }
    {
        ReplyLines::of_dialect(alloc, Dialect::Plain)
    }

    /// The lines of replies in a dialect, with no room taken yet.
    pub fn of_dialect(alloc: Global, dialect: Dialect) -> ReplyLines
        ensures { result ≡ dialect }
    {
        ReplyLines {
            dialect,
            text: String::new(alloc),
        }
    }
}

impl ReplyForm for ReplyLines {
    ghost form = { λ dialect. reply_lines_in dialect };

    fn write_reply(
        &mut self,
        output: &mut Vec<u8>,
        exported: &[Vec<SpanData>],
        answer: Answer,
    ) -> Result<(), AllocError> {
        write_reply(&mut self.text, output, exported, answer)
    }

    fn write_rest(
        &mut self,
        output: &mut Vec<u8>,
        batches: &[Vec<SpanData>],
    ) -> Result<(), AllocError> {
        write_batches(&mut self.text, output, batches)
    }

    fn minds_drops(&self) -> bool {
        false
    }

    fn dialect(&self) -> Dialect {
        self.dialect
    }
}
