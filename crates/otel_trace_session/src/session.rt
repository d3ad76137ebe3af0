//! A session: commands against one provider, each with a reply. What its commands deliver to the exporters is stated by
//! the histories of its spans, apart from the code that fills them.

ghost use Rattle.std.specs.Prelude.{◌≡◌, ◌++◌, ◌↔◌, map, IfErr, IfOk, IsTrue, OnErr, OnOk};
ghost use Rattle.opentelemetry.specs.PlainContexts.{root_cx};
ghost use Rattle.otel_export.specs.KeptBatches.{OnlyAdds};
ghost use Rattle.otel_trace_lines.specs.ReplyForm.{reply_lines};
ghost use Rattle.otel_trace_lines.specs.declared.dialect.Dialect.TheVariants as dialects;
ghost use Rattle.otel_trace_session.specs.Closing.{Closes, ClosesAs, LostNothing};
ghost use Rattle.otel_trace_session.specs.Fed.{FeedStops, Feeds, Writes};
ghost use Rattle.otel_trace_session.specs.OpenSpans.{Describe, HaveHistories, Histories};
ghost use Rattle.otel_trace_session.specs.Shown.{session_batches, session_losses, session_stored};
ghost use Rattle.otel_trace_session.specs.Stops.{AnswerStops, Answers, Gains, Obeys, RunStops};
ghost use Rattle.otel_trace_session.specs.Taking.{TakesKept};
ghost use Rattle.otel_trace_session.specs.Turns.{BeginsUnder, Runs};

use crate::carry_out::carry_out;
use crate::closing::{close_answer, shut_down};
use crate::open_spans::{OpenSpans, tracer_of};
use opentelemetry::Context;
use otel_export::error::OTelSdkResult;
use otel_export::trace::SpanData;
use otel_pipeline::trace::first_processor::{kept_by_first, lost_by_first, take_of_first};
use otel_pipeline::trace::{KeepsBatches, ProviderOf, Provides, SdkTracer};
use otel_sampling::trace::{GivesIds, ShouldSample};
use otel_trace_lines::{Answer, Command, Reply, ReplyForm, ReplyLines, parse};
use std::alloc::{AllocError, AllocFailed, Global};
use std::collections::VecDeque;
use std::marker::Model;
use thiserror::Error;

/// Why commands were not carried out to their end.
#[derive(Clone, Copy, Debug, PartialEq, Eq, Error)]
pub enum RunError {
    /// There was no memory.
    #[error("no memory")]
    Memory,
    /// A command ended a span whose batch the first processor's exporter lost.
    #[error("a batch was lost")]
    BatchLost,
}

impl From<AllocError> for RunError {
    ghost use Rattle.std.specs.Prelude.{◌≡◌};
    ghost use Rattle.otel_trace_session.specs.declared.session.RunError.TheVariants as runs;

    ghost from_gives = { λ _ error. error ≡ runs.Memory };

    fn from(_error: AllocError) -> RunError {
        RunError::Memory
    }
}

/// Why a text was not carried out to its end.
#[derive(Clone, Copy, Debug, PartialEq, Eq, Error)]
pub enum FeedError {
    /// The line of this number, from 1, is no command.
    #[error("line {0}: cannot read")]
    Line(u64),
    /// There was no memory.
    #[error("no memory")]
    Memory,
    /// A command ended a span that a processor refused.
    #[error("a processor refused a span")]
    Refused,
    /// A command ended a span whose batch the first processor's exporter lost.
    #[error("a batch was lost")]
    BatchLost,
}

impl From<AllocError> for FeedError {
    ghost use Rattle.std.specs.Prelude.{◌≡◌};
    ghost use Rattle.otel_trace_session.specs.declared.session.FeedError.TheVariants as feeds;

    ghost from_gives = { λ _ error. error ≡ feeds.Memory };

    fn from(_error: AllocError) -> FeedError {
        FeedError::Memory
    }
}

impl From<RunError> for FeedError {
    ghost use Rattle.std.specs.Prelude.{◌≡◌};
    ghost use Rattle.otel_trace_session.specs.Fed.{feed_error};

    ghost from_gives = { λ error fed. fed ≡ feed_error error };

    fn from(error: RunError) -> FeedError {
        match error {
            RunError::Memory => FeedError::Memory,
            RunError::BatchLost => FeedError::BatchLost,
        }
    }
}

/// How a session closed, and what its processors leave behind.
#[derive(Debug, Drop)]
pub struct ClosedSession {
    /// What `Session::close` answers.
    pub answer: OTelSdkResult,
    /// How many spans wait in the processors that are still open, because their shutdown was refused.
    pub left_open: u128,
    /// How many spans found a queue full.
    pub dropped: u128,
}

impl ClosedSession {
    /// Whether no span is lost: the session closed well, none is left waiting, and where drops are minded no queue was
    /// full.
    pub fn lost_nothing(&self, minds_drops: bool) -> bool
        ensures { IsTrue result ↔ LostNothing self.now minds_drops }
    {
        self.answer.is_ok() && self.left_open == 0 && (!minds_drops || self.dropped == 0)
    }
}

/// Commands against one provider. It must be spent by `close` or `close_in`.
pub struct Session<P: KeepsBatches, S, G> {
    provider: ProviderOf<P, S, G>,
    tracer: SdkTracer,
    // Where a root span starts.
    root: Context,
    spans: OpenSpans,
    // Whether the first processor may keep a batch: until one is exported there is none to ask for.
    may_keep: bool,
    // How many batches of the first processor had found no memory when the session began.
    lost_before: u64,
    alloc: Global,
}

impl<P: KeepsBatches, S, G> Model for Session<P, S, G> {
    ghost use Rattle.std.specs.Prelude.{◌≡◌, [], IsFalse};
    ghost use Rattle.opentelemetry.specs.PlainContexts.{root_cx};
    ghost use Rattle.otel_trace_session.specs.Calls.{batches_of_first};
    ghost use Rattle.otel_trace_session.specs.Turns.{SessionState};

    ghost Value = { SessionState P S G };

    ghost view = { λ a. record {
      provider = a.provider;
      scope = a.tracer;
      spans = a.spans;
      lost_before = a.lost_before;
    } };

    ghost invariant = { λ a. (a.root ≡ root_cx)
        × (IsFalse a.may_keep → batches_of_first P.KeepsBatches a.provider.processors ≡ []) };
}

impl<P: KeepsBatches, S: ShouldSample, G: GivesIds> Session<P, S, G> {
    /// A session with no spans. It takes the batches that are kept already, so that no reply shows them, and counts none
    /// that was lost already. Where there is no memory for its scope, the provider comes back.
    pub fn new(
        alloc: Global,
        mut provider: ProviderOf<P, S, G>,
    ) -> Result<Session<P, S, G>, AllocFailed<ProviderOf<P, S, G>>>
        ensures ok { IfOk result (λ session. BeginsUnder ⟦<ProviderOf<P, S, G> as Provides>⟧.calls provider session) }
        ensures err { IfErr result (λ failed. failed.value ≡ provider) }
    {
        let tracer = match tracer_of(alloc, &provider) {
            Ok(tracer) => tracer,
            Err(_) => return Err(AllocFailed { value: provider }),
        };
        let lost_before = lost_by_first(provider.processors());
        let _ = take_of_first(alloc, &mut provider);
        Ok(Session {
            provider,
            tracer,
            root: Context::new(),
            spans: OpenSpans::new(alloc),
            may_keep: false,
            lost_before,
            alloc,
        })
    }

    /// Each session, wherever it comes from, has spans that histories describe. It does nothing.
    pub fn has_histories(&self)
        ensures { (histories : Histories) × Describe histories self.now.spans }
    {
        self.spans.have_histories();
    }

    /// Carries commands out in order and appends a reply for each, which takes the batches that it shows. On an error a
    /// beginning of the commands was carried out, each with its reply; the one after it has none, and the error says
    /// why. Where there is no memory for its reply, it was not carried out. A processor that refused a span is counted
    /// in the reply.
    pub fn run(&mut self, commands: Vec<Command>, replies: &mut Vec<Reply>) -> Result<(), RunError>
        ensures ok { OnOk result (Gains replies.old.items replies.new.items (λ added. Runs
            ⟦<ProviderOf<P, S, G> as Provides>⟧.calls self.old commands.items added self.new)) }
        ensures err { IfErr result (λ error. Gains replies.old.items replies.new.items (λ added. RunStops
            ⟦<ProviderOf<P, S, G> as Provides>⟧.calls error self.old commands.items added self.new)) }
    {
        let mut queue = VecDeque::from_vec(commands);
        while let Some(command) = queue.pop_front() {
            replies.reserve(1)?;
            let answer = self.answer(command)?;
            let exported = self.take_shown();
            replies.push_reserved(Reply { exported, answer });
        }
        Ok(())
    }

    /// Carries out the commands that the lines of a text spell, by the plain grammar, up to the first line that is
    /// none, and appends the text of each reply. `Line` names the first bad line, from 1 and with empty lines counted.
    /// On another error the output has the replies of a beginning of the commands; after `Refused` and `BatchLost`,
    /// which no text tells, one more was carried out, and after `Memory` at most one. What that one exported is left
    /// for the next reply.
    pub fn feed(&mut self, text: &[u8], output: &mut Vec<u8>) -> Result<(), FeedError>
        ensures { Writes reply_lines output.old.items output.new.items (λ replies. Feeds
            ⟦<ProviderOf<P, S, G> as Provides>⟧.calls dialects.Plain self.old text.now result replies self.new) }
    {
        let mut lines = ReplyLines::new(self.alloc);
        self.feed_in(&mut lines, text, output)
    }

    /// The same, with the lines read and the replies written as a form says.
    pub fn feed_in<F: ReplyForm>(
        &mut self,
        form: &mut F,
        text: &[u8],
        output: &mut Vec<u8>,
    ) -> Result<(), FeedError>
        ensures writes { Writes (F.form form.old) output.old.items output.new.items (λ replies. Feeds
            ⟦<ProviderOf<P, S, G> as Provides>⟧.calls
            (F.form form.old).dialect self.old text.now result replies self.new) }
        ensures form { F.form form.new ≡ F.form form.old }
    {
        let script = parse(self.alloc, form.dialect(), text)?;
        self.run_and_write(form, script.commands, output)?;
        match script.bad_line {
            None => Ok(()),
            Some(line) => Err(FeedError::Line(line)),
        }
    }

    /// Spends the session: its spans are abandoned, the provider is shut down where it is open, and the lines of the
    /// spans that no reply has shown are appended. The answer is that of the shutdown, or `OutOfMemory` where that is
    /// Ok and the lines found no memory or the first processor's exporter has lost a batch since the session began.
    pub fn close(self, output: &mut Vec<u8>) -> OTelSdkResult
        ensures { Closes ⟦<ProviderOf<P, S, G> as Provides>⟧.calls reply_lines self output.old.items result
            output.new.items }
    {
        let mut lines = ReplyLines::new(self.alloc);
        self.close_in(&mut lines, output).answer
    }

    /// The same, with the batches that no reply has shown in a form, and with what the processors leave behind.
    pub fn close_in<F: ReplyForm>(self, form: &mut F, output: &mut Vec<u8>) -> ClosedSession
        ensures closes { ClosesAs ⟦<ProviderOf<P, S, G> as Provides>⟧.calls (F.form form.old) self output.old.items
            result output.new.items }
        ensures form { F.form form.new ≡ F.form form.old }
    {
        let Session {
            mut provider,
            tracer: _,
            root: _,
            spans,
            may_keep: _,
            lost_before,
            alloc: _,
        } = self;
        spans.abandon();
        let shutdown = shut_down(&mut provider);
        let has_lost = lost_by_first(provider.processors()) != lost_before;
        let written = form.write_rest(output, kept_by_first(provider.processors()));
        let dropped = provider.dropped_count();
        ClosedSession {
            answer: close_answer(shutdown, has_lost, written),
            left_open: provider.close().left_open,
            dropped,
        }
    }

    /// Carries commands out in order, and appends each reply before the next command. It stops after a command whose
    /// answer counts a refusal, or whose reply finds no memory.
    fn run_and_write<F: ReplyForm>(
        &mut self,
        form: &mut F,
        commands: Vec<Command>,
        output: &mut Vec<u8>,
    ) -> Result<(), FeedError>
        ensures ok { OnOk result (Writes (F.form form.old) output.old.items output.new.items (λ replies. Runs
            ⟦<ProviderOf<P, S, G> as Provides>⟧.calls self.old commands.items replies self.new)) }
        ensures err { IfErr result (λ error. Writes (F.form form.old) output.old.items output.new.items (λ replies.
            FeedStops ⟦<ProviderOf<P, S, G> as Provides>⟧.calls error self.old commands.items replies self.new)) }
        ensures form { F.form form.new ≡ F.form form.old }
    {
        let mut queue = VecDeque::from_vec(commands);
        while let Some(command) = queue.pop_front() {
            let answer = self.answer(command)?;
            if answer.counts_refusals() {
                return Err(FeedError::Refused);
            }
            self.write_answer(form, answer, output)?;
            let _ = self.take_shown();
        }
        Ok(())
    }

    /// Writes the reply of an answer, with the batches that are kept, or nothing.
    fn write_answer<F: ReplyForm>(
        &self,
        form: &mut F,
        answer: Answer,
        output: &mut Vec<u8>,
    ) -> Result<(), AllocError>
        ensures ok { OnOk result (output.new.items ≡ output.old.items ++ (F.form form.old).reply
            (record { exported = session_batches P.KeepsBatches.own self.now; answer = answer })) }
        ensures err { OnErr result (output.new.items ≡ output.old.items) }
        ensures form { F.form form.new ≡ F.form form.old }
    {
        if !self.may_keep {
            return form.write_reply(output, &[], answer);
        }
        form.write_reply(output, kept_by_first(self.provider.processors()), answer)
    }

    /// Carries one command out. Where the first processor's exporter lost the batch of a span that it ended, it was
    /// carried out, and that is the answer. Where there was no memory, it was refused.
    fn answer(&mut self, command: Command) -> Result<Answer, RunError>
        ensures ok { IfOk result (λ answer. Answers ⟦<ProviderOf<P, S, G> as Provides>⟧.calls self.old command answer
            self.new) }
        ensures err { IfErr result (λ error. AnswerStops ⟦<ProviderOf<P, S, G> as Provides>⟧.calls error self.old
            command self.new) }
        ensures rest { self.new ≡ record self.old { provider = self.new.provider; spans = self.new.spans } }
        ensures keeps { OnlyAdds (session_stored P.KeepsBatches.own self.old)
            (session_stored P.KeepsBatches.own self.new) }
    {
        if !command.ends_span() {
            return Ok(self.obey(command)?);
        }
        let lost = self.lost_batches();
        let answer = self.obey(command)?;
        if self.lost_batches() != lost {
            return Err(RunError::BatchLost);
        }
        Ok(answer)
    }

    /// Carries one command out; a lost batch is no error. Where there was no memory, it was refused.
    fn obey(&mut self, command: Command) -> Result<Answer, AllocError>
        ensures obeys { Obeys ⟦<ProviderOf<P, S, G> as Provides>⟧.calls self.old command result self.new }
        ensures rest { self.new ≡ record self.old { provider = self.new.provider; spans = self.new.spans } }
        ensures histories { HaveHistories self.old.spans }
    {
        self.spans.have_histories();
        self.may_keep |= command.may_export();
        carry_out(
            self.alloc,
            &self.tracer,
            &self.root,
            &mut self.provider,
            &mut self.spans,
            command,
        )
    }

    /// How many batches of the first processor found no memory.
    pub fn lost_batches(&self) -> u64
        ensures { result ≡ session_losses P.KeepsBatches.own self.now }
    {
        lost_by_first(self.provider.processors())
    }

    /// Takes the batches that the first processor's exporter keeps, if it may keep one: a reply shows them.
    fn take_shown(&mut self) -> Vec<Vec<SpanData>>
        ensures taken { map (λ batch. batch.items) result.items ≡ session_batches P.KeepsBatches.own self.old }
        ensures takes { TakesKept ⟦<ProviderOf<P, S, G> as Provides>⟧.calls self.old.provider self.new.provider }
        ensures rest { self.new ≡ record self.old { provider = self.new.provider } }
    {
        if !self.may_keep {
            return Vec::new(self.alloc);
        }
        self.may_keep = false;
        take_of_first(self.alloc, &mut self.provider)
    }
}
