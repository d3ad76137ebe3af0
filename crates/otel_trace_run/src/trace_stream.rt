//! The mode `trace` as a stream: lines are carried out as they come, and their replies are written, in a form, and sent
//! on before more is read.

ghost use Rattle.std.specs.Prelude.{◌≡◌, IfOk, OnErr, Result};
ghost use Rattle.std.specs.Io.KnownBytes.{Appends};
ghost use Rattle.otel_export.specs.Streams.{AppendsBeginning};
ghost use Rattle.otel_trace_run.specs.Streams.{streams_of};
ghost use Rattle.otel_trace_run.specs.TraceRuns.{
  CarriesOutSome,
  FedAs,
  FeedsPiece,
  Traces,
  TracesUnder,
};
ghost use Rattle.otel_trace_session.specs.declared.session.FeedError.{FeedError};

use crate::line_count::{bad_line_after, lines_counted};
use crate::reason::reason_at;
use crate::run_end::RunEnd;
use otel_export::stream::write_whole;
use otel_pipeline::trace::{KeepsBatches, ProviderOf, Provides};
use otel_sampling::trace::{GivesIds, ShouldSample};
use otel_trace_lines::ReplyForm;
use otel_trace_session::{FeedError, Pieces, Session};
use std::alloc::Global;
use std::io;
use std::io::{Read, Write};

/// Carries out the lines of an input by one session under a provider.
pub fn trace_input<P: KeepsBatches, S: ShouldSample, G: GivesIds, F: ReplyForm, R: Read, W: Write>(
    alloc: Global,
    provider: ProviderOf<P, S, G>,
    form: &mut F,
    input: &mut R,
    output: &mut W,
) -> RunEnd
    ensures { TracesUnder ⟦<ProviderOf<P, S, G> as Provides>⟧.calls (F.form form.old) provider
        (streams_of R.remaining input.old input.new W.contents output.old output.new) result }
{
    match Session::new(alloc, provider) {
        Ok(session) => trace_session(alloc, session, form, input, output),
        Err(failed) => {
            let _ = failed.value.close();
            RunEnd::Failed
        }
    }
}

/// Carries out the lines of an input by a session, and closes that. What closing appends is written only where all
/// commands were answered, so that the output is a beginning of what is written at status 0. It fails too where spans
/// are left waiting in a processor whose shutdown was refused, and where a queue dropped a span and the form minds that.
fn trace_session<P: KeepsBatches, S: ShouldSample, G: GivesIds, F: ReplyForm, R: Read, W: Write>(
    alloc: Global,
    mut session: Session<P, S, G>,
    form: &mut F,
    input: &mut R,
    output: &mut W,
) -> RunEnd
    ensures { Traces ⟦<ProviderOf<P, S, G> as Provides>⟧.calls (F.form form.old) session
        (streams_of R.remaining input.old input.new W.contents output.old output.new) result }
{
    let mut text = Vec::new(alloc);
    let fed = feed_pieces(alloc, &mut session, form, &mut text, input, output);
    text.clear();
    let closed = session.close_in(form, &mut text);
    let Ok(end) = fed else {
        return RunEnd::Failed;
    };
    if let RunEnd::Failed = end {
        return RunEnd::Failed;
    }
    let Ok(()) = write_whole(output, &text) else {
        return RunEnd::Failed;
    };
    if !closed.lost_nothing(form.minds_drops()) {
        return RunEnd::Failed;
    }
    end
}

/// Feeds an input to a session, piece by piece, and writes its replies. Fails where reading or writing does. `text` is
/// room for them.
fn feed_pieces<P: KeepsBatches, S: ShouldSample, G: GivesIds, F: ReplyForm, R: Read, W: Write>(
    alloc: Global,
    session: &mut Session<P, S, G>,
    form: &mut F,
    text: &mut Vec<u8>,
    input: &mut R,
    output: &mut W,
) -> io::Result<RunEnd>
    ensures ok { IfOk result (λ end. FedAs ⟦<ProviderOf<P, S, G> as Provides>⟧.calls (F.form form.old) session.old
        session.new (streams_of R.remaining input.old input.new W.contents output.old output.new) end) }
    ensures err { OnErr result (CarriesOutSome ⟦<ProviderOf<P, S, G> as Provides>⟧.calls (F.form form.old) session.old
        (R.remaining input.old) (AppendsBeginning (W.contents output.old) (W.contents output.new))) }
    ensures form { F.form form.new ≡ F.form form.old }
{
    let mut pieces = Pieces::new(alloc);
    let mut before: u64 = 0;
    for _ in 0..u64::MAX {
        let goes_on = pieces.read_on(input)?;
        match feed_piece(session, form, pieces.lines(), text, output)? {
            Ok(()) => {}
            Err(FeedError::Line(line)) => {
                let reason = reason_at(pieces.lines(), line);
                return Ok(bad_line_after(before, line, reason));
            }
            Err(FeedError::Memory | FeedError::Refused | FeedError::BatchLost) => {
                return Ok(RunEnd::Failed);
            }
        }
        if !goes_on {
            return Ok(RunEnd::Done);
        }
        match lines_counted(before, pieces.lines()) {
            Some(count) => before = count,
            None => return Ok(RunEnd::Failed),
        }
    }
    Ok(RunEnd::Failed)
}

/// Feeds lines to a session, and writes and sends on its replies. `text` is room for them.
fn feed_piece<P: KeepsBatches, S: ShouldSample, G: GivesIds, F: ReplyForm, W: Write>(
    session: &mut Session<P, S, G>,
    form: &mut F,
    lines: &[u8],
    text: &mut Vec<u8>,
    output: &mut W,
) -> io::Result<Result<(), FeedError>>
    ensures ok { IfOk result (λ fed. FeedsPiece ⟦<ProviderOf<P, S, G> as Provides>⟧.calls (F.form form.old)
        session.old lines.now fed (Appends (W.contents output.old) (W.contents output.new)) session.new) }
    ensures err { OnErr result ((fed : Result (Unit {0}) FeedError) × FeedsPiece
        ⟦<ProviderOf<P, S, G> as Provides>⟧.calls (F.form form.old) session.old lines.now fed (AppendsBeginning
        (W.contents output.old) (W.contents output.new)) session.new) }
    ensures form { F.form form.new ≡ F.form form.old }
{
    text.clear();
    let fed = session.feed_in(form, lines, text);
    write_whole(output, text)?;
    Ok(fed)
}
