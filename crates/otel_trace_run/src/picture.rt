//! The modes `picture` and `svg`: at the end of the input all spans that a session exported over it are drawn, and no
//! reply is written. So these modes hold the input and its spans, and their memory grows with both.

ghost use Rattle.std.specs.Prelude.{◌≡◌, ◌++◌, IfOk, IfSome, OnOk, List, ℕ, map, true};
ghost use Rattle.otel_export.specs.PlainSpanData.{PlainSpanData, spans_in};
ghost use Rattle.otel_shown.specs.Shown.{no_resource, shown_span};
ghost use Rattle.otel_trace_lines.specs.Commands.{plain_commands};
ghost use Rattle.otel_picture.specs.Drawn.{plain_traces};
ghost use Rattle.otel_trace_run.specs.Paintings.{picture_of};
ghost use Rattle.otel_trace_run.specs.PictureRuns.{DrawsLines, DrawsUnder, end_of};
ghost use Rattle.otel_trace_run.specs.PictureRuns.{ReadsScript, RunsOut, RunsShutdown, says_shut};
ghost use Rattle.otel_trace_run.specs.Streams.{WhyBad, streams_of};
ghost use Rattle.otel_trace_session.specs.Shown.{exported_in};

use crate::reason::{Reason, reason_at};
use crate::run_end::RunEnd;
use otel_export::error::OTelSdkError;
use otel_export::stream::write_whole;
use otel_export::trace::SpanData;
use otel_picture::traces::Traces;
use otel_pipeline::trace::{KeepsBatches, ProviderOf, Provides};
use otel_sampling::trace::{GivesIds, ShouldSample};
use otel_shown::{ShownResource, ShownSpan};
use otel_trace_lines::{Answer, Command, Dialect, Reply, ReplyLines, Script, parse};
use otel_trace_session::Session;
use std::alloc::{AllocError, Global};
use std::io;
use std::io::{Read, Write};

/// What draws spans.
pub trait SpanPainter {
    /// What is said of spans, in order of export, and of the text that is drawn of them.
    ghost paints: { Self → List PlainSpanData → List ℕ → Type 0 };

    /// A picture of spans, which stand in order of export.
    fn paint(&self, alloc: Global, spans: Vec<SpanData>) -> Result<Vec<u8>, AllocError>
        ensures { IfOk result (λ picture. paints self.now spans.items picture.items) };
}

/// In which form spans are drawn.
#[derive(Clone, Copy, Debug, PartialEq, Eq)]
pub enum PictureForm {
    /// As text of so many columns.
    Text { columns: u32 },
    /// As one SVG file.
    Svg,
}

impl PictureForm {
    /// The picture of traces; the text form has attributes under its rows, if they are asked for.
    pub(crate) fn draw(
        self,
        alloc: Global,
        traces: &Traces,
        attributes: bool,
    ) -> Result<Vec<u8>, AllocError>
        ensures { IfOk result (λ picture. picture.items ≡ picture_of self attributes (plain_traces traces.now)) }
    {
        match self {
            PictureForm::Text { columns } => traces.to_text(alloc, columns, attributes),
            PictureForm::Svg => traces.to_svg(alloc),
        }
    }
}

impl SpanPainter for PictureForm {
    ghost use Rattle.otel_trace_run.specs.Paintings.{Paints};

    ghost paints = { Paints };

    fn paint(&self, alloc: Global, spans: Vec<SpanData>) -> Result<Vec<u8>, AllocError> {
        let shown = shown_spans(alloc, spans)?;
        let traces = Traces::of(alloc, &shown)?;
        self.draw(alloc, &traces, false)
    }
}

/// Exported spans as they are shown: nobody says whose they are.
pub fn shown_spans(alloc: Global, spans: Vec<SpanData>) -> Result<Vec<ShownSpan>, AllocError>
    ensures { IfOk result (λ shown. shown.items ≡ map (shown_span no_resource) spans.items) }
{
    let nobody = ShownResource::new(alloc, String::new(alloc), String::new(alloc))?;
    let mut shown = Vec::with_capacity(alloc, spans.len())?;
    for span in spans {
        shown.push(ShownSpan::of(alloc, nobody.clone()?, span)?)?;
    }
    Ok(shown)
}

/// What was drawn of an input, and how the run ends that writes it.
#[derive(Drop)]
struct Drawn {
    picture: Vec<u8>,
    end: RunEnd,
}

/// Carries out the lines of an input by one session under a provider, and writes the picture of all spans that it
/// exports.
pub(crate) fn draw_input<
    P: KeepsBatches,
    S: ShouldSample,
    G: GivesIds,
    D: SpanPainter,
    R: Read,
    W: Write,
>(
    alloc: Global,
    provider: ProviderOf<P, S, G>,
    painter: &D,
    input: &mut R,
    output: &mut W,
) -> RunEnd
    ensures { DrawsUnder ⟦<ProviderOf<P, S, G> as Provides>⟧.calls (D.paints painter.now) provider
        (streams_of R.remaining input.old input.new W.contents output.old output.new) result }
{
    let mut session = match Session::new(alloc, provider) {
        Ok(session) => session,
        Err(failed) => {
            let _ = failed.value.close();
            return RunEnd::Failed;
        }
    };
    let drawn = draw_lines(alloc, &mut session, painter, input);
    let mut left = Vec::new(alloc);
    let mut lines = ReplyLines::of_dialect(alloc, Dialect::Extended);
    let closed = session.close_in(&mut lines, &mut left);
    let Some(drawn) = drawn else {
        return RunEnd::Failed;
    };
    if !closed.lost_nothing(true) {
        return RunEnd::Failed;
    }
    let Ok(()) = write_whole(output, &drawn.picture) else {
        return RunEnd::Failed;
    };
    drawn.end
}

/// Carries out the lines of an input, up to the first bad one, and a shutdown after them, and draws the spans that
/// were exported. None where reading, memory or the shutdown failed, or a batch was lost.
fn draw_lines<P: KeepsBatches, S: ShouldSample, G: GivesIds, D: SpanPainter, R: Read>(
    alloc: Global,
    session: &mut Session<P, S, G>,
    painter: &D,
    input: &mut R,
) -> Option<Drawn>
    ensures { IfSome result (λ drawn. DrawsLines ⟦<ProviderOf<P, S, G> as Provides>⟧.calls (D.paints painter.now)
        session.old (R.remaining input.old) (R.remaining input.new) drawn.end drawn.picture.items session.new) }
{
    let (script, reason) = read_script(alloc, input).ok()?;
    let spans = exported_by(alloc, session, script.commands)?;
    let end = end_of(script.bad_line, reason, &spans);
    let picture = painter.paint(alloc, spans).ok()?;
    Some(Drawn { picture, end })
}

/// How a run ends of whose input these spans are drawn: those of its lines up to the first bad one, which is bad for
/// this reason.
fn end_of(bad_line: Option<u64>, reason: Option<Reason>, spans: &[SpanData]) -> RunEnd
    ensures { result ≡ end_of bad_line reason spans.now }
{
    match bad_line {
        Some(line) => RunEnd::BadLine(line, reason),
        None if spans.is_empty() => RunEnd::Empty,
        None => RunEnd::Done,
    }
}

/// Reads an input to its end, and the commands of its lines, and why the first bad one is.
fn read_script<R: Read>(alloc: Global, input: &mut R) -> io::Result<(Script, Option<Reason>)>
    ensures { IfOk result (λ found. ReadsScript (R.remaining input.old) (R.remaining input.new)
        (plain_commands found.0.commands.items) found.0.bad_line
        × IfSome found.0.bad_line (λ line. WhyBad true (R.remaining input.old) line found.1)) }
{
    let mut text = Vec::new(alloc);
    input.read_to_end(&mut text)?;
    let script = parse(alloc, Dialect::Extended, &text)?;
    let reason = match script.bad_line {
        Some(line) => reason_at(&text, line),
        None => None,
    };
    Ok((script, reason))
}

/// Carries out commands and a shutdown after them, and gives the spans that were exported. None where memory ran out,
/// a processor refused a span, a batch was lost or the shutdown failed.
fn exported_by<P: KeepsBatches, S: ShouldSample, G: GivesIds>(
    alloc: Global,
    session: &mut Session<P, S, G>,
    commands: Vec<Command>,
) -> Option<Vec<SpanData>>
    ensures { IfSome result (λ spans. RunsOut ⟦<ProviderOf<P, S, G> as Provides>⟧.calls session.old commands.items
        spans.items session.new) }
{
    let mut replies = Vec::new(alloc);
    let Ok(()) = session.run(commands, &mut replies) else {
        return None;
    };
    if replies.iter().any(|reply| reply.answer.counts_refusals()) {
        return None;
    }
    let mut last = shut_down(alloc, session)?;
    let Ok(()) = replies.append(&mut last) else {
        return None;
    };
    match spans_of(alloc, replies) {
        Ok(spans) => Some(spans),
        Err(_) => None,
    }
}

/// Shuts the provider of a session down where it is open.
fn shut_down<P: KeepsBatches, S: ShouldSample, G: GivesIds>(
    alloc: Global,
    session: &mut Session<P, S, G>,
) -> Option<Vec<Reply>>
    ensures { IfSome result (λ replies. RunsShutdown ⟦<ProviderOf<P, S, G> as Provides>⟧.calls session.old
        replies.items session.new) }
{
    let mut commands = Vec::new(alloc);
    commands.push(Command::Shutdown).ok()?;
    let mut replies = Vec::new(alloc);
    let Ok(()) = session.run(commands, &mut replies) else {
        return None;
    };
    if replies.iter().all(|reply| says_shut(&reply.answer)) {
        Some(replies)
    } else {
        None
    }
}

/// Whether an answer to a shutdown says that the provider is shut.
fn says_shut(answer: &Answer) -> bool
    ensures { result ≡ says_shut answer.now }
{
    match answer {
        Answer::Ok | Answer::Failed(OTelSdkError::AlreadyShutdown) => true,
        _ => false,
    }
}

/// The spans that replies show, in order.
fn spans_of(alloc: Global, replies: Vec<Reply>) -> Result<Vec<SpanData>, AllocError>
    ensures { IfOk result (λ spans. spans.items ≡ spans_in (exported_in replies.items)) }
{
    let mut spans = Vec::new(alloc);
    for reply in replies {
        push_batches(&mut spans, reply.exported)?;
    }
    Ok(spans)
}

/// Appends the spans of batches.
fn push_batches(spans: &mut Vec<SpanData>, batches: Vec<Vec<SpanData>>) -> Result<(), AllocError>
    ensures { OnOk result (spans.new.items
        ≡ spans.old.items ++ spans_in (map (λ batch. batch.items) batches.items)) }
{
    for batch in batches {
        let mut batch = batch;
        spans.append(&mut batch)?;
    }
    Ok(())
}
