//! What the program does with its arguments and its three streams. It feeds its lines to one session as they come and
//! closes that, or has them step one batch queue, and at the end says what was wrong.

ghost use Rattle.std.specs.Prelude.{◌≡◌, ◌⊎◌, List, ℕ, map, string_bytes, true};
ghost use Rattle.std.specs.Io.KnownBytes.{Appends};
ghost use Rattle.otel_trace_run.specs.Arguments.{bad_line_text, otlp, picture, plain_mode, trace};
ghost use Rattle.otel_trace_run.specs.Pages.{ShowsText, unread_text};
ghost use Rattle.otel_trace_run.specs.Program.{RunsTo};
ghost use Rattle.otel_trace_run.specs.Reasons.{IsFault};
ghost use Rattle.otel_trace_run.specs.Requests.{Does, effects_on, mode, request_in};
ghost use Rattle.otel_trace_run.specs.Streams.{Reports, streams_of};
ghost use Rattle.otel_trace_run.specs.WrongWords.{refusal_text};

use crate::mode::{Asked, AskedExport, Mode};
use crate::otlp::{export_input, resource_of};
use crate::pages::{OTLP_USAGE, text_of};
use crate::picture::{PictureForm, SpanPainter, draw_input};
use crate::provider::{TraceProvider, make_provider};
use crate::reason::{Reason, text_of as reason_text_of};
use crate::request::{Request, request_of};
use crate::run_end::RunEnd;
use crate::step_stream::step_input;
use crate::trace_stream::trace_input;
use crate::view::view_input;
use crate::wrong_words::{Refusal, text_of as refusal_text_of};
use otel_export::stream::write_whole;
use otel_pipeline::trace::Provides;
use otel_trace_lines::ReplyLines;
use std::alloc::Global;
use std::io::{Read, Write};

/// The exit status where all went well.
pub(crate) const DONE: u8 = 0;

/// The exit status where reading, writing, closing or memory failed, or a batch was lost.
pub(crate) const FAILED: u8 = 1;

/// The exit status of a bad line or of wrong arguments.
pub(crate) const REFUSED: u8 = 2;

/// What is said where there is no span to draw.
pub(crate) const NO_SPANS: &str = "no spans to draw\n";

/// Runs the program over any reader and writers, and answers its exit status: 0 at the end of the input; 2 for a bad
/// line or wrong arguments; 1 where reading, writing or the closing fails, memory is missing or a batch was lost, also
/// where 2 would be due. `words` are the arguments without the program's name; wrong ones are found before anything is
/// read. Lines are answered as they come: what answers them is written and sent on before more is read, and a run of
/// status 1 has written a beginning of what one of status 0 writes. After a bad line nothing is read. A picture is
/// written at the end of the input, which is read to that whatever its lines are. A view draws the lines that read, and
/// names the others. Where there is no span to draw, that is said.
pub fn run_program<R: Read, W: Write, F: Write>(
    alloc: Global,
    words: &[String],
    input: &mut R,
    output: &mut W,
    faults: &mut F,
) -> u8
    ensures { Does ⟦<TraceProvider as Provides>⟧.calls ⟦<PictureForm as SpanPainter>⟧.paints
        (request_in (map string_bytes words.now))
        (streams_of R.remaining input.old input.new W.contents output.old output.new)
        (effects_on input.old input.new output.old output.new F.contents faults.old faults.new) result }
{
    match request_of(words) {
        Request::Page(page) => show(text_of(page), output),
        Request::View(view) => view_input(alloc, view, input, output, faults),
        Request::Mode(mode) => start_mode(alloc, mode, input, output, faults),
        Request::Nothing(refusal) => refuse_words(alloc, refusal, faults),
    }
}

/// Runs a mode and says what was wrong, or names an attribute that it was given and that does not read.
fn start_mode<R: Read, W: Write, F: Write>(
    alloc: Global,
    asked: Mode,
    input: &mut R,
    output: &mut W,
    faults: &mut F,
) -> u8
    ensures { Does ⟦<TraceProvider as Provides>⟧.calls ⟦<PictureForm as SpanPainter>⟧.paints
        (mode (plain_mode asked.entry)) (streams_of R.remaining input.old input.new W.contents output.old output.new)
        (effects_on input.old input.new output.old output.new F.contents faults.old faults.new) result }
{
    if let Some(member) = asked.unread_attribute() {
        return name_attribute(alloc, member, faults);
    }
    let says_reasons = asked.says_reasons();
    let end = run_mode(alloc, asked, input, output);
    status_of(alloc, end, says_reasons, faults)
}

/// Writes a text, and answers the status for it.
fn show<W: Write>(text: &str, output: &mut W) -> u8
    ensures { ShowsText (W.contents output.old) (W.contents output.new) text.now result }
{
    if write_whole(output, text.as_bytes()).is_err() {
        return FAILED;
    }
    DONE
}

/// Runs a mode, and says how that ended.
fn run_mode<R: Read, W: Write>(alloc: Global, mode: Mode, input: &mut R, output: &mut W) -> RunEnd
    ensures { RunsTo ⟦<TraceProvider as Provides>⟧.calls ⟦<PictureForm as SpanPainter>⟧.paints
        (plain_mode mode.entry) (streams_of R.remaining input.old input.new W.contents output.old output.new) result }
{
    match mode {
        Mode::Trace(asked) => run_trace(alloc, asked, input, output),
        Mode::Steps(sizes) => step_input(alloc, sizes, input, output),
        Mode::Otlp(export, given) => run_otlp(alloc, export, given, input, output),
        Mode::Picture(asked, form) => run_picture(alloc, asked, form, input, output),
    }
}

/// Runs a session whose replies are written, under the provider that is asked for; a failure where there is no memory
/// for it.
fn run_trace<R: Read, W: Write>(
    alloc: Global,
    asked: Asked,
    input: &mut R,
    output: &mut W,
) -> RunEnd
    ensures { RunsTo ⟦<TraceProvider as Provides>⟧.calls ⟦<PictureForm as SpanPainter>⟧.paints (trace asked)
        (streams_of R.remaining input.old input.new W.contents output.old output.new) result }
{
    match make_provider(alloc, asked, false) {
        Ok(provider) => {
            let mut lines = ReplyLines::new(alloc);
            trace_input(alloc, provider, &mut lines, input, output)
        }
        Err(_) => RunEnd::Failed,
    }
}

/// Runs a session whose batches are written, under the provider that is asked for; a failure where there is no memory
/// for it or for its resource.
fn run_otlp<R: Read, W: Write>(
    alloc: Global,
    export: AskedExport,
    given: &[String],
    input: &mut R,
    output: &mut W,
) -> RunEnd
    ensures { RunsTo ⟦<TraceProvider as Provides>⟧.calls ⟦<PictureForm as SpanPainter>⟧.paints
        (otlp export (map string_bytes given.now))
        (streams_of R.remaining input.old input.new W.contents output.old output.new) result }
{
    let Ok(resource) = resource_of(alloc, given) else {
        return RunEnd::Failed;
    };
    match make_provider(alloc, export.asked, true) {
        Ok(provider) => { export_input(alloc, provider, export.encoding, resource, input, output) }
        Err(_) => RunEnd::Failed,
    }
}

/// Runs a session whose spans are drawn, under the provider that is asked for; a failure where there is no memory for
/// it.
fn run_picture<R: Read, W: Write>(
    alloc: Global,
    asked: Asked,
    form: PictureForm,
    input: &mut R,
    output: &mut W,
) -> RunEnd
    ensures { RunsTo ⟦<TraceProvider as Provides>⟧.calls ⟦<PictureForm as SpanPainter>⟧.paints
        (picture asked form) (streams_of R.remaining input.old input.new W.contents output.old output.new) result }
{
    match make_provider(alloc, asked, true) {
        Ok(provider) => draw_input(alloc, provider, &form, input, output),
        Err(_) => RunEnd::Failed,
    }
}

/// Says what was wrong with an input, or that there was no span to draw, and answers the status for how a run ended.
fn status_of<F: Write>(alloc: Global, end: RunEnd, says_reasons: bool, faults: &mut F) -> u8
    ensures { Reports end says_reasons
        (faults.new ≡ faults.old) (Appends (F.contents faults.old) (F.contents faults.new)) result }
{
    match end {
        RunEnd::Done => DONE,
        RunEnd::Empty => show(NO_SPANS, faults),
        RunEnd::BadLine(line, reason) if says_reasons => name_reason(alloc, line, reason, faults),
        RunEnd::BadLine(line, _) => name_bad_line(alloc, line, faults),
        RunEnd::Failed => FAILED,
    }
}

/// Writes what was wrong, and answers the status for it.
fn refuse<F: Write>(faults: &mut F, text: &str) -> u8
    ensures { (result ≡ 1)
        ⊎ ((result ≡ 2) × Appends (F.contents faults.old) (F.contents faults.new) text.now) }
{
    if write_whole(faults, text.as_bytes()).is_err() {
        return FAILED;
    }
    REFUSED
}

/// Says what could be asked for and what is wrong, and answers the status for it.
fn refuse_words<F: Write>(alloc: Global, refusal: Refusal<'_>, faults: &mut F) -> u8
    ensures { (result ≡ 1)
        ⊎ ((result ≡ 2) × Appends (F.contents faults.old) (F.contents faults.new) (refusal_text refusal.entry)) }
{
    match refusal_text_of(alloc, refusal) {
        Ok(text) => refuse(faults, text.as_str()),
        Err(_) => FAILED,
    }
}

/// Names an attribute that does not read, and answers the status for it.
fn name_attribute<F: Write>(alloc: Global, member: &str, faults: &mut F) -> u8
    ensures { (result ≡ 1)
        ⊎ ((result ≡ 2) × Appends (F.contents faults.old) (F.contents faults.new) (unread_text member.now)) }
{
    match format!(in alloc; "cannot read the attribute: {member}\n{OTLP_USAGE}") {
        Ok(text) => refuse(faults, text.as_str()),
        Err(_) => FAILED,
    }
}

/// Names a bad line, and answers the status for it.
fn name_bad_line<F: Write>(alloc: Global, line: u64, faults: &mut F) -> u8
    ensures { (result ≡ 1)
        ⊎ ((result ≡ 2) × Appends (F.contents faults.old) (F.contents faults.new) (bad_line_text line)) }
{
    match format!(in alloc; "line {line}: cannot read\n") {
        Ok(text) => refuse(faults, text.as_str()),
        Err(_) => FAILED,
    }
}

/// Names a bad line, and why it is bad where there is a reason, and answers the status for it.
fn name_reason<F: Write>(alloc: Global, line: u64, reason: Option<Reason>, faults: &mut F) -> u8
    ensures { (result ≡ 1) ⊎ ((result ≡ 2) × ((text : List ℕ) × IsFault true line reason text
        × Appends (F.contents faults.old) (F.contents faults.new) text)) }
{
    let Some(reason) = reason else {
        return name_bad_line(alloc, line, faults);
    };
    let said = reason_text_of(reason);
    match format!(in alloc; "line {line}: {said}\n") {
        Ok(text) => refuse(faults, text.as_str()),
        Err(_) => FAILED,
    }
}
