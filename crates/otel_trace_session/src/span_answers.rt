//! What is said of an edit and an end of a span, and where its name is given up.

ghost use Rattle.std.specs.Prelude.{◌≡◌, ◌||◌, is_some, if◌then◌else◌};
ghost use Rattle.otel_trace_session.specs.OpenSpans.{finished_by_name, named};

use crate::ended_span::EndedSpan;
use otel_trace_lines::Answer;
use std::collections::BTreeMap;

/// What is said of an edit or an end of a span that is not open, by those that are over.
pub(crate) fn answer_to_late(finished: &BTreeMap<String, EndedSpan>, span: &str) -> Answer
    ensures { result ≡ (if is_some (named (finished_by_name finished.now.entries) span.now) then Answer.Ignored
        else Answer.NoSuchSpan) }
{
    if finished.contains_key(span) {
        Answer::Ignored
    } else {
        Answer::NoSuchSpan
    }
}

/// What is said of an edit of a span that was recording or not.
pub(crate) fn answer_to_edit(is_recording: bool) -> Answer
    ensures { result ≡ (if is_recording then Answer.Ok else Answer.Ignored) }
{
    if is_recording {
        Answer::Ok
    } else {
        Answer::Ignored
    }
}

/// What is said of the end of a span that was recording or not, and that so many processors refused.
pub(crate) fn answer_to_end(is_recording: bool, refused: usize) -> Answer
    ensures { result ≡ (if is_recording then Answer.Ended refused else Answer.Ignored) }
{
    if is_recording {
        Answer::Ended(refused)
    } else {
        Answer::Ignored
    }
}

/// What is said where a name is given up that had an open span, or one that is over, or none.
pub(crate) fn answer_to_forget(was_open: bool, was_over: bool) -> Answer
    ensures { result ≡ (if was_open || was_over then Answer.Ok else Answer.NoSuchSpan) }
{
    if was_open || was_over {
        Answer::Ok
    } else {
        Answer::NoSuchSpan
    }
}
