//! Lines that are counted through the pieces of an input.

ghost use Rattle.std.specs.Prelude.{◌≡◌, ◌+◌, ◌⊎◌, IfSome, length};
ghost use Rattle.std.specs.Str.Lines.{lines as lines_of};
ghost use Rattle.otel_trace_run.specs.declared.run_end.RunEnd.TheVariants as ends;

use crate::reason::Reason;
use crate::run_end::RunEnd;
use otel_trace_lines::fields::first_line;

/// The bad line of this number after so many lines, with its reason, or a failure where a number of 64 bits cannot count
/// them.
pub fn bad_line_after(before: u64, line: u64, reason: Option<Reason>) -> RunEnd
    ensures { (result ≡ ends.Failed) ⊎ (result ≡ ends.BadLine (before + line) reason) }
{
    match before.checked_add(line) {
        Some(number) => RunEnd::BadLine(number, reason),
        None => RunEnd::Failed,
    }
}

/// How many lines there are with those of a text after so many; none where a number of 64 bits cannot count them.
pub fn lines_counted(before: u64, text: &[u8]) -> Option<u64>
    ensures { IfSome result (λ count. count ≡ before + length (lines_of text.now)) }
{
    let mut count = before;
    let mut rest = text;
    while let Some((_, after)) = first_line(rest) {
        rest = after;
        count = count.checked_add(1)?;
    }
    Some(count)
}
