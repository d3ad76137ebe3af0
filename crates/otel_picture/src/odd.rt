//! What is odd about a span: a moment that is missing, an end before its start, a circle of parents, an id that another
//! has.

ghost use Rattle.std.specs.Prelude.{◌≡◌, ◌<◌, ◌≤◌, OnOk, length};
ghost use Rattle.opentelemetry.specs.Text.{TextGrows};
ghost use Rattle.otel_picture.specs.Odd.{odd_line, odd_lines, odd_of, odd_text, one_if};
ghost use Rattle.otel_picture.specs.Sheets.{plain_sheet};

use crate::details::Under;
use crate::rows::Row;
use crate::sheet::Sheet;
use std::alloc::AllocError;

/// What is odd about the span of a row.
#[derive(Clone, Copy, Debug, PartialEq, Eq)]
pub(crate) struct Odd {
    /// It has no moment at which it started, or that is zero.
    pub(crate) no_start: bool,
    /// It has none at which it ended, or that is zero.
    pub(crate) no_end: bool,
    pub(crate) is_backward: bool,
    pub(crate) in_circle: bool,
    /// A span before it has its id.
    pub(crate) comes_again: bool,
}

/// One where something is so.
fn one_if(is_so: bool) -> u64
    ensures is { result ≡ one_if is_so }
    ensures small { result ≤ 1 }
{
    if is_so { 1 } else { 0 }
}

impl Odd {
    /// How many lines that takes.
    #[tactic(auto, unfolding(crate::specs::Odd::odd_lines))]
    pub(crate) fn lines(self) -> u64
        ensures { result ≡ odd_lines self }
    {
        one_if(self.no_start)
            + one_if(self.no_end)
            + one_if(self.is_backward)
            + one_if(self.in_circle)
            + one_if(self.comes_again)
    }
}

impl Sheet<'_> {
    /// What is odd about the span of a row.
    #[tactic(auto, unfolding(crate::specs::Odd::odd_of))]
    pub(crate) fn odd_of(&self, row: Row) -> Odd
        requires { row.span < length self.now.trace.now.family.marks.items }
        ensures { result ≡ odd_of (plain_sheet self.now) row }
    {
        let family = &self.trace.family;
        let mark = family.marks[row.span];
        Odd {
            no_start: self.span_of(row).start_time.0 == 0,
            no_end: mark.end == 0,
            is_backward: mark.end != 0 && mark.end < mark.start,
            in_circle: row.level == 0 && family.parents[row.span].is_some(),
            comes_again: family.repeats[row.span],
        }
    }
}

/// Appends a line that says what is odd, where it is so.
fn push_odd_line(text: &mut String, under: Under, is_so: bool, said: &str) -> Result<(), AllocError>
    ensures { OnOk result (TextGrows text.old (odd_line under is_so said.now) text.new) }
{
    if is_so {
        return under.push_line(text, "? ", said);
    }
    Ok(())
}

/// Appends what is odd, a line each.
#[tactic(auto, unfolding(crate::specs::Odd::odd_text))]
pub(crate) fn push_odd(text: &mut String, under: Under, odd: Odd) -> Result<(), AllocError>
    ensures { OnOk result (TextGrows text.old (odd_text under odd) text.new) }
{
    push_odd_line(text, under, odd.no_start, "no start")?;
    push_odd_line(text, under, odd.no_end, "no end")?;
    push_odd_line(text, under, odd.is_backward, "ends before it starts")?;
    push_odd_line(text, under, odd.in_circle, "in a circle of parents")?;
    push_odd_line(
        text,
        under,
        odd.comes_again,
        "has the id of a span before it",
    )
}
