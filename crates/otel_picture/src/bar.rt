//! Bars: which columns of a room a span covers on its trace's scale, and how long it was by itself.

ghost use Rattle.std.specs.Prelude.{◌≡◌, ◌<◌, ◌≤◌, ◌+◌, ℕ, All, IfOk, drop, get_or, length, max};
ghost use Rattle.otel_picture.specs.Bars.{
  AreEnds,
  AreSelfTimes,
  EndsAt,
  column,
  earlier,
  first_of,
  last_of,
  self_time,
  sweep_over,
  sweep_rows,
};
ghost use Rattle.otel_picture.specs.declared.rows.Row.{Row};
ghost use Rattle.otel_picture.specs.Orders.{start_at};

use crate::rows::{Mark, Row};
use std::alloc::{AllocError, Global};

/// A trace's scale: its first moment and its last, and the room that its bars have.
#[derive(Clone, Copy, Debug, PartialEq, Eq)]
pub struct Scale {
    pub first: u64,
    pub last: u64,
    pub columns: u32,
    ghost ordered: { first ≤ last },
    ghost wide: { 0 < columns },
}

/// The columns that a bar covers, its first and its last.
#[derive(Clone, Copy, Debug, PartialEq, Eq)]
pub struct Bar {
    pub begin: u32,
    pub end: u32,
    ghost covers_one: { begin ≤ end },
}

/// The earlier of two starts, of which zero says that there is none.
fn earlier(moment: u64, start: u64) -> u64
    ensures { result ≡ earlier moment start }
{
    if start == 0 {
        moment
    } else if moment == 0 {
        start
    } else {
        moment.min(start)
    }
}

impl Scale {
    /// The scale of a trace's spans, from their first start to their last end, for bars in so many columns. Where no
    /// span has a start it is of one moment.
    pub(crate) fn of(marks: &[Mark], columns: u32) -> Scale
        requires { 0 < columns }
        ensures first { result.first ≡ first_of marks.now }
        ensures last { result.last ≡ last_of marks.now }
        ensures columns { result.columns ≡ columns }
    {
        let mut first = 0;
        let mut last = 0;
        for mark in marks {
            first = earlier(first, mark.start);
            last = last.max(mark.start).max(mark.end);
        }
        Scale {
            first: if first == 0 { last } else { first },
            last,
            columns,
        }
    }

    /// The column of a moment.
    pub fn column(&self, moment: u64) -> u32
        ensures formula { result ≡ column self.now.first self.now.last self.now.columns moment }
        ensures inside { result < self.now.columns }
    {
        if self.first == self.last {
            return 0;
        }
        let after = u128::from(moment.saturating_sub(self.first));
        let place = after * u128::from(self.columns) / u128::from(self.last - self.first);
        place.min(u128::from(self.columns - 1)) as u32
    }

    /// The bar of a span. One that ends before it starts is of one moment.
    pub fn bar(&self, start: u64, end: u64) -> Bar
        ensures begin { result.begin ≡ column self.now.first self.now.last self.now.columns start }
        ensures end { result.end ≡ column self.now.first self.now.last self.now.columns (max start end) }
        ensures inside { result.end < self.now.columns }
    {
        Bar {
            begin: self.column(start),
            end: self.column(start.max(end)),
        }
    }
}

/// A walk along the time of a span: how far it is, and for how long of it no child ran, in nanoseconds.
#[derive(Clone, Copy, Debug, PartialEq, Eq)]
struct Sweep {
    until: u64,
    free: u64,
}

/// Goes on over a child of a span that ends at a moment.
fn sweep_over(end: u64, sweep: Sweep, child: Mark) -> Sweep
    requires within { sweep.until ≤ end }
    requires fits { sweep.free ≤ sweep.until }
    ensures is { result ≡ sweep_over end sweep child }
    ensures within { result.until ≤ end }
    ensures fits { result.free ≤ result.until }
{
    let begin = sweep.until.max(end.min(child.start));
    Sweep {
        until: begin.max(end.min(child.end)),
        free: sweep.free + (begin - sweep.until),
    }
}

/// Where the rows under a row end: at the first row after it that is not of a greater level. Those under the rows after
/// it are known.
fn end_of(rows: &[Row], ends: &[usize], at: usize) -> usize
    requires here { at < length rows.now }
    requires alike { length ends.now ≡ length rows.now }
    requires known { (row : ℕ) → at < row → row < length rows.now → EndsAt rows.now row (get_or ends.now row 0) }
    ensures { EndsAt rows.now at result }
{
    let level = rows[at].level;
    let mut end = at + 1;
    while end < rows.len() && rows[end].level > level {
        end = ends[end];
    }
    end
}

/// Where the rows under each row end.
fn ends_of(alloc: Global, rows: &[Row]) -> Result<Vec<usize>, AllocError>
    ensures { IfOk result (λ ends. AreEnds rows.now ends.items) }
{
    let mut ends = vec![in alloc; 0; rows.len()]?;
    let mut at = rows.len();
    while at > 0 {
        at -= 1;
        ends[at] = end_of(rows, &ends, at);
    }
    Ok(ends)
}

/// Goes on over the children of a row of a level, which are among the rows from one on. The rows under a child are
/// passed over.
fn sweep_rows(
    marks: &[Mark],
    rows: &[Row],
    ends: &[usize],
    from: usize,
    level: usize,
    end: u64,
    begun: Sweep,
) -> Sweep
    requires there { All (λ row. row.span < length marks.now) rows.now }
    requires ends { AreEnds rows.now ends.now }
    requires within { begun.until ≤ end }
    requires fits { begun.free ≤ begun.until }
    ensures is { result ≡ sweep_rows marks.now level end begun (drop from rows.now) }
    ensures within { result.until ≤ end }
    ensures fits { result.free ≤ result.until }
{
    let mut sweep = begun;
    let mut at = from;
    while at < rows.len() && rows[at].level > level {
        if rows[at].level == level + 1 {
            sweep = sweep_over(end, sweep, marks[rows[at].span]);
        }
        at = ends[at];
    }
    sweep
}

/// How many nanoseconds none of its children ran while the span of a row did.
fn self_time(marks: &[Mark], rows: &[Row], ends: &[usize], at: usize) -> u64
    requires here { at < length rows.now }
    requires there { All (λ row. row.span < length marks.now) rows.now }
    requires ends { AreEnds rows.now ends.now }
    ensures { (row : Row) → result ≡ self_time marks.now (get_or rows.now at row) (drop (at + 1) rows.now) }
{
    let row = rows[at];
    let mark = marks[row.span];
    let end = mark.start.max(mark.end);
    let begun = Sweep {
        until: mark.start,
        free: 0,
    };
    let swept = sweep_rows(marks, rows, ends, at + 1, row.level, end, begun);
    swept.free + (end - swept.until)
}

/// The same of each row. Each is passed once as the child of another.
pub(crate) fn self_times(
    alloc: Global,
    marks: &[Mark],
    rows: &[Row],
) -> Result<Vec<u64>, AllocError>
    requires { All (λ row. row.span < length marks.now) rows.now }
    ensures { IfOk result (λ times. AreSelfTimes marks.now rows.now times.items) }
{
    let ends = ends_of(alloc, rows)?;
    let mut times = Vec::with_capacity(alloc, rows.len())?;
    for at in 0..rows.len() {
        times.push(self_time(marks, rows, &ends, at))?;
    }
    Ok(times)
}
