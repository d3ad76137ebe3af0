//! The order of the rows of a trace's picture, and their levels.
//!
//! Roots are the spans without a parent in the picture, and of each circle of parents the first one. Each row is
//! followed by those of its children: a row that is taken off the rows that wait puts its children in front of them.
//! Roots, and the children of a span, stand by start and order of export. A span whose row is there, as that of a
//! circle's root, is not put in again under its parent.

ghost use Rattle.std.specs.Prelude.{◌≡◌, ◌<◌, All, IfOk, OnOk, vec_len};
ghost use Rattle.otel_picture.specs.Orders.{comes_before, start_at};
ghost use Rattle.otel_picture.specs.Parents.{AreKnown, parent_of};
ghost use Rattle.otel_picture.specs.Placed.{AreRows};
ghost use Rattle.otel_picture.specs.Families.{AreRepeats, parents_in};
ghost use Rattle.otel_picture.specs.Turns.{put_all};

use opentelemetry::SpanId;
use std::alloc::{AllocError, Global};

/// A row: which span of the trace it shows, in order of export, and how many levels it stands under a root.
#[derive(Clone, Copy, Debug, PartialEq, Eq)]
pub struct Row {
    pub span: usize,
    pub level: usize,
}

/// What a picture takes of a span beside its texts: where it stands in order of export, and when it was, in nanoseconds
/// since 1970. One without a start is taken to start when it ends.
#[derive(Clone, Copy, Debug, PartialEq, Eq)]
pub struct Mark {
    pub place: usize,
    pub id: SpanId,
    pub parent: SpanId,
    pub start: u64,
    pub end: u64,
}

/// The spans of a trace, which one of them is the parent of each, and whether each has the id of one before it, in order
/// of export.
#[derive(Drop)]
pub struct Family {
    pub marks: Vec<Mark>,
    pub parents: Vec<Option<usize>>,
    pub repeats: Vec<bool>,
    ghost alike: { vec_len parents ≡ vec_len marks },
    ghost known: { AreKnown parents.items },
    ghost of_marks: { parents.items ≡ parents_in marks.items },
    ghost repeated: { AreRepeats marks.items repeats.items },
}

impl Family {
    pub(crate) fn parent(&self, span: usize) -> Option<usize>
        ensures { result ≡ parent_of self.now.parents.items span }
    {
        match self.parents.get(span) {
            Some(parent) => *parent,
            None => None,
        }
    }

    pub(crate) fn start(&self, span: usize) -> u64
        ensures { result ≡ start_at self.now.marks.items span }
    {
        match self.marks.get(span) {
            Some(mark) => mark.start,
            None => 0,
        }
    }

    /// Whether a span comes before another by start and order of export.
    pub(crate) fn is_before(&self, span: usize, other: usize) -> bool
        ensures { result ≡ comes_before self.now.marks.items span other }
    {
        let start = self.start(span);
        let other_start = self.start(other);
        start < other_start || start == other_start && span < other
    }
}

/// Rows that wait, the next one last, and which spans have a row, be it one that waits.
#[derive(Drop)]
pub(crate) struct Waiting {
    pub(crate) rows: Vec<Row>,
    pub(crate) placed: Vec<bool>,
}

impl Waiting {
    ghost use Rattle.otel_picture.specs.Turns.{plain_waiting};

    /// Puts in, at a level, the rows of spans, of each that has none.
    fn put_in(&mut self, spans: &[usize], level: usize) -> Result<(), AllocError>
        requires { All (λ span. span < vec_len self.old.placed) spans.now }
        ensures { OnOk result (plain_waiting self.new ≡ put_all level (plain_waiting self.old) spans.now) }
    {
        for span in spans {
            if !self.placed[*span] {
                self.rows.push(Row { span: *span, level })?;
                self.placed[*span] = true;
            }
        }
        Ok(())
    }
}

/// The rows of a trace's picture: one a span, each after its parent's, or at the left if it has none or is the first of
/// a circle, and siblings by start. The time that it takes goes by the number of spans, and that of a sort.
pub(crate) fn rows(alloc: Global, family: &Family) -> Result<Vec<Row>, AllocError>
    ensures { IfOk result (λ rows. AreRows family.now.marks.items rows.items) }
{
    let count = family.parents.len();
    let turns = family.turns(alloc)?;
    let mut waiting = Waiting {
        rows: Vec::with_capacity(alloc, count)?,
        placed: vec![in alloc; false; count]?,
    };
    let mut rows = Vec::with_capacity(alloc, count)?;
    waiting.put_in(&turns.roots, 0)?;
    while let Some(row) = waiting.rows.pop() {
        rows.push(row)?;
        waiting.put_in(&turns.children[row.span], row.level + 1)?;
    }
    Ok(rows)
}
