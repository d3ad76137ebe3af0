//! Spans by trace: which traces there are, in the order in which each first comes, which spans each has, and who is
//! whose parent.
//!
//! Ids are looked up in maps in order: those of hashes could be slowed down by ids that somebody chose for it.

ghost use Rattle.std.specs.Prelude.{◌≡◌, ◌<◌, ◌==◌, ℕ, None, Some, All, IfOk, OnOk, if◌then◌else◌, length, position};
ghost use Rattle.std.specs.Prelude.{unwrap_or};
ghost use Rattle.std.specs.BTreeMap.{get};
ghost use Rattle.std.specs.Ordering.{nat_cmp};
ghost use Rattle.otel_picture.specs.Families.{
  AreRepeats,
  begin_of,
  comes_again,
  first_with,
  mark_of,
  marks_at,
  parents_in,
  trace_ids,
};
ghost use Rattle.otel_picture.specs.Groups.{AreGroups, IsAdded};

use crate::rows::{Family, Mark};
use opentelemetry::{SpanId, TraceId};
use otel_shown::ShownSpan;
use std::alloc::{AllocError, Global};
use std::collections::BTreeMap;

/// Where the spans of a trace stand.
#[derive(Drop)]
pub(crate) struct Group {
    pub(crate) trace_id: TraceId,
    pub(crate) places: Vec<usize>,
}

/// Adds the place of a span of a trace, which is the trace's first one or else belongs to a group of this number.
fn add_place(
    alloc: Global,
    groups: &mut Vec<Group>,
    number: usize,
    trace_id: TraceId,
    place: usize,
) -> Result<(), AllocError>
    ensures { OnOk result (IsAdded groups.old.items number trace_id place groups.new.items) }
{
    if number < groups.len() {
        groups[number].places.push(place)?;
        return Ok(());
    }
    let places = vec![in alloc; place]?;
    groups.push(Group { trace_id, places })?;
    Ok(())
}

/// The number of the group of a trace: a new one, after so many, where it has none.
fn number_of(
    numbers: &mut BTreeMap<TraceId, usize>,
    trace_id: TraceId,
    count: usize,
) -> Result<usize, AllocError>
    ensures is { IfOk result (λ number. number ≡ unwrap_or (get nat_cmp numbers.old trace_id) count) }
    ensures noted { IfOk result (λ number. (id : ℕ) → get nat_cmp numbers.new id
        ≡ (if id == trace_id then Some number else get nat_cmp numbers.old id)) }
{
    match numbers.get(&trace_id).copied() {
        Some(number) => Ok(number),
        None => {
            numbers.insert(trace_id, count)?;
            Ok(count)
        }
    }
}

/// The places of spans, by trace.
pub(crate) fn groups_of(alloc: Global, spans: &[ShownSpan]) -> Result<Vec<Group>, AllocError>
    ensures { IfOk result (λ groups. AreGroups spans.now (length spans.now) (trace_ids spans.now) groups.items) }
{
    let mut groups = Vec::new(alloc);
    let mut numbers = BTreeMap::new(alloc);
    for place in 0..spans.len() {
        let span = &spans[place];
        let trace_id = span.trace_id;
        let number = number_of(&mut numbers, trace_id, groups.len())?;
        add_place(alloc, &mut groups, number, trace_id, place)?;
    }
    Ok(groups)
}

/// Where a span's bar begins: at its start, or at its end where it has no start.
pub(crate) fn begin_of(span: &ShownSpan) -> u64
    ensures { result ≡ begin_of span.now }
{
    if span.start_time.0 == 0 {
        span.end_time.0
    } else {
        span.start_time.0
    }
}

fn mark_of(place: usize, span: &ShownSpan) -> Mark
    ensures { result ≡ mark_of place span.now }
{
    Mark {
        place,
        id: span.span_id,
        parent: span.parent_span_id,
        start: begin_of(span),
        end: span.end_time.0,
    }
}

fn marks_of(alloc: Global, spans: &[ShownSpan], places: &[usize]) -> Result<Vec<Mark>, AllocError>
    requires { All (λ place. place < length spans.now) places.now }
    ensures { IfOk result (λ marks. marks.items ≡ marks_at spans.now places.now) }
{
    let mut marks = Vec::with_capacity(alloc, places.len())?;
    for place in places {
        marks.push(mark_of(*place, &spans[*place]))?;
    }
    Ok(marks)
}

/// The first span of each id.
fn first_of_ids(alloc: Global, marks: &[Mark]) -> Result<BTreeMap<SpanId, usize>, AllocError>
    ensures { IfOk result (λ spans. (id : ℕ) → get nat_cmp spans id ≡ first_with marks.now id) }
{
    let mut spans = BTreeMap::new(alloc);
    for span in 0..marks.len() {
        let id = marks[span].id;
        if !spans.contains_key(&id) {
            spans.insert(id, span)?;
        }
    }
    Ok(spans)
}

/// The span of an id.
fn found_in(spans: &BTreeMap<SpanId, usize>, id: SpanId) -> Option<usize>
    ensures { result ≡ get nat_cmp spans.now id }
{
    spans.get(&id).copied()
}

/// The parent of a span: the first one of the id, if there is one.
fn parent_of(spans: &BTreeMap<SpanId, usize>, mark: Mark) -> Option<usize>
    ensures { result ≡ (if mark.parent == 0 then None else get nat_cmp spans.now mark.parent) }
{
    if mark.parent == SpanId::INVALID {
        None
    } else {
        found_in(spans, mark.parent)
    }
}

/// The parent of each span, by the first span of each id.
fn parents_of(
    alloc: Global,
    spans: &BTreeMap<SpanId, usize>,
    marks: &[Mark],
) -> Result<Vec<Option<usize>>, AllocError>
    requires { (id : ℕ) → get nat_cmp spans.now id ≡ first_with marks.now id }
    ensures { IfOk result (λ parents. parents.items ≡ parents_in marks.now) }
{
    let mut parents = Vec::with_capacity(alloc, marks.len())?;
    for mark in marks {
        parents.push(parent_of(spans, *mark))?;
    }
    Ok(parents)
}

/// Whether a span has the id of one before it, by the first span of each id.
fn comes_again(spans: &BTreeMap<SpanId, usize>, marks: &[Mark], span: usize) -> bool
    requires here { span < length marks.now }
    requires first { (id : ℕ) → get nat_cmp spans.now id ≡ first_with marks.now id }
    ensures { result ≡ comes_again marks.now span }
{
    let first = found_in(spans, marks[span].id);
    first.unwrap_or(span) < span
}

/// The same of each span.
fn repeats_of(
    alloc: Global,
    spans: &BTreeMap<SpanId, usize>,
    marks: &[Mark],
) -> Result<Vec<bool>, AllocError>
    requires { (id : ℕ) → get nat_cmp spans.now id ≡ first_with marks.now id }
    ensures { IfOk result (λ repeats. AreRepeats marks.now repeats.items) }
{
    let mut repeats = vec![in alloc; false; marks.len()]?;
    for span in 0..marks.len() {
        repeats[span] = comes_again(spans, marks, span);
    }
    Ok(repeats)
}

/// The spans of a trace, which stand at these places.
pub(crate) fn family_of(
    alloc: Global,
    spans: &[ShownSpan],
    places: &[usize],
) -> Result<Family, AllocError>
    requires { All (λ place. place < length spans.now) places.now }
    ensures { IfOk result (λ family. family.marks.items ≡ marks_at spans.now places.now) }
{
    let marks = marks_of(alloc, spans, places)?;
    let first = first_of_ids(alloc, &marks)?;
    let parents = parents_of(alloc, &first, &marks)?;
    let repeats = repeats_of(alloc, &first, &marks)?;
    Ok(Family {
        marks,
        parents,
        repeats,
    })
}
