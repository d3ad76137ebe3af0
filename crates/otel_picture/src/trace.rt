//! A trace as it is drawn.

ghost use Rattle.std.specs.Prelude.{◌<◌, All, length};

use crate::rows::{Family, Row};
use opentelemetry::TraceId;

/// The spans of a trace and their rows.
#[derive(Drop)]
pub struct Trace {
    pub trace_id: TraceId,
    pub family: Family,
    pub rows: Vec<Row>,
    ghost there: { All (λ row. row.span < length family.marks.items) rows.items },
}
