//! Laws of the values: each function does nothing, and its contract is the law. Those without an argument speak of all
//! values; those of a reference speak of the value that it refers to, so that a caller has the law of that value.

ghost use Rattle.std.specs.Prelude.{◌≡◌, ◌<◌, ◌^◌, List, ℕ};
ghost use Rattle.std.specs.declared.cmp.Ordering.TheVariants.{Less};
ghost use Rattle.std.specs.List.Sorted.{IsPermutation};
ghost use Rattle.std.specs.Ordering.{nat_cmp};
ghost use Rattle.std.specs.Cmp.Lexicographic.{slice_cmp};
ghost use Rattle.opentelemetry.specs.Plain.{PlainStatus, unset, error, ok};
ghost use Rattle.opentelemetry.specs.Order.{status_cmp, greatest_status};
ghost use Rattle.opentelemetry.specs.Baggage.{IsWithinLimits, HasDistinctNames};
ghost use Rattle.opentelemetry.specs.Tracestate.{ArePairs, IsTracestate, tracestate_text};

use crate::baggage::Baggage;
use crate::trace::{SpanContext, TraceState};

/// An unset status stands below each error, each error below ok, and errors stand by the bytes of their descriptions.
pub fn statuses_rise()
    ensures unset_below_error { (description : List ℕ) → status_cmp unset (error description) ≡ Less }
    ensures error_below_ok { (description : List ℕ) → status_cmp (error description) ok ≡ Less }
    ensures errors { (these those : List ℕ)
        → status_cmp (error these) (error those) ≡ slice_cmp nat_cmp these those }
{}

/// The header of pairs of a key and a value reads back as them, in order and each with its value.
pub fn headers_read_back()
    ensures { (pairs : List (List ℕ × List ℕ)) → ArePairs pairs → IsTracestate (tracestate_text pairs) pairs }
{}

/// A text spells one list of pairs at most.
pub fn tracestates_read_once()
    ensures { (text : List ℕ) (these those : List (List ℕ × List ℕ))
        → IsTracestate text these → IsTracestate text those → these ≡ those }
{}

/// Each trace state has pairs of a key and a value alone.
pub fn trace_states_have_pairs(state: &TraceState)
    ensures { ArePairs state.now }
{
    let _pairs = state.entries();
}

/// Each span context has ids of 128 and 64 bits, and a trace state of pairs of a key and a value.
pub fn span_contexts_fit(span_context: &SpanContext)
    ensures trace_id { span_context.now.trace_id < 2 ^ 128 }
    ensures span_id { span_context.now.span_id < 2 ^ 64 }
    ensures trace_state { ArePairs span_context.now.trace_state }
{
    let _trace_id = span_context.trace_id().to_bytes();
    let _span_id = span_context.span_id().to_bytes();
    trace_states_have_pairs(span_context.trace_state());
}

/// Each baggage is within the limits, and no two of its entries have one name.
pub fn baggages_keep_their_limits(baggage: &Baggage)
    ensures within { IsWithinLimits baggage.now }
    ensures distinct { HasDistinctNames baggage.now }
{
    let _count = baggage.len();
}

/// The greatest of some statuses is the same for every order in which they are set.
pub fn greatest_status_in_any_order()
    ensures { (first : PlainStatus) (these those : List PlainStatus)
        → IsPermutation these those → greatest_status first these ≡ greatest_status first those }
{}
