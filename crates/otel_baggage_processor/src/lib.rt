// SPDX-License-Identifier: Apache-2.0
//! A processor that writes the baggage of a span's context into the span when it starts.
#![tactic(auto)]

mod baggage_span_processor;
mod key_filter;
pub mod laws;

pub use baggage_span_processor::BaggageSpanProcessor;
pub use key_filter::{AllKeys, KeyFilter};
