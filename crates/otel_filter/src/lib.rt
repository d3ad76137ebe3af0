// SPDX-License-Identifier: Apache-2.0
//! A filter in front of an exporter: only the spans that it keeps are exported.
#![tactic(auto)]

mod filtering_exporter;
pub mod laws;
mod span_filter;

pub use filtering_exporter::FilteringExporter;
pub use span_filter::SpanFilter;
