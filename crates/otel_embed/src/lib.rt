// SPDX-License-Identifier: Apache-2.0
//! A trace pipeline for hosts in other languages: open spans and tracers are numbers, texts come as bytes, and what was
//! exported leaves as lines of the OpenTelemetry protocol's JSON.
#![tactic(auto)]

mod changes_span;
pub mod error;
mod flow;
mod given;
mod headers;
mod held_lines;
mod held_span;
pub mod host_attribute;
pub mod host_headers;
mod ignored;
pub mod laws;
pub mod numbers;
mod open_span;
mod open_spans;
pub mod pipeline;
pub mod pipeline_of;
mod remote;
pub mod settings;
pub mod span_calls;
pub mod values;

pub use error::PipelineError;
pub use host_attribute::HostAttribute;
pub use host_headers::HostHeaders;
pub use numbers::Numbers;
pub use pipeline::Pipeline;
pub use pipeline_of::{HostStart, PipelineOf};
pub use span_calls::SpanIdentity;
pub use values::HostValue;
