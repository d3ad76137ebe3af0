// SPDX-License-Identifier: Apache-2.0
//! The values of the OpenTelemetry API that the trace pipeline stands on: what crosses the border of a process or
//! of a library.
#![tactic(auto)]

pub mod baggage;
pub mod common;
pub mod context;
pub mod laws;
pub mod propagation;
pub mod time;
pub mod trace;
pub mod trace_context;

pub use common::{Array, InstrumentationScope, InstrumentationScopeBuilder, Key, KeyValue, Value};
pub use context::Context;
pub use time::Moment;
pub use trace_context::{ParseIdError, SpanId, TraceFlags, TraceId};
