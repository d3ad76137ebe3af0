// SPDX-License-Identifier: Apache-2.0
//! Spans, the tracer that starts them, the processors that take them when they end, and the provider that holds the
//! processors.
#![tactic(auto)]

pub mod laws;
pub mod trace;
