// SPDX-License-Identifier: Apache-2.0
//! Spans as the OpenTelemetry protocol writes them in JSON: one request a line, which collectors and viewers read.
#![tactic(auto)]

pub mod fits;
mod json_lines;
pub mod laws;
pub mod parts;
mod request;
mod span;
mod tokens;
mod value;

pub use json_lines::{OtlpJson, OtlpJsonExporter, write_requests};
pub use request::write_request;
