// SPDX-License-Identifier: Apache-2.0
//! The exporter of OTLP over HTTP: a post for each batch, over a stream that its host opened.
#![tactic(auto)]

mod attempt;
mod exporter;
mod failure;
mod message;
mod protobuf;
mod reason;
mod request;
mod success;
mod verdict;

pub use exporter::OtlpHttpExporter;
pub use failure::ExportFailure;
pub use otel_http_post::{AnswerError, Endpoint, PostError};
pub use otel_otlp_protobuf::Encoding;
