// SPDX-License-Identifier: Apache-2.0
//! Spans as the OpenTelemetry protocol has them by default: requests in the bytes of protobuf, which collectors take as
//! `application/x-protobuf`.
#![tactic(auto)]

mod delimited;
mod encoding;
pub mod laws;
mod message;
mod request;
mod span;
mod value;
mod write;

pub use delimited::{OtlpDelimited, OtlpDelimitedExporter, write_delimited_requests};
pub use encoding::Encoding;
pub use request::write_request_protobuf;
