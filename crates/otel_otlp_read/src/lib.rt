// SPDX-License-Identifier: Apache-2.0
//! Spans out of the OpenTelemetry protocol's JSON, of any producer: the requests that this repository's exporter, other
//! SDKs and the Collector's file exporter write, a line each or one over many lines. Members that are not shown, and
//! names that are not known, are left out; an attribute, an event or a link that does not read is left out too, and
//! that and any other part that does not read is named with its line.
#![tactic(auto)]

mod attributes;
mod document;
mod event;
mod fault;
mod input;
mod kind;
pub mod laws;
mod left_out;
mod lines;
mod link;
mod member;
mod number;
mod request;
mod resource;
mod span;
mod status;
mod value;

pub use document::read_document;
pub use fault::{Fault, ReadError};
pub use input::{LineFault, ReadText, read_text};
pub use left_out::{ItemList, ItemPlace, LeftOut};
pub use request::{ReadSpans, read_request};
