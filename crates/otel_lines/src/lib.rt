// SPDX-License-Identifier: Apache-2.0
//! An exporter over any writer: each batch is written whole, in a form that is its user's.
#![tactic(auto)]

pub mod digits;
mod exporter;
mod form;
mod line_feed;
mod writer;

pub use exporter::LineExporter;
pub use form::{BatchForm, write_batches};
pub use line_feed::first_line_feed;
