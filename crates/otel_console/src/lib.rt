// SPDX-License-Identifier: Apache-2.0
//! An exporter for eyes: it writes a line of text for each span that is exported, to a terminal or any other writer.
#![tactic(auto)]

mod exporter;
pub mod span_text;

pub use exporter::{ConsoleLines, ConsoleSpanExporter};
