// SPDX-License-Identifier: Apache-2.0
//! The program's lines: commands are read from bytes, and replies are written as bytes. The mode `steps` has its own
//! (`otel_trace_steps`), and takes them apart and writes them by the same calls.
#![tactic(auto)]

pub mod command;
pub mod dialect;
mod extended;
pub mod fields;
pub mod laws;
pub mod lines;
pub mod reply;
pub mod reply_form;
pub mod reply_text;

pub use command::Command;
pub use dialect::Dialect;
pub use lines::{Script, parse};
pub use reply::{Answer, Reply, SpanIdentity};
pub use reply_form::{ReplyForm, ReplyLines};
