// SPDX-License-Identifier: Apache-2.0
//! A session of commands over the trace pipeline: its spans by name, its replies, and what they show; and the pieces, cut
//! at ends of lines, in which a stream is fed to one.
#![tactic(auto)]

mod actions;
mod carry_out;
mod closing;
mod ended_span;
mod headers;
pub mod laws;
mod open_spans;
mod pieces;
pub mod session;
mod span_answers;
mod span_maps;

pub use pieces::Pieces;
pub use session::{ClosedSession, FeedError, RunError, Session};
