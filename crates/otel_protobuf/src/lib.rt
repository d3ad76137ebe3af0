// SPDX-License-Identifier: Apache-2.0
//! Messages as protobuf writes them. A message is counted and written by the same text, so that one request for memory
//! serves it and the length before a message within it is known.
#![tactic(auto)]

pub mod laws;
mod reader;
mod sink;

pub use reader::{Held, read_field};
pub use sink::Sink;
