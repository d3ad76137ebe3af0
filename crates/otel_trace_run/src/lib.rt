// SPDX-License-Identifier: Apache-2.0
//! `run_program` is all of the program `otel_trace` but the words and streams that it is given.
#![tactic(auto)]

pub mod asked_view;
mod given_attributes;
mod line_count;
pub mod mode;
mod otlp;
pub mod pages;
pub mod picture;
pub mod program;
pub mod provider;
pub mod reason;
pub mod request;
pub mod run_end;
mod step_stream;
mod trace_stream;
pub mod view;
pub mod wrong_words;

pub use program::run_program;
