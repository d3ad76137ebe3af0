// SPDX-License-Identifier: Apache-2.0
//! The data of ended spans, the exporters that take it, and how their calls fail.
#![tactic(auto)]

pub mod error;
pub mod history;
pub mod stream;
pub mod trace;
