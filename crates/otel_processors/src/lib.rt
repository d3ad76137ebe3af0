// SPDX-License-Identifier: Apache-2.0
//! The batch processor, and the kinds of processors that a provider holds.
#![tactic(auto)]

pub mod laws;
pub mod trace;
