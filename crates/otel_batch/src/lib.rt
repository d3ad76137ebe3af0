// SPDX-License-Identifier: Apache-2.0
//! The batch queue in front of an exporter, and how a batch processor is configured.
#![tactic(auto)]

pub mod laws;
pub mod machine;
pub mod trace;
