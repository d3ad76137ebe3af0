// SPDX-License-Identifier: Apache-2.0
//! Consistent probability sampling (OpenTelemetry specification, "TraceState: Probability Sampling"): every service
//! compares one random number of a trace with its own threshold, so that what a service keeps, each that keeps more
//! keeps too; with its laws.
#![tactic(auto)]

mod answer;
mod entry;
pub mod laws;
pub mod parent_based;
pub mod probability_based;
pub mod randomness;
pub mod threshold;
pub mod trace_state;

pub use parent_based::ConsistentParentBased;
pub use probability_based::ConsistentProbabilityBased;
pub use randomness::Randomness;
pub use threshold::Threshold;
