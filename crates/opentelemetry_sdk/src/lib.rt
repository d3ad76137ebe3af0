// SPDX-License-Identifier: Apache-2.0
//! OpenTelemetry's SDK for traces under the paths of the Rust crate: the names of what the crates below it hold.
#![tactic(auto)]

pub mod error;
pub mod propagation;
pub mod resource;
pub mod trace;

pub use otel_resource::Resource;
