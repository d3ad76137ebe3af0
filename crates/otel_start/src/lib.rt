// SPDX-License-Identifier: Apache-2.0
//! Starts and closes the scope of a program that traces itself: by the host's clock, environment and random seed, over an
//! exporter. What was lost of its spans is named on standard error when it closes, and is the program's status.
#![tactic(auto)]

mod losses;
mod program;
mod start_error;
mod started;

pub use losses::{Losses, close_counted};
pub use opentelemetry_sdk::trace::Scope;
pub use program::{HasProcessor, HostScope, Program, close, run, start};
pub use start_error::StartError;
pub use started::{
    BuiltInPropagator, Settings, StartedIds, StartedProviderBuilder, StartedSampler, StartedScope,
    provider_builder, scope_over,
};
