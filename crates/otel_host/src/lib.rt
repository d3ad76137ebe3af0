// SPDX-License-Identifier: Apache-2.0
//! What a program asks the system for, so that it can trace itself: the moment that is now, the strings that configure
//! an SDK, and a seed for ids. The libraries below read no clock and no environment; what is read here is handed to
//! them as moments, strings and a number. No call waits, and none uses a network or another program.
#![tactic(auto)]

mod clock;
pub mod laws;
mod seed;
mod strings;
mod variables;

pub use clock::{ClockError, HostClock, ReadsClocks, now};
pub use seed::{SeedError, random_seed};
pub use strings::{config_strings, config_strings_in, resource_strings, resource_strings_in};
pub use variables::{EnvError, HostVariables, Variables};
