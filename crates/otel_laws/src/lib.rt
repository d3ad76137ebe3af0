// SPDX-License-Identifier: Apache-2.0
//! Laws that tie two parts that know nothing of each other: the batch queue to lines of an exporter, and consistent sampling to
//! the spans of a provider.
#![tactic(auto)]

pub mod hops;
pub mod lines;
