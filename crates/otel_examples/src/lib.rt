// SPDX-License-Identifier: Apache-2.0
//! Examples: an exporter, two processors, a sampler and a filter of a baggage's keys of one's own, each whole in a file;
//! and the service of docs/USING.md. The crate is proved as any other, which shows that such code is; its tests stand in
//! `otel_sdk_tests`.
#![tactic(auto)]

pub mod exporter;
pub mod key_filter;
pub mod processor;
pub mod queueing_processor;
pub mod sampler;
pub mod service;
