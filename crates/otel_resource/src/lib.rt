// SPDX-License-Identifier: Apache-2.0
//! Who speaks: resources, the detectors that find their attributes, and the laws of merging them.
#![tactic(auto)]

pub mod laws;
pub mod resource;

pub use resource::Resource;
