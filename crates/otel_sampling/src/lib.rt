// SPDX-License-Identifier: Apache-2.0
//! Where ids come from, which spans are sampled and how much they keep, and the strings that configure all this; with
//! the laws of ratios.
#![tactic(auto)]

pub mod laws;
pub mod trace;
