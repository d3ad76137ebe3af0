// SPDX-License-Identifier: Apache-2.0
//! The program's mode `steps`: lines step a batch queue, and each is answered by a line.
#![tactic(auto)]

pub mod laws;
pub mod steps;

pub use steps::{Sizes, answer_lines, machine_sized};
