// SPDX-License-Identifier: Apache-2.0
//! What travels between processes: the propagators of span contexts and baggage, which write headers and read them,
//! with the grammars of these headers and their laws.
#![tactic(auto)]

pub mod laws;
pub mod propagation;
pub mod strict_laws;
