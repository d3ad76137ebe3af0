// SPDX-License-Identifier: Apache-2.0
//! A scope: the one argument that a traced function takes. The current span, its context, the provider and the clock
//! travel in it. A traced function is generic in `S: Scope`; `Tracing` is the scope over a provider.
#![tactic(auto)]

mod begins;
mod current;
mod holds_spans;
mod into_value;
pub mod laws;
mod scope;
mod tracing;

pub use begins::Begins;
pub use current::Current;
pub use holds_spans::HoldsSpans;
pub use into_value::IntoValue;
pub use scope::Scope;
pub use tracing::{Closed, Tracing};
