// SPDX-License-Identifier: Apache-2.0
//! Traces across HTTP: header maps as carriers, a server's span around each request of a service, and a client's span.
#![tactic(auto)]

mod client;
mod context_texts;
mod conventions;
mod fields;
mod header_extractor;
mod header_injector;
pub mod laws;
mod propagation;
mod server;
mod telling;
mod traced;
mod traced_service;

pub use client::{ask_inside, client_span, inject_request};
pub use header_extractor::HeaderExtractor;
pub use header_injector::{HeaderInjector, SetHeaderError};
pub use propagation::{extract_context, extract_headers, inject_context, inject_headers};
pub use telling::{record_response, record_route};
pub use traced::Traced;
pub use traced_service::TracedService;
