// SPDX-License-Identifier: Apache-2.0
//! The trace pipeline for C, as a static library: what `hosts/c/otel.h` declares. A handle is memory of the caller, zeros
//! at first. Each export answers a status, and none asks anything of its caller beyond the types of its arguments.
#![tactic(auto)]

mod attributes;
mod edits;
mod flow;
mod given;
mod handle;
mod loose;
mod opening;
mod remote;
mod spans;
mod status;
mod version;
