// SPDX-License-Identifier: Apache-2.0
//! The first program that traces itself: it writes its two spans to standard error, as a line of the OpenTelemetry
//! protocol's JSON.
#![tactic(auto)]

use otel_otlp::OtlpJsonExporter;
use otel_start::{Program, Scope};
use std::alloc::AllocError;
use std::process::ExitCode;

#[derive(Drop)]
struct Hello;

impl Program for Hello {
    type Error = AllocError;

    fn run<S: Scope>(self, scope: &mut S) -> Result<(), AllocError> {
        scope.in_span("hello", |scope| greet(scope, "world"))
    }
}

fn greet<S: Scope>(scope: &mut S, name: &str) -> Result<(), AllocError> {
    scope.in_span("greet", |scope| scope.set_attribute("greeting.name", name))
}

fn main(rt: HostRuntime) -> ExitCode {
    let exporter = OtlpJsonExporter::new(rt.alloc(), rt.stderr());
    otel_start::run(rt, "hello", exporter, Hello)
}
