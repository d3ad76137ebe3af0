// SPDX-License-Identifier: Apache-2.0
//! The program `otel_post HOST` traces itself, and posts its spans over HTTP, in protobuf: its standard output and input
//! are a connection to that host, which whoever starts it has opened.
#![tactic(auto)]

mod connection;
mod post_error;

use crate::connection::StdConnection;
use crate::post_error::PostError;
use otel_http_post::Endpoint;
use otel_otlp_http::{Encoding, OtlpHttpExporter};
use otel_start::{Program, Scope};
use std::alloc::AllocError;
use std::env;
use std::process::ExitCode;

/// What the program's service is called where the environment does not name it, after `unknown_service:`.
const PROGRAM: &str = "otel_post";

/// Where collectors take spans.
const PATH: &str = "/v1/traces";

fn main(rt: HostRuntime) -> ExitCode {
    match endpoint(&rt) {
        Ok(endpoint) => post(rt, endpoint),
        Err(error) => {
            let _told = eprintln!(rt; "{PROGRAM}: {error}");
            ExitCode::FAILURE
        }
    }
}

/// Where the host of the argument takes spans.
fn endpoint(rt: &HostRuntime) -> Result<Endpoint, PostError> {
    let mut words = env::args(rt).map_err(PostError::Arguments)?.skip(1);
    let (Some(host), None) = (words.next(), words.next()) else {
        return Err(PostError::Usage);
    };
    let path = String::from_str(rt.alloc(), PATH)?;
    Ok(Endpoint::new(rt.alloc(), path, host))
}

/// Traces a greeting, and posts its spans.
fn post(rt: HostRuntime, endpoint: Endpoint) -> ExitCode {
    let connection = StdConnection {
        input: rt.stdin(),
        output: rt.stdout(),
    };
    let exporter = OtlpHttpExporter::new(rt.alloc(), endpoint, Encoding::Protobuf, connection);
    otel_start::run(rt, PROGRAM, exporter, Hello)
}

/// What the program traces.
#[derive(Drop)]
struct Hello;

impl Program for Hello {
    type Error = AllocError;

    fn run<S: Scope>(self, scope: &mut S) -> Result<(), AllocError> {
        scope.in_span("hello", |scope| greet(scope, "world"))
    }
}

fn greet<S: Scope>(scope: &mut S, name: &str) -> Result<(), AllocError> {
    scope.in_span("greet", |scope| scope.set_attribute("greeting.name", name))
}
