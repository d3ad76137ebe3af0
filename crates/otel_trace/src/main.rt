// SPDX-License-Identifier: Apache-2.0
//! The program `otel_trace`: `main` hands the arguments and the standard streams to `run_program` and does nothing else.
#![tactic(auto)]

use otel_trace_run::run_program;
use std::process::ExitCode;
use std::{env, io};

fn main(rt: HostRuntime) -> io::Result<ExitCode> {
    let alloc = rt.alloc();
    let mut words = Vec::new(alloc);
    for word in env::args(&rt)?.skip(1) {
        words.push(word)?;
    }
    let status = run_program(
        alloc,
        &words,
        &mut rt.stdin(),
        &mut rt.stdout(),
        &mut rt.stderr(),
    );
    Ok(ExitCode::from(status))
}
