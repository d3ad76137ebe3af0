// SPDX-License-Identifier: Apache-2.0
//! The program `otel_shop` is a small service over HTTP/1.1: to be read as the first service that is traced. It answers
//! the requests of one connection, which it reads from standard input and writes to standard output, so that any
//! listener which starts a program for each connection makes a server of it. Each request has a span of kind server
//! in the trace that its headers name; the cart asks for the price in the same process, by a request with headers.
//! Spans are appended to the file that `OTEL_SHOP_SPANS` names, as lines of the OpenTelemetry protocol's JSON. Tracing
//! never stands in the way: what fails of it is named on standard error, and requests are answered as ever. The status
//! is 1 where the connection broke, where there was no memory to begin, and where a span was lost that was asked for.
#![tactic(auto)]

mod answers;
mod cart;
mod no_backend;
mod primes;
mod route;
mod serving;
mod settings;
mod shop;
mod shop_error;
mod span_file;
mod stopped_clock;
mod tracing;

use crate::settings::{settings_of, untraced};
use crate::shop_error::ShopError;
use crate::span_file::{SpanFile, open_appended};
use crate::stopped_clock::StoppedClock;
use crate::tracing::{Parts, Settings, SpanReport, serve_traced};
use http_server::{Config, Connection};
use opentelemetry_sdk::error::OTelSdkResult;
use opentelemetry_sdk::trace::{CloseReport, Now, ProcessorOf, SimpleSpanProcessor};
use otel_host::HostClock;
use otel_otlp::OtlpJsonExporter;
use std::alloc::Global;
use std::env::VarError;
use std::hash::RandomState;
use std::process::ExitCode;
use std::{env, io};

/// The name of the program, and of its service where the environment does not name it.
pub const PROGRAM: &str = "otel_shop";

/// The variable that names the file for spans.
const FILE_VARIABLE: &str = "OTEL_SHOP_SPANS";

type Exporter = OtlpJsonExporter<SpanFile>;

type Processor = ProcessorOf<Exporter, SimpleSpanProcessor<Exporter>>;

fn main(rt: HostRuntime) -> ExitCode {
    let mut is_whole = true;
    if let Err(error) = run(&rt, &mut is_whole) {
        tell(&rt, &mut is_whole, error);
    }
    if is_whole {
        ExitCode::SUCCESS
    } else {
        ExitCode::FAILURE
    }
}

/// Names what went wrong; where that cannot be written the program goes on.
fn tell(rt: &HostRuntime, is_whole: &mut bool, error: ShopError) {
    *is_whole = false;
    let _told = eprintln!(rt; "{PROGRAM}: {error}");
}

/// Serves a connection by what the system gives for tracing.
fn run(rt: &HostRuntime, is_whole: &mut bool) -> Result<(), ShopError> {
    let settings = match settings_of(rt) {
        Ok(settings) => settings,
        Err(error) => {
            tell(rt, is_whole, error);
            untraced()
        }
    };
    name_faults(rt, &settings);
    match HostClock::new(rt) {
        Ok(clock) => {
            let twin = clock.twin();
            serve_at(rt, is_whole, clock, twin, &settings)
        }
        Err(error) => {
            tell(rt, is_whole, ShopError::Clock(error));
            serve_at(rt, is_whole, StoppedClock, StoppedClock, &untraced())
        }
    }
}

/// Names each variable whose value does not read, and what stands in its place.
fn name_faults(rt: &HostRuntime, settings: &Settings) {
    if let Ok(faults) = settings.strings.faults(rt.alloc()) {
        for fault in &faults {
            let _told = eprintln!(rt; "{PROGRAM}: {fault}");
        }
    }
}

/// Serves a connection by two clocks that tell the same time, that of the shop and that of its backend.
fn serve_at<C: Now + Drop>(
    rt: &HostRuntime,
    is_whole: &mut bool,
    shop_clock: C,
    backend_clock: C,
    settings: &Settings,
) -> Result<(), ShopError> {
    let keys = RandomState::new(rt).map_err(ShopError::Keys)?;
    let (shop_file, backend_file) = span_files(rt, is_whole);
    let mut connection = Connection::new(rt.alloc(), keys, Config::default());
    let (served, backend_spans) = serve_traced::<Processor, C, _, _>(
        rt.alloc(),
        settings,
        parts_of(rt.alloc(), shop_file, settings.shop_seed, shop_clock),
        parts_of(
            rt.alloc(),
            backend_file,
            settings.backend_seed,
            backend_clock,
        ),
        &mut connection,
        &mut rt.stdin(),
        &mut rt.stdout(),
    )?;
    name_losses(rt, is_whole, served.spans);
    name_losses(rt, is_whole, backend_spans);
    served.connection.map_err(ShopError::Connection)
}

/// What a shop is made of that writes its spans to a file.
fn parts_of<C>(alloc: Global, file: SpanFile, seed: u64, clock: C) -> Parts<Exporter, C> {
    Parts {
        exporter: Exporter::new(alloc, file),
        seed,
        clock,
    }
}

/// Where the spans of the shop and those of its backend go.
fn span_files(rt: &HostRuntime, is_whole: &mut bool) -> (SpanFile, SpanFile) {
    match opened_twice(rt) {
        Ok(Some(files)) => return files,
        Ok(None) => {
            let _told = eprintln!(rt; "{PROGRAM}: {FILE_VARIABLE} is not set: spans are dropped");
        }
        Err(error) => tell(rt, is_whole, error),
    }
    (SpanFile::Dropped, SpanFile::Dropped)
}

/// Opens the file for spans twice, since each exporter has a writer of its own; none where it is not named.
fn opened_twice(rt: &HostRuntime) -> Result<Option<(SpanFile, SpanFile)>, ShopError> {
    let path = match env::var(rt, FILE_VARIABLE) {
        Ok(path) => path,
        Err(VarError::NotPresent) => return Ok(None),
        Err(error) => return Err(ShopError::Variable(error)),
    };
    let shop_file = open_appended(rt, path.as_str()).map_err(ShopError::File)?;
    let backend_file = open_appended(rt, path.as_str()).map_err(ShopError::File)?;
    Ok(Some((shop_file, backend_file)))
}

/// Names what was not exported.
fn name_losses(rt: &HostRuntime, is_whole: &mut bool, report: SpanReport) {
    let SpanReport {
        flushed,
        closed,
        failed_exports,
        dropped,
        lost,
        unfinished,
    } = report;
    let CloseReport {
        result,
        stranded,
        left_open,
    } = closed;
    name_failure(rt, is_whole, flushed);
    name_failure(rt, is_whole, result);
    let left = stranded.saturating_add(left_open);
    let lacking = lost.saturating_add(unfinished);
    if failed_exports > 0 {
        tell(rt, is_whole, ShopError::FailedExports(failed_exports));
    }
    if dropped > 0 {
        tell(rt, is_whole, ShopError::Dropped(dropped));
    }
    if left > 0 {
        tell(rt, is_whole, ShopError::LeftBehind(left));
    }
    if lacking > 0 {
        tell(rt, is_whole, ShopError::Lacking(lacking));
    }
}

/// Names why an export failed, where it did.
fn name_failure(rt: &HostRuntime, is_whole: &mut bool, answer: OTelSdkResult) {
    if let Err(error) = answer {
        tell(rt, is_whole, ShopError::Export(error));
    }
}
