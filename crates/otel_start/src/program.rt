//! A program's scope by its host.

ghost use Rattle.std.specs.Prelude.{◌≡◌, IfOk, IsOk, is_err};
ghost use Rattle.std.specs.Process.{exit_status};
ghost use Rattle.otel_start.specs.Closing.{ClosesWhole};
ghost use Rattle.otel_start.specs.Starting.{IsStarted, RunsWhole};

use crate::{
    BuiltInPropagator, Losses, Settings, StartError, StartedScope, close_counted, scope_over,
};
use opentelemetry::propagation::TextMapPropagator;
use opentelemetry_sdk::propagation::{ConfiguredPropagators, built_in_propagators};
use opentelemetry_sdk::trace::{
    ConfigStrings, CountsLeftSpans, FromExporter, GivesIds, Now, ProcessorOf, Scope, ShouldSample,
    SimpleSpanProcessor, SpanExporter, Tracing,
};
use otel_host::{HostClock, HostVariables, Variables, config_strings, random_seed};
use std::alloc::AllocError;
use std::fmt::Display;
use std::io::Eprint;
use std::process::ExitCode;
use std::random::RandomSource;
use std::rt::Env;
use std::time::Clock;

/// What an exporter is put behind. All exporters have it.
pub trait HasProcessor: Drop + Sized {
    type Processor: CountsLeftSpans + FromExporter<Exporter = Self>;
}

impl<E: SpanExporter> HasProcessor for E {
    type Processor = ProcessorOf<E, SimpleSpanProcessor<E>>;
}

/// The scope of a program, by its host's clock.
pub type HostScope<R, P> = StartedScope<P, HostClock<R>, BuiltInPropagator>;

/// What a program does in its scope.
pub trait Program: Drop + Sized {
    ghost use Rattle.std.specs.Prelude.{Result};

    type Error: Display + Drop;

    /// What it may answer.
    ghost answers: { Self → Result (Unit {0}) Self.Error → Type 0 } = { λ _ _. Unit {0} };

    fn run<S: Scope>(self, scope: &mut S) -> Result<(), Self::Error>
    where
        ensures { answers self result };
}

/// Starts a program's scope, has the program run in it, and closes it: what `main` calls. The status is that of `close`;
/// where the host gives no clock, no seed or no memory, standard error says so, and the program does not run.
pub fn run<R, E: HasProcessor, W: Program>(rt: R, name: &str, exporter: E, program: W) -> ExitCode
where
    R: Copy + AllocGlobal + Clock + Env + Eprint + RandomSource,
    ensures { exit_status result ≡ 0 → RunsWhole E.Processor.SpanProcessor E.Processor.CountsLeftSpans.own
        ⟦<HostClock<R> as Now>⟧.tells (W.answers program) }
{
    match start(rt, name, exporter) {
        Ok(mut scope) => {
            let worked = program.run(&mut scope);
            close(rt, scope, worked)
        }
        Err(error) => {
            let _told = eprintln!(rt; "otel: {error}");
            ExitCode::FAILURE
        }
    }
}

/// Starts the scope of a program: its spans are those of a library of this name, and of a service of this name where the
/// environment does not name one. The environment's variables of an SDK configure it; one whose value does not read is
/// named on standard error, with what stands in its place. What the program does with the scope ends by `close`.
pub fn start<R, E: HasProcessor>(
    rt: R,
    name: &str,
    exporter: E,
) -> Result<HostScope<R, E::Processor>, StartError>
where
    R: Copy + AllocGlobal + Clock + Env + Eprint + RandomSource,
    ensures { IfOk result (λ begun. (settings : _)
        × IsStarted E.Processor.SpanProcessor E.Processor.eager_batch_of name.now settings exporter begun) }
{
    let settings = host_settings(rt, name)?;
    Ok(scope_over::<E::Processor, _, _>(rt.alloc(), name, settings, exporter)?)
}

/// Closes the scope of a program, after its processors have exported what waits, and answers its status: success where
/// what it did in the scope succeeded, and each span was exported. Else standard error says what failed, and what was
/// lost.
pub fn close<R, P, S, G, C, T, V, W>(
    rt: R,
    scope: Tracing<P, S, G, C, T>,
    worked: Result<V, W>,
) -> ExitCode
where
    R: Eprint + Drop,
    P: CountsLeftSpans,
    S: ShouldSample + Drop,
    G: GivesIds + Drop,
    C: Now + Drop,
    T: TextMapPropagator + Drop,
    V: Drop,
    W: Display + Drop,
    ensures worked { exit_status result ≡ 0 → IsOk worked }
    ensures whole { exit_status result ≡ 0 → ClosesWhole P.SpanProcessor P.CountsLeftSpans.own C.tells scope }
{
    let is_told = tell_failure(&rt, worked);
    let losses = close_counted(scope);
    if losses.are_none() && !is_told {
        return ExitCode::SUCCESS;
    }
    tell_losses(&rt, losses);
    ExitCode::FAILURE
}

/// What the host says of a program of this name.
fn host_settings<R: Copy + AllocGlobal + Clock + Env + Eprint + RandomSource>(
    rt: R,
    name: &str,
) -> Result<Settings<HostClock<R>, BuiltInPropagator>, StartError> {
    let clock = HostClock::new(rt)?;
    let strings = config_strings(&rt, name)?;
    tell_faults(&rt, &strings)?;
    let named = HostVariables { rt: &rt }.value("OTEL_PROPAGATORS")?;
    let propagator = host_propagator(&rt, named.as_deref())?;
    let seed = random_seed(&rt)?;
    Ok(Settings {
        strings,
        seed,
        clock,
        propagator,
    })
}

/// Names each variable whose value does not read, and what stands in its place.
fn tell_faults<R: AllocGlobal + Eprint>(rt: &R, strings: &ConfigStrings) -> Result<(), AllocError> {
    for fault in &strings.faults(rt.alloc())? {
        let _told = eprintln!(rt; "otel: {fault}");
    }
    Ok(())
}

/// The propagators that a text names. Names of which none is known are told.
fn host_propagator<R: AllocGlobal + Eprint>(
    rt: &R,
    text: Option<&str>,
) -> Result<BuiltInPropagator, AllocError> {
    let ConfiguredPropagators {
        propagator,
        unknown,
    } = built_in_propagators(rt.alloc(), text)?;
    for name in &unknown {
        let _told = eprintln!(rt; "otel: OTEL_PROPAGATORS names an unknown propagator: {name}");
    }
    Ok(propagator)
}

/// Names the error of a program's work, and answers whether there was one.
fn tell_failure<R: Eprint, V: Drop, W: Display + Drop>(rt: &R, worked: Result<V, W>) -> bool
    ensures { result ≡ is_err worked }
{
    match worked {
        Ok(_) => false,
        Err(error) => {
            let _told = eprintln!(rt; "otel: {error}");
            true
        }
    }
}

/// Names what was lost.
fn tell_losses<R: Eprint>(rt: &R, losses: Losses) {
    let _told = match &losses.failure {
        Ok(()) => Ok(()),
        Err(error) => eprintln!(rt; "otel: {error}"),
    };
    tell_count(
        rt,
        losses.lost as u128,
        "spans found no memory, or were refused",
    );
    tell_count(rt, losses.failed_exports, "exports of spans failed");
    tell_count(
        rt,
        losses.dropped,
        "spans were dropped, since too many waited",
    );
    tell_count(rt, losses.left, "spans were not exported");
}

/// Names how many of these there are, if there are any.
fn tell_count<R: Eprint>(rt: &R, count: u128, what: &'static str) {
    if count > 0 {
        let _told = eprintln!(rt; "otel: {count} {what}");
    }
}
