//! What goes wrong with the program, and with what it traces.

use opentelemetry_sdk::error::OTelSdkError;
use otel_host::{ClockError, EnvError, SeedError};
use std::alloc::AllocError;
use std::env::VarError;
use std::io;
use thiserror::Error;

/// What is named on standard error. It ends the program with status 1, the first three at once.
#[derive(Debug, Drop, Error)]
pub enum ShopError {
    #[error("the connection broke: {0}")]
    Connection(io::Error),
    #[error("no keys for the names of headers: {0}")]
    Keys(io::Error),
    #[error("out of memory")]
    OutOfMemory(#[from(alloc)] AllocError),
    #[error("nothing is traced: {0}")]
    Clock(#[from] ClockError),
    #[error("nothing is traced: {0}")]
    Environment(#[from] EnvError),
    #[error("nothing is traced: {0}")]
    Seed(#[from] SeedError),
    #[error("OTEL_SHOP_SPANS cannot be read: {0}: spans are dropped")]
    Variable(VarError),
    #[error("cannot open the file of OTEL_SHOP_SPANS: {0}: spans are dropped")]
    File(io::Error),
    #[error("{0}")]
    Export(#[from] OTelSdkError),
    #[error("{0} spans were not exported")]
    LeftBehind(u128),
    #[error("{0} exports of spans failed")]
    FailedExports(u128),
    #[error("{0} spans were dropped, since too many waited")]
    Dropped(u128),
    #[error("{0} spans lack something or were not made, since there was no memory")]
    Lacking(u64),
}
