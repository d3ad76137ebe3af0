//! Why a program's scope could not start.

use otel_host::{ClockError, EnvError, SeedError};
use std::alloc::AllocError;
use thiserror::Error;

/// What the host did not give.
#[derive(Debug, Drop, Error)]
pub enum StartError {
    #[error("{0}")]
    Clock(#[from] ClockError),
    #[error("{0}")]
    Environment(#[from] EnvError),
    #[error("{0}")]
    Seed(#[from] SeedError),
    #[error("out of memory")]
    OutOfMemory(#[from(alloc)] AllocError),
}
