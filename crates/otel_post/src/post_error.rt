//! Why the program could not post.

use std::alloc::AllocError;
use std::io;
use thiserror::Error;

/// What ended the program with status 1 before it traced anything.
#[derive(Debug, Drop, Error)]
pub enum PostError {
    #[error("usage: otel_post HOST")]
    Usage,
    #[error("cannot read the arguments: {0}")]
    Arguments(io::Error),
    #[error("out of memory")]
    OutOfMemory(#[from(alloc)] AllocError),
}
