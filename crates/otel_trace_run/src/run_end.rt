//! How a run over an input ended.

use crate::reason::Reason;

/// How a run over an input ended.
#[derive(Clone, Copy, Debug, PartialEq, Eq)]
pub enum RunEnd {
    /// At the end of the input.
    Done,
    /// At the end of the input, where spans are drawn and there is none.
    Empty,
    /// At its first bad line, which has this number, from 1 and with empty lines counted, and why it reads as no command,
    /// where it was to be one.
    BadLine(u64, Option<Reason>),
    /// Reading, writing, closing or memory failed, or a batch was lost.
    Failed,
}
