//! The batch queue as a machine of small steps: producers offer ended spans to a queue of bounded length, and one worker
//! drains it into batches for an exporter. A caller takes one step at a time, or a list of them, in any order and
//! interleaving; a step that is not enabled changes nothing. What is proved of lists of steps holds of steps taken
//! singly too: a step is a run of one step, runs are joined, and what `BatchMachine::run` says of its steps is a law of
//! runs (`laws`).

pub mod batch_machine;
mod kept_batches;
mod producer_steps;
mod queue;
mod runs;
mod slots;
pub mod span_queue;
pub mod state;
pub mod step;
mod worker_steps;

pub use batch_machine::BatchMachine;
pub use span_queue::SpanQueue;
pub use state::{Message, Request, Slot, Why, Worker};
pub use step::{Outcome, Step};
