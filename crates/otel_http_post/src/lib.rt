// SPDX-License-Identifier: Apache-2.0
//! Posts over a stream that its host opened: the text of a request with its body, and the reading of its answer.
#![tactic(auto)]

mod answer;
mod body;
mod count;
mod endpoint;
mod error;
mod head;
mod inbox;
mod post;
mod retry_after;

pub use answer::{Answer, read_answer};
pub use count::read_count;
pub use endpoint::Endpoint;
pub use error::{AnswerError, PostError};
pub use post::{Post, make_post};
