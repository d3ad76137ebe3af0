// SPDX-License-Identifier: Apache-2.0
//! Spans as pictures and summaries of traces show them, whoever made them: what a drawing asks of a span, and the texts
//! of it.
#![tactic(auto)]

mod shown_event;
mod shown_link;
mod shown_resource;
mod shown_span;

pub use shown_event::ShownEvent;
pub use shown_link::ShownLink;
pub use shown_resource::ShownResource;
pub use shown_span::ShownSpan;
