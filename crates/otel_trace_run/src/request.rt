//! What the program's arguments ask for.

ghost use Rattle.std.specs.Prelude.{◌≡◌, map, string_bytes};
ghost use Rattle.otel_trace_run.specs.Requests.{found_or, page, plain_request, request_in};
ghost use Rattle.otel_trace_run.specs.WrongWords.{refusal_in};

use crate::asked_view::{View, view_of};
use crate::mode::{Mode, mode_of};
use crate::pages::{Page, help_of, is_help, is_version, version_of};
use crate::wrong_words::{Refusal, refusal_of};

/// What the arguments ask for.
#[derive(Clone, Copy)]
pub enum Request<'w> {
    Page(Page),
    View(View),
    Mode(Mode<'w>),
    /// They ask for nothing, and this is said of them.
    Nothing(Refusal<'w>),
}

/// What the arguments, which are these words without the program's name, ask for.
#[tactic(auto, unfolding(crate::specs::Requests::request_in))]
pub fn request_of(words: &[String]) -> Request<'_>
    ensures { plain_request result ≡ request_in (map string_bytes words.now) }
{
    let Some((word, after)) = words.split_first() else {
        return Request::Nothing(refusal_of(words));
    };
    let word = word.as_str();
    if is_help(word) {
        return page_or(words, help_of(after));
    }
    if is_version(word) {
        return page_or(words, version_of(after));
    }
    if word == "view" {
        return match view_of(after) {
            Some(view) => Request::View(view),
            None => Request::Nothing(refusal_of(words)),
        };
    }
    match mode_of(word, after) {
        Some(mode) => Request::Mode(mode),
        None => Request::Nothing(refusal_of(words)),
    }
}

/// The page that was found for words, or nothing.
fn page_or(words: &[String], found: Option<Page>) -> Request<'_>
    ensures { plain_request result ≡ found_or (refusal_in (map string_bytes words.now)) page found }
{
    match found {
        Some(page) => Request::Page(page),
        None => Request::Nothing(refusal_of(words)),
    }
}
