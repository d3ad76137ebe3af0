//! The attributes that the mode `otlp` is given, as `key=value,key=value`: which of them does not read.

ghost use Rattle.std.specs.Prelude.{IsTrue, map, option_copied, string_bytes, ◌↔◌};
ghost use Rattle.opentelemetry.specs.Members.{comma, pieces_at};
ghost use Rattle.otel_trace_run.specs.GivenAttributes.{FirstUnread, GivesUnread, ReadsMember};

/// The first member that does not read, of the first of these words; none where each reads.
pub(crate) fn unread_member(given: &[String]) -> Option<&str>
    ensures { GivesUnread (map string_bytes given.now) (option_copied result) }
{
    match given {
        [] => None,
        [text, ..] => first_unread(text.as_str()),
    }
}

/// The first member of an attributes string that does not read; none where each reads.
fn first_unread(text: &str) -> Option<&str>
    ensures { FirstUnread (pieces_at comma text.now) (option_copied result) }
{
    'members: for member in text.split(',') {
        if !reads_member(member) {
            return Some(member);
        }
    }
    None
}

/// Whether a member reads. An empty one says nothing.
fn reads_member(member: &str) -> bool
    ensures { IsTrue result ↔ ReadsMember member.now }
{
    if member.is_empty() {
        return true;
    }
    match member.split_once('=') {
        Some((key, _)) => !key.trim().is_empty(),
        None => false,
    }
}
