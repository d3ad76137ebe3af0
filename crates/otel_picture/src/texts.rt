//! Texts of pictures: names as the text form shows them, cut to the room that they have, and what SVG escapes. A room is
//! counted in columns of a terminal.

ghost use Rattle.std.specs.Prelude.{◌≡◌, ◌<◌, [], IfOk, OnOk, encode_utf8, if◌then◌else◌};
ghost use Rattle.std.specs.Str.{chars};
ghost use Rattle.opentelemetry.specs.Text.{TextGrows};
ghost use Rattle.otel_picture.specs.Texts.{
  at_right,
  char_columns,
  columns_left,
  cut_text,
  escaped_char,
  escaped_text,
  fitting_text,
  in_room,
  is_control,
  is_hidden,
  is_xml_char,
  numbered_char,
  room_after,
  room_left,
  room_of,
  shown_char,
  shown_text,
  times,
};

use std::alloc::AllocError;
use std::fmt::Write;
use unicode_width::UnicodeWidthChar;

fn is_control(c: char) -> bool
    ensures { result ≡ is_control c }
{
    let code = c as u32;
    code < 32 || code >= 127 && code < 160
}

/// Whether a character shows nothing, or changes where others stand.
fn is_hidden(c: char) -> bool
    ensures { result ≡ is_hidden c }
{
    let code = c as u32;
    code == 0x61c
        || code == 0x180e
        || code >= 0x200b && code <= 0x200f
        || code >= 0x2028 && code <= 0x202e
        || code >= 0x2060 && code <= 0x206f
        || code == 0xfeff
}

/// Appends the number of a character.
fn push_number(out: &mut String, c: char) -> Result<(), AllocError>
    ensures { OnOk result (TextGrows out.old (numbered_char c) out.new) }
{
    let code = c as u32;
    write!(out, "\\u{{{code:x}}}")
}

fn push_shown_char(out: &mut String, c: char) -> Result<(), AllocError>
    ensures { OnOk result (TextGrows out.old (shown_char c) out.new) }
{
    if is_control(c) {
        let code = c as u32;
        let high = code / 16;
        let low = code % 16;
        write!(out, "\\x{high:x}{low:x}")
    } else if is_hidden(c) {
        push_number(out, c)
    } else {
        out.push(c)
    }
}

/// Appends a text with its control characters as `\xNN`, and those that show nothing as `\u{202e}`.
pub(crate) fn push_shown(out: &mut String, text: &str) -> Result<(), AllocError>
    ensures { OnOk result (TextGrows out.old (shown_text text.now) out.new) }
{
    for c in text.chars() {
        push_shown_char(out, c)?;
    }
    Ok(())
}

fn is_xml_char(c: char) -> bool
    ensures { result ≡ is_xml_char c }
{
    let code = c as u32;
    code >= 32 && code != 65534 && code != 65535 || code == 9 || code == 10 || code == 13
}

fn push_escaped_char(out: &mut String, c: char) -> Result<(), AllocError>
    ensures { OnOk result (TextGrows out.old (escaped_char c) out.new) }
{
    match c {
        '<' => out.push_str("&lt;"),
        '>' => out.push_str("&gt;"),
        '&' => out.push_str("&amp;"),
        '"' => out.push_str("&quot;"),
        _ if is_hidden(c) => push_number(out, c),
        _ if is_xml_char(c) => out.push(c),
        _ => out.push('\u{fffd}'),
    }
}

/// Appends a text escaped for XML.
pub(crate) fn push_escaped(out: &mut String, text: &str) -> Result<(), AllocError>
    ensures { OnOk result (TextGrows out.old (escaped_text (chars text.now)) out.new) }
{
    for c in text.chars() {
        push_escaped_char(out, c)?;
    }
    Ok(())
}

/// Appends a character so many times.
pub(crate) fn push_times(out: &mut String, c: char, count: usize) -> Result<(), AllocError>
    requires { c < 128 }
    ensures { OnOk result (TextGrows out.old (times count c) out.new) }
{
    for _ in 0..count {
        out.push(c)?;
    }
    Ok(())
}

/// The room that characters have: how many columns are left of it, and whether each so far had its own.
#[derive(Clone, Copy, Debug, PartialEq, Eq)]
struct Room {
    left: usize,
    is_open: bool,
}

/// How many columns a character takes.
fn columns_of(c: char) -> usize
    ensures { result ≡ char_columns c }
{
    c.width().unwrap_or(0)
}

impl Room {
    fn of(columns: usize) -> Room
        ensures { result ≡ room_of columns }
    {
        Room {
            left: columns,
            is_open: true,
        }
    }

    /// What is left after one more character. A room that one did not find place in stays shut to those after it.
    fn after(self, c: char) -> Room
        ensures { result ≡ room_after self c }
    {
        let columns = columns_of(c);
        if self.is_open && columns <= self.left {
            Room {
                left: self.left - columns,
                is_open: true,
            }
        } else {
            Room {
                left: self.left,
                is_open: false,
            }
        }
    }
}

/// What a text leaves of a room.
fn room_left(text: &str, room: Room) -> Room
    ensures { result ≡ room_left room (chars text.now) }
{
    let mut left = room;
    for c in text.chars() {
        left = left.after(c);
    }
    left
}

/// Appends a character where it finds place.
fn push_where(out: &mut String, c: char, finds_place: bool) -> Result<(), AllocError>
    ensures { OnOk result (TextGrows out.old (if finds_place then encode_utf8 c else []) out.new) }
{
    if finds_place {
        out.push(c)?;
    }
    Ok(())
}

/// Appends the beginning of a text that finds place in a room, and says what it leaves of that.
fn push_fitting(out: &mut String, text: &str, room: Room) -> Result<Room, AllocError>
    ensures text { OnOk result (TextGrows out.old (fitting_text room (chars text.now)) out.new) }
    ensures left { IfOk result (λ left. left ≡ room_left room (chars text.now)) }
{
    let mut left = room;
    for c in text.chars() {
        left = left.after(c);
        push_where(out, c, left.is_open)?;
    }
    Ok(left)
}

/// Appends a text, cut before an ellipsis where it takes more than so many columns, and says how many it leaves.
pub(crate) fn push_cut(out: &mut String, text: &str, columns: usize) -> Result<usize, AllocError>
    ensures text { OnOk result (TextGrows out.old (cut_text columns text.now) out.new) }
    ensures left { IfOk result (λ left. left ≡ columns_left columns text.now) }
{
    let whole = room_left(text, Room::of(columns));
    if whole.is_open {
        out.push_str(text)?;
        return Ok(whole.left);
    }
    let cut = push_fitting(out, text, Room::of(columns.saturating_sub(1)))?;
    out.push('…')?;
    Ok(cut.left)
}

/// Appends a text in a room of so many columns: cut, and with blanks after it.
pub(crate) fn push_in_room(out: &mut String, text: &str, columns: usize) -> Result<(), AllocError>
    ensures { OnOk result (TextGrows out.old (in_room columns text.now) out.new) }
{
    let left = push_cut(out, text, columns)?;
    push_times(out, ' ', left)
}

/// Appends a text of ASCII at the right of a room of so many columns.
pub(crate) fn push_at_right(out: &mut String, text: &str, columns: usize) -> Result<(), AllocError>
    ensures { OnOk result (TextGrows out.old (at_right columns text.now) out.new) }
{
    push_times(out, ' ', columns.saturating_sub(text.len()))?;
    out.push_str(text)
}
