//! Parts of an SVG file: texts and titles at their places, whatever they say.

ghost use Rattle.std.specs.Prelude.{◌≡◌, OnOk};
ghost use Rattle.opentelemetry.specs.Text.{TextGrows};
ghost use Rattle.otel_picture.specs.SvgParts.{
  down,
  end_label_svg,
  when_text,
  label_svg,
  line_after,
  line_svg,
  mark_svg,
  page_svg,
  place_svg,
  root_svg,
  sign_svg,
  title_svg,
};

use crate::dates::push_moment;
use crate::texts::push_escaped;
use std::alloc::AllocError;
use std::fmt::Write;

/// A line so many lines further on. It stops at the greatest number.
pub(crate) fn line_after(line: u64, count: u64) -> u64
    ensures { result ≡ line_after line count }
{
    line.saturating_add(count)
}

/// How far down a line is, in units, and so much further. It stops at the greatest number.
pub(crate) fn down(line: u64, more: u64) -> u64
    ensures { result ≡ down line more }
{
    line.saturating_mul(20).saturating_add(more)
}

/// Appends a text at a place.
#[tactic(auto, unfolding(crate::specs::SvgParts::label_svg))]
pub(crate) fn push_label(out: &mut String, x: u64, y: u64, label: &str) -> Result<(), AllocError>
    ensures { OnOk result (TextGrows out.old (label_svg x y label.now) out.new) }
{
    write!(out, "<text x=\"{x}\" y=\"{y}\" xml:space=\"preserve\">")?;
    push_escaped(out, label)?;
    out.push_str("</text>")
}

/// Appends a text that ends at a place.
#[tactic(auto, unfolding(crate::specs::SvgParts::end_label_svg))]
pub(crate) fn push_end_label(
    out: &mut String,
    x: u64,
    y: u64,
    label: &str,
) -> Result<(), AllocError>
    ensures { OnOk result (TextGrows out.old (end_label_svg x y label.now) out.new) }
{
    write!(
        out,
        "<text class=\"end\" x=\"{x}\" y=\"{y}\" xml:space=\"preserve\">"
    )?;
    push_escaped(out, label)?;
    out.push_str("</text>")
}

/// Appends what a reader is shown over what stands around it.
#[tactic(auto, unfolding(crate::specs::SvgParts::title_svg))]
pub(crate) fn push_title(out: &mut String, title: &str) -> Result<(), AllocError>
    ensures { OnOk result (TextGrows out.old (title_svg title.now) out.new) }
{
    out.push_str("<title>")?;
    push_escaped(out, title)?;
    out.push_str("</title>")
}

/// Appends a line of a title that names a moment, in nanoseconds since 1970.
#[tactic(auto, unfolding(crate::specs::SvgParts::when_text))]
pub(crate) fn push_when(out: &mut String, name: &str, nanoseconds: u64) -> Result<(), AllocError>
    ensures { OnOk result (TextGrows out.old (when_text name.now nanoseconds) out.new) }
{
    write!(out, "\n{name} ")?;
    push_moment(out, nanoseconds)?;
    write!(out, " ({nanoseconds})")
}

/// Appends the beginning of a mark where an event happened.
#[tactic(auto, unfolding(crate::specs::SvgParts::mark_svg))]
pub(crate) fn push_mark(out: &mut String, x: u64, y: u64) -> Result<(), AllocError>
    ensures { OnOk result (TextGrows out.old (mark_svg x y) out.new) }
{
    write!(out, "<path class=\"event\" d=\"M{x} {y}v14\">")
}

/// Appends the sign in front of the bar of a span that failed.
#[tactic(auto, unfolding(crate::specs::SvgParts::sign_svg))]
pub(crate) fn push_sign(out: &mut String, x: u64, y: u64) -> Result<(), AllocError>
    ensures { OnOk result (TextGrows out.old (sign_svg x y) out.new) }
{
    write!(out, "<text class=\"sign\" x=\"{x}\" y=\"{y}\">!</text>")
}

/// Appends the rest of a bar, after its class.
#[tactic(auto, unfolding(crate::specs::SvgParts::place_svg))]
pub(crate) fn push_place(out: &mut String, x: u64, y: u64, width: u64) -> Result<(), AllocError>
    ensures { OnOk result (TextGrows out.old (place_svg x y width) out.new) }
{
    write!(
        out,
        "\" x=\"{x}\" y=\"{y}\" width=\"{width}\" height=\"12\"/>"
    )
}

/// Appends the line of a tick, from so far down to so far down.
#[tactic(auto, unfolding(crate::specs::SvgParts::line_svg))]
pub(crate) fn push_line(out: &mut String, x: u64, from: u64, to: u64) -> Result<(), AllocError>
    ensures { OnOk result (TextGrows out.old (line_svg x from to) out.new) }
{
    write!(out, "<path class=\"tick\" d=\"M{x} {from}V{to}\"/>")
}

/// Appends the root of a file so high.
#[tactic(auto, unfolding(crate::specs::SvgParts::root_svg))]
pub(crate) fn push_root(out: &mut String, height: u64) -> Result<(), AllocError>
    ensures { OnOk result (TextGrows out.old (root_svg height) out.new) }
{
    write!(
        out,
        "<svg xmlns=\"http://www.w3.org/2000/svg\" viewBox=\"0 0 960 {height}\" width=\"960\" height=\"{height}\">\n"
    )
}

/// Appends the page on which it is drawn.
#[tactic(auto, unfolding(crate::specs::SvgParts::page_svg))]
pub(crate) fn push_page(out: &mut String, height: u64) -> Result<(), AllocError>
    ensures { OnOk result (TextGrows out.old (page_svg height) out.new) }
{
    write!(
        out,
        "<rect class=\"page\" x=\"0\" y=\"0\" width=\"960\" height=\"{height}\"/>\n"
    )
}
