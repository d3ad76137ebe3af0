//! The lines under the row of a span: its exceptions and its links, and where they are asked for its attributes and its
//! other events. What is said of an exception comes from the attributes of its event, which are lines `key=value`.

ghost use Rattle.std.specs.Prelude.{◌≡◌, None, Some, if◌then◌else◌, option_map, string_bytes, IfOk, OnOk};
ghost use Rattle.std.specs.List.{after_first, flat_map};
ghost use Rattle.opentelemetry.specs.Text.{TextGrows};
ghost use Rattle.otel_picture.specs.Details.{
  attribute_text,
  attributes_text,
  detail_text,
  details_text,
  event_line,
  event_text,
  exception_text,
  has_key,
  is_equals,
  is_exception,
  lines_in,
  link_lines,
  link_text,
  part_text,
  value_in,
};
ghost use Rattle.otel_picture.specs.Texts.{shown_text};

use crate::texts::{push_cut, push_shown, push_times};
use otel_shown::{ShownEvent, ShownLink, ShownSpan};
use std::alloc::{AllocError, Global};
use std::fmt::Write;

/// The value of a line of attributes that is of this key.
fn value_under<'a>(line: &'a str, key: &str) -> Option<&'a str>
    ensures { option_map (λ value. value.now) result
        ≡ (if has_key key.now line.now then Some (after_first is_equals line.now) else None) }
{
    match line.split_once('=') {
        Some((found, value)) if found == key => Some(value),
        _ => None,
    }
}

/// The value of a key in lines of attributes, as far as its first line.
fn value_in<'a>(attributes: &'a str, key: &str) -> Option<&'a str>
    ensures { option_map (λ value. value.now) result ≡ value_in key.now (lines_in attributes.now) }
{
    for line in attributes.split('\n') {
        if let Some(value) = value_under(line, key) {
            return Some(value);
        }
    }
    None
}

/// Appends a part of what is said of an exception, after a sign, if it is there.
fn push_part(out: &mut String, sign: &str, part: Option<&str>) -> Result<(), AllocError>
    ensures { OnOk result
        (TextGrows out.old (part_text sign.now (option_map (λ text. text.now) part.entry)) out.new) }
{
    match part {
        Some(text) => {
            out.push_str(sign)?;
            push_shown(out, text)
        }
        None => Ok(()),
    }
}

/// What is said of an exception by its attributes.
pub(crate) fn exception_of(alloc: Global, attributes: &str) -> Result<String, AllocError>
    ensures { IfOk result (λ said. string_bytes said ≡ exception_text attributes.now) }
{
    let mut said = String::from_str(alloc, "exception")?;
    push_part(&mut said, " ", value_in(attributes, "exception.type"))?;
    push_part(&mut said, ": ", value_in(attributes, "exception.message"))?;
    push_part(
        &mut said,
        " | ",
        value_in(attributes, "exception.stacktrace"),
    )?;
    Ok(said)
}

/// Whether an event says that there was an exception.
pub(crate) fn is_exception(event: &ShownEvent) -> bool
    ensures { result ≡ is_exception event.now }
{
    event.name.as_str() == "exception"
}

/// The ids of a link's span.
pub(crate) fn link_of(alloc: Global, link: &ShownLink) -> Result<String, AllocError>
    ensures { IfOk result (λ said. string_bytes said ≡ link_text link.now) }
{
    let trace_id = link.trace_id;
    let span_id = link.span_id;
    let mut said = String::new(alloc);
    write!(said, "{trace_id} {span_id}")?;
    Ok(said)
}

/// Where the lines under a row stand: how wide a row is, how far its name is moved in, and whether attributes stand there.
#[derive(Clone, Copy, Debug, PartialEq, Eq)]
pub(crate) struct Under {
    pub(crate) columns: usize,
    pub(crate) indent: usize,
    pub(crate) has_attributes: bool,
}

impl Under {
    /// Appends a line: a sign and a blank, and a text that is cut at the edge.
    pub(crate) fn push_line(
        self,
        text: &mut String,
        sign: &str,
        said: &str,
    ) -> Result<(), AllocError>
        ensures { OnOk result (TextGrows text.old (detail_text self sign.now said.now) text.new) }
    {
        push_times(text, ' ', self.indent)?;
        text.push_str(sign)?;
        let columns = self.columns.saturating_sub(self.indent).saturating_sub(2);
        push_cut(text, said, columns)?;
        text.push('\n')
    }

    /// Appends a line whose text is shown as a name is.
    fn push_shown_line(
        self,
        alloc: Global,
        text: &mut String,
        sign: &str,
        said: &str,
    ) -> Result<(), AllocError>
        ensures { OnOk result (TextGrows text.old (detail_text self sign.now (shown_text said.now)) text.new) }
    {
        let mut shown = String::new(alloc);
        push_shown(&mut shown, said)?;
        self.push_line(text, sign, shown.as_str())
    }

    /// Appends a line of attributes; none of an empty one.
    fn push_attribute(self, alloc: Global, text: &mut String, line: &str) -> Result<(), AllocError>
        ensures { OnOk result (TextGrows text.old (attribute_text self line.now) text.new) }
    {
        if line.is_empty() {
            return Ok(());
        }
        self.push_shown_line(alloc, text, "- ", line)
    }

    /// Appends the lines of attributes.
    fn push_lines(
        self,
        alloc: Global,
        text: &mut String,
        attributes: &str,
    ) -> Result<(), AllocError>
        ensures { OnOk result
            (TextGrows text.old (flat_map (attribute_text self) (lines_in attributes.now)) text.new) }
    {
        for line in attributes.split('\n') {
            self.push_attribute(alloc, text, line)?;
        }
        Ok(())
    }

    /// Appends attributes, where they are asked for.
    fn push_attributes(
        self,
        alloc: Global,
        text: &mut String,
        attributes: &str,
    ) -> Result<(), AllocError>
        ensures { OnOk result (TextGrows text.old (attributes_text self attributes.now) text.new) }
    {
        if self.has_attributes {
            return self.push_lines(alloc, text, attributes);
        }
        Ok(())
    }

    /// Appends the line of an exception, or of another event where attributes are asked for.
    fn push_event_line(
        self,
        alloc: Global,
        text: &mut String,
        event: &ShownEvent,
    ) -> Result<(), AllocError>
        ensures { OnOk result (TextGrows text.old (event_line self event.now) text.new) }
    {
        if is_exception(event) {
            let said = exception_of(alloc, event.attributes.as_str())?;
            return self.push_line(text, "* ", said.as_str());
        }
        if self.has_attributes {
            return self.push_shown_line(alloc, text, "* ", event.name.as_str());
        }
        Ok(())
    }

    /// Appends an event and its attributes.
    fn push_event(
        self,
        alloc: Global,
        text: &mut String,
        event: &ShownEvent,
    ) -> Result<(), AllocError>
        ensures { OnOk result (TextGrows text.old (event_text self event.now) text.new) }
    {
        self.push_event_line(alloc, text, event)?;
        self.push_attributes(alloc, text, event.attributes.as_str())
    }

    /// Appends events.
    fn push_events(
        self,
        alloc: Global,
        text: &mut String,
        events: &[ShownEvent],
    ) -> Result<(), AllocError>
        ensures { OnOk result (TextGrows text.old (flat_map (event_text self) events.now) text.new) }
    {
        for event in events {
            self.push_event(alloc, text, event)?;
        }
        Ok(())
    }

    /// Appends a link and its attributes.
    fn push_link(self, alloc: Global, text: &mut String, link: &ShownLink) -> Result<(), AllocError>
        ensures { OnOk result (TextGrows text.old (link_lines self link.now) text.new) }
    {
        let said = link_of(alloc, link)?;
        self.push_line(text, "> ", said.as_str())?;
        self.push_attributes(alloc, text, link.attributes.as_str())
    }

    /// Appends links.
    fn push_links(
        self,
        alloc: Global,
        text: &mut String,
        links: &[ShownLink],
    ) -> Result<(), AllocError>
        ensures { OnOk result (TextGrows text.old (flat_map (link_lines self) links.now) text.new) }
    {
        for link in links {
            self.push_link(alloc, text, link)?;
        }
        Ok(())
    }

    /// Appends all that stands under the row of a span, but what went wrong.
    pub(crate) fn push_details(
        self,
        alloc: Global,
        text: &mut String,
        span: &ShownSpan,
    ) -> Result<(), AllocError>
        ensures { OnOk result (TextGrows text.old (details_text self span.now) text.new) }
    {
        self.push_attributes(alloc, text, span.attributes.as_str())?;
        self.push_events(alloc, text, &span.events)?;
        self.push_links(alloc, text, &span.links)
    }
}
