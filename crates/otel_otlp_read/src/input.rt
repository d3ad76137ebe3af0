//! Whole inputs: a document a line, or documents that are laid out over lines.

ghost use Rattle.std.specs.Prelude.{◌≡◌, ◌+◌, ◌++◌, ◌^◌, ◌<◌, ◌≤◌, IfOk, OnOk, length, map};
ghost use Rattle.otel_otlp_read.specs.Cuts.{parts, without_mark};
ghost use Rattle.otel_otlp_read.specs.Inputs.{begins_with_json, is_json, left_fault, of_document, one_if_spanless};
ghost use Rattle.otel_otlp_read.specs.Inputs.{read_document, read_input, read_lines, read_part, read_parts};
ghost use Rattle.otel_otlp_read.specs.Inputs.{read_unmarked, text_lines};

use crate::document::read_document;
use crate::fault::{Fault, ReadError};
use crate::left_out::{ItemPlace, LeftOut};
use crate::lines::{first_line, first_part, is_blank, line_count};
use json::{Scratch, is_valid};
use otel_shown::ShownSpan;
use std::alloc::{AllocError, Global};
use std::marker::Model;

/// A line that could not be read, by its number from 1, and why; or an item of a line that was read without it.
#[derive(Clone, Copy, Debug, PartialEq, Eq)]
pub struct LineFault {
    pub line: u64,
    pub item: Option<ItemPlace>,
    pub fault: Fault,
}

/// What an input holds: the spans of all its documents, in order; the documents that do not read, by their lines, and
/// the parts of others that were left out; and how many requests had no spans.
#[derive(Debug, Drop)]
pub struct ReadText {
    pub spans: Vec<ShownSpan>,
    pub faults: Vec<LineFault>,
    pub spanless: u64,
}

/// Names what was left out.
fn push_left_out(
    faults: &mut Vec<LineFault>,
    line: u64,
    left_out: &[LeftOut],
) -> Result<(), AllocError>
    ensures { OnOk result (faults.new.items ≡ faults.old.items ++ map (left_fault line) left_out.now) }
{
    for left in left_out {
        faults.push(LineFault {
            line,
            item: Some(left.item),
            fault: left.fault,
        })?;
    }
    Ok(())
}

/// 1 where there is no span, and nothing was left out.
fn one_if_spanless(spans: &[ShownSpan], left_out: &[LeftOut]) -> u64
    ensures is { result ≡ one_if_spanless spans.now left_out.now }
    ensures small { result ≤ 1 }
{
    match left_out {
        [] => match spans {
            [] => 1,
            [_, ..] => 0,
        },
        [_, ..] => 0,
    }
}

impl Model for ReadText {
    ghost use Rattle.otel_otlp_read.specs.Inputs.{PlainReadText};

    ghost Value = { PlainReadText };

    ghost view = { λ read. record {
      spans = read.spans.items;
      faults = read.faults.items;
      spanless = read.spanless;
    } };
}

impl ReadText {
    ghost use Rattle.otel_otlp_read.specs.Inputs.{and_read, nothing_read};

    /// Nothing.
    fn new(alloc: Global) -> ReadText
        ensures { result ≡ nothing_read }
    {
        ReadText {
            spans: Vec::new(alloc),
            faults: Vec::new(alloc),
            spanless: 0,
        }
    }

    /// Appends what is read of a document that begins in a line.
    fn add(
        &mut self,
        alloc: Global,
        number: u64,
        text: &[u8],
        scratch: &mut Scratch,
    ) -> Result<(), AllocError>
        requires { self.old.spanless + 1 < 2 ^ 64 }
        ensures { OnOk result (self.new ≡ and_read self.old (of_document number (read_document text.now))) }
    {
        match read_document(alloc, text, scratch) {
            Ok(mut read) => {
                self.spanless += one_if_spanless(&read.spans, &read.left_out);
                push_left_out(&mut self.faults, number, &read.left_out)?;
                self.spans.append(&mut read.spans)
            }
            Err(ReadError::Fault(fault)) => {
                self.faults.push(LineFault {
                    line: number,
                    item: None,
                    fault,
                })?;
                Ok(())
            }
            Err(ReadError::OutOfMemory) => Err(AllocError),
        }
    }

    /// Appends what is read of each line that is not blank, of which the first has this number.
    fn add_lines(
        &mut self,
        alloc: Global,
        first: u64,
        text: &[u8],
        scratch: &mut Scratch,
    ) -> Result<(), AllocError>
        requires room { self.old.spanless + length text.now + 1 < 2 ^ 64 }
        requires few { first + length text.now + 1 < 2 ^ 64 }
        ensures { OnOk result (self.new ≡ and_read self.old (read_lines first (text_lines text.now))) }
    {
        let mut number = first;
        let mut left = Some(text);
        while let Some(rest) = left {
            let (line, after) = first_line(rest);
            if !is_blank(line) {
                self.add(alloc, number, line, scratch)?;
            }
            number += 1;
            left = after;
        }
        Ok(())
    }

    /// Appends what is read of a part that begins in a line.
    #[tactic(auto, unfolding(crate::specs::Inputs::read_part))]
    fn add_part(
        &mut self,
        alloc: Global,
        number: u64,
        text: &[u8],
        scratch: &mut Scratch,
    ) -> Result<(), AllocError>
        requires room { self.old.spanless + length text.now + 1 < 2 ^ 64 }
        requires few { number + length text.now + 1 < 2 ^ 64 }
        ensures { OnOk result (self.new ≡ and_read self.old (read_part number text.now)) }
    {
        if begins_with_json(text, scratch)? || !is_json(text, scratch)? {
            return self.add_lines(alloc, number, text, scratch);
        }
        self.add(alloc, number, text, scratch)
    }
}

/// Whether a text is JSON.
fn is_json(text: &[u8], scratch: &mut Scratch) -> Result<bool, AllocError>
    ensures { IfOk result (λ is. is ≡ is_json text.now) }
{
    match str::from_utf8(text) {
        Ok(text) => is_valid(text, scratch),
        Err(_) => Ok(false),
    }
}

/// Whether the first line that is not blank is JSON, if there is one.
fn begins_with_json(text: &[u8], scratch: &mut Scratch) -> Result<bool, AllocError>
    ensures { IfOk result (λ is. is ≡ begins_with_json (text_lines text.now)) }
{
    let mut left = Some(text);
    while let Some(rest) = left {
        let (line, after) = first_line(rest);
        if !is_blank(line) {
            return is_json(line, scratch);
        }
        left = after;
    }
    Ok(true)
}

/// Reads the parts of a text.
fn read_parts(alloc: Global, text: &[u8], scratch: &mut Scratch) -> Result<ReadText, AllocError>
    ensures { IfOk result (λ read. read ≡ read_parts 1 (parts text.now)) }
{
    let mut read = ReadText::new(alloc);
    let mut number: u64 = 1;
    let mut left = Some(text);
    while let Some(rest) = left {
        let (part, after) = first_part(rest);
        read.add_part(alloc, number, part, scratch)?;
        number += line_count(part);
        left = after;
    }
    Ok(read)
}

/// Reads a text as one part.
fn read_whole(alloc: Global, text: &[u8], scratch: &mut Scratch) -> Result<ReadText, AllocError>
    ensures { IfOk result (λ read. read ≡ read_part 1 text.now) }
{
    let mut read = ReadText::new(alloc);
    read.add_part(alloc, 1, text, scratch)?;
    Ok(read)
}

/// Reads an input without a mark in front of it.
#[tactic(auto, unfolding(crate::specs::Inputs::read_unmarked))]
fn read_unmarked(alloc: Global, text: &[u8], scratch: &mut Scratch) -> Result<ReadText, AllocError>
    ensures { IfOk result (λ read. read ≡ read_unmarked text.now) }
{
    if begins_with_json(text, scratch)? || is_json(text, scratch)? {
        return read_whole(alloc, text, scratch);
    }
    read_parts(alloc, text, scratch)
}

/// The bytes that may stand in front of a text, to say that it is UTF-8.
const MARK: [u8; 3] = [0xef, 0xbb, 0xbf];

/// A text without these.
fn without_mark(text: &[u8]) -> &[u8]
    ensures { result.now ≡ without_mark text.now }
{
    if text.starts_with(&MARK) {
        &text[3..]
    } else {
        text
    }
}

/// Reads an input: each line that is not blank is a document, lines counted from 1. Where the first such line is no
/// JSON, the text as a whole may be one document, or each part of it that begins with a brace at the front of a line,
/// as in a file that is laid out for people. What does not read is named with its line, and all else is there.
/// Requests without spans, as those of metrics and logs, are counted. Fails only where memory runs out.
#[tactic(auto, unfolding(crate::specs::Inputs::read_input))]
pub fn read_text(alloc: Global, text: &[u8]) -> Result<ReadText, AllocError>
    ensures { IfOk result (λ read. read ≡ read_input text.now) }
{
    let mut scratch = Scratch::new(alloc);
    read_unmarked(alloc, without_mark(text), &mut scratch)
}
