// SPDX-License-Identifier: Apache-2.0
//! Pictures of traces, from spans of any producer: a block a trace, in the order in which traces first come, and in it a
//! row a span, children after their parent by start, then by order of export. `specs/RowTexts.antt` says what the text
//! form writes, `specs/SvgTexts.antt` what the SVG form does, `specs/Summaries.antt` what a summary does, and
//! `specs/Choices.antt` which traces are drawn.
//!
//! A row of the text form is as wide as the columns that it is given, 20 to 400. Of these, numbers take 18 from 48
//! columns on, the offset and the length of a span, and from 96 on 9 more, the time in which none of its children ran;
//! of the others the name takes two fifths and the bar the rest. Two blanks a level stand in front of a name. `~` stands
//! before one whose parent is not in the picture, `@` and the service after it where a trace has several, and the kind
//! where it is not internal. A name is cut by the columns that it takes, with an ellipsis. `·` in a bar is an event, `!`
//! before it says that the span failed, and what went wrong stands on a line of its own, after `!`, as an exception does,
//! after `*`, a link, after `>`, which stands before the name too, and what is odd, after `?`. Of a circle of parents the
//! first span stands as a root.
#![tactic(auto)]

mod axis;
pub mod bar;
pub mod choice;
mod dates;
mod details;
mod durations;
pub mod families;
mod html;
mod html_data;
mod html_list;
mod html_style;
mod html_trace;
pub mod laws;
pub mod layout;
mod odd;
mod roots;
mod row_text;
pub mod rows;
mod sheet;
pub mod summary;
pub mod svg;
mod svg_notes;
mod svg_parts;
mod svg_row;
mod texts;
pub mod trace;
pub mod traces;
mod turns;
pub mod write_text;
