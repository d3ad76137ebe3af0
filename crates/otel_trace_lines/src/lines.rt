//! The text that a session is fed, read as commands of a dialect. Reading stops at the first line that is no command.

ghost use Rattle.std.specs.Prelude.{◌≡◌, ℕ, ◌<◌, List, [], ◌∷◌, ◌++◌, length, Option, None, Some, IfOk, IsOk, IsTrue, ◌↔◌, MatchOption, codes, position, ◌==◌};
ghost use Rattle.std.specs.Str.Lines.{lines as lines_of, strip_carriage_return};
ghost use Rattle.otel_trace_lines.specs.Commands.{PlainCommand, plain_commands};
ghost use Rattle.otel_trace_lines.specs.Dialects.{HasFixedFields};
ghost use Rattle.otel_trace_lines.specs.Found.{
  AreFields,
  AreFieldsIn,
  FieldsGive,
  FieldsGiveIn,
  IsCommand,
  LineGives,
  WordGives,
};
ghost use Rattle.otel_trace_lines.specs.Lines.{SpellsNothing, TextSpells, field};

use crate::command::Command;
use crate::dialect::Dialect;
use crate::extended::{bool_of, exception_of, float_of, forget_of, int_of, link_of};
use crate::fields::{
    field_and_moment, first_field, first_line, is_field, moment_and_attribute, moment_and_kind,
    moment_of, read_status, three_fields_and_rest, two_fields_and_rest,
};
use opentelemetry::Moment;
use opentelemetry::trace::Status;
use std::alloc::{AllocError, Global};

/// What a text spells up to its first bad line.
#[derive(Debug, Drop)]
pub struct Script {
    /// The commands of the lines before the first bad one.
    pub commands: Vec<Command>,
    /// The number of the first bad line, from 1 and with empty lines counted; none where each line reads.
    pub bad_line: Option<u64>,
}

/// Reads the lines of a text up to the first that is no command of a dialect. Fails only where memory runs out, which
/// is wanted for commands alone.
pub fn parse(alloc: Global, dialect: Dialect, text: &[u8]) -> Result<Script, AllocError>
    ensures spelled { IfOk result (λ script.
        TextSpells dialect text.now (plain_commands script.commands.items) script.bad_line) }
    // The text spells nothing else.
    ensures only { IfOk result (λ script. (commands : List PlainCommand) (bad_line : Option ℕ)
        → TextSpells dialect text.now commands bad_line
        → (commands ≡ plain_commands script.commands.items) × (bad_line ≡ script.bad_line)) }
    ensures free { SpellsNothing dialect text.now → IsOk result }
{
    let mut commands = Vec::new(alloc);
    let mut number: u64 = 0;
    let mut rest = text;
    while let Some((line, after)) = first_line(rest) {
        rest = after;
        number += 1;
        let content = dialect.without_comment(line);
        if content.is_empty() {
            continue;
        }
        match command_of(alloc, dialect, content)? {
            Some(command) => commands.push(command)?,
            None => {
                return Ok(Script {
                    commands,
                    bad_line: Some(number),
                });
            }
        }
    }
    Ok(Script {
        commands,
        bad_line: None,
    })
}

/// The command as which a line reads. Memory is wanted for the texts of a command alone.
fn command_of(alloc: Global, dialect: Dialect, line: &[u8]) -> Result<Option<Command>, AllocError>
    ensures found { IfOk result (LineGives dialect line.now) }
    ensures free { ¬ IsCommand dialect line.now → IsOk result }
{
    let Ok(text) = str::from_utf8(line) else {
        return Ok(None);
    };
    match first_field(text) {
        Some((word, fields)) => {
            if !dialect.has_word(word) {
                return Ok(None);
            }
            command_with_fields(alloc, dialect, word, fields)
        }
        None => Ok(command_of_word(text)),
    }
}

/// The command of a line that is a word alone.
fn command_of_word(word: &str) -> Option<Command>
    ensures { WordGives word.now result }
{
    match word {
        "flush" => Some(Command::Flush),
        "shutdown" => Some(Command::Shutdown),
        _ => None,
    }
}

/// The command of a word and the fields after it.
fn command_with_fields(
    alloc: Global,
    dialect: Dialect,
    word: &str,
    fields: &str,
) -> Result<Option<Command>, AllocError>
    ensures found { IfOk result (FieldsGiveIn dialect word.now fields.now) }
    ensures free { ¬ AreFieldsIn dialect word.now fields.now → IsOk result }
{
    match word {
        "start" => start_of(alloc, dialect, fields),
        "child" => child_of(alloc, dialect, fields),
        "remote" => remote_of(alloc, dialect, fields),
        "event" => event_of(alloc, dialect, fields),
        _ => other_with_fields(alloc, word, fields),
    }
}

/// The same of a word after which the grammars have the same fields.
fn other_with_fields(alloc: Global, word: &str, fields: &str) -> Result<Option<Command>, AllocError>
    requires { HasFixedFields word.now }
    ensures found { IfOk result (FieldsGive word.now fields.now) }
    ensures free { ¬ AreFields word.now fields.now → IsOk result }
{
    match word {
        "attr" => attr_of(alloc, fields),
        "status" => status_of(alloc, fields),
        "inject" => inject_of(alloc, fields),
        "end" => end_of(alloc, fields),
        "run" => Ok(run_of(fields)),
        "int" => int_of(alloc, fields),
        "bool" => bool_of(alloc, fields),
        "float" => float_of(alloc, fields),
        "link" => link_of(alloc, fields),
        "exception" => exception_of(alloc, fields),
        "forget" => forget_of(alloc, fields),
        _ => Ok(None),
    }
}

/// The fields of `start SPAN NAME MOMENT`, and in the extended grammar maybe a kind after them.
fn start_of(alloc: Global, dialect: Dialect, fields: &str) -> Result<Option<Command>, AllocError>
    ensures found { IfOk result (FieldsGiveIn dialect (codes "start") fields.now) }
    ensures free { ¬ AreFieldsIn dialect (codes "start") fields.now → IsOk result }
{
    let Some((span, name, rest)) = two_fields_and_rest(fields) else {
        return Ok(None);
    };
    let Some((moment, kind)) = moment_and_kind(dialect, rest) else {
        return Ok(None);
    };
    Ok(Some(Command::Start {
        span: String::from_str(alloc, span)?,
        name: String::from_str(alloc, name)?,
        moment,
        kind,
    }))
}

/// The fields of `child SPAN PARENT NAME MOMENT`, and in the extended grammar maybe a kind after them.
fn child_of(alloc: Global, dialect: Dialect, fields: &str) -> Result<Option<Command>, AllocError>
    ensures found { IfOk result (FieldsGiveIn dialect (codes "child") fields.now) }
    ensures free { ¬ AreFieldsIn dialect (codes "child") fields.now → IsOk result }
{
    let Some((span, parent, name, rest)) = three_fields_and_rest(fields) else {
        return Ok(None);
    };
    let Some((moment, kind)) = moment_and_kind(dialect, rest) else {
        return Ok(None);
    };
    Ok(Some(Command::Child {
        span: String::from_str(alloc, span)?,
        parent: String::from_str(alloc, parent)?,
        name: String::from_str(alloc, name)?,
        moment,
        kind,
    }))
}

/// The fields of `remote SPAN TRACEPARENT NAME MOMENT`, and in the extended grammar maybe a kind after them.
fn remote_of(alloc: Global, dialect: Dialect, fields: &str) -> Result<Option<Command>, AllocError>
    ensures found { IfOk result (FieldsGiveIn dialect (codes "remote") fields.now) }
    ensures free { ¬ AreFieldsIn dialect (codes "remote") fields.now → IsOk result }
{
    let Some((span, traceparent, name, rest)) = three_fields_and_rest(fields) else {
        return Ok(None);
    };
    let Some((moment, kind)) = moment_and_kind(dialect, rest) else {
        return Ok(None);
    };
    Ok(Some(Command::Remote {
        span: String::from_str(alloc, span)?,
        traceparent: String::from_str(alloc, traceparent)?,
        name: String::from_str(alloc, name)?,
        moment,
        kind,
    }))
}

/// The fields of `attr SPAN KEY VALUE`. The value is the rest of the line and may be empty or have spaces in it.
fn attr_of(alloc: Global, fields: &str) -> Result<Option<Command>, AllocError>
    ensures found { IfOk result (FieldsGive (codes "attr") fields.now) }
    ensures free { ¬ AreFields (codes "attr") fields.now → IsOk result }
{
    let Some((span, rest)) = first_field(fields) else {
        return Ok(None);
    };
    let Some((key, value)) = first_field(rest) else {
        return Ok(None);
    };
    Ok(Some(Command::Attr {
        span: String::from_str(alloc, span)?,
        key: String::from_str(alloc, key)?,
        value: String::from_str(alloc, value)?,
    }))
}

/// The fields of `event SPAN NAME MOMENT`, and in the extended grammar maybe a key and a value after them.
fn event_of(alloc: Global, dialect: Dialect, fields: &str) -> Result<Option<Command>, AllocError>
    ensures found { IfOk result (FieldsGiveIn dialect (codes "event") fields.now) }
    ensures free { ¬ AreFieldsIn dialect (codes "event") fields.now → IsOk result }
{
    let Some((span, name, rest)) = two_fields_and_rest(fields) else {
        return Ok(None);
    };
    if let Some(moment) = moment_of(rest) {
        return Ok(Some(Command::Event {
            span: String::from_str(alloc, span)?,
            name: String::from_str(alloc, name)?,
            moment,
        }));
    }
    let Some((moment, key, value)) = moment_and_attribute(dialect, rest) else {
        return Ok(None);
    };
    Ok(Some(Command::EventWithAttribute {
        span: String::from_str(alloc, span)?,
        name: String::from_str(alloc, name)?,
        moment,
        key: String::from_str(alloc, key)?,
        value: String::from_str(alloc, value)?,
    }))
}

/// The fields of `status SPAN STATUS`.
fn status_of(alloc: Global, fields: &str) -> Result<Option<Command>, AllocError>
    ensures found { IfOk result (FieldsGive (codes "status") fields.now) }
    ensures free { ¬ AreFields (codes "status") fields.now → IsOk result }
{
    let Some((span, rest)) = first_field(fields) else {
        return Ok(None);
    };
    let Some(status) = read_status(alloc, rest)? else {
        return Ok(None);
    };
    Ok(Some(Command::Status {
        span: String::from_str(alloc, span)?,
        status,
    }))
}

/// The field of `inject SPAN`.
fn inject_of(alloc: Global, field: &str) -> Result<Option<Command>, AllocError>
    ensures found { IfOk result (FieldsGive (codes "inject") field.now) }
    ensures free { ¬ AreFields (codes "inject") field.now → IsOk result }
{
    if !is_field(field) {
        return Ok(None);
    }
    Ok(Some(Command::Inject {
        span: String::from_str(alloc, field)?,
    }))
}

/// The fields of `end SPAN MOMENT`.
fn end_of(alloc: Global, fields: &str) -> Result<Option<Command>, AllocError>
    ensures found { IfOk result (FieldsGive (codes "end") fields.now) }
    ensures free { ¬ AreFields (codes "end") fields.now → IsOk result }
{
    let Some((span, moment)) = field_and_moment(fields) else {
        return Ok(None);
    };
    Ok(Some(Command::End {
        span: String::from_str(alloc, span)?,
        moment,
    }))
}

/// The field of `run MOMENT`.
fn run_of(field: &str) -> Option<Command>
    ensures { FieldsGive (codes "run") field.now result }
{
    let moment = moment_of(field)?;
    Some(Command::Run { moment })
}
