//! The fields of the commands that only the extended grammar has.

ghost use Rattle.std.specs.Prelude.{IfOk, IsOk, codes};
ghost use Rattle.otel_trace_lines.specs.Found.{AreFields, FieldsGive};

use crate::command::Command;
use crate::fields::{
    first_field, is_field, moment_and_rest, parse_float, parse_integer, truth_of,
    two_fields_and_rest,
};
use std::alloc::{AllocError, Global};

/// The fields of `int SPAN KEY INTEGER`.
pub(crate) fn int_of(alloc: Global, fields: &str) -> Result<Option<Command>, AllocError>
    ensures found { IfOk result (FieldsGive (codes "int") fields.now) }
    ensures free { ¬ AreFields (codes "int") fields.now → IsOk result }
{
    let Some((span, key, digits)) = two_fields_and_rest(fields) else {
        return Ok(None);
    };
    let Some(value) = parse_integer(digits) else {
        return Ok(None);
    };
    Ok(Some(Command::Int {
        span: String::from_str(alloc, span)?,
        key: String::from_str(alloc, key)?,
        value,
    }))
}

/// The fields of `bool SPAN KEY TRUTH`.
pub(crate) fn bool_of(alloc: Global, fields: &str) -> Result<Option<Command>, AllocError>
    ensures found { IfOk result (FieldsGive (codes "bool") fields.now) }
    ensures free { ¬ AreFields (codes "bool") fields.now → IsOk result }
{
    let Some((span, key, word)) = two_fields_and_rest(fields) else {
        return Ok(None);
    };
    let Some(value) = truth_of(word) else {
        return Ok(None);
    };
    Ok(Some(Command::Bool {
        span: String::from_str(alloc, span)?,
        key: String::from_str(alloc, key)?,
        value,
    }))
}

/// The fields of `float SPAN KEY FLOAT`.
pub(crate) fn float_of(alloc: Global, fields: &str) -> Result<Option<Command>, AllocError>
    ensures found { IfOk result (FieldsGive (codes "float") fields.now) }
    ensures free { ¬ AreFields (codes "float") fields.now → IsOk result }
{
    let Some((span, key, number)) = two_fields_and_rest(fields) else {
        return Ok(None);
    };
    let Some(value) = parse_float(number) else {
        return Ok(None);
    };
    Ok(Some(Command::Float {
        span: String::from_str(alloc, span)?,
        key: String::from_str(alloc, key)?,
        value,
    }))
}

/// The fields of `link SPAN TARGET`.
pub(crate) fn link_of(alloc: Global, fields: &str) -> Result<Option<Command>, AllocError>
    ensures found { IfOk result (FieldsGive (codes "link") fields.now) }
    ensures free { ¬ AreFields (codes "link") fields.now → IsOk result }
{
    let Some((span, target)) = first_field(fields) else {
        return Ok(None);
    };
    if !is_field(target) {
        return Ok(None);
    }
    Ok(Some(Command::Link {
        span: String::from_str(alloc, span)?,
        target: String::from_str(alloc, target)?,
    }))
}

/// The fields of `exception SPAN TYPE MOMENT MESSAGE`. The message is the rest of the line.
pub(crate) fn exception_of(alloc: Global, fields: &str) -> Result<Option<Command>, AllocError>
    ensures found { IfOk result (FieldsGive (codes "exception") fields.now) }
    ensures free { ¬ AreFields (codes "exception") fields.now → IsOk result }
{
    let Some((span, exception_type, rest)) = two_fields_and_rest(fields) else {
        return Ok(None);
    };
    let Some((moment, message)) = moment_and_rest(rest) else {
        return Ok(None);
    };
    Ok(Some(Command::Exception {
        span: String::from_str(alloc, span)?,
        exception_type: String::from_str(alloc, exception_type)?,
        moment,
        message: String::from_str(alloc, message)?,
    }))
}

/// The field of `forget SPAN`.
pub(crate) fn forget_of(alloc: Global, field: &str) -> Result<Option<Command>, AllocError>
    ensures found { IfOk result (FieldsGive (codes "forget") field.now) }
    ensures free { ¬ AreFields (codes "forget") field.now → IsOk result }
{
    if !is_field(field) {
        return Ok(None);
    }
    Ok(Some(Command::Forget {
        span: String::from_str(alloc, field)?,
    }))
}
