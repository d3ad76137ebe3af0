//! The members of an object by the rules of protobuf's JSON: null stands for a member that is not there, of a name that
//! comes twice the last member counts, and a member may have the name that protobuf itself gives it.

ghost use Rattle.std.specs.Prelude.{◌≡◌, [], map, option_map};
ghost use Rattle.json.specs.Find.{as_array};
ghost use Rattle.json.specs.Value.{value_view};
ghost use Rattle.otel_otlp_read.specs.Members.{given, list_of, listed, named, object_or, own_name, text_of};
ghost use Rattle.otel_otlp_read.specs.Reading.{Gives};

use crate::fault::{Fault, ReadError};
use json::Value;
use std::slice;

/// What protobuf itself calls a member, where that is not its name in JSON.
#[tactic(auto, unfolding(crate::specs::Members::own_name))]
pub(crate) fn own_name(name: &str) -> Option<&'static str>
    ensures { option_map (λ own. own.now) result ≡ own_name name.now }
{
    match name {
        "traceId" => Some("trace_id"),
        "spanId" => Some("span_id"),
        "parentSpanId" => Some("parent_span_id"),
        "startTimeUnixNano" => Some("start_time_unix_nano"),
        "endTimeUnixNano" => Some("end_time_unix_nano"),
        "timeUnixNano" => Some("time_unix_nano"),
        "resourceSpans" => Some("resource_spans"),
        "resourceMetrics" => Some("resource_metrics"),
        "resourceLogs" => Some("resource_logs"),
        "resourceProfiles" => Some("resource_profiles"),
        "scopeSpans" => Some("scope_spans"),
        "scopeMetrics" => Some("scope_metrics"),
        "scopeLogs" => Some("scope_logs"),
        "scopeProfiles" => Some("scope_profiles"),
        "instrumentationLibrarySpans" => Some("instrumentation_library_spans"),
        "stringValue" => Some("string_value"),
        "boolValue" => Some("bool_value"),
        "intValue" => Some("int_value"),
        "doubleValue" => Some("double_value"),
        "bytesValue" => Some("bytes_value"),
        "arrayValue" => Some("array_value"),
        "kvlistValue" => Some("kvlist_value"),
        _ => None,
    }
}

/// The member of a name; none where it is missing or null.
fn named<'v, 'a>(object: &'v Value<'a>, name: &str) -> Option<&'v Value<'a>>
    ensures { option_map (λ v. value_view v.now) result ≡ named name.now (value_view object.now) }
{
    match object.get(name) {
        Some(member) => { if member.is_null() { None } else { Some(member) } }
        None => None,
    }
}

/// The member of a name, or of protobuf's own for it; none where both are missing or null.
pub(crate) fn given<'v, 'a>(object: &'v Value<'a>, name: &str) -> Option<&'v Value<'a>>
    ensures { option_map (λ v. value_view v.now) result ≡ given name.now (value_view object.now) }
{
    match named(object, name) {
        Some(member) => Some(member),
        None => match own_name(name) {
            Some(own) => named(object, own),
            None => None,
        },
    }
}

/// Whether a value is an object; if not, this fault.
pub(crate) fn object(value: &Value, fault: Fault) -> Result<(), ReadError>
    ensures { Gives (λ _. tt) result (object_or fault (value_view value.now)) }
{
    match value {
        Value::Object(_) => Ok(()),
        _ => Err(ReadError::Fault(fault)),
    }
}

/// The text of a member, empty where it is missing; a member that is no text is this fault.
pub(crate) fn text<'a>(object: &Value<'a>, name: &str, fault: Fault) -> Result<&'a str, ReadError>
    ensures { Gives (λ t. t.now) result (text_of name.now fault (value_view object.now)) }
{
    match given(object, name) {
        Some(member) => match member.as_str() {
            Some(text) => Ok(text),
            None => Err(ReadError::Fault(fault)),
        },
        None => Ok(""),
    }
}

/// The items of a value that is a list.
fn items<'v, 'a>(value: &'v Value<'a>) -> Option<&'v [Value<'a>]>
    ensures { option_map (λ items. map value_view items.now) result
        ≡ option_map listed (as_array (value_view value.now)) }
{
    match value {
        Value::Array(items) => Some(items.as_slice()),
        _ => None,
    }
}

/// The items of a member that is a list, none where it is missing; a member that is no list is this fault.
pub(crate) fn list<'v, 'a>(
    object: &'v Value<'a>,
    name: &str,
    fault: Fault,
) -> Result<&'v [Value<'a>], ReadError>
    ensures { Gives (λ items. map value_view items.now) result (list_of name.now fault (value_view object.now)) }
{
    match given(object, name) {
        Some(member) => items(member).ok_or(ReadError::Fault(fault)),
        None => Ok(&slice::from_ref(object)[..0]),
    }
}
