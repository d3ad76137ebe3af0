//! The attributes of spans of HTTP (OpenTelemetry semantic conventions, "HTTP spans", stable).

ghost use Rattle.std.specs.Prelude.{◌≡◌, ◌++◌, ℕ, IfOk, List, None, OnOk, Option, codes};
ghost use Rattle.std.specs.Prelude.{if◌then◌else◌, option_copied, option_map, string_bytes, unwrap_or};
ghost use Rattle.http_uri.specs.Uri.{uri_query, uri_scheme};
ghost use Rattle.http.specs.Request.{head_of};
ghost use Rattle.otel_http.specs.Conventions.{HasClientAttributes, HasServerAttributes, attribute_if, is_known_method};
ghost use Rattle.otel_http.specs.Conventions.{method_attributes, method_name, method_value, original_method};
ghost use Rattle.otel_http.specs.Conventions.{target_attributes};
ghost use Rattle.otel_http.specs.Servers.{IsFullUrl, text_attribute};

use crate::server::{full_url, push_server, scheme_port};
use http::{Method, Request};
use http_uri::Uri;
use opentelemetry::{Key, KeyValue, Value};
use std::alloc::{AllocError, Global};

const METHOD: &str = "http.request.method";

const ORIGINAL: &str = "http.request.method_original";

const SCHEME: &str = "url.scheme";

const PATH: &str = "url.path";

const QUERY: &str = "url.query";

const FULL_URL: &str = "url.full";

pub(crate) const STATUS: &str = "http.response.status_code";

pub(crate) const ERROR_TYPE: &str = "error.type";

pub(crate) const ROUTE: &str = "http.route";

/// Whether the conventions know a method.
fn is_known_method(method: &Method) -> bool
    ensures { result ≡ is_known_method method.now }
{
    let text = method.as_str();
    method.is_idempotent() || text == "POST" || text == "PATCH" || text == "CONNECT"
}

/// What a span is named after its method.
pub(crate) fn method_name(method: &Method) -> &str
    ensures { result.now ≡ method_name method.now }
{
    if is_known_method(method) {
        method.as_str()
    } else {
        "HTTP"
    }
}

fn method_value(method: &Method) -> &str
    ensures { result.now ≡ method_value method.now }
{
    if is_known_method(method) {
        method.as_str()
    } else {
        "_OTHER"
    }
}

/// A method that the conventions do not know, as it came.
fn original_method(method: &Method) -> Option<&str>
    ensures { option_copied result ≡ original_method method.now }
{
    if is_known_method(method) {
        None
    } else {
        Some(method.as_str())
    }
}

/// An attribute with a copy of a text.
pub(crate) fn text_attribute(
    alloc: Global,
    key: &'static str,
    value: &str,
) -> Result<KeyValue, AllocError>
    ensures { IfOk result (λ attribute. attribute ≡ text_attribute key.now value.now) }
{
    let value = Value::String(String::from_str(alloc, value)?);
    Ok(KeyValue::new(Key::from_static_str(key), value))
}

/// Pushes an attribute with a copy of a text, if there is one.
fn push_text(
    attributes: &mut Vec<KeyValue>,
    alloc: Global,
    key: &'static str,
    value: Option<&str>,
) -> Result<(), AllocError>
    ensures { OnOk result (attributes.new.items
        ≡ attributes.old.items ++ attribute_if key.now (option_copied value.entry)) }
{
    if let Some(value) = value {
        attributes.push(text_attribute(alloc, key, value)?)?;
    }
    Ok(())
}

/// Pushes what a span has of the method of its request.
fn push_method(
    attributes: &mut Vec<KeyValue>,
    alloc: Global,
    method: &Method,
) -> Result<(), AllocError>
    ensures { OnOk result (attributes.new.items ≡ attributes.old.items ++ method_attributes method.now) }
{
    attributes.push(text_attribute(alloc, METHOD, method_value(method))?)?;
    push_text(attributes, alloc, ORIGINAL, original_method(method))?;
    Ok(())
}

/// What the span of a request that is served has from its start. Where the target names no scheme, it is this one.
pub(crate) fn server_attributes<B>(
    alloc: Global,
    request: &Request<B>,
    scheme: &str,
    keeps_query: bool,
) -> Result<Vec<KeyValue>, AllocError>
    ensures { IfOk result (λ attributes. HasServerAttributes scheme.now keeps_query (head_of request.now)
        attributes.items) }
{
    let mut attributes = Vec::new(alloc);
    push_method(&mut attributes, alloc, request.method())?;
    push_target(&mut attributes, alloc, request, scheme, keeps_query)?;
    push_server(&mut attributes, alloc, request, None)?;
    Ok(attributes)
}

/// Pushes what a span has of the target of a request that is served.
fn push_target<B>(
    attributes: &mut Vec<KeyValue>,
    alloc: Global,
    request: &Request<B>,
    scheme: &str,
    keeps_query: bool,
) -> Result<(), AllocError>
    ensures { OnOk result (attributes.new.items
        ≡ attributes.old.items ++ target_attributes scheme.now keeps_query (head_of request.now)) }
{
    let uri = request.uri();
    let query = query_of(uri, keeps_query);
    attributes.push(text_attribute(alloc, SCHEME, scheme_of(uri, scheme))?)?;
    attributes.push(text_attribute(alloc, PATH, uri.path())?)?;
    push_text(attributes, alloc, QUERY, query)?;
    Ok(())
}

/// The scheme of a target; where it names none, this one.
fn scheme_of<'a>(uri: &'a Uri, scheme: &'a str) -> &'a str
    ensures { result.now ≡ unwrap_or (uri_scheme uri.now) scheme.now }
{
    match uri.scheme_str() {
        Some(own) => own,
        None => scheme,
    }
}

/// The query of a target, where it is asked for.
fn query_of(uri: &Uri, keeps_query: bool) -> Option<&str>
    ensures { option_copied result ≡ (if keeps_query then uri_query uri.now else None) }
{
    if keeps_query { uri.query() } else { None }
}

/// What the span of a request to another service has from its start.
pub(crate) fn client_attributes<B>(
    alloc: Global,
    request: &Request<B>,
) -> Result<Vec<KeyValue>, AllocError>
    ensures { IfOk result (λ attributes. HasClientAttributes (head_of request.now) attributes.items) }
{
    let mut attributes = Vec::new(alloc);
    push_method(&mut attributes, alloc, request.method())?;
    push_url(&mut attributes, alloc, request.uri())?;
    push_server(
        &mut attributes,
        alloc,
        request,
        scheme_port(request.uri().scheme_str()),
    )?;
    Ok(attributes)
}

/// Pushes the URL of a target in absolute form.
fn push_url(attributes: &mut Vec<KeyValue>, alloc: Global, uri: &Uri) -> Result<(), AllocError>
    ensures { OnOk result ((url : Option (List ℕ)) × IsFullUrl uri.now url
        × (attributes.new.items ≡ attributes.old.items ++ attribute_if (codes "url.full") url)) }
{
    let url = full_url(alloc, uri)?;
    push_text(attributes, alloc, FULL_URL, text_in(&url))
}

/// The text of a string, if there is one.
fn text_in(text: &Option<String>) -> Option<&str>
    ensures { option_copied result ≡ option_map (λ t. string_bytes t) text.now }
{
    match text {
        Some(text) => Some(text.as_str()),
        None => None,
    }
}
