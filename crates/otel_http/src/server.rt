//! Who serves a request, and the URL by which it was asked for.

ghost use Rattle.std.specs.Prelude.{◌≡◌, ◌++◌, IfOk, List, OnOk, option_copied, option_map, string_bytes};
ghost use Rattle.http.specs.Request.{head_of};
ghost use Rattle.http_uri.specs.ByteClasses.{right_bracket, split_once_front};
ghost use Rattle.opentelemetry.specs.Plain.{PlainKeyValue};
ghost use Rattle.otel_http.specs.Servers.{IsFullUrl, IsServerIn, IsServerOfHost, NamesServer, host_address};
ghost use Rattle.otel_http.specs.Servers.{port_if, port_text, scheme_port};

use crate::conventions::text_attribute;
use http::Request;
use http_header::{HOST, HeaderValue};
use http_uri::{Authority, Uri, UriError};
use opentelemetry::{Key, KeyValue, Value};
use std::alloc::{AllocError, Global};

const ADDRESS: &str = "server.address";

const PORT: &str = "server.port";

/// The port of a scheme, where the conventions know one.
pub(crate) fn scheme_port(scheme: Option<&str>) -> Option<u16>
    ensures { result ≡ scheme_port (option_copied scheme.entry) }
{
    match scheme {
        Some("http") => Some(80),
        Some("https") => Some(443),
        _ => None,
    }
}

/// Pushes who serves a request: whom its target names, or its header `Host`. Where these name no port it is the other
/// one, if there is one.
pub(crate) fn push_server<B>(
    attributes: &mut Vec<KeyValue>,
    alloc: Global,
    request: &Request<B>,
    other: Option<u16>,
) -> Result<(), AllocError>
    ensures { OnOk result ((server : List PlainKeyValue) × NamesServer (head_of request.now) other server
        × (attributes.new.items ≡ attributes.old.items ++ server)) }
{
    if let Some(authority) = request.uri().authority() {
        return push_authority(attributes, alloc, authority, other);
    }
    match request.headers().get(HOST) {
        Some(value) => push_host(attributes, alloc, value, other),
        None => Ok(()),
    }
}

/// Pushes what a span has of a value of `Host`.
fn push_host(
    attributes: &mut Vec<KeyValue>,
    alloc: Global,
    value: &HeaderValue,
    other: Option<u16>,
) -> Result<(), AllocError>
    ensures { OnOk result ((server : List PlainKeyValue) × IsServerOfHost value.now other server
        × (attributes.new.items ≡ attributes.old.items ++ server)) }
{
    match Authority::from_bytes(alloc, value.as_bytes()) {
        Ok(authority) => push_authority(attributes, alloc, &authority, other),
        Err(UriError::Invalid(_)) => Ok(()),
        Err(UriError::OutOfMemory) => Err(AllocError),
    }
}

/// Pushes what a span has of an authority.
fn push_authority(
    attributes: &mut Vec<KeyValue>,
    alloc: Global,
    authority: &Authority,
    other: Option<u16>,
) -> Result<(), AllocError>
    ensures { OnOk result ((server : List PlainKeyValue) × IsServerIn authority.now other server
        × (attributes.new.items ≡ attributes.old.items ++ server)) }
{
    attributes.push(text_attribute(alloc, ADDRESS, host_address(authority.host()))?)?;
    push_port(attributes, authority.port_u16().or(other))
}

/// Pushes a port, if there is one.
fn push_port(attributes: &mut Vec<KeyValue>, port: Option<u16>) -> Result<(), AllocError>
    ensures { OnOk result (attributes.new.items ≡ attributes.old.items ++ port_if port) }
{
    if let Some(port) = port {
        attributes.push(KeyValue::new(Key::from_static_str(PORT), Value::I64(port as i64)))?;
    }
    Ok(())
}

/// A host as an address: one of IPv6 without its brackets.
fn host_address(host: &str) -> &str
    ensures { result.now ≡ host_address host.now }
{
    match host.split_once('[') {
        Some((_, rest)) => before_bracket(rest),
        None => host,
    }
}

/// What stands before a closing bracket; all of a text that has none.
fn before_bracket(text: &str) -> &str
    ensures { result.now ≡ split_once_front right_bracket text.now }
{
    match text.split_once(']') {
        Some((front, _)) => front,
        None => text,
    }
}

/// The URL of a target in absolute form, without what may be secret in it: credentials, and the query.
pub(crate) fn full_url(alloc: Global, uri: &Uri) -> Result<Option<String>, AllocError>
    ensures { IfOk result (λ url. IsFullUrl uri.now (option_map (λ t. string_bytes t) url)) }
{
    let Some(scheme) = uri.scheme_str() else {
        return Ok(None);
    };
    let Some(authority) = uri.authority() else {
        return Ok(None);
    };
    let mut url = String::from_str(alloc, scheme)?;
    url.push_str("://")?;
    url.push_str(authority.host())?;
    push_port_text(&mut url, authority.port_u16())?;
    url.push_str(uri.path())?;
    Ok(Some(url))
}

/// Pushes a port after a host, if there is one.
fn push_port_text(url: &mut String, port: Option<u16>) -> Result<(), AllocError>
    ensures { OnOk result (string_bytes url.new ≡ string_bytes url.old ++ port_text port) }
{
    if let Some(port) = port {
        write!(url, ":{port}")?;
    }
    Ok(())
}
