//! Headers that a propagator reads.

ghost use Rattle.std.specs.Prelude.{◌≡◌, ◌↔◌, ◌<◌, ◌≤◌, IfOk, IsTrue, length, map, option_copied};
ghost use Rattle.http_header.specs.HeaderMap.{get_all, keys};
ghost use Rattle.http_header.specs.Token.{lowercase};
ghost use Rattle.otel_http.specs.Extraction.{AreRepeated};
ghost use Rattle.otel_http.specs.Headers.{header_texts, text_names};

use crate::fields::repeated_text;
use http_header::{HeaderMap, HeaderName};
use opentelemetry::propagation::Extractor;
use std::alloc::{AllocError, Global};
use std::marker::Model;

/// A name that has several fields, and what they say.
#[derive(Debug, Drop)]
struct Repeated<'a> {
    name: &'a HeaderName,
    text: Option<String>,
}

/// Headers that a propagator reads. The fields of one name are one list, joined by commas in their order; two fields
/// `traceparent` say nothing. A field with other bytes than visible ASCII and blanks is no text, nor is a list with one.
///
/// Contracts see it as the headers.
#[derive(Debug, Drop)]
pub struct HeaderExtractor<'a> {
    headers: &'a HeaderMap,
    repeated: Vec<Repeated<'a>>,
}

impl<'a> Model for HeaderExtractor<'a> {
    ghost use Rattle.otel_http.specs.Headers.{Headers};

    ghost Value = { Headers };

    ghost use Rattle.otel_http.specs.Extraction.{AreRepeated};

    ghost view = { λ extractor. extractor.headers.now };

    ghost invariant = { λ extractor. AreRepeated extractor.headers.now extractor.repeated.items };
}

impl<'a> HeaderExtractor<'a> {
    /// An extractor from these headers. Memory is taken only for names that have several fields.
    pub fn new(alloc: Global, headers: &'a HeaderMap) -> Result<HeaderExtractor<'a>, AllocError>
        ensures { IfOk result (λ extractor. extractor ≡ headers.now) }
    {
        Ok(HeaderExtractor {
            headers,
            repeated: repeated_of(alloc, headers)?,
        })
    }
}

impl<'a> Extractor for HeaderExtractor<'a> {
    ghost use Rattle.otel_http.specs.Headers.{header_texts, text_names};

    ghost reads = { header_texts };

    ghost names = { text_names };

    fn get(&self, key: &str) -> Option<&str> {
        text_of(self.headers, &self.repeated, key)
    }

    /// In the order in which they came first.
    fn keys(&self, alloc: Global) -> Result<Vec<&str>, AllocError> {
        names_of(alloc, self.headers, &self.repeated)
    }
}

/// The names that carry a text.
fn names_of<'b, 'a>(
    alloc: Global,
    headers: &'b HeaderMap,
    repeated: &'b [Repeated<'a>],
) -> Result<Vec<&'b str>, AllocError>
    requires { AreRepeated headers.now repeated.now }
    ensures { IfOk result (λ names. map (λ name. name.now) names.items ≡ text_names headers.now) }
{
    let mut names = Vec::new(alloc);
    for name in headers.keys() {
        let name = name.as_str();
        if text_of(headers, repeated, name).is_some() {
            names.push(name)?;
        }
    }
    Ok(names)
}

/// What is known of the names that have several fields.
fn repeated_of<'a>(alloc: Global, headers: &'a HeaderMap) -> Result<Vec<Repeated<'a>>, AllocError>
    ensures { IfOk result (λ repeated. AreRepeated headers.now repeated.items) }
{
    let mut repeated = Vec::new(alloc);
    for name in headers.keys() {
        if is_repeated(headers, name) {
            let text = repeated_text(alloc, headers, name)?;
            repeated.push(Repeated { name, text })?;
        }
    }
    Ok(repeated)
}

/// Whether a name has several fields.
fn is_repeated(headers: &HeaderMap, name: &HeaderName) -> bool
    ensures { IsTrue result ↔ (1 < length (get_all headers.now name.now)) }
{
    let mut values = headers.get_all(name).iter();
    values.next().is_some() && values.next().is_some()
}

/// What the fields of a name in any case say.
fn text_of<'b, 'a>(
    headers: &'b HeaderMap,
    repeated: &'b [Repeated<'a>],
    key: &str,
) -> Option<&'b str>
    requires { AreRepeated headers.now repeated.now }
    ensures { option_copied result ≡ header_texts headers.now key.now }
{
    for field in repeated {
        if field.name.eq_str(key) {
            return match &field.text {
                Some(text) => Some(text.as_str()),
                None => None,
            };
        }
    }
    single_text(headers, key)
}

/// What the one field of a name in any case says.
fn single_text<'b>(headers: &'b HeaderMap, key: &str) -> Option<&'b str>
    requires { length (get_all headers.now (lowercase key.now)) ≤ 1 }
    ensures { option_copied result ≡ header_texts headers.now key.now }
{
    match headers.get(key)?.to_str() {
        Ok(text) => Some(text),
        Err(_) => None,
    }
}
