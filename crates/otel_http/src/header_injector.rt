//! Headers that a propagator writes into.

ghost use Rattle.std.specs.Prelude.{◌≡◌, ◌⊎◌, ◌↔◌, IfErr, IfOk, IsSomeAnd, IsTrue, None, OnErr, OnOk, string_bytes};
ghost use Rattle.http_header.specs.FieldName.{IsFieldName};
ghost use Rattle.http_header.specs.FieldValue.{plain_value};
ghost use Rattle.http_header.specs.HeaderMap.{insert};
ghost use Rattle.http_header.specs.Token.{lowercase};
ghost use Rattle.opentelemetry.specs.Carrier.{SameTexts, SetsText};
ghost use Rattle.otel_http.specs.Fields.{is_field_content};
ghost use Rattle.otel_http.specs.Headers.{header_texts};

use crate::fields::is_field_content;
use http_header::{
    HeaderMap, HeaderMapError, HeaderName, HeaderNameError, HeaderValue, HeaderValueError,
};
use opentelemetry::propagation::Injector;
use std::alloc::{AllocError, Global};
use thiserror::Error;

/// Why a header was not set. A bad form is named before out of memory, and that of the text before that of the name.
#[derive(Clone, Copy, Debug, PartialEq, Eq, Error)]
pub enum SetHeaderError {
    #[error("a field value has visible ASCII, spaces and tabs, and no blank at an end")]
    Value,
    #[error("a field name has 1 to 65535 letters, digits and marks of a token")]
    Name,
    #[error("the headers have as many names as they can")]
    Full,
    #[error("no memory for a header")]
    Memory,
}

/// Headers that a propagator writes into. A text takes the place of all the fields that its name had.
///
/// No text can forge a header: one that is no field value is refused, as CR, LF and all other controls are, and nothing
/// changes. A carrier has one error, so that `set` answers `AllocError` then too; `refusal` says why, and `try_set`
/// answers it at once.
#[derive(Debug, Drop)]
pub struct HeaderInjector {
    alloc: Global,
    headers: HeaderMap,
    refusal: Option<SetHeaderError>,
}

impl HeaderInjector {
    ghost use Rattle.otel_http.specs.Injection.{headers_of, refusal_of};
    ghost use Rattle.otel_http.specs.SetHeader.{Refuses};

    /// An injector into these headers.
    pub fn new(alloc: Global, headers: HeaderMap) -> HeaderInjector
        ensures headers { headers_of result ≡ headers }
        ensures refusal { refusal_of result ≡ None }
    {
        HeaderInjector {
            alloc,
            headers,
            refusal: None,
        }
    }

    /// The headers as they are now.
    pub fn headers(&self) -> &HeaderMap
        ensures { result.now ≡ headers_of self.now }
    {
        &self.headers
    }

    /// Gives the headers back.
    pub fn into_headers(self) -> HeaderMap
        ensures { result ≡ headers_of self }
    {
        self.headers
    }

    /// Why the last text that `set` refused was not set.
    pub fn refusal(&self) -> Option<SetHeaderError>
        ensures { result ≡ refusal_of self.now }
    {
        self.refusal
    }

    /// As `set`, with the reason of a refusal. A standard name takes no memory.
    pub fn try_set(&mut self, key: &str, value: String) -> Result<(), SetHeaderError>
        ensures ok { OnOk result (headers_of self.new
            ≡ insert (headers_of self.old) (lowercase key.now) (plain_value (string_bytes value))) }
        ensures content { OnOk result (IsTrue (is_field_content (string_bytes value))) }
        ensures named { OnOk result (IsFieldName key.now) }
        ensures sets { OnOk result (SetsText (header_texts (headers_of self.old)) (header_texts (headers_of self.new))
            key.now (string_bytes value)) }
        ensures refuses { IfErr result (Refuses (headers_of self.old) key.now (string_bytes value)) }
        ensures err { OnErr result (self.new ≡ self.old) }
        ensures refusal { refusal_of self.new ≡ refusal_of self.old }
    {
        if !is_field_content(value.as_str()) {
            return Err(SetHeaderError::Value);
        }
        let name = name_of(self.alloc, key)?;
        let value = value_of(value)?;
        self.headers.insert(name, value)?;
        Ok(())
    }
}

impl Injector for HeaderInjector {
    ghost use Rattle.otel_http.specs.Headers.{header_texts};
    ghost use Rattle.otel_http.specs.Injection.{headers_of, refusal_of};
    ghost use Rattle.otel_http.specs.SetHeader.{Refuses};

    ghost texts = { λ injector. header_texts (headers_of injector) };

    /// `AllocError` also where the text is no field value, or the name no field name: then `refusal` says so.
    fn set(&mut self, key: &str, value: String) -> Result<(), AllocError>
        ensures ok { OnOk result (SetsText (header_texts (headers_of self.old)) (header_texts (headers_of self.new))
            key.now (string_bytes value)) }
        ensures err { OnErr result
            (SameTexts (header_texts (headers_of self.old)) (header_texts (headers_of self.new))) }
        ensures inserted { OnOk result (headers_of self.new
            ≡ insert (headers_of self.old) (lowercase key.now) (plain_value (string_bytes value))) }
        ensures content { OnOk result (IsTrue (is_field_content (string_bytes value))) }
        ensures same { OnErr result (headers_of self.new ≡ headers_of self.old) }
        ensures refusal { OnErr result (IsSomeAnd (refusal_of self.new)
            (Refuses (headers_of self.old) key.now (string_bytes value))) }
        ensures kept { OnOk result (refusal_of self.new ≡ refusal_of self.old) }
    {
        match self.try_set(key, value) {
            Ok(()) => Ok(()),
            Err(refusal) => {
                self.refusal = Some(refusal);
                Err(AllocError)
            }
        }
    }
}

/// The name of a header. A standard one takes no memory.
fn name_of(alloc: Global, key: &str) -> Result<HeaderName, SetHeaderError>
    ensures ok { IfOk result (λ name. name ≡ lowercase key.now) }
    ensures named { OnOk result (IsFieldName key.now) }
    ensures name { (result ≡ Err SetHeaderError.Name) ↔ ¬ (IsFieldName key.now) }
    ensures errors { IfErr result (λ error. (error ≡ SetHeaderError.Name) ⊎ (error ≡ SetHeaderError.Memory)) }
{
    match HeaderName::from_bytes(alloc, key.as_bytes()) {
        Ok(name) => Ok(name),
        Err(HeaderNameError::Invalid) => Err(SetHeaderError::Name),
        Err(HeaderNameError::OutOfMemory) => Err(SetHeaderError::Memory),
    }
}

/// The value of a header, which keeps the text's memory.
fn value_of(text: String) -> Result<HeaderValue, SetHeaderError>
    requires { IsTrue (is_field_content (string_bytes text)) }
    ensures ok { IfOk result (λ value. value ≡ plain_value (string_bytes text)) }
    ensures errors { IfErr result (λ error. error ≡ SetHeaderError.Memory) }
{
    match HeaderValue::from_string(text) {
        Ok(value) => Ok(value),
        Err(HeaderValueError::Invalid) => unreachable!(),
        Err(HeaderValueError::OutOfMemory) => Err(SetHeaderError::Memory),
    }
}

impl From<HeaderMapError> for SetHeaderError {
    ghost use Rattle.otel_http.specs.SetHeader.{of_map_error};

    ghost from_gives = { λ error refusal. refusal ≡ of_map_error error };

    fn from(error: HeaderMapError) -> SetHeaderError {
        match error {
            HeaderMapError::MaxSizeReached => SetHeaderError::Full,
            HeaderMapError::OutOfMemory => SetHeaderError::Memory,
        }
    }
}
