//! A request as it is written, token by token. The members of an object are written by its own function, in the order
//! of `specs/Otlp`; commas, colons and escapes are the business of `json::Writer`.

ghost use Rattle.std.specs.Prelude.{◌≡◌, ◌++◌, ◌∷◌, [], decimal};
ghost use Rattle.std.specs.Fmt.{signed_decimal};
ghost use Rattle.std.specs.Option.{option_copied};
ghost use Rattle.json.specs.Lex.{tokens};
ghost use Rattle.json.specs.Print.{IsNumber, print};
ghost use Rattle.json.specs.Token.{Token};
ghost use Rattle.json.specs.Token as token;
ghost use Rattle.json.specs.Tree.{json_tokens};
ghost use Rattle.opentelemetry.specs.Hex.{hex_text};
ghost use Rattle.otel_otlp.specs.Fields.{Adds, fields_tokens};
ghost use Rattle.otel_otlp.specs.Otlp.{or_empty};
ghost use Rattle.otel_otlp.specs.OtlpSpan.{parent_text};
ghost use Rattle.otel_otlp.specs.OtlpValues.{float_json, moment_field, number_field, text_field};

use json::Writer;
use opentelemetry::{SpanId, TraceId};
use otel_float::FloatText;
use otel_lines::digits::Digits;
use std::alloc::AllocError;
use std::marker::Model;

/// The text of a request in the making, after bytes that stand before it.
#[derive(Drop)]
pub(crate) struct RequestWriter {
    out: Writer,
}

impl Model for RequestWriter {
    ghost use Rattle.otel_otlp.specs.Fields.{Begun};

    ghost Value = { Begun };

    ghost view = { λ writer. record { before = writer.out.before; tokens = writer.out.tokens } };
}

impl RequestWriter {
    /// It writes after these bytes.
    pub(crate) fn new(bytes: Vec<u8>) -> RequestWriter
        ensures { result ≡ record { before = bytes.items; tokens = [] } }
    {
        RequestWriter {
            out: Writer::new(bytes),
        }
    }

    /// All bytes: those before, and the text.
    pub(crate) fn into_bytes(self) -> Vec<u8>
        ensures bytes { result.items ≡ self.before ++ print self.tokens }
        ensures reads_back { tokens (print self.tokens) ≡ self.tokens }
    {
        self.out.into_inner()
    }

    /// The bracket that opens an object.
    pub(crate) fn begin_object(&mut self) -> Result<(), AllocError>
        ensures { Adds result self.old self.new (token.begin_object ∷ []) }
    {
        self.out.begin_object()
    }

    /// The bracket that closes an object.
    pub(crate) fn end_object(&mut self) -> Result<(), AllocError>
        ensures { Adds result self.old self.new (token.end_object ∷ []) }
    {
        self.out.end_object()
    }

    /// The bracket that opens an array.
    pub(crate) fn begin_array(&mut self) -> Result<(), AllocError>
        ensures { Adds result self.old self.new (token.begin_array ∷ []) }
    {
        self.out.begin_array()
    }

    /// The bracket that closes an array.
    pub(crate) fn end_array(&mut self) -> Result<(), AllocError>
        ensures { Adds result self.old self.new (token.end_array ∷ []) }
    {
        self.out.end_array()
    }

    /// The key of a member, whose value comes next.
    pub(crate) fn key(&mut self, key: &str) -> Result<(), AllocError>
        ensures { Adds result self.old self.new (token.key key.now ∷ []) }
    {
        self.out.key(key)
    }

    /// A truth.
    pub(crate) fn boolean(&mut self, truth: bool) -> Result<(), AllocError>
        ensures { Adds result self.old self.new (token.boolean truth ∷ []) }
    {
        self.out.boolean(truth)
    }

    /// An integer of 64 bits, as a string.
    pub(crate) fn integer(&mut self, number: i64) -> Result<(), AllocError>
        ensures { Adds result self.old self.new (token.string (signed_decimal number) ∷ []) }
    {
        self.out.quoted_i64(number)
    }

    fn number(&mut self, text: &str) -> Result<(), AllocError>
        requires { IsNumber text.now }
        ensures { Adds result self.old self.new (token.number text.now ∷ []) }
    {
        self.out.number(text)
    }

    /// A float: its number, or the word of one that is not finite.
    pub(crate) fn float(&mut self, number: f64) -> Result<(), AllocError>
        ensures { Adds result self.old self.new (json_tokens (float_json number)) }
    {
        if number.is_nan() {
            self.string("NaN")
        } else if number.is_finite() {
            self.number(FloatText::new(number).as_str())
        } else if number.is_sign_negative() {
            self.string("-Infinity")
        } else {
            self.string("Infinity")
        }
    }

    /// A text.
    pub(crate) fn string(&mut self, text: &str) -> Result<(), AllocError>
        ensures { Adds result self.old self.new (token.string text.now ∷ []) }
    {
        self.out.string(text)
    }

    /// A member whose value is a text.
    pub(crate) fn text_field(&mut self, key: &str, text: &str) -> Result<(), AllocError>
        ensures { Adds result self.old self.new (fields_tokens (text_field key.now text.now ∷ [])) }
    {
        self.key(key)?;
        self.string(text)
    }

    /// A member whose value is a text that may be left out, and is empty then.
    pub(crate) fn optional_field(&mut self, key: &str, text: Option<&str>) -> Result<(), AllocError>
        ensures { Adds result self.old self.new
            (fields_tokens (text_field key.now (or_empty (option_copied text.entry)) ∷ [])) }
    {
        match text {
            Some(text) => self.text_field(key, text),
            None => self.text_field(key, ""),
        }
    }

    /// A member whose value is a number.
    pub(crate) fn number_field(&mut self, key: &str, number: u64) -> Result<(), AllocError>
        ensures { Adds result self.old self.new (fields_tokens (number_field key.now number ∷ [])) }
    {
        self.out.key(key)?;
        self.out.u64(number)
    }

    /// A member whose value is a moment, in nanoseconds since 1970.
    pub(crate) fn moment_field(&mut self, key: &str, nanoseconds: u64) -> Result<(), AllocError>
        ensures { Adds result self.old self.new (fields_tokens (moment_field key.now nanoseconds ∷ [])) }
    {
        self.out.key(key)?;
        self.out.quoted_u64(nanoseconds)
    }

    /// A member whose value is the id of a trace.
    pub(crate) fn trace_id_field(&mut self, key: &str, id: TraceId) -> Result<(), AllocError>
        ensures { Adds result self.old self.new (fields_tokens (text_field key.now (hex_text 32 id) ∷ [])) }
    {
        let mut digits = Digits::new();
        digits.put_trace_id(id);
        self.text_field(key, digits.as_str())
    }

    /// A member whose value is the id of a span.
    pub(crate) fn span_id_field(&mut self, key: &str, id: SpanId) -> Result<(), AllocError>
        ensures { Adds result self.old self.new (fields_tokens (text_field key.now (hex_text 16 id) ∷ [])) }
    {
        let mut digits = Digits::new();
        digits.put_span_id(id);
        self.text_field(key, digits.as_str())
    }

    /// A member whose value is the id of a parent, empty where there is none.
    pub(crate) fn parent_field(&mut self, key: &str, id: SpanId) -> Result<(), AllocError>
        ensures { Adds result self.old self.new (fields_tokens (text_field key.now (parent_text id) ∷ [])) }
    {
        if id == SpanId::INVALID {
            self.text_field(key, "")
        } else {
            self.span_id_field(key, id)
        }
    }
}
