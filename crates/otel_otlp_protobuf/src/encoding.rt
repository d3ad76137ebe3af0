//! The encodings of the protocol.

ghost use Rattle.std.specs.Prelude.{◌≡◌};
ghost use Rattle.otel_otlp_protobuf.specs.Encodings.{content_type};

/// How a batch is written.
#[derive(Clone, Copy, Debug, PartialEq, Eq)]
pub enum Encoding {
    /// The bytes of protobuf.
    Protobuf,
    /// JSON.
    Json,
}

impl Encoding {
    /// What `content-type` says of it.
    pub fn content_type(self) -> &'static [u8]
        ensures { result.now ≡ content_type self }
    {
        match self {
            Encoding::Protobuf => b"application/x-protobuf",
            Encoding::Json => b"application/json",
        }
    }
}
