//! Where requests go.

ghost use Rattle.std.specs.Prelude.{◌≡◌, ◌++◌, ◌∷◌, [], OnErr, OnOk};
ghost use Rattle.std.specs.String.{string_bytes};

use std::alloc::{AllocError, Global};
use std::marker::Model;

/// Where requests go: the target of a request, the value of its `host`, and further headers, as names and values. What
/// of them cannot stand in a request is found when one is made.
#[derive(Debug, Drop)]
pub struct Endpoint {
    pub(crate) path: String,
    pub(crate) host: String,
    pub(crate) headers: Vec<(String, String)>,
}

impl Model for Endpoint {
    ghost use Rattle.std.specs.Prelude.{map};
    ghost use Rattle.std.specs.String.{string_bytes};
    ghost use Rattle.otel_http_post.specs.Endpoint.{PlainEndpoint};

    ghost Value = { PlainEndpoint };

    ghost view = { λ e. record {
      path = string_bytes e.path;
      host = string_bytes e.host;
      headers = map (λ pair. (string_bytes pair.0, string_bytes pair.1)) e.headers.items;
    } };
}

impl Endpoint {
    /// With no further header.
    pub fn new(alloc: Global, path: String, host: String) -> Endpoint
        ensures { result ≡ record { path = string_bytes path; host = string_bytes host; headers = [] } }
    {
        Endpoint {
            path,
            host,
            headers: Vec::new(alloc),
        }
    }

    /// One more header, after the others.
    pub fn add_header(&mut self, name: String, value: String) -> Result<(), AllocError>
        ensures ok { OnOk result (self.new ≡ record self.old {
          headers = self.old.headers ++ (string_bytes name, string_bytes value) ∷ [];
        }) }
        ensures err { OnErr result (self.new ≡ self.old) }
    {
        self.headers.push((name, value))?;
        Ok(())
    }

    /// The target of a request.
    pub fn path(&self) -> &str
        ensures { result.now ≡ self.now.path }
    {
        self.path.as_str()
    }

    /// The value of `host`.
    pub fn host(&self) -> &str
        ensures { result.now ≡ self.now.host }
    {
        self.host.as_str()
    }
}
