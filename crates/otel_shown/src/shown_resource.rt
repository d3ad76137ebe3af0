//! Who made spans, as a page shows it.

ghost use Rattle.std.specs.Prelude.{◌≡◌, IfOk, string_bytes};

use std::alloc::{AllocError, Global};
use std::marker::Model;
use std::sync::Arc;

/// The texts of a resource, which its clones share.
#[derive(Debug, Drop)]
struct ResourceTexts {
    service: String,
    attributes: String,
}

impl Model for ResourceTexts {
    ghost use Rattle.std.specs.Prelude.{string_bytes};
    ghost use Rattle.otel_shown.specs.Shown.{PlainShownResource};

    ghost Value = { PlainShownResource };

    ghost view = { λ texts. record {
      service = string_bytes texts.service;
      attributes = string_bytes texts.attributes;
    } };
}

/// Who made spans. Clones share its texts, so that a clone is a count.
#[derive(Debug, Drop)]
pub struct ShownResource {
    texts: Arc<ResourceTexts>,
}

impl Model for ShownResource {
    ghost use Rattle.std.specs.Arc.{arc_value};
    ghost use Rattle.otel_shown.specs.Shown.{PlainShownResource};

    ghost Value = { PlainShownResource };

    ghost view = { λ resource. arc_value resource.texts };
}

impl ShownResource {
    /// A resource by the name of its service, which is empty where nobody says it, and the lines of all its attributes,
    /// as those of a span's.
    pub fn new(
        alloc: Global,
        service: String,
        attributes: String,
    ) -> Result<ShownResource, AllocError>
        ensures { IfOk result (λ resource. resource
            ≡ record { service = string_bytes service; attributes = string_bytes attributes }) }
    {
        let texts = ResourceTexts {
            service,
            attributes,
        };
        Ok(ShownResource {
            texts: Arc::new(alloc, texts)?,
        })
    }

    /// The name of the service, empty where nobody says it.
    pub fn service(&self) -> &str
        ensures { result.now ≡ self.now.service }
    {
        self.texts.service.as_str()
    }

    /// A line `key=value` for each attribute, begun by a line feed.
    pub fn attributes(&self) -> &str
        ensures { result.now ≡ self.now.attributes }
    {
        self.texts.attributes.as_str()
    }
}

impl Clone for ShownResource {
    ghost use Rattle.std.specs.Prelude.{◌≡◌};

    ghost is_clone = { λ resource copy. copy ≡ resource };

    fn clone(&self) -> Result<ShownResource, AllocError> {
        Ok(ShownResource {
            texts: self.texts.clone()?,
        })
    }
}
