//! The scope of a library: who makes the spans.

ghost use Rattle.std.specs.Prelude.{◌≡◌, Some, string_bytes, IfOk};
ghost use Rattle.std.specs.Option.{option_copied};
ghost use Rattle.opentelemetry.specs.Plain.{scope_named};

use super::KeyValue;
use std::alloc::{AllocError, Global};
use std::marker::Model;
use std::sync::Arc;

/// The parts of a scope, which its clones share.
#[derive(Debug, Drop)]
struct ScopeParts {
    name: String,
    version: Option<String>,
    schema_url: Option<String>,
    attributes: Vec<KeyValue>,
}

impl Model for ScopeParts {
    ghost use Rattle.std.specs.Prelude.{string_bytes};
    ghost use Rattle.std.specs.Option.{option_map};
    ghost use Rattle.opentelemetry.specs.Plain.{PlainScope};

    ghost Value = { PlainScope };

    ghost view = { λ scope. record {
      name = string_bytes scope.name;
      version = option_map string_bytes scope.version;
      schema_url = option_map string_bytes scope.schema_url;
      attributes = scope.attributes.items;
    } };
}

impl PartialEq for ScopeParts {
    ghost use Rattle.opentelemetry.specs.Same.{partial_equivalence_from_decides};
    ghost use Rattle.opentelemetry.specs.SameParts.{same_scope, same_scope_decides};

    ghost eq = { same_scope };

    ghost laws = { partial_equivalence_from_decides same_scope same_scope_decides };

    fn eq(&self, other: &ScopeParts) -> bool {
        self.name == other.name
            && self.version == other.version
            && self.schema_url == other.schema_url
            && self.attributes == other.attributes
    }
}

impl Eq for ScopeParts {
    ghost use Rattle.opentelemetry.specs.Same.{equivalence_from_decides};
    ghost use Rattle.opentelemetry.specs.SameParts.{same_scope, same_scope_decides};

    ghost laws = { equivalence_from_decides same_scope same_scope_decides };
}

/// The library that makes spans: its name, version, schema and attributes (OpenTelemetry specification,
/// "Instrumentation Scope"). Clones share one copy, so that a clone is a count.
#[derive(Debug, Drop)]
pub struct InstrumentationScope {
    parts: Arc<ScopeParts>,
}

impl Model for InstrumentationScope {
    ghost use Rattle.std.specs.Arc.{arc_value};
    ghost use Rattle.opentelemetry.specs.Plain.{PlainScope};

    ghost Value = { PlainScope };

    ghost view = { λ scope. arc_value scope.parts };
}

/// A scope in the making.
#[derive(Debug, Drop)]
pub struct InstrumentationScopeBuilder {
    parts: ScopeParts,
    alloc: Global,
}

impl Model for InstrumentationScopeBuilder {
    ghost use Rattle.opentelemetry.specs.Plain.{PlainScope};

    ghost Value = { PlainScope };

    ghost view = { λ builder. builder.parts };
}

impl InstrumentationScope {
    /// Begins a scope with a name and nothing else.
    pub fn builder(alloc: Global, name: String) -> InstrumentationScopeBuilder
        ensures { result ≡ scope_named (string_bytes name) }
    {
        InstrumentationScopeBuilder {
            parts: ScopeParts {
                name,
                version: None,
                schema_url: None,
                attributes: Vec::new(alloc),
            },
            alloc,
        }
    }

    /// The name of the library, which may be empty.
    pub fn name(&self) -> &str
        ensures { result.now ≡ self.now.name }
    {
        self.parts.name.as_str()
    }

    /// The version of the library, if one was given.
    pub fn version(&self) -> Option<&str>
        ensures { option_copied result ≡ self.now.version }
    {
        self.parts.version.as_deref()
    }

    /// Where the schema of what the library records stands, if it was given.
    pub fn schema_url(&self) -> Option<&str>
        ensures { option_copied result ≡ self.now.schema_url }
    {
        self.parts.schema_url.as_deref()
    }

    /// The attributes of the scope, in the order in which they were given.
    pub fn attributes(&self) -> &[KeyValue]
        ensures { result.now ≡ self.now.attributes }
    {
        self.parts.attributes.as_slice()
    }
}

impl Clone for InstrumentationScope {
    ghost use Rattle.std.specs.Prelude.{◌≡◌};

    ghost is_clone = { λ scope copy. copy ≡ scope };

    fn clone(&self) -> Result<InstrumentationScope, AllocError> {
        Ok(InstrumentationScope {
            parts: self.parts.clone()?,
        })
    }
}

impl PartialEq for InstrumentationScope {
    ghost use Rattle.opentelemetry.specs.Same.{partial_equivalence_from_decides};
    ghost use Rattle.opentelemetry.specs.SameParts.{same_scope, same_scope_decides};

    ghost eq = { same_scope };

    ghost laws = { partial_equivalence_from_decides same_scope same_scope_decides };

    fn eq(&self, other: &InstrumentationScope) -> bool {
        *self.parts == *other.parts
    }
}

impl Eq for InstrumentationScope {
    ghost use Rattle.opentelemetry.specs.Same.{equivalence_from_decides};
    ghost use Rattle.opentelemetry.specs.SameParts.{same_scope, same_scope_decides};

    ghost laws = { equivalence_from_decides same_scope same_scope_decides };
}

impl InstrumentationScopeBuilder {
    /// With this version of the library, in place of an earlier one.
    pub fn with_version(self, version: String) -> InstrumentationScopeBuilder
        ensures { result ≡ record self { version = Some (string_bytes version) } }
    {
        let InstrumentationScopeBuilder { parts, alloc } = self;
        let parts = ScopeParts {
            version: Some(version),
            ..parts
        };
        InstrumentationScopeBuilder { parts, alloc }
    }

    /// With the address of this schema, in place of an earlier one.
    pub fn with_schema_url(self, schema_url: String) -> InstrumentationScopeBuilder
        ensures { result ≡ record self { schema_url = Some (string_bytes schema_url) } }
    {
        let InstrumentationScopeBuilder { parts, alloc } = self;
        let parts = ScopeParts {
            schema_url: Some(schema_url),
            ..parts
        };
        InstrumentationScopeBuilder { parts, alloc }
    }

    /// With these attributes, in place of earlier ones.
    pub fn with_attributes(self, attributes: Vec<KeyValue>) -> InstrumentationScopeBuilder
        ensures { result ≡ record self { attributes = attributes.items } }
    {
        let InstrumentationScopeBuilder { parts, alloc } = self;
        let parts = ScopeParts {
            attributes,
            ..parts
        };
        InstrumentationScopeBuilder { parts, alloc }
    }

    /// The scope, whose clones will share these parts.
    pub fn build(self) -> Result<InstrumentationScope, AllocError>
        ensures { IfOk result (λ scope. scope ≡ self) }
    {
        Ok(InstrumentationScope {
            parts: Arc::new(self.alloc, self.parts)?,
        })
    }
}
