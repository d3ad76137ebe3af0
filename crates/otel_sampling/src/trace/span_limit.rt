//! How much a span keeps (OpenTelemetry specification, "Span Limits"): what is over a limit is counted and not kept.

/// The limits of each span of a provider.
#[derive(Clone, Copy, Debug, PartialEq, Eq)]
pub struct SpanLimits {
    pub max_events_per_span: u32,
    pub max_attributes_per_span: u32,
    pub max_links_per_span: u32,
    pub max_attributes_per_event: u32,
    pub max_attributes_per_link: u32,
    /// How many characters a text among the attributes of spans, events and links keeps; all where there is no limit.
    pub max_attribute_value_length: Option<u32>,
}

impl Default for SpanLimits {
    ghost use Rattle.std.specs.Prelude.{◌≡◌};
    ghost use Rattle.otel_sampling.specs.Limits.{default_limits};

    ghost is_default = { λ limits. limits ≡ default_limits };

    /// 128 of each, and texts of any length.
    fn default() -> SpanLimits {
        SpanLimits {
            max_events_per_span: 128,
            max_attributes_per_span: 128,
            max_links_per_span: 128,
            max_attributes_per_event: 128,
            max_attributes_per_link: 128,
            max_attribute_value_length: None,
        }
    }
}
