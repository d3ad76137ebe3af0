//! Who makes the ids of spans, which spans are sampled, how much a span keeps, and the strings that configure all this.

pub mod config;
pub mod id_generator;
pub mod no_sampler;
pub mod parent_based;
pub mod ratio;
pub mod sampler;
pub mod span_limit;
pub mod xray_id_generator;

pub use config::{
    BatchStrings, Config, ConfigOf, ConfigStrings, Replacement, Setting, SettingFault, queue_size,
};
pub use id_generator::{GivesIds, IdGenerator, IdSource, IdSourceOf, RandomIdGenerator};
pub use no_sampler::NoSampler;
pub use parent_based::ParentBased;
pub use ratio::{Ratio, RatioError};
pub use sampler::{Sampler, SamplerOf, SamplingDecision, SamplingResult, ShouldSample};
pub use span_limit::SpanLimits;
pub use xray_id_generator::XrayIdGenerator;
