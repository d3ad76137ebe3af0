//! The laws of ratios and delegates, over the definitions alone. Each function does nothing; its contract is the law, for
//! all values.

ghost use Rattle.std.specs.Prelude.{◌≡◌, ◌*◌, ◌<◌, ◌≤◌, false, IsTrue, ℕ, List, Option};
ghost use Rattle.otel_sampling.specs.Config.{IsConfiguredSampler};
ghost use Rattle.otel_sampling.specs.ConfigFaults.{IsIgnored, IsIgnoredString, Reads};
ghost use Rattle.otel_sampling.specs.ConfigStrings.{IsConfigured, IsConfiguredLength, IsConfiguredNumber};
ghost use Rattle.otel_sampling.specs.ConfigStrings.{IsConfiguredRatio, IsNumber, IsQueueSize, PlainConfigStrings, is_true};
ghost use Rattle.otel_sampling.specs.ParentBased.{FollowParents, default_delegates};
ghost use Rattle.otel_sampling.specs.Ratio.{PlainRatio, all_traces, low_half, samples};
ghost use Rattle.otel_sampling.specs.Sampler.{SamplerPlan, always_on, parent_based};
ghost use Rattle.otel_sampling.specs.declared.trace.config.faults.Setting.{Setting};
ghost use Rattle.otel_sampling.specs.declared.trace.config.faults.Setting.TheVariants as settings;

use crate::trace::ShouldSample;

/// What a ratio samples, each ratio that is at least as large samples: a service that samples more keeps whole what one
/// that samples less keeps.
pub fn larger_ratios_sample_more()
    ensures { (r s : PlainRatio) (trace_id : ℕ) → 0 < r.denominator
        → r.numerator * s.denominator ≤ s.numerator * r.denominator
        → IsTrue (samples r trace_id) → IsTrue (samples s trace_id) }
{}

/// The low half of a trace id decides alone whether a ratio samples the trace.
pub fn low_halves_decide()
    ensures { (r : PlainRatio) (one other : ℕ) → low_half one ≡ low_half other
        → samples r one ≡ samples r other }
{}

/// The standard's delegates decide as the parents did, whatever the sampler of roots.
pub fn default_delegates_follow_parents<S: ShouldSample>()
    ensures { (root : S) → FollowParents S.answer (default_delegates root) }
{}

/// Where a string is ignored, what its fault names is what is configured. The limits of a span are those that the
/// fault cites; these clauses say it of the other settings.
pub fn ignored_strings_configure_defaults<C: Drop>()
    ensures sampler { (strings : PlainConfigStrings) (sampler : SamplerPlan C) → IsIgnored strings settings.Sampler
        → IsConfiguredSampler strings sampler → sampler ≡ parent_based always_on }
    ensures ratio { (strings : PlainConfigStrings) (ratio : PlainRatio) → IsIgnored strings settings.SamplerArg
        → IsConfiguredRatio strings.sampler_arg ratio → ratio ≡ all_traces }
    ensures not_disabled { (strings : PlainConfigStrings) → IsIgnored strings settings.SdkDisabled
        → is_true strings.sdk_disabled ≡ false }
    ensures numbers { (bits : ℕ) (setting : Setting) (given : Option (List ℕ)) (default count : ℕ)
        → ((text : List ℕ) (number : ℕ) → IsNumber bits text number → Reads setting text)
        → IsIgnoredString setting given → IsConfiguredNumber bits given default count → count ≡ default }
    ensures general_length { (strings : PlainConfigStrings) (default length : Option ℕ)
        → IsIgnored strings settings.GeneralAttributeValueLengthLimit
        → IsConfiguredLength strings.general_attribute_value_length_limit default length → length ≡ default }
{}

/// And a queue's size that is ignored configures the default.
pub fn ignored_queue_sizes_configure_the_default()
    ensures { (given : Option (List ℕ)) (default size : ℕ) → IsIgnoredString settings.MaxQueueSize given
        → IsConfigured IsQueueSize given default size → size ≡ default }
{}
