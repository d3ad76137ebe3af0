//! The law that ties the hops of a consistently sampled trace to the spans of a provider. The function does nothing but
//! cite a law; its contract is the law, for all values.

ghost use Rattle.otel_pipeline.specs.Hops.{EachStartBelow};
ghost use Rattle.otel_probability.specs.Hops.{IsHop};

use otel_pipeline::laws::starts_below_spans_go_by_the_answer;
use otel_pipeline::trace::SpanProcessor;
use otel_probability::ConsistentParentBased;
use otel_sampling::trace::{GivesIds, ShouldSample};

/// A span that starts at an open provider under the consistent sampler by parents, in a context that is not suppressed
/// and has an active span, is a hop from that one. So over any number of such starts `children_keep_the_threshold`
/// says that decision and threshold stay those of the root.
pub fn starts_under_consistent_parents_make_hops<P: SpanProcessor, G: GivesIds>()
    ensures { EachStartBelow P.SpanProcessor ⟦<ConsistentParentBased as ShouldSample>⟧ G.GivesIds
        (λ _ _ parent child. IsHop parent child) }
{
    starts_below_spans_go_by_the_answer::<P, ConsistentParentBased, G>();
}
