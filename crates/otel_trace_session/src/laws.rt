//! The laws of the turns that the commands of a session take, over the definitions alone. Each function does nothing;
//! its contract is the law, for every processor that may keep batches, every sampler and every source of ids.

ghost use Rattle.otel_trace_session.specs.Laws.{
  ClosesShowRest,
  ContextsAreKept,
  FeedsJoin,
  FlushesEmpty,
  RepliesShowAll,
  RunsAreFollowed,
  RunsAreHeard,
  RunsJoin,
  TracesAreWhole,
};

use otel_pipeline::trace::{KeepsBatches, ProviderOf, Provides};
use otel_sampling::trace::{GivesIds, ShouldSample};

/// A run, and another from where it ends, are one run.
pub fn runs_join<P: KeepsBatches, S: ShouldSample, G: GivesIds>()
    ensures { RunsJoin ⟦<ProviderOf<P, S, G> as Provides>⟧.calls }
{}

/// Each processor follows all that was delivered, in order; and one that was open hears all of it, also where commands
/// shut it down, since nothing is delivered after that.
pub fn runs_are_heard<P: KeepsBatches, S: ShouldSample, G: GivesIds>()
    ensures follows { RunsAreFollowed ⟦<ProviderOf<P, S, G> as Provides>⟧.calls }
    ensures heard { RunsAreHeard ⟦<ProviderOf<P, S, G> as Provides>⟧.calls }
{}

/// At a provider that is open, under a sampler that goes by parents, each trace is sampled whole, as far as its spans
/// have their names.
pub fn runs_keep_traces_whole<P: KeepsBatches, S: ShouldSample, G: GivesIds>()
    ensures { TracesAreWhole ⟦<ProviderOf<P, S, G> as Provides>⟧.calls }
{}

/// A name that has a span keeps one with its span context, unless it is given up.
pub fn runs_keep_contexts<P: KeepsBatches, S: ShouldSample, G: GivesIds>()
    ensures { ContextsAreKept ⟦<ProviderOf<P, S, G> as Provides>⟧.calls }
{}

/// The replies show all batches that the first processor's exporter took meanwhile, in order and each once.
pub fn runs_show_each_span_once<P: KeepsBatches, S: ShouldSample, G: GivesIds>()
    ensures { RepliesShowAll ⟦<ProviderOf<P, S, G> as Provides>⟧.calls }
{}

/// Once the provider is shut down, what the replies have shown and what is left are all batches that came meanwhile.
pub fn closes_show_the_rest<P: KeepsBatches, S: ShouldSample, G: GivesIds>()
    ensures { ClosesShowRest ⟦<ProviderOf<P, S, G> as Provides>⟧.calls }
{}

/// After a flush or a shutdown that came last and was answered by Ok no span waits.
pub fn flushed_runs_leave_none_waiting<P: KeepsBatches, S: ShouldSample, G: GivesIds>()
    ensures { FlushesEmpty ⟦<ProviderOf<P, S, G> as Provides>⟧.calls }
{}

/// Texts that are fed one after another are one text, where the first of them ends as a line does: its replies are
/// theirs, and its lines are counted through.
pub fn feeds_join<P: KeepsBatches, S: ShouldSample, G: GivesIds>()
    ensures { FeedsJoin ⟦<ProviderOf<P, S, G> as Provides>⟧.calls }
{}
