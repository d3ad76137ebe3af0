//! Where the ids of traces and spans come from (OpenTelemetry specification, "Id Generators"). The generator of the
//! SDK draws words from xoshiro256++ under a seed: the same seed gives the same ids. A provider asks a source, which is
//! told when a span starts: that generator, the one of AWS X-Ray, or one that an application wrote.

ghost use Rattle.std.specs.Prelude.{◌≡◌, ℕ};
ghost use Rattle.otel_sampling.specs.Ids.{next_trace_id};
ghost use Rattle.rand_xoshiro.specs.SplitMix64.{splitmix_seed};
ghost use Rattle.rand_xoshiro.specs.Xoshiro256.{of_seed};

use crate::trace::XrayIdGenerator;
use opentelemetry::{Moment, SpanId, TraceId};
use rand_core::SeedableRng;
use rand_core::utils::NextWord;
use rand_xoshiro::Xoshiro256PlusPlus;
use std::marker::Model;

/// Makes ids, and is told nothing: what a generator of an application writes, as in the Rust SDK. A provider asks it by
/// way of `IdSourceOf::Custom`.
pub trait IdGenerator: Drop {
    /// Which trace ids come next, and the generator afterwards.
    ghost trace_id_gives: { Self → ℕ → Self → Type 0 } = { λ _ _ _. Unit {0} };

    /// Which span ids come next, and the generator afterwards.
    ghost span_id_gives: { Self → ℕ → Self → Type 0 } = { λ _ _ _. Unit {0} };

    fn new_trace_id(&mut self) -> TraceId
        ensures { trace_id_gives self.old result self.new };

    fn new_span_id(&mut self) -> SpanId
        ensures { span_id_gives self.old result self.new };
}

impl IdGenerator for Box<dyn IdGenerator> {
    ghost use Rattle.std.specs.Prelude.{◌≡◌};

    ghost trace_id_gives = { λ b id c. (v : _) × (c ≡ record b { value = v })
        × (IdGenerator-box b).trace_id_gives b.value id v };

    ghost span_id_gives = { λ b id c. (v : _) × (c ≡ record b { value = v })
        × (IdGenerator-box b).span_id_gives b.value id v };

    fn new_trace_id(&mut self) -> TraceId {
        let inner = &mut **self;
        inner.new_trace_id()
    }

    fn new_span_id(&mut self) -> SpanId {
        let inner = &mut **self;
        inner.new_span_id()
    }
}

/// Gives the ids of spans that start, and is told when: what a provider asks. It has no default, so that a start's
/// trace id is by contract the one that this source gives for that moment.
pub trait GivesIds: Drop {
    /// Which trace id comes next for a span that starts at a moment, in nanoseconds since 1970, and the source
    /// afterwards.
    ghost gives_trace_id: { Self → ℕ → ℕ → Self → Type 0 };

    /// Which span id comes next, and the source afterwards.
    ghost gives_span_id: { Self → ℕ → Self → Type 0 };

    /// The id of a trace whose first span starts at this moment.
    fn trace_id_at(&mut self, start: Moment) -> TraceId
        ensures { gives_trace_id self.old start.0 result self.new };

    fn next_span_id(&mut self) -> SpanId
        ensures { gives_span_id self.old result self.new };
}

/// Draws ids from xoshiro256++. A span id is the next word, a trace id the next two, the first its low half.
#[derive(Debug, Drop)]
pub struct RandomIdGenerator {
    words: Xoshiro256PlusPlus,
}

impl Model for RandomIdGenerator {
    ghost use Rattle.std.specs.Prelude.{ℕ, List};

    ghost Value = { List ℕ };

    ghost view = { λ a. a.words };
}

impl RandomIdGenerator {
    /// The generator of a seed, whose state is what SplitMix64 draws from it.
    pub fn new(seed: u64) -> RandomIdGenerator
        ensures { result ≡ of_seed (splitmix_seed 32 seed) }
    {
        RandomIdGenerator {
            words: Xoshiro256PlusPlus::seed_from_u64(seed),
        }
    }

    /// The next trace id as a number.
    #[tactic(auto, unfolding(crate::specs::Ids::next_trace_id))]
    pub(crate) fn next_trace_number(&mut self) -> u128
        ensures { (result, self.new) ≡ next_trace_id self.old }
    {
        let low = self.words.next_word();
        let high = self.words.next_word();
        u128::from(low) | (u128::from(high) << 64)
    }
}

impl IdGenerator for RandomIdGenerator {
    ghost use Rattle.std.specs.Prelude.{◌≡◌};
    ghost use Rattle.otel_sampling.specs.Ids.{next_span_id, next_trace_id};

    ghost trace_id_gives = { λ old id new. (id, new) ≡ next_trace_id old };

    ghost span_id_gives = { λ old id new. (id, new) ≡ next_span_id old };

    fn new_trace_id(&mut self) -> TraceId {
        TraceId::from(self.next_trace_number())
    }

    #[tactic(auto, unfolding(crate::specs::Ids::next_span_id))]
    fn new_span_id(&mut self) -> SpanId {
        SpanId::from(self.words.next_word())
    }
}

/// The moment is ignored.
impl GivesIds for RandomIdGenerator {
    ghost use Rattle.std.specs.Prelude.{◌≡◌};
    ghost use Rattle.otel_sampling.specs.Ids.{next_span_id, next_trace_id};

    ghost gives_trace_id = { λ old start id new. (id, new) ≡ next_trace_id old };

    ghost gives_span_id = { λ old id new. (id, new) ≡ next_span_id old };

    fn trace_id_at(&mut self, _start: Moment) -> TraceId {
        self.new_trace_id()
    }

    fn next_span_id(&mut self) -> SpanId {
        self.new_span_id()
    }
}

/// The generator of the SDK, the one of AWS X-Ray, or a custom one of any one kind.
#[derive(Drop)]
pub enum IdSourceOf<C> {
    Random(RandomIdGenerator),
    Xray(XrayIdGenerator),
    Custom(C),
}

/// Where a provider takes its ids from.
pub type IdSource = IdSourceOf<Box<dyn IdGenerator>>;

impl<C: IdGenerator> GivesIds for IdSourceOf<C> {
    ghost use Rattle.otel_sampling.specs.IdSource.{SourceGives};
    ghost use Rattle.otel_sampling.specs.Ids.{next_span_id, next_trace_id};
    ghost use Rattle.otel_sampling.specs.XrayIds.{next_xray_trace_id};

    ghost gives_trace_id = { λ old start id new.
        SourceGives next_trace_id (next_xray_trace_id start) C.trace_id_gives old id new };

    ghost gives_span_id = { SourceGives next_span_id next_span_id C.span_id_gives };

    /// A custom generator is not told the moment.
    fn trace_id_at(&mut self, start: Moment) -> TraceId {
        match self {
            IdSourceOf::Random(random) => random.trace_id_at(start),
            IdSourceOf::Xray(xray) => xray.trace_id_at(start),
            IdSourceOf::Custom(custom) => custom.new_trace_id(),
        }
    }

    fn next_span_id(&mut self) -> SpanId {
        match self {
            IdSourceOf::Random(random) => random.next_span_id(),
            IdSourceOf::Xray(xray) => xray.next_span_id(),
            IdSourceOf::Custom(custom) => custom.new_span_id(),
        }
    }
}
