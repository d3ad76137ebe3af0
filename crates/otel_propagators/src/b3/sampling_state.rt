//! What B3 says of whether a trace is sampled (OpenZipkin, "B3 Propagation", "Sampling State"). The flags of a trace
//! keep it: beside the sampled bit, which another party reads, 2 for a decision that is deferred and 4 for debug.

ghost use Rattle.std.specs.Prelude.{◌≡◌};
ghost use Rattle.otel_propagators.specs.B3.{flags_of, state_of};

use opentelemetry::TraceFlags;

#[derive(Clone, Copy, Debug, PartialEq, Eq)]
pub enum SamplingState {
    /// The span is sampled.
    Accept,
    /// It is not.
    Deny,
    /// Who reads the headers decides.
    Defer,
    /// It is sampled, and each party hands that on.
    Debug,
}

impl SamplingState {
    /// The state of these flags. Debug comes first, and a span that is sampled is no longer deferred.
    pub fn of(flags: TraceFlags) -> SamplingState
        ensures { result ≡ state_of flags }
    {
        let bits = flags.to_u8();
        if bits / 4 % 2 == 1 {
            SamplingState::Debug
        } else if bits % 2 == 1 {
            SamplingState::Accept
        } else if bits / 2 % 2 == 1 {
            SamplingState::Defer
        } else {
            SamplingState::Deny
        }
    }

    /// The flags that keep this state.
    pub fn flags(self) -> TraceFlags
        ensures { result ≡ flags_of self }
    {
        match self {
            SamplingState::Accept => TraceFlags::new(1),
            SamplingState::Deny => TraceFlags::new(0),
            SamplingState::Defer => TraceFlags::new(2),
            SamplingState::Debug => TraceFlags::new(5),
        }
    }
}
