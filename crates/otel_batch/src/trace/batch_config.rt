//! How a batch processor is configured (OpenTelemetry specification, "Batching processor"): how many spans may wait,
//! how many a batch has, and how long the worker and an export may take. A batch never has more spans than may wait.

ghost use Rattle.std.specs.Prelude.{◌≡◌, ◌≤◌, string_bytes};
ghost use Rattle.std.specs.Duration.{as_nanos};
ghost use Rattle.std.specs.Option.{option_map};
ghost use Rattle.otel_sampling.specs.ConfigStrings.{IsConfigured, IsConfiguredNumber, IsQueueSize};
ghost use Rattle.otel_batch.specs.PlainBatchConfig.{IsConfiguredTime, IsBatchConfigOf, cut_to_queue};

use otel_sampling::trace::{BatchStrings, queue_size};
use std::marker::Model;
use std::time::Duration;

/// The usual source of `BatchStrings::schedule_delay`.
pub const OTEL_BSP_SCHEDULE_DELAY: &str = "OTEL_BSP_SCHEDULE_DELAY";

/// The usual source of `BatchStrings::max_queue_size`.
pub const OTEL_BSP_MAX_QUEUE_SIZE: &str = "OTEL_BSP_MAX_QUEUE_SIZE";

/// The usual source of `BatchStrings::max_export_batch_size`.
pub const OTEL_BSP_MAX_EXPORT_BATCH_SIZE: &str = "OTEL_BSP_MAX_EXPORT_BATCH_SIZE";

/// The usual source of `BatchStrings::export_timeout`.
pub const OTEL_BSP_EXPORT_TIMEOUT: &str = "OTEL_BSP_EXPORT_TIMEOUT";

/// How many spans may wait, where nothing else is said.
pub const OTEL_BSP_MAX_QUEUE_SIZE_DEFAULT: usize = 2048;

/// How many spans a batch has at most, where nothing else is said.
pub const OTEL_BSP_MAX_EXPORT_BATCH_SIZE_DEFAULT: usize = 512;

/// The time between two drains by the timer, where nothing else is said, in milliseconds.
pub const OTEL_BSP_SCHEDULE_DELAY_DEFAULT: u64 = 5_000;

/// How long an export may take, where nothing else is said, in milliseconds.
pub const OTEL_BSP_EXPORT_TIMEOUT_DEFAULT: u64 = 30_000;

/// The sizes and times of a batch processor.
#[derive(Debug, Drop)]
pub struct BatchConfig {
    max_queue_size: usize,
    max_export_batch_size: usize,
    scheduled_delay: Duration,
    max_export_timeout: Duration,
}

impl Model for BatchConfig {
    ghost use Rattle.std.specs.Prelude.{◌≤◌};
    ghost use Rattle.std.specs.Duration.{as_nanos};
    ghost use Rattle.otel_batch.specs.PlainBatchConfig.{PlainBatchConfig};

    ghost Value = { PlainBatchConfig };

    ghost view = { λ c. record {
      max_queue_size = c.max_queue_size;
      max_export_batch_size = c.max_export_batch_size;
      scheduled_delay = as_nanos c.scheduled_delay;
      max_export_timeout = as_nanos c.max_export_timeout;
    } };

    ghost invariant = { λ c. c.max_export_batch_size ≤ c.max_queue_size };
}

impl BatchConfig {
    /// How many spans may wait.
    pub fn max_queue_size(&self) -> usize
        ensures { result ≡ self.now.max_queue_size }
    {
        self.max_queue_size
    }

    /// How many spans a batch has at most; with zero, as many as may wait.
    pub fn max_export_batch_size(&self) -> usize
        ensures value { result ≡ self.now.max_export_batch_size }
        ensures fits { result ≤ self.now.max_queue_size }
    {
        self.max_export_batch_size
    }

    /// The time between two drains by the timer.
    pub fn scheduled_delay(&self) -> Duration
        ensures { as_nanos result ≡ self.now.scheduled_delay }
    {
        self.scheduled_delay
    }

    /// How long an export may take.
    pub fn max_export_timeout(&self) -> Duration
        ensures { as_nanos result ≡ self.now.max_export_timeout }
    {
        self.max_export_timeout
    }
}

impl Default for BatchConfig {
    ghost use Rattle.std.specs.Prelude.{◌≡◌};
    ghost use Rattle.otel_batch.specs.PlainBatchConfig.{default_batch_config};

    ghost is_default = { λ config. config ≡ default_batch_config };

    /// What is configured where nothing else is said.
    fn default() -> BatchConfig {
        BatchConfigBuilder::default().build()
    }
}

/// Makes a configuration.
#[derive(Debug, Drop)]
pub struct BatchConfigBuilder {
    max_queue_size: usize,
    max_export_batch_size: usize,
    scheduled_delay: Duration,
    max_export_timeout: Duration,
}

impl Model for BatchConfigBuilder {
    ghost use Rattle.std.specs.Duration.{as_nanos};
    ghost use Rattle.otel_batch.specs.PlainBatchConfig.{PlainBatchConfig};

    ghost Value = { PlainBatchConfig };

    ghost view = { λ b. record {
      max_queue_size = b.max_queue_size;
      max_export_batch_size = b.max_export_batch_size;
      scheduled_delay = as_nanos b.scheduled_delay;
      max_export_timeout = as_nanos b.max_export_timeout;
    } };
}

impl Default for BatchConfigBuilder {
    ghost use Rattle.std.specs.Prelude.{◌≡◌};
    ghost use Rattle.otel_batch.specs.PlainBatchConfig.{default_batch_config};

    ghost is_default = { λ builder. builder ≡ default_batch_config };

    /// Makes the default configuration.
    fn default() -> BatchConfigBuilder {
        BatchConfigBuilder {
            max_queue_size: OTEL_BSP_MAX_QUEUE_SIZE_DEFAULT,
            max_export_batch_size: OTEL_BSP_MAX_EXPORT_BATCH_SIZE_DEFAULT,
            scheduled_delay: Duration::from_millis(OTEL_BSP_SCHEDULE_DELAY_DEFAULT),
            max_export_timeout: Duration::from_millis(OTEL_BSP_EXPORT_TIMEOUT_DEFAULT),
        }
    }
}

impl BatchConfigBuilder {
    /// What the strings say, and else the defaults. The size of a batch is cut to that of the queue already here, so
    /// that a longer queue set afterwards does not lengthen it.
    pub fn from_strings(strings: &BatchStrings) -> BatchConfigBuilder
        ensures { IsBatchConfigOf strings.now result }
    {
        let max_queue_size = configured_queue_size(&strings.max_queue_size);
        let max_export_batch_size = size_or(
            &strings.max_export_batch_size,
            OTEL_BSP_MAX_EXPORT_BATCH_SIZE_DEFAULT,
        );
        BatchConfigBuilder {
            max_queue_size,
            max_export_batch_size: max_export_batch_size.min(max_queue_size),
            scheduled_delay: time_or(&strings.schedule_delay, OTEL_BSP_SCHEDULE_DELAY_DEFAULT),
            max_export_timeout: time_or(&strings.export_timeout, OTEL_BSP_EXPORT_TIMEOUT_DEFAULT),
        }
    }

    /// So many spans may wait.
    pub fn with_max_queue_size(mut self, max_queue_size: usize) -> BatchConfigBuilder
        ensures { result ≡ record self { max_queue_size = max_queue_size } }
    {
        self.max_queue_size = max_queue_size;
        self
    }

    /// A batch has so many spans at most, and no more than may wait.
    pub fn with_max_export_batch_size(mut self, max_export_batch_size: usize) -> BatchConfigBuilder
        ensures { result ≡ record self { max_export_batch_size = max_export_batch_size } }
    {
        self.max_export_batch_size = max_export_batch_size;
        self
    }

    /// The time between two drains by the timer.
    pub fn with_scheduled_delay(mut self, scheduled_delay: Duration) -> BatchConfigBuilder
        ensures { result ≡ record self { scheduled_delay = as_nanos scheduled_delay } }
    {
        self.scheduled_delay = scheduled_delay;
        self
    }

    /// The configuration. The size of a batch is cut to that of the queue.
    pub fn build(self) -> BatchConfig
        ensures { result ≡ cut_to_queue self }
    {
        BatchConfig {
            max_queue_size: self.max_queue_size,
            max_export_batch_size: self.max_export_batch_size.min(self.max_queue_size),
            scheduled_delay: self.scheduled_delay,
            max_export_timeout: self.max_export_timeout,
        }
    }
}

/// How many spans may wait, as a string says, and else the default.
fn configured_queue_size(given: &Option<String>) -> usize
    ensures { IsConfigured IsQueueSize (option_map string_bytes given.now) 2048 result }
{
    match given {
        Some(text) => queue_size(text.as_str()).unwrap_or(OTEL_BSP_MAX_QUEUE_SIZE_DEFAULT),
        None => OTEL_BSP_MAX_QUEUE_SIZE_DEFAULT,
    }
}

/// The size that a string writes, and else this one.
fn size_or(given: &Option<String>, default: usize) -> usize
    ensures { IsConfiguredNumber 64 (option_map string_bytes given.now) default result }
{
    match given {
        Some(text) => text.as_str().parse::<usize>().unwrap_or(default),
        None => default,
    }
}

/// The time of so many milliseconds as a string writes, and else of this many.
fn time_or(given: &Option<String>, default: u64) -> Duration
    ensures { IsConfiguredTime (option_map string_bytes given.now) default (as_nanos result) }
{
    let milliseconds = match given {
        Some(text) => text.as_str().parse::<u64>().unwrap_or(default),
        None => default,
    };
    Duration::from_millis(milliseconds)
}
