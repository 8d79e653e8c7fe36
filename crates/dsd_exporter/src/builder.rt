//! What an exporter of DogStatsD lines is to be built with.

ghost use Rattle.std.specs.Prelude.{◌≡◌, IfOk, IfErr, Some, None, true};
ghost use Rattle.dsd_addresses.specs.declared.faults.BuildError.TheVariants as causes;
ghost use Rattle.dsd_addresses.specs.Remotes.{IsRemote, IsRefusal, remote_text};
ghost use Rattle.dsd_addresses.specs.Limits.{fault_of_limit};
ghost use Rattle.dsd_exporter.specs.Builders.{IsDefault, limit_of, interval_of};

use crate::configuration::{AggregationMode, StateConfiguration};
use dsd_addresses::{BuildError, RemoteAddr, limit_fault};
use hash_starts::HashStart;
use metrics_core::{Label, Memory};
use std::alloc::Global;
use std::marker::Model;

/// What an exporter is to be built with. A call that refuses a setting consumes the builder. Durations are in nanoseconds.
#[derive(Drop)]
pub struct DogStatsDBuilder {
    remote_addr: RemoteAddr,
    max_payload_len: Option<u64>,
    write_timeout: u64,
    flush_interval: Option<u64>,
    synchronous: bool,
    global_labels: Vec<Label>,
    hash_start: HashStart,
    configuration: StateConfiguration,
}

impl Model for DogStatsDBuilder {
    ghost use Rattle.dsd_addresses.specs.Remotes.{remote_text};
    ghost use Rattle.dsd_exporter.specs.Builders.{BuilderText};

    ghost Value = { BuilderText };

    ghost view = { λ builder. record {
      remote = remote_text builder.remote_addr;
      limit = builder.max_payload_len;
      write_timeout = builder.write_timeout;
      interval = builder.flush_interval;
      synchronous = builder.synchronous;
      labels = builder.global_labels.items;
      configuration = builder.configuration;
    } };
}

/// The settings of a builder, with the payload limit and the flush interval that hold where none was set.
#[derive(Drop)]
pub struct BuilderParts {
    /// Where lines are sent.
    pub remote_addr: RemoteAddr,
    /// The payload limit, in bytes.
    pub max_payload_len: u64,
    /// How long a write may take, in nanoseconds.
    pub write_timeout: u64,
    /// How long to wait between two flushes, in nanoseconds.
    pub flush_interval: u64,
    /// Whether sends on the caller's own thread were asked for.
    pub synchronous: bool,
    /// The labels that every line has, behind those of its series.
    pub global_labels: Vec<Label>,
    /// Where the hashes begin by which keys are looked up.
    pub hash_start: HashStart,
    /// What the state is to be built with.
    pub configuration: StateConfiguration,
}

impl DogStatsDBuilder {
    /// The default settings: `127.0.0.1:8125` over UDP, a write timeout of 1 s, conservative, telemetry on, sampling off with
    /// room for 1024 values, histograms as distributions, no labels and no prefix.
    /// Keys are looked up by hashes from the fixed start.
    pub fn new(alloc: Global) -> Result<DogStatsDBuilder, Memory>
        ensures defaults { IfOk result IsDefault }
    {
        DogStatsDBuilder::starting_from(alloc, HashStart::fixed())
    }

    /// The default settings, and keys are looked up by hashes from a start, which should be drawn where strangers choose them.
    pub fn starting_from(alloc: Global, start: HashStart) -> Result<DogStatsDBuilder, Memory>
        ensures defaults { IfOk result IsDefault }
    {
        let Ok(remote_addr) = RemoteAddr::from_text(alloc, "127.0.0.1:8125") else {
            return Err(Memory);
        };
        Ok(DogStatsDBuilder {
            remote_addr,
            max_payload_len: None,
            write_timeout: 1_000_000_000,
            flush_interval: None,
            synchronous: false,
            global_labels: Vec::new(alloc),
            hash_start: start,
            configuration: StateConfiguration {
                agg_mode: AggregationMode::Conservative,
                telemetry: true,
                histogram_sampling: false,
                histogram_reservoir_size: 1024,
                histograms_as_distributions: true,
                global_prefix: None,
            },
        })
    }

    /// Sets where lines are sent. A text that writes no address is refused, as `RemoteAddr::from_text` refuses it.
    pub fn with_remote_address(
        mut self,
        alloc: Global,
        addr: &str,
    ) -> Result<DogStatsDBuilder, BuildError>
        ensures set { IfOk result (λ builder. IsRemote addr.now builder.remote
            × (builder ≡ record self { remote = builder.remote })) }
        ensures refused { IfErr result (IsRefusal addr.now) }
    {
        self.remote_addr = RemoteAddr::from_text(alloc, addr)?;
        Ok(self)
    }

    /// Sets the payload limit, in bytes. One that `limit_fault` refuses for the address set so far is refused.
    pub fn with_maximum_payload_length(self, limit: u64) -> Result<DogStatsDBuilder, BuildError>
        ensures set { IfOk result (λ builder. (fault_of_limit limit self.remote ≡ None)
            × (builder ≡ record self { limit = Some limit })) }
        ensures refused { IfErr result (λ fault. (reason : _)
            × (fault_of_limit limit self.remote ≡ Some reason)
            × (fault ≡ causes.InvalidConfiguration reason)) }
    {
        match limit_fault(limit, &self.remote_addr) {
            Some(reason) => Err(BuildError::InvalidConfiguration { reason }),
            None => Ok(DogStatsDBuilder {
                max_payload_len: Some(limit),
                ..self
            }),
        }
    }

    /// Sets how long a write may take, in nanoseconds. Who makes a link asks for it.
    pub fn with_write_timeout(self, timeout: u64) -> DogStatsDBuilder
        ensures { result ≡ record self { write_timeout = timeout } }
    {
        DogStatsDBuilder {
            write_timeout: timeout,
            ..self
        }
    }

    /// Asks for sends on the caller's own thread. All sends of this crate are.
    pub fn with_synchronous_backend(self) -> DogStatsDBuilder
        ensures { result ≡ record self { synchronous = true } }
    {
        DogStatsDBuilder {
            synchronous: true,
            ..self
        }
    }

    /// Sets how long to wait between two flushes. No timer of this crate acts on it.
    pub fn with_flush_interval(self, interval: u64) -> DogStatsDBuilder
        ensures { result ≡ record self { interval = Some interval } }
    {
        DogStatsDBuilder {
            flush_interval: Some(interval),
            ..self
        }
    }

    /// Sets the labels that every line has, behind those of its series.
    pub fn with_global_labels(self, labels: Vec<Label>) -> DogStatsDBuilder
        ensures { result ≡ record self { labels = labels.items } }
    {
        DogStatsDBuilder {
            global_labels: labels,
            ..self
        }
    }

    /// Sets how flushes add up.
    pub fn with_aggregation_mode(self, mode: AggregationMode) -> DogStatsDBuilder
        ensures { result ≡ record self
            { configuration = record self.configuration { agg_mode = mode } } }
    {
        let mut configuration = self.configuration;
        configuration.agg_mode = mode;
        DogStatsDBuilder {
            configuration,
            ..self
        }
    }

    /// Sets what stands before the name of each series, but for the exporter's own.
    pub fn set_global_prefix(self, prefix: String) -> DogStatsDBuilder
        ensures { result ≡ record self
            { configuration = record self.configuration { global_prefix = Some prefix } } }
    {
        let mut configuration = self.configuration;
        configuration.global_prefix = Some(prefix);
        DogStatsDBuilder {
            configuration,
            ..self
        }
    }

    /// Sets whether the exporter counts its own work.
    pub fn with_telemetry(mut self, telemetry: bool) -> DogStatsDBuilder
        ensures { result ≡ record self
            { configuration = record self.configuration { telemetry = telemetry } } }
    {
        self.configuration.telemetry = telemetry;
        self
    }

    /// Sets whether a histogram sends only a sample of its values.
    pub fn with_histogram_sampling(mut self, sampling: bool) -> DogStatsDBuilder
        ensures { result ≡ record self
            { configuration = record self.configuration { histogram_sampling = sampling } } }
    {
        self.configuration.histogram_sampling = sampling;
        self
    }

    /// Sets how many values such a sample has at most.
    pub fn with_histogram_reservoir_size(mut self, size: u32) -> DogStatsDBuilder
        ensures { result ≡ record self
            { configuration = record self.configuration { histogram_reservoir_size = size } } }
    {
        self.configuration.histogram_reservoir_size = size;
        self
    }

    /// Sets whether histograms are sent as distributions.
    pub fn send_histograms_as_distributions(mut self, distributions: bool) -> DogStatsDBuilder
        ensures { result ≡ record self {
          configuration = record self.configuration
              { histograms_as_distributions = distributions };
        } }
    {
        self.configuration.histograms_as_distributions = distributions;
        self
    }

    /// The payload limit, in bytes: what was set, or what `RemoteAddr::default_max_payload_len` says of the address.
    pub fn get_max_payload_len(&self) -> u64
        ensures { result ≡ limit_of self.now }
    {
        match self.max_payload_len {
            Some(limit) => limit,
            None => self.remote_addr.default_max_payload_len(),
        }
    }

    /// How long a write may take, in nanoseconds: what was set, or 1 s.
    pub fn get_write_timeout(&self) -> u64
        ensures { result ≡ self.now.write_timeout }
    {
        self.write_timeout
    }

    /// How long to wait between two flushes: what was set, or 3 s, and 10 s in aggressive mode.
    pub fn get_flush_interval(&self) -> u64
        ensures { result ≡ interval_of self.now }
    {
        match (self.flush_interval, self.configuration.agg_mode) {
            (Some(interval), _) => interval,
            (None, AggregationMode::Conservative) => 3_000_000_000,
            (None, AggregationMode::Aggressive) => 10_000_000_000,
        }
    }

    /// The settings, each with its own field. It takes no memory.
    pub fn into_parts(self) -> BuilderParts
        ensures remote { remote_text result.remote_addr ≡ self.remote }
        ensures limit { result.max_payload_len ≡ limit_of self }
        ensures write_timeout { result.write_timeout ≡ self.write_timeout }
        ensures interval { result.flush_interval ≡ interval_of self }
        ensures synchronous { result.synchronous ≡ self.synchronous }
        ensures labels { result.global_labels.items ≡ self.labels }
        ensures configuration { result.configuration ≡ self.configuration }
    {
        let max_payload_len = self.get_max_payload_len();
        let flush_interval = self.get_flush_interval();
        BuilderParts {
            remote_addr: self.remote_addr,
            max_payload_len,
            write_timeout: self.write_timeout,
            flush_interval,
            synchronous: self.synchronous,
            global_labels: self.global_labels,
            hash_start: self.hash_start,
            configuration: self.configuration,
        }
    }
}
