//! What an exporter is to be built with.

ghost use Rattle.std.specs.Prelude.{◌≡◌, ◌<◌, ◌++◌, ◌∷◌, ◌||◌, [], length, string_bytes, option_copied, IsOk, IfOk, IfErr, OnErr, Err, Some};
ghost use Rattle.std.specs.Int.NonZero.{non_zero_u32_get};
ghost use Rattle.net_addresses.specs.Addresses.{NetworkText, IsNetwork};
ghost use Rattle.metrics_core.specs.Keys.{put_label};
ghost use Rattle.metric_descriptions.specs.Descriptions.{nothing_described};
ghost use Rattle.metrics_registry.specs.Masks.{idle_of};
ghost use Rattle.prom_format.specs.Matchers.{sanitized_matcher};
ghost use Rattle.prom_format.specs.MatcherTexts.{matcher_text};
ghost use Rattle.prom_exporter.specs.Builder.{default_builder, default_listener, allowed_with, billionths_of, RefusesAddress, SpanIsTooLong};
ghost use Rattle.prom_exporter.specs.Destinations.{Tcp, Uds, destination_text};
ghost use Rattle.prom_exporter.specs.Exporter.{no_cells};

use crate::allowed::AllowedNetworks;
use crate::settings::Settings;
use crate::{BuildError, ListenDestination, PrometheusState};
use hash_starts::HashStart;
use indexmap::IndexMap;
use metrics_core::{Fixed, Memory, Network};
use metrics_registry::MetricKindMask;
use native_histograms::NativeHistogramConfig;
use prom_format::{Matcher, put_label};
use std::alloc::Global;
use std::marker::Model;
use std::net::{Ipv4Addr, SocketAddr, SocketAddrV4};
use std::num::NonZeroU32;

/// How often queues are to be drained where nothing is set, in nanoseconds: every 5 seconds.
const DEFAULT_UPKEEP_TIMEOUT: u64 = 5_000_000_000;

/// What an exporter is to be built with. A call that refuses a setting consumes the builder. Durations are in nanoseconds.
#[derive(Drop)]
pub struct PrometheusBuilder {
    destination: ListenDestination,
    allowed: AllowedNetworks,
    upkeep_timeout: u64,
    unit_suffix: bool,
    globals: IndexMap<String, String, HashStart>,
    settings: Settings,
}

impl Model for PrometheusBuilder {
    ghost use Rattle.prom_format.specs.LabelSets.{labels_of};
    ghost use Rattle.prom_exporter.specs.Destinations.{destination_text};
    ghost use Rattle.prom_exporter.specs.Builder.{BuilderText, with_globals};

    ghost Value = { BuilderText };

    ghost view = { λ builder. record {
      settings = with_globals builder.settings (labels_of builder.globals.entries);
      unit_suffix = builder.unit_suffix;
      destination = destination_text builder.destination;
      allowed = builder.allowed;
      upkeep_timeout = builder.upkeep_timeout;
    } };
}

impl PrometheusBuilder {
    /// The default settings: quantiles 0, 0.5, 0.9, 0.95, 0.99, 0.999 and 1 over three buckets of 20 seconds, no
    /// buckets, no native histograms, no idle timeout, no global labels, names as they are. Pages are to be served at
    /// 0.0.0.0:9000 to every peer, and queues to be drained every 5 seconds.
    /// Names, labels and keys are looked up by hashes from the fixed start.
    pub fn new(alloc: Global) -> Result<PrometheusBuilder, Memory>
        ensures defaults { IfOk result (λ builder. builder ≡ default_builder) }
    {
        PrometheusBuilder::starting_from(alloc, HashStart::fixed())
    }

    /// The default settings, and names, labels and keys are looked up by hashes from a start. Where strangers choose names or
    /// labels it should be drawn: from a start that they know they can make many texts that are looked up one after another.
    pub fn starting_from(alloc: Global, start: HashStart) -> Result<PrometheusBuilder, Memory>
        ensures defaults { IfOk result (λ builder. builder ≡ default_builder) }
    {
        Ok(PrometheusBuilder {
            destination: ListenDestination::Tcp(default_listener()),
            allowed: AllowedNetworks::new(),
            upkeep_timeout: DEFAULT_UPKEEP_TIMEOUT,
            unit_suffix: false,
            globals: IndexMap::with_hasher(alloc, start),
            settings: Settings::new(alloc)?,
        })
    }

    /// Sets that pages are to be served at a TCP socket.
    pub fn with_http_listener(mut self, addr: SocketAddr) -> PrometheusBuilder
        ensures { result ≡ record self { destination = Tcp addr } }
    {
        self.destination = ListenDestination::Tcp(addr);
        self
    }

    /// Sets that pages are to be served at a Unix socket with this path.
    pub fn with_http_uds_listener(mut self, path: String) -> PrometheusBuilder
        ensures { result ≡ record self { destination = Uds (string_bytes path) } }
    {
        self.destination = ListenDestination::Uds(path);
        self
    }

    /// Where pages are to be served.
    pub fn destination(&self) -> &ListenDestination
        ensures { destination_text result.now ≡ self.now.destination }
    {
        &self.destination
    }

    /// Allows the peers of a network to have pages. Where no network is added every peer may. A text that is no address, and
    /// no address with a prefix length, is refused.
    pub fn add_allowed_address(
        mut self,
        alloc: Global,
        address: &str,
    ) -> Result<PrometheusBuilder, BuildError>
        ensures added { IfOk result (λ builder. (network : NetworkText)
            × IsNetwork address.now network
            × (builder ≡ record self { allowed = allowed_with network self.allowed })) }
        ensures refused { IfErr result (RefusesAddress address.now) }
    {
        match Network::from_text(address) {
            Some(network) => self.allowed.add(alloc, network)?,
            None => return Err(refused_address(alloc, address)),
        }
        Ok(self)
    }

    /// The networks whose peers may have pages, in the order in which they were added; none where every peer may.
    pub fn allowed(&self) -> Option<&[Network]>
        ensures { option_copied result ≡ self.now.allowed }
    {
        self.allowed.networks()
    }

    /// Sets the quantiles that summaries show. An empty slice is refused.
    pub fn set_quantiles(
        mut self,
        alloc: Global,
        quantiles: &[Fixed],
    ) -> Result<PrometheusBuilder, BuildError>
        ensures set { IfOk result (λ builder.
            builder ≡ record self
            { settings = record self.settings { quantiles = billionths_of quantiles.now } }) }
        ensures empty { length quantiles.now ≡ 0 → result ≡ Err BuildError.EmptyBucketsOrQuantiles }
        ensures refused { 0 < length quantiles.now → OnErr result (result ≡ Err BuildError.Memory) }
    {
        self.settings.set_quantiles(alloc, quantiles)?;
        Ok(self)
    }

    /// Sets the bounds of all distributions without a rule of their own, which are histograms then. An empty slice is refused.
    pub fn set_buckets(
        mut self,
        alloc: Global,
        values: &[Fixed],
    ) -> Result<PrometheusBuilder, BuildError>
        ensures set { IfOk result (λ builder.
            builder ≡ record self
            { settings = record self.settings { buckets = Some (billionths_of values.now) } }) }
        ensures empty { length values.now ≡ 0 → result ≡ Err BuildError.EmptyBucketsOrQuantiles }
        ensures refused { 0 < length values.now → OnErr result (result ≡ Err BuildError.Memory) }
    {
        self.settings.set_buckets(alloc, values)?;
        Ok(self)
    }

    /// Sets the bounds of the distributions whose names a matcher fits. The matcher is sanitized first; of equal matchers the
    /// last counts. An empty slice is refused.
    pub fn set_buckets_for_metric(
        mut self,
        alloc: Global,
        matcher: Matcher,
        values: &[Fixed],
    ) -> Result<PrometheusBuilder, BuildError>
        ensures set { IfOk result (λ builder. builder ≡ record self {
          settings = record self.settings {
            buckets_for = self.settings.buckets_for ++ (sanitized_matcher (matcher_text matcher), billionths_of values.now) ∷ [];
          };
        }) }
        ensures empty { length values.now ≡ 0 → result ≡ Err BuildError.EmptyBucketsOrQuantiles }
        ensures refused { 0 < length values.now → OnErr result (result ≡ Err BuildError.Memory) }
    {
        self.settings.set_buckets_for(alloc, matcher, values)?;
        Ok(self)
    }

    /// Makes the distributions whose names a matcher fits native histograms. The matcher is sanitized first; of equal matchers
    /// the last counts. A name that a native matcher fits needs no bounds: those of other rules don't count.
    pub fn set_native_histogram_for_metric(
        mut self,
        alloc: Global,
        matcher: Matcher,
        config: NativeHistogramConfig,
    ) -> Result<PrometheusBuilder, BuildError>
        ensures set { IfOk result (λ builder. builder ≡ record self {
          settings = record self.settings {
            native_for = self.settings.native_for ++ (sanitized_matcher (matcher_text matcher), config) ∷ [];
          };
        }) }
        ensures refused { IfErr result (λ error. error ≡ BuildError.Memory) }
    {
        self.settings.set_native_for(alloc, matcher, config)?;
        Ok(self)
    }

    /// Sets how long a bucket of a summary's window lasts, in nanoseconds. It is refused exactly at 0.
    pub fn set_bucket_duration(mut self, value: u64) -> Result<PrometheusBuilder, BuildError>
        ensures set { IfOk result (λ builder.
            builder ≡ record self { settings = record self.settings { bucket_duration = value } }) }
        ensures zero { value ≡ 0 → result ≡ Err BuildError.ZeroBucketDuration }
        ensures others { 0 < value → IsOk result }
    {
        self.settings.set_bucket_duration(value)?;
        Ok(self)
    }

    /// Sets how many buckets a summary's window has.
    pub fn set_bucket_count(mut self, count: NonZeroU32) -> PrometheusBuilder
        ensures { result ≡ record self
            { settings = record self.settings { bucket_count = non_zero_u32_get count } } }
    {
        self.settings.set_bucket_count(count);
        self
    }

    /// Sets whether names end with the units of their descriptions. With recommended naming they do in any case.
    pub fn set_enable_unit_suffix(mut self, enabled: bool) -> PrometheusBuilder
        ensures { result ≡ record self {
          unit_suffix = enabled;
          settings = record self.settings { units = self.settings.total_suffix || enabled };
        } }
    {
        let naming = self.settings.total_suffix();
        self.unit_suffix = enabled;
        self.settings.set_suffixes(naming || enabled, naming);
        self
    }

    /// Sets whether names are as Prometheus recommends: they end with the units of their descriptions, and those of counters
    /// with `total`.
    pub fn with_recommended_naming(mut self, enabled: bool) -> PrometheusBuilder
        ensures { result ≡ record self {
          settings = record self.settings
              { units = enabled || self.unit_suffix; total_suffix = enabled };
        } }
    {
        self.settings
            .set_suffixes(enabled || self.unit_suffix, enabled);
        self
    }

    /// Sets how often queues are to be drained, in nanoseconds. No timer of this crate acts on it; who runs a service asks for it.
    pub fn upkeep_timeout(mut self, timeout: u64) -> PrometheusBuilder
        ensures { result ≡ record self { upkeep_timeout = timeout } }
    {
        self.upkeep_timeout = timeout;
        self
    }

    /// How often queues are to be drained, in nanoseconds.
    pub fn get_upkeep_timeout(&self) -> u64
        ensures { result ≡ self.now.upkeep_timeout }
    {
        self.upkeep_timeout
    }

    /// Sets which kinds of series a page removes, and after how many nanoseconds without an update; none where there is no
    /// timeout.
    pub fn idle_timeout(mut self, mask: MetricKindMask, timeout: Option<u64>) -> PrometheusBuilder
        ensures { result ≡ record self
            { settings = record self.settings { idle = idle_of mask timeout } } }
    {
        self.settings.set_idle_timeout(mask, timeout);
        self
    }

    /// Sets how many series of one kind and metric name are made at most. A registration past that is redirected to one overflow
    /// series of its kind and metric name, whose key has that name and the one label `overflow="true"`, and which doesn't count; pages
    /// then show how often.
    pub fn series_limit(mut self, limit: NonZeroU32) -> PrometheusBuilder
        ensures { result ≡ record self
            { settings = record self.settings { series_limit = Some (non_zero_u32_get limit) } } }
    {
        self.settings.set_series_limit(limit);
        self
    }

    /// A label that each series has, unless its key has one with the same label key. Of equal label keys the last value
    /// counts, in the place of the first.
    pub fn add_global_label(
        mut self,
        alloc: Global,
        key: String,
        value: String,
    ) -> Result<PrometheusBuilder, BuildError>
        ensures added { IfOk result (λ builder. builder ≡ record self {
          settings = record self.settings {
            globals = put_label self.settings.globals (record { key = string_bytes key; value = string_bytes value });
          };
        }) }
        ensures refused { IfErr result (λ error. error ≡ BuildError.Memory) }
    {
        put_label(&mut self.globals, key.as_str(), value.as_str(), alloc)?;
        Ok(self)
    }

    /// An exporter with these settings and no series. It is refused exactly where the buckets of a summary's window together
    /// are longer than 64 bits of nanoseconds.
    pub fn build_state(self, alloc: Global) -> Result<PrometheusState, BuildError>
        ensures built { IfOk result (λ exporter.
            exporter ≡ record {
              settings = self.settings;
              series = no_cells;
              said = nothing_described;
              redirected = [];
            }) }
        ensures too_long { SpanIsTooLong self.settings → result ≡ Err BuildError.SpanTooLong }
        ensures refused { (SpanIsTooLong self.settings → ⊥)
            → OnErr result (result ≡ Err BuildError.Memory) }
    {
        let PrometheusBuilder {
            globals,
            settings,
            ..
        } = self;
        if settings.span_is_too_long() {
            return Err(BuildError::SpanTooLong);
        }
        Ok(PrometheusState::new(alloc, globals, settings)?)
    }
}

/// Where pages are served where nothing is set: 0.0.0.0:9000.
fn default_listener() -> SocketAddr
    ensures { result ≡ default_listener }
{
    SocketAddr::V4(SocketAddrV4::new(Ipv4Addr::UNSPECIFIED, 9000))
}

/// The refusal of a text that writes no network.
fn refused_address(alloc: Global, address: &str) -> BuildError
    requires { (network : NetworkText) → ¬ (IsNetwork address.now network) }
    ensures { RefusesAddress address.now result }
{
    match String::from_str(alloc, address) {
        Ok(text) => BuildError::InvalidAllowlistAddress(text),
        Err(_) => BuildError::Memory,
    }
}
