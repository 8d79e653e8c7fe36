//! What an exporter is built with, but for its global labels, and the rules for its distributions that follow.

ghost use Rattle.std.specs.Prelude.{◌≡◌, ◌<◌, ◌↔◌, ◌++◌, ◌∷◌, [], ℕ, List, Option, length, map, option_copied, option_map, IfOk, IsOk, OnOk, OnErr, IsTrue, Err, unwrap_or};
ghost use Rattle.std.specs.Int.NonZero.{non_zero_u32_get};
ghost use Rattle.metrics_registry.specs.Masks.{idle_of};
ghost use Rattle.metrics_registry.specs.Quantiles.{clamped};
ghost use Rattle.metrics_registry.specs.Recency.{note_left};
ghost use Rattle.prom_format.specs.Matchers.{sanitized_matcher};
ghost use Rattle.prom_format.specs.MatcherTexts.{matcher_text};
ghost use Rattle.distributions.specs.Kinds.{kind_for};
ghost use Rattle.distributions.specs.Rules.{rules_of};
ghost use Rattle.prom_exporter.specs.Builder.{billionths_of, rule_text, SpanIsTooLong};
ghost use Rattle.prom_exporter.specs.Families.{counter_suffix, distribution_of};

use crate::BuildError;
use distributions::DistributionBuilder;
use metrics_core::{Fixed, Memory, MetricKind};
use metrics_registry::{MetricKindMask, Quantile, Recency};
use native_histograms::NativeHistogramConfig;
use prom_format::Matcher;
use std::alloc::Global;
use std::marker::Model;
use std::num::NonZeroU32;

/// The quantiles of summaries where none are set: 0, 0.5, 0.9, 0.95, 0.99, 0.999 and 1.
const DEFAULT_QUANTILES: [Fixed; 7] = [
    Fixed(0),
    Fixed(500_000_000),
    Fixed(900_000_000),
    Fixed(950_000_000),
    Fixed(990_000_000),
    Fixed(999_000_000),
    Fixed(1_000_000_000),
];

/// How long a bucket of a summary's window lasts where nothing is set, in nanoseconds: 20 seconds.
const DEFAULT_BUCKET_DURATION: u64 = 20_000_000_000;

/// What an exporter is built with, but for its global labels. A contract sees the settings without any.
#[derive(Drop)]
pub(crate) struct Settings {
    quantiles: Vec<Fixed>,
    buckets: Option<Vec<Fixed>>,
    buckets_for: Vec<(Matcher, Vec<Fixed>)>,
    native_for: Vec<(Matcher, NativeHistogramConfig)>,
    bucket_count: NonZeroU32,
    bucket_duration: u64,
    mask: MetricKindMask,
    idle_timeout: Option<u64>,
    series_limit: Option<NonZeroU32>,
    units: bool,
    total_suffix: bool,
}

impl Model for Settings {
    ghost use Rattle.std.specs.Prelude.{◌<◌, ◌≡◌, [], true, option_map, IfSome};
    ghost use Rattle.std.specs.Int.NonZero.{non_zero_u32_get};
    ghost use Rattle.metrics_registry.specs.Masks.{idle_of};
    ghost use Rattle.distributions.specs.Builders.{bounds_of, has_bound, all_have_bounds};
    ghost use Rattle.distributions.specs.Rules.{rules_of, saying};
    ghost use Rattle.prom_exporter.specs.Builder.{billionths_of};
    ghost use Rattle.prom_exporter.specs.Families.{ExporterSettings};

    ghost Value = { ExporterSettings };

    ghost view = { λ s. record {
      quantiles = billionths_of s.quantiles.items;
      buckets = option_map bounds_of s.buckets;
      buckets_for = saying bounds_of (rules_of s.buckets_for.items);
      native_for = rules_of s.native_for.items;
      bucket_count = non_zero_u32_get s.bucket_count;
      bucket_duration = s.bucket_duration;
      idle = idle_of s.mask s.idle_timeout;
      series_limit = option_map non_zero_u32_get s.series_limit;
      units = s.units;
      total_suffix = s.total_suffix;
      globals = [];
    } };

    ghost invariant = { λ s. (0 < s.bucket_duration) × IfSome s.buckets (λ bounds. has_bound bounds ≡ true) × (all_have_bounds s.buckets_for.items ≡ true) };
}

impl Settings {
    ghost use Rattle.prom_exporter.specs.Exporter.{default_settings};

    /// The settings of a new builder.
    pub(crate) fn new(alloc: Global) -> Result<Settings, Memory>
        ensures { IfOk result (λ settings. settings ≡ default_settings) }
    {
        Ok(Settings {
            quantiles: Vec::from_array(alloc, DEFAULT_QUANTILES)?,
            buckets: None,
            buckets_for: Vec::new(alloc),
            native_for: Vec::new(alloc),
            bucket_count: NonZeroU32::MIN.saturating_add(2),
            bucket_duration: DEFAULT_BUCKET_DURATION,
            mask: MetricKindMask::NONE,
            idle_timeout: None,
            series_limit: None,
            units: false,
            total_suffix: false,
        })
    }

    /// Sets the quantiles.
    pub(crate) fn set_quantiles(
        &mut self,
        alloc: Global,
        quantiles: &[Fixed],
    ) -> Result<(), BuildError>
        ensures set { OnOk result (self.new
            ≡ record self.old { quantiles = billionths_of quantiles.now }) }
        ensures empty { length quantiles.now ≡ 0 → result ≡ Err BuildError.EmptyBucketsOrQuantiles }
        ensures refused { 0 < length quantiles.now → OnErr result (result ≡ Err BuildError.Memory) }
    {
        self.quantiles = some_values(alloc, quantiles)?;
        Ok(())
    }

    /// Sets the bounds of the histograms that no rule fits.
    pub(crate) fn set_buckets(&mut self, alloc: Global, bounds: &[Fixed]) -> Result<(), BuildError>
        ensures set { OnOk result (self.new
            ≡ record self.old { buckets = Some (billionths_of bounds.now) }) }
        ensures empty { length bounds.now ≡ 0 → result ≡ Err BuildError.EmptyBucketsOrQuantiles }
        ensures refused { 0 < length bounds.now → OnErr result (result ≡ Err BuildError.Memory) }
    {
        self.buckets = Some(some_values(alloc, bounds)?);
        Ok(())
    }

    /// Sets the bounds of the histograms whose names a matcher fits, which is sanitized first. Of equal matchers the last
    /// counts.
    pub(crate) fn set_buckets_for(
        &mut self,
        alloc: Global,
        matcher: Matcher,
        bounds: &[Fixed],
    ) -> Result<(), BuildError>
        ensures set { OnOk result (self.new
            ≡ record self.old {
              buckets_for = self.old.buckets_for ++
                  (sanitized_matcher (matcher_text matcher), billionths_of bounds.now) ∷ [];
            }) }
        ensures empty { length bounds.now ≡ 0 → result ≡ Err BuildError.EmptyBucketsOrQuantiles }
        ensures refused { 0 < length bounds.now → OnErr result (result ≡ Err BuildError.Memory) }
    {
        let bounds = some_values(alloc, bounds)?;
        let matcher = matcher.sanitized(alloc)?;
        match self.buckets_for.push((matcher, bounds)) {
            Ok(()) => Ok(()),
            Err(_) => Err(BuildError::Memory),
        }
    }

    /// Makes the series whose names a matcher fits native histograms. The matcher is sanitized first. Of equal matchers the
    /// last counts.
    pub(crate) fn set_native_for(
        &mut self,
        alloc: Global,
        matcher: Matcher,
        config: NativeHistogramConfig,
    ) -> Result<(), Memory>
        ensures { OnOk result (self.new
            ≡ record self.old {
              native_for = self.old.native_for ++
                  (sanitized_matcher (matcher_text matcher), config) ∷ [];
            }) }
    {
        let matcher = matcher.sanitized(alloc)?;
        self.native_for.push((matcher, config))?;
        Ok(())
    }

    /// Sets how long a bucket of a summary's window lasts, in nanoseconds.
    pub(crate) fn set_bucket_duration(&mut self, duration: u64) -> Result<(), BuildError>
        ensures set { OnOk result (self.new ≡ record self.old { bucket_duration = duration }) }
        ensures zero { duration ≡ 0 → result ≡ Err BuildError.ZeroBucketDuration }
        ensures others { 0 < duration → IsOk result }
    {
        if duration == 0 {
            return Err(BuildError::ZeroBucketDuration);
        }
        self.bucket_duration = duration;
        Ok(())
    }

    /// Sets how many buckets a summary's window has.
    pub(crate) fn set_bucket_count(&mut self, count: NonZeroU32)
        ensures { self.new ≡ record self.old { bucket_count = non_zero_u32_get count } }
    {
        self.bucket_count = count;
    }

    /// Sets which kinds of series fall idle, and after how many nanoseconds.
    pub(crate) fn set_idle_timeout(&mut self, mask: MetricKindMask, timeout: Option<u64>)
        ensures { self.new ≡ record self.old { idle = idle_of mask timeout } }
    {
        self.mask = mask;
        self.idle_timeout = timeout;
    }

    /// Sets how many series of one kind and metric name are made at most.
    pub(crate) fn set_series_limit(&mut self, limit: NonZeroU32)
        ensures { self.new ≡ record self.old { series_limit = Some (non_zero_u32_get limit) } }
    {
        self.series_limit = Some(limit);
    }

    /// How many series of one kind and metric name are made at most, if there is a limit.
    pub(crate) fn series_limit(&self) -> Option<NonZeroU32>
        ensures { option_map non_zero_u32_get result ≡ self.now.series_limit }
    {
        self.series_limit
    }

    /// Sets whether names end with units, and whether those of counters end with `total`.
    pub(crate) fn set_suffixes(&mut self, units: bool, total_suffix: bool)
        ensures { self.new ≡ record self.old { units = units; total_suffix = total_suffix } }
    {
        self.units = units;
        self.total_suffix = total_suffix;
    }

    /// Whether names end with the units of their descriptions.
    pub(crate) fn units(&self) -> bool
        ensures { result ≡ self.now.units }
    {
        self.units
    }

    /// Whether the names of counters end with `total`.
    pub(crate) fn total_suffix(&self) -> bool
        ensures { result ≡ self.now.total_suffix }
    {
        self.total_suffix
    }

    /// What the names of counters end with.
    pub(crate) fn counter_suffix(&self) -> Option<&'static str>
        ensures { option_copied result ≡ counter_suffix self.now }
    {
        if self.total_suffix {
            Some("total")
        } else {
            None
        }
    }

    /// The rule by which series of a kind fall idle; none where series of this kind never do, and their updates need not be
    /// counted.
    pub(crate) fn recency_of(&self, kind: MetricKind) -> Option<Recency>
        ensures { (note : Option (ℕ × ℕ)) (count t : ℕ)
            → note_left (unwrap_or result None) kind note count t ≡ note_left self.now.idle kind note count t }
    {
        let _timeout = self.idle_timeout?;
        if self.mask.matches(kind) {
            Some(Recency::new(self.mask, self.idle_timeout))
        } else {
            None
        }
    }

    /// Whether the buckets of a window together are longer than 64 bits of nanoseconds.
    pub(crate) fn span_is_too_long(&self) -> bool
        ensures { IsTrue result ↔ SpanIsTooLong self.now }
    {
        u64::from(self.bucket_count.get())
            .checked_mul(self.bucket_duration)
            .is_none()
    }

    /// What makes distributions of the kinds that follow from these settings.
    pub(crate) fn distributions(&self, alloc: Global) -> Result<DistributionBuilder, Memory>
        requires { SpanIsTooLong self.now → ⊥ }
        ensures { IfOk result (λ builder. (name : List ℕ)
            → kind_for builder name ≡ distribution_of self.now name) }
    {
        let buckets = match &self.buckets {
            Some(bounds) => Some(Vec::from_slice(alloc, bounds.as_slice())?),
            None => None,
        };
        DistributionBuilder::new(
            alloc,
            clamped_quantiles(alloc, self.quantiles.as_slice())?,
            Some(self.bucket_duration),
            buckets,
            Some(self.bucket_count),
            copied_rules(alloc, self.buckets_for.as_slice())?,
            copied_native_rules(alloc, self.native_for.as_slice())?,
        )
    }
}

/// A copy of values, of which there is one at least.
fn some_values(alloc: Global, values: &[Fixed]) -> Result<Vec<Fixed>, BuildError>
    ensures copied { IfOk result (λ copied. (copied.items ≡ values.now) × (0 < length values.now)) }
    ensures empty { length values.now ≡ 0 → result ≡ Err BuildError.EmptyBucketsOrQuantiles }
    ensures refused { 0 < length values.now → OnErr result (result ≡ Err BuildError.Memory) }
{
    if values.is_empty() {
        return Err(BuildError::EmptyBucketsOrQuantiles);
    }
    match Vec::from_slice(alloc, values) {
        Ok(copied) => Ok(copied),
        Err(_) => Err(BuildError::Memory),
    }
}

/// The quantiles of these values.
fn clamped_quantiles(alloc: Global, values: &[Fixed]) -> Result<Vec<Quantile>, Memory>
    ensures { IfOk result (λ quantiles. quantiles.items ≡ map clamped (billionths_of values.now)) }
{
    let mut quantiles = Vec::new(alloc);
    for value in values {
        quantiles.push(Quantile::new(*value))?;
    }
    Ok(quantiles)
}

/// A copy of rules.
fn copied_rules(
    alloc: Global,
    rules: &[(Matcher, Vec<Fixed>)],
) -> Result<Vec<(Matcher, Vec<Fixed>)>, Memory>
    ensures { IfOk result (λ copied. map rule_text copied.items ≡ map rule_text rules.now) }
{
    let mut copied = Vec::new(alloc);
    for (matcher, bounds) in rules {
        let bounds = Vec::from_slice(alloc, bounds.as_slice())?;
        copied.push((copied_matcher(matcher)?, bounds))?;
    }
    Ok(copied)
}

/// A copy of rules on native histograms.
fn copied_native_rules(
    alloc: Global,
    rules: &[(Matcher, NativeHistogramConfig)],
) -> Result<Vec<(Matcher, NativeHistogramConfig)>, Memory>
    ensures { IfOk result (λ copied. rules_of copied.items ≡ rules_of rules.now) }
{
    let mut copied = Vec::new(alloc);
    for (matcher, config) in rules {
        copied.push((copied_matcher(matcher)?, *config))?;
    }
    Ok(copied)
}

/// A copy of a matcher.
fn copied_matcher(matcher: &Matcher) -> Result<Matcher, Memory>
    ensures { IfOk result (λ copied. matcher_text copied ≡ matcher_text matcher.now) }
{
    Ok(match matcher {
        Matcher::Full(text) => Matcher::Full(text.clone()?),
        Matcher::Prefix(text) => Matcher::Prefix(text.clone()?),
        Matcher::Suffix(text) => Matcher::Suffix(text.clone()?),
    })
}
