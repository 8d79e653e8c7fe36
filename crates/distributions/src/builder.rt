//! How a name gets its kind of distribution.

ghost use Rattle.std.specs.Prelude.{◌≡◌, ◌<◌, ◌*◌, ◌^◌, [], List, ℕ, map, length, true, IfOk, IfSome, option_map};
ghost use Rattle.std.specs.Option.{option_copied};
ghost use Rattle.std.specs.Int.NonZero.{non_zero_u32_get};
ghost use Rattle.prom_format.specs.Matchers.{rule_for};
ghost use Rattle.distributions.specs.Kinds.{kind_for, kind_word, general_kind, bucket_kind};
ghost use Rattle.distributions.specs.Builders.{has_bound, all_have_bounds, count_or_default, duration_or_default, given_rules, kind_of_bounds};
ghost use Rattle.distributions.specs.Recording.{StandsFor};

use crate::Distribution;
use crate::rules::Rules;
use metrics_core::{Fixed, Memory};
use metrics_registry::Quantile;
use native_histograms::NativeHistogramConfig;
use prom_format::Matcher;
use std::alloc::Global;
use std::marker::Model;
use std::num::NonZeroU32;
use std::sync::Arc;

/// The width of a bucket of a summary's window where none is given, in nanoseconds: 20 seconds.
const DEFAULT_BUCKET_DURATION: u64 = 20_000_000_000;

/// Makes the distribution of a series by its name: a native histogram where a native matcher fits, a histogram where a bucket
/// matcher fits or general buckets are set, and otherwise a summary. A contract sees the rules that kinds follow from.
#[derive(Drop)]
pub struct DistributionBuilder {
    quantiles: Arc<Vec<Quantile>>,
    bucket_duration: u64,
    buckets: Option<Vec<Fixed>>,
    bucket_count: NonZeroU32,
    bucket_overrides: Rules<Vec<Fixed>>,
    native_histogram_overrides: Rules<NativeHistogramConfig>,
}

impl Model for DistributionBuilder {
    ghost use Rattle.std.specs.Prelude.{◌≡◌, ◌<◌, ◌*◌, ◌^◌, true, option_map, IfSome};
    ghost use Rattle.std.specs.Arc.{arc_value};
    ghost use Rattle.std.specs.Int.NonZero.{non_zero_u32_get};
    ghost use Rattle.distributions.specs.Kinds.{DistributionRules};
    ghost use Rattle.distributions.specs.Rules.{saying};
    ghost use Rattle.distributions.specs.Builders.{bounds_of, has_bound, all_have_bounds};

    ghost Value = { DistributionRules };

    ghost view = { λ b. record {
      native_for = b.native_histogram_overrides;
      buckets_for = saying bounds_of b.bucket_overrides;
      buckets = option_map bounds_of b.buckets;
      summary = record {
        quantiles = (arc_value b.quantiles).items;
        bucket_count = non_zero_u32_get b.bucket_count;
        bucket_duration = b.bucket_duration;
      };
    } };

    ghost invariant = { λ b. (0 < b.bucket_duration)
        × (non_zero_u32_get b.bucket_count * b.bucket_duration < 2 ^ 64)
        × IfSome b.buckets (λ bounds. has_bound bounds ≡ true)
        × (all_have_bounds b.bucket_overrides ≡ true) };
}

impl DistributionBuilder {
    /// A builder. Where `bucket_duration` (in nanoseconds) or `bucket_count` is none, a summary's window has 3 buckets of 20
    /// seconds. Of equal matchers in a list the last counts.
    pub fn new(
        alloc: Global,
        quantiles: Vec<Quantile>,
        bucket_duration: Option<u64>,
        buckets: Option<Vec<Fixed>>,
        bucket_count: Option<NonZeroU32>,
        bucket_overrides: Vec<(Matcher, Vec<Fixed>)>,
        native_histogram_overrides: Vec<(Matcher, NativeHistogramConfig)>,
    ) -> Result<DistributionBuilder, Memory>
        requires bounds { IfSome buckets (λ bounds. has_bound bounds ≡ true) }
        requires bounds_for { all_have_bounds bucket_overrides.items ≡ true }
        requires wide { 0 < duration_or_default bucket_duration }
        requires fits { count_or_default bucket_count * duration_or_default bucket_duration < 2 ^ 64 }
        ensures kinds { let overrides = bucket_overrides.items in
            let natives = native_histogram_overrides.items in
            let given = given_rules quantiles.items bucket_duration buckets bucket_count overrides natives in
            IfOk result (λ builder. (name : List ℕ) → kind_for builder name ≡ kind_for given name) }
    {
        let quantiles = Arc::new(alloc, quantiles)?;
        let bucket_overrides = Rules::new(alloc, bucket_overrides)?;
        let native_histogram_overrides = Rules::new(alloc, native_histogram_overrides)?;
        Ok(DistributionBuilder {
            quantiles,
            bucket_duration: bucket_duration.unwrap_or(DEFAULT_BUCKET_DURATION),
            buckets,
            bucket_count: bucket_count.unwrap_or(default_bucket_count()),
            bucket_overrides,
            native_histogram_overrides,
        })
    }

    /// The distribution of no samples of a series with this name, a metric name.
    pub fn get_distribution(&self, alloc: Global, name: &str) -> Result<Distribution, Memory>
        ensures { IfOk result (StandsFor (kind_for self.now name.now) []) }
    {
        if let Some(config) = self.native_histogram_overrides.get(name) {
            return Ok(Distribution::new_native_histogram(alloc, *config));
        }
        if let Some(bounds) = self.bounds_for(name) {
            return Distribution::new_histogram(alloc, bounds);
        }
        Ok(Distribution::new_summary(
            alloc,
            Arc::try_clone(&self.quantiles)?,
            self.bucket_duration,
            self.bucket_count,
        ))
    }

    /// The word for the kind of distribution of this name, a metric name: `native_histogram`, `histogram` or `summary`. It
    /// takes no memory.
    pub fn get_distribution_type(&self, name: &str) -> &'static str
        ensures { result.now ≡ kind_word (kind_for self.now name.now) }
    {
        if self.native_histogram_overrides.get(name).is_some() {
            "native_histogram"
        } else if self.bounds_for(name).is_some() {
            "histogram"
        } else {
            "summary"
        }
    }

    /// The bounds of a name without a native rule: those of the first bucket matcher that fits it, or the general ones.
    fn bounds_for(&self, name: &str) -> Option<&[Fixed]>
        ensures kind { let general = general_kind self.now.summary self.now.buckets in
            bucket_kind (rule_for self.now.buckets_for name.now) general
            ≡ kind_of_bounds self.now.summary (option_copied result) }
        ensures some { IfSome result (λ bounds. 0 < length bounds.now) }
    {
        match self.bucket_overrides.get(name) {
            Some(bounds) => Some(bounds.as_slice()),
            None => general_bounds(&self.buckets),
        }
    }
}

/// The general bounds, if there are any.
fn general_bounds(buckets: &Option<Vec<Fixed>>) -> Option<&[Fixed]>
    ensures { option_copied result ≡ option_map (λ bounds. bounds.items) buckets.now }
{
    match buckets {
        Some(bounds) => Some(bounds.as_slice()),
        None => None,
    }
}

/// How many buckets a summary's window has where nothing is said.
fn default_bucket_count() -> NonZeroU32
    ensures { non_zero_u32_get result ≡ 3 }
{
    NonZeroU32::MIN.saturating_add(2)
}
