//! The distributions of histogram series.

ghost use Rattle.std.specs.Prelude.{◌≡◌, ◌<◌, ◌*◌, ◌*ℤ◌, ◌^◌, [], pos, length, map, take, fold, replicate, FitsSigned, IfOk, IfErr, OnOk, OnErr};
ghost use Rattle.std.specs.Int.{w128};
ghost use Rattle.std.specs.List.{FoldsTo};
ghost use Rattle.std.specs.Arc.{arc_value};
ghost use Rattle.std.specs.Int.NonZero.{non_zero_u32_get};
ghost use Rattle.metrics_core.specs.Numbers.{add_128};
ghost use Rattle.distributions.specs.Kinds as kinds;
ghost use Rattle.distributions.specs.Recording.{
  Records,
  RecordsTimes,
  StandsFor,
  StandsForMore,
  sample_of,
  samples_of,
  summed,
  count_of,
  done_of,
};

use metrics_core::{Fixed, Memory};
use metrics_registry::{CumulativeHistogram, Quantile};
use native_histograms::{NativeHistogram, NativeHistogramConfig};
use rolling_summaries::RollingSummary;
use std::alloc::Global;
use std::num::NonZeroU32;
use std::sync::Arc;
use thiserror::Error;

/// What a histogram series keeps of its samples.
#[derive(Drop)]
pub enum Distribution {
    /// The number of samples at most each bound.
    Histogram(CumulativeHistogram),
    /// The values of a window of time, the quantiles that are shown of them, and the sum of all samples in billionths, which
    /// wraps in 128 bits.
    Summary(RollingSummary, Arc<Vec<Quantile>>, i128),
    /// Buckets by magnitude.
    NativeHistogram(NativeHistogram),
}

/// Why samples were not all recorded.
#[derive(Clone, Copy, Debug, PartialEq, Eq, Error)]
pub enum RecordSamplesFault {
    /// Memory was refused, when so many of the samples were recorded.
    #[error("out of memory after {done} samples")]
    Memory { done: usize },
}

impl Distribution {
    /// A cumulative histogram of no samples, with these bounds.
    pub fn new_histogram(alloc: Global, buckets: &[Fixed]) -> Result<Distribution, Memory>
        requires { 0 < length buckets.now }
        ensures { IfOk result (StandsFor (kinds.Histogram (map (λ bound. bound.0) buckets.now)) []) }
    {
        Ok(Distribution::Histogram(CumulativeHistogram::new(alloc, buckets)?))
    }

    /// A summary of no samples, over a window of so many buckets of a width in nanoseconds. It takes no memory.
    pub fn new_summary(
        alloc: Global,
        quantiles: Arc<Vec<Quantile>>,
        bucket_duration: u64,
        bucket_count: NonZeroU32,
    ) -> Distribution
        requires wide { 0 < bucket_duration }
        requires fits { non_zero_u32_get bucket_count * bucket_duration < 2 ^ 64 }
        ensures { StandsFor (kinds.Summary (record {
          quantiles = (arc_value quantiles).items;
          bucket_count = non_zero_u32_get bucket_count;
          bucket_duration = bucket_duration;
        })) [] result }
    {
        let window = RollingSummary::new(alloc, bucket_count, bucket_duration);
        Distribution::Summary(window, quantiles, 0)
    }

    /// A native histogram of no samples. It takes no memory.
    pub fn new_native_histogram(alloc: Global, config: NativeHistogramConfig) -> Distribution
        ensures { StandsFor (kinds.NativeHistogram config) [] result }
    {
        Distribution::NativeHistogram(NativeHistogram::new(alloc, config))
    }

    /// Records samples in order, each a value and its moment in nanoseconds. Where memory is refused, the samples before are
    /// recorded and no more.
    pub fn record_samples(
        &mut self,
        alloc: Global,
        samples: &[(Fixed, u64)],
    ) -> Result<(), RecordSamplesFault>
        ensures recorded { OnOk result (FoldsTo Records self.old (samples_of samples.now) self.new) }
        ensures stands { OnOk result (StandsForMore self.old (samples_of samples.now) self.new) }

        // After a refusal the first `done` samples are recorded and no more.
        ensures within { IfErr result (λ fault. done_of fault < length samples.now) }
        ensures stopped { IfErr result (λ fault.
            let first = samples_of (take (done_of fault) samples.now) in
            FoldsTo Records self.old first self.new) }
        ensures stands_so_far { IfErr result (λ fault.
            let first = samples_of (take (done_of fault) samples.now) in
            StandsForMore self.old first self.new) }
    {
        for (done, (value, moment)) in samples.iter().enumerate() {
            let Ok(()) = self.record(alloc, *value, *moment, 1) else {
                return Err(RecordSamplesFault::Memory { done });
            };
        }
        Ok(())
    }

    /// Records a value at a moment, in nanoseconds, as `count` equal samples, or changes nothing. It takes as long as one
    /// sample does. A count of 0 changes nothing.
    pub fn record(
        &mut self,
        alloc: Global,
        value: Fixed,
        moment: u64,
        count: u32,
    ) -> Result<(), Memory>
        ensures recorded { OnOk result (RecordsTimes self.old
            (sample_of (value, moment)) count self.new) }
        ensures stands { OnOk result (StandsForMore self.old
            (replicate count (sample_of (value, moment))) self.new) }
        ensures refused { OnErr result (self.new ≡ self.old) }
        ensures none { count ≡ 0 → self.new ≡ self.old }
    {
        if count == 0 {
            return Ok(());
        }
        match self {
            Distribution::Histogram(histogram) => histogram.observe(value, count),
            Distribution::Summary(window, _, _) => window.add(alloc, value, moment, count)?,
            Distribution::NativeHistogram(histogram) => histogram.observe(alloc, value, count)?,
        }
        self.add_to_sum(value, count);
        Ok(())
    }

    /// The number of samples so far, modulo 2^64.
    pub fn count(&self) -> u64
        ensures { result ≡ count_of self.now }
    {
        match self {
            Distribution::Histogram(histogram) => histogram.count(),
            Distribution::Summary(window, _, _) => window.count(),
            Distribution::NativeHistogram(histogram) => histogram.count(),
        }
    }

    /// Adds a value so many times to the sum, where one is kept beside the window.
    fn add_to_sum(&mut self, value: Fixed, count: u32)
        ensures { self.new ≡ summed value.0 count self.old }
    {
        if let Distribution::Summary(_, _, sum) = self {
            *sum = sum_with(*sum, value, count);
        }
    }
}

/// A sum with a value added so many times.
fn sum_with(sum: i128, value: Fixed, count: u32) -> i128
    ensures { result ≡ fold add_128 sum (replicate count value.0) }
{
    sum.wrapping_add(product(value, count))
}

/// A value so many times.
fn product(value: Fixed, count: u32) -> i128
    ensures product { result ≡ value.0 *ℤ pos count }
    ensures fits { FitsSigned w128 result }
    ensures value_fits { FitsSigned w128 value.0 }
{
    i128::from(value.0) * i128::from(count)
}
