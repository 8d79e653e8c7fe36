//! Native histograms.

ghost use Rattle.std.specs.Prelude.{◌≡◌, pos, neg_ℤ, [], IfOk, OnOk, OnErr, IsOk, IsTrue, FitsSigned, ◌*ℤ◌};
ghost use Rattle.std.specs.Int.{w64, w128};
ghost use Rattle.native_histograms.specs.Native.{StandsFor, Observes, opens_bucket};

use crate::NativeHistogramConfig;
use crate::buckets::Buckets;
use metrics_core::{Fixed, Memory};
use std::alloc::Global;
use std::collections::BTreeMap;
use std::marker::Model;

/// A native histogram: buckets by magnitude, of which the bounds are powers of a factor, and zeros. Where a value opens a
/// bucket over the greatest number, the schema falls by one, down to -4, and neighbouring buckets are merged. Counts are
/// kept modulo 2^64, the sum wraps in 128 bits of billionths. It keeps no values: a contract says which list of them it
/// stands for.
#[derive(Drop)]
pub struct NativeHistogram {
    config: NativeHistogramConfig,
    buckets: Buckets,
    sum: i128,
    count: u64,
}

impl Model for NativeHistogram {
    ghost use Rattle.std.specs.Prelude.{◌≤◌, FitsSigned};
    ghost use Rattle.std.specs.Int.{w128};
    ghost use Rattle.native_histograms.specs.Native.{NativeHistogramText};

    ghost Value = { NativeHistogramText };

    ghost view = { λ h. record {
      config = h.config;
      depth = h.buckets.depth;
      positive = h.buckets.positive.entries;
      negative = h.buckets.negative.entries;
      zeros = h.buckets.zeros;
      sum = h.sum;
      count = h.count;
    } };

    ghost invariant = { λ h. (h.buckets.depth ≤ 4) × FitsSigned w128 h.sum };
}

impl NativeHistogram {
    /// A histogram of no values.
    pub fn new(alloc: Global, config: NativeHistogramConfig) -> NativeHistogram
        ensures { StandsFor config [] result }
    {
        let buckets = Buckets::new(alloc, config.depth());
        NativeHistogram {
            config,
            buckets,
            sum: 0,
            count: 0,
        }
    }

    /// Observes a value so many times; to observe it no times changes nothing. It takes memory only where a bucket opens;
    /// refused that, the histogram stays as it was. It takes logarithmic time, and linear time in the buckets where they
    /// are merged.
    pub fn observe(&mut self, alloc: Global, value: Fixed, count: u32) -> Result<(), Memory>
        ensures observed { OnOk result (Observes self.old (value.0, count) self.new) }
        ensures refused { OnErr result (self.new ≡ self.old) }
        ensures opens { OnErr result (IsTrue (opens_bucket self.old value.0)) }
        ensures none { count ≡ 0 → IsOk result × (self.new ≡ self.old) }
    {
        if count == 0 {
            return Ok(());
        }
        self.buckets.add(alloc, &self.config, value, count)?;
        self.sum = self.sum.wrapping_add(product(value, count));
        self.count = self.count.wrapping_add(u64::from(count));
        Ok(())
    }

    /// The same histogram again.
    pub fn clone(&self, _alloc: Global) -> Result<NativeHistogram, Memory>
        ensures { IfOk result (λ histogram. histogram ≡ self.now) }
    {
        Ok(NativeHistogram {
            config: self.config,
            buckets: self.buckets.duplicate()?,
            sum: self.sum,
            count: self.count,
        })
    }

    /// The number of values, modulo 2^64.
    pub fn count(&self) -> u64
        ensures { result ≡ self.now.count }
    {
        self.count
    }

    /// The sum of the values, in billionths.
    pub fn sum(&self) -> i128
        ensures { result ≡ self.now.sum }
    {
        self.sum
    }

    /// The number of zeros, modulo 2^64.
    pub fn zero_count(&self) -> u64
        ensures { result ≡ self.now.zeros }
    {
        self.buckets.zeros
    }

    /// From each index of the values over the threshold to how many have it, modulo 2^64.
    pub fn positive_buckets(&self) -> &BTreeMap<i32, u64>
        ensures { result.now.entries ≡ self.now.positive }
    {
        &self.buckets.positive
    }

    /// The same of the values under minus the threshold, by their magnitude.
    pub fn negative_buckets(&self) -> &BTreeMap<i32, u64>
        ensures { result.now.entries ≡ self.now.negative }
    {
        &self.buckets.negative
    }

    /// The schema, from 0 down to -4: the bounds of neighbouring buckets are 2^(2^-schema) apart.
    pub fn schema(&self) -> i32
        ensures { result ≡ neg_ℤ (pos self.now.depth) }
    {
        -(self.buckets.depth as i32)
    }

    /// The settings.
    pub fn config(&self) -> &NativeHistogramConfig
        ensures { result.now ≡ self.now.config }
    {
        &self.config
    }
}

/// A value so many times.
fn product(value: Fixed, count: u32) -> i128
    ensures product { result ≡ value.0 *ℤ pos count }
    ensures fits { FitsSigned w128 result }
    ensures value_fits { FitsSigned w64 value.0 }
{
    i128::from(value.0) * i128::from(count)
}
