//! The settings of a native histogram.

ghost use Rattle.std.specs.Prelude.{◌≡◌, ◌≤◌, IfOk, IfErr, IfSome, Some};
ghost use Rattle.native_histograms.specs.Settings.{factor_of, depth_of, refusal, Accepts, IsInRange};

use metrics_core::Fixed;
use std::marker::Model;

/// The settings of a native histogram. A contract sees them as the depth at the start, minus the schema, with the greatest
/// number of buckets and the threshold in billionths.
#[derive(Clone, Copy)]
pub struct NativeHistogramConfig {
    depth: u32,
    max_buckets: u32,
    zero_threshold: Fixed,
}

impl Model for NativeHistogramConfig {
    ghost use Rattle.native_histograms.specs.Native.{NativeText};
    ghost use Rattle.native_histograms.specs.Settings.{IsInRange};

    ghost Value = { NativeText };

    ghost view = { λ c. record {
      depth = c.depth;
      max_buckets = c.max_buckets;
      threshold = c.zero_threshold.0;
    } };

    ghost inverse = { λ t. record {
      depth = t.depth;
      max_buckets = t.max_buckets;
      zero_threshold = record { 0 = t.threshold };
    } };

    ghost invariant = { λ c. IsInRange (record {
      depth = c.depth;
      max_buckets = c.max_buckets;
      threshold = c.zero_threshold.0;
    }) };
}

impl NativeHistogramConfig {
    /// Settings of the factor between the bounds of neighbouring buckets at the start, the greatest number of buckets, and
    /// the threshold of zeros, both numbers in billionths. Refused is, in this order, a factor that isn't over 1, a factor
    /// other than 2, 4, 16, 256 and 65536, no bucket at all, and a negative threshold.
    pub fn new(
        bucket_factor: Fixed,
        max_buckets: u32,
        zero_threshold: Fixed,
    ) -> Result<NativeHistogramConfig, &'static str>
        ensures refused { IfErr result (λ text.
            refusal bucket_factor.0 max_buckets zero_threshold.0 ≡ Some text.now) }
        ensures accepted { IfOk result (Accepts bucket_factor.0 max_buckets zero_threshold.0) }
    {
        if bucket_factor.0 <= 1_000_000_000 {
            return Err("bucket_factor must be greater than 1.0");
        }
        let Some(depth) = depth_of(bucket_factor.0) else {
            return Err("bucket_factor must be 2, 4, 16, 256 or 65536");
        };
        if max_buckets == 0 {
            return Err("max_buckets must be greater than 0");
        }
        if zero_threshold.0 < 0 {
            return Err("zero_threshold must be non-negative");
        }
        Ok(NativeHistogramConfig {
            depth,
            max_buckets,
            zero_threshold,
        })
    }

    /// The factor between the bounds of neighbouring buckets at the start, in billionths.
    pub fn bucket_factor(&self) -> Fixed
        ensures { result.0 ≡ factor_of self.now.depth }
    {
        match self.depth {
            0 => Fixed(2_000_000_000),
            1 => Fixed(4_000_000_000),
            2 => Fixed(16_000_000_000),
            3 => Fixed(256_000_000_000),
            _ => Fixed(65_536_000_000_000),
        }
    }

    /// The greatest number of buckets, positive and negative together, before the schema falls.
    pub fn max_buckets(&self) -> u32
        ensures { result ≡ self.now.max_buckets }
    {
        self.max_buckets
    }

    /// A value is a zero where its magnitude is at most this, in billionths.
    pub fn zero_threshold(&self) -> Fixed
        ensures threshold { result.0 ≡ self.now.threshold }
        ensures in_range { IsInRange self.now }
    {
        self.zero_threshold
    }

    /// Minus the schema at the start.
    pub(crate) fn depth(&self) -> u32
        ensures depth { result ≡ self.now.depth }
        ensures in_range { IsInRange self.now }
    {
        self.depth
    }
}

/// The depth that a factor in billionths starts at.
fn depth_of(factor: i64) -> Option<u32>
    ensures depth { result ≡ depth_of factor }
    ensures least { IfSome result (λ depth. depth ≤ 4) }
{
    match factor {
        2_000_000_000 => Some(0),
        4_000_000_000 => Some(1),
        16_000_000_000 => Some(2),
        256_000_000_000 => Some(3),
        65_536_000_000_000 => Some(4),
        _ => None,
    }
}
