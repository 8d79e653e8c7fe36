//! Histograms with cumulative buckets.

ghost use Rattle.std.specs.Prelude.{◌≡◌, ◌<◌, [], map, length, IfOk, pos, FitsSigned, ◌*ℤ◌};
ghost use Rattle.std.specs.Int.{w128};
ghost use Rattle.metrics_registry.specs.Cumulative.{StandsFor, Observes};
ghost use Rattle.metrics_registry.specs.Buckets.{bucket_of, raised_bucket};

use metrics_core::{Fixed, Memory};
use std::alloc::{AllocError, Global};
use std::marker::Model;

/// A histogram with cumulative buckets: of each bound how many samples are at most the bound; the sum and the count of all
/// samples. Counts are kept modulo 2^64, the sum wraps in 128 bits of billionths. It keeps no samples: a contract says
/// which list of them it stands for.
#[derive(Drop)]
pub struct CumulativeHistogram {
    buckets: Vec<(Fixed, u64)>,
    sum: i128,
    count: u64,
}

impl Model for CumulativeHistogram {
    ghost use Rattle.std.specs.Prelude.{map, FitsSigned};
    ghost use Rattle.std.specs.Int.{w128};
    ghost use Rattle.std.specs.Int.{w128};
    ghost use Rattle.metrics_registry.specs.Cumulative.{HistogramText};
    ghost use Rattle.metrics_registry.specs.Buckets.{bucket_of};

    ghost Value = { HistogramText };

    ghost view = { λ h. record { buckets = map bucket_of h.buckets.items; sum = h.sum; count = h.count } };

    ghost invariant = { λ h. FitsSigned w128 h.sum };
}

impl CumulativeHistogram {
    /// A histogram of no samples.
    pub fn new(alloc: Global, bounds: &[Fixed]) -> Result<CumulativeHistogram, Memory>
        requires { 0 < length bounds.now }
        ensures { IfOk result (StandsFor (map (λ bound. bound.0) bounds.now) []) }
    {
        let buckets = empty_buckets(alloc, bounds)?;
        Ok(CumulativeHistogram {
            buckets,
            sum: 0,
            count: 0,
        })
    }

    /// Observes a value so many times. It takes no memory.
    pub fn observe(&mut self, value: Fixed, count: u32)
        ensures { Observes self.old (value.0, count) self.new }
    {
        raise_all(self.buckets.as_mut_slice(), value, count);
        self.sum = self.sum.wrapping_add(product(value, count));
        self.count = self.count.wrapping_add(u64::from(count));
    }

    /// Each bound with the number of samples that are at most the bound, in the order of the bounds.
    pub fn buckets(&self) -> &[(Fixed, u64)]
        ensures { map bucket_of result.now ≡ self.now.buckets }
    {
        self.buckets.as_slice()
    }

    /// The sum of the samples, in billionths.
    pub fn sum(&self) -> i128
        ensures { result ≡ self.now.sum }
    {
        self.sum
    }

    /// The number of samples.
    pub fn count(&self) -> u64
        ensures { result ≡ self.now.count }
    {
        self.count
    }
}

/// A bucket of no samples for each bound.
fn empty_buckets(alloc: Global, bounds: &[Fixed]) -> Result<Vec<(Fixed, u64)>, AllocError>
    ensures { IfOk result (λ buckets. buckets.items ≡ map (λ bound. (bound, 0)) bounds.now) }
{
    bounds.iter().map(|bound| (*bound, 0)).collect(alloc)
}

/// A value so many times.
fn product(value: Fixed, count: u32) -> i128
    ensures product { result ≡ value.0 *ℤ pos count }
    ensures fits { FitsSigned w128 result }
    ensures value_fits { FitsSigned w128 value.0 }
{
    i128::from(value.0) * i128::from(count)
}

/// A bucket after a value was observed so many times.
fn raised(bucket: (Fixed, u64), value: Fixed, count: u32) -> (Fixed, u64)
    ensures { result ≡ raised_bucket value.0 count bucket }
{
    let (bound, held) = bucket;
    if value.0 <= bound.0 {
        (bound, held.wrapping_add(u64::from(count)))
    } else {
        (bound, held)
    }
}

/// Raises each bucket.
fn raise_all(buckets: &mut [(Fixed, u64)], value: Fixed, count: u32)
    ensures { buckets.new ≡ map (raised_bucket value.0 count) buckets.old }
{
    for bucket in buckets.iter_mut() {
        *bucket = raised(*bucket, value, count);
    }
}
