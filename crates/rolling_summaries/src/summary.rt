//! Summaries over a window that moves on with time.

ghost use Rattle.std.specs.Prelude.{◌≡◌, ◌<◌, ◌≤◌, ◌*◌, ◌^◌, ◌==◌, [], ◌≢◌, length, IfNone, IfOk, IfSome, IsOk, OnOk, OnErr};
ghost use Rattle.std.specs.Int.NonZero.{non_zero_u32_get};
ghost use Rattle.rolling_summaries.specs.Summaries.{empty_summary, added, kept_in_window, snapshot_at};
ghost use Rattle.rolling_summaries.specs.Standing.{StandsFor, StandsForMore, ShowsWindow, same_samples};

use crate::Bucket;
use crate::buckets::{Window, put, sole_in_window, values_in_window};
use metrics_core::{Fixed, Memory};
use metrics_registry::Bag;
use std::alloc::Global;
use std::collections::VecDeque;
use std::marker::Model;
use std::num::NonZeroU32;

/// How many buckets a summary has by default.
const DEFAULT_BUCKETS: u32 = 3;

/// How wide a bucket is by default, in nanoseconds: 20 seconds.
const DEFAULT_BUCKET_DURATION: u64 = 20_000_000_000;

/// The values of the samples in a window of time, for quantiles over what came lately. The samples fall into buckets of a
/// width. A bucket leaves the window as a whole once its begin is a span old; the span is the number of buckets times
/// their width. Moments are in nanoseconds of a clock of the caller's.
///
/// A contract sees how many buckets the summary was built for, their width, the buckets that it keeps, the newest first,
/// and the number of its samples.
#[derive(Drop)]
pub struct RollingSummary {
    limit: u32,
    width: u64,
    /// The newest bucket first.
    kept: VecDeque<Bucket>,
    count: u64,
}

impl Model for RollingSummary {
    ghost use Rattle.rolling_summaries.specs.Summaries.{Summary, IsBuilt};

    ghost Value = { Summary };

    ghost view = { λ s. record {
      limit = s.limit;
      width = s.width;
      kept = s.kept.items;
      count = s.count;
    } };

    ghost invariant = { λ s. IsBuilt s.limit s.width s.kept.items };
}

impl RollingSummary {
    /// A summary of no samples, for so many buckets of a width in nanoseconds. It takes no memory.
    pub fn new(alloc: Global, buckets: NonZeroU32, bucket_duration: u64) -> Self
        requires wide { 0 < bucket_duration }
        requires fits { non_zero_u32_get buckets * bucket_duration < 2 ^ 64 }
        ensures empty { result ≡ empty_summary (non_zero_u32_get buckets) bucket_duration }
        ensures stands { StandsFor result [] }
    {
        RollingSummary {
            limit: buckets.get(),
            width: bucket_duration,
            kept: VecDeque::new(alloc),
            count: 0,
        }
    }

    /// A summary of no samples, for 3 buckets of 20 seconds.
    pub fn with_defaults(alloc: Global) -> Self
        ensures empty { result ≡ empty_summary 3 (20 * 10 ^ 9) }
        ensures stands { StandsFor result [] }
    {
        RollingSummary {
            limit: DEFAULT_BUCKETS,
            width: DEFAULT_BUCKET_DURATION,
            kept: VecDeque::new(alloc),
            count: 0,
        }
    }

    /// Adds a value for so many samples at a moment. A count of 0 changes nothing and is never refused. A refusal changes
    /// nothing. It comes also where the sample's bucket would hold 2^64 values or more.
    ///
    /// A sample before the newest bucket joins the one that it falls into, if that is kept. Otherwise it is counted and
    /// forgotten. The newest bucket is tried first, and another is found in time by the logarithm of the buckets. A bucket
    /// begins, and leaves, in constant time, amortized.
    pub fn add(&mut self, alloc: Global, value: Fixed, now: u64, count: u32) -> Result<(), Memory>
        ensures added { OnOk result (self.new ≡ added now value.0 count self.old) }
        ensures refused { OnErr result (self.new ≡ self.old) }
        ensures none { count ≡ 0 → IsOk result }
        ensures stands { OnOk result (StandsForMore self.old now
            (same_samples value.0 now count) self.new) }
    {
        if count == 0 {
            return Ok(());
        }
        let window = Window {
            limit: self.limit,
            width: self.width,
            now,
        };
        put(alloc, &mut self.kept, window, value, count)?;
        self.count = self.count.wrapping_add(u64::from(count));
        Ok(())
    }

    /// The values of the window at a moment. It takes memory for the distinct values of the window, and time by those of its
    /// buckets, with their logarithm. Buckets out of the window take none. Where no bucket is kept, it is never refused.
    pub fn snapshot(&self, alloc: Global, now: u64) -> Result<Bag, Memory>
        ensures none { self.now.kept ≡ [] → IsOk result }
        ensures snapshot { IfOk result (λ bag. bag ≡ snapshot_at now self.now) }
        ensures window { IfOk result (ShowsWindow self.now now) }
    {
        let window = Window {
            limit: self.limit,
            width: self.width,
            now,
        };
        values_in_window(alloc, &self.kept, window)
    }

    /// The values of the window at a moment, where exactly one bucket is in it: they are lent, and take no memory.
    pub fn sole_values(&self, now: u64) -> Option<&Bag>
        ensures sole { IfSome result (λ bag. bag.now ≡ snapshot_at now self.now) }
        ensures window { IfSome result (λ bag. ShowsWindow self.now now bag.now) }
        ensures one { IfSome result (λ _.
            length (kept_in_window (self.now.limit * self.now.width) now self.now.kept) ≡ 1) }
        ensures others { IfNone result (length
            (kept_in_window (self.now.limit * self.now.width) now self.now.kept) ≢ 1) }
    {
        let window = Window {
            limit: self.limit,
            width: self.width,
            now,
        };
        sole_in_window(&self.kept, window)
    }

    /// Whether there was no sample so far. Since the number of samples is kept modulo 2^64, it is so too after each 2^64
    /// samples.
    pub fn is_empty(&self) -> bool
        ensures { result ≡ (self.now.count == 0) }
    {
        self.count == 0
    }

    /// The number of samples so far, modulo 2^64.
    pub fn count(&self) -> u64
        ensures { result ≡ self.now.count }
    {
        self.count
    }

    /// The number of buckets that are kept: at most as many as the summary was built for.
    pub fn bucket_len(&self) -> usize
        ensures kept { result ≡ length self.now.kept }
        ensures limit { result ≤ self.now.limit }
    {
        self.kept.len()
    }
}
