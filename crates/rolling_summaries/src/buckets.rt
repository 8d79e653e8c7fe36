//! The buckets of a summary: which of them takes a sample, where a new one begins, and which are in a window.

ghost use Rattle.std.specs.Prelude.{◌≡◌, ◌<◌, ◌≤◌, ◌*◌, ◌^◌, [], ◌≢◌, length, flat_map, replicate, None, IfNone, IfOk, IsOk, IfSome, OnOk, OnErr};
ghost use Rattle.metrics_registry.specs.Quantiles.{ascending};
ghost use Rattle.rolling_summaries.specs.Summaries.{in_window, takes, taker, joined, newest_begin, new_begin, begun, kept_in_window, kept_after, Apart, AreOrdered};

use metrics_core::{Fixed, Memory};
use metrics_registry::Bag;
use std::alloc::Global;
use std::collections::VecDeque;

/// The values of the samples that fall into one bucket of time. A contract sees the buckets that a summary keeps as a list
/// of these.
#[derive(Drop)]
pub struct Bucket {
    /// The moment at which the bucket begins, in nanoseconds.
    pub begin: u64,
    /// The values of its samples.
    pub values: Bag,
}

impl Bucket {
    /// A bucket with a value so many times.
    fn of(alloc: Global, begin: u64, value: Fixed, count: u32) -> Result<Bucket, Memory>
        ensures begin { IfOk result (λ bucket. bucket.begin ≡ begin) }
        ensures values { IfOk result (λ bucket. bucket.values ≡ ascending (replicate count value.0)) }
    {
        let mut values = Bag::new(alloc);
        values.add(value, u64::from(count))?;
        Ok(Bucket { begin, values })
    }

    /// Whether it takes a sample at a moment.
    fn takes(&self, width: u64, now: u64) -> bool
        ensures { result ≡ takes width now self.now }
    {
        self.begin <= now && now - self.begin < width
    }
}

/// The window at a moment of buckets that are kept.
#[derive(Clone, Copy)]
pub struct Window {
    /// How many buckets are kept.
    pub limit: u32,
    /// How long a bucket is.
    pub width: u64,
    /// The moment.
    pub now: u64,
}

impl Window {
    /// Whether a begin is in it.
    fn holds(self, begin: u64) -> bool
        requires { self.limit * self.width < 2 ^ 64 }
        ensures { result ≡ in_window (self.limit * self.width) self.now begin }
    {
        let span = u64::from(self.limit) * self.width;
        self.now < span || self.now - span < begin
    }
}

/// The place of the bucket that takes a sample at a moment. The newest is tried first, and then the begins are halved.
fn taker_place(kept: &VecDeque<Bucket>, width: u64, now: u64) -> Option<usize>
    requires wide { 0 < width }
    requires apart { Apart width kept.now.items }
    ensures taker { result ≡ taker width now kept.now.items }
    ensures within { IfSome result (λ place. place < length kept.now.items) }
{
    if kept.front()?.takes(width, now) {
        return Some(0);
    }
    let place = kept.partition_point(|bucket| now < bucket.begin);
    if kept.get(place)?.takes(width, now) {
        Some(place)
    } else {
        None
    }
}

/// Puts a value so many times to the bucket at a place.
fn join(kept: &mut VecDeque<Bucket>, place: usize, value: Fixed, count: u32) -> Result<(), Memory>
    requires { place < length kept.old.items }
    ensures joined { OnOk result (kept.new.items ≡ joined
        (replicate count value.0) place kept.old.items) }
    ensures refused { OnErr result (kept.new.items ≡ kept.old.items) }
{
    let bucket = &mut kept[place];
    bucket.values.add(value, u64::from(count))
}

/// The newest begin in the window.
fn newest_in_window(kept: &VecDeque<Bucket>, window: Window) -> Option<u64>
    requires fits { window.limit * window.width < 2 ^ 64 }
    requires apart { Apart window.width kept.now.items }
    ensures { result ≡ newest_begin
        (kept_in_window (window.limit * window.width) window.now kept.now.items) }
{
    let newest = kept.front()?;
    if window.holds(newest.begin) {
        Some(newest.begin)
    } else {
        None
    }
}

/// Where a bucket begins for a sample that no bucket takes, behind the newest begin that is left.
fn begin_of_new(newest: Option<u64>, width: u64, now: u64) -> Option<u64>
    requires { 0 < width }
    ensures { result ≡ new_begin width now newest }
{
    match newest {
        None => Some(now),
        Some(newest) if newest < now => Some(newest + (now - newest) / width * width),
        Some(_) => None,
    }
}

/// Drops the buckets that are out of the window. They are the oldest, so it takes time for what it drops alone.
fn drop_old(kept: &mut VecDeque<Bucket>, window: Window)
    requires fits { window.limit * window.width < 2 ^ 64 }
    requires apart { Apart window.width kept.old.items }
    ensures { kept.new.items ≡ kept_in_window
        (window.limit * window.width) window.now kept.old.items }
{
    while let Some(oldest) = kept.back() {
        if window.holds(oldest.begin) {
            return;
        }
        let _out = kept.pop_back();
    }
}

/// Drops the buckets out of the window, and begins one with a value so many times, unless the moment is before the newest
/// begin that is left.
fn begin_bucket(
    alloc: Global,
    kept: &mut VecDeque<Bucket>,
    window: Window,
    value: Fixed,
    count: u32,
) -> Result<(), Memory>
    requires some { 0 < window.limit }
    requires wide { 0 < window.width }
    requires fits { window.limit * window.width < 2 ^ 64 }
    requires apart { Apart window.width kept.old.items }
    requires none { taker window.width window.now kept.old.items ≡ None }
    ensures begun { let left = kept_in_window
        (window.limit * window.width) window.now kept.old.items in
        OnOk result (kept.new.items ≡ begun window.limit window.width window.now (replicate count value.0) left) }
    ensures refused { OnErr result (kept.new.items ≡ kept.old.items) }
{
    let newest = newest_in_window(kept, window);
    if let Some(begin) = begin_of_new(newest, window.width, window.now) {
        let bucket = Bucket::of(alloc, begin, value, count)?;
        kept.push_front(bucket)?;
        drop_old(kept, window);
        kept.truncate(window.limit as usize);
    } else {
        drop_old(kept, window);
    }
    Ok(())
}

/// Puts a value so many times to the buckets: into the one that takes it, or else into a new one.
pub fn put(
    alloc: Global,
    kept: &mut VecDeque<Bucket>,
    window: Window,
    value: Fixed,
    count: u32,
) -> Result<(), Memory>
    requires some { 0 < window.limit }
    requires wide { 0 < window.width }
    requires fits { window.limit * window.width < 2 ^ 64 }
    requires apart { Apart window.width kept.old.items }
    ensures put { OnOk result (kept.new.items
        ≡ kept_after window.limit window.width window.now (replicate count value.0) kept.old.items) }
    ensures refused { OnErr result (kept.new.items ≡ kept.old.items) }
{
    match taker_place(kept, window.width, window.now) {
        Some(place) => join(kept, place, value, count),
        None => begin_bucket(alloc, kept, window, value, count),
    }
}

/// The values of the buckets in the window, which are the newest.
pub fn values_in_window(
    alloc: Global,
    kept: &VecDeque<Bucket>,
    window: Window,
) -> Result<Bag, Memory>
    requires fits { window.limit * window.width < 2 ^ 64 }
    requires apart { Apart window.width kept.now.items }
    ensures none { kept.now.items ≡ [] → IsOk result }
    ensures values { let shown = flat_map (λ bucket. bucket.values)
        (kept_in_window (window.limit * window.width) window.now kept.now.items) in
        IfOk result (λ bag. bag ≡ ascending shown) }
{
    let mut bag = Bag::new(alloc);
    for bucket in kept {
        if !window.holds(bucket.begin) {
            break;
        }
        bag = bag.merged_with(&bucket.values)?;
    }
    Ok(bag)
}

/// The values of the buckets in the window, where that is one bucket.
pub fn sole_in_window(kept: &VecDeque<Bucket>, window: Window) -> Option<&Bag>
    requires fits { window.limit * window.width < 2 ^ 64 }
    requires apart { Apart window.width kept.now.items }
    requires ordered { AreOrdered kept.now.items }
    ensures sole { let shown = flat_map (λ bucket. bucket.values)
        (kept_in_window (window.limit * window.width) window.now kept.now.items) in
        IfSome result (λ bag. bag.now ≡ ascending shown) }
    ensures one { IfSome result (λ _.
        length (kept_in_window (window.limit * window.width) window.now kept.now.items) ≡ 1) }
    ensures others { IfNone result (length
        (kept_in_window (window.limit * window.width) window.now kept.now.items) ≢ 1) }
{
    let newest = kept.front()?;
    if !window.holds(newest.begin) {
        return None;
    }
    match kept.get(1) {
        Some(older) if window.holds(older.begin) => None,
        _ => Some(&newest.values),
    }
}
