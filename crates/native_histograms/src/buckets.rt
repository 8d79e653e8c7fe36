//! The buckets of a histogram: of each sign, from each index to how many values have it.

ghost use Rattle.std.specs.Prelude.{◌≡◌, [], ℤ, ◌+◌, ◌*◌, ◌^◌, ◌<◌, ◌≤◌, IfOk, OnOk, OnErr, IsTrue, None, ◌&&◌, nat_lt};
ghost use Rattle.std.specs.Map.{lookup};
ghost use Rattle.std.specs.Ordering.{int_cmp, int_eq};
ghost use Rattle.std.specs.BTreeMap.{IsOrdered};
ghost use Rattle.native_histograms.specs.Native.{index_of, opens_beside};
ghost use Rattle.native_histograms.specs.Placed.{half_up, raised_at, opens_over, sides, Raises, Halves, Places, Adds};

use crate::NativeHistogramConfig;
use metrics_core::{Fixed, Memory};
use std::alloc::Global;
use std::collections::BTreeMap;

/// The buckets and the zeros of a histogram.
#[derive(Drop)]
pub(crate) struct Buckets {
    /// Minus the schema.
    pub depth: u32,
    /// From each index of the values over the threshold to its count, modulo 2^64.
    pub positive: BTreeMap<i32, u64>,
    /// The same of the values under minus the threshold.
    pub negative: BTreeMap<i32, u64>,
    /// How many other values there are, modulo 2^64.
    pub zeros: u64,
}

impl Buckets {
    ghost use Rattle.native_histograms.specs.Filled.{buckets_text};

    /// No buckets.
    pub fn new(alloc: Global, depth: u32) -> Buckets
        ensures { buckets_text result
            ≡ record { depth = depth; positive = []; negative = []; zeros = 0 } }
    {
        Buckets {
            depth,
            positive: BTreeMap::new(alloc),
            negative: BTreeMap::new(alloc),
            zeros: 0,
        }
    }

    /// Adds a value so many times. It takes memory only where a bucket opens; refused that, nothing changes.
    pub fn add(
        &mut self,
        alloc: Global,
        config: &NativeHistogramConfig,
        value: Fixed,
        count: u32,
    ) -> Result<(), Memory>
        requires { 0 < count }
        ensures added { OnOk result (Adds config.now (buckets_text self.old) (value.0, count)
            (buckets_text self.new)) }
        ensures depth { self.old.depth ≤ 4 → self.new.depth ≤ 4 }
        ensures refused { OnErr result (buckets_text self.new ≡ buckets_text self.old) }
        ensures opens { let old = buckets_text self.old in
            OnErr result (IsTrue (opens_beside config.now old.depth old.positive old.negative value.0)) }
    {
        let threshold = config.zero_threshold().0;
        let most = config.max_buckets();
        if value.0 > threshold {
            let index = index_of(self.depth, value.0.unsigned_abs());
            place(
                alloc,
                &mut self.depth,
                &mut self.positive,
                &mut self.negative,
                most,
                index,
                count,
            )
        } else if value.0 < -threshold {
            let index = index_of(self.depth, value.0.unsigned_abs());
            place(
                alloc,
                &mut self.depth,
                &mut self.negative,
                &mut self.positive,
                most,
                index,
                count,
            )
        } else {
            self.zeros = self.zeros.wrapping_add(u64::from(count));
            Ok(())
        }
    }

    /// The same buckets again.
    pub fn duplicate(&self) -> Result<Buckets, Memory>
        ensures { IfOk result (λ buckets. buckets_text buckets ≡ buckets_text self.now) }
    {
        Ok(Buckets {
            depth: self.depth,
            positive: self.positive.clone()?,
            negative: self.negative.clone()?,
            zeros: self.zeros,
        })
    }
}

/// The index of a magnitude in billionths at a depth: the least j with the magnitude at most 2^(j * 2^depth).
fn index_of(depth: u32, magnitude: u64) -> i32
    requires least { 1 ≤ magnitude }
    requires most { magnitude ≤ 2 ^ 63 }
    ensures { result ≡ index_of depth magnitude }
{
    let mut index = index_at_start(magnitude);
    for _lowered in 0..depth {
        index = half_up(index);
    }
    index
}

/// The index at depth 0.
fn index_at_start(magnitude: u64) -> i32
    requires least { 1 ≤ magnitude }
    requires most { magnitude ≤ 2 ^ 63 }
    ensures { result ≡ index_of 0 magnitude }
{
    // Both sides are scaled by 2^29, so that the bound of the least index, -29, is a whole number.
    let scaled = u128::from(magnitude) * 536_870_912;
    let mut bound = 1_000_000_000u128;
    for place in 0..63u32 {
        if scaled <= bound {
            return place as i32 - 29;
        }
        bound *= 2;
    }
    34
}

/// Half of an index, rounded up.
fn half_up(index: i32) -> i32
    ensures { result ≡ half_up index }
{
    if index > 0 {
        index - index / 2
    } else {
        index / 2
    }
}

/// Raises the count at an index, modulo 2^64.
fn add(buckets: &mut BTreeMap<i32, u64>, index: i32, count: u64) -> Result<(), Memory>
    ensures raised { OnOk result ((i : ℤ) → lookup (int_eq i) buckets.new.entries
        ≡ raised_at index count i (lookup (int_eq i) buckets.old.entries)) }
    ensures ordered { IsOrdered int_cmp buckets.new }
    ensures refused { OnErr result (buckets.new.entries ≡ buckets.old.entries) }
    ensures absent { OnErr result (lookup (int_eq index) buckets.old.entries ≡ None) }
{
    let held = buckets.get(&index).copied().unwrap_or(0);
    buckets.insert(index, held.wrapping_add(count))?;
    Ok(())
}

/// Puts so many more values in the bucket of an index.
fn raise(buckets: &mut BTreeMap<i32, u64>, index: i32, count: u32) -> Result<(), Memory>
    requires { 0 < count }
    ensures raised { OnOk result (Raises buckets.old.entries (index, count) buckets.new.entries) }
    ensures refused { OnErr result (buckets.new.entries ≡ buckets.old.entries) }
    ensures absent { OnErr result (lookup (int_eq index) buckets.old.entries ≡ None) }
{
    add(buckets, index, u64::from(count))
}

/// The buckets with each index halved upwards: two that meet add their counts.
fn halved(alloc: Global, buckets: &BTreeMap<i32, u64>) -> Result<BTreeMap<i32, u64>, Memory>
    ensures { IfOk result (λ halved. Halves buckets.now.entries halved.entries) }
{
    let mut halved = BTreeMap::new(alloc);
    for (index, count) in buckets {
        add(&mut halved, half_up(*index), *count)?;
    }
    // `len` is called for its clause that the map is in order.
    let _len = halved.len();
    Ok(halved)
}

/// Whether an index opens a bucket over the greatest number.
fn opens_too_many(
    side: &BTreeMap<i32, u64>,
    other: &BTreeMap<i32, u64>,
    max_buckets: u32,
    index: i32,
) -> bool
    ensures absent { IsTrue result → lookup (int_eq index) side.now.entries ≡ None }
    ensures opens { result ≡ opens_over max_buckets side.now.entries other.now.entries index }
{
    !side.contains_key(&index)
        && side.len() as u128 + other.len() as u128 + 1 > u128::from(max_buckets)
}

/// Whether an index opens a bucket over the greatest number while the depth may rise.
fn is_full(
    depth: u32,
    side: &BTreeMap<i32, u64>,
    other: &BTreeMap<i32, u64>,
    max_buckets: u32,
    index: i32,
) -> bool
    ensures absent { IsTrue result → lookup (int_eq index) side.now.entries ≡ None }
    ensures full { result ≡ (nat_lt depth 4 && opens_over max_buckets side.now.entries
        other.now.entries index) }
{
    depth < 4 && opens_too_many(side, other, max_buckets, index)
}

/// Puts so many values of an index in the buckets of their sign, beside those of the other sign. Where that opens a bucket
/// over the greatest number and the depth is under 4, the depth rises by one and all indices are halved upwards.
fn place(
    alloc: Global,
    depth: &mut u32,
    side: &mut BTreeMap<i32, u64>,
    other: &mut BTreeMap<i32, u64>,
    max_buckets: u32,
    index: i32,
    count: u32,
) -> Result<(), Memory>
    requires { 0 < count }
    ensures placed { let old = sides depth.old side.old.entries other.old.entries in
        let new = sides depth.new side.new.entries other.new.entries in
        OnOk result (Places max_buckets old (index, count) new) }
    ensures depth { depth.old ≤ 4 → depth.new ≤ 4 }
    ensures refused_depth { OnErr result (depth.new ≡ depth.old) }
    ensures refused_side { OnErr result (side.new.entries ≡ side.old.entries) }
    ensures refused_other { OnErr result (other.new.entries ≡ other.old.entries) }
    ensures absent { OnErr result (lookup (int_eq index) side.old.entries ≡ None) }
{
    if is_full(*depth, side, other, max_buckets, index) {
        let mut merged = halved(alloc, side)?;
        let others = halved(alloc, other)?;
        raise(&mut merged, half_up(index), count)?;
        *side = merged;
        *other = others;
        *depth += 1;
        Ok(())
    } else {
        raise(side, index, count)
    }
}
