//! Bags of values, for quantiles.

ghost use Rattle.std.specs.Prelude.{◌≡◌, ◌+◌, ◌^◌, ◌≤◌, [], ◌++◌, length, map, replicate, option_map, IsErr, IfOk, OnOk, OnErr};
ghost use Rattle.metrics_core.specs.Fixed.{of_billionths};
ghost use Rattle.metrics_core.specs.Numbers.{one};
ghost use Rattle.metrics_registry.specs.Quantiles.{ascending, rank, nearest_rank};

use crate::Quantile;
use crate::chunks::{Chunk, add_all, raise, value_at};
use metrics_core::{BILLIONTHS, Fixed, Memory};
use std::alloc::Global;
use std::marker::Model;

const ONE: u128 = BILLIONTHS as u128;

/// A bag of fewer than 2^64 values. A contract sees it as the list of its values in ascending order. It takes memory for
/// each distinct value once, however often the value is there.
#[derive(Drop)]
pub struct Bag {
    /// How often each value is there.
    chunks: Vec<Chunk>,
    /// How many values there are.
    count: u64,
    alloc: Global,
}

impl Model for Bag {
    ghost use Rattle.std.specs.Prelude.{List, ℤ};
    ghost use Rattle.metrics_registry.specs.Quantiles.{ascending};
    ghost use Rattle.metrics_registry.specs.Bags.{repeated};
    ghost use Rattle.metrics_registry.specs.Chunks.{HasValues, entries_of};

    ghost Value = { List ℤ };

    ghost view = { λ bag. ascending (repeated (entries_of bag.chunks.items)) };

    ghost invariant = { λ bag. HasValues bag.count bag.chunks.items };
}

impl Bag {
    /// A bag without values.
    pub fn new(alloc: Global) -> Bag
        ensures { result ≡ [] }
    {
        Bag {
            chunks: Vec::new(alloc),
            count: 0,
            alloc,
        }
    }

    /// Adds a value so many times. It is refused, and changes nothing, also where the bag would hold 2^64 values or more.
    pub fn add(&mut self, value: Fixed, count: u64) -> Result<(), Memory>
        ensures added { OnOk result (self.new ≡ ascending (self.old ++ replicate count value.0)) }
        ensures refused { OnErr result (self.new ≡ self.old) }
        ensures full { 2 ^ 64 ≤ length self.old + count → IsErr result }
    {
        let Some(total) = self.count.checked_add(count) else {
            return Err(Memory);
        };
        raise(self.alloc, &mut self.chunks, value.0, count)?;
        self.count = total;
        Ok(())
    }

    /// Adds all values of another bag. It is refused, and changes nothing, also where the bag would hold 2^64 values or
    /// more.
    pub fn merge(&mut self, other: &Bag) -> Result<(), Memory>
        ensures merged { OnOk result (self.new ≡ ascending (self.old ++ other.now)) }
        ensures refused { OnErr result (self.new ≡ self.old) }
        ensures full { 2 ^ 64 ≤ length self.old + length other.now → IsErr result }
    {
        let Some(total) = self.count.checked_add(other.count) else {
            return Err(Memory);
        };
        let mut merged = Vec::new(self.alloc);
        add_all(self.alloc, &mut merged, self.chunks.as_slice())?;
        add_all(self.alloc, &mut merged, other.chunks.as_slice())?;
        self.chunks = merged;
        self.count = total;
        Ok(())
    }

    /// The bag with all values of another bag added in place. It takes time linear in the other bag's distinct values, each
    /// with one search, and memory for those that are new. It is refused, and the bag is gone, also where it would hold 2^64
    /// values or more.
    pub fn merged_with(self, other: &Bag) -> Result<Bag, Memory>
        ensures merged { IfOk result (λ bag. bag ≡ ascending (self ++ other.now)) }
        ensures full { 2 ^ 64 ≤ length self + length other.now → IsErr result }
    {
        let Bag {
            mut chunks,
            count,
            alloc,
        } = self;
        let Some(total) = count.checked_add(other.count) else {
            return Err(Memory);
        };
        add_all(alloc, &mut chunks, other.chunks.as_slice())?;
        Ok(Bag {
            chunks,
            count: total,
            alloc,
        })
    }

    /// How many values there are.
    pub fn count(&self) -> u64
        ensures { result ≡ length self.now }
    {
        self.count
    }

    /// The value at a quantile by the nearest rank: that of rank q * n rounded up, at least 1, among the n values in
    /// ascending order. It is `None` exactly where the bag is empty. It goes over the chunks, and over the values of one chunk.
    pub fn quantile(&self, q: &Quantile) -> Option<Fixed>
        ensures { result ≡ option_map of_billionths (nearest_rank q.now self.now) }
    {
        value_at(self.chunks.as_slice(), rank_of(q.billionths(), self.count))
    }

    /// The values at several quantiles, in any order, each as `quantile` answers it.
    pub fn quantiles(
        &self,
        alloc: Global,
        quantiles: &[Quantile],
    ) -> Result<Vec<Option<Fixed>>, Memory>
        ensures { IfOk result (λ values. values.items
            ≡ map (λ q. option_map of_billionths (nearest_rank q self.now)) quantiles.now) }
    {
        Ok(quantiles.iter().map(|q| self.quantile(q)).collect(alloc)?)
    }
}

/// The rank of a quantile, in billionths, among so many values.
fn rank_of(billionths: u32, count: u64) -> u64
    requires { billionths ≤ one }
    ensures { result ≡ rank billionths count }
{
    let rounded = (u128::from(billionths) * u128::from(count) + ONE - 1) / ONE;
    (rounded as u64).max(1)
}
