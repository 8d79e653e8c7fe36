//! The counts.

ghost use Rattle.std.specs.Prelude.{◌≡◌, ◌<◌, [], true, false, length, option_map, slice_get, OnErr, OnOk};
ghost use Rattle.name_counts.specs.Counts.{count_of, has_room, lowered, raised};
ghost use Rattle.name_counts.specs.Read.{entry_read};

use crate::names::{CountedName, LentName, kept_name, make_ready};
use hash_starts::HashStart;
use indexmap::IndexMap;
use metrics_core::{Memory, MetricKind};
use std::alloc::Global;
use std::marker::Model;

/// Counts by a kind and a name, in the order in which the pairs were first counted. Each call costs at most two look-ups in a
/// hash map, however many pairs there are. A pair stays, also where its count goes down to 0.
#[derive(Drop)]
pub struct NameCounts {
    counts: IndexMap<CountedName, u64, HashStart>,
    // The pair that `reserve` made last, if `add` didn't take it yet.
    ready: Option<CountedName>,
}

impl Model for NameCounts {
    ghost use Rattle.name_counts.specs.Counts.{Counts};
    ghost use Rattle.name_counts.specs.Kept.{counts_kept};

    ghost Value = { Counts };

    ghost view = { λ kept. counts_kept kept.counts kept.ready };
}

impl NameCounts {
    /// Nothing is counted. Pairs are looked up by hashes from a start. It takes no memory.
    pub fn new(alloc: Global, start: HashStart) -> NameCounts
        ensures { result.entries ≡ [] }
    {
        NameCounts {
            counts: IndexMap::with_hasher(alloc, start),
            ready: None,
        }
    }

    /// The count of a kind and a name, 0 where there is none. It takes no memory.
    pub fn count(&self, kind: MetricKind, name: &str) -> u64
        ensures { result ≡ count_of kind name.now self.now.entries }
    {
        match self.counts.get(LentName { kind, name }) {
            Some(count) => *count,
            None => 0,
        }
    }

    /// Counts one more, modulo 2^64. A new pair of a kind and a name goes last, and may be refused memory, unless it was reserved.
    pub fn add(&mut self, kind: MetricKind, name: &str) -> Result<(), Memory>
        ensures raised { OnOk result (self.new.entries ≡ raised kind name.now self.old.entries) }
        ensures refused { OnErr result (self.new.entries ≡ self.old.entries) }
        ensures no_room { OnErr result (has_room self.old kind name.now ≡ false) }
    {
        if let Some(count) = self.counts.get_mut(LentName { kind, name }) {
            *count = count.wrapping_add(1);
            return Ok(());
        }
        let key = kept_name(&mut self.ready, *self.counts.allocator(), kind, name)?;
        self.counts.insert(key, 1)?;
        Ok(())
    }

    /// Makes room for an `add` of a kind and a name: the next call that changes the counts, if it is that one, isn't refused memory.
    pub fn reserve(&mut self, kind: MetricKind, name: &str) -> Result<(), Memory>
        ensures same { self.new.entries ≡ self.old.entries }
        ensures room { OnOk result (has_room self.new kind name.now ≡ true) }
    {
        if self.counts.contains_key(LentName { kind, name }) {
            return Ok(());
        }
        self.counts.reserve(1)?;
        make_ready(&mut self.ready, *self.counts.allocator(), kind, name)
    }

    /// Counts one less. The pair stays.
    pub fn take(&mut self, kind: MetricKind, name: &str)
        requires { 0 < count_of kind name.now self.old.entries }
        ensures { self.new.entries ≡ lowered kind name.now self.old.entries }
    {
        if let Some(count) = self.counts.get_mut(LentName { kind, name }) {
            *count -= 1;
        }
    }

    /// How many pairs there are.
    pub fn len(&self) -> usize
        ensures { result ≡ length self.now.entries }
    {
        self.counts.len()
    }

    /// The pair at a place and its count, in the order of first counting; `None` from `len` on.
    pub fn entry(&self, at: usize) -> Option<(MetricKind, &str, u64)>
        ensures { option_map entry_read result ≡ slice_get self.now.entries at }
    {
        let (key, count) = self.counts.get_index(at)?;
        Some((key.kind, key.name.as_str(), *count))
    }
}
