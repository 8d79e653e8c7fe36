//! How often each distinct value of a bag is there.
ghost use Rattle.std.specs.Prelude.{◌≡◌, ◌+◌, ◌-◌, ◌^◌, ◌<◌, ◌≤◌, [], ◌∷◌, nat_eq, nat_lt, All, map, filter, length, slice_get, sum, option_map, is_some, OnOk, OnErr, IfOk, IsErr};
ghost use Rattle.std.specs.Map.{lookup, keys_of};
ghost use Rattle.std.specs.Option.{option_copied};
ghost use Rattle.indexmap.specs.IndexMap.{values};
ghost use Rattle.std.specs.Arc.{arc_value};
ghost use Rattle.value_bags.specs.Entries.{with_keys};
ghost use Rattle.value_bags.specs.Bags.{total, count_up, count_down, counted, counted_times, IsProper};

use crate::Keep;
use indexmap::IndexMap;
use indexmap::map::Slice;
use std::alloc::{AllocError, Global};
use std::hash::Hash;
use std::marker::Model;
use std::sync::Arc;

/// How often each distinct value of a bag is there. A clause sees the list of the values in the order in which they came
/// first, each with its count.
#[derive(Drop)]
pub(crate) struct Counts<V: Eq + Hash> {
    counts: IndexMap<Arc<V>, u64>,
    /// How many values there are in all.
    len: u64,
}

impl<V: Eq + Hash> Model for Counts<V> {
    ghost use Rattle.std.specs.Prelude.{◌≡◌, ◌<◌, List, ℕ, All};
    ghost use Rattle.std.specs.Arc.{arc_value};
    ghost use Rattle.value_bags.specs.Entries.{with_keys};
    ghost use Rattle.value_bags.specs.Bags.{total};

    ghost Value = { List (V × ℕ) };

    ghost view = { λ it. with_keys arc_value it.counts.entries };

    ghost invariant = { λ it. (it.len ≡ total (with_keys arc_value it.counts.entries)) × All (λ c. 0 < c.1) (with_keys arc_value it.counts.entries) };
}

/// Counts one more of a value.
fn count_one<V: Eq + Hash + Drop>(
    counts: &mut IndexMap<Arc<V>, u64>,
    value: &Arc<V>,
) -> Result<(), AllocError>
    requires { total (with_keys arc_value counts.old.entries) + 1 < 2 ^ 64 }
    ensures counted { OnOk result (with_keys arc_value counts.new.entries ≡ count_up V.eq
        (with_keys arc_value counts.old.entries) (arc_value value.now)) }
    ensures refused { OnErr result (counts.new.entries ≡ counts.old.entries) }
{
    if let Some(count) = counts.get_mut(value) {
        *count += 1;
        return Ok(());
    }
    let shared = Arc::try_clone(value)?;
    counts.insert(shared, 1)?;
    Ok(())
}

/// Counts one less of a value, and answers whether it was there.
fn uncount_one<V: Eq + Hash + Drop>(counts: &mut IndexMap<Arc<V>, u64>, value: &Arc<V>) -> bool
    ensures uncounted { with_keys arc_value counts.new.entries ≡ count_down V.eq
        (with_keys arc_value counts.old.entries) (arc_value value.now) }
    ensures found { result ≡ is_some
        (lookup (V.eq (arc_value value.now)) (with_keys arc_value counts.old.entries)) }
{
    let Some(count) = counts.get_mut(value) else {
        return false;
    };
    if *count > 1 {
        *count -= 1;
        return true;
    }
    counts.swap_remove(value);
    true
}

/// How many values the counts add up to.
fn total_of<V: Eq + Hash>(counts: &IndexMap<Arc<V>, u64>) -> u64
    requires { sum (values counts.now) < 2 ^ 64 }
    ensures { result ≡ sum (values counts.now) }
{
    let mut all = 0;
    for count in counts.values() {
        all += *count;
    }
    all
}

impl<V: Eq + Hash> Counts<V> {
    pub(crate) fn new(alloc: Global) -> Counts<V>
        ensures { result ≡ [] }
    {
        Counts {
            counts: IndexMap::new(alloc),
            len: 0,
        }
    }

    /// How many values there are.
    pub(crate) fn len(&self) -> u64
        ensures len { result ≡ total self.now }
        ensures proper { IsProper V.eq self.now }
    {
        let _distinct = self.counts.len();
        self.len
    }

    /// Counts one more of a value. It is refused also where there would be 2^64 values.
    pub(crate) fn push(&mut self, value: &Arc<V>) -> Result<(), AllocError>
    where
        V: Drop,
        ensures pushed { OnOk result (self.new ≡ count_up V.eq self.old (arc_value value.now)) }
        ensures refused { OnErr result (self.new ≡ self.old) }
        ensures full { 2 ^ 64 ≤ total self.old + 1 → IsErr result }
    {
        let Some(len) = self.len.checked_add(1) else {
            return Err(AllocError);
        };
        count_one(&mut self.counts, value)?;
        self.len = len;
        Ok(())
    }

    /// The counts of these values.
    pub(crate) fn of(alloc: Global, items: &[Arc<V>]) -> Result<Counts<V>, AllocError>
    where
        V: Drop,
        ensures { IfOk result (λ counts. counts ≡ counted V.eq (map arc_value items.now)) }
    {
        let mut counts = Counts::new(alloc);
        for item in items {
            counts.push(item)?;
        }
        Ok(counts)
    }

    /// No counts, with room for so many distinct values.
    pub(crate) fn with_room(alloc: Global, additional: usize) -> Result<Counts<V>, AllocError>
        ensures { IfOk result (λ counts. counts ≡ []) }
    {
        Ok(Counts {
            counts: IndexMap::with_capacity(alloc, additional)?,
            len: 0,
        })
    }

    /// Takes out one occurrence of a value, where there is one.
    pub(crate) fn remove_one(&mut self, value: &Arc<V>)
    where
        V: Drop,
        ensures { self.new ≡ count_down V.eq self.old (arc_value value.now) }
    {
        if uncount_one(&mut self.counts, value) {
            self.len -= 1;
        }
    }

    /// Keeps the values that pass a test.
    pub(crate) fn retain<P: Keep<V>>(&mut self, test: &P)
    where
        V: Drop,
        ensures { self.new ≡ filter (λ c. P.keeps test.now c.0) self.old }
    {
        self.counts.retain(|value, _| test.keep(value));
        self.len = total_of(&self.counts);
    }

    /// Takes out all values.
    pub(crate) fn clear(&mut self)
    where
        V: Drop,
        ensures { self.new ≡ [] }
    {
        self.counts.clear();
        self.len = 0;
    }

    /// Makes room for so many more distinct values.
    pub(crate) fn reserve(&mut self, additional: usize) -> Result<(), AllocError>
        ensures { self.new ≡ self.old }
    {
        self.counts.reserve(additional)
    }

    /// Gives back memory that isn't needed.
    pub(crate) fn shrink(&mut self)
        ensures { self.new ≡ self.old }
    {
        self.counts.shrink_to_fit();
    }

    /// Whether each value is there once.
    pub(crate) fn has_no_doubles(&self) -> bool
        ensures { result ≡ nat_eq (length self.now) (total self.now) }
    {
        self.counts.len() as u64 == self.len
    }

    /// Each value once.
    pub(crate) fn distinct(&self) -> Result<Vec<Arc<V>>, AllocError>
    where
        V: Drop,
        ensures { IfOk result (λ values. map arc_value values.items ≡ keys_of self.now) }
    {
        let mut values = Vec::new(*self.counts.allocator());
        for value in self.counts.keys() {
            values.push(Arc::try_clone(value)?)?;
        }
        Ok(values)
    }

    /// How many values it has room for.
    pub(crate) fn capacity(&self) -> u64
        ensures { total self.now ≤ result }
    {
        self.len.max(self.counts.capacity() as u64)
    }

    /// Whether a value is there.
    pub(crate) fn contains(&self, value: &V) -> bool
        ensures { result ≡ nat_lt 0 (counted_times V.eq self.now value.now) }
    {
        for other in self.counts.keys() {
            if *value == **other {
                return true;
            }
        }
        false
    }

    /// One of the values.
    pub(crate) fn first(&self) -> Option<&V>
        ensures first { option_copied result ≡ option_map (λ c. c.0) (slice_get self.now 0) }
        ensures positive { All (λ c. 0 < c.1) self.now }
    {
        let (value, _) = self.counts.first()?;
        Some(value)
    }

    /// The values with their counts.
    pub(crate) fn as_slice(&self) -> Slice<'_, Arc<V>, u64>
        ensures counts { with_keys arc_value result ≡ self.now }
        ensures positive { All (λ c. 0 < c.1) self.now }
    {
        self.counts.as_slice()
    }
}
