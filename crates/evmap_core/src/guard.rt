//! The guard of a reader, which reads one front for as long as it lives.
ghost use Rattle.std.specs.Prelude.{◌≡◌, ◌<◌, ◌↔◌, Some, length, is_some, nat_eq, IsTrue};
ghost use Rattle.std.specs.Map.Iter.{ShowsInOrder, deref, deref_pair};
ghost use Rattle.indexmap.specs.IndexMap.{keys, values};
ghost use Rattle.value_bags.specs.declared.bag.BagForm.{BagForm};
ghost use Rattle.value_bags.specs.Entries.{with_keys};
ghost use Rattle.std.specs.Option.{option_copied};
ghost use Rattle.left_right.specs.Sides.{view};
ghost use Rattle.evmap_core.specs.Asked.{IsOneOf, bag_under, times_at, bag_at};
ghost use Rattle.evmap_core.specs.Guards.{map_shown_by, place_of, reading_of, shown_by};

use crate::published::{MapReader, MapReading};
use crate::reader::put_back;
use crate::{KnownFronts, ReadHandle};
use evmap_contents::KeyClone;
use indexmap::map::{Iter, Keys, Values as BagsInOrder};
use std::hash::{BuildHasher, Hash};
use std::marker::PhantomData;
use value_bags::{Keep, Values};

/// What ends by giving back a reader. It stands in for `Reading`, whose raw pointer would hide what a guard writes when it
/// ends.
pub trait Leaves<R, X> {
    ghost last: { Self → X };

    ghost shows: { X → R → Type 0 };

    /// Gives back the reader.
    fn go(self) -> R
        ensures { shows (last self) result };
}

impl<
    K: KeyClone + Drop,
    V: Eq + Hash + Drop,
    M: Drop,
    P: Keep<V> + Drop,
    S: BuildHasher + Drop,
> Leaves<MapReader<K, V, M, P, S>, KnownFronts<K::Plain, V, M, P>> for MapReading<K, V, M, P, S> {
    ghost last = { λ r. view r.place };

    ghost shows = { λ v r. view r.place ≡ v };

    fn go(self) -> MapReader<K, V, M, P, S> {
        self.leave()
    }
}

/// Where a guard puts the reader back.
pub trait Home<R> {
    ghost has: { Self → R → Type 0 };

    /// Takes the reader back.
    fn put(&mut self, reader: R)
        ensures { has self.new reader };
}

impl<
    K: KeyClone + Drop,
    V: Eq + Hash + Drop,
    M: Drop,
    P: Keep<V> + Drop,
    S: BuildHasher + Drop,
> Home<MapReader<K, V, M, P, S>> for ReadHandle<K, V, M, P, S> {
    ghost use Rattle.evmap_core.specs.Known.{reader_of};

    ghost has = { λ h r. reader_of h ≡ Some r };

    fn put(&mut self, reader: MapReader<K, V, M, P, S>) {
        put_back(&mut self.reader, Some(reader));
    }
}

/// A reading whose reader goes back when it ends.
pub struct Guard<'a, H: Home<R>, R, X, G: Leaves<R, X>, A> {
    pub(crate) home: &'a mut H,
    pub(crate) reading: G,
    /// What is looked at: nothing more, or the place of a key.
    pub(crate) at: A,
    pub(crate) of: PhantomData<(R, X)>,
}

impl<H: Home<R>, R, X, G: Leaves<R, X>, A: Drop> Drop for Guard<'_, H, R, X, G, A> {
    fn drop(self)
        ensures { (r : R) × H.has self.exit.0.now r × G.shows (G.last (reading_of self.entry)) r }
    {
        let Self {
            home,
            reading,
            at: _,
            of: _,
        } = self;
        home.put(reading.go());
    }
}

/// A guard of a reader, which looks at `A` beside the front.
pub type ReadGuard<'a, K, V, M, P, S, A> = Guard<
    'a,
    ReadHandle<K, V, M, P, S>,
    MapReader<K, V, M, P, S>,
    KnownFronts<<K as KeyClone>::Plain, V, M, P>,
    MapReading<K, V, M, P, S>,
    A,
>;

/// A guard of a reader.
pub type MapReadRef<'a, K, V, M, P, S> = ReadGuard<'a, K, V, M, P, S, ()>;

/// A guard of a reader that looks at one key, or at the meta alone. It copies no bag.
pub type EntryRef<'a, K, V, M, P, S> = ReadGuard<'a, K, V, M, P, S, Option<usize>>;

impl<
    K: KeyClone + Drop,
    V: Eq + Hash + Drop,
    M: Drop,
    P: Keep<V> + Drop,
    S: BuildHasher + Drop,
> MapReadRef<'_, K, V, M, P, S> {
    /// How many keys there are.
    pub fn len(&self) -> usize
        ensures { result ≡ length (shown_by K.plain self.now).entries }
    {
        self.reading.get().len()
    }

    /// Whether there is no key.
    pub fn is_empty(&self) -> bool
        ensures { result ≡ nat_eq (length (shown_by K.plain self.now).entries) 0 }
    {
        self.len() == 0
    }

    /// The meta.
    pub fn meta(&self) -> &M
        ensures { result.now ≡ (shown_by K.plain self.now).meta }
    {
        self.reading.get().meta()
    }

    /// The bag of a key.
    pub fn get(&self, key: &K) -> Option<&Values<V>>
        ensures { option_copied result ≡ bag_under K.same (K.plain key.now)
            (shown_by K.plain self.now) }
    {
        self.reading.get().get(key)
    }

    /// One value of the bag of a key. `None` where there is no such key, or its bag is empty.
    pub fn get_one(&self, key: &K) -> Option<&V>
        ensures { IsOneOf (bag_under K.same (K.plain key.now) (shown_by K.plain self.now))
            (option_copied result) }
    {
        self.reading.get().get_one(key)
    }

    /// Whether a key is there.
    pub fn contains_key(&self, key: &K) -> bool
        ensures { result ≡ is_some
            (bag_under K.same (K.plain key.now) (shown_by K.plain self.now)) }
    {
        self.reading.get().contains_key(key)
    }

    /// Whether a value is in the bag of a key.
    pub fn contains_value(&self, key: &K, value: &V) -> bool
        ensures { IsTrue result
            ↔ (0 < times_at V.eq (bag_under K.same (K.plain key.now) (shown_by K.plain self.now)) value.now) }
    {
        self.reading.get().contains_value(key, value)
    }

    /// The keys with their bags, in order.
    pub fn iter(&self) -> Iter<'_, K, Values<V>>
        ensures rest { with_keys K.plain result ≡ (shown_by K.plain self.now).entries }
        ensures runs { ShowsInOrder (deref_pair {K = K} {X = BagForm V}) }
    {
        self.reading.get().inner.map.iter()
    }

    /// The keys, in order.
    pub fn keys(&self) -> Keys<'_, K, Values<V>>
        ensures rest { result ≡ keys (map_shown_by self.now) }
        ensures runs { ShowsInOrder (deref {X = K}) }
    {
        self.reading.get().inner.map.keys()
    }

    /// The bags, in the order of their keys.
    pub fn values(&self) -> BagsInOrder<'_, K, Values<V>>
        ensures rest { result ≡ values (map_shown_by self.now) }
        ensures runs { ShowsInOrder (deref {X = BagForm V}) }
    {
        self.reading.get().inner.map.values()
    }
}

impl<
    K: KeyClone + Drop,
    V: Eq + Hash + Drop,
    M: Drop,
    P: Keep<V> + Drop,
    S: BuildHasher + Drop,
> EntryRef<'_, K, V, M, P, S> {
    /// The bag of the key. `None` where the key isn't there, or the meta alone was asked for.
    pub fn values(&self) -> Option<&Values<V>>
        ensures { option_copied result ≡ bag_at (shown_by K.plain self.now) (place_of self.now) }
    {
        self.reading.get().bag_at(self.at)
    }

    /// The meta.
    pub fn meta(&self) -> &M
        ensures { result.now ≡ (shown_by K.plain self.now).meta }
    {
        self.reading.get().meta()
    }
}

impl<
    'a,
    K: KeyClone + Drop,
    V: Eq + Hash + Drop,
    M: Drop,
    P: Keep<V> + Drop,
    S: BuildHasher + Drop,
> IntoIterator for &'a MapReadRef<'_, K, V, M, P, S> {
    type Item = (&'a K, &'a Values<V>);

    type IntoIter = Iter<'a, K, Values<V>>;

    ghost into_iter_gives = { λ guard rest. with_keys K.plain rest ≡ (shown_by K.plain guard.now).entries };

    fn into_iter(self) -> Iter<'a, K, Values<V>> {
        self.iter()
    }
}
