//! The map and its meta, one copy of them.
ghost use Rattle.std.specs.Prelude.{◌≡◌, MatchResult, length, nat_eq, is_some};
ghost use Rattle.std.specs.Arc.{arc_value};
ghost use Rattle.std.specs.Map.{lookup};
ghost use Rattle.std.specs.Option.{option_copied};

use crate::entries::{
    clear, fit, insert, remove_entry, remove_places, remove_value, reserve, retain, update,
};
use crate::fitting::fit_all;
use crate::{KeyClone, Write};
use indexmap::IndexMap;
use std::alloc::{AllocError, Global};
use std::hash::{BuildHasher, Hash};
use std::sync::Arc;
use value_bags::{Keep, Values};

/// One copy of the map.
#[derive(Drop)]
pub struct Inner<K: KeyClone, V: Eq + Hash, M, S: BuildHasher> {
    pub map: IndexMap<K, Values<V>, S>,
    pub meta: Arc<M>,
    /// Whether the map was published.
    pub ready: bool,
}

impl<K: KeyClone + Drop, V: Eq + Hash + Drop, M: Drop, S: BuildHasher> Inner<K, V, M, S> {
    ghost use Rattle.evmap_contents.specs.Fold.{after};
    ghost use Rattle.evmap_contents.specs.Views.{contents, write_of};

    /// Makes one write, whole or not at all.
    pub fn write<P: Keep<V>>(
        &mut self,
        write: &Write<K, Arc<V>, Arc<M>, P>,
    ) -> Result<(), AllocError>
        ensures { MatchResult result
            (λ _. contents K.plain self.new ≡ after K.same V.eq P.keeps (contents K.plain self.old) (write_of K.plain write.now))
            (λ _. contents K.plain self.new ≡ contents K.plain self.old) }
    {
        match write {
            Write::Insert(key, value) => insert(&mut self.map, key, value)?,
            Write::Update(key, value) => update(&mut self.map, key, value)?,
            Write::Clear(key) => clear(&mut self.map, key)?,
            Write::RemoveValue(key, value) => remove_value(&mut self.map, key, value),
            Write::RemoveEntry(key) => remove_entry(&mut self.map, key),
            Write::Purge => self.map.clear(),
            Write::Retain(key, test) => retain(&mut self.map, key, test),
            Write::Fit(key) => fit(&mut self.map, key)?,
            Write::FitAll => fit_all(&mut self.map)?,
            Write::Reserve(key, additional) => reserve(&mut self.map, key, *additional)?,
            Write::RemovePlaces(places) => remove_places(&mut self.map, places),
            Write::SetMeta(meta) => self.meta = Arc::try_clone(meta)?,
            Write::Ready => self.ready = true,
        }
        Ok(())
    }
}

impl<K: KeyClone, V: Eq + Hash, M, S: BuildHasher> Inner<K, V, M, S> {
    ghost use Rattle.evmap_contents.specs.Fold.{made_with};
    ghost use Rattle.evmap_contents.specs.Views.{contents};

    /// A map without keys that was never published.
    pub fn new(alloc: Global, meta: Arc<M>, hash_builder: S) -> Inner<K, V, M, S>
        ensures { contents K.plain result ≡ made_with (arc_value meta) }
    {
        Inner {
            map: IndexMap::with_hasher(alloc, hash_builder),
            meta,
            ready: false,
        }
    }

    /// The bag of a key.
    pub fn get(&self, key: &K) -> Option<&Values<V>>
        ensures { option_copied result ≡ lookup (K.same (K.plain key.now))
            (contents K.plain self.now).entries }
    {
        self.map.get(key)
    }

    /// Whether a key is there.
    pub fn contains_key(&self, key: &K) -> bool
        ensures { result ≡ is_some
            (lookup (K.same (K.plain key.now)) (contents K.plain self.now).entries) }
    {
        self.map.contains_key(key)
    }

    /// How many keys there are.
    pub fn len(&self) -> usize
        ensures { result ≡ length (contents K.plain self.now).entries }
    {
        self.map.len()
    }

    /// Whether there is no key.
    pub fn is_empty(&self) -> bool
        ensures { result ≡ nat_eq (length (contents K.plain self.now).entries) 0 }
    {
        self.len() == 0
    }

    /// The meta of the map.
    pub fn meta(&self) -> &M
        ensures { result.now ≡ (contents K.plain self.now).meta }
    {
        &self.meta
    }
}
