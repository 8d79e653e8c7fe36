//! How a map is made.
ghost use Rattle.std.specs.Prelude.{◌≡◌, ◌<◌};
ghost use Rattle.evmap_core.specs.Handles.{Makes};

use crate::{EvmapFault, ReadHandle, WriteHandle};
use evmap_contents::KeyClone;
use std::alloc::Global;
use std::hash::{BuildHasher, BuildHasherDefault, FoldHasher, Hash};
use std::sync::Wait;
use value_bags::Keep;

/// How many readers there is room for, where nothing else is asked.
pub const PLACES: u32 = 64;

/// The hasher of a map where no other is asked for.
pub type PlainHasher = BuildHasherDefault<FoldHasher>;

/// The writer of a map, and its first reader.
pub type Handles<K, V, M, P, S> = (WriteHandle<K, V, M, P, S>, ReadHandle<K, V, M, P, S>);

/// How a map is made.
#[derive(Drop)]
pub struct Options<M, S> {
    /// The first meta.
    pub meta: M,
    pub hasher: S,
    /// For so many keys there is room at once.
    pub capacity: usize,
    /// For so many readers there is room, at least 1.
    pub places: u32,
    ghost placed: { 0 < places },
}

impl Options<(), PlainHasher> {
    /// No meta, room for 64 readers and for no key.
    pub fn default() -> Options<(), PlainHasher>
        ensures { (result.capacity ≡ 0) × (result.places ≡ PLACES) }
    {
        Options {
            meta: (),
            hasher: BuildHasherDefault::new(),
            capacity: 0,
            places: PLACES,
        }
    }
}

impl<M: Drop, S: Drop> Options<M, S> {
    /// With this meta.
    pub fn with_meta<M2>(self, meta: M2) -> Options<M2, S>
        ensures { (result.meta ≡ meta) × (result.hasher ≡ self.hasher)
            × (result.capacity ≡ self.capacity) × (result.places ≡ self.places) }
    {
        Options {
            meta,
            hasher: self.hasher,
            capacity: self.capacity,
            places: self.places,
        }
    }

    /// With this hasher.
    pub fn with_hasher<S2>(self, hasher: S2) -> Options<M, S2>
        ensures { (result.meta ≡ self.meta) × (result.hasher ≡ hasher)
            × (result.capacity ≡ self.capacity) × (result.places ≡ self.places) }
    {
        Options {
            meta: self.meta,
            hasher,
            capacity: self.capacity,
            places: self.places,
        }
    }

    /// With room for so many keys.
    pub fn with_capacity(self, capacity: usize) -> Options<M, S>
        ensures { (result.meta ≡ self.meta) × (result.hasher ≡ self.hasher)
            × (result.capacity ≡ capacity) × (result.places ≡ self.places) }
    {
        Options {
            meta: self.meta,
            hasher: self.hasher,
            capacity,
            places: self.places,
        }
    }

    /// With room for so many readers.
    pub fn with_places(self, places: u32) -> Options<M, S>
        requires { 0 < places }
        ensures { (result.meta ≡ self.meta) × (result.hasher ≡ self.hasher)
            × (result.capacity ≡ self.capacity) × (result.places ≡ places) }
    {
        Options {
            meta: self.meta,
            hasher: self.hasher,
            capacity: self.capacity,
            places,
        }
    }
}

impl<M: Drop, S: BuildHasher + Clone + Drop> Options<M, S> {
    /// An empty map that is not published: its writer, and a reader. It needs `rt`, since a writer whose first reader was
    /// refused has to end. That reads nothing, so it waits for no one.
    pub fn construct<K: KeyClone + Drop, V: Eq + Hash + Drop, P: Keep<V> + Drop, R: Wait>(
        self,
        rt: &R,
        alloc: Global,
    ) -> Result<Handles<K, V, M, P, S>, EvmapFault>
        ensures { Makes K.plain result self.meta self.capacity }
    {
        let Ok(second) = self.hasher.clone() else {
            return Err(EvmapFault::Memory);
        };
        let hashers = (self.hasher, second);
        let places = self.places as usize;
        match WriteHandle::construct(rt, alloc, self.meta, self.capacity, hashers, places) {
            Ok(pair) => Ok(pair),
            Err(_) => Err(EvmapFault::Memory),
        }
    }

    /// The same as `construct`, which asks for the laws of `Eq` and `Hash` too.
    pub fn assert_stable<K: KeyClone + Drop, V: Eq + Hash + Drop, P: Keep<V> + Drop, R: Wait>(
        self,
        rt: &R,
        alloc: Global,
    ) -> Result<Handles<K, V, M, P, S>, EvmapFault>
        ensures { Makes K.plain result self.meta self.capacity }
    {
        self.construct(rt, alloc)
    }
}

/// An empty map that is not published, without a meta, with room for 64 readers and for no key.
pub fn new<K: KeyClone + Drop, V: Eq + Hash + Drop, P: Keep<V> + Drop, R: Wait>(
    rt: &R,
    alloc: Global,
) -> Result<Handles<K, V, (), P, PlainHasher>, EvmapFault>
    ensures { Makes K.plain result tt 0 }
{
    Options::default().construct(rt, alloc)
}

/// The same as `new`, which asks for the laws of `Eq` and `Hash` too.
pub fn new_assert_stable<K: KeyClone + Drop, V: Eq + Hash + Drop, P: Keep<V> + Drop, R: Wait>(
    rt: &R,
    alloc: Global,
) -> Result<Handles<K, V, (), P, PlainHasher>, EvmapFault>
    ensures { Makes K.plain result tt 0 }
{
    new(rt, alloc)
}

/// An empty map that is not published, with this meta and this hasher, and with room for 64 readers and for no key.
pub fn with_hasher<
    K: KeyClone + Drop,
    V: Eq + Hash + Drop,
    M: Drop,
    P: Keep<V> + Drop,
    S: BuildHasher + Clone + Drop,
    R: Wait,
>(rt: &R, alloc: Global, meta: M, hasher: S) -> Result<Handles<K, V, M, P, S>, EvmapFault>
    ensures { Makes K.plain result meta 0 }
{
    Options::default()
        .with_meta(meta)
        .with_hasher(hasher)
        .construct(rt, alloc)
}
