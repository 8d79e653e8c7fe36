//! What makes readers.
ghost use Rattle.std.specs.Prelude.{◌≡◌, IfOk, IfErr};
ghost use Rattle.evmap_core.specs.Known.{table_of, map_of_factory, IsFresh};
ghost use Rattle.evmap_core.specs.declared.faults.EvmapFault.TheVariants.{NoPlace};

use crate::published::{MapFactory, Published};
use crate::{EvmapFault, KnownFronts, ReadHandle, Store};
use crossbeam_utils::rule::Protocol;
use evmap_contents::KeyClone;
use metrics_core::Memory;
use std::hash::{BuildHasher, Hash};
use value_bags::Keep;

/// Makes readers of one map. Threads may share it.
#[derive(Drop)]
pub struct ReadHandleFactory<
    K: KeyClone + Drop,
    V: Eq + Hash + Drop,
    M: Drop,
    P: Keep<V> + Drop,
    S: BuildHasher + Drop,
>
where
    Published: Protocol<Store<K, V, M, P, S>, KnownFronts<K::Plain, V, M, P>>,
{
    pub(crate) from: MapFactory<K, V, M, P, S>,
}

impl<
    K: KeyClone + Drop,
    V: Eq + Hash + Drop,
    M: Drop,
    P: Keep<V> + Drop,
    S: BuildHasher + Drop,
> ReadHandleFactory<K, V, M, P, S> {
    /// A factory of the same map.
    pub(crate) fn copy_factory(
        from: &MapFactory<K, V, M, P, S>,
    ) -> Result<ReadHandleFactory<K, V, M, P, S>, Memory>
        ensures { IfOk result (λ factory. map_of_factory factory ≡ table_of from.now) }
    {
        match from.another() {
            Ok(from) => Ok(ReadHandleFactory { from }),
            Err(_) => Err(Memory),
        }
    }

    /// A new reader of this map, which knows nothing yet and keeps the factory. `NoPlace` where no place was found for it.
    fn into_handle(self) -> Result<ReadHandle<K, V, M, P, S>, EvmapFault>
        ensures reader { IfOk result (λ handle. IsFresh handle (map_of_factory self)) }
        ensures err { IfErr result (λ e. e ≡ NoPlace) }
    {
        match self.from.reader() {
            Ok(reader) => Ok(ReadHandle {
                factory: self,
                reader: Some(reader),
            }),
            Err(_) => Err(EvmapFault::NoPlace),
        }
    }

    /// A new reader, which knows nothing yet. `Memory` where a second factory was refused, which is made first, and
    /// `NoPlace` where no place was found.
    pub fn handle(&self) -> Result<ReadHandle<K, V, M, P, S>, EvmapFault>
        ensures reader { IfOk result (λ handle. IsFresh handle (map_of_factory self.now)) }
    {
        match self.clone() {
            Ok(factory) => factory.into_handle(),
            Err(_) => Err(EvmapFault::Memory),
        }
    }

    /// Another factory of the same map.
    pub fn clone(&self) -> Result<ReadHandleFactory<K, V, M, P, S>, Memory>
        ensures map { IfOk result (λ factory. map_of_factory factory ≡ map_of_factory self.now) }
    {
        Self::copy_factory(&self.from)
    }
}
