//! Removing keys at random.
ghost use Rattle.std.specs.Prelude.{◌≡◌, ◌⊎◌, ◌<◌, [], ◌∷◌, All, reverse, length, IfOk, MatchResult};
ghost use Rattle.evmap_contents.specs.Fold.{after};
ghost use Rattle.evmap_core.specs.Marked.{ArePlaces, entries_at};

use crate::published::Published;
use crate::{Emptied, KnownFronts, Store, WriteHandle};
use crossbeam_utils::rule::Protocol;
use evmap_contents::{KeyClone, Write};
use metrics_core::Memory;
use rand::seq::index::sample;
use rand_core::Rng;
use std::alloc::{AllocError, Global};
use std::collections::LinkedList;
use std::hash::{BuildHasher, Hash};
use std::sync::Wait;
use value_bags::Keep;

/// As many distinct places below a number as are asked for, at random and in ascending order; all where there are fewer.
fn random_places<R: Rng>(
    alloc: Global,
    rng: &mut R,
    len: usize,
    asked: usize,
) -> Result<Vec<usize>, AllocError>
    ensures { IfOk result (λ places. ArePlaces len asked places.items) }
{
    let mut places = sample(alloc, rng, len, asked.min(len))?.into_vec();
    places.sort_unstable();
    Ok(places)
}

/// These numbers, the last one first.
fn reversed(alloc: Global, numbers: &[usize]) -> Result<LinkedList<usize>, AllocError>
    ensures { IfOk result (λ list. list ≡ reverse numbers.now) }
{
    let mut list = LinkedList::new(alloc);
    for number in numbers {
        list.push_front(*number)?;
    }
    Ok(list)
}

impl<
    K: KeyClone + Drop,
    V: Eq + Hash + Drop,
    M: Drop,
    P: Keep<V> + Drop,
    S: BuildHasher + Drop,
> WriteHandle<K, V, M, P, S> {
    ghost use Rattle.std.specs.Borrow.{sem};
    ghost use Rattle.std.specs.Io.BufRead.{Rests};
    ghost use Rattle.value_bags.specs.Entries.{with_keys};
    ghost use Rattle.evmap_contents.specs.declared.write.Write.TheVariants.{RemovePlaces};
    ghost use Rattle.evmap_core.specs.Left.{entries_left};
    ghost use Rattle.evmap_core.specs.contracts.store.CopyState.{the_row as state_row};
    ghost use Rattle.evmap_core.specs.contracts.writer.WriteHandle.{the_row};
    ghost use Rattle.evmap_core.specs.Handles.{shown, front, Publishes, Stays, Marks};

    // Publishes, and marks keys at random for removal.
    fn mark_random<R: Rng, W: Wait>(
        &mut self,
        rt: &W,
        rng: &mut R,
        asked: usize,
    ) -> Result<(), Memory>
        ensures { MatchResult result
            (λ _. ArePlaces (length (front K.plain (after K.same V.eq P.keeps) self.new).entries) asked
            self.new.marked.items
            × Publishes K.plain self.old self.new (RemovePlaces (reverse self.new.marked.items) ∷ []))
            (λ _. Stays self.old self.new ⊎ Publishes K.plain self.old self.new []) }
    {
        self.publish(rt)?;
        let places = random_places(self.alloc, rng, self.len(), asked)?;
        let removed = reversed(self.alloc, &places)?;
        self.append(Write::RemovePlaces(removed))?;
        self.marked = places;
        Ok(())
    }

    // The marked keys with their bags.
    fn emptied(&self) -> Emptied<'_, K, V, S>
        requires { All (λ p. p < length (shown self.now).inner.map.entries) self.now.marked.items }
        ensures { entries_left result ≡ entries_at
            (shown self.now).inner.map.entries self.now.marked.items }
    {
        Emptied::at(&self.writer.published().inner.map, &self.marked)
    }

    /// Publishes, marks that many keys at random for removal, and gives them with their bags in the map's order. The next
    /// publish removes them. All are marked where the map has fewer. At `Err` nothing is marked, whether it has published or
    /// not. It waits as `publish` does.
    pub fn empty_random<R: Rng, W: Wait>(
        &mut self,
        rt: &W,
        rng: &mut R,
        asked: usize,
    ) -> Result<Emptied<'_, K, V, S>, Memory>
        ensures* rests { sem 𝓛 (Rests
            (the_row K.row V.row M.row P.row S.row K.Plain.row S.Hasher.row
            (state_row K.Plain.row V.row M.row P.row) _ _ _ _ _ _ _ _ _ _
            ⟦<Published as Protocol<Store<K, V, M, P, S>, KnownFronts<K::Plain, V, M, P>>>⟧)
            self.entry (λ w. MatchResult result
            (λ emptied. Marks K.plain (after K.same V.eq P.keeps) asked self.old w
            (with_keys K.plain (entries_left emptied)))
            (λ _. Stays self.old w ⊎ Publishes K.plain self.old w []))) }
    {
        self.mark_random(rt, rng, asked)?;
        Ok(self.emptied())
    }
}
