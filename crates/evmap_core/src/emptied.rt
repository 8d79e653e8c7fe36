//! What a removal at random has marked.
ghost use Rattle.std.specs.Prelude.{◌≡◌, ◌<◌, All, length};

use indexmap::IndexMap;
use std::hash::{BuildHasher, Hash};
use value_bags::Values;

/// The keys that a removal at random has marked, with their bags, in the map's order. It knows how many are left.
#[derive(Drop)]
pub struct Emptied<'a, K: Hash, V: Eq + Hash, S: BuildHasher> {
    map: &'a IndexMap<K, Values<V>, S>,
    places: &'a [usize],
    ghost within: { All (λ p. p < length map.now.entries) places.now },
}

impl<'a, K: Hash, V: Eq + Hash, S: BuildHasher> Emptied<'a, K, V, S> {
    ghost use Rattle.evmap_core.specs.Marked.{entries_at};
    ghost use Rattle.evmap_core.specs.Left.{entries_left};

    /// The entries at these places.
    pub(crate) fn at(
        map: &'a IndexMap<K, Values<V>, S>,
        places: &'a [usize],
    ) -> Emptied<'a, K, V, S>
        requires { All (λ p. p < length map.now.entries) places.now }
        ensures { entries_left result ≡ entries_at map.now.entries places.now }
    {
        Emptied { map, places }
    }
}

impl<'a, K: Hash, V: Eq + Hash, S: BuildHasher> Iterator for Emptied<'a, K, V, S> {
    type Item = (&'a K, &'a Values<V>);

    ghost use Rattle.std.specs.Iterator.{YieldsFirstBy, item_count};
    ghost use Rattle.std.specs.Map.Iter.{deref_pair};
    ghost use Rattle.evmap_core.specs.Left.{entries_left};

    ghost next_gives = { YieldsFirstBy deref_pair entries_left };

    ghost remaining = { item_count entries_left };

    fn next(&mut self) -> Option<(&'a K, &'a Values<V>)> {
        let (place, others) = self.places.split_first()?;
        self.places = others;
        self.map.get_index(*place)
    }
}

impl<'a, K: Hash, V: Eq + Hash, S: BuildHasher> ExactSizeIterator for Emptied<'a, K, V, S> {
    fn len(&self) -> usize {
        self.places.len()
    }
}
