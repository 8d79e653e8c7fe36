//! The writes on the entries of a map, each whole or not at all.
ghost use Rattle.std.specs.Prelude.{◌≡◌, None, [], ◌∷◌, ◌++◌, fold, OnOk, OnErr};
ghost use Rattle.std.specs.Arc.{arc_value};
ghost use Rattle.indexmap.specs.IndexMap.{get, swap_remove_entry};
ghost use Rattle.value_bags.specs.declared.bag.BagForm.TheVariants.{Short};
ghost use Rattle.value_bags.specs.Bags as bags;
ghost use Rattle.value_bags.specs.Entries.{change, alter, with_keys};
ghost use Rattle.evmap_contents.specs.Fold.{without_place};

use crate::KeyClone;
use indexmap::IndexMap;
use std::alloc::AllocError;
use std::collections::LinkedList;
use std::hash::{BuildHasher, Hash};
use std::sync::Arc;
use value_bags::{Keep, Values};

/// A key that is not there goes last.
fn add_key<K: KeyClone + Drop, V: Eq + Hash + Drop, S: BuildHasher>(
    map: &mut IndexMap<K, Values<V>, S>,
    key: &K,
    bag: Values<V>,
) -> Result<(), AllocError>
    requires { get K.eq map.old key.now ≡ None }
    ensures added { OnOk result (with_keys K.plain map.new.entries
        ≡ with_keys K.plain map.old.entries ++ (K.plain key.now, bag) ∷ []) }
    ensures refused { OnErr result (map.new.entries ≡ map.old.entries) }
{
    let Ok(key) = key.clone_key(*map.allocator()) else {
        return Err(AllocError);
    };
    map.insert(key, bag)?;
    Ok(())
}

/// Adds a value to the bag of a key.
pub(crate) fn insert<K: KeyClone + Drop, V: Eq + Hash + Drop, S: BuildHasher>(
    map: &mut IndexMap<K, Values<V>, S>,
    key: &K,
    value: &Arc<V>,
) -> Result<(), AllocError>
    ensures inserted { OnOk result (with_keys K.plain map.new.entries ≡ change
        (K.same (K.plain key.now)) (K.plain key.now)
        (λ bag. bags.pushed V.eq bag (arc_value value.now)) (Short (arc_value value.now ∷ []))
        (with_keys K.plain map.old.entries)) }
    ensures refused { OnErr result (map.new.entries ≡ map.old.entries) }
{
    if let Some(bag) = map.get_mut(key) {
        bag.push(value)?;
        return Ok(());
    }
    let bag = Values::of(*map.allocator(), value)?;
    add_key(map, key, bag)?;
    Ok(())
}

/// Gives a key the bag of one value in place of what it had.
pub(crate) fn update<K: KeyClone + Drop, V: Eq + Hash + Drop, S: BuildHasher>(
    map: &mut IndexMap<K, Values<V>, S>,
    key: &K,
    value: &Arc<V>,
) -> Result<(), AllocError>
    ensures updated { OnOk result (with_keys K.plain map.new.entries ≡ change
        (K.same (K.plain key.now)) (K.plain key.now) (λ _. Short (arc_value value.now ∷ []))
        (Short (arc_value value.now ∷ [])) (with_keys K.plain map.old.entries)) }
    ensures refused { OnErr result (map.new.entries ≡ map.old.entries) }
{
    let bag = Values::of(*map.allocator(), value)?;
    if let Some(there) = map.get_mut(key) {
        *there = bag;
        return Ok(());
    }
    add_key(map, key, bag)?;
    Ok(())
}

/// Empties the bag of a key, and makes it where there is none.
pub(crate) fn clear<K: KeyClone + Drop, V: Eq + Hash + Drop, S: BuildHasher>(
    map: &mut IndexMap<K, Values<V>, S>,
    key: &K,
) -> Result<(), AllocError>
    ensures cleared { OnOk result (with_keys K.plain map.new.entries ≡ change
        (K.same (K.plain key.now)) (K.plain key.now) bags.cleared (Short [])
        (with_keys K.plain map.old.entries)) }
    ensures refused { OnErr result (map.new.entries ≡ map.old.entries) }
{
    if let Some(bag) = map.get_mut(key) {
        bag.clear();
        return Ok(());
    }
    let bag = Values::new(*map.allocator());
    add_key(map, key, bag)?;
    Ok(())
}

/// Takes one occurrence of a value out of the bag of a key.
pub(crate) fn remove_value<K: KeyClone + Drop, V: Eq + Hash + Drop, S: BuildHasher>(
    map: &mut IndexMap<K, Values<V>, S>,
    key: &K,
    value: &Arc<V>,
)
    ensures { with_keys K.plain map.new.entries ≡ alter (K.same (K.plain key.now))
        (λ bag. bags.removed V.eq bag (arc_value value.now)) (with_keys K.plain map.old.entries) }
{
    if let Some(bag) = map.get_mut(key) {
        bag.remove_one(value);
    }
}

/// Keeps the values of a key that pass a test.
pub(crate) fn retain<K: KeyClone + Drop, V: Eq + Hash + Drop, S: BuildHasher, P: Keep<V>>(
    map: &mut IndexMap<K, Values<V>, S>,
    key: &K,
    test: &P,
)
    ensures { with_keys K.plain map.new.entries ≡ alter (K.same (K.plain key.now))
        (bags.retained (P.keeps test.now)) (with_keys K.plain map.old.entries) }
{
    if let Some(bag) = map.get_mut(key) {
        bag.retain(test);
    }
}

/// Removes a key. The last takes its place.
pub(crate) fn remove_entry<K: KeyClone + Drop, V: Eq + Hash + Drop, S: BuildHasher>(
    map: &mut IndexMap<K, Values<V>, S>,
    key: &K,
)
    ensures { with_keys K.plain map.new.entries ≡ swap_remove_entry (K.same (K.plain key.now))
        (with_keys K.plain map.old.entries) }
{
    map.swap_remove(key);
}

/// Removes the entries at these places, one after another. The last takes the place of each.
pub(crate) fn remove_places<K: KeyClone + Drop, V: Eq + Hash + Drop, S: BuildHasher>(
    map: &mut IndexMap<K, Values<V>, S>,
    places: &LinkedList<usize>,
)
    ensures { with_keys K.plain map.new.entries ≡ fold without_place
        (with_keys K.plain map.old.entries) places.now }
{
    for place in places {
        map.swap_remove_index(*place);
    }
}

/// Gives back memory that the bag of a key doesn't need.
pub(crate) fn fit<K: KeyClone + Drop, V: Eq + Hash + Drop, S: BuildHasher>(
    map: &mut IndexMap<K, Values<V>, S>,
    key: &K,
) -> Result<(), AllocError>
    ensures fitted { OnOk result (with_keys K.plain map.new.entries ≡ alter
        (K.same (K.plain key.now)) bags.fitted (with_keys K.plain map.old.entries)) }
    ensures refused { OnErr result (map.new.entries ≡ map.old.entries) }
{
    if let Some(bag) = map.get_mut(key) {
        bag.fit()?;
    }
    Ok(())
}

/// Makes room in the bag of a key, and makes the bag where there is none.
pub(crate) fn reserve<K: KeyClone + Drop, V: Eq + Hash + Drop, S: BuildHasher>(
    map: &mut IndexMap<K, Values<V>, S>,
    key: &K,
    additional: usize,
) -> Result<(), AllocError>
    ensures reserved { OnOk result (with_keys K.plain map.new.entries ≡ change
        (K.same (K.plain key.now)) (K.plain key.now) (bags.reserved V.eq additional)
        (bags.roomy additional) (with_keys K.plain map.old.entries)) }
    ensures refused { OnErr result (map.new.entries ≡ map.old.entries) }
{
    if let Some(bag) = map.get_mut(key) {
        bag.reserve(additional)?;
        return Ok(());
    }
    let bag = Values::with_room(*map.allocator(), additional)?;
    add_key(map, key, bag)?;
    Ok(())
}
