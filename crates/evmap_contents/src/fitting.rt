//! Fitting all bags of a map, whole or not at all: what takes memory is made aside first.
ghost use Rattle.std.specs.Prelude.{◌≡◌, map, IfOk, OnOk, OnErr};
ghost use Rattle.indexmap.specs.IndexMap.{values};
ghost use Rattle.evmap_contents.specs.Fitting.{AreFitted, fit_entry};

use indexmap::IndexMap;
use std::alloc::AllocError;
use std::hash::{BuildHasher, Hash};
use value_bags::Values;

/// For each bag the short one that may stand for it.
fn fitted_bags<K: Hash, V: Eq + Hash + Drop, S: BuildHasher>(
    entries: &IndexMap<K, Values<V>, S>,
) -> Result<Vec<Option<Values<V>>>, AllocError>
    ensures { IfOk result (λ fitted. AreFitted (values entries.now) fitted.items) }
{
    let mut fitted = Vec::new(*entries.allocator());
    for bag in entries.values() {
        fitted.push(bag.fitted()?)?;
    }
    Ok(fitted)
}

/// Puts the short bags in their places, from the last to the first.
fn put_fitted<K: Hash, V: Eq + Hash + Drop, S: BuildHasher>(
    entries: &mut IndexMap<K, Values<V>, S>,
    mut fitted: Vec<Option<Values<V>>>,
)
    requires { AreFitted (values entries.old) fitted.items }
    ensures { entries.new.entries ≡ map fit_entry entries.old.entries }
{
    while let Some(bag) = fitted.pop() {
        if let Some(there) = entries.get_index_mut(fitted.len()) {
            match bag {
                Some(short) => *there = short,
                None => there.shrink(),
            }
        }
    }
}

/// Gives back memory that no bag needs.
pub(crate) fn fit_all<K: Hash, V: Eq + Hash + Drop, S: BuildHasher>(
    entries: &mut IndexMap<K, Values<V>, S>,
) -> Result<(), AllocError>
    ensures fitted { OnOk result (entries.new.entries ≡ map fit_entry entries.old.entries) }
    ensures refused { OnErr result (entries.new.entries ≡ entries.old.entries) }
{
    let fitted = fitted_bags(entries)?;
    put_fitted(entries, fitted);
    Ok(())
}
