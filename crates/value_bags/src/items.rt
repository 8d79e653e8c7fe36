//! What a short bag does with the list of its values.
ghost use Rattle.std.specs.Prelude.{◌≡◌, map, position};
ghost use Rattle.std.specs.Arc.{arc_value};
ghost use Rattle.std.specs.List.{list_any};
ghost use Rattle.value_bags.specs.Bags.{without_first};

use std::sync::Arc;

/// Takes out the first occurrence of a value, where there is one.
pub(crate) fn remove_first<V: Eq + Drop>(items: &mut Vec<Arc<V>>, value: &Arc<V>)
    ensures { map arc_value items.new.items ≡ without_first (V.eq (arc_value value.now))
        (map arc_value items.old.items) }
{
    if let Some(place) = place_of(items, value) {
        items.remove(place);
    }
}

/// The place of the first occurrence of a value.
fn place_of<V: Eq>(items: &[Arc<V>], value: &V) -> Option<usize>
    ensures { result ≡ position (λ item. V.eq value.now (arc_value item)) items.now }
{
    items.iter().position(|item| *value == **item)
}

/// Whether a value is among others.
pub(crate) fn is_among<V: Eq>(items: &[Arc<V>], value: &V) -> bool
    ensures { result ≡ list_any (λ item. V.eq value.now (arc_value item)) items.now }
{
    items.iter().any(|item| *value == **item)
}
