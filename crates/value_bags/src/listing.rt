//! The values of a bag, one by one.
use crate::counts::Counts;
use indexmap::map::Slice;
use std::hash::Hash;
use std::marker::Model;
use std::sync::Arc;

/// The values of a long bag that are left: a value so many times again, and then those of the counts.
#[derive(Drop)]
pub(crate) struct Repeats<'a, V> {
    value: Option<&'a V>,
    again: u64,
    counts: Slice<'a, Arc<V>, u64>,
}

impl<'a, V> Model for Repeats<'a, V> {
    ghost use Rattle.std.specs.Prelude.{◌<◌, List, All, ◌++◌, IsSome};
    ghost use Rattle.std.specs.Arc.{arc_value};
    ghost use Rattle.value_bags.specs.Entries.{with_keys};
    ghost use Rattle.value_bags.specs.Bags.{repeated};
    ghost use Rattle.value_bags.specs.Listing.{again_of};

    ghost Value = { List V };

    ghost view = { λ it. again_of it.value it.again ++ repeated (with_keys arc_value it.counts) };

    ghost invariant = { λ it. (0 < it.again → IsSome it.value) × All (λ c. 0 < c.1) (with_keys arc_value it.counts) };
}

impl<'a, V> Repeats<'a, V> {
    ghost use Rattle.std.specs.Prelude.{◌≡◌};
    ghost use Rattle.std.specs.Iterator.{YieldsFirstBy};
    ghost use Rattle.value_bags.specs.Bags.{repeated};

    pub(crate) fn of(counts: &'a Counts<V>) -> Repeats<'a, V>
    where
        V: Eq + Hash,
        ensures { result ≡ repeated counts.now }
    {
        Repeats {
            value: None,
            again: 0,
            counts: counts.as_slice(),
        }
    }

    fn next(&mut self) -> Option<&'a V>
        ensures { YieldsFirstBy (λ value. value.now) (λ it. it) self.old result self.new }
    {
        if self.again > 0 {
            self.again -= 1;
            return self.value;
        }
        let ((value, count), counts) = self.counts.split_first()?;
        self.value = Some(value);
        self.again = *count - 1;
        self.counts = counts;
        self.value
    }
}

/// Where the values come from.
#[derive(Drop)]
pub(crate) enum Rest<'a, V> {
    Short(&'a [Arc<V>]),
    Long(Repeats<'a, V>),
}

/// An iterator over the values of a bag, which knows how many are left.
#[derive(Drop)]
pub struct ValuesIter<'a, V> {
    pub(crate) rest: Rest<'a, V>,
    pub(crate) left: usize,
}

impl<'a, V> Model for ValuesIter<'a, V> {
    ghost use Rattle.std.specs.Prelude.{◌≡◌, List, length};
    ghost use Rattle.value_bags.specs.Left.{values_left};

    ghost Value = { List V };

    ghost view = { λ it. values_left it.rest };

    ghost invariant = { λ it. it.left ≡ length (values_left it.rest) };
}

impl<'a, V> Iterator for ValuesIter<'a, V> {
    type Item = &'a V;

    ghost use Rattle.std.specs.Iterator.{YieldsFirstBy, item_count};

    ghost next_gives = { YieldsFirstBy (λ value. value.now) (λ it. it) };

    ghost remaining = { item_count (λ it. it) };

    fn next(&mut self) -> Option<&'a V> {
        let value = match &mut self.rest {
            Rest::Short(items) => {
                let (first, others) = items.split_first()?;
                *items = others;
                let value: &'a V = first;
                value
            }
            Rest::Long(repeats) => repeats.next()?,
        };
        self.left -= 1;
        Some(value)
    }
}

impl<'a, V> ExactSizeIterator for ValuesIter<'a, V> {
    fn len(&self) -> usize {
        self.left
    }
}
