//! A bag of shared values.
ghost use Rattle.std.specs.Prelude.{◌≡◌, ◌+◌, ◌^◌, ◌<◌, ◌≤◌, ◌↔◌, [], ◌∷◌, IsNone, IsErr, IsTrue, IfOk, IfSome, OnOk, OnErr, Contains};
ghost use Rattle.std.specs.Option.{unwrap_or};
ghost use Rattle.std.specs.Arc.{arc_value};
ghost use Rattle.value_bags.specs.declared.bag.BagForm.TheVariants.{Short};
ghost use Rattle.value_bags.specs.Bags as bags;

use crate::Keep;
use crate::counts::Counts;
use crate::items::{is_among, remove_first};
use crate::listing::{Repeats, Rest, ValuesIter};
use std::alloc::{AllocError, Global};
use std::hash::Hash;
use std::marker::Model;
use std::sync::Arc;

/// A bag of this many values is long.
const LONG: usize = 32;

/// How the values of a bag are stored.
#[derive(Drop)]
enum Form<V: Eq + Hash> {
    /// In the order in which they came.
    Short(Vec<Arc<V>>),
    /// How often each distinct value is there.
    Long(Counts<V>),
}

/// A bag of shared values. It is short or long: a short bag lists its values, and a long bag counts each distinct one.
pub struct Values<V: Eq + Hash> {
    form: Form<V>,
    alloc: Global,
}

// Written out, so that whoever lets go of a bag makes one call.
impl<V: Eq + Hash + Drop> Drop for Values<V> {
    fn drop(self) {
        let Self { form: _, alloc: _ } = self;
    }
}

impl<V: Eq + Hash> Model for Values<V> {
    ghost use Rattle.value_bags.specs.declared.bag.BagForm.{BagForm};
    ghost use Rattle.value_bags.specs.Stored.{bag_of};

    ghost Value = { BagForm V };

    ghost view = { λ it. bag_of it.form };
}

impl<V: Eq + Hash> Values<V> {
    /// A short bag without values.
    pub fn new(alloc: Global) -> Values<V>
        ensures { result ≡ Short [] }
    {
        Values {
            form: Form::Short(Vec::new(alloc)),
            alloc,
        }
    }

    /// A short bag of one value.
    pub fn of(alloc: Global, value: &Arc<V>) -> Result<Values<V>, AllocError>
    where
        V: Drop,
        ensures { IfOk result (λ bag. bag ≡ Short (arc_value value.now ∷ [])) }
    {
        let mut items = Vec::new(alloc);
        items.push(Arc::try_clone(value)?)?;
        Ok(Values {
            form: Form::Short(items),
            alloc,
        })
    }

    /// A bag without values, with room for so many: long where there may be more than 32, and else short.
    pub fn with_room(alloc: Global, additional: usize) -> Result<Values<V>, AllocError>
        ensures { IfOk result (λ bag. bag ≡ bags.roomy additional) }
    {
        let form = if additional > LONG {
            Form::Long(Counts::with_room(alloc, additional)?)
        } else {
            Form::Short(Vec::with_capacity(alloc, additional)?)
        };
        Ok(Values { form, alloc })
    }

    /// The counts of a short bag that so many more values make long.
    fn lengthened(&self, additional: usize) -> Result<Option<Counts<V>>, AllocError>
    where
        V: Drop,
        ensures { IfOk result (λ counts. counts ≡ bags.lengthened V.eq additional self.now) }
    {
        match &self.form {
            Form::Short(items) if LONG.saturating_sub(items.len()) <= additional => {
                Ok(Some(Counts::of(self.alloc, items)?))
            }
            _ => Ok(None),
        }
    }

    /// Adds a value. A bag that then has 32 values becomes long. Refused, it is as before, also where it would hold 2^64
    /// values.
    pub fn push(&mut self, value: &Arc<V>) -> Result<(), AllocError>
    where
        V: Drop,
        ensures pushed { OnOk result (self.new ≡ bags.pushed V.eq self.old (arc_value value.now)) }
        ensures refused { OnErr result (self.new ≡ self.old) }
        ensures full { 2 ^ 64 ≤ bags.bag_len self.old + 1 → IsErr result }
    {
        if let Some(mut counts) = self.lengthened(1)? {
            counts.push(value)?;
            self.form = Form::Long(counts);
            return Ok(());
        }
        match &mut self.form {
            Form::Short(items) => {
                items.push(Arc::try_clone(value)?)?;
                Ok(())
            }
            Form::Long(counts) => counts.push(value),
        }
    }

    /// Takes out one occurrence of a value, where there is one. It keeps its form.
    pub fn remove_one(&mut self, value: &Arc<V>)
    where
        V: Drop,
        ensures { self.new ≡ bags.removed V.eq self.old (arc_value value.now) }
    {
        match &mut self.form {
            Form::Short(items) => remove_first(items, value),
            Form::Long(counts) => counts.remove_one(value),
        }
    }

    /// Keeps the values that pass a test. It keeps its form.
    pub fn retain<P: Keep<V>>(&mut self, test: &P)
    where
        V: Drop,
        ensures { self.new ≡ bags.retained (P.keeps test.now) self.old }
    {
        match &mut self.form {
            Form::Short(items) => items.retain(|value| test.keep(value)),
            Form::Long(counts) => counts.retain(test),
        }
    }

    /// Takes out all values. It keeps its form.
    pub fn clear(&mut self)
    where
        V: Drop,
        ensures { self.new ≡ bags.cleared self.old }
    {
        match &mut self.form {
            Form::Short(items) => items.clear(),
            Form::Long(counts) => counts.clear(),
        }
    }

    /// The short bag that may stand for this one: where it is long, has fewer than 32 values and no doubles. `None` where
    /// it stays as it is.
    pub fn fitted(&self) -> Result<Option<Values<V>>, AllocError>
    where
        V: Drop,
        ensures { IfOk result (λ fitted. unwrap_or fitted self.now ≡ bags.fitted self.now) }
    {
        match &self.form {
            Form::Long(counts) if counts.len() < LONG as u64 && counts.has_no_doubles() => {
                Ok(Some(Values {
                    form: Form::Short(counts.distinct()?),
                    alloc: self.alloc,
                }))
            }
            _ => Ok(None),
        }
    }

    /// Gives back memory that the bag doesn't need. It keeps its form.
    pub fn shrink(&mut self)
        ensures { self.new ≡ self.old }
    {
        match &mut self.form {
            Form::Short(items) => items.shrink_to_fit(),
            Form::Long(counts) => counts.shrink(),
        }
    }

    /// Gives back memory that the bag doesn't need. A long bag with fewer than 32 values and no doubles becomes short.
    /// Refused, it is as before.
    pub fn fit(&mut self) -> Result<(), AllocError>
    where
        V: Drop,
        ensures fitted { OnOk result (self.new ≡ bags.fitted self.old) }
        ensures refused { OnErr result (self.new ≡ self.old) }
    {
        match self.fitted()? {
            Some(short) => *self = short,
            None => self.shrink(),
        }
        Ok(())
    }

    /// Makes room for so many more values. A bag becomes long where its length and that number are 32 or more. Refused, it
    /// is as before.
    pub fn reserve(&mut self, additional: usize) -> Result<(), AllocError>
    where
        V: Drop,
        ensures reserved { OnOk result (self.new ≡ bags.reserved V.eq additional self.old) }
        ensures refused { OnErr result (self.new ≡ self.old) }
    {
        if let Some(mut counts) = self.lengthened(additional)? {
            counts.reserve(additional)?;
            self.form = Form::Long(counts);
            return Ok(());
        }
        match &mut self.form {
            Form::Short(items) => items.reserve(additional),
            Form::Long(counts) => counts.reserve(additional),
        }
    }

    /// How many values there are. A long bag counts each value once, and at least to one.
    pub fn len(&self) -> usize
        ensures len { result ≡ bags.bag_len self.now }
        ensures proper { bags.IsProperBag V.eq self.now }
    {
        match &self.form {
            Form::Short(items) => items.len(),
            Form::Long(counts) => counts.len() as usize,
        }
    }

    /// Whether there is no value.
    pub fn is_empty(&self) -> bool
        ensures { IsTrue result ↔ (bags.bag_len self.now ≡ 0) }
    {
        self.len() == 0
    }

    /// How many values there is room for, at least.
    pub fn capacity(&self) -> usize
        ensures { bags.bag_len self.now ≤ result }
    {
        match &self.form {
            Form::Short(items) => items.capacity(),
            Form::Long(counts) => counts.capacity() as usize,
        }
    }

    /// Whether the bag lists its values, and doesn't count them.
    pub fn is_short(&self) -> bool
        ensures { result ≡ bags.is_short self.now }
    {
        match &self.form {
            Form::Short(_) => true,
            Form::Long(_) => false,
        }
    }

    /// One of the values. `None` exactly where there is none.
    pub fn get_one(&self) -> Option<&V>
        ensures empty { IsNone result ↔ (bags.bag_len self.now ≡ 0) }
        ensures held { IfSome result (λ value. Contains (bags.values_of self.now) value.now) }
    {
        match &self.form {
            Form::Short(items) => {
                let value = items.first()?;
                Some(value)
            }
            Form::Long(counts) => counts.first(),
        }
    }

    /// Whether a value is there. It takes time linear in the distinct values.
    pub fn contains(&self, value: &V) -> bool
        ensures { IsTrue result ↔ (0 < bags.times V.eq self.now value.now) }
    {
        match &self.form {
            Form::Short(items) => is_among(items, value),
            Form::Long(counts) => counts.contains(value),
        }
    }

    /// The values, one by one.
    pub fn iter(&self) -> ValuesIter<'_, V>
        ensures { result ≡ bags.values_of self.now }
    {
        let left = self.len();
        let rest = match &self.form {
            Form::Short(items) => Rest::Short(items),
            Form::Long(counts) => Rest::Long(Repeats::of(counts)),
        };
        ValuesIter { rest, left }
    }
}

impl<'a, V: Eq + Hash> IntoIterator for &'a Values<V> {
    type Item = &'a V;

    type IntoIter = ValuesIter<'a, V>;

    ghost into_iter_gives = { λ bag listing. listing ≡ bags.values_of bag.now };

    fn into_iter(self) -> ValuesIter<'a, V> {
        self.iter()
    }
}
