//! How the series of one kind are stored: their keys in a set, and in the same order their ids and cells in a column.

ghost use Rattle.std.specs.Prelude.{◌≡◌, ◌<◌, ◌≤◌, List, [], ◌∷◌, ◌++◌, length, slice_get, swap, remove, take, ◌-◌, option_map, Some, None, Ok, All, OnOk, IfOk, IfErr, OnErr};
ghost use Rattle.std.specs.Option.{option_copied};
ghost use Rattle.std.specs.Borrow.{sem};
ghost use Rattle.metrics_core.specs.Keys.{KeyText};
ghost use Rattle.metrics_registry.specs.Live.{LiveSeries, Registers, id_of_key, cell_of, is_live, with_last, without};
ghost use Rattle.metrics_registry.specs.Retained.{AskedAt, Retains};

use crate::key_list::KeyList;
use metrics_core::{Key, Memory, SeriesId};
use std::alloc::Global;
use std::marker::Model;

/// What is stored of a series beside its key.
#[derive(Drop)]
pub(crate) struct Series<T> {
    id: SeriesId,
    cell: T,
}

/// What is stored of the series of one kind beside their keys.
#[derive(Drop)]
pub(crate) struct Column<T> {
    pub(crate) items: Vec<Series<T>>,
}

impl<T> Column<T> {
    ghost use Rattle.metrics_registry.specs.ColumnLends.{lends_stored};
    ghost use Rattle.metrics_registry.specs.Stored.{live_of, AreStored};
    ghost use Rattle.metrics_registry.specs.Places.{IsPlace};

    pub(crate) fn new(alloc: Global) -> Column<T>
        ensures { result.items.items ≡ [] }
    {
        Column {
            items: Vec::new(alloc),
        }
    }

    /// Makes room for so many more series.
    pub(crate) fn reserve(&mut self, keys: &mut KeyList, count: usize) -> Result<(), Memory>
        ensures keys { keys.new.keys ≡ keys.old.keys }
        ensures items { self.new.items.items ≡ self.old.items.items }
    {
        keys.reserve(count)?;
        self.items.reserve(count)?;
        Ok(())
    }

    /// The id of the series with an equal key.
    pub(crate) fn find(&self, keys: &KeyList, key: &Key) -> Option<SeriesId>
        requires { AreStored keys.now.keys self.now.items.items }
        ensures { result ≡ id_of_key key.now (live_of keys.now.keys self.now.items.items) }
    {
        let place = keys.place_of(key)?;
        Some(self.items[place].id)
    }

    /// The place of the series with the id. The one that was added last is found at once.
    pub(crate) fn place(&self, id: SeriesId) -> Option<usize>
        ensures { (keys : List KeyText) → AreStored keys self.now.items.items
            → IsPlace id (live_of keys self.now.items.items) result }
    {
        let count = self.items.len();
        if count > 0 && self.items[count - 1].id == id {
            return Some(count - 1);
        }
        self.searched_place(id)
    }

    /// The place of the series with the id, by a search: the ids stand in the order of their numbers.
    fn searched_place(&self, id: SeriesId) -> Option<usize>
        ensures { (keys : List KeyText) → AreStored keys self.now.items.items
            → IsPlace id (live_of keys self.now.items.items) result }
    {
        match self
            .items
            .binary_search_by_key(&id.number, |series: &Series<T>| series.id.number)
        {
            Ok(place) => {
                if self.items[place].id == id {
                    Some(place)
                } else {
                    None
                }
            }
            Err(_) => None,
        }
    }

    /// The cell of the series with the id.
    pub(crate) fn get(&self, id: SeriesId) -> Option<&T>
        requires { (keys : List KeyText) × AreStored keys self.now.items.items }
        ensures { (keys : List KeyText) → AreStored keys self.now.items.items
            → option_copied result ≡ cell_of id (live_of keys self.now.items.items) }
    {
        let place = self.place(id)?;
        Some(&self.items[place].cell)
    }

    /// The cell at a place.
    pub(crate) fn cell_mut(&mut self, place: usize) -> &mut T
        requires { place < length self.old.items.items }
        ensures* writes_back { sem 𝓛 (lends_stored T.row self.entry place result) }
        ensures value { option_map (λ series. series.cell)
            (slice_get self.old.items.items place) ≡ Some result.now }
    {
        let series = &mut self.items[place];
        &mut series.cell
    }

    /// Adds a series behind the others. Where memory is refused, key and cell come back.
    pub(crate) fn add(
        &mut self,
        keys: &mut KeyList,
        key: Key,
        id: SeriesId,
        cell: T,
    ) -> Result<(), (Key, T)>
        requires stored { AreStored keys.old.keys self.old.items.items }
        requires new { id_of_key key (live_of keys.old.keys self.old.items.items) ≡ None }
        requires above { All (λ series. series.id.number < id.number)
            (live_of keys.old.keys self.old.items.items) }
        ensures added { OnOk result (live_of keys.new.keys self.new.items.items
            ≡ with_last (live_of keys.old.keys self.old.items.items) id key cell) }
        ensures refused { OnErr result (live_of keys.new.keys self.new.items.items
            ≡ live_of keys.old.keys self.old.items.items) }
        ensures returned { IfErr result (λ parts. parts ≡ (key, cell)) }
        ensures stored { AreStored keys.new.keys self.new.items.items }
    {
        match self.items.push(Series { id, cell }) {
            Ok(()) => {}
            Err(refused) => {
                let Series { id: _, cell } = refused.value;
                return Err((key, cell));
            }
        }
        match keys.push(key) {
            Ok(()) => Ok(()),
            Err(key) => {
                let Series { id: _, cell } = self.items.pop().unwrap();
                Err((key, cell))
            }
        }
    }

    /// The id of the series with an equal key, which takes no memory. Where there is none, one is made, which goes behind the
    /// others with this id; its key is looked up once. Where it can't be made, or memory is refused, nothing changes.
    pub(crate) fn register<F: FnOnce() -> Result<T, Memory>>(
        &mut self,
        keys: &mut KeyList,
        key: Key,
        id: SeriesId,
        make: F,
    ) -> Result<SeriesId, Memory>
        requires stored { AreStored keys.old.keys self.old.items.items }
        requires above { All (λ series. series.id.number < id.number)
            (live_of keys.old.keys self.old.items.items) }
        requires callable { F.pre make }
        ensures registered { IfOk result (λ given.
            Registers (λ cell. F.post make (Ok cell)) key id given
            (live_of keys.old.keys self.old.items.items) (live_of keys.new.keys self.new.items.items)) }
        ensures absent { OnErr result (id_of_key key
            (live_of keys.old.keys self.old.items.items) ≡ None) }
        ensures refused { OnErr result (live_of keys.new.keys self.new.items.items
            ≡ live_of keys.old.keys self.old.items.items) }
        ensures stored { AreStored keys.new.keys self.new.items.items }
    {
        let Ok(found) = keys.enter(key) else {
            return Err(Memory);
        };
        match found {
            Some(place) => Ok(self.items[place].id),
            None => self.put_last(keys, id, make),
        }
    }

    /// Makes the series behind the others, whose key stands last already. Where it can't be made its key is removed.
    fn put_last<F: FnOnce() -> Result<T, Memory>>(
        &mut self,
        keys: &mut KeyList,
        id: SeriesId,
        make: F,
    ) -> Result<SeriesId, Memory>
        requires callable { F.pre make }
        ensures put { IfOk result (λ given. (given ≡ id) × (keys.new.keys ≡ keys.old.keys)
            × ((cell : T) × F.post make (Ok cell) × (self.new.items.items ≡ self.old.items.items ++ record { id = id; cell = cell } ∷ []))) }
        ensures refused { OnErr result ((keys.new.keys ≡ take
            (length keys.old.keys - 1) keys.old.keys)
            × (self.new.items.items ≡ self.old.items.items)) }
    {
        match self.push_made(id, make) {
            Ok(()) => Ok(id),
            Err(refused) => {
                keys.pop();
                Err(refused)
            }
        }
    }

    /// Makes a cell and puts it behind the others, under an id.
    fn push_made<F: FnOnce() -> Result<T, Memory>>(
        &mut self,
        id: SeriesId,
        make: F,
    ) -> Result<(), Memory>
        requires callable { F.pre make }
        ensures pushed { OnOk result ((cell : T) × F.post make (Ok cell)
            × (self.new.items.items ≡ self.old.items.items ++ record { id = id; cell = cell } ∷ [])) }
        ensures refused { OnErr result (self.new.items.items ≡ self.old.items.items) }
    {
        self.items.reserve(1)?;
        let cell = make()?;
        self.items.push_reserved(Series { id, cell });
        Ok(())
    }

    /// Removes the series with the id. The others keep their order.
    pub(crate) fn delete(&mut self, keys: &mut KeyList, id: SeriesId) -> bool
    where
        T: Drop,
        requires { AreStored keys.old.keys self.old.items.items }
        ensures was_live { result ≡ is_live id (live_of keys.old.keys self.old.items.items) }
        ensures rest { live_of keys.new.keys self.new.items.items
            ≡ without id (live_of keys.old.keys self.old.items.items) }
        ensures stored { AreStored keys.new.keys self.new.items.items }
    {
        match self.place(id) {
            Some(place) => {
                keys.remove(place);
                let _series = self.items.remove(place);
                true
            }
            None => false,
        }
    }

    /// Keeps the series for which a test holds, in one pass and in their order. The test may change the cells.
    pub(crate) fn retain<F: FnMut(SeriesId, &mut T) -> bool>(
        &mut self,
        keys: &mut KeyList,
        mut keep: F,
    )
    where
        T: Drop,
        requires stored { AreStored keys.old.keys self.old.items.items }
        requires callable { F.IsAlwaysCallable keep }
        ensures retained { (last : F) × Retains F.FnMut keep
            (live_of keys.old.keys self.old.items.items)
            (live_of keys.new.keys self.new.items.items) last }
        ensures stored { AreStored keys.new.keys self.new.items.items }
    {
        let mut kept = 0;
        for place in 0..self.items.len() {
            if ask(&mut keep, &mut self.items[place]) {
                move_up(keys, &mut self.items, kept, place);
                kept += 1;
            }
        }
        self.items.truncate(kept);
        keys.truncate(kept);
    }

    /// Takes the last series away, as if it had never been added.
    pub(crate) fn take_back(&mut self, keys: &mut KeyList)
    where
        T: Drop,
        requires { AreStored keys.old.keys self.old.items.items }
        ensures rest { (before : List (LiveSeries T)) (last : LiveSeries T)
            → live_of keys.old.keys self.old.items.items ≡ before ++ last ∷ []
            → live_of keys.new.keys self.new.items.items ≡ before }
        ensures stored { AreStored keys.new.keys self.new.items.items }
    {
        let others = self.items.len().saturating_sub(1);
        self.items.truncate(others);
        keys.truncate(others);
    }

    /// The series in order.
    pub(crate) fn iter<'a>(&'a self, keys: &'a KeyList) -> SeriesIter<'a, T>
        ensures { result ≡ live_of keys.now.keys self.now.items.items }
    {
        SeriesIter {
            keys: keys.as_slice(),
            series: self.items.as_slice(),
        }
    }
}

/// Asks the test of one series.
fn ask<T, F: FnMut(SeriesId, &mut T) -> bool>(keep: &mut F, series: &mut Series<T>) -> bool
    requires { F.IsAlwaysCallable keep.old }
    ensures asked { AskedAt F.FnMut keep.old series.old.id series.old.cell result series.new.cell
        keep.new }
    ensures id { series.new.id ≡ series.old.id }
    ensures callable { F.IsAlwaysCallable keep.new }
{
    keep(series.id, &mut series.cell)
}

/// Exchanges the series at a place with one that stands before it; at the same place nothing moves.
fn move_up<T>(keys: &mut KeyList, items: &mut Vec<Series<T>>, to: usize, from: usize)
    requires before { to ≤ from }
    requires keys { from < length keys.old.keys }
    requires items { from < length items.old.items }
    ensures keys { keys.new.keys ≡ swap keys.old.keys to from }
    ensures items { items.new.items ≡ swap items.old.items to from }
{
    if to < from {
        items.swap(to, from);
        keys.swap(to, from);
    }
}

/// The live series of one kind, in order of registration: of each its id, its key and its cell. A contract sees it as
/// the list of the series that are left.
#[derive(Drop)]
pub struct SeriesIter<'a, T> {
    keys: &'a [Key],
    series: &'a [Series<T>],
}

impl<'a, T> Model for SeriesIter<'a, T> {
    ghost use Rattle.std.specs.Prelude.{List};
    ghost use Rattle.metrics_registry.specs.Live.{LiveSeries};

    ghost Value = { List (LiveSeries T) };

    ghost use Rattle.metrics_registry.specs.Stored.{live_of};

    ghost view = { λ it. live_of it.keys.now it.series.now };
}

impl<'a, T> SeriesIter<'a, T> {
    ghost use Rattle.std.specs.Prelude.{◌≡◌, slice_get, option_map};
    ghost use Rattle.std.specs.Option.{option_copied};

    /// The key of the series at a place, from 0, if there is one.
    pub fn key(&self, place: usize) -> Option<&'a Key>
        ensures { option_copied result ≡ option_map (λ series. series.key)
            (slice_get self.now place) }
    {
        let _series = self.series.get(place)?;
        let key = self.keys.get(place)?;
        Some(key)
    }

    /// The id of the series at a place, from 0, if there is one.
    pub fn id(&self, place: usize) -> Option<SeriesId>
        ensures { result ≡ option_map (λ series. series.id) (slice_get self.now place) }
    {
        let _key = self.keys.get(place)?;
        Some(self.series.get(place)?.id)
    }

    /// The cell of the series at a place, from 0, if there is one.
    pub fn cell(&self, place: usize) -> Option<&'a T>
        ensures { option_copied result ≡ option_map (λ series. series.cell)
            (slice_get self.now place) }
    {
        let _key = self.keys.get(place)?;
        Some(&self.series.get(place)?.cell)
    }
}

impl<'a, T> Iterator for SeriesIter<'a, T> {
    type Item = (SeriesId, &'a Key, &'a T);

    ghost use Rattle.std.specs.Iterator.{YieldsFirstBy, item_count};

    ghost next_gives = { YieldsFirstBy (λ item. record { id = item.0; key = item.1.now; cell = item.2.now }) (λ it. it) };

    ghost remaining = { item_count (λ it. it) };

    fn next(&mut self) -> Option<(SeriesId, &'a Key, &'a T)> {
        let (key, keys) = self.keys.split_first()?;
        let (series, others) = self.series.split_first()?;
        self.keys = keys;
        self.series = others;
        Some((series.id, key, &series.cell))
    }
}
