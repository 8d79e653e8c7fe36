//! What the tests ask of a reader. Each guard and each entry ends in a function of its own.
use evmap_core::{
    EntryRef, KeepAll, MapReadRef, PlainHasher, ReadHandle, ReadHandleFactory, WriteHandle,
};

pub(crate) type Writer = WriteHandle<u32, u32, u32, KeepAll, PlainHasher>;

pub(crate) type Reader = ReadHandle<u32, u32, u32, KeepAll, PlainHasher>;

pub(crate) type Factory = ReadHandleFactory<u32, u32, u32, KeepAll, PlainHasher>;

type Entry<'a> = EntryRef<'a, u32, u32, u32, KeepAll, PlainHasher>;

type Front<'a> = MapReadRef<'a, u32, u32, u32, KeepAll, PlainHasher>;

/// What an entry shows.
#[derive(Clone, Copy)]
pub(crate) struct Shown {
    /// Whether its bag is short, and how many values it has.
    pub(crate) form: Option<(bool, usize)>,
    /// One of the values.
    pub(crate) one: Option<u32>,
    pub(crate) meta: u32,
}

fn look_into(entry: &Entry<'_>) -> Shown {
    match entry.values() {
        Some(bag) => Shown {
            form: Some((bag.is_short(), bag.len())),
            one: bag.get_one().copied(),
            meta: *entry.meta(),
        },
        None => Shown {
            form: None,
            one: None,
            meta: *entry.meta(),
        },
    }
}

pub(crate) fn at_key(r: &mut Reader, key: u32) -> Option<Shown> {
    match r.get(&key) {
        Some(entry) => Some(look_into(&entry)),
        None => None,
    }
}

pub(crate) fn one_at_key(r: &mut Reader, key: u32) -> Option<Shown> {
    match r.get_one(&key) {
        Some(entry) => Some(look_into(&entry)),
        None => None,
    }
}

pub(crate) fn beside_key(r: &mut Reader, key: u32) -> Option<Shown> {
    match r.meta_get(&key) {
        Some(entry) => Some(look_into(&entry)),
        None => None,
    }
}

pub(crate) fn meta_alone(r: &mut Reader) -> Option<Shown> {
    match r.meta() {
        Some(entry) => Some(look_into(&entry)),
        None => None,
    }
}

/// How many entries a guard goes over.
fn count_pairs(guard: &Front<'_>) -> usize {
    let mut pairs = 0usize;
    for _ in guard {
        pairs = pairs.saturating_add(1);
    }
    pairs
}

/// Whether a guard has the key 1 and the value 5 there.
fn has_five(guard: &Front<'_>) -> bool {
    guard.contains_key(&1) && guard.contains_value(&1, &5) && !guard.is_empty()
}

/// Whether a guard gives the value 5 at the key 1, and the meta 1.
fn gives_five(guard: &Front<'_>) -> bool {
    guard.get_one(&1) == Some(&5) && guard.get(&1).is_some() && *guard.meta() == 1
}

/// Whether the first key is 1, and there is a first bag.
fn lists_one(guard: &Front<'_>) -> bool {
    guard.keys().next() == Some(&1) && guard.values().next().is_some()
}

/// Whether a guard shows the one value 5 at the one key 1, and the meta 1, in each way.
fn shows_five(guard: &Front<'_>) -> bool {
    let one = guard.len() == 1 && count_pairs(guard) == 1;
    one && has_five(guard) && gives_five(guard) && lists_one(guard)
}

/// Whether a guard shows five so. `None` where there is no guard.
pub(crate) fn guard_shows_five(r: &mut Reader) -> Option<bool> {
    match r.enter() {
        Some(guard) => Some(shows_five(&guard)),
        None => None,
    }
}
