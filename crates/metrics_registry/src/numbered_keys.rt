//! Keys in order, each under a number of its own.

ghost use Rattle.std.specs.Prelude.{◌≡◌, ℕ, ◌-◌, ◌^◌, ◌<◌, [], ◌∷◌, ◌++◌, length, is_some, position, swap, remove, take, false, nat_eq, true, None, Some, IfErr, IfNone, IfOk, IfSome, OnOk, OnErr};
ghost use Rattle.std.specs.List.{list_any};
ghost use Rattle.indexmap.specs.IndexMap.{get, insert_entry, values};
ghost use Rattle.std.specs.BTreeMap.{get as number_in, is_at};
ghost use Rattle.metrics_core.specs.Keys.{KeyText, key_eq, key_cmp};
ghost use Rattle.hash_starts.specs.Starts.{begun_hash};
ghost use Rattle.hash_starts.specs.declared.start.HashStart.{HashStart};
ghost use Rattle.metrics_registry.specs.NumberedKeys.{AreNumbered, NumbersText, key_fed, number_of};

use hash_starts::HashStart;
use indexmap::IndexMap;
use metrics_core::{Key, Memory};
use std::alloc::Global;
use std::collections::BTreeMap;
use std::hash::BuildHasher;
use std::marker::Model;

/// Keys in order, no two of which are equal. Each stands under a number of its own: its hash from the list's start, or, where
/// another key stands under that, the next free number, which an ordered map then keeps for it. So keys whose hashes meet
/// are found in logarithmic time, and all others in constant time. From a start that was drawn nobody can make names whose
/// hashes meet, however many of them have one `get_hash`; labels of one name they can.
#[derive(Drop)]
pub(crate) struct NumberedKeys {
    start: HashStart,
    keys: IndexMap<u64, Key>,
    /// The numbers of the keys that don't stand under their hash.
    numbers: BTreeMap<Key, u64>,
    /// Each lesser number was once taken.
    next: u64,
}

impl Model for NumberedKeys {
    ghost use Rattle.metrics_registry.specs.KeyLists.{KeysText};
    ghost use Rattle.metrics_registry.specs.NumberedKeys.{keys_of_list, StandUnderNumbers};

    ghost Value = { KeysText };

    ghost view = { keys_of_list };

    ghost invariant = { StandUnderNumbers };
}

impl NumberedKeys {
    /// No key. Hashes begin at a start.
    pub(crate) fn new(alloc: Global, start: HashStart) -> NumberedKeys
        ensures { result.keys ≡ [] }
    {
        NumberedKeys {
            start,
            keys: IndexMap::new(alloc),
            numbers: BTreeMap::new(alloc),
            next: 0,
        }
    }

    /// Makes room for so many more keys.
    pub(crate) fn reserve(&mut self, count: usize) -> Result<(), Memory>
        ensures { self.new.keys ≡ self.old.keys }
    {
        self.keys.reserve(count)?;
        Ok(())
    }

    /// The place of the key that is equal to a key.
    pub(crate) fn place_of(&self, key: &Key) -> Option<usize>
        ensures index { result ≡ position (key_eq key.now) self.now.keys }
        ensures found { is_some result ≡ list_any (key_eq key.now) self.now.keys }
        ensures within { IfSome result (λ place. place < length self.now.keys) }
    {
        let number = number_of(self.start, &self.numbers, key);
        place_under(&self.keys, number, key)
    }

    /// The place of the key that is equal to a key. Where none is, the key goes behind the others, and there is no place.
    /// Where memory is refused it comes back; where an equal key is there none is taken.
    pub(crate) fn enter(&mut self, key: Key) -> Result<Option<usize>, Key>
        ensures index { IfOk result (λ place. place ≡ position (key_eq key) self.old.keys) }
        ensures found { IfOk result (λ place. is_some place ≡ list_any (key_eq key) self.old.keys) }
        ensures within { IfOk result (λ place. IfSome place (λ place. place < length self.old.keys)) }
        ensures kept { IfOk result (λ place. IfSome place (λ _. self.new.keys ≡ self.old.keys)) }
        ensures added { IfOk result (λ place.
            IfNone place (self.new.keys ≡ self.old.keys ++ key ∷ [])) }
        ensures absent { OnErr result (list_any (key_eq key) self.old.keys ≡ false) }
        ensures refused { OnErr result (self.new.keys ≡ self.old.keys) }
        ensures returned { IfErr result (λ returned. returned ≡ key) }
    {
        let number = number_of(self.start, &self.numbers, &key);
        let Some(key) = put_under(&mut self.keys, number, key)? else {
            return Ok(None);
        };
        if let Some(place) = place_under(&self.keys, number, &key) {
            return Ok(Some(place));
        }
        push_apart(&mut self.keys, &mut self.numbers, &mut self.next, key)?;
        Ok(None)
    }

    /// Adds a key behind the others. Where memory is refused it comes back.
    pub(crate) fn push(&mut self, key: Key) -> Result<(), Key>
        requires new { list_any (key_eq key) self.old.keys ≡ false }
        ensures added { OnOk result (self.new.keys ≡ self.old.keys ++ key ∷ []) }
        ensures refused { OnErr result (self.new.keys ≡ self.old.keys) }
        ensures returned { IfErr result (λ returned. returned ≡ key) }
    {
        let number = number_of(self.start, &self.numbers, &key);
        push_numbered(
            &mut self.keys,
            &mut self.numbers,
            &mut self.next,
            number,
            key,
        )
    }

    /// Removes the key at a place. The others keep their order.
    pub(crate) fn remove(&mut self, place: usize)
        ensures { self.new.keys ≡ remove self.old.keys place }
    {
        if let Some((_, key)) = self.keys.shift_remove_index(place) {
            forget(&mut self.numbers, key);
        }
    }

    /// Exchanges two keys.
    pub(crate) fn swap(&mut self, first: usize, second: usize)
        requires first { first < length self.old.keys }
        requires second { second < length self.old.keys }
        ensures { self.new.keys ≡ swap self.old.keys first second }
    {
        self.keys.swap_indices(first, second);
    }

    /// Keeps the first keys, so many of them.
    pub(crate) fn truncate(&mut self, count: usize)
        ensures keys { self.new.keys ≡ take count self.old.keys }
    {
        for _ in count..self.len() {
            self.pop();
        }
    }

    /// Removes the last key.
    pub(crate) fn pop(&mut self)
        ensures { self.new.keys ≡ take (length self.old.keys - 1) self.old.keys }
    {
        if let Some((_, key)) = self.keys.pop() {
            forget(&mut self.numbers, key);
        }
    }

    /// How many keys there are.
    pub(crate) fn len(&self) -> usize
        ensures len { result ≡ length self.now.keys }
        ensures small { result < 2 ^ 63 }
    {
        self.keys.len()
    }

    /// The keys in order.
    pub(crate) fn as_slice(&self) -> &[Key]
        ensures keys { result.now ≡ self.now.keys }
    {
        in_order(&self.keys)
    }
}

/// The number of a key: the one that is kept for it, or else its hash from the start.
fn number_of(start: HashStart, numbers: &BTreeMap<Key, u64>, key: &Key) -> u64
    ensures { result ≡ number_of start numbers.now key.now }
{
    match numbers.get(key) {
        Some(number) => *number,
        None => begun_hash(start, key),
    }
}

/// The hash of a key from a start: that of its `get_hash` with its name behind it.
#[tactic(auto, unfolding(hash_starts::specs::Starts::begun_hash))]
fn begun_hash(start: HashStart, key: &Key) -> u64
    ensures { result ≡ begun_hash start (key_fed key.now) }
{
    start.hash_one((key.get_hash(), key.name()))
}

/// The keys of a list, in order.
fn in_order(keys: &IndexMap<u64, Key>) -> &[Key]
    ensures { result.now ≡ values keys.now }
{
    keys.as_slice().values().as_slice()
}

/// The place of the key that stands under a number, if it is equal to a key.
fn place_under(keys: &IndexMap<u64, Key>, number: u64, key: &Key) -> Option<usize>
    ensures index { (start : HashStart) (numbers : NumbersText)
        → number ≡ number_of start numbers key.now → AreNumbered start numbers keys.now.entries
        → result ≡ position (key_eq key.now) (values keys.now) }
    ensures found { (start : HashStart) (numbers : NumbersText)
        → number ≡ number_of start numbers key.now → AreNumbered start numbers keys.now.entries
        → is_some result ≡ list_any (key_eq key.now) (values keys.now) }
    ensures within { IfSome result (λ place. place < length (values keys.now)) }
{
    let place = keys.get_index_of(&number)?;
    if in_order(keys)[place] == *key {
        Some(place)
    } else {
        None
    }
}

/// Adds a key behind the others, whose number this is. Where memory is refused it comes back.
fn push_numbered(
    keys: &mut IndexMap<u64, Key>,
    numbers: &mut BTreeMap<Key, u64>,
    next: &mut u64,
    number: u64,
    key: Key,
) -> Result<(), Key>
    requires new { list_any (key_eq key) (values keys.old) ≡ false }
    ensures numbered { (start : HashStart) → number ≡ number_of start numbers.old key
        → AreNumbered start numbers.old keys.old.entries
        → AreNumbered start numbers.new keys.new.entries }
    ensures added { OnOk result (values keys.new ≡ values keys.old ++ key ∷ []) }
    ensures refused { OnErr result (values keys.new ≡ values keys.old) }
    ensures returned { IfErr result (λ returned. returned ≡ key) }
{
    if !keys.contains_key(&number) {
        return push_under(keys, number, key);
    }
    push_apart(keys, numbers, next, key)
}

/// Adds a key behind the others, under a number, unless one stands under that; then the key comes back, as it does where memory is
/// refused.
fn put_under(keys: &mut IndexMap<u64, Key>, number: u64, key: Key) -> Result<Option<Key>, Key>
    ensures free { IfOk result (λ held. IfNone held (get nat_eq keys.old number ≡ None)) }
    ensures put { IfOk result (λ held.
        IfNone held (keys.new.entries ≡ keys.old.entries ++ (number, key) ∷ [])) }
    ensures held { IfOk result (λ held. IfSome held (λ held. held ≡ key)) }
    ensures same { IfOk result (λ held. IfSome held (λ _. keys.new.entries ≡ keys.old.entries)) }
    ensures refused { OnErr result (keys.new.entries ≡ keys.old.entries) }
    ensures absent { OnErr result (get nat_eq keys.old number ≡ None) }
    ensures returned { IfErr result (λ returned. returned ≡ key) }
{
    match keys.insert(number, key) {
        Ok(None) => Ok(None),
        Ok(Some(held)) => Ok(Some(put_back(keys, number, held))),
        Err(refused) => Err(refused.value.1),
    }
}

/// Puts a key under a number, under which one stands, and answers that.
fn put_back(keys: &mut IndexMap<u64, Key>, number: u64, key: Key) -> Key
    requires { is_some (get nat_eq keys.old number) ≡ true }
    ensures entries { keys.new.entries ≡ insert_entry nat_eq keys.old.entries number key }
    ensures held { Some result ≡ get nat_eq keys.old number }
{
    let Ok(Some(held)) = keys.insert(number, key) else {
        unreachable!()
    };
    held
}

/// Adds a key behind the others, under a number that is kept for it. Where memory is refused it comes back.
fn push_apart(
    keys: &mut IndexMap<u64, Key>,
    numbers: &mut BTreeMap<Key, u64>,
    next: &mut u64,
    key: Key,
) -> Result<(), Key>
    requires new { list_any (key_eq key) (values keys.old) ≡ false }
    ensures numbered { (start : HashStart) → AreNumbered start numbers.old keys.old.entries
        → AreNumbered start numbers.new keys.new.entries }
    ensures added { OnOk result (values keys.new ≡ values keys.old ++ key ∷ []) }
    ensures refused { OnErr result (values keys.new ≡ values keys.old) }
    ensures returned { IfErr result (λ returned. returned ≡ key) }
{
    let Some(number) = free_number(keys, next) else {
        return Err(key);
    };
    let Ok(copy) = key.clone(*keys.allocator()) else {
        return Err(key);
    };
    let Ok(_) = numbers.insert(copy, number) else {
        return Err(key);
    };
    push_under(keys, number, key)
}

/// Lets the number go that is kept for a key.
fn forget(numbers: &mut BTreeMap<Key, u64>, key: Key)
    ensures { (k : KeyText) → is_at (key_cmp key) k ≡ false
        → number_in key_cmp numbers.new k ≡ number_in key_cmp numbers.old k }
{
    numbers.remove(&key);
}

/// The next number under which no key stands.
fn free_number(keys: &IndexMap<u64, Key>, next: &mut u64) -> Option<u64>
    ensures { IfSome result (λ number. get nat_eq keys.now number ≡ None) }
{
    for number in *next..u64::MAX {
        if !keys.contains_key(&number) {
            *next = number;
            return Some(number);
        }
    }
    None
}

/// Adds a key behind the others, under a number that none has. Where memory is refused it comes back.
fn push_under(keys: &mut IndexMap<u64, Key>, number: u64, key: Key) -> Result<(), Key>
    requires free { get nat_eq keys.old number ≡ None }
    ensures added { OnOk result (keys.new.entries ≡ keys.old.entries ++ (number, key) ∷ []) }
    ensures refused { OnErr result (keys.new.entries ≡ keys.old.entries) }
    ensures returned { IfErr result (λ returned. returned ≡ key) }
{
    match keys.insert(number, key) {
        Ok(_) => Ok(()),
        Err(refused) => Err(refused.value.1),
    }
}
