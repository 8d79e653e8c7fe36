//! Runs of keys: keys in order, each of a greater rank than those before it, so that an equal one is found without hashes.

ghost use Rattle.std.specs.Prelude.{◌≡◌, ◌+◌, ◌-◌, ◌^◌, ◌<◌, [], ◌∷◌, ◌++◌, length, sum_by, is_some, position, swap, remove, take, false, IfErr, IfNone, IfOk, IfSome, OnOk, OnErr};
ghost use Rattle.std.specs.Bool.{OnTrue};
ghost use Rattle.std.specs.List.{list_any};
ghost use Rattle.metrics_core.specs.Keys.{key_eq};
ghost use Rattle.metrics_core.specs.Numbers.{in_64_bits};
ghost use Rattle.metrics_registry.specs.KeyRuns.{AreUpTo, RanksRise, key_rank, low_bytes, text_rank, value_rank};

use metrics_core::{Key, Label, Memory};
use std::alloc::Global;
use std::marker::Model;

/// How many numbers six bytes can tell apart.
const SIX_BYTES: u64 = 0x1_0000_0000_0000;

/// How many numbers seven bytes can tell apart.
const SEVEN_BYTES: u64 = 0x100_0000_0000_0000;

/// Keys in order, no two of which are equal. The rank of a key is a number that rises where names or values of labels are counted up.
/// While each key has a greater rank than those before it, one is found by a search for its rank, in logarithmic time, and
/// the next is put behind the others at once. Otherwise a look-up goes over all of them.
#[derive(Drop)]
pub(crate) struct KeyRun {
    keys: Vec<Key>,
    /// Whether each key has a greater rank than those before it.
    rises: bool,
    /// No key has a greater rank than this, where they rise.
    last: u64,
}

impl Model for KeyRun {
    ghost use Rattle.metrics_registry.specs.KeyLists.{KeysText};
    ghost use Rattle.metrics_registry.specs.KeyRuns.{run_keys, RiseWhereSaid};

    ghost Value = { KeysText };

    ghost view = { run_keys };

    ghost invariant = { RiseWhereSaid };
}

impl KeyRun {
    /// No key.
    pub(crate) fn new(alloc: Global) -> KeyRun
        ensures { result.keys ≡ [] }
    {
        KeyRun {
            keys: Vec::new(alloc),
            rises: true,
            last: 0,
        }
    }

    /// Makes room for so many more keys.
    pub(crate) fn reserve(&mut self, count: usize) -> Result<(), Memory>
        ensures { self.new.keys ≡ self.old.keys }
    {
        self.keys.reserve(count)?;
        Ok(())
    }

    /// Whether each key has a greater rank than those before it.
    pub(crate) fn rises(&self) -> bool
        ensures { OnTrue result (RanksRise self.now.keys) }
    {
        self.rises
    }

    /// The place of the key that is equal to a key.
    pub(crate) fn place_of(&self, key: &Key) -> Option<usize>
        ensures index { result ≡ position (key_eq key.now) self.now.keys }
        ensures found { is_some result ≡ list_any (key_eq key.now) self.now.keys }
        ensures within { IfSome result (λ place. place < length self.now.keys) }
    {
        if self.rises {
            place_by_rank(self.keys.as_slice(), key)
        } else {
            place_among(self.keys.as_slice(), key)
        }
    }

    /// Puts a key behind the others where they rise and its rank is greater than theirs; none is equal to it then. Elsewhere
    /// it comes back, as it does where memory is refused.
    pub(crate) fn push_greater(&mut self, key: Key) -> Result<Option<Key>, Key>
        ensures pushed { IfOk result (λ held.
            IfNone held (self.new.keys ≡ self.old.keys ++ key ∷ [])) }
        ensures new { IfOk result (λ held.
            IfNone held (list_any (key_eq key) self.old.keys ≡ false)) }
        ensures held { IfOk result (λ held. IfSome held (λ held. held ≡ key)) }
        ensures same { IfOk result (λ held. IfSome held (λ _. self.new.keys ≡ self.old.keys)) }
        ensures refused { OnErr result (self.new.keys ≡ self.old.keys) }
        ensures absent { OnErr result (list_any (key_eq key) self.old.keys ≡ false) }
        ensures returned { IfErr result (λ returned. returned ≡ key) }
    {
        let rank = rank_of(&key);
        if !self.rises || rank <= self.last {
            return Ok(Some(key));
        }
        match self.keys.push(key) {
            Ok(()) => {
                self.last = rank;
                Ok(None)
            }
            Err(refused) => Err(refused.value),
        }
    }

    /// Puts a key behind the others, whatever its rank. Where memory is refused it comes back.
    pub(crate) fn push(&mut self, key: Key) -> Result<(), Key>
        ensures added { OnOk result (self.new.keys ≡ self.old.keys ++ key ∷ []) }
        ensures refused { OnErr result (self.new.keys ≡ self.old.keys) }
        ensures returned { IfErr result (λ returned. returned ≡ key) }
    {
        match self.keys.push(key) {
            Ok(()) => {
                self.rises = false;
                Ok(())
            }
            Err(refused) => Err(refused.value),
        }
    }

    /// Removes the key at a place. The others keep their order.
    pub(crate) fn remove(&mut self, place: usize)
        ensures { self.new.keys ≡ remove self.old.keys place }
    {
        remove_at(&mut self.keys, place);
    }

    /// Exchanges two keys.
    pub(crate) fn swap(&mut self, first: usize, second: usize)
        requires first { first < length self.old.keys }
        requires second { second < length self.old.keys }
        ensures { self.new.keys ≡ swap self.old.keys first second }
    {
        self.rises = false;
        self.keys.swap(first, second);
    }

    /// Keeps the first keys, so many of them, and looks whether they rise where it isn't known that they do.
    pub(crate) fn truncate(&mut self, count: usize)
        ensures keys { self.new.keys ≡ take count self.old.keys }
    {
        self.keys.truncate(count);
        if !self.rises
            && let Some(last) = greatest_of_rising(self.keys.as_slice())
        {
            self.rises = true;
            self.last = last;
        }
    }

    /// Removes the last key.
    pub(crate) fn pop(&mut self)
        ensures { self.new.keys ≡ take (length self.old.keys - 1) self.old.keys }
    {
        self.keys.truncate(self.keys.len().saturating_sub(1));
    }

    /// How many keys there are.
    pub(crate) fn len(&self) -> usize
        ensures len { result ≡ length self.now.keys }
        ensures small { result < 2 ^ 63 }
    {
        self.keys.len()
    }

    /// The keys in order.
    pub(crate) fn as_slice(&self) -> &[Key]
        ensures keys { result.now ≡ self.now.keys }
    {
        self.keys.as_slice()
    }
}

/// Removes the key at a place, if there is one.
fn remove_at(keys: &mut Vec<Key>, place: usize)
    ensures { keys.new.items ≡ remove keys.old.items place }
{
    if place < keys.len() {
        let _ = keys.remove(place);
    }
}

/// The last seven bytes of a text as a number.
fn low_bytes(text: &[u8]) -> u64
    ensures { result ≡ low_bytes text.now }
{
    text.iter()
        .fold(0, |low, byte| low % SIX_BYTES * 256 + u64::from(*byte))
}

/// The rank of a text: its length, and behind it its last seven bytes.
fn text_rank(text: &str) -> u64
    ensures { result ≡ text_rank text.now }
{
    let length = text.len() as u64 % 256;
    (length * SEVEN_BYTES).wrapping_add(low_bytes(text.as_bytes()))
}

/// A rank to which those of the values of labels are added, modulo 2^64.
fn add_ranks(start: u64, labels: &[Label]) -> u64
    ensures { result ≡ in_64_bits (start + sum_by value_rank labels.now) }
{
    labels.iter().fold(
        start,
        |rank, label| rank.wrapping_add(text_rank(label.value())),
    )
}

/// The rank of a key.
fn rank_of(key: &Key) -> u64
    ensures { result ≡ key_rank key.now }
{
    add_ranks(text_rank(key.name()), key.labels().as_slice())
}

/// The place of the key that is equal to a key, among keys whose ranks rise.
fn place_by_rank(keys: &[Key], key: &Key) -> Option<usize>
    requires { RanksRise keys.now }
    ensures index { result ≡ position (key_eq key.now) keys.now }
    ensures within { IfSome result (λ place. place < length keys.now) }
{
    let rank = rank_of(key);
    match keys.binary_search_by_key(&rank, |held: &Key| rank_of(held)) {
        Ok(place) => {
            if *key == keys[place] {
                Some(place)
            } else {
                None
            }
        }
        Err(_) => None,
    }
}

/// The place of the first key that is equal to a key.
fn place_among(keys: &[Key], key: &Key) -> Option<usize>
    ensures index { result ≡ position (key_eq key.now) keys.now }
    ensures within { IfSome result (λ place. place < length keys.now) }
{
    keys.iter().position(|held| *key == *held)
}

/// The greatest rank of keys whose ranks rise, or 0 where there is none; elsewhere nothing.
fn greatest_of_rising(keys: &[Key]) -> Option<u64>
    ensures { IfSome result (λ last. RanksRise keys.now × AreUpTo last keys.now) }
{
    let mut last = 0;
    for key in keys {
        let rank = rank_of(key);
        if rank <= last {
            return None;
        }
        last = rank;
    }
    Some(last)
}
