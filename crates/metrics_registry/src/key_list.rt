//! The keys of the series of one kind, in order, and where each of them stands.

ghost use Rattle.std.specs.Prelude.{◌≡◌, ◌-◌, ◌^◌, ◌<◌, [], ◌∷◌, ◌++◌, length, is_some, position, swap, remove, take, false, IfErr, IfNone, IfOk, IfSome, OnOk, OnErr};
ghost use Rattle.std.specs.List.{list_any};
ghost use Rattle.metrics_core.specs.Keys.{key_eq};
ghost use Rattle.metrics_registry.specs.KeyRuns.{RanksRise};

use crate::key_runs::KeyRun;
use crate::numbered_keys::NumberedKeys;
use hash_starts::HashStart;
use metrics_core::{Key, Memory};
use std::alloc::Global;
use std::marker::Model;

/// How keys are stored.
#[derive(Drop)]
enum Kept {
    /// As a run: no key came that has an equal or a lesser rank than one before it.
    Run(KeyRun),
    /// Each under a number.
    Numbered(NumberedKeys),
}

/// Keys in order, no two of which are equal. While they come with rising ranks, as those do whose names or labels are
/// counted up, they are a run, and no hash is made; the first that doesn't, also one that is there, has all of them put under numbers.
#[derive(Drop)]
pub(crate) struct KeyList {
    alloc: Global,
    /// Where hashes begin.
    start: HashStart,
    kept: Kept,
}

impl Model for KeyList {
    ghost use Rattle.metrics_registry.specs.KeyLists.{KeysText};
    ghost use Rattle.metrics_registry.specs.KeptKeys.{keys_kept};

    ghost Value = { KeysText };

    ghost view = { λ list. keys_kept list.kept };
}

impl KeyList {
    /// No key. Hashes begin at a start.
    pub(crate) fn new(alloc: Global, start: HashStart) -> KeyList
        ensures { result.keys ≡ [] }
    {
        KeyList {
            alloc,
            start,
            kept: Kept::Run(KeyRun::new(alloc)),
        }
    }

    /// Makes room for so many more keys.
    pub(crate) fn reserve(&mut self, count: usize) -> Result<(), Memory>
        ensures { self.new.keys ≡ self.old.keys }
    {
        match &mut self.kept {
            Kept::Run(run) => run.reserve(count),
            Kept::Numbered(list) => list.reserve(count),
        }
    }

    /// The place of the key that is equal to a key.
    pub(crate) fn place_of(&self, key: &Key) -> Option<usize>
        ensures index { result ≡ position (key_eq key.now) self.now.keys }
        ensures found { is_some result ≡ list_any (key_eq key.now) self.now.keys }
        ensures within { IfSome result (λ place. place < length self.now.keys) }
    {
        match &self.kept {
            Kept::Run(run) => run.place_of(key),
            Kept::Numbered(list) => list.place_of(key),
        }
    }

    /// The place of the key that is equal to a key. Where none is, the key goes behind the others, and there is no place.
    /// Where memory is refused it comes back; where an equal key is there none is taken.
    pub(crate) fn enter(&mut self, key: Key) -> Result<Option<usize>, Key>
        ensures index { IfOk result (λ place. place ≡ position (key_eq key) self.old.keys) }
        ensures found { IfOk result (λ place. is_some place ≡ list_any (key_eq key) self.old.keys) }
        ensures within { IfOk result (λ place. IfSome place (λ place. place < length self.old.keys)) }
        ensures kept { IfOk result (λ place. IfSome place (λ _. self.new.keys ≡ self.old.keys)) }
        ensures added { IfOk result (λ place.
            IfNone place (self.new.keys ≡ self.old.keys ++ key ∷ [])) }
        ensures absent { OnErr result (list_any (key_eq key) self.old.keys ≡ false) }
        ensures refused { OnErr result (self.new.keys ≡ self.old.keys) }
        ensures returned { IfErr result (λ returned. returned ≡ key) }
    {
        match &mut self.kept {
            Kept::Run(run) => {
                let Some(key) = run.push_greater(key)? else {
                    return Ok(None);
                };
                if let Some(place) = run.place_of(&key) {
                    self.number();
                    return Ok(Some(place));
                }
                self.push_unranked(key)?;
                Ok(None)
            }
            Kept::Numbered(list) => list.enter(key),
        }
    }

    /// Adds a key behind the others. Where memory is refused it comes back.
    pub(crate) fn push(&mut self, key: Key) -> Result<(), Key>
        requires new { list_any (key_eq key) self.old.keys ≡ false }
        ensures added { OnOk result (self.new.keys ≡ self.old.keys ++ key ∷ []) }
        ensures refused { OnErr result (self.new.keys ≡ self.old.keys) }
        ensures returned { IfErr result (λ returned. returned ≡ key) }
    {
        match &mut self.kept {
            Kept::Run(run) => {
                let Some(key) = run.push_greater(key)? else {
                    return Ok(());
                };
                self.push_unranked(key)
            }
            Kept::Numbered(list) => list.push(key),
        }
    }

    /// Adds a key behind the others, whatever its rank: all keys of a rising run are put under numbers. Where memory is refused
    /// it comes back.
    fn push_unranked(&mut self, key: Key) -> Result<(), Key>
        requires new { list_any (key_eq key) self.old.keys ≡ false }
        ensures added { OnOk result (self.new.keys ≡ self.old.keys ++ key ∷ []) }
        ensures refused { OnErr result (self.new.keys ≡ self.old.keys) }
        ensures returned { IfErr result (λ returned. returned ≡ key) }
    {
        let list = match &mut self.kept {
            Kept::Run(run) => {
                if !run.rises() {
                    return run.push(key);
                }
                numbered_behind(self.alloc, self.start, run.as_slice(), key)?
            }
            Kept::Numbered(list) => return list.push(key),
        };
        self.kept = Kept::Numbered(list);
        Ok(())
    }

    /// Puts the keys of a rising run under numbers, where there is memory for it: whoever enters keys again is to find them by
    /// their hashes.
    fn number(&mut self)
        ensures { self.new.keys ≡ self.old.keys }
    {
        let Kept::Run(run) = &self.kept else {
            return;
        };
        if run.rises()
            && let Ok(list) = numbered(self.alloc, self.start, run.as_slice())
        {
            self.kept = Kept::Numbered(list);
        }
    }

    /// Removes the key at a place. The others keep their order.
    pub(crate) fn remove(&mut self, place: usize)
        ensures { self.new.keys ≡ remove self.old.keys place }
    {
        match &mut self.kept {
            Kept::Run(run) => run.remove(place),
            Kept::Numbered(list) => list.remove(place),
        }
    }

    /// Exchanges two keys.
    pub(crate) fn swap(&mut self, first: usize, second: usize)
        requires first { first < length self.old.keys }
        requires second { second < length self.old.keys }
        ensures { self.new.keys ≡ swap self.old.keys first second }
    {
        match &mut self.kept {
            Kept::Run(run) => run.swap(first, second),
            Kept::Numbered(list) => list.swap(first, second),
        }
    }

    /// Keeps the first keys, so many of them.
    pub(crate) fn truncate(&mut self, count: usize)
        ensures keys { self.new.keys ≡ take count self.old.keys }
    {
        match &mut self.kept {
            Kept::Run(run) => run.truncate(count),
            Kept::Numbered(list) => list.truncate(count),
        }
    }

    /// Removes the last key.
    pub(crate) fn pop(&mut self)
        ensures { self.new.keys ≡ take (length self.old.keys - 1) self.old.keys }
    {
        match &mut self.kept {
            Kept::Run(run) => run.pop(),
            Kept::Numbered(list) => list.pop(),
        }
    }

    /// How many keys there are.
    pub(crate) fn len(&self) -> usize
        ensures len { result ≡ length self.now.keys }
        ensures small { result < 2 ^ 63 }
    {
        match &self.kept {
            Kept::Run(run) => run.len(),
            Kept::Numbered(list) => list.len(),
        }
    }

    /// The keys in order.
    pub(crate) fn as_slice(&self) -> &[Key]
        ensures keys { result.now ≡ self.now.keys }
    {
        match &self.kept {
            Kept::Run(run) => run.as_slice(),
            Kept::Numbered(list) => list.as_slice(),
        }
    }
}

/// Keys whose ranks rise, each under a number, and one more behind them. Where memory is refused that comes back.
fn numbered_behind(
    alloc: Global,
    start: HashStart,
    keys: &[Key],
    key: Key,
) -> Result<NumberedKeys, Key>
    requires rise { RanksRise keys.now }
    requires new { list_any (key_eq key) keys.now ≡ false }
    ensures all { IfOk result (λ list. list.keys ≡ keys.now ++ key ∷ []) }
    ensures returned { IfErr result (λ returned. returned ≡ key) }
{
    let Ok(mut list) = numbered(alloc, start, keys) else {
        return Err(key);
    };
    list.push(key)?;
    Ok(list)
}

/// Keys whose ranks rise, each under a number.
fn numbered(alloc: Global, start: HashStart, keys: &[Key]) -> Result<NumberedKeys, Memory>
    requires { RanksRise keys.now }
    ensures { IfOk result (λ list. list.keys ≡ keys.now) }
{
    let mut list = NumberedKeys::new(alloc, start);
    list.reserve(keys.len())?;
    for key in keys {
        add_copy(alloc, &mut list, key)?;
    }
    Ok(list)
}

/// Adds a copy of a key behind others.
fn add_copy(alloc: Global, list: &mut NumberedKeys, key: &Key) -> Result<(), Memory>
    requires new { list_any (key_eq key.now) list.old.keys ≡ false }
    ensures added { OnOk result (list.new.keys ≡ list.old.keys ++ key.now ∷ []) }
{
    match list.push(key.clone(alloc)?) {
        Ok(()) => Ok(()),
        Err(_) => Err(Memory),
    }
}
