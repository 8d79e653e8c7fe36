//! The names and keys of series.

ghost use Rattle.std.specs.Prelude.{◌≡◌, ℕ, ◌^◌, ◌<◌, [], ◌++◌, length, string_bytes, bytes_eq, IfOk, IsTrue, ◌↔◌, Some, refl};
ghost use Rattle.std.specs.Cmp.{partial_equiv_from_equiv, partial_order_from_agreeing_total};
ghost use Rattle.std.specs.Cmp.Lexicographic.{slice_cmp, nat_list_eq_equiv, nat_list_cmp_total, texts_po, texts_ties};
ghost use Rattle.std.specs.Ordering.{nat_cmp};
ghost use Rattle.std.specs.Hash as fed;
ghost use Rattle.std.specs.Arc.{arc_value};
ghost use Rattle.std.specs.Slice.Iter.{iter_rest};
ghost use Rattle.std.specs.Iterator.Adapters.{IterYieldsInOrder};
ghost use Rattle.metrics_core.specs.Texts.{cow_text};
ghost use Rattle.metrics_core.specs.Keys.{LabelText, SameKey, key_eq, key_cmp};
ghost use Rattle.metrics_core.specs.Hashes.{key_hash};
ghost use Rattle.metrics_core.specs.KeyOrderLaws.{key_cmp_total, key_cmp_ties};
ghost use Rattle.metrics_core.specs.KeyLaws.{key_eq_laws, key_hash_respects};
ghost use Rattle.metrics_core.specs.TextLaws.{text_hash_input_respects};

use crate::hashes::hash_with_seed;
use crate::labels::{add_hashes, are_same, clone_all, compare_in_order};
use crate::{CowSlice, Label, Memory, SharedString};
use std::alloc::Global;
use std::cmp::Ordering;
use std::hash::{Hash, Hasher};
use std::marker::Model;
use std::slice;
use std::sync::Arc;

/// The name of a metric: any text. A contract sees it as its UTF-8 bytes.
#[derive(Debug, Drop)]
pub struct KeyName {
    text: SharedString,
}

impl Model for KeyName {
    ghost use Rattle.std.specs.Prelude.{ℕ, List};
    ghost use Rattle.metrics_core.specs.Texts.{cow_text};

    ghost Value = { List ℕ };

    ghost view = { λ name. cow_text name.text };
}

impl KeyName {
    /// The name of a text that lives as long as the program.
    pub fn from_const_str(text: &'static str) -> KeyName
        ensures text { result ≡ text.now }
    {
        KeyName {
            text: SharedString::const_str(text),
        }
    }

    /// The text of the name.
    pub fn as_str(&self) -> &str
        ensures text { result.now ≡ self.now }
    {
        self.text.as_str()
    }

    /// The text of the name, held as the name held it.
    pub fn into_inner(self) -> SharedString
        ensures text { cow_text result ≡ self }
    {
        let KeyName { text } = self;
        text
    }

    /// The same name, held so that a copy of it takes no new text.
    pub fn to_retained(&self, alloc: Global) -> Result<KeyName, Memory>
        ensures same { IfOk result (λ copy. copy ≡ self.now) }
    {
        Ok(KeyName {
            text: self.text.to_retained(alloc)?,
        })
    }

    /// The same name.
    pub fn clone(&self, alloc: Global) -> Result<KeyName, Memory>
        ensures same { IfOk result (λ copy. copy ≡ self.now) }
    {
        Ok(KeyName {
            text: self.text.clone(alloc)?,
        })
    }
}

impl From<String> for KeyName {
    ghost from_gives = { λ text name. name ≡ string_bytes text };

    fn from(text: String) -> KeyName {
        KeyName {
            text: SharedString::from(text),
        }
    }
}

impl From<SharedString> for KeyName {
    ghost from_gives = { λ text name. name ≡ cow_text text };

    fn from(text: SharedString) -> KeyName {
        KeyName { text }
    }
}

impl PartialEq for KeyName {
    ghost eq = { bytes_eq };

    ghost laws = { partial_equiv_from_equiv nat_list_eq_equiv };

    fn eq(&self, other: &KeyName) -> bool {
        self.as_str() == other.as_str()
    }
}

impl Eq for KeyName {
    ghost laws = { nat_list_eq_equiv };
}

impl PartialOrd for KeyName {
    ghost partial_cmp = { λ a b. Some (slice_cmp nat_cmp a b) };

    ghost laws = { texts_po };

    fn partial_cmp(&self, other: &KeyName) -> Option<Ordering> {
        Some(self.cmp(other))
    }
}

impl Ord for KeyName {
    ghost cmp = { slice_cmp nat_cmp };

    ghost total = { nat_list_cmp_total };

    ghost matches_partial_cmp = { λ a b. refl };

    ghost matches_eq = { texts_ties };

    fn cmp(&self, other: &KeyName) -> Ordering {
        self.as_str().cmp(other.as_str())
    }
}

impl Hash for KeyName {
    ghost hash_input = { fed.str };

    ghost respects_eq = { text_hash_input_respects };

    fn hash<H: Hasher>(&self, state: &mut H) {
        self.as_str().hash(state);
    }
}

/// The key of a series: its name, and labels in some order. Two keys are equal where their names are and where each
/// label stands as often in the one as in the other, whatever its place.
#[derive(Debug, Drop)]
pub struct Key {
    name: KeyName,
    labels: CowSlice<'static, Label>,
}

impl Model for Key {
    ghost use Rattle.metrics_core.specs.Keys.{KeyText};
    ghost use Rattle.metrics_core.specs.Lists.{cow_items};

    ghost Value = { KeyText };

    ghost view = { λ key. record { name = key.name; labels = cow_items key.labels } };
}

impl Key {
    /// The key of a series without labels.
    pub fn from_name(name: KeyName) -> Key
        ensures parts { result ≡ record { name = name; labels = [] } }
    {
        Key {
            name,
            labels: CowSlice::from_borrowed(&[]),
        }
    }

    /// The key of a series with labels.
    pub fn from_parts(name: KeyName, labels: Vec<Label>) -> Key
        ensures parts { result ≡ record { name = name; labels = labels.items } }
    {
        Key {
            name,
            labels: CowSlice::from_owned(labels),
        }
    }

    /// The key of a series with labels that it shares: a copy of it takes no new list.
    pub fn from_shared_labels(name: KeyName, labels: Arc<Vec<Label>>) -> Key
        ensures parts { result ≡ record { name = name; labels = (arc_value labels).items } }
    {
        Key {
            name,
            labels: CowSlice::from_shared(labels),
        }
    }

    /// The key of a series with labels that live as long as the program.
    pub fn from_static_labels(name: KeyName, labels: &'static [Label]) -> Key
        ensures parts { result ≡ record { name = name; labels = labels.now } }
    {
        Key {
            name,
            labels: CowSlice::const_slice(labels),
        }
    }

    /// The key of a series without labels, by a name that lives as long as the program.
    pub fn from_static_name(name: &'static str) -> Key
        ensures parts { result ≡ record { name = name.now; labels = [] } }
    {
        Key::from_name(KeyName::from_const_str(name))
    }

    /// The key of a series whose name and labels live as long as the program.
    pub fn from_static_parts(name: &'static str, labels: &'static [Label]) -> Key
        ensures parts { result ≡ record { name = name.now; labels = labels.now } }
    {
        Key::from_static_labels(KeyName::from_const_str(name), labels)
    }

    /// The name of the series.
    pub fn name(&self) -> &str
        ensures text { result.now ≡ self.now.name }
    {
        self.name.as_str()
    }

    /// The labels in their order.
    pub fn labels(&self) -> slice::Iter<'_, Label>
        ensures rest { iter_rest result ≡ self.now.labels }
        ensures len { length (iter_rest result) ≡ length self.now.labels }
        ensures bound { length (iter_rest result) < 2 ^ 64 }
        ensures runs { IterYieldsInOrder LabelText }
    {
        self.labels.as_slice().iter()
    }

    /// The name of the series, as a name of its own.
    pub fn name_shared(&self, alloc: Global) -> Result<KeyName, Memory>
        ensures name { IfOk result (λ name. name ≡ self.now.name) }
    {
        self.name.clone(alloc)
    }

    /// The name and the labels.
    pub fn into_parts(self, alloc: Global) -> Result<(KeyName, Vec<Label>), Memory>
        ensures name { IfOk result (λ parts. parts.0 ≡ self.name) }
        ensures labels { IfOk result (λ parts. parts.1.items ≡ self.labels) }
    {
        let Key { name, labels } = self;
        Ok((name, labels.into_owned(alloc)?))
    }

    /// The same key, held so that a copy of it takes no new text and no new list.
    pub fn to_retained(&self, alloc: Global) -> Result<Key, Memory>
        ensures same { IfOk result (λ copy. copy ≡ self.now) }
    {
        Ok(Key {
            name: self.name.to_retained(alloc)?,
            labels: self.labels.to_retained(alloc)?,
        })
    }

    /// The same key.
    pub fn clone(&self, alloc: Global) -> Result<Key, Memory>
        ensures same { IfOk result (λ copy. copy ≡ self.now) }
    {
        Ok(Key {
            name: self.name.clone(alloc)?,
            labels: self.labels.clone(alloc)?,
        })
    }

    /// The key with further labels behind its own.
    pub fn with_extra_labels(&self, alloc: Global, mut extra: Vec<Label>) -> Result<Key, Memory>
        ensures name { IfOk result (λ key. key.name ≡ self.now.name) }
        ensures labels { IfOk result (λ key. key.labels ≡ self.now.labels ++ extra.items) }
    {
        let mut labels = clone_all(self.labels.as_slice(), alloc)?;
        labels.append(&mut extra)?;
        Ok(Key::from_parts(self.name.clone(alloc)?, labels))
    }

    /// The hash of the key: FNV-1a of the name, and the sum modulo 2^64 of the hashes of the labels, each of which is
    /// the hash of the key under seed 1 and that of the value under seed 2, joined by exclusive or.
    pub fn get_hash(&self) -> u64
        ensures hash { result ≡ key_hash self.now }
    {
        add_hashes(
            hash_with_seed(0, self.name().as_bytes()),
            self.labels.as_slice(),
        )
    }

    /// The allocator of the labels of one of two keys, where either has one.
    fn allocator_beside(&self, other: &Key) -> Option<Global> {
        self.labels.allocator().or(other.labels.allocator())
    }

    /// Whether the names are equal, and the labels in any order.
    fn equals(&self, other: &Key) -> bool
        ensures { result ≡ key_eq self.now other.now }
    {
        let alloc = self.allocator_beside(other);
        self.name == other.name && are_same(self.labels.as_slice(), other.labels.as_slice(), alloc)
    }
}

impl From<KeyName> for Key {
    ghost from_gives = { λ name key. key ≡ record { name = name; labels = [] } };

    fn from(name: KeyName) -> Key {
        Key::from_name(name)
    }
}

impl From<(KeyName, Vec<Label>)> for Key {
    ghost from_gives = { λ parts key. key ≡ record { name = parts.0; labels = parts.1.items } };

    fn from(parts: (KeyName, Vec<Label>)) -> Key {
        let (name, labels) = parts;
        Key::from_parts(name, labels)
    }
}

/// A comparison is a pass over both keys, and takes no memory, where the labels are in the same order or differ in
/// number or hash. Otherwise it takes n log n for n labels, and memory for a reference to each. Where that is refused,
/// or where the labels of both keys live as long as the program, it takes the square of n, with the same answer.
impl PartialEq for Key {
    ghost eq = { key_eq };

    ghost laws = { partial_equiv_from_equiv key_eq_laws };

    fn eq(&self, other: &Key) -> bool
        ensures value { result ≡ key_eq self.now other.now }
        ensures same { IsTrue result ↔ SameKey self.now other.now }
    {
        self.equals(other)
    }
}

impl Eq for Key {
    ghost laws = { key_eq_laws };
}

impl PartialOrd for Key {
    ghost partial_cmp = { λ a b. Some (key_cmp a b) };

    ghost laws = { partial_order_from_agreeing_total key_cmp key_cmp_total (λ a b. refl) key_cmp_ties };

    fn partial_cmp(&self, other: &Key) -> Option<Ordering> {
        Some(self.cmp(other))
    }
}

/// Keys are ordered by name, then by the number of labels, then by the labels, each list in the order of labels. Lists
/// of as many labels that aren't equal as they stand are put in order, at the cost that a test for equality has then.
impl Ord for Key {
    ghost cmp = { key_cmp };

    ghost total = { key_cmp_total };

    ghost matches_partial_cmp = { λ a b. refl };

    ghost matches_eq = { key_cmp_ties };

    #[tactic(auto, unfolding(crate::specs::Keys::key_cmp))]
    fn cmp(&self, other: &Key) -> Ordering {
        let labels = self.labels.as_slice();
        let others = other.labels.as_slice();
        match self.name.cmp(&other.name) {
            Ordering::Equal => match labels.len().cmp(&others.len()) {
                Ordering::Equal => {
                    compare_in_order(labels, others, self.allocator_beside(other))
                }
                by_number => by_number,
            },
            by_name => by_name,
        }
    }
}

impl Hash for Key {
    ghost hash_input = { λ key. fed.u64 (key_hash key) };

    ghost respects_eq = { key_hash_respects };

    fn hash<H: Hasher>(&self, state: &mut H) {
        state.write_u64(self.get_hash());
    }
}
