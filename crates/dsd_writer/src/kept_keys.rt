//! Keys as lines want them, kept one behind the other: of each its name, and behind it the text of its tags.

ghost use Rattle.std.specs.Prelude.{◌≡◌, ◌+◌, ◌≤◌, [], ◌∷◌, ◌++◌, codes, length, slice_get, OnOk, OnErr, vec_len, vec_capacity, MatchOption, ◌^◌};
ghost use Rattle.dsd_writer.specs.Kept.{StandsFrom, kept_text};
ghost use Rattle.dsd_writer.specs.Lines.{before_next, tags_text};

use crate::parts::{behind_tags, push_tags};
use crate::room::{behind, push};
use metrics_core::{Key, Memory};
use std::alloc::Global;
use std::marker::Model;
use std::snapshot::Snapshot;

/// Where a key stands in a text.
#[derive(Drop)]
pub(crate) struct KeptPlace {
    begin: usize,
    /// Where its name ends, and its tags begin.
    middle: usize,
    end: usize,
    /// The key. Proofs alone see it, and it has no bytes.
    key: Snapshot<Key>,
}

/// Keys whose names and tags are kept as text, so that their lines are written without a look at their labels. A contract sees
/// the keys, in order.
#[derive(Drop)]
pub struct KeptKeys {
    text: Vec<u8>,
    places: Vec<KeptPlace>,
}

impl Model for KeptKeys {
    ghost use Rattle.std.specs.Prelude.{List};
    ghost use Rattle.metrics_core.specs.Keys.{KeyText};
    ghost use Rattle.dsd_writer.specs.Kept.{AreKept, keys_at};

    ghost Value = { List KeyText };

    ghost view = { λ kept. keys_at kept.places.items };

    ghost invariant = { λ kept. AreKept kept.text.items kept.places.items };
}

impl KeptKeys {
    /// None. It takes no memory.
    pub fn new(alloc: Global) -> KeptKeys
        ensures { result ≡ [] }
    {
        KeptKeys {
            text: Vec::new(alloc),
            places: Vec::new(alloc),
        }
    }

    /// Makes room for so many more keys, but for their text.
    pub fn reserve(&mut self, count: usize) -> Result<(), Memory>
        ensures same { self.new ≡ self.old }
    {
        self.places.reserve(count)?;
        Ok(())
    }

    /// Keeps a key behind the others.
    pub fn push(&mut self, key: &Key) -> Result<(), Memory>
        ensures pushed { OnOk result (self.new ≡ self.old ++ key.now ∷ []) }
        ensures refused { OnErr result (self.new ≡ self.old) }
    {
        let Some(length) = text_length(key) else {
            return Err(Memory);
        };
        self.text.reserve(length)?;
        self.places.reserve(1)?;
        let place = push_key(&mut self.text, key);
        self.places.push_reserved(place);
        Ok(())
    }

    /// The key at a place, from 0, if there is one.
    pub fn get(&self, index: usize) -> Option<KeptKey<'_>>
        ensures { result ≡ slice_get self.now index }
    {
        let places = self.places.as_slice();
        let place = places.get(index)?;
        let text = self.text.as_slice();
        let name = &text[place.begin..place.middle];
        let tags = &text[place.middle..place.end];
        Some(KeptKey {
            name,
            tags,
            key: &place.key,
        })
    }
}

/// How many bytes the name and the tags of a key take, unless they are more than can be counted.
fn text_length(key: &Key) -> Option<usize>
    ensures { MatchOption result (2 ^ 64 ≤ length (kept_text key.now))
        (λ n. n ≡ length (kept_text key.now)) }
{
    let tags = key.labels().as_slice();
    let behind_name = behind(u64::MAX, key.name())?;
    let left = behind_tags(behind_name, "|#", tags)?;
    Some((u64::MAX - left) as usize)
}

/// Appends the name and the tags of a key, for which there is room, and answers where they stand.
fn push_key(text: &mut Vec<u8>, key: &Key) -> KeptPlace
    requires { vec_len text.old + length (kept_text key.now) ≤ vec_capacity text.old }
    ensures items { text.new.items ≡ text.old.items ++ kept_text key.now }
    ensures stands { StandsFrom (length text.old.items) result }
    ensures key { result.key.value ≡ key.now }
{
    let tags = key.labels().as_slice();
    let begin = text.len();
    push(text, key.name());
    let middle = text.len();
    push_tags(text, "|#", tags);
    let end = text.len();
    KeptPlace {
        begin,
        middle,
        end,
        key: Snapshot::of(key),
    }
}

/// A key that is kept so. A contract sees the key.
#[derive(Drop)]
pub struct KeptKey<'a> {
    name: &'a [u8],
    tags: &'a [u8],
    /// The key. Proofs alone see it, and it has no bytes.
    key: &'a Snapshot<Key>,
}

impl<'a> Model for KeptKey<'a> {
    ghost use Rattle.std.specs.Prelude.{◌≡◌};
    ghost use Rattle.metrics_core.specs.Keys.{KeyText};
    ghost use Rattle.dsd_writer.specs.Lines.{tags_text};

    ghost Value = { KeyText };

    ghost view = { λ kept. kept.key.now.value };

    ghost invariant = { λ kept. (kept.name.now ≡ kept.key.now.value.name) × (kept.tags.now ≡ tags_text kept.key.now.value.labels) };
}

impl<'a> KeptKey<'a> {
    /// The name of the series.
    pub fn name(&self) -> &'a [u8]
        ensures { result.now ≡ self.now.name }
    {
        self.name
    }

    /// The text of the tags of the series.
    pub(crate) fn tags(&self) -> &'a [u8]
        ensures { result.now ≡ tags_text self.now.labels }
    {
        self.tags
    }

    /// What stands before a tag behind those of the series.
    pub(crate) fn before_next(&self) -> &'static str
        ensures { result.now ≡ before_next (codes "|#") self.now.labels }
    {
        if self.tags.is_empty() { "|#" } else { "," }
    }
}
