//! The label sets of series, as they are printed, kept one behind the other, so that none of them takes memory of its own.

ghost use Rattle.std.specs.Prelude.{◌≡◌, ◌≤◌, ◌++◌, [], ◌∷◌, length, take, OnOk, OnErr, option_copied, slice_get, slice_index};
ghost use Rattle.prom_format.specs.LabelSets.{labels_of};
ghost use Rattle.prom_exporter.specs.Rows.{label_set_of};

use hash_starts::HashStart;
use indexmap::IndexMap;
use metrics_core::{Key, Memory};
use prom_format::push_row_labels;
use std::alloc::Global;
use std::marker::Model;

/// The label set of each series, as it is printed, in order of registration. A contract sees the list of these texts.
#[derive(Drop)]
pub(crate) struct LabelSets {
    text: String,
    /// Where each one ends; it begins where the one before it ends.
    ends: Vec<usize>,
}

impl Model for LabelSets {
    ghost use Rattle.std.specs.Prelude.{List, ℕ, string_bytes};
    ghost use Rattle.prom_exporter.specs.Pieces.{pieces, AreCuts};

    ghost Value = { List (List ℕ) };

    ghost view = { λ label_sets. pieces (string_bytes label_sets.text) 0 label_sets.ends.items };

    ghost invariant = { λ label_sets. AreCuts (string_bytes label_sets.text) 0 label_sets.ends.items };
}

impl LabelSets {
    /// None.
    pub(crate) fn new(alloc: Global) -> LabelSets
        ensures { result ≡ [] }
    {
        LabelSets {
            text: String::new(alloc),
            ends: Vec::new(alloc),
        }
    }

    /// Keeps the label set of a series with this key, behind the others.
    pub(crate) fn push(
        &mut self,
        key: &Key,
        globals: &IndexMap<String, String, HashStart>,
    ) -> Result<(), Memory>
        ensures pushed { OnOk result (self.new ≡ self.old ++ label_set_of
            (labels_of globals.now.entries) key.now ∷ []) }
        ensures refused { OnErr result (self.new ≡ self.old) }
    {
        let begin = self.text.len();
        push_row_labels(&mut self.text, key, globals)?;
        let end = self.text.len();
        let Ok(()) = self.ends.push(end) else {
            self.text.truncate(begin);
            return Err(Memory);
        };
        Ok(())
    }

    /// Makes room for where so many more of them end.
    pub(crate) fn reserve(&mut self, count: usize) -> Result<(), Memory>
        ensures { self.new ≡ self.old }
    {
        self.ends.reserve(count)?;
        Ok(())
    }

    /// How many there are.
    pub(crate) fn len(&self) -> usize
        ensures { result ≡ length self.now }
    {
        self.ends.len()
    }

    /// Keeps so many from the front.
    pub(crate) fn truncate(&mut self, count: usize)
        ensures { self.new ≡ take count self.old }
    {
        if count >= self.ends.len() {
            return;
        }
        let end = begin_at(self.ends.as_slice(), count);
        let _text = self.text.as_str();
        self.ends.truncate(count);
        self.text.truncate(end);
    }

    /// Lets all of them go.
    pub(crate) fn clear(&mut self)
        ensures { self.new ≡ [] }
    {
        self.truncate(0);
    }

    /// The one at a place, from 0, if there is one.
    pub(crate) fn get(&self, place: usize) -> Option<&str>
        ensures { option_copied result ≡ slice_get self.now place }
    {
        let ends = self.ends.as_slice();
        let end = *ends.get(place)?;
        let begin = begin_at(ends, place);
        let text = self.text.as_str();
        Some(&text[begin..end])
    }
}

/// Where the text at a place begins, of those that end here: where the one before it ends.
fn begin_at(ends: &[usize], place: usize) -> usize
    requires { place ≤ length ends.now }
    ensures { result ≡ slice_index (0 ∷ ends.now) place }
{
    if place == 0 { 0 } else { ends[place - 1] }
}
